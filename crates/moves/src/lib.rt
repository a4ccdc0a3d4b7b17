// One pass over a term for a step: its definitions are in specs/, why it decides the rules in proofs/.
#![tactic(auto)]
