// The record has no code here: its definitions are in specs/, their laws in proofs/.
#![tactic(auto)]
