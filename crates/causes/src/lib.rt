// The causes of a verdict on terms have no code: the definitions are in specs/, the theorems in proofs/.
#![tactic(auto)]
