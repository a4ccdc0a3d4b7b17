// The operations' promises have no code: their definitions are in specs/, their theorems in proofs/.
#![tactic(auto)]
