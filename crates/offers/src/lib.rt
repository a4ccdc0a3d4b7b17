// What each part of a term offers has no code: its definitions are in specs/, why it tells every step in proofs/.
#![tactic(auto)]
