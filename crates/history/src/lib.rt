// Theorems over lists of calls: what they count is in specs/, their proofs in proofs/. There is no code.

#![tactic(auto)]
