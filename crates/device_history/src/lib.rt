// Theorems over lists of calls at a device's end: what they count is in specs/, their proofs in proofs/. There is no code.

#![tactic(auto)]
