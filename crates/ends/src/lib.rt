// Theorems over lists of calls of both ends, with two lines of bytes between them: what they say is in specs/, their proofs in proofs/.
// There is no code.

#![tactic(auto)]
