// Readers of bytes that arrive in pieces: definitions in specs/, the law of the cut in proofs/. There is no code.

#![tactic(auto)]
