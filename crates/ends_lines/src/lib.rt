// Lines of bytes that are frames, one behind the other: what they hold is in specs/, its laws in proofs/. There is no code.

#![tactic(auto)]
