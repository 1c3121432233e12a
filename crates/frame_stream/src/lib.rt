// Frames that arrive in pieces: the reader of frames is one of those that `stream` speaks of. There is no code.

#![tactic(auto)]
