// A connection's calls. Each works on bytes that its caller lends: the state, both stores, received bytes, an outgoing and a
// reader's buffer. It takes at most one packet and writes at most two frames. Here is what they share; each call has a crate
// of its own, named after it. What is lent stays so many parameters, and no struct: one would hold `&mut`s, and each function that takes it
// would promise besides that it is the same memory.
#![tactic(auto)]

pub mod act;
pub mod admit;
pub mod ends;
pub mod frames;
pub mod recv;

use connection::Answer;

// What a call answers, how many received bytes it used, and how many bytes of frames it wrote.
#[derive(Clone, Copy)]
pub struct Reply {
    pub answer: Answer,
    pub used: usize,
    pub written: usize,
}
