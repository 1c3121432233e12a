// What the calls of a device's end share: the lent state, which is a few bytes of its own and then a connection's state as the host's
// end has it; what comes ahead of every call; and what is done with a packet once a call's own step has run without one.
#![tactic(auto)]

pub mod head;
pub mod judge;
pub mod meet;

use config::negotiated::Negotiated;
use connection::Answer;
use slot::ids::RemoteId;
use table::ChannelId;

// What a call answers: as a call of the host's end does, or that it took an OPEN, with its channel, the host's number and where the
// name begins in the table, or that it answered the host's CNXN, with what was negotiated.
#[derive(Clone, Copy)]
pub enum DeviceAnswer {
    Plain(Answer),
    Taken(ChannelId, RemoteId, usize),
    Connected(Negotiated),
}

// What a call answers, how many received bytes it used, and how many bytes it wrote.
#[derive(Clone, Copy)]
pub struct DeviceReply {
    pub answer: DeviceAnswer,
    pub used: usize,
    pub written: usize,
}
