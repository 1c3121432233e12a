// What a connection's calls answer. The calls are defined in specs/; their code is in `call`, which has what they share, and in a crate
// for each, named after it.
#![tactic(auto)]

ghost use Rattle.std.specs.Prelude.{◌≡◌, cond};
ghost use Rattle.connection.specs.Answer.{refusal_number, answer_number};
ghost use Rattle.connection.specs.Calls.{fault_refusal, error_refusal};

use credit::CreditFault;
use refusal::{NOTHING, Numbered, WAITING};
use slot::ids::RemoteId;
use slot::{ChannelError, ChannelFault};
use table::ChannelId;

// The refusals (docs/SCOPE.md, 6).
#[derive(Clone, Copy, Debug, PartialEq, Eq)]
pub enum Refusal {
    // With the word that names no command, in 64 bits as the other values of answers: an answer is loaded in words of 64
    // bits, and the processor does not forward a store of 32 to such a load.
    InvalidCommand(u64),
    InvalidMagic,
    PayloadTooLarge,
    InvalidChecksum,
    // 5, 20 and 21. Two calls make it of a CreditFault, by its name, which says more there than a From would.
    BadCredit(CreditFault),
    UnexpectedCommand,
    BadConfig,
    StoreShort,
    OutShort,
    ChannelClosed,
    ChannelRxOverflow,
    NoFreeChannels,
    BrokenState,
}

#[derive(Clone, Copy)]
pub enum Answer {
    Done,
    // The frame is not all there, or one packet was handled and the call's end has not come.
    Waiting,
    // take: nothing is buffered; take_front: none is queued; accept, reject, let go: none is offered.
    Nothing,
    Opened(ChannelId),
    Settled(Option<usize>),
    // Bytes handed over.
    Read(usize),
    // Bytes sent.
    Written(usize),
    // A queued open's number, credit, and its destination's place and length in the open store.
    Front(RemoteId, u32, usize, usize),
    // A channel's numbers: whether it is closed, what our OKAYs allowed the device, bytes buffered and unacknowledged, and the send
    // budget in two's complement.
    Numbers(bool, usize, u32, usize, u64),
    // A case, not a Result's error: a call that refuses may have used bytes and written frames, so that `?` never applies.
    Refused(Refusal),
}

// What stops a call where received bytes give no packet: its answer, and the bytes used.
pub type Stop = (Answer, usize);

impl Numbered for Refusal {
    ghost number = { refusal_number };

    fn number(self) -> u32 {
        match self {
            Refusal::InvalidCommand(_) => 1,
            Refusal::InvalidMagic => 2,
            Refusal::PayloadTooLarge => 3,
            Refusal::InvalidChecksum => 4,
            Refusal::BadCredit(fault) => fault.number(),
            Refusal::UnexpectedCommand => 6,
            Refusal::BadConfig => 7,
            Refusal::StoreShort => 8,
            Refusal::OutShort => 9,
            Refusal::ChannelClosed => 10,
            Refusal::ChannelRxOverflow => 11,
            Refusal::NoFreeChannels => 12,
            Refusal::BrokenState => 13,
        }
    }
}

// The refusal of a fault that a packet showed.
impl From<ChannelFault> for Refusal {
    ghost from_gives = { λ fault refusal. refusal ≡ fault_refusal fault };

    fn from(fault: ChannelFault) -> Refusal {
        match fault {
            ChannelFault::RxOverflow => Refusal::ChannelRxOverflow,
            ChannelFault::BadCredit(credit) => Refusal::BadCredit(credit),
            ChannelFault::UnexpectedCommand => Refusal::UnexpectedCommand,
        }
    }
}

// Of a channel that can't be read or written any more.
impl From<ChannelError> for Refusal {
    ghost from_gives = { λ error refusal. refusal ≡ error_refusal error };

    fn from(error: ChannelError) -> Refusal {
        match error {
            ChannelError::Closed => Refusal::ChannelClosed,
            ChannelError::Fault(fault) => Refusal::from(fault),
        }
    }
}

// The number of an answer with a channel's numbers.
fn open_number(closed: bool) -> u32
    ensures { result ≡ cond closed 102 0 }
{
    if closed { 102 } else { 0 }
}

impl Answer {
    // 0, a refusal's number, 100 for waiting, 101 for nothing there, 102 for the numbers of a closed channel.
    pub fn number(self) -> u32
        ensures { result ≡ answer_number self }
    {
        match self {
            Answer::Done => 0,
            Answer::Waiting => WAITING,
            Answer::Nothing => NOTHING,
            Answer::Opened(_) => 0,
            Answer::Settled(_) => 0,
            Answer::Read(_) => 0,
            Answer::Written(_) => 0,
            Answer::Front(_, _, _, _) => 0,
            Answer::Numbers(closed, _, _, _, _) => open_number(closed),
            Answer::Refused(refusal) => refusal.number(),
        }
    }
}
