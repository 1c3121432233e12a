// One channel's numbers, by value, and the answers of what is done to them: `slot_send` and `slot_receive` have what a packet, a
// read and a write do. Its bytes are `rx_store`'s.
#![tactic(auto)]

pub mod ids;

ghost use Rattle.std.specs.Prelude.{◌≡◌};
ghost use Rattle.slot.specs.Numbers.{fault_number, error_number, taken_number, budget_number};
ghost use Rattle.slot.specs.Slot.{empty_slot, opening_slot, accepted_slot, is_opening, is_closed, is_failed, ids_of, error_of};
ghost use Rattle.slot.specs.Slot.{closed_slot, failed_slot, with_state, with_remote, with_sending, with_numbers, with_total, emptied_slot};

use config::negotiated::RxPolicy;
use credit::CreditFault;
use ids::{ChannelIds, LocalId, RemoteId};
use refusal::{NOTHING, Numbered, WAITING, found_number_of, there_number_of};

#[derive(Clone, Copy, Debug, Default, PartialEq, Eq)]
pub enum ChannelState {
    // An OPEN was sent and not answered yet.
    #[default]
    Opening,
    Open,
    Closed,
}

// What is wrong with a packet for a channel: refusals 11, those of a credit (5, 20, 21), and 6.
#[derive(Clone, Copy, Debug, PartialEq, Eq)]
pub enum ChannelFault {
    RxOverflow,
    BadCredit(CreditFault),
    UnexpectedCommand,
}

// Why a channel can't be read or written any more.
#[derive(Clone, Copy, Debug, PartialEq, Eq)]
pub enum ChannelError {
    Closed,
    Fault(ChannelFault),
}

// Flags stand beside the numbers that they say something of, and no Option or enum holds both: the slot is its bytes in the lent state
// (docs/LAYOUT.md), which come back as they were, whatever number stands beside a flag that is off (the law `state-back`).
#[derive(Clone, Copy, Default)]
pub struct ChannelSlot {
    // Whether a channel is here.
    pub filled: bool,
    pub local: LocalId,
    pub remote: RemoteId,
    // Whether the device's number is known.
    pub has_remote: bool,
    pub state: ChannelState,
    // Whether the last WRTE was acknowledged, where acknowledgements are not delayed.
    pub wrte_acked: bool,
    // Bytes that may still be sent, where acknowledgements are delayed.
    pub send_budget: i64,
    // Bytes that the device has had no OKAY for yet.
    pub unacked: usize,
    // Bytes at the front of the run that a read has acknowledged and not taken yet. These three have 32 bits, as in the lent bytes.
    pub settled: u32,
    // Where the run of buffered bytes begins in the share.
    pub head: u32,
    // Bytes waiting to be read.
    pub buffered: u32,
    // Bytes that our OKAYs have allowed the device since the place was last filled, where acknowledgements are delayed: it stops at
    // the largest value, and stays when the channel is closed.
    pub acked_total: usize,
    // The fault that it was closed with, if any.
    pub failed: Option<ChannelFault>,
}

// What a WRTE or a settling leaves, and the length of the acknowledgement that is due now, if one is.
#[derive(Clone, Copy)]
pub struct Settled {
    pub slot: ChannelSlot,
    pub ack: Option<usize>,
}

// How far a WRTE may go where the budget is above 0: to its end, or past it, so that the budget may fall below 0.
#[derive(Clone, Copy, Debug, PartialEq, Eq)]
pub enum Spending {
    Within,
    Beyond,
}

// What a read finds buffered: the slot as it leaves it and how many bytes it takes from the front of the run, nothing, or why
// there will be nothing more.
pub type Taken = Result<Option<(ChannelSlot, usize)>, ChannelError>;

// The numbers of answers (docs/SCOPE.md, 6): a refusal's own, 0 where there is none, 100 for waiting, 101 for nothing there.

impl Numbered for ChannelFault {
    ghost number = { fault_number };

    fn number(self) -> u32 {
        match self {
            ChannelFault::RxOverflow => 11,
            ChannelFault::BadCredit(fault) => fault.number(),
            ChannelFault::UnexpectedCommand => 6,
        }
    }
}

impl Numbered for ChannelError {
    ghost number = { error_number };

    fn number(self) -> u32 {
        match self {
            ChannelError::Closed => 10,
            ChannelError::Fault(fault) => fault.number(),
        }
    }
}

// Of a read. Public functions with promises of their own, here and in `incoming`, each one call of refusal's.
pub fn taken_number(taken: Taken) -> u32
    ensures { result ≡ taken_number taken }
{
    found_number_of(taken, NOTHING)
}

// Of how many bytes may be sent now: none is waiting.
pub fn budget_number(budget: Option<usize>) -> u32
    ensures { result ≡ budget_number budget }
{
    there_number_of(budget, WAITING)
}

#[tactic(auto, unfolding(crate::specs::Slot::is_opening))]
pub fn is_opening(state: ChannelState) -> bool
    ensures { result ≡ is_opening state }
{
    state == ChannelState::Opening
}

#[tactic(auto, unfolding(crate::specs::Slot::is_closed))]
pub fn is_closed(state: ChannelState) -> bool
    ensures { result ≡ is_closed state }
{
    state == ChannelState::Closed
}

impl ChannelSlot {
    // A slot with no channel.
    #[tactic(auto, unfolding(crate::specs::Slot::empty_slot))]
    pub fn empty() -> ChannelSlot
        ensures { result ≡ empty_slot }
    {
        ChannelSlot::default()
    }

    // A channel whose OPEN was sent.
    #[tactic(auto, unfolding(crate::specs::Slot::opening_slot, crate::specs::Slot::empty_slot))]
    pub fn opening(local: LocalId) -> ChannelSlot
        ensures { result ≡ opening_slot local }
    {
        ChannelSlot {
            filled: true,
            local,
            wrte_acked: true,
            ..ChannelSlot::empty()
        }
    }

    pub fn with_state(self, state: ChannelState) -> ChannelSlot
        ensures { result ≡ with_state self state }
    {
        ChannelSlot { state, ..self }
    }

    pub fn with_remote(self, remote: RemoteId) -> ChannelSlot
        ensures { result ≡ with_remote self remote }
    {
        ChannelSlot {
            remote,
            has_remote: true,
            ..self
        }
    }

    pub fn with_sending(self, wrte_acked: bool, send_budget: i64) -> ChannelSlot
        ensures { result ≡ with_sending self wrte_acked send_budget }
    {
        ChannelSlot {
            wrte_acked,
            send_budget,
            ..self
        }
    }

    pub fn with_numbers(self, unacked: usize, settled: u32, head: u32, buffered: u32) -> ChannelSlot
        ensures { result ≡ with_numbers self unacked settled head buffered }
    {
        ChannelSlot {
            unacked,
            settled,
            head,
            buffered,
            ..self
        }
    }

    pub fn with_total(self, acked_total: usize) -> ChannelSlot
        ensures { result ≡ with_total self acked_total }
    {
        ChannelSlot {
            acked_total,
            ..self
        }
    }

    // The place of a channel that we closed: nothing of it stays but the total.
    #[tactic(auto, unfolding(crate::specs::Slot::emptied_slot))]
    pub fn emptied(self) -> ChannelSlot
        ensures { result ≡ emptied_slot self }
    {
        ChannelSlot::empty().with_total(self.acked_total)
    }

    // A channel that the device opened and we take, with the credit of its OPEN.
    #[tactic(auto, unfolding(crate::specs::Slot::accepted_slot, crate::specs::Slot::opening_slot))]
    pub fn accepted(ids: ChannelIds, credit: u32, policy: RxPolicy) -> ChannelSlot
        ensures { result ≡ accepted_slot ids credit policy }
    {
        let slot = ChannelSlot::opening(ids.local)
            .with_remote(ids.remote)
            .with_state(ChannelState::Open);
        if policy.delayed {
            return slot.with_sending(true, i64::from(credit));
        }
        slot
    }

    #[tactic(auto, unfolding(crate::specs::Slot::is_failed))]
    pub fn is_failed(self) -> bool
        ensures { result ≡ is_failed self.failed }
    {
        self.failed.is_some()
    }

    // Our number, with one that a packet gave for the device's.
    pub fn ids_with(self, remote: RemoteId) -> ChannelIds
        ensures { result ≡ record { local = self.local; remote = remote } }
    {
        ChannelIds {
            local: self.local,
            remote,
        }
    }

    // A channel's numbers, once the device's is known.
    #[tactic(auto, unfolding(crate::specs::Slot::ids_of))]
    pub fn ids(self) -> Option<ChannelIds>
        ensures { result ≡ ids_of self }
    {
        self.has_remote.then_some(self.ids_with(self.remote))
    }

    // Why nothing can be read or written any more.
    #[tactic(auto, unfolding(crate::specs::Slot::error_of))]
    pub fn closed_error(self) -> ChannelError
        ensures { result ≡ error_of self.failed }
    {
        match self.failed {
            None => ChannelError::Closed,
            Some(fault) => ChannelError::Fault(fault),
        }
    }

    #[tactic(auto, unfolding(crate::specs::Slot::closed_slot))]
    pub fn apply_close(self) -> ChannelSlot
        ensures { result ≡ closed_slot self }
    {
        self.with_state(ChannelState::Closed)
            .with_numbers(0, self.settled, self.head, self.buffered)
    }

    // Closes the channel for a fault of its own.
    #[tactic(auto, unfolding(crate::specs::Slot::failed_slot, crate::specs::Slot::closed_slot))]
    pub fn fail(self, fault: ChannelFault) -> ChannelSlot
        ensures { result ≡ failed_slot self fault }
    {
        ChannelSlot {
            failed: Some(fault),
            ..self.apply_close()
        }
    }
}
