// One packet from the device: which slot it is for, and what it does there. The slot that changed is stored where it lies.
// `as usize` widens a u32: std has no From for it, as usize may be narrower elsewhere.
#![tactic(auto)]

ghost use Rattle.std.specs.Prelude.{◌≡◌, ◌+◌, ◌*◌, ◌≤◌, ◌<◌, length, IfSome};
ghost use Rattle.state.specs.Change.{Steps};
ghost use Rattle.state.specs.State.{state_len, state_of, slot_at};
ghost use Rattle.table.specs.Table.{below};
ghost use Rattle.table_dispatch.specs.Dispatch.{outcome_number, faulted, remote_place, closed_in, close_of, readied_of, ready_at, stray_of};
ghost use Rattle.table_dispatch.specs.Dispatch.{grant_of, buffered_at, wrote_at, write_of, dispatch_of, Dispatches, Walks, Share, Sound};

use config::negotiated::RxPolicy;
use credit::CreditFault;
use protocol::command::Command;
use protocol::packet::Packet;
use refusal::Numbered;
use slot::ids::{ChannelIds, LocalId, RemoteId};
use slot::{ChannelFault, ChannelSlot, is_opening};
use state::{put_slot, slot_at};
use table::{Want, place_below};

// What a packet was, and what it did: one of nine, matched at once by the step that writes the answer's frame. A closure for each would
// hand that step nine things to call.
#[derive(Clone, Copy)]
pub enum DispatchOutcome {
    // A WRTE was buffered and is to be acknowledged at once, with this length.
    AckWrite(usize, ChannelIds, usize),
    CreditGranted(usize),
    SlotClosed(usize),
    // A WRTE was buffered; its acknowledgement waits for the reader.
    DataBuffered(usize),
    // The device's number and credit; the destination is the payload.
    IncomingOpen(RemoteId, u32),
    CancelQueuedOpen(RemoteId),
    StrayReady(ChannelIds),
    // Refusals 5, 6 and 11: the slot, its numbers, and whether it still was opening.
    ChannelFault(usize, ChannelIds, bool, ChannelFault),
    Unmatched,
}

impl DispatchOutcome {
    // The number of the answer (docs/SCOPE.md, 6): a refusal's own, 0 where there is none.
    pub fn number(self) -> u32
        ensures { result ≡ outcome_number self }
    {
        match self {
            DispatchOutcome::AckWrite(_, _, _) => 0,
            DispatchOutcome::CreditGranted(_) => 0,
            DispatchOutcome::SlotClosed(_) => 0,
            DispatchOutcome::DataBuffered(_) => 0,
            DispatchOutcome::IncomingOpen(_, _) => 0,
            DispatchOutcome::CancelQueuedOpen(_) => 0,
            DispatchOutcome::StrayReady(_) => 0,
            DispatchOutcome::ChannelFault(_, _, _, fault) => fault.number(),
            DispatchOutcome::Unmatched => 0,
        }
    }
}

// What went wrong on a slot.
fn fault(i: usize, s: ChannelSlot, remote: RemoteId, fault: ChannelFault) -> DispatchOutcome
    ensures { result ≡ faulted i s remote fault }
{
    DispatchOutcome::ChannelFault(i, s.ids_with(remote), is_opening(s.state), fault)
}

// The lowest slot with the device's number that is not closed, or, where all are, the lowest.
pub fn remote_place(state: &[u8], n: usize, remote: RemoteId) -> Option<usize>
    requires { Walks state.now n }
    ensures { result ≡ below n (remote_place n (state_of state.now).slots remote) }
{
    if remote.0 == 0 {
        return None;
    }
    let live = place_below(state, n, Want::Live(remote));
    if live.is_some() {
        return live;
    }
    place_below(state, n, Want::Remote(remote))
}

// Closes the slot at a place, if there is one.
fn close_at(state: &mut [u8], place: Option<usize>, other: DispatchOutcome) -> DispatchOutcome
    requires { (state_len ≤ length state.old) × IfSome place (λ i. i < 64) }
    ensures { Steps (closed_in place (state_of state.old).slots other) state.old result state.new }
{
    match place {
        None => other,
        Some(i) => {
            let s = slot_at(state, i);
            put_slot(state, i, s.apply_close());
            DispatchOutcome::SlotClosed(i)
        }
    }
}

// A CLSE.
fn close(state: &mut [u8], n: usize, ids: ChannelIds) -> DispatchOutcome
    requires { Walks state.old n }
    ensures { Steps (close_of n (state_of state.old).slots ids.remote ids.local) state.old result state.new }
{
    if ids.local.0 == 0 {
        let place = remote_place(state, n, ids.remote);
        return close_at(state, place, DispatchOutcome::CancelQueuedOpen(ids.remote));
    }
    let place = place_below(state, n, Want::Local(ids.local));
    close_at(state, place, DispatchOutcome::Unmatched)
}

// What an OKAY does to a slot.
fn readied(
    s: ChannelSlot,
    remote: RemoteId,
    payload: &[u8],
    policy: RxPolicy,
) -> Result<ChannelSlot, CreditFault>
    ensures { result ≡ readied_of s remote payload.now policy }
{
    if is_opening(s.state) {
        return slot_send::accept_open_ready(s, remote, payload, policy);
    }
    slot_send::apply_ready(s, payload, policy)
}

// An OKAY for the slot at place i.
fn ready_at(
    state: &mut [u8],
    i: usize,
    remote: RemoteId,
    payload: &[u8],
    policy: RxPolicy,
) -> DispatchOutcome
    requires { Walks state.old (i + 1) }
    ensures { Steps (ready_at policy i (slot_at state.old i) remote payload.now) state.old result
        state.new }
{
    let s = slot_at(state, i);
    if s.is_failed() {
        return DispatchOutcome::Unmatched;
    }
    match readied(s, remote, payload, policy) {
        Err(credit) => fault(i, s, remote, ChannelFault::BadCredit(credit)),
        Ok(credited) => {
            put_slot(state, i, credited);
            DispatchOutcome::CreditGranted(i)
        }
    }
}

// An OKAY for no slot.
#[tactic(auto, unfolding(crate::specs::Dispatch::stray_of))]
fn stray(ids: ChannelIds) -> DispatchOutcome
    ensures { result ≡ stray_of ids.remote ids.local }
{
    if ids.remote.0 == 0 || ids.local.0 == 0 {
        return DispatchOutcome::Unmatched;
    }
    DispatchOutcome::StrayReady(ids)
}

// An OKAY.
fn ready(
    state: &mut [u8],
    n: usize,
    ids: ChannelIds,
    payload: &[u8],
    policy: RxPolicy,
) -> DispatchOutcome
    requires { Walks state.old n }
    ensures { Steps
        (grant_of policy n (state_of state.old).slots ids.remote ids.local payload.now) state.old
        result state.new }
{
    match place_below(state, n, Want::Local(ids.local)) {
        Some(i) => ready_at(state, i, ids.remote, payload, policy),
        None => stray(ids),
    }
}

// A WRTE was buffered: with the length to acknowledge at once, if it is.
fn buffered(i: usize, s: ChannelSlot, due: Option<usize>) -> DispatchOutcome
    ensures { result ≡ buffered_at i s due }
{
    match due {
        None => DispatchOutcome::DataBuffered(i),
        Some(len) => DispatchOutcome::AckWrite(i, s.ids_with(s.remote), len),
    }
}

// A WRTE for the slot at place i.
fn write_at(
    state: &mut [u8],
    rx: &mut [u8],
    i: usize,
    remote: RemoteId,
    payload: &[u8],
    policy: RxPolicy,
) -> DispatchOutcome
    requires { Share state.old rx.old i policy.rx_cap }
    ensures { Dispatches (wrote_at policy i (slot_at state.old i) remote payload.now rx.old)
        state.old result state.new rx.new }
{
    let s = slot_at(state, i);
    if s.is_failed() {
        return DispatchOutcome::Unmatched;
    }
    match slot_receive::apply_write(s, payload.len(), policy) {
        Err(why) => fault(i, s, remote, why),
        Ok(wrote) => {
            rx_store::buffer(
                rx,
                i,
                policy.rx_cap,
                s.head as usize,
                s.buffered as usize,
                payload,
            );
            put_slot(state, i, wrote.slot);
            buffered(i, s, wrote.ack)
        }
    }
}

// A WRTE.
fn write(
    state: &mut [u8],
    rx: &mut [u8],
    n: usize,
    ids: ChannelIds,
    payload: &[u8],
    policy: RxPolicy,
) -> DispatchOutcome
    requires { Sound state.old rx.old n policy.rx_cap }
    ensures { Dispatches
        (write_of policy n (state_of state.old).slots ids.remote ids.local payload.now rx.old)
        state.old result state.new rx.new }
{
    match place_below(state, n, Want::Local(ids.local)) {
        Some(i) => write_at(state, rx, i, ids.remote, payload, policy),
        None => DispatchOutcome::Unmatched,
    }
}

// One decoded packet: what it was, and what it did to the table. The payload goes beside its packet: it stays where it was received, and a
// Packet that held it would be a borrow.
pub fn dispatch(
    state: &mut [u8],
    rx: &mut [u8],
    n: usize,
    policy: RxPolicy,
    packet: Packet,
    payload: &[u8],
) -> DispatchOutcome
    requires { Sound state.old rx.old n policy.rx_cap }
    ensures { Dispatches (dispatch_of policy n (state_of state.old).slots packet payload.now rx.old)
        state.old result state.new rx.new }
{
    let ids = ChannelIds {
        local: LocalId(packet.arg1),
        remote: RemoteId(packet.arg0),
    };
    match packet.command {
        Command::Connect => DispatchOutcome::Unmatched,
        Command::Auth => DispatchOutcome::Unmatched,
        Command::StartTls => DispatchOutcome::Unmatched,
        Command::Open => DispatchOutcome::IncomingOpen(ids.remote, packet.arg1),
        Command::Close => close(state, n, ids),
        Command::Write => write(state, rx, n, ids, payload, policy),
        Command::Ready => ready(state, n, ids, payload, policy),
        Command::Sync => DispatchOutcome::Unmatched,
    }
}
