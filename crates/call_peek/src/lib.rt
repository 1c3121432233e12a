// What a dispatch of received bytes would answer, and what their packet is for: a call that only looks, so that nothing of what it is
// lent changes. Of the stores it is lent the lengths alone, since no answer of dispatch depends on their bytes.
#![tactic(auto)]

ghost use Rattle.std.specs.Prelude.{◌≡◌, ◌≤◌, ◌<◌, length, IfSome};
ghost use Rattle.slot.specs.Slot.{SlotOk};
ghost use Rattle.state.specs.State.{state_len, state_of};
ghost use Rattle.table.specs.Table.{below};
ghost use Rattle.table_dispatch.specs.Dispatch.{Walks};
ghost use Rattle.call_peek.specs.Promise.{no_packet, close_place, place_for, has_channel, is_for_open, channel_or_open, peeked, AsDispatch, InTable};
ghost use Rattle.call_peek.specs.Parts.{fault_of, fault_at, peeked_by, Channels, Peeking};

use call::admit::admit;
use call::recv::{recv_pkt, unless_fault};
use config::negotiated::RxPolicy;
use connection::Answer;
use protocol::command::Command;
use protocol::packet::Packet;
use slot::ids::{ChannelIds, LocalId, RemoteId};
use slot::{ChannelFault, ChannelSlot};
use state::{Header, PendingOpen, slot_at};
use table::{ChannelId, Want, place_below};
use table_dispatch::remote_place;

// What a packet is for.
#[derive(Clone, Copy)]
pub enum PacketFor {
    // No packet is there, or it is for no channel of ours.
    NoChannel,
    Channel(ChannelId),
    // Our open, which is pending.
    OurOpen,
}

// A dispatch's answer, the bytes that it would use, and what the packet is for.
#[derive(Clone, Copy)]
pub struct Preview {
    pub answer: Answer,
    pub used: usize,
    pub is_for: PacketFor,
}

// An answer where there is no packet.
fn no_packet(answer: Answer, used: usize) -> Preview
    ensures { result ≡ no_packet answer used }
{
    Preview {
        answer,
        used,
        is_for: PacketFor::NoChannel,
    }
}

// The slot that a CLSE would close.
#[tactic(auto, unfolding(crate::specs::Promise::close_place))]
fn close_place(state: &[u8], n: usize, ids: ChannelIds) -> Option<usize>
    requires { Walks state.now n }
    ensures { result ≡ close_place n (state_of state.now).slots ids }
{
    if ids.local.0 == 0 {
        return remote_place(state, n, ids.remote);
    }
    place_below(state, n, Want::Local(ids.local))
}

// The slot of the channel that a packet is for.
#[tactic(auto, unfolding(crate::specs::Promise::place_for, crate::specs::Promise::place_as))]
fn place_for(state: &[u8], n: usize, packet: Packet) -> Option<usize>
    requires { Walks state.now n }
    ensures { result ≡ place_for n (state_of state.now).slots packet }
{
    let ids = ChannelIds {
        local: LocalId(packet.arg1),
        remote: RemoteId(packet.arg0),
    };
    match packet.command {
        Command::Ready => place_below(state, n, Want::Local(ids.local)),
        Command::Write => place_below(state, n, Want::Local(ids.local)),
        Command::Close => close_place(state, n, ids),
        _ => None,
    }
}

// Whether packets of a kind are for a channel of ours.
#[tactic(auto, unfolding(crate::specs::Promise::has_channel))]
fn has_channel(command: Command) -> bool
    ensures { result ≡ has_channel command }
{
    matches!(command, Command::Ready | Command::Write | Command::Close)
}

// Whether a packet is for our pending open.
#[tactic(auto, unfolding(crate::specs::Promise::is_for_open))]
fn is_for_open(pending: PendingOpen, packet: Packet) -> bool
    ensures { result ≡ is_for_open pending packet }
{
    has_channel(packet.command) && pending.what.is_ours() && packet.arg1 == pending.local.0
}

// What a packet is for, once its slot is known.
#[tactic(auto, unfolding(crate::specs::Promise::channel_or_open))]
fn channel_or_open(
    state: &[u8],
    pending: PendingOpen,
    packet: Packet,
    place: Option<usize>,
) -> PacketFor
    requires { (state_len ≤ length state.now) × IfSome place (λ i. i < 64) }
    ensures { result ≡ channel_or_open (state_of state.now).slots pending packet place }
{
    match place {
        Some(slot) => {
            let local = slot_at(state, slot).local;
            PacketFor::Channel(ChannelId { slot, local })
        }
        None => {
            if is_for_open(pending, packet) {
                return PacketFor::OurOpen;
            }
            PacketFor::NoChannel
        }
    }
}

// What is wrong with a packet for a channel. In a whole state the channel is not failed and not opening.
#[tactic(auto, unfolding(crate::specs::Parts::fault_of, crate::specs::Parts::credit_fault, crate::specs::Parts::write_fault))]
fn fault_of(
    s: ChannelSlot,
    packet: Packet,
    payload: &[u8],
    policy: RxPolicy,
) -> Option<ChannelFault>
    requires { SlotOk s policy.rx_cap }
    ensures { result ≡ fault_of policy s packet.command payload.now }
{
    match packet.command {
        Command::Ready => match slot_send::apply_ready(s, payload, policy) {
            Err(credit) => Some(ChannelFault::BadCredit(credit)),
            Ok(_) => None,
        },
        Command::Write => slot_receive::apply_write(s, payload.len(), policy).err(),
        _ => None,
    }
}

// The same for the channel in a slot, if there is one.
#[tactic(auto, unfolding(crate::specs::Parts::fault_at))]
fn fault_at(
    state: &[u8],
    place: Option<usize>,
    packet: Packet,
    payload: &[u8],
    policy: RxPolicy,
) -> Option<ChannelFault>
    requires { Channels state.now place policy.rx_cap }
    ensures { result ≡ fault_at policy (state_of state.now).slots packet.command payload.now place }
{
    match place {
        Some(i) => fault_of(slot_at(state, i), packet, payload, policy),
        None => None,
    }
}

// The call, once it is admitted.
#[tactic(auto, unfolding(crate::specs::Parts::peeked_by, crate::specs::Parts::peeked_as))]
fn peek_step(state: &[u8], received: &[u8], h: Header) -> Preview
    requires { Peeking state.now h }
    ensures { result ≡ peeked_by (state_of state.now) received.now }
{
    let n = h.negotiated;
    match recv_pkt(received, n.config.max_payload) {
        Err((answer, used)) => no_packet(answer, used),
        Ok(packet) => {
            let payload = packet.payload_in(received);
            let place = place_for(state, n.config.channels, packet);
            let fault = fault_at(state, place, packet, payload, n.rx_policy());
            Preview {
                answer: unless_fault(fault, Answer::Done),
                used: packet.frame_len(),
                is_for: channel_or_open(state, h.pending, packet, place),
            }
        }
    }
}

// The answer of a dispatch of these bytes, how many of them it would use, and what their packet is for. No received byte is
// copied: it costs the test of the state, and the sum where the packet has a check.
pub fn peek(state: &[u8], rx: usize, store: usize, received: &[u8]) -> Preview
    ensures answered { result ≡ peeked state.now rx store received.now }
    ensures as_dispatch { AsDispatch state.now rx store received.now result }
    ensures in_table { InTable state.now result.is_for }
{
    match admit(state, rx, store) {
        Err(refusal) => no_packet(Answer::Refused(refusal), 0),
        Ok(h) => peek_step(state, received, h),
    }
}
