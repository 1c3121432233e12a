// Opening a channel: the OPEN, and then the packet that answers it.
// `as usize` widens a u32: std has no From for it, as usize may be narrower elsewhere.
#![tactic(auto)]

ghost use Rattle.std.specs.Prelude.{◌≡◌, ◌≤◌, length};
ghost use Rattle.state.specs.State.{state_len, state_of};
ghost use Rattle.connection.specs.Calls.{pending_for, still_pending};
ghost use Rattle.call.specs.Promise.{pending_channel, Admits, BeginsState};
ghost use Rattle.protocol.specs.Message.{message_size};
ghost use Rattle.call_open.specs.Promise.{AwaitOpenAckAsks, AwaitOpenAckLeaves, CloseOpenLeaves, OpenActAsks, OpenActLeaves, OpenChannelLeaves};
ghost use Rattle.call_open.specs.Promise.{OpenLeaves, OpenPacketAsks, OpenPacketLeaves, OpenReadyAsks, OpenReadyLeaves, OpenStepLeaves};

use call::Reply;
use call::act::act_on;
use call::admit::{admit_out, drop_pending, refused};
use call::ends::{ends, ends_with};
use call::frames::{put_close, put_open};
use call::recv::{is_own, recv_pkt, unless_fault};
use connection::{Answer, Refusal};
use protocol::packet::Packet;
use slot::ChannelSlot;
use slot::ids::{ChannelIds, RemoteId};
use state::{Header, Pending, PendingOpen};
use table::{ChannelId, NoFreeChannels, allocate, numbered};

// A header with a pending open.
fn pending_for(h: Header, ch: ChannelId) -> Header
    ensures { result ≡ pending_for h ch }
{
    Header {
        pending: PendingOpen {
            what: Pending::Opening,
            slot: ch.slot,
            local: ch.local,
        },
        ..h
    }
}

// An open stays pending where the answer is waiting, and ends otherwise.
fn still_pending(answer: Answer, h: Header) -> Header
    ensures { result ≡ still_pending answer h }
{
    match answer {
        Answer::Waiting => h,
        _ => drop_pending(h),
    }
}

// The channel of the pending open.
fn pending_channel(h: Header) -> ChannelId
    ensures { result ≡ pending_channel h }
{
    ChannelId {
        slot: h.pending.slot,
        local: h.pending.local,
    }
}

// An open ends by a CLSE, and answers why.
fn close_open(
    state: &mut [u8],
    out: &mut [u8],
    h: Header,
    remote: RemoteId,
    why: Refusal,
    used: usize,
) -> Reply
    requires { (state_len ≤ length state.old) × (message_size ≤ length out.old) }
    ensures { CloseOpenLeaves state.old out.old h remote.0 why used result state.new out.new }
{
    let ids = ChannelIds {
        local: h.pending.local,
        remote,
    };
    let end = put_close(out, 0, h.negotiated, ids);
    ends(state, drop_pending(h), Answer::Refused(why), used, end)
}

// The OKAY of an open fills its slot, or ends the open where its credit is cut short.
fn open_ready(state: &mut [u8], received: &[u8], out: &mut [u8], h: Header, packet: Packet) -> Reply
    requires { OpenReadyAsks state.old received.now out.old h packet }
    ensures { OpenReadyLeaves state.old received.now out.old h packet result state.new out.new }
{
    let n = h.negotiated;
    let ch = pending_channel(h);
    let remote = RemoteId(packet.arg0);
    let used = packet.frame_len();
    let payload = packet.payload_in(received);
    let opening = ChannelSlot::opening(ch.local);
    match slot_send::accept_open_ready(opening, remote, payload, n.rx_policy()) {
        Ok(slot) => {
            let opened = Answer::Opened(ch);
            ends_with(state, ch, slot, drop_pending(h), opened, used, 0)
        }
        Err(fault) => close_open(state, out, h, remote, Refusal::BadCredit(fault), used),
    }
}

// Any other packet is dispatched.
fn open_act(
    state: &mut [u8],
    rx: &mut [u8],
    store: &mut [u8],
    received: &[u8],
    out: &mut [u8],
    h: Header,
    packet: Packet,
) -> Reply
    requires { OpenActAsks state.old rx.old store.old received.now out.old h packet }
    ensures { OpenActLeaves state.old rx.old store.old received.now
        out.old packet result state.new rx.new store.new out.new }
{
    let used = packet.frame_len();
    let payload = packet.payload_in(received);
    let acted = act_on(state, rx, store, out, 0, h, packet, payload);
    let answer = unless_fault(acted.fault, Answer::Waiting);
    let later = still_pending(answer, acted.header);
    ends(state, later, answer, used, acted.end)
}

// A packet, while an open is pending.
fn open_packet(
    state: &mut [u8],
    rx: &mut [u8],
    store: &mut [u8],
    received: &[u8],
    out: &mut [u8],
    h: Header,
    packet: Packet,
) -> Reply
    requires { OpenPacketAsks state.old rx.old store.old received.now out.old h packet }
    ensures { OpenPacketLeaves state.old rx.old store.old received.now
        out.old h packet result state.new rx.new store.new out.new }
{
    let command = packet.command;
    let local = pending_channel(h).local;
    if is_own(command.is_ready(), packet.arg1, local) {
        return open_ready(state, received, out, h, packet);
    }
    if is_own(command.is_write(), packet.arg1, local) {
        let used = packet.frame_len();
        let why = Refusal::UnexpectedCommand;
        return close_open(state, out, h, RemoteId(packet.arg0), why, used);
    }
    if is_own(command.is_close(), packet.arg1, local) {
        let used = packet.frame_len();
        let closed = Answer::Refused(Refusal::ChannelClosed);
        return ends(state, drop_pending(h), closed, used, 0);
    }
    open_act(state, rx, store, received, out, h, packet)
}

// An open goes on.
fn await_open_ack(
    state: &mut [u8],
    rx: &mut [u8],
    store: &mut [u8],
    received: &[u8],
    out: &mut [u8],
    h: Header,
) -> Reply
    requires { AwaitOpenAckAsks state.old rx.old store.old out.old h }
    ensures { AwaitOpenAckLeaves state.old rx.old store.old received.now
        out.old h result state.new rx.new store.new out.new }
{
    match recv_pkt(received, h.negotiated.config.max_payload) {
        Err((answer, used)) => ends(state, still_pending(answer, h), answer, used, 0),
        Ok(packet) => open_packet(state, rx, store, received, out, h, packet),
    }
}

// An open begins: its OPEN is written, and it is pending. Nothing is in the header that it gets.
fn open_channel(state: &mut [u8], destination: &[u8], out: &mut [u8], h: Header) -> Reply
    requires { BeginsState state.old (length out.old) h }
    ensures { OpenChannelLeaves state.old destination.now out.old result state.new out.new }
{
    match allocate(state, h) {
        Err(NoFreeChannels) => ends(state, h, Answer::Refused(Refusal::NoFreeChannels), 0, 0),
        Ok(ch) => {
            let len = destination.len();
            if len > Packet::MAX_PAYLOAD as usize {
                let large = Answer::Refused(Refusal::PayloadTooLarge);
                return ends(state, numbered(h), large, 0, 0);
            }
            if out.len() < Packet::MESSAGE_SIZE + len {
                return refused(Refusal::OutShort);
            }
            let end = put_open(out, 0, h.negotiated, ch.local, destination);
            ends(state, pending_for(numbered(h), ch), Answer::Waiting, 0, end)
        }
    }
}

fn open_step(
    state: &mut [u8],
    rx: &mut [u8],
    store: &mut [u8],
    destination: &[u8],
    received: &[u8],
    out: &mut [u8],
    h: Header,
) -> Reply
    requires { Admits state.old rx.old store.old (length out.old) × (h ≡ (state_of state.old).header) }
    ensures { OpenStepLeaves state.old rx.old store.old destination.now
        received.now out.old result state.new rx.new store.new out.new }
{
    if h.pending.what.is_ours() {
        return await_open_ack(state, rx, store, received, out, h);
    }
    open_channel(state, destination, out, drop_pending(h))
}

// A channel to the destination: the first call writes the OPEN, and those after it each take a packet until one answers it.
pub fn open(
    state: &mut [u8],
    rx: &mut [u8],
    store: &mut [u8],
    destination: &[u8],
    received: &[u8],
    out: &mut [u8],
) -> Reply
    ensures { OpenLeaves state.old rx.old store.old destination.now
        received.now out.old result state.new rx.new store.new out.new }
{
    match admit_out(state, rx.len(), store.len(), out.len()) {
        Err(refusal) => refused(refusal),
        Ok(h) => open_step(state, rx, store, destination, received, out, h),
    }
}
