// Reading: what is buffered, or what one packet brings.
// `as usize` widens a u32: std has no From for it, as usize may be narrower elsewhere.
#![tactic(auto)]

ghost use Rattle.std.specs.Prelude.{◌≡◌, length};
ghost use Rattle.connection.specs.Calls.{is_direct};
ghost use Rattle.call.specs.Promise.{Begins, BeginsOn};
ghost use Rattle.call_read.specs.Promise.{ReadAgainLeaves, ReadChannelLeaves, ReadDirectAsks, ReadDirectLeaves, ReadLeaves, ReadMoreAsks};
ghost use Rattle.call_read.specs.Promise.{ReadMoreLeaves, ReadOtherAsks, ReadOtherLeaves, ReadPacketAsks, ReadPacketLeaves, ReadStepLeaves};
ghost use Rattle.call_read.specs.Promise.{TakeBufferedAsks, TakeBufferedLeaves, TakeRoom};

use call::Reply;
use call::act::act_on;
use call::admit::{admit_out, drop_pending, get, refused};
use call::ends::{ends_with, not_there};
use call::frames::{ids_in, put_ack};
use call::recv::{is_own, recv_pkt, unless_fault};
use connection::{Answer, Refusal};
use protocol::packet::Packet;
use slot::{ChannelFault, ChannelSlot};
use state::{Header, put_slot, slot_at};
use std::ops::ControlFlow;
use table::ChannelId;

// What a try to take came to: the call's end, or nothing is there. Then the slot as settled, which is not stored yet, and the place past
// the frames.
pub type Tried = ControlFlow<Reply, (ChannelSlot, usize)>;

// Settles what the reader's buffer takes, writes the OKAY that is due, and takes it.
fn take_buffered(
    state: &mut [u8],
    rx: &[u8],
    ch: ChannelId,
    slot: ChannelSlot,
    out: &mut [u8],
    at: usize,
    buf: &mut [u8],
    h: Header,
    used: usize,
    fault: Option<ChannelFault>,
) -> Tried
    requires { TakeBufferedAsks state.old rx.now ch slot out.old at buf.old h }
    ensures { TakeBufferedLeaves state.old rx.now ch out.old at buf.old h
        used fault result state.new out.new buf.new }
{
    let policy = h.negotiated.rx_policy();
    let settled = slot_receive::settle_take(slot, buf.len(), policy);
    let s = settled.slot;
    let end = put_ack(out, at, h.negotiated, settled);
    let taken = slot_receive::take_buffered(s, buf.len(), policy.rx_cap);
    match taken {
        Ok(Some((t, len))) => {
            rx_store::hand_over(rx, ch.slot, policy.rx_cap, s.head as usize, len, buf);
            ControlFlow::Break(ends_with(state, ch, t, h, Answer::Read(len), used, end))
        }
        Ok(None) => ControlFlow::Continue((s, end)),
        Err(error) => {
            let answer = unless_fault(fault, Answer::Refused(Refusal::from(error)));
            ControlFlow::Break(ends_with(state, ch, s, h, answer, used, end))
        }
    }
}

// The same behind a packet that was dispatched: the call's end, or waiting.
fn read_again(
    state: &mut [u8],
    rx: &[u8],
    ch: ChannelId,
    out: &mut [u8],
    at: usize,
    buf: &mut [u8],
    h: Header,
    used: usize,
    fault: Option<ChannelFault>,
) -> Reply
    requires { TakeRoom h.negotiated state.old rx.now out.old ch.slot at (length buf.old) }
    ensures { ReadAgainLeaves state.old rx.now ch out.old at buf.old h used
        fault result state.new out.new buf.new }
{
    let slot = slot_at(state, ch.slot);
    match take_buffered(state, rx, ch, slot, out, at, buf, h, used, fault) {
        ControlFlow::Break(reply) => reply,
        ControlFlow::Continue((s, end)) => {
            let answer = unless_fault(fault, Answer::Waiting);
            ends_with(state, ch, s, h, answer, used, end)
        }
    }
}

// A WRTE of the channel's own that fits the reader's buffer.
#[tactic(auto, unfolding(connection::specs::Calls::is_direct))]
fn is_direct(s: ChannelSlot, room: usize, packet: Packet) -> bool
    ensures { result ≡ is_direct s room packet }
{
    is_own(packet.command.is_write(), packet.arg1, s.local) && packet.data_length <= room
}

// Such a WRTE goes straight to the reader, and is never counted as unacknowledged.
fn read_direct(
    state: &mut [u8],
    ch: ChannelId,
    s: ChannelSlot,
    used: usize,
    payload: &[u8],
    out: &mut [u8],
    at: usize,
    buf: &mut [u8],
    h: Header,
) -> Reply
    requires { ReadDirectAsks state.old ch payload.now out.old at buf.old h }
    ensures { ReadDirectLeaves state.old ch s used payload.now out.old at
        buf.old h result state.new out.new buf.new }
{
    let n = h.negotiated;
    let delivered = slot_receive::deliver(s, payload.len(), n.rx_policy());
    le::copy_at(buf, 0, payload);
    let end = put_ack(out, at, n, delivered);
    let answer = Answer::Read(payload.len());
    ends_with(state, ch, delivered.slot, h, answer, used, end)
}

// A packet that is not for the reader: dispatched, then what is buffered by now.
fn read_other(
    state: &mut [u8],
    rx: &mut [u8],
    store: &mut [u8],
    ch: ChannelId,
    s: ChannelSlot,
    used: usize,
    packet: Packet,
    payload: &[u8],
    out: &mut [u8],
    at: usize,
    buf: &mut [u8],
    h: Header,
) -> Reply
    requires { ReadOtherAsks state.old rx.old store.old ch s packet payload.now out.old at buf.old h }
    ensures { ReadOtherLeaves state.old rx.old store.old ch s used packet
        payload.now out.old at buf.old h result state.new rx.new
        store.new out.new buf.new }
{
    put_slot(state, ch.slot, s);
    let acted = act_on(state, rx, store, out, at, h, packet, payload);
    let header = acted.header;
    let fault = acted.fault;
    read_again(state, rx, ch, out, acted.end, buf, header, used, fault)
}

// A packet: the reader's own, its CLSE, or another's.
fn read_packet(
    state: &mut [u8],
    rx: &mut [u8],
    store: &mut [u8],
    ch: ChannelId,
    s: ChannelSlot,
    packet: Packet,
    received: &[u8],
    out: &mut [u8],
    at: usize,
    buf: &mut [u8],
    h: Header,
) -> Reply
    requires { ReadPacketAsks state.old rx.old store.old ch s packet received.now out.old at buf.old h }
    ensures { ReadPacketLeaves state.old rx.old store.old ch s packet
        received.now out.old at buf.old h result state.new rx.new
        store.new out.new buf.new }
{
    let payload = packet.payload_in(received);
    let used = packet.frame_len();
    if is_direct(s, buf.len(), packet) {
        return read_direct(state, ch, s, used, payload, out, at, buf, h);
    }
    if ids_in(s).closed_by(packet) {
        let closed = Answer::Refused(Refusal::ChannelClosed);
        return ends_with(state, ch, s.apply_close(), h, closed, used, at);
    }
    read_other(
        state, rx, store, ch, s, used, packet, payload, out, at, buf, h,
    )
}

// Nothing is buffered: one packet is looked at.
fn read_more(
    state: &mut [u8],
    rx: &mut [u8],
    store: &mut [u8],
    ch: ChannelId,
    s: ChannelSlot,
    received: &[u8],
    out: &mut [u8],
    at: usize,
    buf: &mut [u8],
    h: Header,
) -> Reply
    requires { ReadMoreAsks state.old rx.old store.old ch s out.old at buf.old h }
    ensures { ReadMoreLeaves state.old rx.old store.old ch s received.now
        out.old at buf.old h result state.new rx.new store.new out.new
        buf.new }
{
    match recv_pkt(received, h.negotiated.config.max_payload) {
        Err((answer, used)) => ends_with(state, ch, s, h, answer, used, at),
        Ok(packet) => read_packet(state, rx, store, ch, s, packet, received, out, at, buf, h),
    }
}

// What is buffered, and else what a packet brings. The channel and its slot go on side by side: each step makes another slot of it.
fn read_channel(
    state: &mut [u8],
    rx: &mut [u8],
    store: &mut [u8],
    ch: ChannelId,
    slot: ChannelSlot,
    received: &[u8],
    out: &mut [u8],
    buf: &mut [u8],
    h: Header,
) -> Reply
    requires { BeginsOn state.old rx.old store.old (length out.old) h ch slot }
    ensures { ReadChannelLeaves state.old rx.old store.old ch received.now
        out.old buf.old result state.new rx.new store.new out.new
        buf.new }
{
    match take_buffered(state, rx, ch, slot, out, 0, buf, h, 0, None) {
        ControlFlow::Break(reply) => reply,
        ControlFlow::Continue((s, at)) => read_more(
            state, rx, store, ch, s, received, out, at, buf, h,
        ),
    }
}

// The call's step, once it is admitted.
pub fn read_step(
    state: &mut [u8],
    rx: &mut [u8],
    store: &mut [u8],
    ch: ChannelId,
    received: &[u8],
    out: &mut [u8],
    buf: &mut [u8],
    h: Header,
) -> Reply
    requires { Begins state.old rx.old store.old (length out.old) h }
    ensures { ReadStepLeaves state.old rx.old store.old ch received.now
        out.old buf.old result state.new rx.new store.new out.new
        buf.new }
{
    match get(state, h.negotiated.config.channels, ch) {
        Some(slot) => read_channel(state, rx, store, ch, slot, received, out, buf, h),
        None => not_there(state, h),
    }
}

// Bytes of a channel for its reader: what is buffered, or what one packet brings.
pub fn read(
    state: &mut [u8],
    rx: &mut [u8],
    store: &mut [u8],
    ch: ChannelId,
    received: &[u8],
    out: &mut [u8],
    buf: &mut [u8],
) -> Reply
    ensures { ReadLeaves state.old rx.old store.old ch received.now
        out.old buf.old result state.new rx.new store.new out.new
        buf.new }
{
    match admit_out(state, rx.len(), store.len(), out.len()) {
        Err(refusal) => refused(refusal),
        Ok(h) => read_step(state, rx, store, ch, received, out, buf, drop_pending(h)),
    }
}
