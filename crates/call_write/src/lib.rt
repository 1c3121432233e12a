// Sending bytes on a channel.
// `as usize` widens a u32: std has no From for it, as usize may be narrower elsewhere.
#![tactic(auto)]

ghost use Rattle.std.specs.Prelude.{◌≡◌, min, max, length};
ghost use Rattle.call.specs.Promise.{Begins};
ghost use Rattle.call_write.specs.Promise.{Finds, SendAgainLeaves, SendSomeLeaves, Sends, WaitAckLeaves, Waits, WriteChannelLeaves};
ghost use Rattle.call_write.specs.Promise.{WriteLeaves, WritePacketAsks, WritePacketLeaves, WriteReadyLeaves, WriteStepLeaves};

use call::Reply;
use call::act::act_on;
use call::admit::{admit_out, drop_pending, get, refused};
use call::ends::{ends, ends_with, not_there};
use call::frames::{ids_in, put_write};
use call::recv::{is_own, recv_pkt, unless_fault};
use connection::{Answer, Refusal};
use protocol::packet::Packet;
use slot::{ChannelSlot, Spending, is_closed};
use state::Header;
use table::ChannelId;

// The least of the bytes left, the payload's maximum (at least 1) and what may be sent.
fn send_len(len: usize, max_payload: u32, most: usize) -> usize
    ensures { result ≡ min (min len (max max_payload 1)) most }
{
    len.min(max_payload.max(1) as usize).min(most)
}

// A WRTE of as many bytes as may be sent. Where its frame does not fit the outgoing buffer, nothing changes: the packet that
// came before is to be handed in again.
fn send_some(
    state: &mut [u8],
    ch: ChannelId,
    s: ChannelSlot,
    bytes: &[u8],
    most: usize,
    used: usize,
    out: &mut [u8],
    h: Header,
) -> Reply
    requires { Sends state.old ch.slot h }
    ensures { SendSomeLeaves state.old ch s bytes.now most used out.old result
        state.new out.new }
{
    let n = h.negotiated;
    let len = send_len(bytes.len(), n.max_payload, most);
    if out.len() < Packet::MESSAGE_SIZE + len {
        return refused(Refusal::OutShort);
    }
    let end = put_write(out, 0, n, ids_in(s), &bytes[0..len]);
    let spent = slot_send::spend(s, len, n.rx_policy());
    ends_with(state, ch, spent, h, Answer::Written(len), used, end)
}

// The turn after the channel's own OKAY, with its slot. write_channel has the same tests and sends alike, but stores no slot where
// nothing is sent, and looks at a packet where nothing may be.
fn send_again(
    state: &mut [u8],
    ch: ChannelId,
    s: ChannelSlot,
    spending: Spending,
    bytes: &[u8],
    used: usize,
    out: &mut [u8],
    h: Header,
) -> Reply
    requires { Sends state.old ch.slot h }
    ensures { SendAgainLeaves spending state.old ch s bytes.now used out.old result
        state.new out.new }
{
    if is_closed(s.state) {
        let closed = Answer::Refused(Refusal::ChannelClosed);
        return ends_with(state, ch, s, h, closed, used, 0);
    }
    match slot_send::leave(s, h.negotiated.rx_policy(), spending) {
        Some(most) => send_some(state, ch, s, bytes, most, used, out, h),
        None => ends_with(state, ch, s, h, Answer::Waiting, used, 0),
    }
}

// The channel's own OKAY.
fn write_ready(
    state: &mut [u8],
    ch: ChannelId,
    s: ChannelSlot,
    spending: Spending,
    bytes: &[u8],
    payload: &[u8],
    used: usize,
    out: &mut [u8],
    h: Header,
) -> Reply
    requires { Sends state.old ch.slot h }
    ensures { WriteReadyLeaves spending state.old ch s bytes.now payload.now used
        out.old result state.new out.new }
{
    match slot_send::apply_ready(s, payload, h.negotiated.rx_policy()) {
        Ok(t) => send_again(state, ch, t, spending, bytes, used, out, h),
        Err(fault) => {
            let short = Answer::Refused(Refusal::BadCredit(fault));
            ends(state, h, short, used, 0)
        }
    }
}

// A packet that came while nothing may be sent. One that is not the channel's own leaves it so: there is no second turn.
fn write_packet(
    state: &mut [u8],
    rx: &mut [u8],
    store: &mut [u8],
    ch: ChannelId,
    s: ChannelSlot,
    spending: Spending,
    bytes: &[u8],
    received: &[u8],
    out: &mut [u8],
    h: Header,
    packet: Packet,
) -> Reply
    requires { WritePacketAsks state.old rx.old store.old ch s received.now out.old h packet }
    ensures { WritePacketLeaves spending state.old rx.old store.old ch s bytes.now
        received.now out.old packet result state.new rx.new store.new
        out.new }
{
    let payload = packet.payload_in(received);
    let used = packet.frame_len();
    if is_own(packet.command.is_ready(), packet.arg1, s.local) {
        return write_ready(state, ch, s, spending, bytes, payload, used, out, h);
    }
    if ids_in(s).closed_by(packet) {
        let closed = Answer::Refused(Refusal::ChannelClosed);
        return ends_with(state, ch, s.apply_close(), h, closed, used, 0);
    }
    let acted = act_on(state, rx, store, out, 0, h, packet, payload);
    let answer = unless_fault(acted.fault, Answer::Waiting);
    ends(state, acted.header, answer, used, acted.end)
}

// Nothing may be sent before a packet is looked at.
fn wait_ack(
    state: &mut [u8],
    rx: &mut [u8],
    store: &mut [u8],
    ch: ChannelId,
    s: ChannelSlot,
    spending: Spending,
    bytes: &[u8],
    received: &[u8],
    out: &mut [u8],
    h: Header,
) -> Reply
    requires { Waits state.old rx.old store.old (length out.old) ch h s }
    ensures { WaitAckLeaves spending state.old rx.old store.old ch s bytes.now
        received.now out.old result state.new rx.new store.new out.new }
{
    if s.has_remote {
        return match recv_pkt(received, h.negotiated.config.max_payload) {
            Err((answer, used)) => ends(state, h, answer, used, 0),
            Ok(packet) => write_packet(
                state, rx, store, ch, s, spending, bytes, received, out, h, packet,
            ),
        };
    }
    ends(state, h, Answer::Refused(Refusal::ChannelClosed), 0, 0)
}

// The first turn on a channel that is in the table.
fn write_channel(
    state: &mut [u8],
    rx: &mut [u8],
    store: &mut [u8],
    ch: ChannelId,
    s: ChannelSlot,
    spending: Spending,
    bytes: &[u8],
    received: &[u8],
    out: &mut [u8],
    h: Header,
) -> Reply
    requires { Finds state.old rx.old store.old (length out.old) ch h s }
    ensures { WriteChannelLeaves spending state.old rx.old store.old ch s bytes.now
        received.now out.old result state.new rx.new store.new out.new }
{
    if is_closed(s.state) {
        return ends(state, h, Answer::Refused(Refusal::ChannelClosed), 0, 0);
    }
    match slot_send::leave(s, h.negotiated.rx_policy(), spending) {
        Some(most) => send_some(state, ch, s, bytes, most, 0, out, h),
        None => wait_ack(state, rx, store, ch, s, spending, bytes, received, out, h),
    }
}

// The call's step, once it is admitted: within the budget, or past its end.
pub fn write_step(
    state: &mut [u8],
    rx: &mut [u8],
    store: &mut [u8],
    ch: ChannelId,
    spending: Spending,
    bytes: &[u8],
    received: &[u8],
    out: &mut [u8],
    h: Header,
) -> Reply
    requires { Begins state.old rx.old store.old (length out.old) h }
    ensures { WriteStepLeaves spending state.old rx.old store.old ch bytes.now
        received.now out.old result state.new rx.new store.new out.new }
{
    if bytes.len() == 0 {
        return ends(state, h, Answer::Written(0), 0, 0);
    }
    match get(state, h.negotiated.config.channels, ch) {
        Some(s) => write_channel(state, rx, store, ch, s, spending, bytes, received, out, h),
        None => not_there(state, h),
    }
}

// Some of the bytes are sent in one WRTE, within the budget, or one packet is looked at where none may be sent yet.
pub fn write(
    state: &mut [u8],
    rx: &mut [u8],
    store: &mut [u8],
    ch: ChannelId,
    bytes: &[u8],
    received: &[u8],
    out: &mut [u8],
) -> Reply
    ensures { WriteLeaves state.old rx.old store.old ch bytes.now
        received.now out.old result state.new rx.new store.new out.new }
{
    match admit_out(state, rx.len(), store.len(), out.len()) {
        Err(refusal) => refused(refusal),
        Ok(h) => write_step(
            state,
            rx,
            store,
            ch,
            Spending::Within,
            bytes,
            received,
            out,
            drop_pending(h),
        ),
    }
}
