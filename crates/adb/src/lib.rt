// The C interface (include/adb.h). Every buffer comes as a pointer and its length. A state or an answer that is too short is
// refused by 8 ahead of all else, and nothing is touched: each export has these lines itself, since one function around the calls would
// take the call as a closure over all that was lent. Answers are numbers, flags bytes, and a channel is two numbers, as C has them.
// `as u64` widens a usize: std has no From for it.
#![tactic(auto)]

pub mod shortest;

ghost use Rattle.std.specs.Prelude.{◌≡◌, ◌≤◌, length};
ghost use Rattle.adb.specs.Export.{is_short, is_yes};
ghost use Rattle.adb.specs.Promise.{AdbMakeFromCnxnDoes};
ghost use Rattle.adb.specs.Promise.{AdbCloseDoes, AdbDispatchDoes, AdbMakeDoes, AdbOpenDoes, AdbReadDoes, AdbSettleDoes, AdbTakeDoes};
ghost use Rattle.adb.specs.Promise.{AdbTakeFrontDoes, AdbNumbersDoes, AdbWriteDoes, AdbAcceptDoes, AdbRejectDoes, AdbLetGoDoes};

use c_answer::ANSWER_SHORT;
use call_accept::accept;
use call_answer::{answered, channel_of, limits_of};
use call_close::close;
use call_dispatch::dispatch;
use call_let_go::let_go;
use call_make::{make, make_from};
use call_numbers::numbers;
use call_open::open;
use call_read::read;
use call_reject::reject;
use call_settle::settle;
use call_take::take;
use call_take_front::take_front;
use call_write::write;
use connection::Refusal;
use refusal::number_of;
use state::STATE_LEN;

#[tactic(auto, unfolding(crate::specs::Export::is_short))]
fn is_short(state: usize, answer: usize) -> bool
    ensures { result ≡ is_short state answer }
{
    state < STATE_LEN || answer < 48
}

// Opens a channel, or goes on with the pending open.
#[unsafe(no_mangle)]
pub extern "C" fn adb_open(
    state: &mut [u8],
    rx: &mut [u8],
    opens: &mut [u8],
    destination: &[u8],
    received: &[u8],
    out: &mut [u8],
    answer: &mut [u8],
) -> u32
    ensures { AdbOpenDoes state.old rx.old opens.old destination.now
        received.now out.old answer.old result state.new rx.new
        opens.new out.new answer.new }
{
    if is_short(state.len(), answer.len()) {
        return ANSWER_SHORT;
    }
    let reply = open(state, rx, opens, destination, received, out);
    answered(answer, reply)
}

// Takes one packet, whatever channel it is for.
#[unsafe(no_mangle)]
pub extern "C" fn adb_dispatch(
    state: &mut [u8],
    rx: &mut [u8],
    opens: &mut [u8],
    received: &[u8],
    out: &mut [u8],
    answer: &mut [u8],
) -> u32
    ensures { AdbDispatchDoes state.old rx.old opens.old received.now
        out.old answer.old result state.new rx.new opens.new out.new
        answer.new }
{
    if is_short(state.len(), answer.len()) {
        return ANSWER_SHORT;
    }
    let reply = dispatch(state, rx, opens, received, out);
    answered(answer, reply)
}

// Acknowledges what a read of `want` bytes is to take: the first half of a read.
#[unsafe(no_mangle)]
pub extern "C" fn adb_settle(
    state: &mut [u8],
    rx: &[u8],
    opens: &[u8],
    slot: usize,
    local: u32,
    want: usize,
    out: &mut [u8],
    answer: &mut [u8],
) -> u32
    ensures { AdbSettleDoes state.old rx.now opens.now slot local want
        out.old answer.old result state.new out.new answer.new }
{
    if is_short(state.len(), answer.len()) {
        return ANSWER_SHORT;
    }
    let ch = channel_of(slot, local);
    let reply = settle(state, rx, opens, ch, want, out);
    answered(answer, reply)
}

// Hands over buffered bytes: the second half of a read.
#[unsafe(no_mangle)]
pub extern "C" fn adb_take(
    state: &mut [u8],
    rx: &[u8],
    opens: &[u8],
    slot: usize,
    local: u32,
    buf: &mut [u8],
    answer: &mut [u8],
) -> u32
    ensures { AdbTakeDoes state.old rx.now opens.now slot local buf.old
        answer.old result state.new buf.new answer.new }
{
    if is_short(state.len(), answer.len()) {
        return ANSWER_SHORT;
    }
    let ch = channel_of(slot, local);
    let reply = take(state, rx, opens, ch, buf);
    answered(answer, reply)
}

// Bytes of a channel: what is buffered, or what one packet brings.
#[unsafe(no_mangle)]
pub extern "C" fn adb_read(
    state: &mut [u8],
    rx: &mut [u8],
    opens: &mut [u8],
    slot: usize,
    local: u32,
    received: &[u8],
    out: &mut [u8],
    buf: &mut [u8],
    answer: &mut [u8],
) -> u32
    ensures { AdbReadDoes state.old rx.old opens.old slot local received.now
        out.old buf.old answer.old result state.new rx.new opens.new
        out.new buf.new answer.new }
{
    if is_short(state.len(), answer.len()) {
        return ANSWER_SHORT;
    }
    let ch = channel_of(slot, local);
    let reply = read(state, rx, opens, ch, received, out, buf);
    answered(answer, reply)
}

// Sends at most one WRTE of the bytes.
#[unsafe(no_mangle)]
pub extern "C" fn adb_write(
    state: &mut [u8],
    rx: &mut [u8],
    opens: &mut [u8],
    slot: usize,
    local: u32,
    bytes: &[u8],
    received: &[u8],
    out: &mut [u8],
    answer: &mut [u8],
) -> u32
    ensures { AdbWriteDoes state.old rx.old opens.old slot local bytes.now
        received.now out.old answer.old result state.new rx.new
        opens.new out.new answer.new }
{
    if is_short(state.len(), answer.len()) {
        return ANSWER_SHORT;
    }
    let ch = channel_of(slot, local);
    let reply = write(state, rx, opens, ch, bytes, received, out);
    answered(answer, reply)
}

// Closes a channel.
#[unsafe(no_mangle)]
pub extern "C" fn adb_close(
    state: &mut [u8],
    rx: &[u8],
    opens: &[u8],
    slot: usize,
    local: u32,
    out: &mut [u8],
    answer: &mut [u8],
) -> u32
    ensures { AdbCloseDoes state.old rx.now opens.now slot local out.old
        answer.old result state.new out.new answer.new }
{
    if is_short(state.len(), answer.len()) {
        return ANSWER_SHORT;
    }
    let ch = channel_of(slot, local);
    let reply = close(state, rx, opens, ch, out);
    answered(answer, reply)
}

// The device's open that was queued first.
#[unsafe(no_mangle)]
pub extern "C" fn adb_take_front(
    state: &mut [u8],
    rx: &[u8],
    opens: &[u8],
    answer: &mut [u8],
) -> u32
    ensures { AdbTakeFrontDoes state.old rx.now opens.now answer.old result
        state.new answer.new }
{
    if is_short(state.len(), answer.len()) {
        return ANSWER_SHORT;
    }
    let reply = take_front(state, rx, opens);
    answered(answer, reply)
}

// A channel's numbers: what our OKAYs allowed the device, bytes buffered and unacknowledged, the send budget. Nothing changes.
#[unsafe(no_mangle)]
pub extern "C" fn adb_numbers(
    state: &[u8],
    rx: &[u8],
    opens: &[u8],
    slot: usize,
    local: u32,
    answer: &mut [u8],
) -> u32
    ensures { AdbNumbersDoes state.now rx.now opens.now slot local answer.old result
        answer.new }
{
    if is_short(state.len(), answer.len()) {
        return ANSWER_SHORT;
    }
    let ch = channel_of(slot, local);
    let reply = numbers(state, rx, opens, ch);
    answered(answer, reply)
}

// The verdicts on the open that was taken: its channel is taken.
#[unsafe(no_mangle)]
pub extern "C" fn adb_accept(
    state: &mut [u8],
    rx: &[u8],
    opens: &[u8],
    out: &mut [u8],
    answer: &mut [u8],
) -> u32
    ensures { AdbAcceptDoes state.old rx.now opens.now out.old answer.old result
        state.new out.new answer.new }
{
    if is_short(state.len(), answer.len()) {
        return ANSWER_SHORT;
    }
    let reply = accept(state, rx, opens, out);
    answered(answer, reply)
}

// The open that was taken is refused.
#[unsafe(no_mangle)]
pub extern "C" fn adb_reject(
    state: &mut [u8],
    rx: &[u8],
    opens: &[u8],
    out: &mut [u8],
    answer: &mut [u8],
) -> u32
    ensures { AdbRejectDoes state.old rx.now opens.now out.old answer.old result
        state.new out.new answer.new }
{
    if is_short(state.len(), answer.len()) {
        return ANSWER_SHORT;
    }
    let reply = reject(state, rx, opens, out);
    answered(answer, reply)
}

// The open that was taken is queued again, ahead of the others.
#[unsafe(no_mangle)]
pub extern "C" fn adb_let_go(state: &mut [u8], rx: &[u8], opens: &[u8], answer: &mut [u8]) -> u32
    ensures { AdbLetGoDoes state.old rx.now opens.now answer.old result
        state.new answer.new }
{
    if is_short(state.len(), answer.len()) {
        return ANSWER_SHORT;
    }
    let reply = let_go(state, rx, opens);
    answered(answer, reply)
}

fn is_yes(flag: u8) -> bool
    ensures { result ≡ is_yes flag }
{
    flag > 0
}

// A fresh connection in the state's first bytes. The device's version and maximum payload are its CNXN's; a flag is no where
// it is 0.
#[unsafe(no_mangle)]
pub extern "C" fn adb_make(
    state: &mut [u8],
    channels: usize,
    max_payload: u32,
    max_rx_per_channel: usize,
    initial_ack_bytes: u32,
    version: u32,
    device_max_payload: u32,
    host_delayed_ack: u8,
    device_delayed_ack: u8,
) -> u32
    ensures { AdbMakeDoes state.old channels max_payload max_rx_per_channel initial_ack_bytes version
        device_max_payload host_delayed_ack device_delayed_ack result state.new }
{
    let config = limits_of(channels, max_payload, max_rx_per_channel, initial_ack_bytes);
    let host = is_yes(host_delayed_ack);
    let device = is_yes(device_delayed_ack);
    number_of(make(state, config, version, device_max_payload, host, device))
}

// The same from the device's CNXN itself: whether the device lists delayed acknowledgement is found from its payload.
#[unsafe(no_mangle)]
pub extern "C" fn adb_make_from_cnxn(
    state: &mut [u8],
    channels: usize,
    max_payload: u32,
    max_rx_per_channel: usize,
    initial_ack_bytes: u32,
    version: u32,
    device_max_payload: u32,
    identity: &[u8],
    host_delayed_ack: u8,
) -> u32
    ensures { AdbMakeFromCnxnDoes state.old channels max_payload max_rx_per_channel initial_ack_bytes version
        device_max_payload identity.now host_delayed_ack result state.new }
{
    let config = limits_of(channels, max_payload, max_rx_per_channel, initial_ack_bytes);
    let host = is_yes(host_delayed_ack);
    number_of(make_from(state, config, version, device_max_payload, host, identity))
}
