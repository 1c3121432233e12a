// The C interface of a device's end (include/adb_device.h). Every buffer comes as a pointer and its length. A state or an answer that is
// too short is refused by 8 ahead of all else, and nothing is touched.
// `as u64` widens a usize: std has no From for it.
#![tactic(auto)]

ghost use Rattle.std.specs.Prelude.{◌≡◌, ◌≤◌, length};
ghost use Rattle.le.specs.Le.{put};
ghost use Rattle.call_answer.specs.Answer.{said_in};
ghost use Rattle.device.specs.Answer.{device_number, device_values};
ghost use Rattle.adb_device.specs.Export.{device_numbers, device_bytes, is_short};
ghost use Rattle.adb_device.specs.Promise.{AdbDeviceDispatchDoes, AdbDeviceReadDoes, AdbDeviceWriteDoes};
ghost use Rattle.adb_device.specs.Promise.{AdbDeviceMakeDoes, AdbDeviceSettleDoes, AdbDeviceTakeDoes, AdbDeviceCloseDoes};

use c_answer::ANSWER_SHORT;
use call::Reply;
use call_answer::{channel_of, limits_of, numbers_of};
use device::head::DEVICE_LEN;
use device::{DeviceAnswer, DeviceReply};
use device_close::close;
use device_dispatch::dispatch;
use device_make::make;
use device_read::read;
use device_settle::settle;
use device_take::take;
use device_write::write;
use refusal::Numbered;

// An answer's number: as at the host's end; 103 for an OPEN that was taken, 104 for the host's CNXN that was answered.
#[tactic(auto, unfolding(device::specs::Answer::device_number))]
fn number_of(answer: DeviceAnswer) -> u32
    ensures { result ≡ device_number answer }
{
    match answer {
        DeviceAnswer::Plain(plain) => plain.number(),
        DeviceAnswer::Taken(_, _, _) => 103,
        DeviceAnswer::Connected(_) => 104,
    }
}

// An answer's six numbers: used, written, then the answer's four values.
#[tactic(auto, unfolding(device::specs::Answer::device_values))]
fn device_numbers(reply: DeviceReply) -> [u64; 6]
    ensures { result ≡ device_numbers reply.used reply.written reply.answer }
{
    let used = reply.used as u64;
    let written = reply.written as u64;
    match reply.answer {
        DeviceAnswer::Plain(answer) => numbers_of(Reply {
            answer,
            used: reply.used,
            written: reply.written,
        }),
        DeviceAnswer::Taken(ch, remote, place) => [
            used,
            written,
            ch.slot as u64,
            u64::from(ch.local.0),
            u64::from(remote.0),
            place as u64,
        ],
        DeviceAnswer::Connected(n) => [
            used,
            written,
            u64::from(n.protocol_version),
            u64::from(n.max_payload),
            u64::from(n.delayed_ack),
            0,
        ],
    }
}

// The answer's 48 bytes, and the call's number.
fn answered(answer: &mut [u8], reply: DeviceReply) -> u32
    requires { 48 ≤ length answer.old }
    ensures { (result ≡ device_number reply.answer) ×
        (answer.new ≡ put answer.old 0 (device_bytes reply.used reply.written reply.answer)) ×
        (said_in answer.new ≡ device_numbers reply.used reply.written reply.answer) }
{
    c_answer::put(answer, &device_numbers(reply));
    number_of(reply.answer)
}

#[tactic(auto, unfolding(crate::specs::Export::is_short))]
fn is_short(state: usize, answer: usize) -> bool
    ensures { result ≡ is_short state answer }
{
    state < DEVICE_LEN || answer < 48
}

// Takes one packet: the host's CNXN, an OPEN, or what is for a stream.
#[unsafe(no_mangle)]
pub extern "C" fn adb_device_dispatch(
    state: &mut [u8],
    rx: &mut [u8],
    opens: &mut [u8],
    names: &[u8],
    received: &[u8],
    out: &mut [u8],
    answer: &mut [u8],
) -> u32
    ensures { AdbDeviceDispatchDoes state.old rx.old opens.old names.now received.now
        out.old answer.old result state.new rx.new opens.new out.new answer.new }
{
    if is_short(state.len(), answer.len()) {
        return ANSWER_SHORT;
    }
    let reply = dispatch(state, rx, opens, names, received, out);
    answered(answer, reply)
}

// Bytes of a stream: what is buffered, or what one packet brings.
#[unsafe(no_mangle)]
pub extern "C" fn adb_device_read(
    state: &mut [u8],
    rx: &mut [u8],
    opens: &mut [u8],
    names: &[u8],
    slot: usize,
    local: u32,
    received: &[u8],
    out: &mut [u8],
    buf: &mut [u8],
    answer: &mut [u8],
) -> u32
    ensures { AdbDeviceReadDoes state.old rx.old opens.old names.now slot local received.now
        out.old buf.old answer.old result state.new rx.new opens.new out.new buf.new
        answer.new }
{
    if is_short(state.len(), answer.len()) {
        return ANSWER_SHORT;
    }
    let ch = channel_of(slot, local);
    let reply = read(state, rx, opens, names, ch, received, out, buf);
    answered(answer, reply)
}

// Sends at most one WRTE of the bytes.
#[unsafe(no_mangle)]
pub extern "C" fn adb_device_write(
    state: &mut [u8],
    rx: &mut [u8],
    opens: &mut [u8],
    names: &[u8],
    slot: usize,
    local: u32,
    bytes: &[u8],
    received: &[u8],
    out: &mut [u8],
    answer: &mut [u8],
) -> u32
    ensures { AdbDeviceWriteDoes state.old rx.old opens.old names.now slot local bytes.now
        received.now out.old answer.old result state.new rx.new opens.new out.new
        answer.new }
{
    if is_short(state.len(), answer.len()) {
        return ANSWER_SHORT;
    }
    let ch = channel_of(slot, local);
    let reply = write(state, rx, opens, names, ch, bytes, received, out);
    answered(answer, reply)
}

// Acknowledges what a read of `want` bytes is to take: the first half of a read.
#[unsafe(no_mangle)]
pub extern "C" fn adb_device_settle(
    state: &mut [u8],
    rx: &[u8],
    opens: &[u8],
    slot: usize,
    local: u32,
    want: usize,
    out: &mut [u8],
    answer: &mut [u8],
) -> u32
    ensures { AdbDeviceSettleDoes state.old rx.now opens.now slot local want
        out.old answer.old result state.new out.new answer.new }
{
    if is_short(state.len(), answer.len()) {
        return ANSWER_SHORT;
    }
    let ch = channel_of(slot, local);
    let reply = settle(state, rx, opens, ch, want, out);
    answered(answer, reply)
}

// Hands over buffered bytes: the second half of a read.
#[unsafe(no_mangle)]
pub extern "C" fn adb_device_take(
    state: &mut [u8],
    rx: &[u8],
    opens: &[u8],
    slot: usize,
    local: u32,
    buf: &mut [u8],
    answer: &mut [u8],
) -> u32
    ensures { AdbDeviceTakeDoes state.old rx.now opens.now slot local buf.old
        answer.old result state.new buf.new answer.new }
{
    if is_short(state.len(), answer.len()) {
        return ANSWER_SHORT;
    }
    let ch = channel_of(slot, local);
    let reply = take(state, rx, opens, ch, buf);
    answered(answer, reply)
}

// Closes a stream.
#[unsafe(no_mangle)]
pub extern "C" fn adb_device_close(
    state: &mut [u8],
    rx: &[u8],
    opens: &[u8],
    slot: usize,
    local: u32,
    out: &mut [u8],
    answer: &mut [u8],
) -> u32
    ensures { AdbDeviceCloseDoes state.old rx.now opens.now slot local out.old
        answer.old result state.new out.new answer.new }
{
    if is_short(state.len(), answer.len()) {
        return ANSWER_SHORT;
    }
    let ch = channel_of(slot, local);
    let reply = close(state, rx, opens, ch, out);
    answered(answer, reply)
}

// A device's end that waits for the host's CNXN, in the state's first bytes. The text is the payload of the CNXN that will answer it.
#[unsafe(no_mangle)]
pub extern "C" fn adb_device_make(
    state: &mut [u8],
    channels: usize,
    max_payload: u32,
    max_rx_per_channel: usize,
    initial_ack_bytes: u32,
    text: &[u8],
) -> u32
    ensures { AdbDeviceMakeDoes state.old channels max_payload max_rx_per_channel initial_ack_bytes
        text.now result state.new }
{
    let config = limits_of(channels, max_payload, max_rx_per_channel, initial_ack_bytes);
    refusal::number_of(make(state, config, text))
}
