// What C hands to a call of either end, and what the call's answer says to it: six numbers of 64 bits, used, written, then the answer's
// four values.
// `as u64` widens a usize: std has no From for it.
#![tactic(auto)]

ghost use Rattle.std.specs.Prelude.{◌≡◌, ◌≤◌, length};
ghost use Rattle.le.specs.Le.{put};
ghost use Rattle.connection.specs.Answer.{answer_number, ack_length, refusal_word};
ghost use Rattle.call_answer.specs.Answer.{numbers_of, answer_bytes, said_in};
ghost use Rattle.call_answer.specs.Export.{channel_of, limits_of};

use call::Reply;
use config::ConnectionConfig;
use connection::{Answer, Refusal};
use refusal::Numbered;
use slot::ids::LocalId;
use table::ChannelId;

#[tactic(auto, unfolding(connection::specs::Answer::ack_length))]
fn ack_length(ack: Option<usize>) -> u64
    ensures { result ≡ ack_length ack }
{
    ack.unwrap_or(0) as u64
}

#[tactic(auto, unfolding(connection::specs::Answer::refusal_word))]
fn refusal_word(refusal: Refusal) -> u64
    ensures { result ≡ refusal_word refusal }
{
    match refusal {
        Refusal::InvalidCommand(word) => word,
        _ => 0,
    }
}

// An answer's six numbers: used, written, then the answer's four values.
#[tactic(auto, unfolding(connection::specs::Answer::answer_values))]
pub fn numbers_of(reply: Reply) -> [u64; 6]
    ensures { result ≡ numbers_of reply.used reply.written reply.answer }
{
    let used = reply.used as u64;
    let written = reply.written as u64;
    match reply.answer {
        Answer::Done => [used, written, 0, 0, 0, 0],
        Answer::Waiting => [used, written, 0, 0, 0, 0],
        Answer::Nothing => [used, written, 0, 0, 0, 0],
        Answer::Opened(ch) => [used, written, ch.slot as u64, u64::from(ch.local.0), 0, 0],
        Answer::Settled(ack) => [used, written, ack_length(ack), 0, 0, 0],
        Answer::Read(n) => [used, written, n as u64, 0, 0, 0],
        Answer::Written(n) => [used, written, n as u64, 0, 0, 0],
        Answer::Front(remote, credit, place, len) => [
            used,
            written,
            u64::from(remote.0),
            u64::from(credit),
            place as u64,
            len as u64,
        ],
        Answer::Numbers(_, total, buffered, unacked, budget) => [
            used,
            written,
            total as u64,
            u64::from(buffered),
            unacked as u64,
            budget,
        ],
        Answer::Refused(refusal) => [used, written, refusal_word(refusal), 0, 0, 0],
    }
}

// The answer's 48 bytes, and the call's number.
pub fn answered(answer: &mut [u8], reply: Reply) -> u32
    requires { 48 ≤ length answer.old }
    ensures { (result ≡ answer_number reply.answer) ×
        (answer.new ≡ put answer.old 0 (answer_bytes reply.used reply.written reply.answer)) ×
        (said_in answer.new ≡ numbers_of reply.used reply.written reply.answer) }
{
    c_answer::put(answer, &numbers_of(reply));
    reply.answer.number()
}

// The channel that C names by its slot and its local number.
pub fn channel_of(slot: usize, local: u32) -> ChannelId
    ensures { result ≡ channel_of slot local }
{
    ChannelId {
        slot,
        local: LocalId(local),
    }
}

// The limits, as C gives them.
pub fn limits_of(
    channels: usize,
    max_payload: u32,
    max_rx_per_channel: usize,
    initial_ack_bytes: u32,
) -> ConnectionConfig
    ensures { result ≡ limits_of channels max_payload max_rx_per_channel initial_ack_bytes }
{
    ConnectionConfig {
        channels,
        max_payload,
        max_rx_per_channel,
        initial_ack_bytes,
    }
}
