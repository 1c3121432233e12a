// A channel's numbers, for a screen: a call that only looks, so that nothing of what it is lent changes.
#![tactic(auto)]

ghost use Rattle.std.specs.Prelude.{◌≡◌, ◌≤◌, length};
ghost use Rattle.state.specs.State.{state_len, state_of};
ghost use Rattle.connection.specs.Calls.{numbers_in};
ghost use Rattle.call_numbers.specs.Promise.{NumbersLeaves, numbers_of};

use call::Reply;
use call::admit::{admit, get, refused};
use connection::{Answer, Refusal};
use slot::{ChannelSlot, is_closed};
use table::ChannelId;

// What the screen shows of a slot's channel.
fn numbers_in(s: ChannelSlot) -> Answer
    ensures { result ≡ numbers_in s }
{
    Answer::Numbers(
        is_closed(s.state),
        s.acked_total,
        s.buffered,
        s.unacked,
        s.send_budget.cast_unsigned(),
    )
}

fn numbers_of(state: &[u8], channels: usize, ch: ChannelId) -> Answer
    requires { (channels ≤ 64) × (state_len ≤ length state.now) }
    ensures { result ≡ numbers_of channels (state_of state.now).slots ch }
{
    match get(state, channels, ch) {
        Some(s) => numbers_in(s),
        None => Answer::Refused(Refusal::ChannelClosed),
    }
}

// Whether the channel is open or closed, what our OKAYs allowed the device on it, and its bytes and budget.
pub fn numbers(state: &[u8], rx: &[u8], store: &[u8], ch: ChannelId) -> Reply
    ensures { NumbersLeaves state.now rx.now store.now ch result }
{
    match admit(state, rx.len(), store.len()) {
        Err(refusal) => refused(refusal),
        Ok(h) => Reply {
            answer: numbers_of(state, h.negotiated.config.channels, ch),
            used: 0,
            written: 0,
        },
    }
}
