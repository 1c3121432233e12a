// Taking: buffered bytes, handed over to the reader.
// `as usize` widens a u32: std has no From for it, as usize may be narrower elsewhere.
#![tactic(auto)]

ghost use Rattle.call_take.specs.Promise.{TakeLeaves, TakeStepAsks, TakeStepLeaves, TakeThereAsks};

use call::Reply;
use call::admit::{admit, drop_pending, get, refused};
use call::ends::{ends, ends_with, not_there};
use connection::{Answer, Refusal};
use slot::ChannelSlot;
use state::Header;
use table::ChannelId;

// Taking from a channel that is in the table. Read takes with its own lines (`call_read::take_buffered`): its slot was settled first, and where nothing
// is there it goes on.
fn take_there(
    state: &mut [u8],
    rx: &[u8],
    ch: ChannelId,
    s: ChannelSlot,
    buf: &mut [u8],
    h: Header,
) -> Reply
    requires { TakeThereAsks state.old rx.now h ch s }
    ensures { TakeStepLeaves state.old rx.now ch buf.old result state.new buf.new }
{
    let cap = h.negotiated.config.rx_cap();
    match slot_receive::take_buffered(s, buf.len(), cap) {
        Ok(Some((rest, len))) => {
            rx_store::hand_over(rx, ch.slot, cap, s.head as usize, len, buf);
            ends_with(state, ch, rest, h, Answer::Read(len), 0, 0)
        }
        Ok(None) => ends(state, h, Answer::Nothing, 0, 0),
        Err(error) => ends(state, h, Answer::Refused(Refusal::from(error)), 0, 0),
    }
}

fn take_step(state: &mut [u8], rx: &[u8], ch: ChannelId, buf: &mut [u8], h: Header) -> Reply
    requires { TakeStepAsks state.old rx.now h }
    ensures { TakeStepLeaves state.old rx.now ch buf.old result state.new buf.new }
{
    match get(state, h.negotiated.config.channels, ch) {
        Some(s) => take_there(state, rx, ch, s, buf, h),
        None => not_there(state, h),
    }
}

// Buffered bytes, handed over to the reader: those set aside, or all where none are, as many as fit.
pub fn take(state: &mut [u8], rx: &[u8], store: &[u8], ch: ChannelId, buf: &mut [u8]) -> Reply
    ensures { TakeLeaves state.old rx.now store.now ch buf.old result
        state.new buf.new }
{
    match admit(state, rx.len(), store.len()) {
        Err(refusal) => refused(refusal),
        Ok(h) => take_step(state, rx, ch, buf, drop_pending(h)),
    }
}
