// Settling: buffered bytes, set aside for the reader and acknowledged.
#![tactic(auto)]

ghost use Rattle.std.specs.Prelude.{length};
ghost use Rattle.call.specs.Promise.{BeginsState};
ghost use Rattle.call_settle.specs.Promise.{SettleLeaves, SettleStepLeaves};

use call::Reply;
use call::admit::{admit_out, drop_pending, get, refused};
use call::ends::{ends_with, not_there};
use call::frames::put_ack;
use connection::Answer;
use state::Header;
use table::ChannelId;

fn settle_step(state: &mut [u8], ch: ChannelId, want: usize, out: &mut [u8], h: Header) -> Reply
    requires { BeginsState state.old (length out.old) h }
    ensures { SettleStepLeaves state.old ch want out.old result state.new out.new }
{
    let n = h.negotiated;
    match get(state, n.config.channels, ch) {
        Some(s) => {
            let settled = slot_receive::settle_take(s, want, n.rx_policy());
            let end = put_ack(out, 0, n, settled);
            let answer = Answer::Settled(settled.ack);
            ends_with(state, ch, settled.slot, h, answer, 0, end)
        }
        None => not_there(state, h),
    }
}

// Sets aside at most this many buffered bytes for the reader, and acknowledges by an OKAY what is due then.
pub fn settle(
    state: &mut [u8],
    rx: &[u8],
    store: &[u8],
    ch: ChannelId,
    want: usize,
    out: &mut [u8],
) -> Reply
    ensures { SettleLeaves state.old rx.now store.now ch want out.old result
        state.new out.new }
{
    match admit_out(state, rx.len(), store.len(), out.len()) {
        Err(refusal) => refused(refusal),
        Ok(h) => settle_step(state, ch, want, out, drop_pending(h)),
    }
}
