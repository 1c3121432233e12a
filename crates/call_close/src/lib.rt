// Closing a channel.
#![tactic(auto)]

ghost use Rattle.std.specs.Prelude.{length};
ghost use Rattle.call.specs.Promise.{BeginsState};
ghost use Rattle.call_close.specs.Promise.{CloseLeaves, CloseStepLeaves};

use call::Reply;
use call::admit::{admit_out, drop_pending, get, refused};
use call::ends::{ends_with, not_there};
use call::frames::{ids_in, put_close};
use connection::Answer;
use state::Header;
use table::ChannelId;

fn close_step(state: &mut [u8], ch: ChannelId, out: &mut [u8], h: Header) -> Reply
    requires { BeginsState state.old (length out.old) h }
    ensures { CloseStepLeaves state.old ch out.old result state.new out.new }
{
    match get(state, h.negotiated.config.channels, ch) {
        Some(s) => {
            let end = put_close(out, 0, h.negotiated, ids_in(s));
            let gone = s.emptied();
            ends_with(state, ch, gone, h, Answer::Done, 0, end)
        }
        None => not_there(state, h),
    }
}

// The device is told by a CLSE, and the channel's slot is empty at once.
pub fn close(state: &mut [u8], rx: &[u8], store: &[u8], ch: ChannelId, out: &mut [u8]) -> Reply
    ensures { CloseLeaves state.old rx.now store.now ch out.old result
        state.new out.new }
{
    match admit_out(state, rx.len(), store.len(), out.len()) {
        Err(refusal) => refused(refusal),
        Ok(h) => close_step(state, ch, out, drop_pending(h)),
    }
}
