// A call's end, named as the definitions are: what changed is stored, the header last, and the answer is given. The header goes by value
// beside the state: it is read once, and the state's bytes have the old one until then.
ghost use Rattle.std.specs.Prelude.{◌≤◌, ◌<◌, length};
ghost use Rattle.state.specs.State.{state_len, put_slot};
ghost use Rattle.connection.specs.declared.Answer.TheVariants.{Refused};
ghost use Rattle.connection.specs.declared.Refusal.TheVariants.{ChannelClosed};
ghost use Rattle.call.specs.Promise.{Ended};

use crate::Reply;
use connection::{Answer, Refusal};
use slot::ChannelSlot;
use state::{Header, put_header, put_slot};
use table::ChannelId;

// The header is stored.
pub fn ends(state: &mut [u8], h: Header, answer: Answer, used: usize, written: usize) -> Reply
    requires { state_len ≤ length state.old }
    ensures { Ended h answer used written state.old result state.new }
{
    put_header(state, h);
    Reply {
        answer,
        used,
        written,
    }
}

// A slot is stored at a channel's place, then the header.
pub fn ends_with(
    state: &mut [u8],
    ch: ChannelId,
    s: ChannelSlot,
    h: Header,
    answer: Answer,
    used: usize,
    written: usize,
) -> Reply
    requires { (ch.slot < 64) × (state_len ≤ length state.old) }
    ensures { Ended h answer used written (put_slot state.old ch.slot s) result state.new }
{
    put_slot(state, ch.slot, s);
    ends(state, h, answer, used, written)
}

// The channel is not in the table: 10.
pub fn not_there(state: &mut [u8], h: Header) -> Reply
    requires { state_len ≤ length state.old }
    ensures { Ended h (Refused ChannelClosed) 0 0 state.old result state.new }
{
    ends(state, h, Answer::Refused(Refusal::ChannelClosed), 0, 0)
}
