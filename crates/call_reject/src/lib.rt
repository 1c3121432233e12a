// Refusing the device's open that is offered.
#![tactic(auto)]

ghost use Rattle.std.specs.Prelude.{◌≡◌, ◌+◌, ◌≤◌, length};
ghost use Rattle.protocol.specs.Message.{message_size};
ghost use Rattle.state.specs.State.{state_len, state_of};
ghost use Rattle.call.specs.Promise.{AdmitsState};
ghost use Rattle.call_reject.specs.Promise.{NoneOfferedLeaves, OfferRoom, offered_in, RejectOnLeaves, RejectStepLeaves, RejectLeaves};

use call::Reply;
use call::admit::{admit_out, drop_pending, refused};
use call::ends::ends;
use call::frames::put_close;
use connection::Answer;
use slot::ids::{ChannelIds, LocalId, RemoteId};
use state::{Header, QueuedOpen, queued_at};

// An open of the device's is refused, by its number alone: a CLSE at place `at` that leaves ours out.
pub fn reject_on(
    state: &mut [u8],
    out: &mut [u8],
    at: usize,
    h: Header,
    remote: RemoteId,
    answer: Answer,
) -> Reply
    requires { (state_len ≤ length state.old) × (at + message_size ≤ length out.old) }
    ensures { RejectOnLeaves state.old out.old at h remote answer result state.new out.new }
{
    let local = LocalId(0);
    let end = put_close(out, at, h.negotiated, ChannelIds { local, remote });
    ends(state, h, answer, 0, end)
}

// The open that is offered, if one is: its entry stands behind those that are queued.
#[tactic(auto, unfolding(crate::specs::Promise::offered_in))]
pub fn offered(state: &[u8], h: Header) -> Option<QueuedOpen>
    requires { OfferRoom state.now h }
    ensures { result ≡ offered_in state.now h }
{
    if h.pending.what.is_offer() {
        return Some(queued_at(state, h.queued));
    }
    None
}

// None is offered.
pub fn none_offered(state: &mut [u8], h: Header) -> Reply
    requires { state_len ≤ length state.old }
    ensures { NoneOfferedLeaves state.old h result state.new }
{
    ends(state, h, Answer::Nothing, 0, 0)
}

fn reject_step(state: &mut [u8], out: &mut [u8], h: Header) -> Reply
    requires { AdmitsState state.old (length out.old) × (h ≡ (state_of state.old).header) }
    ensures { RejectStepLeaves state.old out.old result state.new out.new }
{
    let later = drop_pending(h);
    match offered(state, h) {
        Some(q) => reject_on(state, out, 0, later, q.remote, Answer::Done),
        None => none_offered(state, later),
    }
}

// The device is told by a CLSE; nothing was allocated.
pub fn reject(state: &mut [u8], rx: &[u8], store: &[u8], out: &mut [u8]) -> Reply
    ensures { RejectLeaves state.old rx.now store.now out.old result
        state.new out.new }
{
    match admit_out(state, rx.len(), store.len(), out.len()) {
        Err(refusal) => refused(refusal),
        Ok(h) => reject_step(state, out, h),
    }
}
