// Letting the device's open go that is offered: it is queued again, ahead of the others.
#![tactic(auto)]

ghost use Rattle.std.specs.Prelude.{◌≡◌};
ghost use Rattle.state.specs.State.{state_of};
ghost use Rattle.call.specs.Promise.{AdmitsState};
ghost use Rattle.call_let_go.specs.Promise.{LetGoStepLeaves, LetGoLeaves};

use call::Reply;
use call::admit::{admit, drop_pending, refused};
use call::ends::ends;
use call_reject::{none_offered, offered};
use connection::Answer;
use incoming::push_front;
use state::Header;

fn let_go_step(state: &mut [u8], h: Header) -> Reply
    requires { AdmitsState state.old 56 × (h ≡ (state_of state.old).header) }
    ensures { LetGoStepLeaves state.old result state.new }
{
    let later = drop_pending(h);
    match offered(state, h) {
        Some(q) => {
            let more = push_front(state, later, q);
            ends(state, more, Answer::Done, 0, 0)
        }
        None => none_offered(state, later),
    }
}

// The open that was taken is the first of the queue again; its destination never moved.
pub fn let_go(state: &mut [u8], rx: &[u8], store: &[u8]) -> Reply
    ensures { LetGoLeaves state.old rx.now store.now result state.new }
{
    match admit(state, rx.len(), store.len()) {
        Err(refusal) => refused(refusal),
        Ok(h) => let_go_step(state, h),
    }
}
