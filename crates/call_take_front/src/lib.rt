// Taking the device's open that was queued first.
// `as usize` widens a u32: std has no From for it, as usize may be narrower elsewhere.
#![tactic(auto)]

ghost use Rattle.call.specs.Promise.{BeginsState};
ghost use Rattle.call_take_front.specs.Promise.{TakeFrontLeaves, TakeFrontStepLeaves};

use call::Reply;
use call::admit::{admit, drop_pending, refused};
use call::ends::ends;
use connection::Answer;
use incoming::pop_front;
use state::Header;

fn take_front_step(state: &mut [u8], h: Header) -> Reply
    requires { BeginsState state.old 56 h }
    ensures { TakeFrontStepLeaves state.old result state.new }
{
    let n = h.negotiated;
    match pop_front(state, h) {
        None => ends(state, h, Answer::Nothing, 0, 0),
        Some((first, less)) => {
            let place = first.share * n.config.max_payload as usize;
            let answer = Answer::Front(first.remote, first.credit, place, first.length);
            ends(state, less, answer, 0, 0)
        }
    }
}

// The device's open that was queued first, taken off the queue.
pub fn take_front(state: &mut [u8], rx: &[u8], store: &[u8]) -> Reply
    ensures { TakeFrontLeaves state.old rx.now store.now result state.new }
{
    match admit(state, rx.len(), store.len()) {
        Err(refusal) => refused(refusal),
        Ok(h) => take_front_step(state, drop_pending(h)),
    }
}
