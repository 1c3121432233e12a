// Taking the channel that the offered open asks for.
// `as usize` widens a u32: std has no From for it, as usize may be narrower elsewhere.
#![tactic(auto)]

ghost use Rattle.std.specs.Prelude.{◌≡◌, length};
ghost use Rattle.state.specs.State.{state_of};
ghost use Rattle.call.specs.Promise.{AdmitsState};
ghost use Rattle.call_accept.specs.Promise.{AcceptRoom, AcceptOnLeaves, AcceptStepLeaves, AcceptLeaves};

use call::Reply;
use call::admit::{admit_out, drop_pending, refused};
use call::ends::ends_with;
use call::frames::put_okay;
use call_reject::{none_offered, offered, reject_on};
use connection::{Answer, Refusal};
use slot::ChannelSlot;
use slot::ids::{ChannelIds, RemoteId};
use state::Header;
use table::{NoFreeChannels, allocate, numbered};

// An open of the device's is taken, by its number and credit alone: the lowest empty slot is its channel's, and an OKAY at place
// `at` says so. With no slot empty it is refused.
pub fn accept_on(
    state: &mut [u8],
    out: &mut [u8],
    at: usize,
    h: Header,
    remote: RemoteId,
    credit: u32,
) -> Reply
    requires { AcceptRoom state.old out.old at h }
    ensures { AcceptOnLeaves state.old out.old at h remote credit result state.new out.new }
{
    let n = h.negotiated;
    match allocate(state, h) {
        Err(NoFreeChannels) => {
            let full = Answer::Refused(Refusal::NoFreeChannels);
            reject_on(state, out, at, h, remote, full)
        }
        Ok(ch) => {
            let local = ch.local;
            let ids = ChannelIds { local, remote };
            let end = put_okay(out, at, n, ids, n.advertised_credit() as usize);
            let taken = ChannelSlot::accepted(ids, credit, n.rx_policy());
            ends_with(state, ch, taken, numbered(h), Answer::Opened(ch), 0, end)
        }
    }
}

fn accept_step(state: &mut [u8], out: &mut [u8], h: Header) -> Reply
    requires { AdmitsState state.old (length out.old) × (h ≡ (state_of state.old).header) }
    ensures { AcceptStepLeaves state.old out.old result state.new out.new }
{
    let later = drop_pending(h);
    match offered(state, h) {
        Some(q) => accept_on(state, out, 0, later, q.remote, q.credit),
        None => none_offered(state, later),
    }
}

// The device is told by an OKAY, which carries our opening credit where acknowledgements are delayed.
pub fn accept(state: &mut [u8], rx: &[u8], store: &[u8], out: &mut [u8]) -> Reply
    ensures { AcceptLeaves state.old rx.now store.now out.old result
        state.new out.new }
{
    match admit_out(state, rx.len(), store.len(), out.len()) {
        Err(refusal) => refused(refusal),
        Ok(h) => accept_step(state, out, h),
    }
}
