// Dispatching one packet.
#![tactic(auto)]

ghost use Rattle.std.specs.Prelude.{length};
ghost use Rattle.call.specs.Promise.{Begins};
ghost use Rattle.call_dispatch.specs.Promise.{DispatchLeaves, DispatchStepLeaves};

use call::Reply;
use call::act::act_on;
use call::admit::{admit_out, drop_pending, refused};
use call::ends::ends;
use call::recv::{recv_pkt, unless_fault};
use connection::Answer;
use protocol::packet::Packet;
use state::Header;

// The call's step, once it is admitted.
pub fn dispatch_step(
    state: &mut [u8],
    rx: &mut [u8],
    store: &mut [u8],
    received: &[u8],
    out: &mut [u8],
    h: Header,
) -> Reply
    requires { Begins state.old rx.old store.old (length out.old) h }
    ensures { DispatchStepLeaves state.old rx.old store.old received.now
        out.old result state.new rx.new store.new out.new }
{
    match recv_pkt(received, h.negotiated.config.max_payload) {
        Err((answer, used)) => ends(state, h, answer, used, 0),
        Ok(packet) => {
            let payload = packet.payload_in(received);
            let used = packet.frame_len();
            let acted = act_on(state, rx, store, out, 0, h, packet, payload);
            let answer = unless_fault(acted.fault, Answer::Done);
            ends(state, acted.header, answer, used, acted.end)
        }
    }
}

// One packet: dispatched, and answered by a frame where one is due.
pub fn dispatch(
    state: &mut [u8],
    rx: &mut [u8],
    store: &mut [u8],
    received: &[u8],
    out: &mut [u8],
) -> Reply
    ensures { DispatchLeaves state.old rx.old store.old received.now
        out.old result state.new rx.new store.new out.new }
{
    match admit_out(state, rx.len(), store.len(), out.len()) {
        Err(refusal) => refused(refusal),
        Ok(h) => dispatch_step(state, rx, store, received, out, drop_pending(h)),
    }
}
