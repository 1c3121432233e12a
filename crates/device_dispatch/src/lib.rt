// Dispatching one packet at a device's end: the host's first CNXN is answered, and after it as at the host's end, but for the packet that
// a device's end meets itself.
#![tactic(auto)]

ghost use Rattle.std.specs.Prelude.{◌≡◌, length};
ghost use Rattle.device.specs.Promise.{DeviceBegins, InnerBegins};
ghost use Rattle.device_dispatch.specs.Promise.{is_cnxn, InnerDispatchLeaves, WithLeaves, FirstLeaves, MetLeaves, DeviceDispatchLeaves};

use call::admit::{drop_pending, refused};
use call_dispatch::dispatch_step;
use connection::Answer;
use device::DeviceReply;
use device::head::{INNER_AT, admit, is_connected};
use device::judge::{judge, plain};
use device::meet::{met_in, shown};
use device_connect::connect;
use device_meets::{Met, Verdict};
use protocol::command::Command;
use protocol::packet::Packet;
use state::Header;

#[tactic(auto, unfolding(crate::specs::Promise::is_cnxn))]
fn is_cnxn(command: Command) -> bool
    ensures { result ≡ is_cnxn command }
{
    match command {
        Command::Connect => true,
        _ => false,
    }
}

// The step on the connection's own bytes, and the verdict.
fn dispatch_inner(
    inner: &mut [u8],
    rx: &mut [u8],
    store: &mut [u8],
    received: &[u8],
    out: &mut [u8],
    h: Header,
    met: Option<Met>,
) -> DeviceReply
    requires { InnerBegins inner.old rx.old store.old received.now (length out.old) h met }
    ensures { InnerDispatchLeaves inner.old rx.old store.old received.now out.old
        met result inner.new rx.new store.new out.new }
{
    let reply = dispatch_step(inner, rx, store, received, out, drop_pending(h));
    judge(inner, out, reply, met, Answer::Done)
}

// The same from the whole state.
fn dispatch_with(
    state: &mut [u8],
    rx: &mut [u8],
    store: &mut [u8],
    received: &[u8],
    out: &mut [u8],
    h: Header,
    met: Option<Met>,
) -> DeviceReply
    requires { DeviceBegins state.old rx.old store.old (length out.old) h }
    ensures { WithLeaves state.old rx.old store.old received.now out.old
        met result state.new rx.new store.new out.new }
{
    let (_, inner) = state.split_at_mut(INNER_AT);
    let handed = shown(received, met);
    dispatch_inner(inner, rx, store, handed, out, h, met)
}

// Before the host's CNXN came: it is answered, and any other packet is used and ignored.
fn dispatch_first(
    state: &mut [u8],
    rx: &mut [u8],
    store: &mut [u8],
    received: &[u8],
    out: &mut [u8],
    h: Header,
) -> DeviceReply
    requires { DeviceBegins state.old rx.old store.old (length out.old) h }
    ensures { FirstLeaves state.old rx.old store.old received.now out.old
        h result state.new rx.new store.new out.new }
{
    let config = h.negotiated.config;
    match Packet::decode(received, config.max_payload) {
        Ok(Some(packet)) => {
            if is_cnxn(packet.command) {
                return connect(state, out, config, packet, packet.payload_in(received));
            }
            let ignored = Met {
                used: packet.frame_len(),
                verdict: Verdict::Ignore,
            };
            dispatch_with(state, rx, store, received, out, h, Some(ignored))
        }
        Ok(None) => dispatch_with(state, rx, store, received, out, h, None),
        Err(_) => dispatch_with(state, rx, store, received, out, h, None),
    }
}

fn dispatch_admitted(
    state: &mut [u8],
    rx: &mut [u8],
    store: &mut [u8],
    names: &[u8],
    received: &[u8],
    out: &mut [u8],
    h: Header,
) -> DeviceReply
    requires { DeviceBegins state.old rx.old store.old (length out.old) h }
    ensures { MetLeaves state.old rx.old store.old names.now received.now out.old
        h result state.new rx.new store.new out.new }
{
    if is_connected(state) {
        let met = met_in(state, names, received, h);
        return dispatch_with(state, rx, store, received, out, h, met);
    }
    dispatch_first(state, rx, store, received, out, h)
}

// One packet, whatever stream it is for.
pub fn dispatch(
    state: &mut [u8],
    rx: &mut [u8],
    store: &mut [u8],
    names: &[u8],
    received: &[u8],
    out: &mut [u8],
) -> DeviceReply
    ensures { DeviceDispatchLeaves state.old rx.old store.old names.now received.now
        out.old result state.new rx.new store.new out.new }
{
    match admit(state, rx.len(), store.len(), out.len()) {
        Err(refusal) => plain(refused(refusal)),
        Ok(h) => dispatch_admitted(state, rx, store, names, received, out, h),
    }
}
