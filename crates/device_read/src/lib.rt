// Reading at a device's end: as at the host's, but for the packet that it meets itself.
#![tactic(auto)]

ghost use Rattle.std.specs.Prelude.{length};
ghost use Rattle.device.specs.Promise.{DeviceBegins, InnerBegins};
ghost use Rattle.device_read.specs.Promise.{ReadInnerLeaves, ReadAdmittedLeaves, DeviceReadLeaves};

use call::admit::{drop_pending, refused};
use call_read::read_step;
use connection::Answer;
use device::DeviceReply;
use device::head::{INNER_AT, admit};
use device::judge::{judge, plain};
use device::meet::{met_in, shown};
use device_meets::Met;
use state::Header;
use table::ChannelId;

// The step on the connection's own bytes, and the verdict.
fn read_inner(
    inner: &mut [u8],
    rx: &mut [u8],
    store: &mut [u8],
    ch: ChannelId,
    received: &[u8],
    out: &mut [u8],
    buf: &mut [u8],
    h: Header,
    met: Option<Met>,
) -> DeviceReply
    requires { InnerBegins inner.old rx.old store.old received.now (length out.old) h met }
    ensures { ReadInnerLeaves inner.old rx.old store.old ch received.now out.old
        buf.old met result inner.new rx.new store.new out.new buf.new }
{
    let reply = read_step(inner, rx, store, ch, received, out, buf, drop_pending(h));
    judge(inner, out, reply, met, Answer::Waiting)
}

fn read_admitted(
    state: &mut [u8],
    rx: &mut [u8],
    store: &mut [u8],
    names: &[u8],
    ch: ChannelId,
    received: &[u8],
    out: &mut [u8],
    buf: &mut [u8],
    h: Header,
) -> DeviceReply
    requires { DeviceBegins state.old rx.old store.old (length out.old) h }
    ensures { ReadAdmittedLeaves state.old rx.old store.old names.now ch received.now
        out.old buf.old h result state.new rx.new store.new out.new buf.new }
{
    let met = met_in(state, names, received, h);
    let (_, inner) = state.split_at_mut(INNER_AT);
    read_inner(inner, rx, store, ch, shown(received, met), out, buf, h, met)
}

// Bytes of a stream: what is buffered, or what one packet brings.
pub fn read(
    state: &mut [u8],
    rx: &mut [u8],
    store: &mut [u8],
    names: &[u8],
    ch: ChannelId,
    received: &[u8],
    out: &mut [u8],
    buf: &mut [u8],
) -> DeviceReply
    ensures { DeviceReadLeaves state.old rx.old store.old names.now ch received.now
        out.old buf.old result state.new rx.new store.new out.new buf.new }
{
    match admit(state, rx.len(), store.len(), out.len()) {
        Err(refusal) => plain(refused(refusal)),
        Ok(h) => read_admitted(state, rx, store, names, ch, received, out, buf, h),
    }
}
