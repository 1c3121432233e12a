// Writing at a device's end: as at the host's, but that a WRTE may pass the budget, as AOSP's sender does, and for the packet that it
// meets itself.
#![tactic(auto)]

ghost use Rattle.std.specs.Prelude.{length};
ghost use Rattle.device.specs.Promise.{DeviceBegins, InnerBegins};
ghost use Rattle.device_write.specs.Promise.{WriteInnerLeaves, WriteAdmittedLeaves, DeviceWriteLeaves};

use call::admit::{drop_pending, refused};
use call_write::write_step;
use connection::Answer;
use device::DeviceReply;
use device::head::{INNER_AT, admit};
use device::judge::{judge, plain};
use device::meet::{met_in, shown};
use device_meets::Met;
use slot::Spending;
use state::Header;
use table::ChannelId;

// The step on the connection's own bytes, and the verdict.
fn write_inner(
    inner: &mut [u8],
    rx: &mut [u8],
    store: &mut [u8],
    ch: ChannelId,
    bytes: &[u8],
    received: &[u8],
    out: &mut [u8],
    h: Header,
    met: Option<Met>,
) -> DeviceReply
    requires { InnerBegins inner.old rx.old store.old received.now (length out.old) h met }
    ensures { WriteInnerLeaves inner.old rx.old store.old ch bytes.now received.now out.old
        met result inner.new rx.new store.new out.new }
{
    let reply = write_step(
        inner,
        rx,
        store,
        ch,
        Spending::Beyond,
        bytes,
        received,
        out,
        drop_pending(h),
    );
    judge(inner, out, reply, met, Answer::Waiting)
}

fn write_admitted(
    state: &mut [u8],
    rx: &mut [u8],
    store: &mut [u8],
    names: &[u8],
    ch: ChannelId,
    bytes: &[u8],
    received: &[u8],
    out: &mut [u8],
    h: Header,
) -> DeviceReply
    requires { DeviceBegins state.old rx.old store.old (length out.old) h }
    ensures { WriteAdmittedLeaves state.old rx.old store.old names.now ch bytes.now
        received.now out.old h result state.new rx.new store.new out.new }
{
    let met = met_in(state, names, received, h);
    let (_, inner) = state.split_at_mut(INNER_AT);
    let handed = shown(received, met);
    write_inner(inner, rx, store, ch, bytes, handed, out, h, met)
}

// Some of the bytes are sent in one WRTE, or one packet is looked at where none may be sent yet.
pub fn write(
    state: &mut [u8],
    rx: &mut [u8],
    store: &mut [u8],
    names: &[u8],
    ch: ChannelId,
    bytes: &[u8],
    received: &[u8],
    out: &mut [u8],
) -> DeviceReply
    ensures { DeviceWriteLeaves state.old rx.old store.old names.now ch bytes.now
        received.now out.old result state.new rx.new store.new out.new }
{
    match admit(state, rx.len(), store.len(), out.len()) {
        Err(refusal) => plain(refused(refusal)),
        Ok(h) => write_admitted(state, rx, store, names, ch, bytes, received, out, h),
    }
}
