// Closing a stream at a device's end: the host's own call on the connection's bytes. No packet is looked at, so none is met.
#![tactic(auto)]

ghost use Rattle.device_close.specs.Promise.{DeviceCloseLeaves};

use call::admit::refused;
use connection::Refusal;
use device::DeviceReply;
use device::head::{INNER_AT, head_fine};
use device::judge::plain;
use table::ChannelId;

// The host is told by a CLSE, and the stream's slot is empty at once.
pub fn close(
    state: &mut [u8],
    rx: &[u8],
    store: &[u8],
    ch: ChannelId,
    out: &mut [u8],
) -> DeviceReply
    ensures { DeviceCloseLeaves state.old rx.now store.now ch out.old result
        state.new out.new }
{
    if head_fine(state) {
        let (_, inner) = state.split_at_mut(INNER_AT);
        return plain(call_close::close(inner, rx, store, ch, out));
    }
    plain(refused(Refusal::BrokenState))
}
