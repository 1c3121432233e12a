// Settling at a device's end: the host's own call on the connection's bytes. No packet is looked at, so none is met.
#![tactic(auto)]

ghost use Rattle.device_settle.specs.Promise.{DeviceSettleLeaves};

use call::admit::refused;
use connection::Refusal;
use device::DeviceReply;
use device::head::{INNER_AT, head_fine};
use device::judge::plain;
use table::ChannelId;

// Sets aside at most this many buffered bytes for the reader, and acknowledges by an OKAY what is due then.
pub fn settle(
    state: &mut [u8],
    rx: &[u8],
    store: &[u8],
    ch: ChannelId,
    want: usize,
    out: &mut [u8],
) -> DeviceReply
    ensures { DeviceSettleLeaves state.old rx.now store.now ch want out.old result
        state.new out.new }
{
    if head_fine(state) {
        let (_, inner) = state.split_at_mut(INNER_AT);
        return plain(call_settle::settle(inner, rx, store, ch, want, out));
    }
    plain(refused(Refusal::BrokenState))
}
