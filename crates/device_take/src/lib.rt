// Taking at a device's end: the host's own call on the connection's bytes. No packet is looked at, so none is met.
#![tactic(auto)]

ghost use Rattle.device_take.specs.Promise.{DeviceTakeLeaves};

use call::admit::refused;
use connection::Refusal;
use device::DeviceReply;
use device::head::{INNER_AT, head_fine};
use device::judge::plain;
use table::ChannelId;

// Buffered bytes, handed over to the reader: those set aside, or all where none are, as many as fit.
pub fn take(state: &mut [u8], rx: &[u8], store: &[u8], ch: ChannelId, buf: &mut [u8]) -> DeviceReply
    ensures { DeviceTakeLeaves state.old rx.now store.now ch buf.old result
        state.new buf.new }
{
    if head_fine(state) {
        let (_, inner) = state.split_at_mut(INNER_AT);
        return plain(call_take::take(inner, rx, store, ch, buf));
    }
    plain(refused(Refusal::BrokenState))
}
