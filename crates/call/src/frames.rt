// Frames of a connection: their mode and check are what was negotiated. Beside wire's send_*, which take these values one by one, since
// here the promises are frames as the calls' definitions have them. The buffer and the place in it stay two parameters: a struct of
// them would hold a `&mut`, and each function would promise that it is the same memory.
ghost use Rattle.std.specs.Prelude.{◌≡◌, true, ◌+◌, ◌≤◌, ◌%◌, length};
ghost use Rattle.config.specs.Config.{Within};
ghost use Rattle.config.specs.Negotiated.{offered_credit};
ghost use Rattle.protocol.specs.Packet.{FrameRoom, Puts};
ghost use Rattle.slot.specs.Slot.{is_ack};
ghost use Rattle.connection.specs.Calls.{ack_frames, ids_in};
ghost use Rattle.connection.specs.Frames.{okay_frame, close_frame, open_frame, write_frame, frame_bytes, frames_bytes};
ghost use Rattle.protocol.specs.Message.{message_size};

use config::negotiated::Negotiated;
use slot::ids::{ChannelIds, LocalId};
use slot::{ChannelSlot, Settled};
use wire::{send_close, send_okay, send_open, send_write};

pub fn ids_in(s: ChannelSlot) -> ChannelIds
    ensures { result ≡ ids_in s }
{
    s.ids_with(s.remote)
}

// The low 32 bits of a length, said by %: `n as u32` alone would have to fit.
fn word(n: usize) -> u32
    ensures { result ≡ n % 0x1_0000_0000 }
{
    (n % 0x1_0000_0000) as u32
}

// An OKAY. A length past 32 bits comes only where acknowledgements are not delayed, and there it is not sent.
pub fn put_okay(out: &mut [u8], at: usize, n: Negotiated, ids: ChannelIds, len: usize) -> usize
    requires { at + 28 ≤ length out.old }
    ensures { Puts out.old at (frame_bytes n (okay_frame ids len)) result out.new }
{
    let credit = n.delayed_ack.then_some(word(len));
    send_okay(out, at, ids, credit, n.checksum())
}

#[tactic(auto, unfolding(connection::specs::Frames::frame_bytes))]
pub fn put_close(out: &mut [u8], at: usize, n: Negotiated, ids: ChannelIds) -> usize
    requires { at + message_size ≤ length out.old }
    ensures { Puts out.old at (frame_bytes n (close_frame ids)) result out.new }
{
    send_close(out, at, ids, n.checksum())
}

// An OPEN, with the credit that we give the device.
#[tactic(auto, unfolding(connection::specs::Frames::frame_bytes))]
pub fn put_open(
    out: &mut [u8],
    at: usize,
    n: Negotiated,
    local: LocalId,
    destination: &[u8],
) -> usize
    requires { Within n.config × FrameRoom out.old at destination.now }
    ensures { Puts out.old at (frame_bytes n (open_frame local (offered_credit n) destination.now)) result out.new }
{
    send_open(
        out,
        at,
        local,
        n.advertised_credit(),
        destination,
        n.checksum(),
    )
}

// The OKAY of an acknowledgement that is due. Where none is, nothing is written.
pub fn put_ack(out: &mut [u8], at: usize, n: Negotiated, settled: Settled) -> usize
    requires { is_ack settled.ack ≡ true → at + 28 ≤ length out.old }
    ensures { Puts out.old at (frames_bytes n (ack_frames settled.slot settled.ack)) result
        out.new }
{
    match settled.ack {
        None => at,
        Some(len) => put_okay(out, at, n, ids_in(settled.slot), len),
    }
}

// A WRTE.
#[tactic(auto, unfolding(connection::specs::Frames::frame_bytes))]
pub fn put_write(out: &mut [u8], at: usize, n: Negotiated, ids: ChannelIds, bytes: &[u8]) -> usize
    requires { (at + message_size + length bytes.now ≤ length out.old) × (length bytes.now ≤ 1_048_576) }
    ensures { Puts out.old at (frame_bytes n (write_frame ids bytes.now)) result out.new }
{
    send_write(out, at, ids, bytes, n.checksum())
}
