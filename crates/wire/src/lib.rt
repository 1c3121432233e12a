// Outgoing frames, written into a buffer that the caller lends, at a place of it: a frame is put behind another, so that a slice from the
// place on would leave the place to be added back by every caller.
#![tactic(auto)]

ghost use Rattle.std.specs.Prelude.{[], ◌+◌, ◌≤◌, length};
ghost use Rattle.protocol.specs.Packet.{frame_for, FrameRoom, Puts};
ghost use Rattle.wire.specs.Wire.{okay_with, close_bytes, open_bytes, write_bytes};
ghost use Rattle.protocol.specs.Message.{message_size};

use checksum::Checksum;
use protocol::command::Command;
use protocol::packet::Packet;
use slot::ids::{ChannelIds, LocalId};

// A frame with no payload.
fn put_empty(out: &mut [u8], at: usize, frame: Packet, checksum: Checksum) -> usize
    requires { at + message_size ≤ length out.old }
    ensures { Puts out.old at (frame_for frame.command frame.arg0 frame.arg1 [] checksum) result out.new }
{
    Packet::put_at(
        out,
        at,
        frame.command,
        frame.arg0,
        frame.arg1,
        &[0u8; 0],
        checksum,
    )
}

// An OKAY: with the acknowledged length where acknowledgements are delayed, with no payload otherwise.
pub fn send_okay(
    out: &mut [u8],
    at: usize,
    ids: ChannelIds,
    len: Option<u32>,
    checksum: Checksum,
) -> usize
    requires { at + 28 ≤ length out.old }
    ensures { Puts out.old at (okay_with ids len checksum) result out.new }
{
    match len {
        Some(len) => {
            let mut credit = [0u8; 4];
            le::put(&mut credit, 0, len);
            Packet::put_at(
                out,
                at,
                Command::Ready,
                ids.local.0,
                ids.remote.0,
                &credit,
                checksum,
            )
        }
        None => {
            let frame = Packet::empty(Command::Ready, ids.local.0, ids.remote.0);
            put_empty(out, at, frame, checksum)
        }
    }
}

// A CLSE for a channel.
pub fn send_close(out: &mut [u8], at: usize, ids: ChannelIds, checksum: Checksum) -> usize
    requires { at + message_size ≤ length out.old }
    ensures { Puts out.old at (close_bytes ids checksum) result out.new }
{
    let frame = Packet::empty(Command::Close, ids.local.0, ids.remote.0);
    put_empty(out, at, frame, checksum)
}

// An OPEN, with the credit that we give the device.
pub fn send_open(
    out: &mut [u8],
    at: usize,
    local: LocalId,
    credit: u32,
    destination: &[u8],
    checksum: Checksum,
) -> usize
    requires { FrameRoom out.old at destination.now }
    ensures { Puts out.old at (open_bytes local credit destination.now checksum) result out.new }
{
    Packet::put_at(
        out,
        at,
        Command::Open,
        local.0,
        credit,
        destination,
        checksum,
    )
}

// A WRTE of some bytes of a channel.
pub fn send_write(
    out: &mut [u8],
    at: usize,
    ids: ChannelIds,
    bytes: &[u8],
    checksum: Checksum,
) -> usize
    requires { FrameRoom out.old at bytes.now }
    ensures { Puts out.old at (write_bytes ids bytes.now checksum) result out.new }
{
    Packet::put_at(
        out,
        at,
        Command::Write,
        ids.local.0,
        ids.remote.0,
        bytes,
        checksum,
    )
}
