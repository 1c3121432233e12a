// Received frames to the records of a capture, and back: what the programs `frames_to_pcap` and `pcap_to_frames` do with the bytes
// that they hold, one frame at a time.
#![tactic(auto)]

ghost use Rattle.std.specs.Prelude.{◌≡◌};
ghost use Rattle.capture.specs.Capture.{is_long, taken_of, next_frame, head_for, next_record};
ghost use Rattle.pcap.specs.Record.{Writes};

use pcap::{ReadError, Time, WriteError};
use protocol::packet::{DecodeError, Packet};

// Whether a header is here that announces a longer frame than may be held. `as usize` widens: Rust has no `From<u32>` for usize.
#[tactic(auto, unfolding(crate::specs::Capture::is_long))]
fn is_long(held: &[u8], hold: u32) -> bool
    ensures { result ≡ is_long hold held.now }
{
    held.len() >= Packet::MESSAGE_SIZE
        && Packet::MESSAGE_SIZE + le::get::<u32>(held, 12) as usize > hold as usize
}

// What decoding at the largest limit comes to.
#[tactic(auto, using(crate::proofs::FrameLaws::accepted_small), unfolding(crate::specs::Capture::taken_of, crate::specs::Capture::next_of))]
fn taken(held: &[u8]) -> Result<Option<usize>, DecodeError>
    ensures { result ≡ taken_of held.now }
{
    Ok(Packet::decode(held, Packet::MAX_PAYLOAD)?.map(|packet| packet.frame_len()))
}

// How long the frame is that held bytes begin with, where frames of at most these many bytes, their headers with them, are held; none
// while it is not all there, or why it is not taken.
#[tactic(auto, unfolding(crate::specs::Capture::next_frame))]
pub fn next_frame(held: &[u8], hold: u32) -> Result<Option<usize>, DecodeError>
    ensures { result ≡ next_frame hold held.now }
{
    if is_long(held, hold) {
        return Err(DecodeError::PayloadTooLarge);
    }
    taken(held)
}

// The header of a frame's record, at time 0. The record is it and the frame.
#[tactic(auto, unfolding(crate::specs::Capture::head_for))]
pub fn make_head(len: usize, head: &mut [u8]) -> Result<usize, WriteError>
    ensures { Writes (head_for len head.old) result head.new }
{
    pcap::write_head(Time::default(), len, head)
}

// How long the frame is of the record that held bytes begin with, where frames of at most these many bytes are held; none while the
// record is not all there, or why it is refused. The frame stands behind the record's header.
#[tactic(auto, unfolding(crate::specs::Capture::next_record, crate::specs::Capture::read_of))]
pub fn next_record(held: &[u8], hold: u32) -> Result<Option<usize>, ReadError>
    ensures { result ≡ next_record hold held.now }
{
    Ok(pcap::read_record(held, hold)?.map(|record| record.length))
}
