// Shell frames to bytes, what `shell` reads them from.
// `as u32` narrows a length that fits: `try_from` would need an arm that never comes.
#![tactic(auto)]

ghost use Rattle.std.specs.Prelude.{◌≡◌};
ghost use Rattle.le.specs.Le.{put};
ghost use Rattle.shell.specs.Kind.{kind_number};
ghost use Rattle.shell_write.specs.Write.{frame_bytes, Room, write_frame, Writes};

use shell::{HEAD_LEN, Kind, ReadError};

// Longest data, what a length of 32 bits can say.
pub const DATA_MAX: usize = 0xffff_ffff;

// Why a frame is not written.
pub type WriteError = refusal::WriteError<ReadError>;

// A frame with its data, at the start of out.
#[tactic(auto, using(crate::proofs::WriteLaws::put_parts))]
fn put_frame(out: &mut [u8], kind: Kind, payload: &[u8])
    requires { Room out.old payload.now }
    ensures { out.new ≡ put out.old 0 (frame_bytes (kind_number kind) payload.now) }
{
    le::put(out, 0, u8::from(kind));
    le::put(out, 1, payload.len() as u32);
    le::copy_at(out, HEAD_LEN, payload);
}

// A frame with its data, written at the start of out where it fits, and its length. The kind comes as a number, which may name none;
// `Kind` in its place would ask more of a caller.
#[tactic(auto, using(crate::proofs::WriteLaws::kinds), unfolding(crate::specs::Write::write_frame))]
pub fn write_frame(kind: u32, payload: &[u8], out: &mut [u8]) -> Result<usize, WriteError>
    ensures { Writes (write_frame kind payload.now out.old) result out.new }
{
    let kind = Kind::try_from(kind)?;
    if kind.is_empty_exit(payload.len()) {
        return Err(WriteError::Refused(ReadError::EmptyExit));
    }
    if payload.len() > DATA_MAX {
        return Err(WriteError::OutShort);
    }
    let end = HEAD_LEN + payload.len();
    if out.len() < end {
        return Err(WriteError::OutShort);
    }
    put_frame(out, kind, payload);
    Ok(end)
}
