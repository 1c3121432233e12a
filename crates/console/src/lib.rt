// What a console shows of a session's bytes: the data of all shell frames of one kind, one behind the other, and what is left for
// the next piece.
#![tactic(auto)]

ghost use Rattle.std.specs.Prelude.{◌≡◌, ◌+◌, ◌≤◌, length};
ghost use Rattle.shell.specs.Kind.{kind_number};
ghost use Rattle.console.specs.Gather.{kept, Keeps, gathered, Gathers};

use shell::{Kind, ReadError, read_frame};

// What was gathered from received bytes.
#[derive(Clone, Copy, Debug, PartialEq, Eq)]
pub struct Gathered {
    // Bytes of the frames that are all there. The rest stays for the next piece.
    pub used: usize,
    // Bytes gathered.
    pub length: usize,
    // Why the rest is no frame; none where more bytes are waited for.
    pub refusal: Option<ReadError>,
}

// A frame's data behind what was gathered, where its kind is the wanted one.
#[tactic(auto, using(crate::proofs::GatherLaws::puts_none), unfolding(crate::specs::Gather::kept))]
fn keep(wanted: u32, kind: Kind, payload: &[u8], out: &mut [u8], end: usize) -> usize
    requires { end + length payload.now ≤ length out.old }
    ensures { Keeps (kept wanted (kind_number kind) payload.now) end out.old result out.new }
{
    if u32::from(u8::from(kind)) != wanted {
        return end;
    }
    le::copy_at(out, end, payload);
    end + payload.len()
}

// The data of all frames of a kind, at the start of out. The kind comes as a number of any size, as a caller outside has it: where it
// names none, nothing is gathered. `Kind` in its place would ask more of a caller.
pub fn gather(wanted: u32, received: &[u8], out: &mut [u8]) -> Gathered
    requires { length received.now ≤ length out.old }
    ensures { Gathers wanted received.now out.old result out.new }
{
    let mut used = 0;
    let mut length = 0;
    // A step is as long as each frame says, and why there are no more is kept: an iterator of frames would have this loop's body as its
    // `next`, and a field for the refusal beside it.
    let refusal = loop {
        let rest = &received[used..];
        match read_frame(rest) {
            Ok(Some(frame)) => {
                length = keep(wanted, frame.kind, frame.payload(rest), out, length);
                used += frame.used;
            }
            Ok(None) => break None,
            Err(refusal) => break Some(refusal),
        }
    };
    Gathered {
        used,
        length,
        refusal,
    }
}
