// The loop of the two programs that convert captures, over one buffer: what is held of the input is taken frame by frame and
// written to the output, and where a part of one is held, more is read behind it.
#![tactic(auto)]

ghost use Rattle.std.specs.Prelude.{◌≡◌, ℕ, List, ◌+◌, ◌≤◌, Option, Result, Some, Ok, length};
ghost use Rattle.intake.specs.Intake.{Within, held_of};
ghost use Rattle.capture.specs.Capture.{next_frame, next_record};
ghost use Rattle.convert.specs.Convert.{hold};
ghost use Rattle.convert.specs.Laws.{frame_here, record_here};

use intake::Held;
use protocol::packet::DecodeError;
use std::io::{Read, Write};
use std::ops::ControlFlow;

// Longest frame with its header.
const HOLD: u32 = 65_536;

// A way of converting.
pub trait Way: Copy {
    // Why what is held is not taken.
    type Refusal: Copy;

    // How many bytes stand ahead of a frame.
    const AHEAD: usize;

    ghost AHEAD: { ℕ };

    ghost next: { List ℕ → Result (Option ℕ) Self.Refusal };

    // How long the frame is that held bytes begin with.
    fn next(self, held: &[u8]) -> Result<Option<usize>, Self::Refusal>
        ensures { result ≡ next held.now };

    // It is held, with what stands ahead of it.
    ghost here: { (s : List ℕ) → (n : ℕ) → next s ≡ Ok (Some n) → AHEAD + n ≤ length s };

    // Writes what goes ahead of a frame of n bytes. Answers whether all of it was written: why it was not, nothing here asks.
    fn put_ahead<W: Write>(self, output: &mut W, n: usize) -> bool;
}

// Received frames to the records of a capture.
#[derive(Clone, Copy)]
pub struct ToRecords;

impl Way for ToRecords {
    type Refusal = DecodeError;

    const AHEAD: usize = 0;

    ghost AHEAD = { 0 };

    ghost next = { next_frame hold };

    ghost here = { frame_here };

    fn next(self, held: &[u8]) -> Result<Option<usize>, DecodeError> {
        capture::next_frame(held, HOLD)
    }

    fn put_ahead<W: Write>(self, output: &mut W, n: usize) -> bool {
        let mut head = [0u8; pcap::RECORD_SIZE];
        capture::make_head(n, &mut head).is_ok() && output.write_all(&head).is_ok()
    }
}

// Records to their frames.
#[derive(Clone, Copy)]
pub struct ToFrames;

impl Way for ToFrames {
    type Refusal = pcap::ReadError;

    const AHEAD: usize = pcap::RECORD_SIZE;

    ghost AHEAD = { 16 };

    ghost next = { next_record hold };

    ghost here = { record_here };

    fn next(self, held: &[u8]) -> Result<Option<usize>, pcap::ReadError> {
        capture::next_record(held, HOLD)
    }

    fn put_ahead<W: Write>(self, _output: &mut W, _n: usize) -> bool {
        true
    }
}

// A frame of n bytes is written. What is held then is what stands behind it.
fn take<V: Way, W: Write>(
    output: &mut W,
    way: V,
    buf: &[u8],
    held: Held,
    n: usize,
) -> ControlFlow<Held, Held>
    requires { Within (held.at + (V.AHEAD + n)) held.end buf.now }
    ensures { Within (held_of result).at (held_of result).end buf.now }
{
    let from = held.at + V::AHEAD;
    let to = from + n;
    let rest = Held {
        at: to,
        end: held.end,
    };
    if way.put_ahead(output, n) && output.write_all(&buf[from..to]).is_ok() {
        ControlFlow::Continue(rest)
    } else {
        ControlFlow::Break(rest)
    }
}

// One frame, or one read.
fn turn<V: Way, R: Read, W: Write>(
    input: &mut R,
    output: &mut W,
    way: V,
    buf: &mut [u8],
    held: Held,
) -> ControlFlow<Held, Held>
    requires { Within held.at held.end buf.old }
    ensures { Within (held_of result).at (held_of result).end buf.new }
{
    match way.next(&buf[held.at..held.end]) {
        Ok(Some(n)) => take(output, way, buf, held, n),
        Ok(None) => held.read_more(input, buf),
        Err(_) => ControlFlow::Break(held),
    }
}

// All of the input, up to its end or to what is not taken. Answers what is held then: what was read and not taken. Nothing says
// that input ends, so that the turns are counted, up to a number that no run reaches.
pub fn convert<V: Way, R: Read, W: Write>(
    input: &mut R,
    output: &mut W,
    way: V,
    buf: &mut [u8],
) -> Held
    ensures { Within result.at result.end buf.new }
{
    let mut held = intake::begin();
    for _ in 0..u64::MAX {
        match turn(input, output, way, buf, held) {
            ControlFlow::Continue(next) => held = next,
            ControlFlow::Break(last) => return last,
        }
    }
    held
}
