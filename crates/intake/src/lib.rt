// Bytes of an input, held in a lent buffer until they are used.
#![tactic(auto)]

ghost use Rattle.std.specs.Prelude.{◌≡◌, ◌-◌, ◌<◌, ◌≤◌, length, take, IfOk};
ghost use Rattle.std.specs.Io.KnownBytes.{Consumes, IsAtEnd};
ghost use Rattle.le.specs.Le.{part};
ghost use Rattle.intake.specs.Intake.{Within, held_of, ReadsMore};

use std::io;
use std::io::Read;
use std::ops::ControlFlow;

// Where held bytes lie in their buffer: from `at` to `end`. The buffer stays beside it: a struct with a `&mut` in it would need a
// clause in each method that it is the same reference, and reads no plainer. One that owns an array proves (tried), but would be a narrower
// type: `convert` takes a buffer of any length.
#[derive(Clone, Copy, Debug, PartialEq, Eq)]
pub struct Held {
    pub at: usize,
    pub end: usize,
}

// Before any byte.
pub fn begin() -> Held
    ensures { result ≡ record { at = 0; end = 0 } }
{
    Held { at: 0, end: 0 }
}

// How many bytes one read put at the start of buf: none where it failed, as where the input has ended.
fn came<R: Read>(input: &mut R, buf: &mut [u8]) -> usize
    ensures bound { result ≤ length buf.new }
    ensures bytes { Consumes (R.remaining input.old) (R.remaining input.new) (take result buf.new) }
{
    input.read(buf).unwrap_or(0)
}

impl Held {
    // One read, behind what is held, which is moved to the buffer's start. Where nothing comes, there is no more.
    pub fn read_more<R: Read>(self, input: &mut R, buf: &mut [u8]) -> ControlFlow<Held, Held>
        requires { Within self.at self.end buf.old }
        ensures held { ReadsMore buf.old self.at self.end result buf.new }
        ensures bytes { let n = self.end - self.at in
            Consumes (R.remaining input.old) (R.remaining input.new) (part buf.new n ((held_of result).end - n)) }
    {
        let n = self.end - self.at;
        rx_store::move_down(buf, self.at, n);
        let came = came(input, &mut buf[n..]);
        let held = Held {
            at: 0,
            end: n + came,
        };
        if came > 0 {
            ControlFlow::Continue(held)
        } else {
            ControlFlow::Break(held)
        }
    }
}

// Reads until buf is full or the input ends, and returns how many bytes came. They stand at the start of buf.
pub fn read_full<R: Read>(input: &mut R, buf: &mut [u8]) -> io::Result<usize>
    ensures bound { IfOk result (λ n. n ≤ length buf.new) }
    ensures bytes { IfOk result (λ n. Consumes (R.remaining input.old) (R.remaining input.new) (take n buf.new)) }
    ensures end { IfOk result (λ n. n < length buf.new → IsAtEnd (R.remaining input.new)) }
{
    let mut done = 0;

    // The step is what a read brought, so no `for` counts it. std's `read_exact` does not say how many bytes came.
    while done < buf.len() {
        match input.read(&mut buf[done..])? {
            0 => return Ok(done),
            came => done += came,
        }
    }
    Ok(done)
}
