// Replays calls of the shell frames' reader and writer, and console sessions in pieces: a line of standard input is a call, and the
// line written for it is to be the stored one (docs/VECTORS.md). A frame that is read is written again, and its bytes are shown; of
// a session the output, the errors and the exit's data, each gathered piece by piece, and the unfinished rest.
#![tactic(auto)]

ghost use Rattle.std.specs.Prelude.{◌+◌, ◌≤◌, length};
ghost use Rattle.replay_shell.specs.Bounds.{Room};

use console::Gathered;
use intake::read_full;
use refusal::{Numbered, WAITING, number_of};
use replay::line::Line;
use replay::text::written;
use replay::words::{bytes_at, number_at, size_at};
use shell::{Frame, Kind};
use std::io;
use std::io::Write;

// What a line asks for.
#[derive(Clone, Copy, PartialEq, Eq)]
enum Call {
    Read,
    Session,
    Write,
    // A write of zero bytes.
    Zeros,
}

impl Call {
    // The call that a line's first letter tells.
    fn of(line: &[u8]) -> Option<Call> {
        match line.first() {
            Some(b'r') => Some(Call::Read),
            Some(b's') => Some(Call::Session),
            Some(b'w') => Some(Call::Write),
            Some(_) => Some(Call::Zeros),
            None => None,
        }
    }
}

// A frame that was read, and its bytes as the writer makes them.
fn whole(output: &mut Line, frame: Frame, payload: &[u8], back: &mut [u8]) -> io::Result<()> {
    let kind = u8::from(frame.kind);
    let code = frame.code.unwrap_or(0);
    let n = shell_write::write_frame(u32::from(kind), payload, back).unwrap_or(0);
    write!(output, "frame kind={kind} data=")?;
    output.hex(payload);
    write!(output, " code={code} back=")?;
    output.hex(written(back, n));
    writeln!(output, " used={}", frame.used)
}

fn read(output: &mut Line, received: &[u8], back: &mut [u8]) -> io::Result<()> {
    match shell::read_frame(received) {
        Ok(None) => writeln!(output, "waiting used=0"),
        Ok(Some(frame)) => whole(output, frame, frame.payload(received), back),
        Err(refusal) => writeln!(output, "refused {} used=0", refusal.number()),
    }
}

// The answer of a write, and all bytes that it was lent.
fn write(output: &mut Line, kind: u32, payload: &[u8], back: &mut [u8]) -> io::Result<()> {
    let answer = shell_write::write_frame(kind, payload, back);
    let number = number_of(answer);
    let n = answer.unwrap_or(0);
    write!(output, "written {number} n={n} out=")?;
    output.hex(back);
    writeln!(output)
}

// A piece with the rest before it, gathered behind what is there.
fn show_piece(kind: Kind, received: &[u8], out: &mut [u8], end: usize) -> Gathered
    requires { end + length received.now ≤ length out.old }
    ensures { Room (length received.now) result }
{
    console::gather(u32::from(u8::from(kind)), received, &mut out[end..])
}

// One kind's data of a session whose bytes arrive in pieces: all that was used and gathered, and why it ended.
fn show(kind: Kind, received: &[u8], piece: usize, out: &mut [u8]) -> Gathered
    requires { length received.now ≤ length out.old }
{
    let mut used = 0;
    let mut end = 0;
    let mut gathered = 0;
    for arrived in received.chunks(piece.max(1)) {
        end += arrived.len();
        let g = show_piece(kind, &received[used..end], out, gathered);
        used += g.used;
        gathered += g.length;
        if g.refusal.is_some() {
            return Gathered {
                used,
                length: gathered,
                refusal: g.refusal,
            };
        }
    }
    Gathered {
        used,
        length: gathered,
        refusal: None,
    }
}

// A session's output, errors and exit data, each gathered from the start, and how the session ended.
fn session(output: &mut Line, received: &[u8], piece: usize, back: &mut [u8]) -> io::Result<()> {
    if received.len() > back.len() {
        return Ok(());
    }
    write!(output, "session output=")?;
    let shown = show(Kind::Output, received, piece, back);
    output.hex(written(back, shown.length));
    write!(output, " errors=")?;
    let shown = show(Kind::Errors, received, piece, back);
    output.hex(written(back, shown.length));
    write!(output, " exit=")?;
    let shown = show(Kind::Exit, received, piece, back);
    output.hex(written(back, shown.length));
    let ending = shown.refusal.map_or(WAITING, |refusal| refusal.number());
    writeln!(output, " ending={ending} used={}", shown.used)
}

// The room for a frame that word 3 spells. replay_sync has its like: a public one would have to say how the buffer's borrow ends.
fn room<'a>(line: &[u8], back: &'a mut [u8]) -> &'a mut [u8] {
    let n = size_at(line, 3).min(back.len());
    &mut back[..n]
}

// One call: `read` and bytes; `session`, a piece's length and bytes; `write` or `zeros`, a kind, data in hexadecimal or a count of
// zero bytes, and the room for the frame. A line that names none has no answer.
fn answer(output: &mut Line, line: &[u8]) -> io::Result<()> {
    let mut first = replay::space();
    let mut back = replay::space();
    match Call::of(line) {
        Some(Call::Read) => {
            let n = bytes_at(line, 1, &mut first);
            read(output, &first[..n], &mut back)
        }
        Some(Call::Session) => {
            let n = bytes_at(line, 2, &mut first);
            session(output, &first[..n], size_at(line, 1), &mut back)
        }
        Some(Call::Write) => {
            let n = bytes_at(line, 2, &mut first);
            write(
                output,
                number_at(line, 1),
                &first[..n],
                room(line, &mut back),
            )
        }
        Some(Call::Zeros) => {
            let n = size_at(line, 2).min(first.len());
            write(
                output,
                number_at(line, 1),
                &first[..n],
                room(line, &mut back),
            )
        }
        None => Ok(()),
    }
}

// This and `main` are alike in the three replay programs: one for all would take the reader, the writer and a closure, with a clause that it
// may be called, in place of these few lines.
fn replay<W: Write>(output: &mut W, script: &[u8]) -> io::Result<()> {
    let mut out = Line::new();
    for line in script.split(|b| *b == b'\n') {
        out.clear();
        answer(&mut out, line)?;
        output.write_all(out.text())?;
    }
    Ok(())
}

fn main(rt: HostRuntime) -> io::Result<()> {
    let mut script = replay::space();
    let n = read_full(&mut rt.stdin(), &mut script)?;
    replay(&mut rt.stdout(), &script[..n])
}
