// Replays calls of the sync messages' reader and writer: a line of standard input is a call, and the line written for it is to
// be the stored one (docs/VECTORS.md). A message that is read is written again, and its bytes are shown.
#![tactic(auto)]

pub mod wide;

use exchange::{Exchange, SyncId};
use intake::read_full;
use refusal::{Numbered, number_of};
use replay::line::Line;
use replay::text::written;
use replay::words::{bytes_at, number_at, size_at};
use std::io::Write;
use std::{fmt, io};
use sync::{Fields, FileMode, Message, Stat, StatV1, Whole};
use wide::Wide;

// What a line asks for.
#[derive(Clone, Copy, PartialEq, Eq)]
enum Call {
    Read,
    // Of a message with fields of the first stat layout.
    Write,
    // Of one with fields of the second.
    WriteV2,
    // A write of zero bytes.
    Zeros,
    Narrow,
    Widen,
}

impl Call {
    // The call that a line's first letter tells.
    fn of(line: &[u8]) -> Option<Call> {
        match line.first() {
            Some(b'r') => Some(Call::Read),
            Some(b'v') => Some(Call::WriteV2),
            Some(b'z') => Some(Call::Zeros),
            Some(b'n') => Some(Call::Narrow),
            Some(b'o') => Some(Call::Widen),
            Some(_) => Some(Call::Write),
            None => None,
        }
    }
}

// The id that a number of a line names: numbers of the scripts alone, and neither type is this program's, so no From.
fn id_of(n: u32) -> SyncId {
    match n {
        0 => SyncId::List,
        1 => SyncId::Recv,
        2 => SyncId::Send,
        3 => SyncId::Stat,
        4 => SyncId::Data,
        5 => SyncId::Done,
        6 => SyncId::Quit,
        7 => SyncId::Dent,
        8 => SyncId::Okay,
        9 => SyncId::Fail,
        10 => SyncId::Lis2,
        11 => SyncId::Sta2,
        _ => SyncId::Dnt2,
    }
}

// An id's four letters.
#[derive(Clone, Copy)]
struct Letters(SyncId);

impl fmt::Display for Letters {
    fn fmt<W: fmt::Write>(&self, f: &mut fmt::Formatter<W>) -> fmt::Result {
        for b in self.0.letters() {
            f.write_char(char::from(*b))?;
        }
        Ok(())
    }
}

// A stat of the first layout, each of its numbers behind a space and its name.
#[derive(Clone, Copy)]
pub struct First(StatV1);

impl fmt::Display for First {
    fn fmt<W: fmt::Write>(&self, f: &mut fmt::Formatter<W>) -> fmt::Result {
        let s = self.0;
        write!(f, " mode={} size={} mtime={}", s.mode.0, s.size, s.mtime)
    }
}

// A stat of either layout.
#[derive(Clone, Copy)]
struct Either(Stat);

impl fmt::Display for Either {
    fn fmt<W: fmt::Write>(&self, f: &mut fmt::Formatter<W>) -> fmt::Result {
        match self.0 {
            Stat::V1(stat) => write!(f, "{}", First(stat)),
            Stat::V2(stat) => write!(f, "{}", Wide(stat)),
        }
    }
}

// A message's fields, shown as a stat is.
#[derive(Clone, Copy)]
struct Shown(Fields);

impl fmt::Display for Shown {
    fn fmt<W: fmt::Write>(&self, f: &mut fmt::Formatter<W>) -> fmt::Result {
        match self.0 {
            Fields::Text => Ok(()),
            Fields::Number(n) => write!(f, " number={n}"),
            Fields::Stat(stat) | Fields::Entry(stat) => write!(f, "{}", Either(stat)),
            Fields::End(stat, last) => write!(f, "{} last={last}", Either(stat)),
        }
    }
}

// Fields by the number of their layout, from the numbers of a line.
fn fields_of(kind: u32, a: u32, b: u32, c: u32, d: u32) -> Fields {
    let mode = FileMode(a);
    let stat = Stat::V1(StatV1 {
        mode,
        size: b,
        mtime: c,
    });
    match kind {
        0 => Fields::Text,
        1 => Fields::Number(a),
        2 => Fields::Stat(stat),
        3 => Fields::Entry(stat),
        _ => Fields::End(stat, d),
    }
}

// A message that was read, and its bytes as the writer makes them.
fn whole(output: &mut Line, x: Exchange, w: Whole, text: &[u8], back: &mut [u8]) -> io::Result<()> {
    let Message { id, fields } = w.message;
    let n = sync_write::write(w.message, x, text, back).unwrap_or(0);
    write!(output, "message id={}{} text=", Letters(id), Shown(fields))?;
    output.hex(text);
    write!(output, " back=")?;
    output.hex(written(back, n));
    writeln!(output, " used={}", w.used)
}

fn read(output: &mut Line, x: Exchange, received: &[u8], back: &mut [u8]) -> io::Result<()> {
    match Message::read(x, received) {
        Ok(None) => writeln!(output, "waiting used=0"),
        Ok(Some(w)) => whole(output, x, w, w.text(received), back),
        Err(refusal) => writeln!(output, "refused {} used=0", refusal.number()),
    }
}

// The answer of a write, and all bytes that it was lent.
fn write(
    output: &mut Line,
    x: Exchange,
    m: Message,
    text: &[u8],
    back: &mut [u8],
) -> io::Result<()> {
    let answer = sync_write::write(m, x, text, back);
    let number = number_of(answer);
    let n = answer.unwrap_or(0);
    write!(output, "written {number} n={n} out=")?;
    output.hex(back);
    writeln!(output)
}

// The message that a line's words 2 to 7 name.
fn message_of(line: &[u8]) -> Message {
    let id = id_of(number_at(line, 2));
    let a = number_at(line, 4);
    let b = number_at(line, 5);
    let c = number_at(line, 6);
    let d = number_at(line, 7);
    let fields = fields_of(number_at(line, 3), a, b, c, d);
    Message { id, fields }
}

// The message that words 2 to 15 name, with fields of the second stat layout.
fn message_v2_of(line: &[u8]) -> Message {
    let id = id_of(number_at(line, 2));
    let fields = wide::fields_at(line);
    Message { id, fields }
}

fn exchange_of(n: u32) -> Exchange {
    if n < 5 {
        Exchange::from_number(n)
    } else {
        Exchange::from_v2_number(n)
    }
}

// The room for a message that word k spells. replay_shell has its like: a public one would have to say how the buffer's borrow ends.
fn room<'a>(line: &[u8], k: usize, back: &'a mut [u8]) -> &'a mut [u8] {
    let n = size_at(line, k).min(back.len());
    &mut back[..n]
}

// One call: a word, an exchange's number, then the bytes to read; or an id, fields, a text and the room for the message, with
// the text in hexadecimal (write, v2 for the second stat layout) or as a count of zero bytes (zeros). Or a conversion: narrow
// and a stat in the places that v2 has it, or old and a mode, a size and a time. A line that names none has no answer.
fn answer(output: &mut Line, line: &[u8]) -> io::Result<()> {
    let mut first = replay::space();
    let mut back = replay::space();
    let x = exchange_of(number_at(line, 1));
    match Call::of(line) {
        Some(Call::Read) => {
            let n = bytes_at(line, 2, &mut first);
            read(output, x, &first[..n], &mut back)
        }
        Some(Call::Write) => {
            let n = bytes_at(line, 8, &mut first);
            write(
                output,
                x,
                message_of(line),
                &first[..n],
                room(line, 9, &mut back),
            )
        }
        Some(Call::WriteV2) => {
            let n = bytes_at(line, 16, &mut first);
            write(
                output,
                x,
                message_v2_of(line),
                &first[..n],
                room(line, 17, &mut back),
            )
        }
        Some(Call::Zeros) => {
            let n = size_at(line, 8).min(first.len());
            write(
                output,
                x,
                message_of(line),
                &first[..n],
                room(line, 9, &mut back),
            )
        }
        Some(Call::Narrow) => wide::narrow(output, line),
        Some(Call::Widen) => wide::widen(output, line),
        None => Ok(()),
    }
}

// This and `main` are alike in the three replay programs: one for all would take the reader, the writer and a closure, with a clause that it
// may be called, in place of these few lines.
fn replay<W: Write>(output: &mut W, script: &[u8]) -> io::Result<()> {
    let mut out = Line::new();
    for line in script.split(|b| *b == b'\n') {
        out.clear();
        answer(&mut out, line)?;
        output.write_all(out.text())?;
    }
    Ok(())
}

fn main(rt: HostRuntime) -> io::Result<()> {
    let mut script = replay::space();
    let n = read_full(&mut rt.stdin(), &mut script)?;
    replay(&mut rt.stdout(), &script[..n])
}
