// Replays recorded calls of decode, missing and has_feature: a line of standard input is a call, and the line written
// for it is to be the one recorded from libadb or, for the texts at the end, the one of a table (docs/VECTORS.md).
#![tactic(auto)]

use intake::read_full;
use protocol::command::Command;
use protocol::packet::{DecodeError, Packet};
use refusal::Numbered;
use replay::line::Line;
use replay::words::{bytes_at, number_at};
use std::io::Write;

// What a line asks for.
#[derive(Clone, Copy, PartialEq, Eq)]
enum Call {
    Decode,
    Missing,
    HasFeature,
}

impl Call {
    // The call that a line's first letter tells.
    fn of(line: &[u8]) -> Option<Call> {
        match line.first() {
            Some(b'd') => Some(Call::Decode),
            Some(b'm') => Some(Call::Missing),
            Some(_) => Some(Call::HasFeature),
            None => None,
        }
    }
}

// A command's four letters, for the output alone: protocol has them as numbers (`CMD_SYNC` and the others), as libadb has.
fn letters(command: Command) -> &'static str {
    match command {
        Command::Sync => "SYNC",
        Command::Connect => "CNXN",
        Command::Open => "OPEN",
        Command::Ready => "OKAY",
        Command::Close => "CLSE",
        Command::Write => "WRTE",
        Command::Auth => "AUTH",
        Command::StartTls => "STLS",
    }
}

fn refused(output: &mut Line, refusal: DecodeError) -> std::io::Result<()> {
    let number = refusal.number();
    match refusal {
        DecodeError::InvalidCommand(word) => writeln!(
            output,
            "refused {number} word={word} used=0"
        ),
        DecodeError::InvalidChecksum { used } => writeln!(output, "refused {number} used={used}"),
        DecodeError::InvalidMagic | DecodeError::PayloadTooLarge => writeln!(
            output,
            "refused {number} used=0"
        ),
    }
}

// A frame that was taken. That it is all there is tested again: `decode` promises its answer by a definition, and no clause has lengths.
fn accepted(output: &mut Line, p: Packet, received: &[u8]) -> std::io::Result<()> {
    let n = p.data_length;
    if n <= 1_048_576 && 24 + n <= received.len() {
        let command = letters(p.command);
        write!(
            output,
            "decoded command={command} arg0={} arg1={} payload=",
            p.arg0, p.arg1
        )?;
        output.hex(p.payload_in(received));
        writeln!(output, " used={}", p.frame_len())
    } else {
        Ok(())
    }
}

fn decode(output: &mut Line, limit: u32, received: &[u8]) -> std::io::Result<()> {
    match Packet::decode(received, limit) {
        Ok(None) => writeln!(output, "waiting used=0"),
        Ok(Some(packet)) => accepted(output, packet, received),
        Err(refusal) => refused(output, refusal),
    }
}

fn has_feature(output: &mut Line, banner: &[u8], feature: &[u8]) -> std::io::Result<()> {
    let answer = if features::has_feature(banner, feature) {
        "yes"
    } else {
        "no"
    };
    writeln!(output, "feature {answer} used=0")
}

// One call: a word, then one or two arguments. A line that names none has no answer.
fn answer(output: &mut Line, line: &[u8]) -> std::io::Result<()> {
    let mut first = io::large_buffer();
    let mut second = io::buffer();
    match Call::of(line) {
        Some(Call::Decode) => {
            let n = bytes_at(line, 2, &mut first);
            decode(output, number_at(line, 1), &first[..n])
        }
        Some(Call::Missing) => {
            let n = bytes_at(line, 1, &mut first);
            writeln!(output, "missing n={} used=0", Packet::missing(&first[..n]))
        }
        Some(Call::HasFeature) => {
            let n = bytes_at(line, 1, &mut first);
            let m = bytes_at(line, 2, &mut second);
            has_feature(output, &first[..n], &second[..m])
        }
        None => Ok(()),
    }
}

// This and `main` are alike in the three replay programs: one for all would take the reader, the writer and a closure, with a clause that it
// may be called, in place of these few lines.
fn replay<W: Write>(output: &mut W, script: &[u8]) -> std::io::Result<()> {
    let mut out = Line::new();
    for line in script.split(|b| *b == b'\n') {
        out.clear();
        answer(&mut out, line)?;
        output.write_all(out.text())?;
    }
    Ok(())
}

fn main(rt: HostRuntime) -> std::io::Result<()> {
    let mut script = replay::space();
    let n = read_full(&mut rt.stdin(), &mut script)?;
    replay(&mut rt.stdout(), &script[..n])
}
