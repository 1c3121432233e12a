// The second stat layout in a line, and the calls of the conversion.
// `as u64` widens a usize: std has no From for it.
use crate::First;
use refusal::Numbered;
use replay::words::{number_at, signed_at, size_at};
use std::io::Write;
use std::{fmt, io};
use sync::{Fields, FileMode, Stat, StatV1, StatV2};

// A stat of the second layout, each of its numbers behind a space and its name.
#[derive(Clone, Copy)]
pub struct Wide(pub StatV2);

impl fmt::Display for Wide {
    fn fmt<W: fmt::Write>(&self, f: &mut fmt::Formatter<W>) -> fmt::Result {
        let s = self.0;
        write!(f, " error={} dev={} ino={}", s.error, s.dev, s.ino)?;
        write!(
            f,
            " mode={} nlink={} uid={} gid={}",
            s.mode.0, s.nlink, s.uid, s.gid
        )?;
        write!(
            f,
            " size={} atime={} mtime={} ctime={}",
            s.size, s.atime, s.mtime, s.ctime
        )
    }
}

// The stat that words 4 to 14 of a line spell.
fn stat_at(line: &[u8]) -> StatV2 {
    let mode = FileMode(number_at(line, 7));
    StatV2 {
        error: number_at(line, 4),
        dev: size_at(line, 5) as u64,
        ino: size_at(line, 6) as u64,
        mode,
        nlink: number_at(line, 8),
        uid: number_at(line, 9),
        gid: number_at(line, 10),
        size: size_at(line, 11) as u64,
        atime: signed_at(line, 12),
        mtime: signed_at(line, 13),
        ctime: signed_at(line, 14),
    }
}

// Fields by the number of their layout, from the numbers of a line.
pub fn fields_at(line: &[u8]) -> Fields {
    let stat = Stat::V2(stat_at(line));
    match number_at(line, 3) {
        5 => Fields::Stat(stat),
        6 => Fields::Entry(stat),
        _ => Fields::End(stat, number_at(line, 15)),
    }
}

pub fn narrow<W: Write>(output: &mut W, line: &[u8]) -> io::Result<()> {
    match stat_convert::narrow(stat_at(line)) {
        Ok(stat) => writeln!(output, "narrowed 0{}", First(stat)),
        Err(refusal) => writeln!(output, "narrowed {}", refusal.number()),
    }
}

pub fn widen<W: Write>(output: &mut W, line: &[u8]) -> io::Result<()> {
    let mode = FileMode(number_at(line, 1));
    let size = number_at(line, 2);
    let mtime = number_at(line, 3);
    let stat = stat_convert::widen(StatV1 { mode, size, mtime });
    writeln!(output, "widened{}", Wide(stat))
}
