// The line that answers a call, while it is written: text by `write!`, bytes in hexadecimal by `hex`. A program writes it to its output at
// once, as the library's standard output has no buffer: each piece would be a write of its own.
ghost use Rattle.std.specs.Prelude.{◌≡◌, None, Ok, length, take};
ghost use Rattle.std.specs.Io.{WritesAtMost};
ghost use Rattle.std.specs.Io.KnownBytes.{Keeps, WriteAppends};
ghost use Rattle.replay.specs.Text.{Puts, hex_text};

use crate::text::{put, put_hex, written};
use crate::{Space, space};
use std::io;
use std::io::Write;

// There is room for as many bytes as a script has. What has none is cut, and that is no failure.
#[derive(Drop)]
pub struct Line {
    pub room: Space,
    pub end: usize,
}

impl Line {
    pub fn new() -> Line
        ensures { result.end ≡ 0 }
    {
        Line {
            room: space(),
            end: 0,
        }
    }

    // The next line begins.
    pub fn clear(&mut self)
        ensures { self.new ≡ record { room = self.old.room; end = 0 } }
    {
        self.end = 0;
    }

    // Bytes in hexadecimal, "-" for none.
    pub fn hex(&mut self, s: &[u8])
        ensures { Puts self.old.room self.old.end (hex_text s.now) self.new.room self.new.end }
    {
        self.end = put_hex(&mut self.room, self.end, s);
    }

    // What was written of it.
    pub fn text(&self) -> &[u8]
        ensures { result.now ≡ take self.now.end self.now.room }
    {
        written(&self.room, self.end)
    }
}

impl Write for Line {
    fn write(&mut self, buf: &[u8]) -> io::Result<usize>
        ensures bound { WritesAtMost result buf.now }
        ensures bytes { WriteAppends None None result buf.now }
        ensures count { result ≡ Ok (length buf.now) }
        ensures puts { Puts self.old.room self.old.end buf.now self.new.room self.new.end }
    {
        self.end = put(&mut self.room, self.end, buf);
        Ok(buf.len())
    }

    fn flush(&mut self) -> io::Result<()>
        ensures bytes { Keeps None None }
        ensures same { self.new ≡ self.old }
    {
        Ok(())
    }
}
