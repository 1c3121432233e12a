// Numbers and bytes as text, put into lent bytes: each writer puts as much of its text as fits from `at` on, and answers where it ends.
// A `Line` is written by `put` and `put_hex`; the writers of numbers stay as public functions with promises and edits of their own, since
// the programs print numbers by Display. `Hex` is bytes as a Display.
ghost use Rattle.std.specs.Prelude.{◌≡◌, ◌++◌, ◌<◌, take, Some};
ghost use Rattle.std.specs.Fmt.{HasWritten, IsPlainFormatter};
ghost use Rattle.std.specs.Result.{IsOk};
ghost use Rattle.io.specs.Digits.{last_digits, hex_digit_ascii};
ghost use Rattle.le.specs.Le.{part};
ghost use Rattle.replay.specs.Text.{Puts, decimal_of, signed_text, hex_of, hex_text};

use std::fmt;

#[tactic(auto, using(crate::proofs::TextLaws::put_rules))]
pub fn put(line: &mut [u8], at: usize, s: &[u8]) -> usize
    ensures { Puts line.old at s.now line.new result }
{
    if at > line.len() {
        at
    } else {
        let n = s.len().min(line.len() - at);
        le::copy_at(line, at, &s[..n]);
        at + n
    }
}

// A number in decimal.
#[tactic(auto, using(crate::proofs::TextLaws::number_rules))]
pub fn put_number(line: &mut [u8], at: usize, n: u64) -> usize
    ensures { Puts line.old at (decimal_of n) line.new result }
{
    let mut text = [0u8; 20];
    let k = io::decimal(n, &mut text);
    put(line, at, &text[..k])
}

// A number behind its name.
pub fn put_field(line: &mut [u8], at: usize, name: &[u8], n: u64) -> usize
    ensures { Puts line.old at (name.now ++ decimal_of n) line.new result }
{
    let end = put(line, at, name);
    put_number(line, end, n)
}

// A number with its sign.
pub fn put_signed(line: &mut [u8], at: usize, z: i64) -> usize
    ensures { Puts line.old at (signed_text z) line.new result }
{
    if z < 0 {
        let end = put(line, at, b"-");
        put_number(line, end, z.unsigned_abs())
    } else {
        put_number(line, at, z.unsigned_abs())
    }
}

// By hand: the crate hex makes a String or fills a buffer of exactly its size, and a line here takes what fits.
fn glyph(d: u8) -> u8
    requires { d < 16 }
    ensures { result ≡ hex_digit_ascii d }
{
    if d < 10 { b'0' + d } else { b'a' + (d - 10) }
}

fn put_byte(line: &mut [u8], at: usize, b: u8) -> usize
    ensures { Puts line.old at (last_digits 16 2 b) line.new result }
{
    let pair = [glyph(b / 16), glyph(b % 16)];
    put(line, at, &pair)
}

fn put_bytes(line: &mut [u8], at: usize, s: &[u8]) -> usize
    ensures { Puts line.old at (hex_of s.now) line.new result }
{
    let mut end = at;
    for b in s {
        end = put_byte(line, end, *b);
    }
    end
}

// Bytes in hexadecimal, "-" for none.
#[tactic(auto, using(crate::proofs::TextLaws::hex_rules))]
pub fn put_hex(line: &mut [u8], at: usize, s: &[u8]) -> usize
    ensures { Puts line.old at (hex_text s.now) line.new result }
{
    if s.is_empty() {
        put(line, at, b"-")
    } else {
        put_bytes(line, at, s)
    }
}

// A byte's two digits. Not in the loop below, where a proof does not know that what stands behind `self` is below 256.
fn write_byte<W: fmt::Write>(f: &mut fmt::Formatter<W>, b: u8) -> fmt::Result
    ensures { IsPlainFormatter f.old → IsOk result → HasWritten W.write_str_gives f.old (last_digits 16 2 b) f.new }
{
    write!(f, "{b:02x}")
}

// Bytes in hexadecimal, "-" for none, as a Display. Each byte is a piece of its own to the writer, so it is for few bytes.
#[derive(Clone, Copy)]
pub struct Hex<'a>(pub &'a [u8]);

impl fmt::Display for Hex<'_> {
    ghost output = { λ h. Some (hex_text h.0.now) };

    fn fmt<W: fmt::Write>(&self, f: &mut fmt::Formatter<W>) -> fmt::Result {
        if self.0.is_empty() {
            return f.write_str("-");
        }
        for b in self.0 {
            write_byte(f, *b)?;
        }
        Ok(())
    }
}

// n bytes from `at` on, or as many as there are.
#[tactic(auto, using(crate::proofs::TextLaws::cut_rules))]
pub fn cut(s: &[u8], at: usize, n: usize) -> &[u8]
    ensures { result.now ≡ part s.now at n }
{
    let rest = &s[at.min(s.len())..];
    &rest[..n.min(rest.len())]
}

// What was put before `end`.
pub fn written(line: &[u8], end: usize) -> &[u8]
    ensures { result.now ≡ take end line.now }
{
    &line[..end.min(line.len())]
}
