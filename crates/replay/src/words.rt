// The words of a line, and the numbers and bytes that they spell. A word ends at a space or with the line.
ghost use Rattle.std.specs.Prelude.{◌≡◌, ◌+◌, ◌*◌, ◌≤◌, ◌<◌, min, pos, neg_ℤ, length, drop};
ghost use Rattle.io.specs.Counts.{IsPrefixLen};
ghost use Rattle.saturate.specs.Saturate.{clamp};
ghost use Rattle.replay.specs.Words.{word_of, is_digit, grown, spelled, is_negative, signed_of, nibble_of, unhexed};
ghost use Rattle.replay.specs.Text.{Puts};

fn word(line: &[u8], k: usize) -> &[u8]
    ensures { result.now ≡ word_of line.now k }
{
    line.split(|b| *b == b' ').nth(k).unwrap_or(&[])
}

#[tactic(auto, unfolding(crate::specs::Words::is_digit))]
fn is_digit(b: u8) -> bool
    ensures { result ≡ is_digit b }
{
    b.is_ascii_digit()
}

// A number with one digit more.
#[tactic(auto, using(crate::proofs::WordsLaws::digit_low), unfolding(crate::specs::Words::grown))]
fn grow(n: u64, b: u8) -> u64
    ensures { result ≡ min (grown n b) 0xffff_ffff_ffff_ffff }
{
    if is_digit(b) {
        let d = u64::from(b - b'0');
        n.saturating_mul(10).saturating_add(d)
    } else {
        n
    }
}

// The number that decimal digits spell, held within 64 bits; other bytes are passed over.
fn magnitude(s: &[u8]) -> u64
    ensures { result ≡ min (spelled 0 s.now) 0xffff_ffff_ffff_ffff }
{
    let mut n = 0;
    for b in s {
        n = grow(n, *b);
    }
    n
}

// n, held within 64 bits and a sign.
fn above(n: u64) -> i64
    ensures { result ≡ clamp (pos n) }
{
    0_i64.saturating_add_unsigned(n)
}

// -n, held within 64 bits and a sign.
fn below(n: u64) -> i64
    ensures { result ≡ clamp (neg_ℤ (pos n)) }
{
    0_i64.saturating_sub_unsigned(n)
}

#[tactic(auto, unfolding(crate::specs::Words::is_negative))]
fn is_negative(s: &[u8]) -> bool
    ensures { result ≡ is_negative s.now }
{
    s.starts_with(b"-")
}

// The number that decimal digits behind a sign spell.
fn signed(s: &[u8]) -> i64
    ensures { result ≡ signed_of s.now }
{
    let n = magnitude(s);
    if is_negative(s) { below(n) } else { above(n) }
}

// By hand: `to_digit` takes capitals too, and has no value for the other bytes, where the clause has one for each.
#[tactic(auto, unfolding(crate::specs::Words::nibble_of))]
fn nibble(b: u8) -> u8
    ensures { (result ≡ nibble_of b) × (result < 16) }
{
    if b < b'a' { b % 16 } else { (b - 87) % 16 }
}

fn byte(high: u8, low: u8) -> u8
    ensures { result ≡ nibble_of high * 16 + nibble_of low }
{
    nibble(high) * 16 + nibble(low)
}

// The bytes that hexadecimal digits spell, at the start of out, and how many they are; "-" spells none. By index: `chunks_exact(2)`
// beside `iter_mut` would still index each pair, in a zip of two iterators.
fn unhex(s: &[u8], out: &mut [u8]) -> usize
    ensures puts { Puts out.old 0 (unhexed s.now) out.new result }
    ensures prefix_len { IsPrefixLen result out.new }
{
    let n = out.len().min(s.len() / 2);
    for i in 0..n {
        out[i] = byte(s[2 * i], s[2 * i + 1]);
    }
    n
}

// The number that word k spells, or the largest of its type.
pub fn number_at(line: &[u8], k: usize) -> u32
    ensures { result ≡ min (spelled 0 (word_of line.now k)) 0xffff_ffff }
{
    u32::try_from(magnitude(word(line, k))).unwrap_or(u32::MAX)
}

pub fn size_at(line: &[u8], k: usize) -> usize
    ensures { result ≡ min (spelled 0 (word_of line.now k)) 0xffff_ffff_ffff_ffff }
{
    usize::try_from(magnitude(word(line, k))).unwrap_or(usize::MAX)
}

pub fn signed_at(line: &[u8], k: usize) -> i64
    ensures { result ≡ signed_of (word_of line.now k) }
{
    signed(word(line, k))
}

// The bytes that word k spells, at the start of out, and how many they are. A length, and not those bytes of `out` handed back (tried): a
// buffer that went into the result has no value after the call, and the promise on every byte of it could not be said.
pub fn bytes_at(line: &[u8], k: usize, out: &mut [u8]) -> usize
    ensures puts { Puts out.old 0 (unhexed (word_of line.now k)) out.new result }
    ensures prefix_len { IsPrefixLen result out.new }
{
    unhex(word(line, k), out)
}
