// The first byte of a kind, as a space or a line's end. No program calls `find` since they split their lines: it stays
// as a public function with promises and edits of its own.
ghost use Rattle.std.specs.Prelude.{◌≡◌, ◌+◌, ◌-◌, ◌≤◌, length};
ghost use Rattle.le.specs.Le.{part};
ghost use Rattle.replay.specs.Words.{index_of};

// Where `byte` stands first from `at` to `end`, or `end`.
pub fn find(s: &[u8], at: usize, end: usize, byte: u8) -> usize
    requires { (at ≤ end) × (end ≤ length s.now) }
    ensures { (result ≡ at + index_of byte (part s.now at (end - at))) × (result ≤ end) }
{
    at + s[at..end]
        .iter()
        .position(|b| *b == byte)
        .unwrap_or(end - at)
}
