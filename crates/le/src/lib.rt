// Little-endian numbers at an offset of a slice, unsigned and in two's complement, and a copy to an offset.
//
// Readers say `num_of` of the part they read; writers say `put` of the bytes they write. The laws of both, over any
// width, are in proofs/Laws.antt.
#![tactic(auto)]

ghost use Rattle.std.specs.Prelude.{◌≡◌, refl, ℕ, List, ◌+◌, ◌*◌, ◌≤◌, length};
ghost use Rattle.le.specs.Le.{num_of, bytes_of, signed, unsigned, part, put};
ghost use Rattle.le.specs.Rows.{flat};
ghost use Rattle.le.specs.Word.{WordLaws};
ghost use Rattle.le.specs.WordLaws.{unsigned_laws, signed_laws};

// A number that stands in a slice as a fixed count of bytes, the low one first.
pub trait Word: Copy {
    // How many bytes.
    const LEN: usize;

    ghost LEN: { ℕ };

    // The number that they stand for.
    ghost read: { List ℕ → Self };

    // The bytes that stand for a number.
    ghost bytes: { Self → List ℕ };

    fn read_at(s: &[u8], at: usize) -> Self
        requires { at + LEN ≤ length s.now }
        ensures { result ≡ read (part s.now at LEN) };

    fn put_at(self, s: &mut [u8], at: usize)
        requires { at + LEN ≤ length s.old }
        ensures { s.new ≡ put s.old at (bytes self) };

    ghost laws: { WordLaws LEN read bytes };
}

impl Word for u8 {
    const LEN: usize = 1;

    ghost LEN = { 1 };

    ghost read = { num_of };

    ghost bytes = { bytes_of 1 };

    ghost laws = { unsigned_laws 1 };

    fn read_at(s: &[u8], at: usize) -> u8 {
        s[at]
    }

    fn put_at(self, s: &mut [u8], at: usize) {
        s[at] = self;
    }
}

impl Word for u32 {
    const LEN: usize = 4;

    ghost LEN = { 4 };

    ghost read = { num_of };

    ghost bytes = { bytes_of 4 };

    ghost laws = { unsigned_laws 4 };

    fn read_at(s: &[u8], at: usize) -> u32 {
        u32::from_le_bytes([s[at], s[at + 1], s[at + 2], s[at + 3]])
    }

    fn put_at(self, s: &mut [u8], at: usize) {
        let end = at + 4;
        s[at..end].copy_from_slice(&self.to_le_bytes());
    }
}

// Read in two halves, so that what is proved of four bytes serves for eight: `from_le_bytes` here would be eight places in an array, and
// would need a law of its own.
impl Word for u64 {
    const LEN: usize = 8;

    ghost LEN = { 8 };

    ghost read = { num_of };

    ghost bytes = { bytes_of 8 };

    ghost laws = { unsigned_laws 8 };

    fn read_at(s: &[u8], at: usize) -> u64 {
        u64::from(u32::read_at(s, at)) + u64::from(u32::read_at(s, at + 4)) * 0x1_0000_0000
    }

    fn put_at(self, s: &mut [u8], at: usize) {
        let end = at + 8;
        s[at..end].copy_from_slice(&u64::to_le_bytes(self));
    }
}

// By `as`, which changes no bit: usize has 64 bits here, and std has no From between the two.
impl Word for usize {
    const LEN: usize = 8;

    ghost LEN = { 8 };

    ghost read = { num_of };

    ghost bytes = { bytes_of 8 };

    ghost laws = { unsigned_laws 8 };

    fn read_at(s: &[u8], at: usize) -> usize {
        u64::read_at(s, at) as usize
    }

    fn put_at(self, s: &mut [u8], at: usize) {
        (self as u64).put_at(s, at);
    }
}

impl Word for i32 {
    const LEN: usize = 4;

    ghost LEN = { 4 };

    ghost read = { λ l. signed 31 (num_of l) };

    ghost bytes = { λ z. bytes_of 4 (unsigned 31 z) };

    ghost laws = { signed_laws 31 4 refl };

    fn read_at(s: &[u8], at: usize) -> i32 {
        u32::read_at(s, at).cast_signed()
    }

    fn put_at(self, s: &mut [u8], at: usize) {
        self.cast_unsigned().put_at(s, at);
    }
}

impl Word for i64 {
    const LEN: usize = 8;

    ghost LEN = { 8 };

    ghost read = { λ l. signed 63 (num_of l) };

    ghost bytes = { λ z. bytes_of 8 (unsigned 63 z) };

    ghost laws = { signed_laws 63 8 refl };

    fn read_at(s: &[u8], at: usize) -> i64 {
        u64::read_at(s, at).cast_signed()
    }

    fn put_at(self, s: &mut [u8], at: usize) {
        self.cast_unsigned().put_at(s, at);
    }
}

pub fn get<T: Word>(s: &[u8], at: usize) -> T
    requires { at + T.LEN ≤ length s.now }
    ensures { result ≡ T.read (part s.now at T.LEN) }
{
    T::read_at(s, at)
}

pub fn put<T: Word>(s: &mut [u8], at: usize, x: T)
    requires { at + T.LEN ≤ length s.old }
    ensures { s.new ≡ put s.old at (T.bytes x) }
{
    x.put_at(s, at);
}

// Several, one behind the other. The offset is counted beside the `for`: `chunks_exact_mut` would ask that no width is 0, and hand each
// number a slice of its own.
pub fn put_all<T: Word>(s: &mut [u8], at: usize, xs: &[T])
    requires { at + length xs.now * T.LEN ≤ length s.old }
    ensures { s.new ≡ put s.old at (flat T.bytes xs.now) }
{
    let mut end = at;
    for x in xs {
        x.put_at(s, end);
        end += T::LEN;
    }
}

// All of src, at an offset of dst.
pub fn copy_at(dst: &mut [u8], at: usize, src: &[u8])
    requires { at + length src.now ≤ length dst.old }
    ensures { dst.new ≡ put dst.old at src.now }
{
    let end = at + src.len();
    dst[at..end].copy_from_slice(src);
}
