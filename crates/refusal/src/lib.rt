// The numbers of answers (docs/SCOPE.md, 6): a refusal's own, 0 where there is none, 100 for waiting.
#![tactic(auto)]

ghost use Rattle.std.specs.Prelude.{◌≡◌, ℕ};
ghost use Rattle.refusal.specs.Refusal.{number_of, found_number_of, there_number_of, read_number_of};
ghost use Rattle.refusal.specs.Written.{write_refusal};

// Why a call refuses.
pub trait Numbered: Copy {
    ghost number: { Self → ℕ };

    fn number(self) -> u32
        ensures { result ≡ number self };
}

// Why bytes are not written: for what their reader would refuse them, or for want of room.
#[derive(Clone, Copy, Debug, PartialEq, Eq)]
pub enum WriteError<E> {
    // The reader's own number.
    Refused(E),
    // 9: the buffer is too short, or the data too long for its length's field.
    OutShort,
}

impl<E: Numbered> Numbered for WriteError<E> {
    ghost number = { write_refusal E.number };

    fn number(self) -> u32 {
        match self {
            WriteError::Refused(refusal) => refusal.number(),
            WriteError::OutShort => 9,
        }
    }
}

// The number of an answer.
pub fn number_of<T: Copy, E: Numbered>(answer: Result<T, E>) -> u32
    ensures { result ≡ number_of E.number answer }
{
    match answer {
        Ok(_) => 0,
        Err(refusal) => refusal.number(),
    }
}

// The number of an answer in which there may be nothing, which has a number of its own.
pub fn found_number_of<T: Copy, E: Numbered>(answer: Result<Option<T>, E>, nothing: u32) -> u32
    ensures { result ≡ found_number_of E.number nothing answer }
{
    match answer {
        Ok(found) => there_number_of(found, nothing),
        Err(refusal) => refusal.number(),
    }
}

// The same where nothing refuses.
pub fn there_number_of<T: Copy>(found: Option<T>, nothing: u32) -> u32
    ensures { result ≡ there_number_of nothing found }
{
    match found {
        Some(_) => 0,
        None => nothing,
    }
}

// The number of an answer that waits for more bytes.
pub const WAITING: u32 = 100;

// The number of an answer that finds nothing.
pub const NOTHING: u32 = 101;

// The number of an answer that may have to wait for more bytes.
pub fn read_number_of<T: Copy, E: Numbered>(answer: Result<Option<T>, E>) -> u32
    ensures { result ≡ read_number_of E.number answer }
{
    found_number_of(answer, WAITING)
}
