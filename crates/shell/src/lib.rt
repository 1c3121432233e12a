// The frames of AOSP's shell protocol over a channel's bytes, and their reader: a kind, the data's length in 32 bits, data. Data
// stays where it was received.
// `as usize` widens a u32: std has no From for it, as usize may be narrower elsewhere.
#![tactic(auto)]

ghost use Rattle.std.specs.Prelude.{◌≡◌, ◌≤◌, length};
ghost use Rattle.le.specs.Le.{part};
ghost use Rattle.shell.specs.declared.ReadError.TheVariants.{InvalidKind};
ghost use Rattle.stream.specs.Here.{ReadHere};
ghost use Rattle.refusal.specs.declared.WriteError.TheVariants.{Refused};
ghost use Rattle.shell.specs.Kind.{kind_number, kind_from, is_unknown, is_empty_exit, exit_code};
ghost use Rattle.shell.specs.Frame.{headed_of, read_frame, DataHere, refusal_number};

use refusal::{Numbered, WriteError};

// A kind's number, as C names it.
pub const INPUT: u32 = 0;

pub const OUTPUT: u32 = 1;

pub const ERRORS: u32 = 2;

pub const EXIT: u32 = 3;

pub const CLOSE_INPUT: u32 = 4;

pub const WINDOW_SIZE: u32 = 5;

// Bytes ahead of the data.
pub const HEAD_LEN: usize = 5;

// What a frame is for.
#[derive(Clone, Copy, Debug, PartialEq, Eq)]
pub enum Kind {
    // To the program's standard input.
    Input,
    // Of its standard output.
    Output,
    // Of its standard error.
    Errors,
    // The program has ended; the first data byte is its exit code.
    Exit,
    // Its standard input is to be closed.
    CloseInput,
    // The size of the window that it runs in.
    WindowSize,
}

// A number that names no kind.
#[derive(Clone, Copy, Debug, PartialEq, Eq)]
pub struct UnknownKind(pub u32);

impl TryFrom<u32> for Kind {
    type Error = UnknownKind;

    ghost try_from_gives = { λ number answer. answer ≡ kind_from number };

    #[tactic(auto, unfolding(crate::specs::Kind::kind_from))]
    fn try_from(number: u32) -> Result<Self, UnknownKind> {
        match number {
            0 => Ok(Kind::Input),
            1 => Ok(Kind::Output),
            2 => Ok(Kind::Errors),
            3 => Ok(Kind::Exit),
            4 => Ok(Kind::CloseInput),
            5 => Ok(Kind::WindowSize),
            _ => Err(UnknownKind(number)),
        }
    }
}

// A byte, as a frame has it. A number of 32 or 64 bits is this byte widened: with an impl for each there would be three matches for one.
impl From<Kind> for u8 {
    ghost from_gives = { λ kind byte. byte ≡ kind_number kind };

    fn from(kind: Kind) -> u8 {
        match kind {
            Kind::Input => 0,
            Kind::Output => 1,
            Kind::Errors => 2,
            Kind::Exit => 3,
            Kind::CloseInput => 4,
            Kind::WindowSize => 5,
        }
    }
}

// Whether a number is none of those above.
#[tactic(auto, unfolding(crate::specs::Kind::is_unknown))]
pub fn is_unknown(kind: u32) -> bool
    ensures { result ≡ is_unknown kind }
{
    kind > WINDOW_SIZE
}

// Whether a frame of this kind, which may be any number, is an exit with no byte for its code.
#[tactic(auto, unfolding(crate::specs::Kind::is_empty_exit))]
pub fn is_empty_exit(kind: u32, length: usize) -> bool
    ensures { result ≡ is_empty_exit kind length }
{
    kind == EXIT && length == 0
}

impl Kind {
    // Whether a frame with so much data is an exit with no byte for its code.
    #[tactic(auto, unfolding(crate::specs::Kind::is_empty_exit))]
    pub fn is_empty_exit(self, length: usize) -> bool
        ensures { result ≡ is_empty_exit (kind_number self) length }
    {
        self == Kind::Exit && length == 0
    }

    // The code of an exit frame with this data.
    #[tactic(auto, unfolding(crate::specs::Kind::exit_code))]
    fn code(self, payload: &[u8]) -> Option<u8>
        ensures { result ≡ exit_code self payload.now }
    {
        if self == Kind::Exit {
            payload.first().copied()
        } else {
            None
        }
    }
}

// A frame that received bytes begin with. Its data is the `length` bytes from `at` on; with them it uses `used` bytes. An exit has a
// code.
#[derive(Clone, Copy, Debug, PartialEq, Eq)]
pub struct Frame {
    pub kind: Kind,
    pub at: usize,
    pub length: usize,
    pub used: usize,
    pub code: Option<u8>,
}

impl Frame {
    // Its data, of the bytes that it was read from.
    #[tactic(auto, using(stream::proofs::Here::lent), unfolding(le::specs::Le::part))]
    pub fn payload(self, received: &[u8]) -> &[u8]
        requires { DataHere (length received.now) self }
        ensures { result.now ≡ part received.now self.at self.length }
    {
        &received[self.at..self.used]
    }
}

// Why received bytes are no frame.
#[derive(Clone, Copy, Debug, PartialEq, Eq)]
pub enum ReadError {
    // 18: a kind above 5.
    InvalidKind,
    // 19: an exit frame of length 0.
    EmptyExit,
}

impl From<UnknownKind> for ReadError {
    ghost from_gives = { λ _ e. e ≡ InvalidKind };

    fn from(_kind: UnknownKind) -> ReadError {
        ReadError::InvalidKind
    }
}

// The same for the writer, so that `?` serves both.
impl From<UnknownKind> for WriteError<ReadError> {
    ghost from_gives = { λ _ e. e ≡ Refused InvalidKind };

    fn from(_kind: UnknownKind) -> WriteError<ReadError> {
        WriteError::Refused(ReadError::InvalidKind)
    }
}

impl Numbered for ReadError {
    ghost number = { refusal_number };

    fn number(self) -> u32 {
        match self {
            ReadError::InvalidKind => 18,
            ReadError::EmptyExit => 19,
        }
    }
}

// The answer once the header is here.
#[tactic(auto, unfolding(crate::specs::Frame::headed_of, crate::specs::Frame::length_of, crate::specs::Frame::payload_of))]
fn read_headed(kind: Kind, received: &[u8]) -> Result<Option<Frame>, ReadError>
    requires { 5 ≤ length received.now }
    ensures { result ≡ headed_of kind received.now }
{
    let length = le::get::<u32>(received, 1) as usize;
    if kind.is_empty_exit(length) {
        return Err(ReadError::EmptyExit);
    }
    if received.len() - HEAD_LEN < length {
        return Ok(None);
    }
    let used = HEAD_LEN + length;
    let code = kind.code(&received[HEAD_LEN..used]);
    Ok(Some(Frame {
        kind,
        at: HEAD_LEN,
        length,
        used,
        code,
    }))
}

// The frame that received bytes begin with, none while more bytes are waited for, or why there is none.
#[tactic(auto, using(crate::proofs::ReadLaws::is_here), unfolding(crate::specs::Frame::read_frame, crate::specs::Frame::kind_of, crate::specs::Frame::kinded))]
pub fn read_frame(received: &[u8]) -> Result<Option<Frame>, ReadError>
    ensures answer { result ≡ read_frame received.now }
    ensures here { ReadHere DataHere (length received.now) result }
{
    let Some(&first) = received.first() else {
        return Ok(None);
    };
    let kind = Kind::try_from(u32::from(first))?;
    if received.len() < HEAD_LEN {
        return Ok(None);
    }
    read_headed(kind, received)
}
