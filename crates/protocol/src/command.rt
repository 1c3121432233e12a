// The eight commands. A command's word is its four letters read as a little-endian number; its magic is the word with
// every bit flipped.
ghost use Rattle.std.specs.Prelude.{◌≡◌};
ghost use Rattle.protocol.specs.Command.{word_of, magic_of, command_of, is_ready, is_close, is_write};

pub const CMD_SYNC: u32 = 0x434e_5953;

pub const CMD_CNXN: u32 = 0x4e58_4e43;

pub const CMD_OPEN: u32 = 0x4e45_504f;

pub const CMD_OKAY: u32 = 0x5941_4b4f;

pub const CMD_CLSE: u32 = 0x4553_4c43;

pub const CMD_WRTE: u32 = 0x4554_5257;

pub const CMD_AUTH: u32 = 0x4854_5541;

pub const CMD_STLS: u32 = 0x534c_5453;

#[derive(Clone, Copy, Debug, PartialEq, Eq)]
pub enum Command {
    // Obsolete, and never valid between two ends.
    Sync,
    // The handshake that both sides send.
    Connect,
    // Open a stream to the destination that the payload names.
    Open,
    // A stream is open, or ready for the next WRTE.
    Ready,
    // A stream is closed, or an OPEN failed.
    Close,
    // Data for an open stream.
    Write,
    // A step of authentication, its type in arg0.
    Auth,
    // Upgrade the transport to TLS.
    StartTls,
}

// A word of 32 bits that names no command.
#[derive(Clone, Copy, Debug, PartialEq, Eq)]
pub struct UnknownCommand(pub u32);

impl Command {
    pub fn word(self) -> u32
        ensures { result ≡ word_of self }
    {
        match self {
            Command::Sync => CMD_SYNC,
            Command::Connect => CMD_CNXN,
            Command::Open => CMD_OPEN,
            Command::Ready => CMD_OKAY,
            Command::Close => CMD_CLSE,
            Command::Write => CMD_WRTE,
            Command::Auth => CMD_AUTH,
            Command::StartTls => CMD_STLS,
        }
    }

    pub fn magic(self) -> u32
        ensures { result ≡ magic_of self }
    {
        self.word() ^ 0xffff_ffff
    }

    pub fn is_ready(self) -> bool
        ensures { result ≡ is_ready self }
    {
        self == Command::Ready
    }

    pub fn is_close(self) -> bool
        ensures { result ≡ is_close self }
    {
        self == Command::Close
    }

    pub fn is_write(self) -> bool
        ensures { result ≡ is_write self }
    {
        self == Command::Write
    }
}

impl TryFrom<u32> for Command {
    type Error = UnknownCommand;

    ghost try_from_gives = { λ word named. named ≡ command_of word };

    fn try_from(word: u32) -> Result<Command, UnknownCommand> {
        match word {
            CMD_SYNC => Ok(Command::Sync),
            CMD_CNXN => Ok(Command::Connect),
            CMD_OPEN => Ok(Command::Open),
            CMD_OKAY => Ok(Command::Ready),
            CMD_CLSE => Ok(Command::Close),
            CMD_WRTE => Ok(Command::Write),
            CMD_AUTH => Ok(Command::Auth),
            CMD_STLS => Ok(Command::StartTls),
            _ => Err(UnknownCommand(word)),
        }
    }
}
