// The messages of AOSP's SYNC.TXT over a channel's bytes, by libadb's names (sync/format.rs), and their reader. A text or data
// stays where it was received.
// `as usize` widens a u32: std has no From for it, as usize may be narrower elsewhere.
#![tactic(auto)]

ghost use Rattle.std.specs.Prelude.{◌≡◌, ◌+◌, ◌≤◌, length};
ghost use Rattle.le.specs.Le.{part};
ghost use Rattle.stream.specs.Here.{ReadHere};
ghost use Rattle.exchange.specs.Exchange.{stat_length, head_of};
ghost use Rattle.sync.specs.Message.{stat_layout, layout_of, stat_of, stat_v2_of, either_of, fields_of, length_of, known_of};
ghost use Rattle.sync.specs.Message.{read_message, TextHere, error_number};

use exchange::{Exchange, Layout, StatLayout, SyncId};
use refusal::Numbered;

// A file's type and its permissions, as one number.
#[derive(Clone, Copy, Default)]
pub struct FileMode(pub u32);

// What a STAT reply and a DENT say of a file.
#[derive(Clone, Copy, Default)]
pub struct StatV1 {
    pub mode: FileMode,
    pub size: u32,
    pub mtime: u32,
}

// What a STA2 reply and a DNT2 say of a file. Times are in seconds since 1970; `mtime` is of the contents, `ctime` of the status.
#[derive(Clone, Copy, Default)]
pub struct StatV2 {
    pub error: u32,
    pub dev: u64,
    pub ino: u64,
    pub mode: FileMode,
    pub nlink: u32,
    pub uid: u32,
    pub gid: u32,
    pub size: u64,
    pub atime: i64,
    pub mtime: i64,
    pub ctime: i64,
}

// A stat, of either layout.
#[derive(Clone, Copy)]
pub enum Stat {
    V1(StatV1),
    V2(StatV2),
}

impl Stat {
    // Its layout.
    pub fn layout(self) -> StatLayout
        ensures { result ≡ stat_layout self }
    {
        match self {
            Stat::V1(_) => StatLayout::V1,
            Stat::V2(_) => StatLayout::V2,
        }
    }
}

// The numbers of a message, but for the length of its text: one case for each layout.
#[derive(Clone, Copy)]
pub enum Fields {
    Text,
    Number(u32),
    Stat(Stat),
    Entry(Stat),
    // The last number is where an entry has the length of its name.
    End(Stat, u32),
}

// The layout that has them.
impl From<Fields> for Layout {
    ghost from_gives = { λ fields layout. layout ≡ layout_of fields };

    fn from(fields: Fields) -> Layout {
        match fields {
            Fields::Text => Layout::Text,
            Fields::Number(_) => Layout::Number,
            Fields::Stat(stat) => Layout::Stat(stat.layout()),
            Fields::Entry(stat) => Layout::Entry(stat.layout()),
            Fields::End(stat, _) => Layout::End(stat.layout()),
        }
    }
}

#[derive(Clone, Copy)]
pub struct Message {
    pub id: SyncId,
    pub fields: Fields,
}

// A message, whole. Its text is the `length` bytes from `at` on; with them it uses `used` bytes.
#[derive(Clone, Copy)]
pub struct Whole {
    pub message: Message,
    pub at: usize,
    pub length: usize,
    pub used: usize,
}

impl Whole {
    // Its text, of the bytes that it was read from.
    #[tactic(auto, using(stream::proofs::Here::lent), unfolding(le::specs::Le::part))]
    pub fn text(self, received: &[u8]) -> &[u8]
        requires { TextHere (length received.now) self }
        ensures { result.now ≡ part received.now self.at self.length }
    {
        &received[self.at..self.used]
    }
}

// Why received bytes are refused.
#[derive(Clone, Copy, PartialEq, Eq, Debug)]
pub enum ReadError {
    // Refusal 14: the id is not the exchange's.
    InvalidId,
    // Refusal 15: a DATA length over 65,536.
    DataTooLarge,
}

impl Numbered for ReadError {
    ghost number = { error_number };

    #[tactic(auto, unfolding(crate::specs::Message::error_number))]
    fn number(self) -> u32 {
        match self {
            ReadError::InvalidId => 14,
            ReadError::DataTooLarge => 15,
        }
    }
}

// Mode, size and time behind the id.
#[tactic(auto, unfolding(crate::specs::Message::stat_of))]
fn stat_at(s: &[u8]) -> StatV1
    requires { 16 ≤ length s.now }
    ensures { result ≡ stat_of s.now }
{
    StatV1 {
        mode: FileMode(le::get(s, 4)),
        size: le::get(s, 8),
        mtime: le::get(s, 12),
    }
}

// The second stat layout behind the id.
#[tactic(auto, unfolding(crate::specs::Message::stat_v2_of))]
fn stat_v2_at(s: &[u8]) -> StatV2
    requires { 72 ≤ length s.now }
    ensures { result ≡ stat_v2_of s.now }
{
    StatV2 {
        error: le::get(s, 4),
        dev: le::get(s, 8),
        ino: le::get(s, 16),
        mode: FileMode(le::get(s, 24)),
        nlink: le::get(s, 28),
        uid: le::get(s, 32),
        gid: le::get(s, 36),
        size: le::get(s, 40),
        atime: le::get(s, 48),
        mtime: le::get(s, 56),
        ctime: le::get(s, 64),
    }
}

// A stat of either layout behind the id.
#[tactic(auto, unfolding(crate::specs::Message::either_of))]
fn stat_in(layout: StatLayout, s: &[u8]) -> Stat
    requires { 4 + stat_length layout ≤ length s.now }
    ensures { result ≡ either_of layout s.now }
{
    match layout {
        StatLayout::V1 => Stat::V1(stat_at(s)),
        StatLayout::V2 => Stat::V2(stat_v2_at(s)),
    }
}

#[tactic(auto, unfolding(crate::specs::Message::fields_of, exchange::specs::Exchange::head_of))]
fn fields_at(layout: Layout, s: &[u8]) -> Fields
    requires { head_of layout ≤ length s.now }
    ensures { result ≡ fields_of layout s.now }
{
    match layout {
        Layout::Text => Fields::Text,
        Layout::Number => Fields::Number(le::get(s, 4)),
        Layout::Stat(stat) => Fields::Stat(stat_in(stat, s)),
        Layout::Entry(stat) => Fields::Entry(stat_in(stat, s)),
        Layout::End(stat) => Fields::End(stat_in(stat, s), le::get(s, 4 + stat.length())),
    }
}

// The text's length, 0 where the layout has none.
#[tactic(auto, unfolding(crate::specs::Message::length_of, exchange::specs::Exchange::head_of))]
fn text_length(layout: Layout, s: &[u8]) -> usize
    requires { head_of layout ≤ length s.now }
    ensures { result ≡ length_of layout s.now }
{
    match layout {
        Layout::Text => le::get::<u32>(s, 4) as usize,
        Layout::Entry(stat) => le::get::<u32>(s, 4 + stat.length()) as usize,
        Layout::Number | Layout::Stat(_) | Layout::End(_) => 0,
    }
}

// The answer once the id is known.
#[tactic(auto, unfolding(crate::specs::Message::known_of))]
fn read_known(received: &[u8], id: SyncId, layout: Layout) -> Result<Option<Whole>, ReadError>
    ensures { result ≡ known_of received.now id layout }
{
    let at = layout.head_length();
    if received.len() < at {
        return Ok(None);
    }
    let length = text_length(layout, received);
    if id.is_over(length) {
        return Err(ReadError::DataTooLarge);
    }
    if received.len() - at < length {
        return Ok(None);
    }
    let fields = fields_at(layout, received);
    Ok(Some(Whole {
        message: Message { id, fields },
        at,
        length,
        used: at + length,
    }))
}

impl Message {
    // The message of an exchange that received bytes begin with, none where more are to come, or why they are refused.
    #[tactic(auto, using(crate::proofs::ReadLaws::is_here), unfolding(crate::specs::Message::read_message, crate::specs::Message::named_of))]
    pub fn read(exchange: Exchange, received: &[u8]) -> Result<Option<Whole>, ReadError>
        ensures answer { result ≡ read_message exchange received.now }
        ensures here { ReadHere TextHere (length received.now) result }
    {
        if received.len() < 4 {
            return Ok(None);
        }
        match exchange.find(le::get(received, 0)) {
            Some((id, layout)) => read_known(received, id, layout),
            None => Err(ReadError::InvalidId),
        }
    }
}
