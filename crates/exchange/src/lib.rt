// The ids of AOSP's sync messages (SYNC.TXT), by libadb's names (sync/format.rs), what stands behind each, and which of them
// an exchange has.
#![tactic(auto)]

ghost use Rattle.std.specs.Prelude.{◌≡◌};
ghost use Rattle.exchange.specs.Exchange.{letters_of, word_of, is_over, stat_length, head_of, longest_of, layout_number};
ghost use Rattle.exchange.specs.Exchange.{exchange_of, exchange_v2_of, rows_of, found_of};

// Longest data of one DATA message.
pub const SYNC_DATA_MAX: usize = 65_536;

#[derive(Clone, Copy, PartialEq, Eq)]
pub enum SyncId {
    List,
    Recv,
    Send,
    Stat,
    Data,
    Done,
    Quit,
    Dent,
    Okay,
    Fail,
    Lis2,
    Sta2,
    Dnt2,
}

impl SyncId {
    // The id's four letters.
    #[tactic(auto, unfolding(crate::specs::Exchange::letters_of))]
    pub fn letters(self) -> &'static [u8; 4]
        ensures { result.now ≡ letters_of self }
    {
        match self {
            SyncId::List => b"LIST",
            SyncId::Recv => b"RECV",
            SyncId::Send => b"SEND",
            SyncId::Stat => b"STAT",
            SyncId::Data => b"DATA",
            SyncId::Done => b"DONE",
            SyncId::Quit => b"QUIT",
            SyncId::Dent => b"DENT",
            SyncId::Okay => b"OKAY",
            SyncId::Fail => b"FAIL",
            SyncId::Lis2 => b"LIS2",
            SyncId::Sta2 => b"STA2",
            SyncId::Dnt2 => b"DNT2",
        }
    }

    // The letters, read as a little-endian number.
    #[tactic(auto, using(crate::proofs::ExchangeLaws::letters_word))]
    pub fn word(self) -> u32
        ensures { result ≡ word_of self }
    {
        u32::from_le_bytes(*self.letters())
    }

    // Whether data is over its maximum. Other texts have none.
    #[tactic(auto, unfolding(crate::specs::Exchange::is_over))]
    pub fn is_over(self, n: usize) -> bool
        ensures { result ≡ is_over self n }
    {
        self == SyncId::Data && n > SYNC_DATA_MAX
    }
}

// Which of the two stat layouts.
#[derive(Clone, Copy, PartialEq, Eq)]
pub enum StatLayout {
    // Mode, size and time.
    V1,
    // Error, device, inode, mode, links, owner, group, size and three times.
    V2,
}

impl StatLayout {
    // Bytes of a stat.
    pub fn length(self) -> usize
        ensures { result ≡ stat_length self }
    {
        match self {
            StatLayout::V1 => 12,
            StatLayout::V2 => 68,
        }
    }
}

// What stands behind an id.
#[derive(Clone, Copy, PartialEq, Eq)]
pub enum Layout {
    // A length, then a text or data of that length.
    Text,
    // One number.
    Number,
    // A stat.
    Stat(StatLayout),
    // A stat and a length, then a name of that length.
    Entry(StatLayout),
    // The numbers of an entry, with no name behind them.
    End(StatLayout),
}

impl Layout {
    // Bytes ahead of the text.
    #[tactic(auto, unfolding(crate::specs::Exchange::head_of))]
    pub fn head_length(self) -> usize
        ensures { result ≡ head_of self }
    {
        match self {
            Layout::Text | Layout::Number => 8,
            Layout::Stat(stat) => 4 + stat.length(),
            Layout::Entry(stat) | Layout::End(stat) => 8 + stat.length(),
        }
    }

    // The longest text: what a length of 32 bits can say, none where there is no length.
    #[tactic(auto, unfolding(crate::specs::Exchange::longest_of))]
    pub fn longest(self) -> usize
        ensures { result ≡ longest_of self }
    {
        match self {
            Layout::Text | Layout::Entry(_) => 0xffff_ffff,
            Layout::Number | Layout::Stat(_) | Layout::End(_) => 0,
        }
    }

    // Its number, for one who counts layouts: those of the first stat layout before those of the second.
    #[tactic(auto, unfolding(crate::specs::Exchange::layout_number))]
    pub fn number(self) -> u32
        ensures { result ≡ layout_number self }
    {
        match self {
            Layout::Text => 0,
            Layout::Number => 1,
            Layout::Stat(StatLayout::V1) => 2,
            Layout::Entry(StatLayout::V1) => 3,
            Layout::End(StatLayout::V1) => 4,
            Layout::Stat(StatLayout::V2) => 5,
            Layout::Entry(StatLayout::V2) => 6,
            Layout::End(StatLayout::V2) => 7,
        }
    }
}

// Whose messages are read or written.
#[derive(Clone, Copy, PartialEq, Eq)]
pub enum Exchange {
    // Ours.
    Requests,
    // The replies to LIST.
    ListReplies,
    // The reply to STAT.
    StatReplies,
    // The replies to RECV.
    RecvReplies,
    // The replies to SEND.
    SendReplies,
    // The replies to LIS2.
    ListV2Replies,
    // The reply to STA2.
    StatV2Replies,
    // A number that names no exchange: one with no messages. It stays a case of its own: reading and writing then take every
    // number, and an Option would bring the case of none back into each call.
    Unnamed,
}

// The messages of each exchange: an id, and what stands behind it.
const REQUESTS: [(SyncId, Layout); 9] = [
    (SyncId::List, Layout::Text),
    (SyncId::Recv, Layout::Text),
    (SyncId::Send, Layout::Text),
    (SyncId::Stat, Layout::Text),
    (SyncId::Data, Layout::Text),
    (SyncId::Done, Layout::Number),
    (SyncId::Quit, Layout::Number),
    (SyncId::Lis2, Layout::Text),
    (SyncId::Sta2, Layout::Text),
];

const LIST_REPLIES: [(SyncId, Layout); 2] = [
    (SyncId::Dent, Layout::Entry(StatLayout::V1)),
    (SyncId::Done, Layout::End(StatLayout::V1)),
];

const STAT_REPLIES: [(SyncId, Layout); 1] = [(SyncId::Stat, Layout::Stat(StatLayout::V1))];

const RECV_REPLIES: [(SyncId, Layout); 3] = [
    (SyncId::Data, Layout::Text),
    (SyncId::Done, Layout::Number),
    (SyncId::Fail, Layout::Text),
];

const SEND_REPLIES: [(SyncId, Layout); 2] = [
    (SyncId::Okay, Layout::Number),
    (SyncId::Fail, Layout::Text),
];

const LIST_V2_REPLIES: [(SyncId, Layout); 2] = [
    (SyncId::Dnt2, Layout::Entry(StatLayout::V2)),
    (SyncId::Done, Layout::End(StatLayout::V2)),
];

const STAT_V2_REPLIES: [(SyncId, Layout); 1] = [(SyncId::Sta2, Layout::Stat(StatLayout::V2))];

impl Exchange {
    // The exchange that a number names, from 0 in the order above, but for those of the second stat layout.
    #[tactic(auto, unfolding(crate::specs::Exchange::exchange_of))]
    pub fn from_number(number: u32) -> Exchange
        ensures { result ≡ exchange_of number }
    {
        match number {
            0 => Exchange::Requests,
            1 => Exchange::ListReplies,
            2 => Exchange::StatReplies,
            3 => Exchange::RecvReplies,
            4 => Exchange::SendReplies,
            _ => Exchange::Unnamed,
        }
    }

    // Of the exchanges of the second stat layout, the one that a number names. A function beside the other, for each call of C takes the
    // numbers of its own layout alone.
    #[tactic(auto, unfolding(crate::specs::Exchange::exchange_v2_of))]
    pub fn from_v2_number(number: u32) -> Exchange
        ensures { result ≡ exchange_v2_of number }
    {
        match number {
            5 => Exchange::ListV2Replies,
            6 => Exchange::StatV2Replies,
            _ => Exchange::Unnamed,
        }
    }

    // The messages of an exchange.
    #[tactic(auto, unfolding(crate::specs::Exchange::rows_of))]
    fn rows(self) -> &'static [(SyncId, Layout)]
        ensures { result.now ≡ rows_of self }
    {
        match self {
            Exchange::Requests => &REQUESTS,
            Exchange::ListReplies => &LIST_REPLIES,
            Exchange::StatReplies => &STAT_REPLIES,
            Exchange::RecvReplies => &RECV_REPLIES,
            Exchange::SendReplies => &SEND_REPLIES,
            Exchange::ListV2Replies => &LIST_V2_REPLIES,
            Exchange::StatV2Replies => &STAT_V2_REPLIES,
            Exchange::Unnamed => &[],
        }
    }

    // The message that a word begins, if the exchange has one.
    #[tactic(auto, unfolding(crate::specs::Exchange::found_of))]
    pub fn find(self, word: u32) -> Option<(SyncId, Layout)>
        ensures { result ≡ found_of self word }
    {
        self.rows().iter().copied().find(|row| row.0.word() == word)
    }
}
