// What is said to C of a message, and the message that C's numbers make, over the numbers that C sees; and those of the second
// stat layout.
// `as u64` widens a usize: std has no From for it.
#![tactic(auto)]

ghost use Rattle.std.specs.Prelude.{◌≡◌, ℕ, List};
ghost use Rattle.exchange.specs.Exchange.{found_of};
ghost use Rattle.exchange.specs.declared.Layout.{Layout};
ghost use Rattle.sync.specs.declared.Fields.{Fields};
ghost use Rattle.sync_write.specs.Write.{Writes};
ghost use Rattle.sync_v2.specs.Said.{alone, said_of, numbers_of, write_found};
ghost use Rattle.sync_v2.specs.AnswerV2.{values_v2_of, values_v2_in, fields_v2_from, stat_said};

use exchange::{Exchange, Layout, StatLayout};
use sync::{Fields, Message, ReadError, Stat, StatV2, Whole};
use sync_write::{WriteError, write};

// What C sees of a message, beside its place: with that N numbers, of 64 bits each.
pub trait Numbers<const N: usize>: Copy {
    // Those of a message's fields, 0 for what the fields have not.
    ghost of_fields: { Fields → Self };

    // The fields of a layout that they make.
    ghost to_fields: { Layout → Self → Fields };

    ghost in_order: { Self → List ℕ };

    fn of_fields(fields: Fields) -> Self
        ensures { result ≡ of_fields fields };

    fn to_fields(self, layout: Layout) -> Fields
        ensures { result ≡ to_fields layout self };

    // All that is said, in the order of an answer.
    fn numbers_of(said: Said<Self>) -> [u64; N]
        ensures { result ≡ numbers_of in_order said };
}

// What is said of received bytes: the bytes used, where the message's text is, its id's word, and its numbers.
#[derive(Clone, Copy)]
pub struct Said<V> {
    pub used: usize,
    pub at: usize,
    pub length: usize,
    pub word: u32,
    pub values: V,
}

// Numbers alone, as they are said.
pub fn alone<V: Copy>(values: V) -> Said<V>
    ensures { result ≡ alone values }
{
    Said {
        used: 0,
        at: 0,
        length: 0,
        word: 0,
        values,
    }
}

// Where there is no message, a text's numbers are said: none but 0.
#[tactic(auto, unfolding(crate::specs::Said::said_of))]
pub fn said_of<V: Numbers<N>, const N: usize>(read: Result<Option<Whole>, ReadError>) -> Said<V>
    ensures { result ≡ said_of V.of_fields read }
{
    match read {
        Ok(Some(whole)) => Said {
            used: whole.used,
            at: whole.at,
            length: whole.length,
            word: whole.message.id.word(),
            values: V::of_fields(whole.message.fields),
        },
        Ok(None) | Err(_) => alone(V::of_fields(Fields::Text)),
    }
}

// A message under a word, written at the start of out.
#[tactic(auto, unfolding(crate::specs::Said::write_found))]
pub fn write_found<V: Numbers<N>, const N: usize>(
    exchange: Exchange,
    word: u32,
    values: V,
    text: &[u8],
    out: &mut [u8],
) -> Result<usize, WriteError>
    ensures { Writes (write_found V.to_fields exchange values text.now out.old (found_of exchange word)) result out.new }
{
    match exchange.find(word) {
        Some((id, layout)) => {
            let fields = values.to_fields(layout);
            write(Message { id, fields }, exchange, text, out)
        }
        None => Err(WriteError::Refused(ReadError::InvalidId)),
    }
}

// A stat of the second layout, and the number in the place of a name's length.
#[derive(Clone, Copy, Default)]
pub struct ValuesV2 {
    pub stat: StatV2,
    pub last: u32,
}

impl Numbers<16> for ValuesV2 {
    ghost of_fields = { values_v2_of };

    ghost to_fields = { fields_v2_from };

    ghost in_order = { values_v2_in };

    #[tactic(auto, unfolding(crate::specs::AnswerV2::last_in, sync_write::specs::Write::stat_v2_in))]
    fn of_fields(fields: Fields) -> ValuesV2 {
        match fields {
            Fields::Stat(Stat::V2(stat)) => ValuesV2 { stat, last: 0 },
            Fields::Entry(Stat::V2(stat)) => ValuesV2 { stat, last: 0 },
            Fields::End(Stat::V2(stat), last) => ValuesV2 { stat, last },
            _ => ValuesV2::default(),
        }
    }

    // A stat of the second layout makes no fields of the others'.
    #[tactic(auto, unfolding(crate::specs::AnswerV2::fields_v2_from))]
    fn to_fields(self, layout: Layout) -> Fields {
        let stat = Stat::V2(self.stat);
        match layout {
            Layout::Stat(StatLayout::V2) => Fields::Stat(stat),
            Layout::Entry(StatLayout::V2) => Fields::Entry(stat),
            Layout::End(StatLayout::V2) => Fields::End(stat, self.last),
            _ => Fields::Text,
        }
    }

    // The stat in the order of its bytes, a time as the 64 bits that stand for it.
    fn numbers_of(said: Said<ValuesV2>) -> [u64; 16]
        ensures { result ≡ numbers_of values_v2_in said }
    {
        let stat = said.values.stat;
        [
            said.used as u64,
            said.at as u64,
            said.length as u64,
            u64::from(said.word),
            u64::from(stat.error),
            stat.dev,
            stat.ino,
            u64::from(stat.mode.0),
            u64::from(stat.nlink),
            u64::from(stat.uid),
            u64::from(stat.gid),
            stat.size,
            stat.atime.cast_unsigned(),
            stat.mtime.cast_unsigned(),
            stat.ctime.cast_unsigned(),
            u64::from(said.values.last),
        ]
    }
}

// A stat alone, as it is said.
pub fn stat_said(stat: StatV2) -> Said<ValuesV2>
    ensures { result ≡ stat_said stat }
{
    alone(ValuesV2 { stat, last: 0 })
}
