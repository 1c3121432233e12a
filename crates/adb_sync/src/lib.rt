// The sync messages for C (include/adb_sync.h). Every buffer comes as a pointer and its length. An answer that is too short is
// refused by 8 ahead of all else, and nothing is touched.
//
// Exchanges, ids and refusals are numbers here, and what is not there is said as zeros: C has no enum with values, no Option and no Result.
// `as u64` widens a usize: std has no From for it.
#![tactic(auto)]

ghost use Rattle.std.specs.Prelude.{◌≡◌, ◌<◌};
ghost use Rattle.c_answer.specs.Answer.{says, Says, WriteDoes};
ghost use Rattle.sync_v2.specs.Said.{numbers_of};
ghost use Rattle.adb_sync.specs.Export.{values_of, fields_from, values_in, writes};
ghost use Rattle.adb_sync.specs.Export.{reads_in, ReadDoes, writes_in};
ghost use Rattle.adb_sync.specs.ExportV2.{reads_v2_in, ReadV2Does, writes_v2_in, widens_in, narrow_said, narrows_in, four_of};

use c_answer::{ANSWER_SHORT, count};
use exchange::{Exchange, Layout, StatLayout};
use refusal::{number_of, read_number_of};
use stat_convert::NarrowError;
use sync::{Fields, FileMode, Message, Stat, StatV1, StatV2};
use sync_v2::{Numbers, Said, ValuesV2, alone, said_of, stat_said, write_found};

// A message's numbers in the order of its bytes, 0 where it has none.
#[derive(Clone, Copy, Default)]
pub struct Values {
    pub a: u32,
    pub b: u32,
    pub c: u32,
    pub d: u32,
}

// Of a stat of the second layout four numbers say nothing, and make no fields.
impl Numbers<8> for Values {
    ghost of_fields = { values_of };

    ghost to_fields = { fields_from };

    ghost in_order = { values_in };

    #[tactic(auto, unfolding(crate::specs::Export::values_of, sync_write::specs::Write::numbers_of))]
    fn of_fields(fields: Fields) -> Values {
        match fields {
            Fields::Number(a) | Fields::End(Stat::V2(_), a) => Values {
                a,
                ..Values::default()
            },
            Fields::Stat(Stat::V1(stat)) | Fields::Entry(Stat::V1(stat)) => Values {
                a: stat.mode.0,
                b: stat.size,
                c: stat.mtime,
                d: 0,
            },
            Fields::End(Stat::V1(stat), d) => Values {
                a: stat.mode.0,
                b: stat.size,
                c: stat.mtime,
                d,
            },
            Fields::Text | Fields::Stat(Stat::V2(_)) | Fields::Entry(Stat::V2(_)) =>
                Values::default(),
        }
    }

    #[tactic(auto, unfolding(crate::specs::Export::fields_from, crate::specs::Export::stat_from))]
    fn to_fields(self, layout: Layout) -> Fields {
        let stat = Stat::V1(StatV1 {
            mode: FileMode(self.a),
            size: self.b,
            mtime: self.c,
        });
        match layout {
            Layout::Number => Fields::Number(self.a),
            Layout::Stat(StatLayout::V1) => Fields::Stat(stat),
            Layout::Entry(StatLayout::V1) => Fields::Entry(stat),
            Layout::End(StatLayout::V1) => Fields::End(stat, self.d),
            _ => Fields::Text,
        }
    }

    fn numbers_of(said: Said<Values>) -> [u64; 8]
        ensures { result ≡ numbers_of values_in said }
    {
        let values = said.values;
        [
            said.used as u64,
            said.at as u64,
            said.length as u64,
            u64::from(said.word),
            u64::from(values.a),
            u64::from(values.b),
            u64::from(values.c),
            u64::from(values.d),
        ]
    }
}

// What is said, and its number, in an answer that is long enough. What is read for it comes before the test of the answer's length: it
// touches nothing, and an answer that is too short is the caller's mistake.
fn say<V: Numbers<N>, const N: usize>(answer: &mut [u8], number: u32, said: Said<V>) -> u32
    requires { N < 64 }
    ensures { Says N (says N answer.old number (numbers_of V.in_order said)) result answer.new }
{
    c_answer::say(answer, number, &V::numbers_of(said))
}

// A message under a word, and its count in an answer that is long enough.
#[tactic(auto, unfolding(c_answer::specs::Answer::writes, c_answer::specs::Answer::counted))]
fn write<V: Numbers<N>, const N: usize>(
    exchange: Exchange,
    word: u32,
    values: V,
    text: &[u8],
    out: &mut [u8],
    answer: &mut [u8],
) -> u32
    ensures { WriteDoes (writes V.to_fields exchange word values text.now out.old answer.old) result out.new answer.new }
{
    // Here and not in `count`: nothing is written where the answer is short.
    if answer.len() < 8 {
        return ANSWER_SHORT;
    }
    count(answer, write_found(exchange, word, values, text, out))
}

// The message of an exchange that received bytes begin with.
#[unsafe(no_mangle)]
pub extern "C" fn adb_sync_read(exchange: u32, received: &[u8], answer: &mut [u8]) -> u32
    ensures { ReadDoes (reads_in exchange received.now answer.old) result answer.new }
{
    let read = Message::read(Exchange::from_number(exchange), received);
    say(answer, read_number_of(read), said_of::<Values, 8>(read))
}

// A message of an exchange, written at the start of out. Numbers that its layout has not are not looked at.
#[unsafe(no_mangle)]
pub extern "C" fn adb_sync_write(
    exchange: u32,
    id: u32,
    a: u32,
    b: u32,
    c: u32,
    d: u32,
    text: &[u8],
    out: &mut [u8],
    answer: &mut [u8],
) -> u32
    ensures { WriteDoes
        (writes_in exchange id (record { a = a; b = b; c = c; d = d }) text.now out.old answer.old)
        result out.new answer.new }
{
    let x = Exchange::from_number(exchange);
    write(x, id, Values { a, b, c, d }, text, out, answer)
}

// The message of an exchange of the second stat layout that received bytes begin with.
#[unsafe(no_mangle)]
pub extern "C" fn adb_sync_read_v2(exchange: u32, received: &[u8], answer: &mut [u8]) -> u32
    ensures { ReadV2Does (reads_v2_in exchange received.now answer.old) result answer.new }
{
    let read = Message::read(Exchange::from_v2_number(exchange), received);
    say(answer, read_number_of(read), said_of::<ValuesV2, 16>(read))
}

// A message of an exchange of the second stat layout, written at the start of out. `last` is a listing's end's alone.
#[unsafe(no_mangle)]
pub extern "C" fn adb_sync_write_v2(
    exchange: u32,
    id: u32,
    error: u32,
    dev: u64,
    ino: u64,
    mode: u32,
    nlink: u32,
    uid: u32,
    gid: u32,
    size: u64,
    atime: i64,
    mtime: i64,
    ctime: i64,
    last: u32,
    text: &[u8],
    out: &mut [u8],
    answer: &mut [u8],
) -> u32
    ensures { WriteDoes
        (writes_v2_in exchange id (record {
          error = error;
          dev = dev;
          ino = ino;
          mode = record { 0 = mode };
          nlink = nlink;
          uid = uid;
          gid = gid;
          size = size;
          atime = atime;
          mtime = mtime;
          ctime = ctime;
        })
        last text.now out.old answer.old)
        result out.new answer.new }
{
    let stat = StatV2 {
        error,
        dev,
        ino,
        mode: FileMode(mode),
        nlink,
        uid,
        gid,
        size,
        atime,
        mtime,
        ctime,
    };
    let x = Exchange::from_v2_number(exchange);
    let values = ValuesV2 { stat, last };
    write(x, id, values, text, out, answer)
}

// A stat of the first layout as one of the second, in an answer as a read's.
#[unsafe(no_mangle)]
pub extern "C" fn adb_sync_widen(mode: u32, size: u32, mtime: u32, answer: &mut [u8]) -> u32
    ensures { ReadV2Does (widens_in (record { mode = record { 0 = mode }; size = size; mtime = mtime }) answer.old)
        result answer.new }
{
    let mode = FileMode(mode);
    let stat = stat_convert::widen(StatV1 { mode, size, mtime });
    say(answer, 0, stat_said(stat))
}

#[tactic(auto, unfolding(crate::specs::ExportV2::narrow_said))]
fn narrow_said(narrowed: Result<StatV1, NarrowError>) -> Said<Values>
    ensures { result ≡ narrow_said narrowed }
{
    match narrowed {
        Ok(stat) => alone(Values::of_fields(Fields::Stat(Stat::V1(stat)))),
        Err(_) => alone(Values::default()),
    }
}

// A stat of the second layout as one of the first, of the numbers that decide it, in an answer as a read's.
#[unsafe(no_mangle)]
pub extern "C" fn adb_sync_narrow(
    error: u32,
    mode: u32,
    size: u64,
    mtime: i64,
    answer: &mut [u8],
) -> u32
    ensures { ReadDoes (narrows_in (four_of error mode size mtime) answer.old) result answer.new }
{
    let narrowed = stat_convert::narrow(StatV2 {
        error,
        mode: FileMode(mode),
        size,
        mtime,
        ..StatV2::default()
    });
    say(answer, number_of(narrowed), narrow_said(narrowed))
}
