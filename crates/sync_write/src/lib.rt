// The sync messages to bytes, what `sync` reads them from.
// `as u32` narrows a length that fits: `try_from` would need an arm that never comes.
#![tactic(auto)]

ghost use Rattle.std.specs.Prelude.{◌≡◌, ◌+◌, ◌≤◌, length};
ghost use Rattle.le.specs.Le.{put};
ghost use Rattle.exchange.specs.Exchange.{stat_length, head_of};
ghost use Rattle.sync.specs.Message.{stat_layout, layout_of};
ghost use Rattle.sync_write.specs.Write.{stat_bytes, stat_v2_bytes, either_bytes, field_bytes, message_bytes};
ghost use Rattle.sync_write.specs.Write.{Room, write_known, write_message, Writes};

use exchange::{Exchange, Layout};
use sync::{Fields, Message, ReadError, Stat, StatV1, StatV2};

// Why a message is not written. Fields of another layout than the id's are refused as the id is.
pub type WriteError = refusal::WriteError<ReadError>;

#[tactic(auto, using(crate::proofs::WriteLaws::flat_three))]
fn put_stat_v1(out: &mut [u8], stat: StatV1)
    requires { 16 ≤ length out.old }
    ensures { out.new ≡ put out.old 4 (stat_bytes stat) }
{
    le::put_all(out, 4, &[stat.mode.0, stat.size, stat.mtime]);
}

#[tactic(auto, using(crate::proofs::WriteLaws::put_eleven))]
fn put_stat_v2(out: &mut [u8], stat: StatV2)
    requires { 72 ≤ length out.old }
    ensures { out.new ≡ put out.old 4 (stat_v2_bytes stat) }
{
    le::put(out, 4, stat.error);
    le::put(out, 8, stat.dev);
    le::put(out, 16, stat.ino);
    le::put(out, 24, stat.mode.0);
    le::put(out, 28, stat.nlink);
    le::put(out, 32, stat.uid);
    le::put(out, 36, stat.gid);
    le::put(out, 40, stat.size);
    le::put(out, 48, stat.atime);
    le::put(out, 56, stat.mtime);
    le::put(out, 64, stat.ctime);
}

#[tactic(auto, unfolding(crate::specs::Write::either_bytes))]
fn put_stat(out: &mut [u8], stat: Stat)
    requires { 4 + stat_length (stat_layout stat) ≤ length out.old }
    ensures { out.new ≡ put out.old 4 (either_bytes stat) }
{
    match stat {
        Stat::V1(stat) => put_stat_v1(out, stat),
        Stat::V2(stat) => put_stat_v2(out, stat),
    }
}

// What stands between the id and the text, whose length is given.
#[tactic(auto, using(crate::proofs::WriteLaws::put_behind), unfolding(crate::specs::Write::field_bytes, exchange::specs::Exchange::head_of))]
fn put_fields(out: &mut [u8], fields: Fields, len: u32)
    requires { head_of (layout_of fields) ≤ length out.old }
    ensures { out.new ≡ put out.old 4 (field_bytes fields len) }
{
    match fields {
        Fields::Text => le::put(out, 4, len),
        Fields::Number(n) => le::put(out, 4, n),
        Fields::Stat(stat) => put_stat(out, stat),
        Fields::Entry(stat) => {
            put_stat(out, stat);
            le::put(out, 4 + stat.layout().length(), len);
        }
        Fields::End(stat, last) => {
            put_stat(out, stat);
            le::put(out, 4 + stat.layout().length(), last);
        }
    }
}

// A message with its text, at the start of out.
#[tactic(auto, using(crate::proofs::WriteLaws::message_rules))]
fn put_message(out: &mut [u8], message: Message, text: &[u8])
    requires { Room out.old message text.now }
    ensures { out.new ≡ put out.old 0 (message_bytes message text.now) }
{
    let at = Layout::from(message.fields).head_length();
    le::put(out, 0, message.id.word());
    put_fields(out, message.fields, text.len() as u32);
    le::copy_at(out, at, text);
}

// The answer once the id's layout is known.
#[tactic(auto, using(crate::proofs::WriteLaws::write_rules), unfolding(crate::specs::Write::write_known, crate::specs::Write::is_other))]
fn write_known(
    layout: Layout,
    message: Message,
    text: &[u8],
    out: &mut [u8],
) -> Result<usize, WriteError>
    ensures { Writes (write_known layout message text.now out.old) result out.new }
{
    if layout != Layout::from(message.fields) {
        return Err(WriteError::Refused(ReadError::InvalidId));
    }
    if message.id.is_over(text.len()) {
        return Err(WriteError::Refused(ReadError::DataTooLarge));
    }
    if text.len() > layout.longest() {
        return Err(WriteError::OutShort);
    }
    let end = layout.head_length() + text.len();
    if out.len() < end {
        return Err(WriteError::OutShort);
    }
    put_message(out, message, text);
    Ok(end)
}

// A message with its text, written at the start of out where it fits.
#[tactic(auto, unfolding(crate::specs::Write::write_message, crate::specs::Write::write_named))]
pub fn write(
    message: Message,
    exchange: Exchange,
    text: &[u8],
    out: &mut [u8],
) -> Result<usize, WriteError>
    ensures { Writes (write_message exchange message text.now out.old) result out.new }
{
    match exchange.find(message.id.word()) {
        Some((_, layout)) => write_known(layout, message, text, out),
        None => Err(WriteError::Refused(ReadError::InvalidId)),
    }
}
