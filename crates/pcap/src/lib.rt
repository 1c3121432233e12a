// Classic pcap files, version 2.4, of one kind: little-endian, times in microseconds, link type 147, one record a frame. A file is
// a header of 24 bytes and records, each a header of 16 bytes and a frame.
// `as usize` widens a u32, and `as u32` narrows a length that fits: std has no From for either, and `try_from` would need an arm that
// never comes.
#![tactic(auto)]

ghost use Rattle.std.specs.Prelude.{◌≡◌, ◌≤◌, length};
ghost use Rattle.le.specs.Le.{put};
ghost use Rattle.pcap.specs.Header.{read_header, header_refusal, write_header};
ghost use Rattle.pcap.specs.Record.{time_of, is_refused, read_record, read_refusal, record_head, record_bytes, Room};
ghost use Rattle.pcap.specs.Record.{write_head, write_record, Writes};

use refusal::Numbered;

// Length of a file's header.
pub const HEADER_SIZE: usize = 24;

// Length of a record's header.
pub const RECORD_SIZE: usize = 16;

// Snap length: longest frame of a record, which is a frame's header and its longest payload.
pub const SNAP_LENGTH: u32 = 1_048_600;

// A file's header. The last number is the first of the link types that are left to private use.
const HEADER: [u8; HEADER_SIZE] = [
    0xd4, 0xc3, 0xb2, 0xa1, // read as 0xa1b2_c3d4: little-endian, and times in microseconds
    2, 0, 4, 0, // version 2.4
    0, 0, 0, 0, // zone
    0, 0, 0, 0, // accuracy
    0x18, 0, 0x10, 0, // snap length
    147, 0, 0, 0, // link type
];

// ---- a file's header

// The header that received bytes begin with. It is the same in each file.
#[derive(Clone, Copy, Debug, PartialEq, Eq)]
pub struct Header;

// Why received bytes are no file.
#[derive(Clone, Copy, Debug, PartialEq, Eq)]
pub enum HeaderError {
    // 22: another header.
    Invalid,
}

impl Numbered for HeaderError {
    ghost number = { header_refusal };

    fn number(self) -> u32 {
        match self {
            HeaderError::Invalid => 22,
        }
    }
}

// The header that a file's bytes begin with, none while it is not all there, or why there is none.
#[tactic(auto, unfolding(crate::specs::Header::read_header))]
pub fn read_header(received: &[u8]) -> Result<Option<Header>, HeaderError>
    ensures { result ≡ read_header received.now }
{
    if received.len() < HEADER_SIZE {
        Ok(None)
    } else if received.starts_with(&HEADER) {
        Ok(Some(Header))
    } else {
        Err(HeaderError::Invalid)
    }
}

// Why a header or a record is not written.
pub type WriteError = refusal::WriteError<ReadError>;

// A file's header, written at the start of out where it fits.
#[tactic(auto, unfolding(crate::specs::Header::write_header, crate::specs::Header::file_header, le::specs::Le::bytes_of))]
pub fn write_header(out: &mut [u8]) -> Result<usize, WriteError>
    ensures { Writes (write_header out.old) result out.new }
{
    if out.len() < HEADER_SIZE {
        return Err(WriteError::OutShort);
    }
    le::copy_at(out, 0, &HEADER);
    Ok(HEADER_SIZE)
}

// ---- records

// When a frame went: seconds since 1970, and microseconds.
#[derive(Clone, Copy, Debug, Default, PartialEq, Eq)]
pub struct Time {
    pub seconds: u32,
    pub micros: u32,
}

// A record that received bytes begin with. Its frame is the `length` bytes from byte 16 on; with them it uses `used` bytes.
#[derive(Clone, Copy, Debug, PartialEq, Eq)]
pub struct Record {
    pub time: Time,
    pub length: usize,
    pub used: usize,
}

// Why received bytes are no record.
#[derive(Clone, Copy, Debug, PartialEq, Eq)]
pub enum ReadError {
    // 23: the kept length is not the original one, or too long.
    InvalidLength,
}

impl Numbered for ReadError {
    ghost number = { read_refusal };

    fn number(self) -> u32 {
        match self {
            ReadError::InvalidLength => 23,
        }
    }
}

// Whether a record with these lengths is refused, where frames up to a limit are taken, and up to the snap length at most.
#[tactic(auto, unfolding(crate::specs::Record::is_refused))]
fn is_refused(limit: u32, kept: u32, original: u32) -> bool
    ensures { result ≡ is_refused limit kept original }
{
    kept != original || kept > limit || kept > SNAP_LENGTH
}

#[tactic(auto, unfolding(crate::specs::Record::time_of))]
fn time_at(s: &[u8]) -> Time
    requires { 16 ≤ length s.now }
    ensures { result ≡ time_of s.now }
{
    Time {
        seconds: le::get(s, 0),
        micros: le::get(s, 4),
    }
}

// The record that received bytes begin with, with a frame up to a limit; none while it is not all there, or why there is none.
#[tactic(auto, unfolding(crate::specs::Record::read_record, crate::specs::Record::kept_of, crate::specs::Record::original_of))]
pub fn read_record(received: &[u8], limit: u32) -> Result<Option<Record>, ReadError>
    ensures { result ≡ read_record limit received.now }
{
    if received.len() < RECORD_SIZE {
        return Ok(None);
    }
    let kept: u32 = le::get(received, 8);
    if is_refused(limit, kept, le::get(received, 12)) {
        return Err(ReadError::InvalidLength);
    }
    let length = kept as usize;
    if received.len() - RECORD_SIZE < length {
        return Ok(None);
    }
    let time = time_at(received);
    let used = RECORD_SIZE + length;
    Ok(Some(Record { time, length, used }))
}

#[tactic(auto, using(crate::proofs::WriteLaws::four_words))]
fn put_head(out: &mut [u8], time: Time, len: u32)
    requires { 16 ≤ length out.old }
    ensures { out.new ≡ put out.old 0 (record_head time len) }
{
    le::put_all(out, 0, &[time.seconds, time.micros, len, len]);
}

// The header alone of a record whose frame has these many bytes, written at the start of out where it fits. The frame is to follow it.
#[tactic(auto, unfolding(crate::specs::Record::write_head))]
pub fn write_head(time: Time, len: usize, out: &mut [u8]) -> Result<usize, WriteError>
    ensures { Writes (write_head time len out.old) result out.new }
{
    if len > SNAP_LENGTH as usize {
        return Err(WriteError::Refused(ReadError::InvalidLength));
    }
    if out.len() < RECORD_SIZE {
        return Err(WriteError::OutShort);
    }
    put_head(out, time, len as u32);
    Ok(RECORD_SIZE)
}

#[tactic(auto, using(crate::proofs::WriteLaws::put_record))]
fn put_record(out: &mut [u8], time: Time, frame: &[u8])
    requires { Room out.old frame.now }
    ensures { out.new ≡ put out.old 0 (record_bytes time frame.now) }
{
    put_head(out, time, frame.len() as u32);
    le::copy_at(out, RECORD_SIZE, frame);
}

// A record, written at the start of out where it fits.
#[tactic(auto, unfolding(crate::specs::Record::write_record))]
pub fn write_record(time: Time, frame: &[u8], out: &mut [u8]) -> Result<usize, WriteError>
    ensures { Writes (write_record time frame.now out.old) result out.new }
{
    let len = frame.len();
    // The tests are write_head's but for the room: a function of both would be handed each one's room, for two tests.
    if len > SNAP_LENGTH as usize {
        return Err(WriteError::Refused(ReadError::InvalidLength));
    }
    if out.len() < RECORD_SIZE + len {
        return Err(WriteError::OutShort);
    }
    put_record(out, time, frame);
    Ok(RECORD_SIZE + len)
}
