// Captures for C (include/adb_pcap.h). Every buffer comes as a pointer and its length. An answer that is too short is refused by 8
// ahead of all else, and nothing is touched.
//
// Refusals are numbers here, and what is not there is said as zeros: C has no enum with values, no Option and no Result.
// `as u64` widens a usize: std has no From for it.
#![tactic(auto)]

ghost use Rattle.std.specs.Prelude.{◌≡◌};
ghost use Rattle.pcap.specs.Header.{read_header, header_number, write_header};
ghost use Rattle.pcap.specs.Record.{write_record};
ghost use Rattle.adb_pcap.specs.Export.{WriteDoes, said_of, numbers_in, reads_in, ReadDoes};

use c_answer::say;
use pcap::{ReadError, Record, Time};
use refusal::{number_of, read_number_of};

// A file's header, written at the start of out.
#[unsafe(no_mangle)]
pub extern "C" fn adb_pcap_write_header(out: &mut [u8]) -> u32
    ensures { WriteDoes (write_header out.old) result out.new }
{
    number_of(pcap::write_header(out))
}

// Whether received bytes begin with a file's header.
#[unsafe(no_mangle)]
pub extern "C" fn adb_pcap_read_header(received: &[u8]) -> u32
    ensures { result ≡ header_number (read_header received.now) }
{
    read_number_of(pcap::read_header(received))
}

// A record, written at the start of out.
#[unsafe(no_mangle)]
pub extern "C" fn adb_pcap_write_record(
    seconds: u32,
    micros: u32,
    frame: &[u8],
    out: &mut [u8],
) -> u32
    ensures { WriteDoes
        (write_record (record { seconds = seconds; micros = micros }) frame.now out.old) result out.new }
{
    let time = Time { seconds, micros };
    number_of(pcap::write_record(time, frame, out))
}

// What is said of received bytes: of a record the bytes used, its frame's length, its time; else zeros.
// Its numbers are this interface's own, as adb_shell's are; what both share, the row in the answer, is c_answer's.
#[tactic(auto, unfolding(crate::specs::Export::said_of))]
fn said_of(read: Result<Option<Record>, ReadError>) -> [u64; 4]
    ensures { result ≡ numbers_in (said_of read) }
{
    match read {
        Ok(Some(record)) => [
            record.used as u64,
            record.length as u64,
            u64::from(record.time.seconds),
            u64::from(record.time.micros),
        ],
        _ => [0; 4],
    }
}

// The record that received bytes begin with.
#[unsafe(no_mangle)]
pub extern "C" fn adb_pcap_read_record(received: &[u8], answer: &mut [u8]) -> u32
    ensures { ReadDoes (reads_in received.now answer.old) result answer.new }
{
    // The read comes before the test of the answer's length: it touches nothing, and an answer that is too short is the caller's mistake.
    let read = pcap::read_record(received, pcap::SNAP_LENGTH);
    say(answer, read_number_of(read), &said_of(read))
}
