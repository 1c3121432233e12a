// Shell frames for C (include/adb_shell.h). Every buffer comes as a pointer and its length. An answer that is too short is
// refused by 8 ahead of all else, and nothing is touched.
//
// Kinds and refusals are numbers here, and what is not there is said as zeros: C has no enum with values, no Option and no Result.
// `as u64` widens a usize: std has no From for it.
#![tactic(auto)]

ghost use Rattle.std.specs.Prelude.{◌≡◌};
ghost use Rattle.adb_shell.specs.Export.{said_of, reads_in, ReadDoes, writes_in, WriteDoes};

use c_answer::{ANSWER_SHORT, count, say};
use refusal::read_number_of;
use shell::{Frame, ReadError, read_frame};
use shell_write::write_frame;

// What is said of received bytes: of a frame the bytes used, its data's place and length, its kind, and an exit's code; else zeros.
// Its numbers are this interface's own, as adb_pcap's are; what both share, the row in the answer, is c_answer's.
#[tactic(auto, unfolding(crate::specs::Export::said_of))]
fn said_of(read: Result<Option<Frame>, ReadError>) -> [u64; 5]
    ensures { result ≡ said_of read }
{
    match read {
        Ok(Some(frame)) => [
            frame.used as u64,
            frame.at as u64,
            frame.length as u64,
            u64::from(u8::from(frame.kind)),
            u64::from(frame.code.unwrap_or(0)),
        ],
        _ => [0; 5],
    }
}

// The frame that received bytes begin with.
#[unsafe(no_mangle)]
pub extern "C" fn adb_shell_read(received: &[u8], answer: &mut [u8]) -> u32
    ensures { ReadDoes (reads_in received.now answer.old) result answer.new }
{
    // The read comes before the test of the answer's length: it touches nothing, and an answer that is too short is the caller's mistake.
    let read = read_frame(received);
    say(answer, read_number_of(read), &said_of(read))
}

// A frame with its data, written at the start of out.
#[tactic(auto, unfolding(c_answer::specs::Answer::writes, c_answer::specs::Answer::counted))]
#[unsafe(no_mangle)]
pub extern "C" fn adb_shell_write(
    kind: u32,
    payload: &[u8],
    out: &mut [u8],
    answer: &mut [u8],
) -> u32
    ensures { WriteDoes (writes_in kind payload.now out.old answer.old)
        result out.new answer.new }
{
    // Here and not in `count`: nothing is written where the answer is short.
    if answer.len() < 8 {
        return ANSWER_SHORT;
    }
    count(answer, write_frame(kind, payload, out))
}
