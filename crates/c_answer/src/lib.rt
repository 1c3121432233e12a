// Answers to C: numbers of 64 bits, eight bytes for each, at the start of a lent buffer. An answer that is too short for them is not
// touched.
#![tactic(auto)]

ghost use Rattle.std.specs.Prelude.{◌≡◌, ℕ, ◌*◌, ◌≤◌, ◌<◌, [], ◌∷◌, length};
ghost use Rattle.le.specs.Le.{num_of, bytes_of, put};
ghost use Rattle.le.specs.Rows.{flat, rows};
ghost use Rattle.refusal.specs.Refusal.{number_of};
ghost use Rattle.c_answer.specs.Answer.{says, Says, count_of};

use refusal::{Numbered, number_of};

// The number of a call whose answer is too short.
pub const ANSWER_SHORT: u32 = 8;

// Numbers, at the start of an answer that has room for them.
#[tactic(auto, using(le::proofs::RowLaws::small_each, le::proofs::RowLaws::put_back))]
pub fn put(answer: &mut [u8], said: &[u64])
    requires { length said.now * 8 ≤ length answer.old }
    ensures put { answer.new ≡ put answer.old 0 (flat (bytes_of 8) said.now) }
    ensures says { rows 8 num_of (length said.now) answer.new ≡ said.now }
{
    le::put_all(answer, 0, said);
}

// What a call says, where the answer has room for it, and the call's number.
#[tactic(auto, unfolding(crate::specs::Answer::says))]
pub fn say<const N: usize>(answer: &mut [u8], number: u32, said: &[u64; N]) -> u32
    requires { N < 64 }
    ensures { Says N (says N answer.old number said.now) result answer.new }
{
    if answer.len() < N * 8 {
        return ANSWER_SHORT;
    }
    put(answer, said);
    number
}

// How many bytes were written, none where that was refused, and the number of the write.
#[tactic(auto, using(le::proofs::RowLaws::count_back))]
pub fn count<E: Numbered>(answer: &mut [u8], written: Result<usize, E>) -> u32
    requires { 8 ≤ length answer.old }
    ensures number { result ≡ number_of E.number written }
    ensures put { answer.new ≡ put answer.old 0 (bytes_of 8 (count_of written)) }
    ensures says { rows 8 num_of 1 answer.new ≡ count_of written ∷ [] }
{
    le::put(answer, 0, written.unwrap_or(0));
    number_of(written)
}
