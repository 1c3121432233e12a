// The call that looks for the shortest stretch. It changes nothing that lasts from call to call.
// `as u64` widens a usize: std has no From for it.
ghost use Rattle.std.specs.Prelude.{◌≡◌, ◌∷◌};
ghost use Rattle.call_stretch.specs.Promise.{stretched_values};
ghost use Rattle.adb.specs.Stretch.{AdbStretchDoes};

use crate::is_short;
use c_answer::ANSWER_SHORT;
use call_stretch::{Stretched, stretch, stretched_number};

// What is said of a stretch: nothing is used or written, and two values of the answer.
#[tactic(auto, unfolding(call_stretch::specs::Promise::stretched_values))]
fn stretch_numbers(stretched: Stretched) -> [u64; 6]
    ensures { result ≡ 0 ∷ 0 ∷ stretched_values stretched }
{
    match stretched {
        Ok(Some(found)) => [0, 0, found.first as u64, found.count as u64, 0, 0],
        Ok(None) => [0; 6],
        Err(_) => [0; 6],
    }
}

// The fewest neighbouring frames of the received bytes that end in the refusal in which all end.
#[unsafe(no_mangle)]
pub extern "C" fn adb_stretch(
    state: &[u8],
    rx: &[u8],
    opens: &[u8],
    received: &[u8],
    spare_rx: &mut [u8],
    spare_opens: &mut [u8],
    answer: &mut [u8],
) -> u32
    ensures { AdbStretchDoes state.now rx.now opens.now received.now
        spare_rx.old spare_opens.old answer.old result spare_rx.new
        spare_opens.new answer.new }
{
    if is_short(state.len(), answer.len()) {
        return ANSWER_SHORT;
    }
    let found = stretch(state, rx, opens, received, spare_rx, spare_opens);
    c_answer::put(answer, &stretch_numbers(found));
    stretched_number(found)
}
