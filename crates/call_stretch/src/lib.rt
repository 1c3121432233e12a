// The shortest stretch of received frames that still refuses (docs/SCOPE.md, 14). State and stores are lent to be looked at: the
// work is done on a copy of the state and in spare stores.
#![tactic(auto)]

ghost use Rattle.std.specs.Prelude.{◌≡◌, ◌≤◌, length};
ghost use Rattle.state.specs.State.{state_len};
ghost use Rattle.call_stretch.specs.Promise.{stretched_number, found_as, spare_short, LookLooks, StretchLooks};

use call::admit::admit;
use connection::Refusal;
use refusal::{NOTHING, found_number_of};
use state::STATE_LEN;
use stretch::{Stretch, shortest};

// The first frame's place, from 0, and the count; none where the frames end in no refusal that counts.
pub type Stretched = Result<Option<Stretch>, Refusal>;

// The number of the answer (docs/SCOPE.md, 6): a refusal's own, 101 for none.
pub fn stretched_number(stretched: Stretched) -> u32
    ensures { result ≡ stretched_number stretched }
{
    found_number_of(stretched, NOTHING)
}

#[tactic(auto, unfolding(crate::specs::Promise::spare_short))]
fn is_spare_short(rx: usize, store: usize, spare_rx: usize, spare_store: usize) -> bool
    ensures { result ≡ spare_short rx store spare_rx spare_store }
{
    spare_rx < rx || spare_store < store
}

// The search, in as much of the spare stores as the stores have.
fn look(
    state: &[u8],
    rx: usize,
    store: usize,
    received: &[u8],
    spare_rx: &mut [u8],
    spare_store: &mut [u8],
) -> Stretched
    requires { state_len ≤ length state.now }
    ensures { LookLooks state.now rx store received.now spare_rx.old
        spare_store.old result spare_rx.new spare_store.new }
{
    if is_spare_short(rx, store, spare_rx.len(), spare_store.len()) {
        return Err(Refusal::StoreShort);
    }
    let found = shortest(
        state.first_chunk::<STATE_LEN>().unwrap(),
        &mut spare_rx[..rx],
        &mut spare_store[..store],
        received,
    );
    Ok(found)
}

// The fewest neighbouring frames, of those that dispatch refuses at their end, that end in the same refusal. Nothing pending ends.
pub fn stretch(
    state: &[u8],
    rx: &[u8],
    store: &[u8],
    received: &[u8],
    spare_rx: &mut [u8],
    spare_store: &mut [u8],
) -> Stretched
    ensures { StretchLooks state.now rx.now store.now received.now
        spare_rx.old spare_store.old result spare_rx.new spare_store.new }
{
    admit(state, rx.len(), store.len())?;
    look(
        state,
        rx.len(),
        store.len(),
        received,
        spare_rx,
        spare_store,
    )
}
