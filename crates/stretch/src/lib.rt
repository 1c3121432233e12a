// The fewest neighbouring frames, of some that end in a refusal, that end in the same one (docs/SCOPE.md, 14). Frames are
// dispatched on a copy of the state and on spare stores: what dispatch answers does not depend on the stores' bytes.
#![tactic(auto)]

ghost use Rattle.std.specs.Prelude.{◌≡◌, ◌≤◌, length, drop};
ghost use Rattle.state.specs.State.{state_len};
ghost use Rattle.stretch.specs.Stretch.{world_of, Turns, run_of, Inside, Tells, Searches, shortest_in, shortest_of, is_counted, is_shorter};

use call_dispatch::dispatch;
use state::STATE_LEN;

// A stretch: the first frame's place, from 0, and the count.
#[derive(Clone, Copy, Debug, PartialEq, Eq)]
pub struct Stretch {
    pub first: usize,
    pub count: usize,
}

// What one packet's dispatch answered, and the bytes that it used. Its number, and no answer: two refusals of one number, as 1 with
// another word, are the same here.
#[derive(Clone, Copy)]
pub struct Turn {
    pub number: u32,
    pub used: usize,
}

// How many frames were dispatched, and the number that the last one answered.
#[derive(Clone, Copy)]
pub struct Ran {
    pub count: usize,
    pub number: u32,
}

// One packet, from place `at` of the received bytes on, with an outgoing buffer of its own.
fn dispatch_at(
    state: &mut [u8],
    rx: &mut [u8],
    store: &mut [u8],
    received: &[u8],
    at: usize,
) -> Turn
    requires { at ≤ length received.now }
    ensures { Turns (world_of state.old rx.old store.old) (drop at received.now) result
        state.new rx.new store.new }
{
    let mut out = [0u8; 56];
    let reply = dispatch(state, rx, store, &received[at..], &mut out);
    Turn {
        number: reply.answer.number(),
        used: reply.used,
    }
}

// The frames at some places, one a call, up to the first that is not done.
fn run(state: &mut [u8], rx: &mut [u8], store: &mut [u8], received: &[u8], places: &[usize]) -> Ran
    requires { Inside received.now places.now }
    ensures { result ≡ run_of (world_of state.old rx.old store.old) received.now
        places.now }
{
    for (i, at) in places.iter().enumerate() {
        let turn = dispatch_at(state, rx, store, received, *at);
        if turn.number != 0 {
            return Ran {
                count: i + 1,
                number: turn.number,
            };
        }
    }
    Ran {
        count: places.len(),
        number: 0,
    }
}

// The frames told apart: their places, up to the first that is not done. An array with the count beside it, since nothing is allocated;
// `run` goes over places that are known, this one finds each by the last frame's length.
fn tell(
    state: &mut [u8],
    rx: &mut [u8],
    store: &mut [u8],
    received: &[u8],
    places: &mut [usize; 32],
) -> Ran
    ensures { Tells (world_of state.old rx.old store.old) received.now result
        places.new }
{
    let mut at = 0;
    for (n, place) in places.iter_mut().enumerate() {
        *place = at;
        let met = dispatch_at(state, rx, store, received, at);
        if met.number != 0 {
            return Ran {
                count: n + 1,
                number: met.number,
            };
        }
        at += met.used;
    }
    Ran {
        count: 32,
        number: 0,
    }
}

#[tactic(auto, unfolding(crate::specs::Stretch::is_shorter))]
fn is_shorter(ran: Ran, number: u32, count: usize) -> bool
    ensures { result ≡ is_shorter ran number count }
{
    ran.number == number && ran.count < count
}

#[tactic(auto, unfolding(crate::specs::Stretch::is_counted))]
fn is_counted(number: u32) -> bool
    ensures { result ≡ is_counted number }
{
    matches!(number, 1..=5 | 11 | 20 | 21)
}

// One run from each start: the first refusal from there, if it has the number. The fewest frames are kept, of equally many the
// earliest. A `for`: `map`, `filter` and `min_by_key` would need the same run in a closure that keeps both stores borrowed, no plainer.
fn search(
    state: &[u8; STATE_LEN],
    rx: &mut [u8],
    store: &mut [u8],
    received: &[u8],
    places: &[usize],
    number: u32,
) -> Stretch
    requires { Searches (world_of state.now rx.old store.old) received.now places.now number }
    ensures { Some result ≡ shortest_in (world_of state.now rx.old store.old) received.now
        places.now number }
{
    let mut best = Stretch {
        first: 0,
        count: places.len(),
    };
    for first in 0..places.len() {
        let mut copy = *state;
        let ran = run(&mut copy, rx, store, received, &places[first..]);
        if is_shorter(ran, number, best.count) {
            best = Stretch {
                first,
                count: ran.count,
            };
        }
    }
    best
}

// The shortest stretch, from a state's own bytes. The stores are worked in, and their bytes left as that leaves them.
pub fn shortest(
    state: &[u8; STATE_LEN],
    rx: &mut [u8],
    store: &mut [u8],
    received: &[u8],
) -> Option<Stretch>
    ensures { result ≡ shortest_of (world_of state.now rx.old store.old) received.now }
{
    let mut copy = *state;
    let mut places = [0usize; 32];
    let told = tell(&mut copy, rx, store, received, &mut places);
    if is_counted(told.number) {
        return Some(search(
            state,
            rx,
            store,
            received,
            &places[..told.count],
            told.number,
        ));
    }
    None
}
