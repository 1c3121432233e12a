// The device's queued OPENs: entries in the lent state, the first `queued` of 64, and their destinations in
// the open store, where share k is the max_payload bytes from k * max_payload on. The header is handed in and handed back
// by value: the caller stores it once. Shares are numbers into lent memory, since nothing is allocated.
// `as usize` widens a u32: std has no From for it, as usize may be narrower elsewhere.
#![tactic(auto)]

ghost use Rattle.std.specs.Prelude.{◌≡◌, ◌≤◌, ◌<◌, ◌∷◌, length, take, drop};
ghost use Rattle.state.specs.Change.{put_queue, Steps};
ghost use Rattle.state.specs.State.{state_len, state_of};
ghost use Rattle.incoming.specs.Numbers.{pushed_number, front_number};
ghost use Rattle.incoming.specs.Incoming.{named, free_share, stays_by, kept, with_queued, Retains, QueueOk, withdrawal, popped};
ghost use Rattle.incoming.specs.Incoming.{PushRoom, Pushes, pushed, offering, FrontRoom, returned};

use refusal::{NOTHING, there_number_of};
use slot::ids::RemoteId;
use state::{Header, Pending, PendingOpen, QueuedOpen, put_queued, queued_at};

// The numbers of answers (docs/SCOPE.md, 6): an OPEN beyond the number of channels is answered by a CLSE and is no refusal of
// the call; 101 for none queued. Public functions with promises of their own, each one call of refusal's.

pub fn pushed_number(pushed: Option<Header>) -> u32
    ensures { result ≡ pushed_number pushed }
{
    there_number_of(pushed, 0)
}

pub fn front_number(front: Option<(QueuedOpen, Header)>) -> u32
    ensures { result ≡ front_number front }
{
    there_number_of(front, NOTHING)
}

// Whether one of the first `queued` uses share k. A `for`: `any` would take two clauses on its closure for these few lines, and say no more.
fn is_named(state: &[u8], queued: usize, k: usize) -> bool
    requires { (queued ≤ 64) × (state_len ≤ length state.now) }
    ensures { result ≡ named k (take queued (state_of state.now).queue) }
{
    for i in 0..queued {
        let q = queued_at(state, i);
        if q.share == k {
            return true;
        }
    }
    false
}

// The lowest share below n that none of the first `queued` uses, or n: its one caller has room, and an Option would give it an arm that
// never comes. A `for`, as `is_named` has.
fn free_share(state: &[u8], queued: usize, n: usize) -> usize
    requires { (queued ≤ 64) × (state_len ≤ length state.now) }
    ensures { result ≡ free_share n (take queued (state_of state.now).queue) }
{
    for k in 0..n {
        if !is_named(state, queued, k) {
            return k;
        }
    }
    n
}

// Whether an OPEN stays, where those of one remote number go, or none does.
fn stays(q: QueuedOpen, gone: Option<RemoteId>) -> bool
    ensures { result ≡ stays_by gone q }
{
    match gone {
        None => true,
        Some(remote) => q.remote != remote,
    }
}

// Those of the first `queued` that stay, from place `from` on, moved to the front in one pass. Answers how many. `retain` of std
// needs a Vec, and this is lent memory; `copy_within` moves one run, and those that go lie between those that stay. `gone` and not a
// closure: the definition (`kept`) names the two cases.
fn retain(state: &mut [u8], from: usize, queued: usize, gone: Option<RemoteId>) -> usize
    requires { (from ≤ queued) × (queued ≤ 64) × (state_len ≤ length state.old) }
    ensures { Retains (kept gone (drop from (take queued (state_of state.old).queue))) state.old result
        state.new }
{
    let mut w = 0;
    for i in from..queued {
        let q = queued_at(state, i);
        if stays(q, gone) {
            put_queued(state, w, q);
            w += 1;
        }
    }
    w
}

fn with_queued(h: Header, queued: usize) -> Header
    ensures { result ≡ with_queued h queued }
{
    Header { queued, ..h }
}

// The entry behind those that are queued is an offer.
fn offer_behind(h: Header) -> Header
    ensures { result ≡ offering h }
{
    Header {
        pending: PendingOpen {
            what: Pending::Offer,
            ..h.pending
        },
        ..h
    }
}

// Puts one ahead of the first `queued`, which move down a place each. One at a time, by what `state` promises of a place; `copy_within` would
// need the layout's bytes and a law of a run of entries.
fn put_first(state: &mut [u8], queued: usize, first: QueuedOpen)
    requires { (queued < 64) × (state_len ≤ length state.old) }
    ensures { state.new ≡ put_queue state.old (first ∷ take queued (state_of state.old).queue) }
{
    let mut carried = first;
    for i in 0..queued {
        let next = queued_at(state, i);
        put_queued(state, i, carried);
        carried = next;
    }
    put_queued(state, queued, carried);
}

// An OPEN put behind those that are queued, its destination in a share that none of them uses; refused while as many are queued as
// there are channels.
pub fn push_back(
    state: &mut [u8],
    store: &mut [u8],
    h: Header,
    remote: RemoteId,
    credit: u32,
    destination: &[u8],
) -> Option<Header>
    requires { PushRoom h (length state.old) (length store.old) (length destination.now) }
    ensures { Pushes (pushed h (state_of state.old).queue remote credit destination.now store.old)
        state.old result state.new store.new }
{
    let config = h.negotiated.config;
    let queued = h.queued;
    if queued >= config.channels {
        return None;
    }
    let share = free_share(state, queued, config.channels);
    let at = share * config.max_payload as usize;
    le::copy_at(store, at, destination);
    let length = destination.len();
    put_queued(
        state,
        queued,
        QueuedOpen {
            remote,
            credit,
            share,
            length,
        },
    );
    Some(with_queued(h, queued + 1))
}

// Drops those of this remote number.
pub fn withdraw(state: &mut [u8], h: Header, remote: RemoteId) -> Header
    requires { QueueOk h (length state.old) }
    ensures { Steps (withdrawal h (state_of state.old).queue remote) state.old result state.new }
{
    let left = retain(state, 0, h.queued, Some(remote));
    with_queued(h, left)
}

// Takes the one that was queued first, which stands behind the others as an offer; its destination lies in the open store
// until the next push.
pub fn pop_front(state: &mut [u8], h: Header) -> Option<(QueuedOpen, Header)>
    requires { QueueOk h (length state.old) }
    ensures { Steps (popped h (state_of state.old).queue) state.old result state.new }
{
    if h.queued == 0 {
        return None;
    }
    let front = queued_at(state, 0);
    let left = retain(state, 1, h.queued, None);
    put_queued(state, left, front);
    Some((front, offer_behind(with_queued(h, left))))
}

// Puts one that was taken back ahead of the others.
pub fn push_front(state: &mut [u8], h: Header, q: QueuedOpen) -> Header
    requires { FrontRoom h (length state.old) }
    ensures { Steps (returned h (state_of state.old).queue q) state.old result state.new }
{
    let queued = h.queued;
    put_first(state, queued, q);
    with_queued(h, queued + 1)
}
