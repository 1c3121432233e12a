// The channel table: which slot is free, which one a number names.
#![tactic(auto)]

ghost use Rattle.std.specs.Prelude.{◌≡◌, ◌≤◌, ◌<◌, length};
ghost use Rattle.state.specs.State.{state_len, state_of, slot_at};
ghost use Rattle.table.specs.declared.Want.TheVariants.{Local, Remote, Live};
ghost use Rattle.table.specs.Table.{wanted_by, place_of, below, in_use, next_local_id, numbered, allocated};

use refusal::Numbered;
use slot::ids::{LocalId, RemoteId};
use slot::{ChannelSlot, is_closed};
use state::{Header, slot_at};

// A channel as its holder names it.
#[derive(Clone, Copy)]
pub struct ChannelId {
    pub slot: usize,
    pub local: LocalId,
}

// What a slot is looked for by. An enum, not a closure: the definitions and laws name the four tests.
#[derive(Clone, Copy)]
pub enum Want {
    Empty,
    Local(LocalId),
    Remote(RemoteId),
    // By the device's number, and not closed.
    Live(RemoteId),
}

// No slot is empty.
#[derive(Clone, Copy, Debug, PartialEq, Eq)]
pub struct NoFreeChannels;

impl Numbered for NoFreeChannels {
    ghost number = { λ _. 12 };

    // docs/SCOPE.md, 6.
    fn number(self) -> u32 {
        12
    }
}

#[tactic(auto, unfolding(crate::specs::Table::wanted_by))]
pub fn has_local(s: ChannelSlot, n: LocalId) -> bool
    ensures { result ≡ wanted_by (Local n) s }
{
    s.filled && s.local == n
}

#[tactic(auto, unfolding(crate::specs::Table::wanted_by))]
fn has_remote(s: ChannelSlot, n: RemoteId) -> bool
    ensures { result ≡ wanted_by (Remote n) s }
{
    s.filled && s.has_remote && s.remote == n
}

#[tactic(auto, unfolding(crate::specs::Table::wanted_by))]
fn is_live(s: ChannelSlot, n: RemoteId) -> bool
    ensures { result ≡ wanted_by (Live n) s }
{
    has_remote(s, n) && !is_closed(s.state)
}

#[tactic(auto, unfolding(crate::specs::Table::wanted_by))]
fn is_wanted(s: ChannelSlot, want: Want) -> bool
    ensures { result ≡ wanted_by want s }
{
    match want {
        Want::Empty => !s.filled,
        Want::Local(n) => has_local(s, n),
        Want::Remote(n) => has_remote(s, n),
        Want::Live(n) => is_live(s, n),
    }
}

// The lowest wanted place below n.
pub fn place_below(state: &[u8], n: usize, want: Want) -> Option<usize>
    requires { (n ≤ 64) × (state_len ≤ length state.now) }
    ensures { result ≡ below n (place_of want n (state_of state.now).slots) }
{
    (0..n).find(
        |&i|
            requires { (i < 64) × (state_len ≤ length state.now) }
            ensures { result ≡ wanted_by want (slot_at state.exit.now i) }
        { is_wanted(slot_at(state, i), want) },
    )
}

// The number after n: a wrapping add of 1, with 0 replaced by 1.
pub fn next_local(n: u32) -> u32
    ensures { result ≡ next_local_id n }
{
    let next = n.wrapping_add(1);
    if next == 0 {
        return 1;
    }
    next
}

// A header whose next number has moved on.
pub fn numbered(h: Header) -> Header
    ensures { result ≡ numbered h }
{
    Header {
        next_local: next_local(h.next_local),
        ..h
    }
}

// The lowest empty slot, and the number that its channel gets. The header is left to the caller, who stores it once.
pub fn allocate(state: &[u8], h: Header) -> Result<ChannelId, NoFreeChannels>
    requires { (h.negotiated.config.channels ≤ 64) × (state_len ≤ length state.now) }
    ensures { result ≡ allocated h (state_of state.now).slots }
{
    let channels = h.negotiated.config.channels;
    match place_below(state, channels, Want::Empty) {
        Some(slot) => Ok(ChannelId {
            slot,
            local: LocalId(h.next_local),
        }),
        None => Err(NoFreeChannels),
    }
}

// Slots that hold a channel. A `for`: `filter` would take two clauses on its closure for these few lines, and say no more.
pub fn in_use(state: &[u8], n: usize) -> usize
    requires { (n ≤ 64) × (state_len ≤ length state.now) }
    ensures { result ≡ in_use n (state_of state.now).slots }
{
    let mut used = 0;
    for i in 0..n {
        let s = slot_at(state, i);
        used += usize::from(s.filled);
    }
    used
}
