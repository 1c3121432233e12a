// Whether lent bytes are a whole state: one pass over the slots, with the test that they are a state merged in.
// `as usize` widens a u32: std has no From for it, as usize may be narrower elsewhere.
#![tactic(auto)]

ghost use Rattle.std.specs.Prelude.{ℕ, ◌≡◌, ◌+◌, ◌-◌, ◌*◌, ◌≤◌, ◌<◌, length, take, drop};
ghost use Rattle.le.specs.Le.{part};
ghost use Rattle.state.specs.State.{header_len, slot_len, state_len, is_tag, state_of};
ghost use Rattle.state_whole.specs.Whole.{row_fine, rows_fine, queued_fine, queue_fine, header_fine, pending_fine, filled_at, is_whole};
ghost use Rattle.state_whole.specs.Whole.{HeaderOk, offer_fine, opens_fine, rest_whole};

use protocol::constant::ADB_VERSION;
use protocol::packet::Packet;
use state::{
    HEADER_LEN, Header, QueuedOpen, SLOT_LEN, STATE_LEN, TAG_AT, header_of, queued_at, slot_at,
    slot_of,
};
use std::marker::Model;

// Whether an empty slot's tag is in range.
#[tactic(auto, unfolding(state::specs::State::is_tag))]
fn is_tag(tag: u8) -> bool
    ensures { result ≡ is_tag tag }
{
    tag <= 191 && tag / 2 / 2 / 2 % 4 <= 2
}

// What a slot's place and its numbers stay within: the channels, and the most that one may hold. Both are within the limits.
#[derive(Clone, Copy)]
struct Bounds {
    channels: usize,
    cap: usize,
}

impl Model for Bounds {
    ghost Value = { ℕ × ℕ };

    ghost view = { λ b. (b.channels, b.cap) };

    ghost inverse = { λ v. record { channels = v.0; cap = v.1 } };

    ghost invariant = { λ b. (b.channels ≤ 64) × (b.cap ≤ 16777216) };
}

// Whether bytes are a slot's that may stand at place i. By the tag's number, not the slot that it stands for: each call tests 64 of
// them, and an empty one's numbers are not read (docs/PERFORMANCE.md). A filled one is open or closed, has its remote number and no
// fault: its tag is 3 modulo 4, from 8 to 23.
fn row_fine(p: &[u8], i: usize, within: Bounds) -> bool
    requires { slot_len ≤ length p.now }
    ensures { result ≡ row_fine within.0 within.1 i p.now }
{
    let tag = p[TAG_AT];
    if tag % 4 == 3 {
        if tag < 8 || tag > 23 || i >= within.channels {
            return false;
        }
        return slot_receive::is_sound(slot_of(p), within.cap);
    }
    // 0 is as a slot is left by making a state and by closing a channel.
    tag == 0 || tag % 2 == 0 && is_tag(tag)
}

fn row_at_fine(state: &[u8], i: usize, within: Bounds) -> bool
    requires { (i < 64) × (state_len ≤ length state.now) }
    ensures { result ≡ row_fine within.0 within.1 i (part state.now (header_len + i * slot_len) slot_len) }
{
    let at = HEADER_LEN + i * SLOT_LEN;
    let end = at + SLOT_LEN;
    row_fine(&state[at..end], i, within)
}

// Whether the slots from place `from` up to `end` are each a slot that may stand at its place. A `for` here and below: `all`
// would take two clauses on its closure for these few lines, and say no more.
fn rows_fine(state: &[u8], from: usize, end: usize, within: Bounds) -> bool
    requires { (from ≤ end) × (end ≤ 64) × (state_len ≤ length state.now) }
    ensures { result ≡ rows_fine within.0 within.1 from (end - from) (drop (header_len + from * slot_len) state.now) }
{
    for i in from..end {
        if !row_at_fine(state, i, within) {
            return false;
        }
    }
    true
}

// Whether the 64 slots are each a slot that may stand at its place. In two parts: in the first the loop's bound already says
// that the place is below channels, so that the compiler leaves that test of a filled slot out.
fn slots_fine(state: &[u8], within: Bounds) -> bool
    requires { state_len ≤ length state.now }
    ensures { result ≡ rows_fine within.0 within.1 0 64 (drop header_len state.now) }
{
    let channels = within.channels;
    rows_fine(state, 0, channels, within) && rows_fine(state, channels, 64, within)
}

#[tactic(auto, unfolding(crate::specs::Whole::queued_fine))]
fn queued_fine(q: QueuedOpen, channels: usize, payload: usize) -> bool
    ensures { result ≡ queued_fine channels payload q }
{
    q.length <= payload && q.share < channels
}

// Whether the first n queued opens may be ones.
fn queue_fine(state: &[u8], n: usize, channels: usize, payload: usize) -> bool
    requires { (n ≤ 64) × (state_len ≤ length state.now) }
    ensures { result ≡ queue_fine channels payload (take n (state_of state.now).queue) }
{
    for i in 0..n {
        let q = queued_at(state, i);
        if !queued_fine(q, channels, payload) {
            return false;
        }
    }
    true
}

#[tactic(auto, unfolding(crate::specs::Whole::header_fine))]
fn header_fine(h: Header) -> bool
    ensures { result ≡ header_fine h }
{
    let negotiated = h.negotiated;
    negotiated.config.within_limits()
        && negotiated.max_payload <= Packet::MAX_PAYLOAD
        && negotiated.protocol_version <= ADB_VERSION
        && h.next_local != 0
        && h.queued <= negotiated.config.channels
}

fn pending_fine(state: &[u8], h: Header) -> bool
    requires { (h.negotiated.config.channels ≤ 64) × (state_len ≤ length state.now) }
    ensures { result ≡ pending_fine h (filled_at (state_of state.now).slots h.pending.slot) }
{
    if h.pending.what.is_ours() {
        let place = h.pending.slot;
        return place < h.negotiated.config.channels && !slot_at(state, place).filled;
    }
    true
}

// Whether an offer, if one stands, may be a queued open more.
fn offer_fine(state: &[u8], h: Header) -> bool
    requires { (h.negotiated.config.channels ≤ 64) × (state_len ≤ length state.now) }
    ensures { result ≡ offer_fine h (state_of state.now).queue }
{
    let config = h.negotiated.config;
    if h.pending.what.is_offer() {
        let place = h.queued;
        return place < config.channels
            && queued_fine(
                queued_at(state, place),
                config.channels,
                config.max_payload as usize,
            );
    }
    true
}

// Whether those that are queued, and an offer, may be queued opens.
fn opens_fine(state: &[u8], h: Header) -> bool
    requires { HeaderOk h × (state_len ≤ length state.now) }
    ensures { result ≡ opens_fine h (state_of state.now).queue }
{
    let config = h.negotiated.config;
    queue_fine(
        state,
        h.queued,
        config.channels,
        config.max_payload as usize,
    ) && offer_fine(state, h)
}

// Whether lent bytes are a whole state; all else is refused by 13.
pub fn is_whole(state: &[u8]) -> bool
    ensures { result ≡ is_whole state.now }
{
    if state.len() < STATE_LEN || state[56] > 1 || state[57] > 2 {
        return false;
    }
    let h = header_of(state);
    header_fine(h) && rest_whole(state, h)
}

// Slots, the pending open, the queue and an offer, once the header is fine.
fn rest_whole(state: &[u8], h: Header) -> bool
    requires { HeaderOk h × (state_len ≤ length state.now) }
    ensures { result ≡ rest_whole h state.now }
{
    let config = h.negotiated.config;
    let within = Bounds {
        channels: config.channels,
        cap: config.rx_cap(),
    };
    slots_fine(state, within) && pending_fine(state, h) && opens_fine(state, h)
}
