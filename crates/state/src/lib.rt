// The lent state, worked on in place: a header, 64 slots, 64 queued opens (docs/LAYOUT.md). It is a slice, not an array of its length:
// C lends any length, 13 answers for a shorter one, and these public functions take each state from STATE_LEN on. So with places below 64:
// a type for them would be narrower.
// The header is read and written by value; a slot or a queued open is read where it lies, and the one that changed is
// stored.
#![tactic(auto)]

ghost use Rattle.std.specs.Prelude.{◌≡◌, ◌+◌, ◌*◌, ◌≤◌, ◌<◌, length};
ghost use Rattle.le.specs.Le.{put};
ghost use Rattle.state.specs.State.{header_len, queued_len, slot_len, state_len, flag_of, flag_byte, state_of_tag, state_tag, failed_of_tag};
ghost use Rattle.state.specs.State.{failed_tag, slot_numbers, slot_counts, tag_of, slot_bytes, slot_of, queued_bytes, queued_of, header_sizes};
ghost use Rattle.state.specs.State.{header_words, header_tags, header_of, slot_at, queued_at, put_slot, put_queued, put_header};
ghost use Rattle.state.specs.State.{pending_of_tag, pending_tag, is_ours, is_offer};

use config::ConnectionConfig;
use config::negotiated::Negotiated;
use credit::CreditFault;
use slot::ids::{LocalId, RemoteId};
use slot::{ChannelFault, ChannelSlot, ChannelState};

// The header's length, and where the slots begin.
pub const HEADER_LEN: usize = 58;

// Where a slot's byte of flags and tags lies, behind its numbers.
pub const TAG_AT: usize = 44;

pub const SLOT_LEN: usize = TAG_AT + 1;
// Where the queued opens begin: behind the header and 64 slots.
pub const QUEUE_AT: usize = HEADER_LEN + 64 * SLOT_LEN;

pub const QUEUED_LEN: usize = 24;

pub const STATE_LEN: usize = QUEUE_AT + 64 * QUEUED_LEN;

// What stands between two calls: nothing; an open of ours, until its OKAY comes; an offer, an open of the device's that was
// taken off the queue and is not decided.
#[derive(Clone, Copy, Debug, Default, PartialEq, Eq)]
pub enum Pending {
    #[default]
    Nothing,
    Opening,
    Offer,
}

// The place and the number are those of the last open of ours. They stand beside `what`, and not in its cases: the bytes of all three come
// back as they were (the law `state-back`).
#[derive(Clone, Copy, Default)]
pub struct PendingOpen {
    pub what: Pending,
    pub slot: usize,
    pub local: LocalId,
}

impl Pending {
    // Whether an open of ours is pending.
    pub fn is_ours(self) -> bool
        ensures { result ≡ is_ours self }
    {
        self == Pending::Opening
    }

    // Whether an offer stands.
    pub fn is_offer(self) -> bool
        ensures { result ≡ is_offer self }
    {
        self == Pending::Offer
    }
}

#[derive(Clone, Copy)]
pub struct Header {
    pub negotiated: Negotiated,
    // The number that the next channel gets.
    pub next_local: u32,
    pub pending: PendingOpen,
    // How many opens of the device's are queued.
    pub queued: usize,
}

// An open of the device's that is queued until it is taken. Its destination lies at the start of its share of the open store.
#[derive(Clone, Copy, Default)]
pub struct QueuedOpen {
    pub remote: RemoteId,
    pub credit: u32,
    pub share: usize,
    pub length: usize,
}

fn flag(b: u8) -> bool
    ensures { result ≡ flag_of b }
{
    b == 1
}

fn flag_byte(f: bool) -> u8
    ensures { (result ≡ flag_byte f) × (result ≤ 1) }
{
    u8::from(f)
}

// The readers of tags are functions, not From: a tag out of range, which 13 refuses, reads as the last case, and TryFrom would need an arm
// that never comes.
fn state_of(b: u8) -> ChannelState
    ensures { result ≡ state_of_tag b }
{
    match b {
        0 => ChannelState::Opening,
        1 => ChannelState::Open,
        _ => ChannelState::Closed,
    }
}

// A function, not From: neither the type nor u8 is this crate's. So `failed_tag`.
fn state_tag(state: ChannelState) -> u8
    ensures { (result ≡ state_tag state) × (result ≤ 2) }
{
    match state {
        ChannelState::Opening => 0,
        ChannelState::Open => 1,
        ChannelState::Closed => 2,
    }
}

fn failed_of(b: u8) -> Option<ChannelFault>
    ensures { result ≡ failed_of_tag b }
{
    match b {
        0 => None,
        1 => Some(ChannelFault::RxOverflow),
        2 => Some(ChannelFault::BadCredit(CreditFault::Short)),
        3 => Some(ChannelFault::UnexpectedCommand),
        4 => Some(ChannelFault::BadCredit(CreditFault::Long)),
        _ => Some(ChannelFault::BadCredit(CreditFault::Negative)),
    }
}

fn credit_tag(fault: CreditFault) -> u8
    ensures { (result ≡ failed_tag (Some (ChannelFault.BadCredit fault))) × (result ≤ 5) }
{
    match fault {
        CreditFault::Short => 2,
        CreditFault::Long => 4,
        CreditFault::Negative => 5,
    }
}

fn fault_tag(fault: ChannelFault) -> u8
    ensures { (result ≡ failed_tag (Some fault)) × (result ≤ 5) }
{
    match fault {
        ChannelFault::RxOverflow => 1,
        ChannelFault::BadCredit(credit) => credit_tag(credit),
        ChannelFault::UnexpectedCommand => 3,
    }
}

fn failed_tag(failed: Option<ChannelFault>) -> u8
    ensures { (result ≡ failed_tag failed) × (result ≤ 5) }
{
    match failed {
        None => 0,
        Some(fault) => fault_tag(fault),
    }
}

fn pending_of(b: u8) -> Pending
    ensures { result ≡ pending_of_tag b }
{
    match b {
        0 => Pending::Nothing,
        1 => Pending::Opening,
        _ => Pending::Offer,
    }
}

impl From<Pending> for u8 {
    ghost from_gives = { λ what tag. tag ≡ pending_tag what };

    fn from(what: Pending) -> u8 {
        match what {
            Pending::Nothing => 0,
            Pending::Opening => 1,
            Pending::Offer => 2,
        }
    }
}

// The slot that bytes stand for.
pub fn slot_of(p: &[u8]) -> ChannelSlot
    requires { slot_len ≤ length p.now }
    ensures { result ≡ slot_of p.now }
{
    let tag = p[TAG_AT];
    ChannelSlot {
        filled: flag(tag % 2),
        local: LocalId(le::get(p, 0)),
        remote: RemoteId(le::get(p, 4)),
        has_remote: flag(tag / 2 % 2),
        state: state_of(tag / 2 / 2 / 2 % 4),
        wrte_acked: flag(tag / 2 / 2 % 2),
        send_budget: le::get(p, 8),
        unacked: le::get(p, 16),
        settled: le::get(p, 32),
        head: le::get(p, 36),
        buffered: le::get(p, 40),
        acked_total: le::get(p, 24),
        failed: failed_of(tag / 2 / 2 / 2 / 4),
    }
}

fn fill_numbers(p: &mut [u8], s: ChannelSlot)
    requires { slot_len ≤ length p.old }
    ensures { p.new ≡ put p.old 0 (slot_numbers s) }
{
    le::put(p, 0, s.local.0);
    le::put(p, 4, s.remote.0);
    le::put(p, 8, s.send_budget);
    le::put(p, 16, s.unacked);
    le::put(p, 24, s.acked_total);
}

fn fill_counts(p: &mut [u8], s: ChannelSlot)
    requires { slot_len ≤ length p.old }
    ensures { p.new ≡ put p.old 32 (slot_counts s) }
{
    le::put_all(p, 32, &[s.settled, s.head, s.buffered]);
}

fn tag_of(s: ChannelSlot) -> u8
    ensures { (result ≡ tag_of s) × (result ≤ 191) }
{
    let flags = flag_byte(s.filled) + 2 * flag_byte(s.has_remote) + 4 * flag_byte(s.wrte_acked);
    flags + 8 * state_tag(s.state) + 32 * failed_tag(s.failed)
}

fn fill_slot(p: &mut [u8], s: ChannelSlot)
    requires { slot_len ≤ length p.old }
    ensures { p.new ≡ put p.old 0 (slot_bytes s) }
{
    fill_numbers(p, s);
    fill_counts(p, s);
    le::put(p, TAG_AT, tag_of(s));
}

// The slot at place i.
pub fn slot_at(state: &[u8], i: usize) -> ChannelSlot
    requires { (i < 64) × (state_len ≤ length state.now) }
    ensures { result ≡ slot_at state.now i }
{
    let at = HEADER_LEN + i * SLOT_LEN;
    let end = at + SLOT_LEN;
    slot_of(&state[at..end])
}

pub fn put_slot(state: &mut [u8], i: usize, s: ChannelSlot)
    requires { (i < 64) × (state_len ≤ length state.old) }
    ensures { state.new ≡ put_slot state.old i s }
{
    let at = HEADER_LEN + i * SLOT_LEN;
    let end = at + SLOT_LEN;
    fill_slot(&mut state[at..end], s);
}

// Queued opens are read and stored as slots are. A trait over the two records would have as many members (place, length, reader, writer)
// as it spared lines.

// The queued open that bytes stand for.
fn queued_of(p: &[u8]) -> QueuedOpen
    requires { queued_len ≤ length p.now }
    ensures { result ≡ queued_of p.now }
{
    QueuedOpen {
        remote: RemoteId(le::get(p, 0)),
        credit: le::get(p, 4),
        share: le::get(p, 8),
        length: le::get(p, 16),
    }
}

fn fill_queued(p: &mut [u8], q: QueuedOpen)
    requires { queued_len ≤ length p.old }
    ensures { p.new ≡ put p.old 0 (queued_bytes q) }
{
    le::put(p, 0, q.remote.0);
    le::put(p, 4, q.credit);
    le::put(p, 8, q.share);
    le::put(p, 16, q.length);
}

// The queued open at place i.
pub fn queued_at(state: &[u8], i: usize) -> QueuedOpen
    requires { (i < 64) × (state_len ≤ length state.now) }
    ensures { result ≡ queued_at state.now i }
{
    let at = QUEUE_AT + i * QUEUED_LEN;
    let end = at + QUEUED_LEN;
    queued_of(&state[at..end])
}

pub fn put_queued(state: &mut [u8], i: usize, q: QueuedOpen)
    requires { (i < 64) × (state_len ≤ length state.old) }
    ensures { state.new ≡ put_queued state.old i q }
{
    let at = QUEUE_AT + i * QUEUED_LEN;
    let end = at + QUEUED_LEN;
    fill_queued(&mut state[at..end], q);
}

pub fn header_of(state: &[u8]) -> Header
    requires { header_len ≤ length state.now }
    ensures { result ≡ header_of state.now }
{
    let config = ConnectionConfig {
        channels: le::get(state, 0),
        max_payload: le::get(state, 32),
        max_rx_per_channel: le::get(state, 8),
        initial_ack_bytes: le::get(state, 36),
    };
    let negotiated = Negotiated {
        max_payload: le::get(state, 40),
        protocol_version: le::get(state, 44),
        config,
        delayed_ack: flag(state[56]),
    };
    let pending = PendingOpen {
        what: pending_of(state[57]),
        slot: le::get(state, 16),
        local: LocalId(le::get(state, 52)),
    };
    Header {
        negotiated,
        next_local: le::get(state, 48),
        pending,
        queued: le::get(state, 24),
    }
}

fn put_sizes(state: &mut [u8], h: Header)
    requires { header_len ≤ length state.old }
    ensures { state.new ≡ put state.old 0 (header_sizes h) }
{
    let config = h.negotiated.config;
    let sizes = [
        config.channels,
        config.max_rx_per_channel,
        h.pending.slot,
        h.queued,
    ];
    le::put_all(state, 0, &sizes);
}

fn put_words(state: &mut [u8], h: Header)
    requires { header_len ≤ length state.old }
    ensures { state.new ≡ put state.old 32 (header_words h) }
{
    let negotiated = h.negotiated;
    let words = [
        negotiated.config.max_payload,
        negotiated.config.initial_ack_bytes,
        negotiated.max_payload,
        negotiated.protocol_version,
        h.next_local,
        h.pending.local.0,
    ];
    le::put_all(state, 32, &words);
}

fn put_tags(state: &mut [u8], h: Header)
    requires { header_len ≤ length state.old }
    ensures { state.new ≡ put state.old 56 (header_tags h) }
{
    let tags = [
        flag_byte(h.negotiated.delayed_ack),
        u8::from(h.pending.what),
    ];
    le::put_all(state, 56, &tags);
}

pub fn put_header(state: &mut [u8], h: Header)
    requires { header_len ≤ length state.old }
    ensures { state.new ≡ put_header state.old h }
{
    put_sizes(state, h);
    put_words(state, h);
    put_tags(state, h);
}
