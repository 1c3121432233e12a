// What a WRTE of the device's and a read do to a channel's numbers: room, what is set aside, what is acknowledged. The bytes
// are `rx_store`'s.
// `as usize` widens a u32: std has no From for it, as usize may be narrower elsewhere. `as u32` narrows what is within
// a share: `try_from` would need an arm that never comes.
// A slot's numbers are sound (`SlotOk`) by what 13 tested, not by its type: it is read from lent bytes.
#![tactic(auto)]

ghost use Rattle.std.specs.Prelude.{◌≡◌, ◌≤◌};
ghost use Rattle.slot.specs.Slot.{held_of, acks_now, wrote_of, some_len, delivered_of, ack_len_of, is_ack, has_data, settled_some, settled_of};
ghost use Rattle.slot.specs.Slot.{take_len, took_of, taken_of, take_acks, total_with, slot_ok, SlotOk};

use config::negotiated::RxPolicy;
use slot::{ChannelFault, ChannelSlot, Settled, Taken, is_closed, is_opening};

#[tactic(auto, unfolding(slot::specs::Slot::some_len))]
fn some_len(len: usize) -> Option<usize>
    ensures { result ≡ some_len len }
{
    (len != 0).then_some(len)
}

// Buffered bytes that no read has acknowledged.
pub fn held(slot: ChannelSlot) -> usize
    requires { slot.settled ≤ slot.buffered }
    ensures { result ≡ held_of slot }
{
    slot.buffered as usize - slot.settled as usize
}

// Whether a WRTE that brings the held bytes to `held` is acknowledged at once.
#[tactic(auto, unfolding(slot::specs::Slot::acks_now))]
fn acks_now(slot: ChannelSlot, policy: RxPolicy, held: usize) -> bool
    ensures { result ≡ acks_now slot policy held }
{
    !policy.delayed && held < policy.watermark && slot.has_remote
}

// A WRTE of n bytes.
pub fn apply_write(slot: ChannelSlot, n: usize, policy: RxPolicy) -> Result<Settled, ChannelFault>
    requires { SlotOk slot policy.rx_cap }
    ensures { result ≡ wrote_of slot policy n }
{
    if is_opening(slot.state) {
        return Err(ChannelFault::UnexpectedCommand);
    }
    let held = held(slot);
    if policy.rx_cap - held < n {
        return Err(ChannelFault::RxOverflow);
    }
    let buffered = slot.buffered as usize;
    let head = rx_store::appended_head(2 * policy.rx_cap, slot.head as usize, buffered, n) as u32;
    let more = (buffered + n) as u32;
    if acks_now(slot, policy, held + n) {
        return Ok(Settled {
            slot: slot.with_numbers(0, slot.settled, head, more),
            ack: Some(n),
        });
    }
    let unacked = slot.unacked.saturating_add(n);
    Ok(Settled {
        slot: slot.with_numbers(unacked, slot.settled, head, more),
        ack: None,
    })
}

// The total of what the device was allowed, where an OKAY for k bytes is written: in delayed mode it carries them.
fn total_with(policy: RxPolicy, total: usize, k: usize) -> usize
    ensures { result ≡ total_with policy total k }
{
    if policy.delayed {
        return total.saturating_add(k);
    }
    total
}

// Bytes of a WRTE that went straight to the reader: they never were unacknowledged.
pub fn deliver(slot: ChannelSlot, taken: usize, policy: RxPolicy) -> Settled
    ensures { result ≡ delivered_of slot policy taken }
{
    if policy.delayed {
        if slot.has_remote {
            let total = total_with(policy, slot.acked_total, taken);
            return Settled {
                slot: slot.with_total(total),
                ack: some_len(taken),
            };
        }
        return Settled { slot, ack: None };
    }
    if slot.buffered as usize >= policy.watermark {
        return Settled { slot, ack: None };
    }
    if slot.has_remote {
        return Settled {
            slot: slot.with_numbers(0, slot.settled, slot.head, slot.buffered),
            ack: Some(slot.unacked),
        };
    }
    Settled { slot, ack: None }
}

// How many bytes to acknowledge where n are set aside and `remaining` stay.
fn ack_len(slot: ChannelSlot, n: usize, remaining: usize, policy: RxPolicy) -> Option<usize>
    ensures { result ≡ ack_len_of slot policy n remaining }
{
    if slot.unacked == 0 {
        return None;
    }
    if policy.delayed {
        return some_len(n.min(slot.unacked));
    }
    if remaining < policy.watermark {
        return Some(slot.unacked);
    }
    None
}

#[tactic(auto, unfolding(slot::specs::Slot::has_data))]
pub fn has_data(slot: ChannelSlot) -> bool
    ensures { result ≡ has_data slot }
{
    slot.has_remote && slot.buffered != 0
}

// Acknowledges what a read of `want` bytes is to take, and sets it aside.
#[tactic(auto, unfolding(slot::specs::Slot::settled_of))]
pub fn settle_take(slot: ChannelSlot, want: usize, policy: RxPolicy) -> Settled
    ensures { result ≡ settled_of slot policy want }
{
    if slot.has_remote && slot.settled == 0 {
        return settle_some(slot, want.min(slot.buffered as usize), policy);
    }
    Settled { slot, ack: None }
}

fn settle_some(slot: ChannelSlot, n: usize, policy: RxPolicy) -> Settled
    requires { n ≤ slot.buffered }
    ensures { result ≡ settled_some slot policy n }
{
    let ack = ack_len(slot, n, slot.buffered as usize - n, policy);
    match ack {
        None => Settled { slot, ack: None },
        Some(len) => {
            let total = total_with(policy, slot.acked_total, len);
            let rest = slot.with_numbers(slot.unacked - len, n as u32, slot.head, slot.buffered);
            Settled {
                slot: rest.with_total(total),
                ack: Some(len),
            }
        }
    }
}

// How many bytes a read into `room` bytes takes.
fn take_len(slot: ChannelSlot, room: usize) -> usize
    ensures { result ≡ take_len slot room }
{
    if slot.settled == 0 {
        return room.min(slot.buffered as usize);
    }
    room.min(slot.settled as usize)
}

// The slot after n of its buffered bytes were taken.
fn took(slot: ChannelSlot, n: usize, cap: usize) -> ChannelSlot
    requires { SlotOk slot cap × (n ≤ slot.buffered) }
    ensures { result ≡ took_of slot n }
{
    let set_aside = slot.settled as usize;
    let buffered = slot.buffered as usize;
    let settled = (set_aside - n.min(set_aside)) as u32;
    let head = rx_store::taken_head(slot.head as usize, buffered, n) as u32;
    slot.with_numbers(slot.unacked, settled, head, (buffered - n) as u32)
}

// What a read into `room` bytes finds, in numbers; `rx_store` hands the bytes over. `cap` is only for the `requires`: a clause
// can't name it otherwise.
pub fn take_buffered(slot: ChannelSlot, room: usize, cap: usize) -> Taken
    requires { SlotOk slot cap }
    ensures { result ≡ taken_of slot room }
{
    if has_data(slot) {
        let n = take_len(slot, room);
        return Ok(Some((took(slot, n, cap), n)));
    }
    if is_closed(slot.state) {
        return Err(slot.closed_error());
    }
    Ok(None)
}

// Whether a read of `want` bytes would acknowledge.
#[tactic(auto, unfolding(slot::specs::Slot::take_acks))]
pub fn take_acks(slot: ChannelSlot, want: usize, policy: RxPolicy) -> bool
    ensures { result ≡ take_acks slot policy want }
{
    if has_data(slot) && slot.settled == 0 {
        let buffered = slot.buffered as usize;
        let n = want.min(buffered);
        return ack_len(slot, n, buffered - n, policy).is_some();
    }
    false
}

// Whether the numbers of received bytes are within a channel's share.
pub fn is_sound(slot: ChannelSlot, cap: usize) -> bool
    requires { cap ≤ 16777216 }
    ensures { result ≡ slot_ok slot cap }
{
    let settled = slot.settled as usize;
    if settled > cap {
        return false;
    }
    // Held bytes: where less is buffered than settled, the difference wraps to more than any cap.
    let buffered = slot.buffered as usize;
    let held = buffered.wrapping_sub(settled);
    held <= cap && slot.head as usize <= 2 * cap - buffered
}
