// Slots where they lie in the caller's storage: one lent by mutable reference, and a lent run of them.
#![tactic(auto)]

ghost use Rattle.std.specs.Prelude.{◌≡◌};
ghost use Rattle.slot.specs.Slot.{closed_slot, spent_of};
ghost use Rattle.in_place.specs.InPlace.{filled_in};

use config::negotiated::RxPolicy;
use slot::ChannelSlot;

// Closes the slot where it lies.
pub fn apply_close(slot: &mut ChannelSlot)
    ensures { slot.new ≡ closed_slot slot.old }
{
    *slot = slot.apply_close();
}

// Spends n bytes of the slot's budget where it lies.
pub fn spend(slot: &mut ChannelSlot, n: usize, policy: RxPolicy)
    ensures { slot.new ≡ spent_of slot.old policy n }
{
    *slot = slot_send::spend(*slot, n, policy);
}

// The two on a slot by value: it is lent to each, and handed back as they left it.
pub fn spend_and_close(slot: ChannelSlot, n: usize, policy: RxPolicy) -> ChannelSlot
    ensures { result ≡ closed_slot (spent_of slot policy n) }
{
    let mut held = slot;
    spend(&mut held, n, policy);
    apply_close(&mut held);
    held
}

// Slots of the run that hold a channel.
pub fn in_use(slots: &[ChannelSlot]) -> usize
    ensures { result ≡ filled_in slots.now }
{
    slots.iter().filter(|slot| slot.filled).count()
}

// A whole table.
pub type Slots = [ChannelSlot; 64];

// The count of 64 slots by value, which are lent for it.
pub fn in_use_of(slots: Slots) -> usize
    ensures { result ≡ filled_in slots }
{
    in_use(&slots)
}
