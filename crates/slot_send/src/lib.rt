// What an OKAY and a WRTE of ours do to a channel's numbers: credit, budget, leave for the next WRTE. The policy goes beside the slot, here
// and in `slot_receive`: it follows from the connection's limits and is the same for all slots.
#![tactic(auto)]

ghost use Rattle.std.specs.Prelude.{◌≡◌, min, pos};
ghost use Rattle.slot.specs.Slot.{opened_of, ready_of, budget_of, leave_of, spent_of, refunded_of, reserved_of};

use config::negotiated::RxPolicy;
use credit::{CreditFault, parse_ready_credit};
use slot::ids::RemoteId;
use slot::{ChannelSlot, ChannelState, Spending};

// The OKAY that answers our OPEN.
pub fn accept_open_ready(
    slot: ChannelSlot,
    remote: RemoteId,
    payload: &[u8],
    policy: RxPolicy,
) -> Result<ChannelSlot, CreditFault>
    ensures { result ≡ opened_of slot remote payload.now policy }
{
    let opened = slot.with_remote(remote).with_state(ChannelState::Open);
    if policy.delayed {
        let credit = parse_ready_credit(payload)?;
        return Ok(opened.with_sending(slot.wrte_acked, i64::from(credit)));
    }
    Ok(opened)
}

// A later OKAY: credit, or leave for the next WRTE.
pub fn apply_ready(
    slot: ChannelSlot,
    payload: &[u8],
    policy: RxPolicy,
) -> Result<ChannelSlot, CreditFault>
    ensures { result ≡ ready_of slot payload.now policy }
{
    let budget = slot.send_budget;
    if policy.delayed {
        let credit = parse_ready_credit(payload)?;
        return Ok(slot.with_sending(
            slot.wrte_acked,
            saturate::sat_add(budget, i64::from(credit)),
        ));
    }
    Ok(slot.with_sending(true, budget))
}

// How many bytes may be sent now.
#[tactic(auto, unfolding(slot::specs::Slot::budget_of, slot::specs::Slot::some_len))]
pub fn budget(slot: ChannelSlot, policy: RxPolicy) -> Option<usize>
    ensures { result ≡ budget_of slot policy }
{
    if policy.delayed {
        let n = saturate::positive(slot.send_budget);
        return (n != 0).then_some(n);
    }
    slot.wrte_acked.then_some(usize::MAX)
}

// How many bytes a WRTE may have now: no more than the budget, or, where there is one, any number.
#[tactic(auto, unfolding(slot::specs::Slot::leave_of, slot::specs::Slot::leave_by))]
pub fn leave(slot: ChannelSlot, policy: RxPolicy, spending: Spending) -> Option<usize>
    ensures { result ≡ leave_of spending slot policy }
{
    let most = budget(slot, policy)?;
    match spending {
        Spending::Within => Some(most),
        Spending::Beyond => Some(usize::MAX),
    }
}

// n bytes were sent.
pub fn spend(slot: ChannelSlot, n: usize, policy: RxPolicy) -> ChannelSlot
    ensures { result ≡ spent_of slot policy n }
{
    let budget = slot.send_budget;
    if policy.delayed {
        return slot.with_sending(slot.wrte_acked, saturate::sat_add(budget, 0 - credit_of(n)));
    }
    slot.with_sending(false, budget)
}

// n bytes that were reserved were not sent.
pub fn refund(slot: ChannelSlot, n: usize, policy: RxPolicy) -> ChannelSlot
    ensures { result ≡ refunded_of slot policy n }
{
    let budget = slot.send_budget;
    if policy.delayed {
        return slot.with_sending(slot.wrte_acked, saturate::sat_add(budget, credit_of(n)));
    }
    slot.with_sending(true, budget)
}

// Bytes to send, at most `want`, taken off the budget.
pub fn try_reserve_send(
    slot: ChannelSlot,
    want: usize,
    policy: RxPolicy,
) -> Option<(ChannelSlot, usize)>
    ensures { result ≡ reserved_of slot policy want }
{
    let most = budget(slot, policy)?;
    let n = most.min(want);
    Some((spend(slot, n, policy), n))
}

// A length as a credit.
fn credit_of(n: usize) -> i64
    ensures { result ≡ pos (min n 9223372036854775807) }
{
    i64::try_from(n).unwrap_or(i64::MAX)
}
