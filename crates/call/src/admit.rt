// What comes ahead of every call's steps.
ghost use Rattle.std.specs.Prelude.{◌≡◌, ◌≤◌, length};
ghost use Rattle.state.specs.State.{state_len, state_of};
ghost use Rattle.connection.specs.declared.Answer.TheVariants.{Refused};
ghost use Rattle.connection.specs.Calls.{dropped};
ghost use Rattle.call.specs.Promise.{admitted, admitted_out, found_in};

use crate::Reply;
use connection::{Answer, Refusal};
use slot::ChannelSlot;
use state::{Header, Pending, PendingOpen, header_of, slot_at};
use state_whole::is_whole;
use table::{ChannelId, has_local};

// Refusals 13 and 8, by the stores' lengths.
pub fn admit(state: &[u8], rx: usize, store: usize) -> Result<Header, Refusal>
    ensures { result ≡ admitted state.now rx store }
{
    if is_whole(state) {
        let h = header_of(state);
        if h.negotiated.config.stores_fit(rx, store) {
            return Ok(h);
        }
        return Err(Refusal::StoreShort);
    }
    Err(Refusal::BrokenState)
}

// And 9 for 56 bytes, by the outgoing buffer's length, where a call is lent one.
pub fn admit_out(state: &[u8], rx: usize, store: usize, out: usize) -> Result<Header, Refusal>
    ensures { result ≡ admitted_out state.now rx store out }
{
    let h = admit(state, rx, store)?;
    if out < 56 {
        return Err(Refusal::OutShort);
    }
    Ok(h)
}

// Nothing is pending any more: neither an open of ours nor an offer.
pub fn drop_pending(h: Header) -> Header
    ensures { result ≡ dropped h }
{
    Header {
        pending: PendingOpen {
            what: Pending::Nothing,
            ..h.pending
        },
        ..h
    }
}

// The slot of a channel, if it is in the table: its place is below n, filled, and has its number.
pub fn get(state: &[u8], n: usize, ch: ChannelId) -> Option<ChannelSlot>
    requires { (n ≤ 64) × (state_len ≤ length state.now) }
    ensures { result ≡ found_in n (state_of state.now).slots ch }
{
    if ch.slot < n {
        let s = slot_at(state, ch.slot);
        if has_local(s, ch.local) {
            return Some(s);
        }
        return None;
    }
    None
}

// A refusal that changes nothing. The calls match on `admit`: `?` would need a Reply as the error, which has its own used and written.
pub fn refused(refusal: Refusal) -> Reply
    ensures { result ≡ record { answer = Refused refusal; used = 0; written = 0 } }
{
    Reply {
        answer: Answer::Refused(refusal),
        used: 0,
        written: 0,
    }
}
