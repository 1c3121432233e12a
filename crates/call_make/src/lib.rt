// A connection's state, laid out in the bytes that its caller lends.
#![tactic(auto)]

ghost use Rattle.std.specs.Prelude.{◌≡◌, ◌≤◌, length};
ghost use Rattle.le.specs.Le.{put};
ghost use Rattle.connection.specs.Calls.{fresh};
ghost use Rattle.call_make.specs.Make.{empty_slots, empty_queue, make_in, make_from, Makes};
ghost use Rattle.state.specs.State.{header_len, none_queued, queue_at, state_len};

use config::ConnectionConfig;
use config::negotiated::Negotiated;
use connection::Refusal;
use features::has_feature;
use slot::ChannelSlot;
use state::{Header, PendingOpen, QueuedOpen, STATE_LEN, put_header, put_queued, put_slot};

// 64 slots with no channel. A loop over places, here and for the queue: chunks of the bytes would go past `put_slot`, whose laws say the
// layout, and one function for both would ask its laws of a closure.
fn clear_slots(state: &mut [u8])
    requires { state_len ≤ length state.old }
    ensures { state.new ≡ put state.old header_len (empty_slots 64) }
{
    for i in 0..64 {
        put_slot(state, i, ChannelSlot::empty());
    }
}

#[tactic(auto, unfolding(state::specs::State::none_queued))]
fn none_queued() -> QueuedOpen
    ensures { result ≡ none_queued }
{
    QueuedOpen::default()
}

// 64 places where no open is queued.
fn clear_queue(state: &mut [u8])
    requires { state_len ≤ length state.old }
    ensures { state.new ≡ put state.old queue_at (empty_queue 64) }
{
    for i in 0..64 {
        put_queued(state, i, none_queued());
    }
}

// The header of a connection with no channel: the first one gets number 1.
#[tactic(auto, unfolding(connection::specs::Calls::fresh))]
fn fresh_header(negotiated: Negotiated) -> Header
    ensures { result ≡ (fresh negotiated).header }
{
    Header {
        negotiated,
        next_local: 1,
        pending: PendingOpen::default(),
        queued: 0,
    }
}

// A fresh state, from the limits, the version and the maximum payload in the device's CNXN, and whether the host and the
// device list delayed acknowledgement.
pub fn make(
    state: &mut [u8],
    config: ConnectionConfig,
    version: u32,
    max_payload: u32,
    host_delayed_ack: bool,
    device_delayed_ack: bool,
) -> Result<(), Refusal>
    ensures { Makes (make_in config version max_payload host_delayed_ack device_delayed_ack state.old) result
        state.new }
{
    if state.len() < STATE_LEN {
        return Err(Refusal::StoreShort);
    }
    if config.within_limits() {
        let n = Negotiated::new(
            host_delayed_ack,
            device_delayed_ack,
            version,
            max_payload,
            config,
        );
        clear_slots(state);
        clear_queue(state);
        put_header(state, fresh_header(n));
        return Ok(());
    }
    Err(Refusal::BadConfig)
}

// The same, where the payload of the device's CNXN, its identity text, says whether it lists delayed acknowledgement.
pub fn make_from(
    state: &mut [u8],
    config: ConnectionConfig,
    version: u32,
    max_payload: u32,
    host_delayed_ack: bool,
    identity: &[u8],
) -> Result<(), Refusal>
    ensures { Makes (make_from config version max_payload host_delayed_ack identity.now state.old) result
        state.new }
{
    let device_delayed_ack = has_feature(identity, b"delayed_ack");
    make(
        state,
        config,
        version,
        max_payload,
        host_delayed_ack,
        device_delayed_ack,
    )
}
