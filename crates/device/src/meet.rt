// The packet that a call is handed, where a device's end meets it itself.
ghost use Rattle.std.specs.Prelude.{◌≡◌};
ghost use Rattle.device.specs.Device.{shown, met_in};
ghost use Rattle.device.specs.Promise.{MetRoom};

use crate::head::{INNER_AT, is_connected};
use device_meets::{Met, Verdict, meets};
use state::Header;

// What a step is handed of the received bytes: nothing where their packet is met here.
#[tactic(auto, unfolding(crate::specs::Device::shown))]
pub fn shown(received: &[u8], met: Option<Met>) -> &[u8]
    ensures { result.now ≡ shown received.now met }
{
    match met {
        Some(_) => &[],
        None => received,
    }
}

// What a read or a write meets: nothing is looked at before the host's CNXN came.
#[tactic(auto, unfolding(crate::specs::Device::met_in))]
pub fn met_in(state: &[u8], names: &[u8], received: &[u8], h: Header) -> Option<Met>
    requires { MetRoom state.now h }
    ensures { result ≡ met_in state.now names.now received.now h }
{
    if is_connected(state) {
        return meets(&state[INNER_AT..], names, received, h);
    }
    Some(Met {
        used: 0,
        verdict: Verdict::Ignore,
    })
}
