// A device's end, laid out in the bytes that its caller lends: it waits for the host's CNXN.
// `as u32` narrows a length that fits: `try_from` would need an arm that never comes.
#![tactic(auto)]

ghost use Rattle.std.specs.Prelude.{◌≡◌, ◌≤◌, length};
ghost use Rattle.call_make.specs.Make.{Makes};
ghost use Rattle.device_make.specs.Make.{HeadRoom, device_made, fits, head_made};

use config::ConnectionConfig;
use connection::Refusal;
use device::head::{DEVICE_LEN, INNER_AT, MAX_TEXT, TEXT_AT, TEXT_LEN_AT};
use protocol::constant::ADB_VERSION;

// Whether every limit is kept, the identity text's too.
#[tactic(auto, unfolding(crate::specs::Make::fits))]
fn fits(config: ConnectionConfig, text: usize) -> bool
    ensures { result ≡ fits config text }
{
    config.within_limits() && text <= MAX_TEXT
}

// No CNXN came; our identity text, behind its length.
fn put_head(head: &mut [u8], text: &[u8])
    requires { HeadRoom head.old text.now }
    ensures { head.new ≡ head_made text.now head.old }
{
    le::put(head, 0, 0u8);
    le::put(head, TEXT_LEN_AT, text.len() as u32);
    le::copy_at(head, TEXT_AT, text);
}

// Until the host's CNXN comes the connection is fresh, in the plain mode, with our own numbers.
pub fn make(state: &mut [u8], config: ConnectionConfig, text: &[u8]) -> Result<(), Refusal>
    ensures { Makes (device_made config text.now state.old) result state.new }
{
    if state.len() < DEVICE_LEN {
        return Err(Refusal::StoreShort);
    }
    if fits(config, text.len()) {
        let (head, inner) = state.split_at_mut(INNER_AT);
        put_head(head, text);
        let most = config.max_payload;
        let _made = call_make::make(inner, config, ADB_VERSION, most, false, false);
        return Ok(());
    }
    Err(Refusal::BadConfig)
}
