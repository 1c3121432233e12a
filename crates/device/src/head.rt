// The bytes ahead of the connection's state: whether the host's CNXN came, and our identity text.
ghost use Rattle.std.specs.Prelude.{◌≡◌, ◌≤◌, true, length};
ghost use Rattle.device.specs.Device.{inner_at, inner_of, is_connected, text_len, text_in, head_fine, device_admitted};

use call::admit::admit_out;
use connection::Refusal;
use state::{Header, STATE_LEN};

// The longest identity text.
pub const MAX_TEXT: usize = 4096;
// Where the text's length lies, behind the byte that says whether the CNXN came.
pub const TEXT_LEN_AT: usize = 1;
// Where the text lies.
pub const TEXT_AT: usize = TEXT_LEN_AT + 4;
// Where the connection's state begins.
pub const INNER_AT: usize = TEXT_AT + MAX_TEXT;

pub const DEVICE_LEN: usize = INNER_AT + STATE_LEN;

// Whether the host's CNXN came.
#[tactic(auto, unfolding(crate::specs::Device::is_connected))]
pub fn is_connected(state: &[u8]) -> bool
    requires { inner_at ≤ length state.now }
    ensures { result ≡ is_connected state.now }
{
    state[0] == 1
}

#[tactic(auto, unfolding(crate::specs::Device::text_len))]
fn text_len(state: &[u8]) -> usize
    requires { inner_at ≤ length state.now }
    ensures { result ≡ text_len state.now }
{
    le::get::<u32>(state, TEXT_LEN_AT) as usize
}

// Whether these bytes may be a device's end: a flag, and a text within its place.
#[tactic(auto, unfolding(crate::specs::Device::head_fine))]
pub fn head_fine(state: &[u8]) -> bool
    ensures { result ≡ head_fine state.now }
{
    state.len() >= INNER_AT && state[0] <= 1 && text_len(state) <= MAX_TEXT
}

// Our identity text.
#[tactic(auto, unfolding(crate::specs::Device::text_in))]
pub fn text(state: &[u8]) -> &[u8]
    requires { head_fine state.now ≡ true }
    ensures { result.now ≡ text_in state.now }
{
    &state[TEXT_AT..TEXT_AT + text_len(state)]
}

// The refusals ahead of every call that is lent an outgoing buffer: 13, for either part of the state, 8 and 9. The header is the
// connection's.
#[tactic(auto, unfolding(crate::specs::Device::device_admitted))]
pub fn admit(state: &[u8], rx: usize, store: usize, out: usize) -> Result<Header, Refusal>
    ensures { result ≡ device_admitted state.now rx store out }
{
    if head_fine(state) {
        return admit_out(&state[INNER_AT..], rx, store, out);
    }
    Err(Refusal::BrokenState)
}
