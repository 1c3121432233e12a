// What a packet is to a device's end, before the calls that it shares with the host's end are handed it: an OPEN is taken or refused by
// name, what names no open stream is ignored, and all else passes.
#![tactic(auto)]

ghost use Rattle.std.specs.Prelude.{◌≡◌, ◌≤◌, length};
ghost use Rattle.protocol.specs.Message.{message_size};
ghost use Rattle.state.specs.State.{state_len, state_of};
ghost use Rattle.device_meets.specs.Meets.{fits_mode, open_verdict, is_stream, ignored, unless_stream, by_command, meets, MeetRoom};

use protocol::command::Command;
use protocol::packet::Packet;
use slot::ids::{LocalId, RemoteId};
use slot::is_closed;
use state::{Header, header_of, slot_at};
use table::{Want, place_below};

// What is done with a packet that does not pass.
#[derive(Clone, Copy)]
pub enum Verdict {
    // It is used, and nothing else.
    Ignore,
    // An OPEN is answered by a CLSE that leaves our number out.
    Refuse(RemoteId),
    // An OPEN is taken, if a slot is empty: its number, its credit, and where the name that it asks for begins in the table.
    Take(RemoteId, u32, usize),
}

// The bytes that such a packet uses, and what is done.
#[derive(Clone, Copy)]
pub struct Met {
    pub used: usize,
    pub verdict: Verdict,
}

// Whether an OPEN's credit fits the mode: it is not 0 exactly where acknowledgement is delayed.
#[tactic(auto, unfolding(crate::specs::Meets::fits_mode))]
fn fits_mode(delayed: bool, credit: u32) -> bool
    ensures { result ≡ fits_mode delayed credit }
{
    if delayed {
        return credit != 0;
    }
    credit == 0
}

// What is done with an OPEN.
#[tactic(auto, unfolding(crate::specs::Meets::open_verdict, crate::specs::Meets::by_name))]
fn open_verdict(
    names: &[u8],
    delayed: bool,
    remote: RemoteId,
    credit: u32,
    destination: &[u8],
) -> Verdict
    ensures { result ≡ open_verdict names.now delayed remote credit destination.now }
{
    if remote.0 == 0 {
        return Verdict::Ignore;
    }
    if fits_mode(delayed, credit) {
        return match names::find(names, names::asked(destination)) {
            Some(place) => Verdict::Take(remote, credit, place),
            None => Verdict::Refuse(remote),
        };
    }
    Verdict::Refuse(remote)
}

// Whether a number of ours names an open stream. 0 names none.
#[tactic(auto, unfolding(crate::specs::Meets::is_stream, crate::specs::Meets::is_live_at))]
fn is_stream(state: &[u8], channels: usize, local: LocalId) -> bool
    requires { (channels ≤ 64) × (state_len ≤ length state.now) }
    ensures { result ≡ is_stream channels (state_of state.now).slots local }
{
    if local.0 == 0 {
        return false;
    }
    match place_below(state, channels, Want::Local(local)) {
        Some(i) => !is_closed(slot_at(state, i).state),
        None => false,
    }
}

fn ignored(used: usize) -> Option<Met>
    ensures { result ≡ ignored used }
{
    Some(Met {
        used,
        verdict: Verdict::Ignore,
    })
}

// A packet of an open stream passes.
#[tactic(auto, unfolding(crate::specs::Meets::unless_stream))]
fn unless_stream(state: &[u8], channels: usize, packet: Packet) -> Option<Met>
    requires { (channels ≤ 64) × (state_len ≤ length state.now) × (packet.data_length ≤ 1_048_576) }
    ensures { result ≡ unless_stream channels (state_of state.now).slots packet }
{
    if is_stream(state, channels, LocalId(packet.arg1)) {
        return None;
    }
    ignored(packet.frame_len())
}

// A packet, by its command.
#[tactic(auto, unfolding(crate::specs::Meets::by_command, crate::specs::Meets::met_as))]
fn by_command(state: &[u8], names: &[u8], h: Header, packet: Packet, payload: &[u8]) -> Option<Met>
    requires { MeetRoom state.now h × (packet.data_length ≤ 1_048_576) }
    ensures { result ≡ by_command h (state_of state.now).slots names.now packet payload.now }
{
    let n = h.negotiated;
    let channels = n.config.channels;
    match packet.command {
        Command::Open => {
            let remote = RemoteId(packet.arg0);
            let verdict = open_verdict(names, n.delayed_ack, remote, packet.arg1, payload);
            let used = packet.frame_len();
            Some(Met { used, verdict })
        }
        Command::Connect => ignored(packet.frame_len()),
        Command::Ready => unless_stream(state, channels, packet),
        Command::Close => unless_stream(state, channels, packet),
        Command::Write => unless_stream(state, channels, packet),
        Command::Sync => None,
        Command::Auth => None,
        Command::StartTls => None,
    }
}

// What a device's end does itself with the packet that received bytes begin with; none where they pass.
#[tactic(auto, unfolding(crate::specs::Meets::meets, crate::specs::Meets::met_by))]
pub fn meets(state: &[u8], names: &[u8], received: &[u8], h: Header) -> Option<Met>
    requires { MeetRoom state.now h }
    ensures { result ≡ meets h (state_of state.now).slots names.now received.now }
{
    match Packet::decode(received, h.negotiated.config.max_payload) {
        Ok(Some(packet)) => by_command(state, names, h, packet, packet.payload_in(received)),
        Ok(None) => None,
        Err(_) => None,
    }
}
