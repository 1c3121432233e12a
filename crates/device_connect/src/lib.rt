// The host's first CNXN: a device's end answers it with its own, and its connection begins anew with what both agree on.
#![tactic(auto)]

ghost use Rattle.std.specs.Prelude.{◌≡◌, ◌+◌, ◌≤◌, true, length};
ghost use Rattle.protocol.specs.Message.{message_size};
ghost use Rattle.protocol.specs.Packet.{Puts};
ghost use Rattle.device.specs.Device.{head_fine};
ghost use Rattle.device_connect.specs.Connect.{cnxn_bytes, BeginsAnew, ConnectDoes, ConnectRoom};

use call::admit::refused;
use call_make::make;
use checksum::Checksum;
use config::ConnectionConfig;
use config::negotiated::Negotiated;
use connection::Refusal;
use device::head::{INNER_AT, text};
use device::judge::plain;
use device::{DeviceAnswer, DeviceReply};
use features::has_feature;
use protocol::command::Command;
use protocol::constant::ADB_VERSION;
use protocol::packet::Packet;

// The name of the feature, as both identity texts list it.
const DELAYED_ACK: &[u8] = b"delayed_ack";

// Our CNXN, with its check summed.
fn put_cnxn(out: &mut [u8], max_payload: u32, text: &[u8]) -> usize
    requires { (length text.now ≤ 4096) × (message_size + length text.now ≤ length out.old) }
    ensures { Puts out.old 0 (cnxn_bytes max_payload text.now) result out.new }
{
    Packet::put_at(
        out,
        0,
        Command::Connect,
        ADB_VERSION,
        max_payload,
        text,
        Checksum::Compute,
    )
}

// The flag is set, and the connection made anew.
fn begin(state: &mut [u8], config: ConnectionConfig, packet: Packet, ours: bool, theirs: bool)
    requires { head_fine state.old ≡ true }
    ensures { BeginsAnew config packet ours theirs state.old state.new }
{
    state[0] = 1;
    let inner = &mut state[INNER_AT..];
    let _made = make(inner, config, packet.arg0, packet.arg1, ours, theirs);
}

// Ours is written and the connection begins; 9, and nothing changes, where ours does not fit.
pub fn connect(
    state: &mut [u8],
    out: &mut [u8],
    config: ConnectionConfig,
    packet: Packet,
    identity: &[u8],
) -> DeviceReply
    requires { ConnectRoom state.old packet }
    ensures { ConnectDoes state.old out.old config packet identity.now result state.new out.new }
{
    let text = text(state);
    if out.len() < Packet::MESSAGE_SIZE + text.len() {
        return plain(refused(Refusal::OutShort));
    }
    let written = put_cnxn(out, config.max_payload, text);
    let ours = has_feature(text, DELAYED_ACK);
    let theirs = has_feature(identity, DELAYED_ACK);
    begin(state, config, packet, ours, theirs);
    let negotiated = Negotiated::new(ours, theirs, packet.arg0, packet.arg1, config);
    DeviceReply {
        answer: DeviceAnswer::Connected(negotiated),
        used: packet.frame_len(),
        written,
    }
}
