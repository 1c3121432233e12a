// One packet from the bytes that were received.
ghost use Rattle.std.specs.Prelude.{◌≡◌, ◌&&◌, eqb};
ghost use Rattle.protocol.specs.Packet.{decode_of};
ghost use Rattle.connection.specs.Calls.{received_by, fault_refusal, error_refusal, unless_fault};

use connection::{Answer, Refusal, Stop};
use protocol::packet::{DecodeError, Packet};
use slot::ChannelFault;
use slot::ids::LocalId;

// Waiting and refusals 1 to 3 use nothing; 4 uses the frame. Stop is a pair: a call takes it apart at once and hands both values to `ends`.
// Each refusal is named here, the one place: a From for Refusal would name the four again, and the bytes used would need a match more.
#[tactic(auto, unfolding(connection::specs::Calls::received_by))]
pub fn recv_pkt(received: &[u8], max_payload: u32) -> Result<Packet, Stop>
    ensures { result ≡ received_by (decode_of received.now max_payload) }
{
    match Packet::decode(received, max_payload) {
        Ok(Some(packet)) => Ok(packet),
        Ok(None) => Err((Answer::Waiting, 0)),
        Err(DecodeError::InvalidCommand(word)) => {
            let wide = u64::from(word);
            Err((Answer::Refused(Refusal::InvalidCommand(wide)), 0))
        }
        Err(DecodeError::InvalidMagic) => Err((Answer::Refused(Refusal::InvalidMagic), 0)),
        Err(DecodeError::PayloadTooLarge) => Err((Answer::Refused(Refusal::PayloadTooLarge), 0)),
        Err(DecodeError::InvalidChecksum { used }) => Err((
            Answer::Refused(Refusal::InvalidChecksum),
            used,
        )),
    }
}

// The answer, unless dispatching failed.
#[tactic(auto, unfolding(connection::specs::Calls::unless_fault))]
pub fn unless_fault(fault: Option<ChannelFault>, answer: Answer) -> Answer
    ensures { result ≡ unless_fault fault answer }
{
    match fault {
        None => answer,
        Some(why) => Answer::Refused(Refusal::from(why)),
    }
}

// Whether a packet passed a test on its command and names our number. The test's answer and not the packet: the definitions name the three
// tests (`is_ready`, `is_write`, `is_close`), and so do the callers.
pub fn is_own(test: bool, arg1: u32, local: LocalId) -> bool
    ensures { result ≡ (test && eqb arg1 local.0) }
{
    test && arg1 == local.0
}
