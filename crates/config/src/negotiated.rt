// What the two ends agreed on.
ghost use Rattle.std.specs.Prelude.{◌≡◌};
ghost use Rattle.checksum.specs.Checksum.{policy_for};
ghost use Rattle.config.specs.Config.{Within};
ghost use Rattle.config.specs.Negotiated.{both, negotiated_of, policy_of, offered_credit};

use crate::ConnectionConfig;
use checksum::Checksum;
use protocol::constant::ADB_VERSION;
use protocol::packet::Packet;

// How received bytes are acknowledged and bounded, for every channel alike.
#[derive(Clone, Copy)]
pub struct RxPolicy {
    // Credit is given back as bytes are read, and not one OKAY for each WRTE. A flag beside numbers: the watermark is
    // set in both modes, public promises name it, and an enum of two modes would leave it out of one.
    pub delayed: bool,
    pub rx_cap: usize,
    pub watermark: usize,
}

#[derive(Clone, Copy)]
pub struct Negotiated {
    // Longest payload that the device takes.
    pub max_payload: u32,
    pub protocol_version: u32,
    pub config: ConnectionConfig,
    pub delayed_ack: bool,
}

impl Negotiated {
    // From the device's CNXN, whose arguments are its version and its maximum payload. They come one by one, from its frame or from C.
    pub fn new(
        host_delayed_ack: bool,
        device_delayed_ack: bool,
        arg0: u32,
        arg1: u32,
        config: ConnectionConfig,
    ) -> Negotiated
        ensures { result ≡ negotiated_of host_delayed_ack device_delayed_ack arg0 arg1 config }
    {
        Negotiated {
            max_payload: arg1.min(Packet::MAX_PAYLOAD),
            protocol_version: arg0.min(ADB_VERSION),
            config,
            delayed_ack: host_delayed_ack && device_delayed_ack,
        }
    }

    #[tactic(auto, unfolding(crate::specs::Negotiated::policy_of))]
    pub fn rx_policy(self) -> RxPolicy
        requires { Within self.config }
        ensures { result ≡ policy_of self }
    {
        RxPolicy {
            delayed: self.delayed_ack,
            rx_cap: self.config.rx_cap(),
            watermark: self.config.rx_watermark(),
        }
    }

    pub fn checksum(self) -> Checksum
        ensures { result ≡ policy_for self.protocol_version }
    {
        Checksum::for_version(self.protocol_version)
    }

    // What an OPEN carries in arg1: the credit, or 0 where acknowledgements are not delayed.
    #[tactic(auto, unfolding(crate::specs::Negotiated::offered_credit))]
    pub fn advertised_credit(self) -> u32
        requires { Within self.config }
        ensures { result ≡ offered_credit self }
    {
        if self.delayed_ack {
            return self.config.advertised_ack_bytes();
        }
        0
    }
}
