// A connection's resource limits, and what follows from them for each channel.
// `as usize` widens a u32: std has no From for it, as usize may be narrower elsewhere.
// `Within` is a fact that callers show, and no part of the type: limits come unchecked from lent bytes, and 7 and 13 answer for bad ones.
#![tactic(auto)]

pub mod negotiated;

ghost use Rattle.std.specs.Prelude.{◌≡◌};
ghost use Rattle.config.specs.Config.{within_limits, Within, cap_of, ceiling_of, watermark_of, opening_credit, rx_store_len, open_store_len, stores_fit};

use protocol::packet::Packet;

// Limits of one connection.
#[derive(Clone, Copy)]
pub struct ConnectionConfig {
    // Slots in the channel table.
    pub channels: usize,
    // Largest payload that is accepted from the device.
    pub max_payload: u32,
    // Most bytes buffered for one channel, before the floor of max_payload.
    pub max_rx_per_channel: usize,
    // Delayed-acknowledgement credit granted when a channel opens.
    pub initial_ack_bytes: u32,
}

impl ConnectionConfig {
    pub const MAX_CHANNELS: usize = 64;

    pub const MAX_RX_PER_CHANNEL: usize = 16_777_216;

    pub const MAX_INITIAL_ACK_BYTES: u32 = 2_147_483_647;

    // Whether every limit is kept (docs/SCOPE.md, 3).
    #[tactic(auto, unfolding(crate::specs::Config::within_limits))]
    pub fn within_limits(self) -> bool
        ensures { result ≡ within_limits self }
    {
        1 <= self.channels
            && self.channels <= ConnectionConfig::MAX_CHANNELS
            && 1 <= self.max_payload
            && self.max_payload <= Packet::MAX_PAYLOAD
            && self.max_rx_per_channel <= ConnectionConfig::MAX_RX_PER_CHANNEL
            && self.initial_ack_bytes <= ConnectionConfig::MAX_INITIAL_ACK_BYTES
    }

    // Bytes that one channel may hold unread: at least one payload always fits.
    pub fn rx_cap(self) -> usize
        ensures { result ≡ cap_of self }
    {
        let payload = self.max_payload as usize;
        self.max_rx_per_channel.max(payload)
    }

    // With fewer bytes held than this, one more full payload fits.
    pub fn rx_ceiling(self) -> usize
        requires { Within self }
        ensures { result ≡ ceiling_of self }
    {
        self.rx_cap() - self.max_payload as usize + 1
    }

    // Held bytes at which acknowledgements start to wait for the reader, where they are not delayed.
    pub fn rx_watermark(self) -> usize
        requires { Within self }
        ensures { result ≡ watermark_of self }
    {
        let ceiling = self.rx_ceiling();
        ceiling.min(self.initial_ack_bytes.max(self.max_payload) as usize)
    }

    // The credit that an OPEN grants in delayed mode.
    pub fn advertised_ack_bytes(self) -> u32
        requires { Within self }
        ensures { result ≡ opening_credit self }
    {
        let ceiling = self.rx_ceiling();
        ceiling.min(self.initial_ack_bytes as usize) as u32
    }

    // Bytes of the receive store. Set-aside bytes don't count toward the cap, so a channel's share is two caps.
    pub fn rx_store_len(self) -> usize
        requires { Within self }
        ensures { result ≡ rx_store_len self }
    {
        let share = 2 * self.rx_cap();
        self.channels * share
    }

    // Bytes of the open store: a destination's share is the longest payload.
    pub fn open_store_len(self) -> usize
        requires { Within self }
        ensures { result ≡ open_store_len self }
    {
        self.channels * self.max_payload as usize
    }

    // Whether neither store is under its length.
    #[tactic(auto, unfolding(crate::specs::Config::stores_fit))]
    pub fn stores_fit(self, rx: usize, opens: usize) -> bool
        requires { Within self }
        ensures { result ≡ stores_fit self rx opens }
    {
        self.rx_store_len() <= rx && self.open_store_len() <= opens
    }
}
