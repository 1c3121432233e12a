// The numbers of a channel: ours and the device's, which are never interchanged.
ghost use Rattle.std.specs.Prelude.{◌≡◌};
ghost use Rattle.slot.specs.Ids.{named_by, closed_by};

use protocol::packet::Packet;

// The number that we gave a channel.
#[derive(Clone, Copy, Debug, Default, PartialEq, Eq)]
pub struct LocalId(pub u32);

// The number that the device gave it.
#[derive(Clone, Copy, Debug, Default, PartialEq, Eq)]
pub struct RemoteId(pub u32);

#[derive(Clone, Copy, Debug, PartialEq, Eq)]
pub struct ChannelIds {
    pub local: LocalId,
    pub remote: RemoteId,
}

impl ChannelIds {
    // Whether a CLSE's arguments name this channel: by our number, or by the device's where ours is left out.
    #[tactic(auto, unfolding(crate::specs::Ids::named_by))]
    fn named_by(self, arg0: u32, arg1: u32) -> bool
        ensures { result ≡ named_by self arg0 arg1 }
    {
        arg1 == self.local.0 || arg1 == 0 && arg0 == self.remote.0
    }

    // Whether a packet ends a read or a write on this channel.
    #[tactic(auto, unfolding(crate::specs::Ids::closed_by))]
    pub fn closed_by(self, packet: Packet) -> bool
        ensures { result ≡ closed_by self packet }
    {
        packet.command.is_close() && self.named_by(packet.arg0, packet.arg1)
    }
}
