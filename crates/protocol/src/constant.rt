// The version that the protocol fixes. The lengths of a frame stand with `Packet`.

// Protocol version with feature negotiation.
pub const ADB_VERSION: u32 = 0x0100_0001;
