// ADB's frames, from bytes and to bytes: libadb's base/protocol, module by module. The check and the feature list are crates
// of their own, `checksum` and `features`.
#![tactic(auto)]

pub mod command;
pub mod constant;
pub mod message;
pub mod packet;
