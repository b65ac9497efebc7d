//! The packets by which members agree, and their one spelling in bytes.
#![tactic(auto)]

mod batch;
mod decode;
mod encode;
mod packet;
mod template;

pub use decode::decode_packet;
pub use encode::encode_packet;
pub use packet::{Outgoing, Packet};
