//! What a backup reads, writes and answers, packet by packet, over a disk in memory.
#![tactic(auto)]

mod packets;
#[cfg(test)]
mod stops;
mod takes;

pub use packets::again;
pub use takes::{answers, new_disk, taken};
