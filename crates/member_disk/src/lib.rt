//! A member's files as one durable state, each change of which is atomic.
#![tactic(auto)]

mod changes;
mod disk;
mod durable;
mod fresh;
mod mount;

pub use disk::MemberDisk;
pub use durable::{Durable, SetEntry, SnapshotHead};
pub use fresh::format;
