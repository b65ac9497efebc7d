//! What a fuse or a call that fails, and then a crash, leave of a member's files, over a disk in memory.
#![tactic(auto)]

#[cfg(test)]
mod damaged_rows;
mod disks;
#[cfg(test)]
mod life_rows;
#[cfg(test)]
mod member_rows;
mod node_rows;
mod recording_rows;
#[cfg(test)]
mod segment_rows;
#[cfg(test)]
mod snapshot_rows;

pub use disks::{Answer, disk_with};
pub use node_rows::{migrated_under, raised_under};
pub use recording_rows::{add_set, add_snapshot, add_term, invalidate, latest, terms};
