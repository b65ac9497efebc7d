//! The recording log: the leadership terms and the snapshots of a member, as entries in its second file.
#![tactic(auto)]

mod entry;
mod file;
mod fresh;
mod list;
mod log;
mod parts;
mod sets;

pub use entry::{MODULE, RECORDINGS, RecEntry, SnapshotAt, TermAt};
pub use fresh::format;
pub use log::RecordingLog;
