//! The backup of a run: a node beside the members that asks one of them for what is committed and copies it, with its disk
//! and its packets in flight, and its lines of the report.
#![tactic(auto)]

mod copying;
mod listing;
mod node;

pub use listing::report_backup;
pub use node::{BackupNode, Flight};
