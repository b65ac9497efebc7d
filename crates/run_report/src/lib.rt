//! The text of a run: the lines of its orders as they end, and the report, written in blocks and never held whole.
#![tactic(auto)]

mod line;
mod lines;
mod orders;
mod page;

pub use line::{BackupAt, EntryKind, Line, Made, MemberAt, RunAt};
pub use orders::{Reply, put_backup_stopped, put_order, put_stopped};
pub use page::Page;
