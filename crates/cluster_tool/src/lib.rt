//! A look into a member's folder: what its files stand for, the entries of its recording log, and how far two members'
//! logs are the same. The files are only read.
#![tactic(auto)]

mod compare;
mod describe;
mod laws;
mod line;
mod lines;
mod look;
mod mount;
mod page;
mod read;
mod recorded;
mod status;
mod top;
mod verify;
mod words;

pub use compare::{Comparison, Outcome};
pub use laws::tells_equal_logs;
pub use status::ToolStatus;
pub use top::tool_main;
pub use words::{Asked, asked_by, takes_disks};
