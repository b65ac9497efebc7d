//! How a run begins: what is asked, what is read, which disks it needs, and why it can't begin. The orders of a scenario are
//! written back here too, which needs no run.
#![tactic(auto)]

mod check;
mod disks;
mod needed;
mod reading;
mod status;

pub use check::{check_main, check_source};
pub use disks::prepare;
pub use needed::{has_backup, kinds_of, members_of};
pub use reading::{made_orders, read_orders};
pub use status::Status;
