//! What the report of a run tells of its members: each one's log beside the printed one, its snapshots, and what its
//! services consumed.
#![tactic(auto)]

mod beside;
mod members;
mod services;

pub use members::report_members;
pub use services::{inputs_of, report_services};
