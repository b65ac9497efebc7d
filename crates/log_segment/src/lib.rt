//! The log in a member's segment files: frames behind gates, read from the first byte on, and changed by one gate at a
//! time.
#![tactic(auto)]

mod append;
mod batch;
mod cut;
mod entries;
mod kept;
mod read;
mod scan;
mod segments;
mod spell;
mod whole;

pub use batch::Batch;
pub use kept::NewTerm;
pub use segments::{FIRST_SEGMENT_FILE, Segments, format_log};

#[cfg(test)]
mod tests;
