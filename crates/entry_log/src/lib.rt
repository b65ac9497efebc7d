//! The log of a member as data: entries, the places where they end, which of two logs is better, and an index of a
//! log that answers from its ends and terms without the entries' bytes.
#![tactic(auto)]

mod batches;
mod index;
mod name;
mod places;
#[cfg(test)]
mod tests;

pub use batches::{end_within, is_one_batch, segment_of};
pub use index::LogIndex;
pub use name::{LogName, better};
pub use places::{end_after, place};
