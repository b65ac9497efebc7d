//! The arithmetic of replication over the index of a log: what a leader answers to a Canvass, what a follower keeps
//! of its log on the answer, what a quorum holds, and how many entries go into a batch.
#![tactic(auto)]

mod answers;
mod batches;
mod commits;
#[cfg(test)]
mod tests;

pub use answers::{answer_canvass, keep_for};
pub use batches::batch_len;
pub use commits::{commit_after, quorum_position};
