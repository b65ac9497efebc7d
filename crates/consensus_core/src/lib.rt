//! One member's part in the agreement: the rows of the protocol over the index of its log. A row gives the member's new
//! values, the one change of its disk, and what it sends once that change is there.
#![tactic(auto)]

mod batches;
mod change;
mod duties;
mod elections;
mod events;
mod following;
mod laws;
mod measures;
mod packets;
mod part;
mod plan;
mod reigning;
mod rest;
mod row;
mod sendable;
mod sends;
mod spell;
#[cfg(test)]
mod tests;
mod values;

pub use change::Change;
pub use election::State;
pub use laws::{rows_can_be_made, rows_read_the_shape};
pub use part::Core;
