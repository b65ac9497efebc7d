//! The election of one member: the rows of the protocol from INIT to the beginning of a reign or of a following, as a
//! machine that takes no memory and knows nothing of the outside.
#![tactic(auto)]

mod event;
mod heard;
mod member;
mod step;
#[cfg(test)]
mod tests;

pub use event::{Decision, ElectionEvent};
pub use member::{Election, Heard, State};
