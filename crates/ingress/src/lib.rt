//! What a client's bytes or an operator's action lead to at a member: an entry, a sign of life, or why not.
#![tactic(auto)]

mod decision;
mod outcome;
mod view;

pub use decision::{Decided, decide, decide_action};
pub use outcome::Outcome;
pub use view::View;

#[cfg(test)]
mod tests;
