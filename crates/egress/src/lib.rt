//! What was sent to clients: a list of records for each stream, and what each client last learnt from its own.
#![tactic(auto)]

mod answers;
mod known;
mod lists;
mod sent;
mod stream;

pub use answers::{error, redirect};
pub use known::Known;
pub use lists::Egress;
pub use sent::Sent;
pub use stream::Stream;

#[cfg(test)]
mod tests;
