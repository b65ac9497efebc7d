//! An image: what the driver's thread feeds one service, up to a published commit. A feed and a poller share a queue
//! of 256 entries and two words, each under a rule that no schedule breaks.
#![tactic(auto)]

mod feed;
mod line;
mod open;
mod poller;
mod role;
mod shared;
#[cfg(test)]
mod tests;
mod words;

pub use feed::Feed;
pub use open::{close, image};
pub use poller::{Poll, Poller};
pub use role::Role;
