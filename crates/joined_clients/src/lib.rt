//! The clients that join a run: each looks after itself by its turn in every round, over the records of its own stream,
//! and keeps what it was handed.
#![tactic(auto)]

mod joined;
mod laws;

pub use joined::{Joined, stream_of};
pub use laws::what_a_joined_client_is_handed;
