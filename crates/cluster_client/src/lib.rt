//! A client of a cluster as a pure machine: it connects, follows redirects and new leaders, keeps its session alive and
//! hands out the messages of one leader a term. Time and memory are handed in; it sends and waits for nothing itself.
#![tactic(auto)]

mod answers;
mod client;
mod hearing;
mod laws;
mod runs;
mod state;

pub use answers::{OfferFault, ToMember, Took};
pub use client::Client;
pub use laws::{a_session_is_opened_by_its_ok, a_session_is_opened_once};
pub use runs::{Call, Got, run_calls};
pub use state::State;
