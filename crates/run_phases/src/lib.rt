//! The phases of a member, in which its services consume what is committed, each by the thread of its lane: phases of one
//! call, and free ones, which go on beside further calls of the agent.
#![tactic(auto)]

mod free;
mod laws;
mod phase;

pub use free::{Free, free_begin, free_drop, free_end, free_feed};
pub use laws::{what_a_phase_has_of_a_log_stays, what_containers_consume_adds_up};
pub use phase::run_phase;
