//! Threads that outlive their phases: a lane is lent the job of a service, and it is taken back when it ran. A lane costs
//! a wake-up where a thread of a phase's own would be started and joined.
#![tactic(auto)]

mod job;
mod lane;
mod member;
mod rule;
#[cfg(test)]
mod tests;

pub use lane::Lane;
pub use member::Lanes;
