//! The steps of the protocol as code over plain data: the members of a cluster with their disks as data, every packet ever
//! sent, and one call that makes any one step of it. Tests drive it.
#![tactic(auto)]

mod cluster;
mod cut;
mod due;
mod history;
mod kept;
mod log;
mod member;
mod ran;
mod speech;
mod step;
#[cfg(test)]
mod tests;

pub use cluster::World;
pub use cut::Cut;
pub use history::{Holding, Raise, Reign, Sent, Written};
pub use member::Member;
pub use step::{Step, world_step};
