//! The network between members: packets in flight, in order of sending, and its links, which a scenario cuts and heals.
#![tactic(auto)]

mod flight;
mod laws;
mod link;
mod net;

pub use laws::a_link_keeps_the_latest_of_its_packets;
pub use link::Link;
pub use net::Net;

#[cfg(test)]
mod tests;
