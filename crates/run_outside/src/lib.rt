//! What the members of a run give to the outside, which all share: packets to the network, records to clients' streams, and
//! the log that is printed.
#![tactic(auto)]

mod outside;

pub use outside::Outside;
