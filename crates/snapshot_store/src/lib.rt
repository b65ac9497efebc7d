//! The snapshots of a member: the pieces of each in a file of its own, each piece with its length before it.
#![tactic(auto)]

mod file;
mod strict;

pub use file::{RECORDINGS, read, write};
