//! A container serves one service on a thread of its own: it applies what its image gives, in order, until the image
//! ends.
#![tactic(auto)]

mod container;
mod gate;
mod outbox;
mod works;

pub use container::{Container, ServeEnd, Served};
pub use gate::{Gate, NoGate};
