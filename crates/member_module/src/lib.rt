//! The module's state on one member: what it consumed, the log's entries past that, and the state at the log's end.
#![tactic(auto)]

mod ahead;
mod alive;
mod module;

pub use module::MemberModule;
