//! One member as a whole: its disk, its part in the agreement, the module and the services.
#![tactic(auto)]

mod agent;
mod changes;
mod clients;
mod copies;
mod ending;
mod fault;
mod guard;
mod mounting;
mod phases;
mod reads;
mod rows;
mod snapshots;

pub use agent::Agent;
pub use fault::AgentFault;
pub use phases::Fed;
pub use rows::Delivered;
