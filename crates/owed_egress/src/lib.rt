//! What a consumed entry owes to clients, as the records that a member sends.
#![tactic(auto)]

mod laws;
mod outbox;
mod owing;

pub use laws::{the_module_takes_what_its_services_ask, what_comes_out_stands_by_its_entry};
pub use outbox::outputs_at;
pub use owing::Owing;
