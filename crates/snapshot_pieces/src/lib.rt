//! What a snapshot's file holds: the pieces of a service or of the module between its two markers, and what they are
//! read back as.
#![tactic(auto)]

mod origin;
mod read;
mod source;
mod write;

pub use origin::Origin;
pub use read::{restore_module, restore_service};
pub use source::Source;
pub use write::{module_pieces, service_pieces};
