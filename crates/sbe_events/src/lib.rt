//! The events that the log holds, and their one spelling in bytes.
#![tactic(auto)]

mod decode;
mod encode;
mod event;
mod template;

pub use decode::{decode_event, event_fault, term_of};
pub use encode::encode_event;
pub use event::Event;
