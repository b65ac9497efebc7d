//! The pieces of which printed lines are made, the text of a log's events, and a text that is written in blocks.
#![tactic(auto)]

mod events;
mod pieces;
mod stream;

pub use events::{put_bytes, put_event};
pub use pieces::{put, put_count, put_hex, put_number, put_signed, put_value, put_value32};
pub use stream::{BLOCK, give};
