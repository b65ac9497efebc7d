//! What a service asks of the module, and the pieces of a snapshot, as values and as messages.
#![tactic(auto)]

mod command;
mod piece;
mod strict;

pub use command::{Command, decode_command, encode_command};
pub use piece::{Mark, Piece, decode_piece, encode_piece};
