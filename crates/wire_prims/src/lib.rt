//! Numbers in bytes, message headers and data frames, each at its exact place. Beside them the fault that a decoder
//! answers.
#![tactic(auto)]

mod fault;
mod field;
mod frame;
mod header;
mod strict;
mod write;

pub use fault::{Bad, BadCause, DecodeFault};
pub use field::{get_i32, get_i64, get_u16, get_u32, get_u64, put_i32, put_i64, put_u16, put_u32};
pub use frame::{
    FIRST_FLAGS, FrameHead, LAST_FLAGS, OPEN_GATE, WHOLE_FLAGS, read_frame, write_frame,
};
pub use header::{HEADER_BYTES, Header, SCHEMA, aligned, read_header};
pub use strict::{Field, Rule, Tail, sender_of, session_of, strict_fault};
pub use write::{bare, message_of, put_counted, with_counted, with_rest};

#[cfg(test)]
mod tests;
