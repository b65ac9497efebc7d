//! The scenario language: the orders of a cluster's run, read from a text and printed again, and the first faulty line
//! of a text that isn't a scenario.
#![tactic(auto)]

mod fault;
mod hex;
mod keyword;
mod laws;
mod lines;
mod making;
mod naming;
mod order;
mod printing;
mod reader;
mod spelling;
mod told;
mod words;

pub use fault::{Cause, ParseFault, Reading, Refusal};
pub use laws::{each_order_has_one_spelling, printing_is_read_again};
pub use making::make;
pub use order::{Named, Order};
pub use printing::print;
pub use reader::{parse, read};
