//! The words that the program is called with, and what they ask for.
#![tactic(auto)]

mod asked;
mod number;
mod words;

pub use words::{Plan, WordsFault, plan_words};

#[cfg(test)]
mod tests;
