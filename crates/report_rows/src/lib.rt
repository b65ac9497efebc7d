//! The lines of a run's text, each with values at its edges, and what a sink that fails holds.
#![tactic(auto)]

#[cfg(test)]
mod tests;
