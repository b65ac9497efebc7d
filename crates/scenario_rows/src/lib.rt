//! Scenarios, and texts that aren't: each refusal at its line.
#![tactic(auto)]

#[cfg(test)]
mod tests;
