//! The module at worked moments: what is due, and what its records restore.
#![tactic(auto)]

#[cfg(test)]
mod tests;
