//! The services at worked moments, and a container on its thread.
#![tactic(auto)]

#[cfg(test)]
mod containers;
#[cfg(test)]
mod services;
