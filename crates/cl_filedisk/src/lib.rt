//! A disk in a folder of the system: file F is the file `fF` there. It tells nothing of its contents.
#![tactic(auto)]

mod disk;
mod guard;
mod handles;
#[cfg(test)]
mod tests;

pub use disk::FileDisk;
