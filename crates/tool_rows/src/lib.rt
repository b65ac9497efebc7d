//! Members' files as bytes, and what the look into their folders writes of them.
#![tactic(auto)]

#[cfg(test)]
mod damage;
#[cfg(test)]
mod disks;
#[cfg(test)]
mod files;
#[cfg(test)]
mod listings;
#[cfg(test)]
mod refusals;
