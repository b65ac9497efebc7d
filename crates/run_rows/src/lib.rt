//! Scenarios run through the top call on disks in memory, and what each of them must write.
#![tactic(auto)]

#[cfg(test)]
mod backups;
#[cfg(test)]
mod clients;
#[cfg(test)]
mod failures;
#[cfg(test)]
mod fuses;
#[cfg(test)]
mod leaders;
#[cfg(test)]
mod lines;
#[cfg(test)]
mod listed;
#[cfg(test)]
mod messages;
#[cfg(test)]
mod phases;
#[cfg(test)]
mod runs;
#[cfg(test)]
mod statuses;
#[cfg(test)]
mod tables;
