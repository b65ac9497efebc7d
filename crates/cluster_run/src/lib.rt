//! The whole run: a scenario's members run on disks of their own, exchange packets, take orders and time, run their
//! services, and the run is written as it goes.
#![tactic(auto)]

mod backup;
mod clients;
mod clock;
mod cluster;
mod disks;
mod free;
mod joined;
mod orders;
mod reporting;
mod rounds;
mod telling;
mod top;

pub use top::cluster_main;
