//! Messages at their bytes: events, packets, commands, pieces and what clients say, written out by hand.
#![tactic(auto)]

#[cfg(test)]
mod clients;
#[cfg(test)]
mod events;
#[cfg(test)]
mod local;
#[cfg(test)]
mod packets;
