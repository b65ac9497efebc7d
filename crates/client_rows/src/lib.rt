//! A client at worked moments: each state with each kind of egress, an exchange byte by byte, and a joined client's turns.
#![tactic(auto)]

#[cfg(test)]
mod joined;
#[cfg(test)]
mod tests;
