// Packets in flight.
ghost use Rattle.std.specs.Prelude.{◌≡◌, [], ◌∷◌, MatchOption};
ghost use Rattle.network.specs.Net.{open_front, is_lost, without, link_place};

use crate::Link;
use sbe_consensus::Outgoing;
use std::collections::VecDeque;

/// Where the link from a member to another stands among the links of so many members.
pub fn link_place(members: u8, from: u8, to: u8) -> usize
    ensures { result ≡ link_place members from to }
{
    from as usize * members as usize + to as usize
}

/// The link between a packet's sender and its receiver is cut.
fn is_lost(members: u8, links: &[Link], packet: &(u8, Outgoing)) -> bool
    ensures { result ≡ is_lost members links.now packet.now }
{
    match links.get(link_place(members, packet.0, packet.1.to)) {
        Some(link) => link.is_cut(),
        None => false,
    }
}

/// Takes the first packet whose link is open. Those before it are gone.
pub fn take_open(
    flight: &mut VecDeque<(u8, Outgoing)>,
    members: u8,
    links: &[Link],
) -> Option<(u8, Outgoing)>
    ensures { let left = open_front members links.now flight.old.items in MatchOption result ((left ≡ []) × (flight.new.items ≡ [])) (λ packet. left ≡ packet ∷ flight.new.items) }
{
    while let Some(packet) = flight.pop_front() {
        if !is_lost(members, links, &packet) {
            return Some(packet);
        }
    }
    None
}

/// The packets from one member to another vanish.
pub fn lose_between(flight: &mut VecDeque<(u8, Outgoing)>, from: u8, to: u8)
    ensures { flight.new.items ≡ without from to flight.old.items }
{
    flight.retain(|packet| !(packet.0 == from && packet.1.to == to));
}
