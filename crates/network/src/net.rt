// The network of a cluster.
ghost use Rattle.std.specs.Prelude.{◌≡◌, ◌≤◌, [], ◌∷◌, true, false, OnOk, IfOk, MatchOption};
ghost use Rattle.network.specs.Net.{quiet_net, put, sent, replayed, with_link_cut, lost_between, taken, coming, first_of};

use crate::Link;
use crate::flight::{link_place, lose_between, take_open};
use cl_base::{Bytes, NoMemory};
use sbe_consensus::Outgoing;
use std::alloc::Global;
use std::collections::VecDeque;
use std::marker::Model;
use std::mem;

/// The network between so many members: what is in flight, and the links. A round is what one call after another of
/// `take` hands on, until it answers None.
#[derive(Drop)]
pub struct Net {
    members: u8,
    /// A round is going on.
    going: bool,
    /// What is left of the round that is going on; nothing between rounds.
    round: VecDeque<(u8, Outgoing)>,
    /// What was sent since the round began.
    later: VecDeque<(u8, Outgoing)>,
    links: Vec<Link>,
}

impl Model for Net {
    ghost use Rattle.std.specs.Prelude.{◌≡◌, [], false};
    ghost use Rattle.network.specs.Net.{NetSeen, seen_of};

    ghost Value = { NetSeen };

    ghost view = { λ n. seen_of n.members n.going n.round.items n.later.items n.links.items };

    ghost invariant = { λ n. n.going ≡ false → n.round.items ≡ [] };
}

impl Net {
    /// The network of so many members (1 to 5): nothing is in flight, and every link is open.
    pub fn new(alloc: Global, members: u8) -> Result<Net, NoMemory>
        ensures { IfOk result (λ n. n ≡ quiet_net members) }
    {
        let mut links = Vec::new(alloc);
        for _ in 0..members as u16 * members as u16 {
            match links.push(Link::new(alloc)) {
                Ok(()) => {}
                Err(_) => return Err(NoMemory),
            }
        }
        Ok(Net {
            members,
            going: false,
            round: VecDeque::new(alloc),
            later: VecDeque::new(alloc),
            links,
        })
    }

    // Puts a packet in flight behind all others.
    fn put(&mut self, from: u8, o: Outgoing) -> Result<(), NoMemory>
        ensures { OnOk result (self.new ≡ put from o self.old) }
    {
        match self.later.push_back((from, o)) {
            Ok(()) => Ok(()),
            Err(_) => Err(NoMemory),
        }
    }

    /// Sends a packet: it is in flight behind all others, and its link keeps a copy to be sent again. The members are
    /// below the number of members. After NoMemory the network is only given up.
    pub fn send(&mut self, from: u8, o: Outgoing) -> Result<(), NoMemory>
        ensures { OnOk result (self.new ≡ sent from o self.old) }
    {
        let copy = o.bytes.copy()?;
        let place = link_place(self.members, from, o.to);
        if let Some(link) = self.links.get_mut(place) {
            link.keep(copy)?;
        }
        self.put(from, o)
    }

    /// The next packet of this round with its sender, where one is left. A round begins with the first call after `new`
    /// or after a None, and has the packets that are then in flight. A packet whose link is cut is dropped here.
    pub fn take(&mut self) -> Option<(u8, Outgoing)>
        ensures packet { result ≡ first_of (coming self.old) }
        ensures after { self.new ≡ taken self.old }
    {
        if !self.going {
            mem::swap(&mut self.round, &mut self.later);
            self.going = true;
        }
        let packet = take_open(&mut self.round, self.members, self.links.as_slice());
        self.going = packet.is_some();
        packet
    }

    fn set_cut(&mut self, from: u8, to: u8, cut: bool)
        ensures { self.new ≡ with_link_cut cut from to self.old }
    {
        let place = link_place(self.members, from, to);
        if let Some(link) = self.links.get_mut(place) {
            link.set_cut(cut);
        }
    }

    /// Packets from a to b are dropped at delivery from now on.
    pub fn cut_link(&mut self, a: u8, b: u8)
        ensures { self.new ≡ with_link_cut true a b self.old }
    {
        self.set_cut(a, b, true);
    }

    /// Packets from a to b are no longer dropped.
    pub fn heal_link(&mut self, a: u8, b: u8)
        ensures { self.new ≡ with_link_cut false a b self.old }
    {
        self.set_cut(a, b, false);
    }

    /// The packets from a to b that are in flight vanish.
    pub fn lose(&mut self, a: u8, b: u8)
        ensures { self.new ≡ lost_between a b self.old }
    {
        lose_between(&mut self.round, a, b);
        lose_between(&mut self.later, a, b);
    }

    /// Sends the k-th latest packet that a sent to b again, 1 being the latest, where so many of the latest 256 are
    /// kept; else nothing. What is sent again isn't counted as one that a sent. After NoMemory the network is only given
    /// up.
    pub fn replay(&mut self, a: u8, b: u8, k: u64) -> Result<(), NoMemory>
        ensures { OnOk result (self.new ≡ replayed a b k self.old) }
    {
        let Some(link) = self.links.get(link_place(self.members, a, b)) else {
            return Ok(());
        };
        let Some(kept) = link.latest(k) else {
            return Ok(());
        };
        let bytes = kept.copy()?;
        self.put(a, Outgoing { to: b, bytes })
    }
}
