// What a world notes of what was: it only grows.
use cl_base::{Entry, List};
use sbe_consensus::Packet;
use std::marker::Model;

/// A packet that was sent.
#[derive(Drop)]
pub struct Sent {
    /// The member that is to get it, 0 to 4.
    pub to: u8,
    pub packet: Packet,
}

impl Model for Sent {
    ghost use Rattle.consensus_core.specs.Member.{Sent as Spoken};

    ghost Value = { Spoken };

    ghost view = { λ s. record { to = s.to; packet = s.packet } };
}

/// A member raised its candidate term for a vote.
#[derive(Drop)]
pub struct Raise {
    pub voter: u8,
    pub term: i64,
    /// The member voted for.
    pub choice: u8,
    /// The voter's log at that moment.
    pub log: List<Entry>,
}

impl Model for Raise {
    ghost use Rattle.world.specs.World.{Raise as Raised};

    ghost Value = { Raised };

    ghost view = { λ r. record { voter = r.voter; term = r.term; choice = r.choice; log = r.log } };
}

/// A member was elected.
#[derive(Drop)]
pub struct Reign {
    pub term: i64,
    pub member: u8,
    /// Its log as the reign began.
    pub first: List<Entry>,
}

impl Model for Reign {
    ghost use Rattle.world.specs.World.{Reign as Begun};

    ghost Value = { Begun };

    ghost view = { λ r. record { term = r.term; member = r.member; first = r.first } };
}

/// The log of a reign at some moment of it.
#[derive(Drop)]
pub struct Written {
    pub term: i64,
    pub log: List<Entry>,
}

impl Model for Written {
    ghost use Rattle.world.specs.World.{Written as Noted};

    ghost Value = { Noted };

    ghost view = { λ r. record { term = r.term; log = r.log } };
}

/// A member had this log on its disk while it reigned in the term, or followed in it.
#[derive(Drop)]
pub struct Holding {
    pub member: u8,
    pub term: i64,
    pub log: List<Entry>,
}

impl Model for Holding {
    ghost use Rattle.world.specs.World.{Holding as Held};

    ghost Value = { Held };

    ghost view = { λ r. record { member = r.member; term = r.term; log = r.log } };
}
