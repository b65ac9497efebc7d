// The image's two words, and their rule: word 0 is twice the published commit, plus one after the end, and word 1 is
// the service's position, at most that commit.
use atomic_table::{Join, Play, Seat, Split, Table, TableRule};
use std::alloc::Global;

/// Where the published commit stands.
pub const COMMIT: usize = 0;

/// Where the service's position stands.
pub const POSITION: usize = 1;

// What a seat may do, the word 0 that it stored last, the word 0 that it loaded last, and the word 1 that it stored last
// and that it loaded last. No value of it is made.
pub struct Known {
    pub feeds: bool,
    pub polls: bool,
    pub word: u64,
    pub seen: u64,
    pub position: u64,
    pub found: u64,
}

pub struct Counting;

impl TableRule<(), Known, u64> for Counting {
    ghost use Rattle.commit_counter.specs.Words.{first_of, Counted};

    ghost holds = { λ _. Counted };

    ghost first = { first_of };
}

pub struct Sides;

impl Split<Known> for Sides {
    ghost use Rattle.commit_counter.specs.Words.{feeder_of, poller_of};

    ghost left = { feeder_of };

    ghost right = { poller_of };
}

impl Join<Known> for Sides {
    ghost use Rattle.commit_counter.specs.Words.{both_of, nobody};

    ghost both = { both_of };

    ghost spent = { nobody };
}

pub struct Publishes;

impl Play<(), Known> for Publishes {
    ghost use Rattle.commit_counter.specs.Words.{Published};

    ghost then = { Published };
}

pub struct Looks;

impl Play<(), Known> for Looks {
    ghost use Rattle.commit_counter.specs.Words.{Looked};

    ghost then = { Looked };
}

pub struct Moves;

impl Play<(), Known> for Moves {
    ghost use Rattle.commit_counter.specs.Words.{Moved};

    ghost then = { Moved };
}

pub struct Asks;

impl Play<(), Known> for Asks {
    ghost use Rattle.commit_counter.specs.Words.{Asked};

    ghost then = { Asked };
}

pub struct Settles;

impl Play<(), Known> for Settles {
    ghost use Rattle.commit_counter.specs.Words.{Settled};

    ghost then = { Settled };
}

pub type Words = Table<(), Known, u64, Counting, Global>;

pub type WordsSeat = Seat<(), Known>;
