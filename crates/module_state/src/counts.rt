// What the module counts besides its tables.
ghost use Rattle.std.specs.Prelude.{◌≡◌};
ghost use Rattle.module_state.specs.Counts.{no_counts, counts_after, one_more};

use cl_base::limits::NUMBER_LIMIT;
use sbe_events::Event;
use std::marker::Model;

/// The snapshot actions, the entries, and the leader that the last new term event names, -1 where there is none.
#[derive(Clone, Copy, Debug, Drop)]
pub struct Counted {
    actions: u64,
    entries: u64,
    leader: i32,
}

impl Model for Counted {
    ghost use Rattle.module_state.specs.Counts.{Counts};

    ghost Value = { Counts };

    ghost view = { λ t. record { actions = t.actions; entries = t.entries; leader = t.leader } };

    ghost inverse = { λ v. record { actions = v.actions; entries = v.entries; leader = v.leader } };
}

impl Counted {
    pub fn new() -> Counted
        ensures { result ≡ no_counts }
    {
        Counted {
            actions: 0,
            entries: 0,
            leader: -1,
        }
    }

    pub fn of(actions: u64, entries: u64, leader: i32) -> Counted
        ensures { result ≡ record { actions = actions; entries = entries; leader = leader } }
    {
        Counted {
            actions,
            entries,
            leader,
        }
    }

    pub fn entries(&self) -> u64
        ensures { result ≡ self.now.entries }
    {
        self.entries
    }

    pub fn actions(&self) -> u64
        ensures { result ≡ self.now.actions }
    {
        self.actions
    }

    pub fn leader(&self) -> i32
        ensures { result ≡ self.now.leader }
    {
        self.leader
    }

    /// What an event makes of the counts.
    pub fn take(&mut self, e: &Event)
        ensures { self.new ≡ counts_after self.old e.now }
    {
        self.entries = one_more(self.entries);
        match e {
            Event::Term { leader, .. } => self.leader = *leader,
            Event::Snapshot { .. } => self.actions = one_more(self.actions),
            _ => {}
        }
    }
}

// One more, up to 2^62.
fn one_more(n: u64) -> u64
    ensures { result ≡ one_more n }
{
    if n < NUMBER_LIMIT {
        n + 1
    } else {
        NUMBER_LIMIT
    }
}
