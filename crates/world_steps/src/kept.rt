// What a member's disk keeps, as plain data.
ghost use Rattle.std.specs.Prelude.{◌≡◌, ◌≤◌, ◌<◌, IfOk, OnOk};
ghost use Rattle.consensus_core.specs.Fit.{IsTerm, started};
ghost use Rattle.consensus_core.specs.Member.{changed};
ghost use Rattle.entry_log.specs.Durable.{first_commit, fresh};
ghost use Rattle.entry_log.specs.Shape.{shape_of};
ghost use Rattle.world_steps.specs.Fit.{LogFits};

use crate::log::{copies, extend, index_of};
use cl_base::{Entry, List, NoMemory};
use consensus_core::{Change, Core};
use entry_log::LogIndex;
use std::alloc::Global;
use std::marker::Model;

/// What a member's disk keeps.
#[derive(Drop)]
pub struct Kept {
    /// -1 to 2^62.
    candidate: i64,
    /// The member voted for in the candidate term.
    voted: Option<u8>,
    log: Vec<Entry>,
}

impl Model for Kept {
    ghost use Rattle.std.specs.Prelude.{[]};
    ghost use Rattle.entry_log.specs.Durable.{Durable};

    ghost Value = { Durable };

    ghost view = { λ k. record { candidate = k.candidate; voted = k.voted; log = k.log.items; snapshots = [] } };
}

impl Kept {
    /// A formatted disk.
    pub fn fresh(alloc: Global) -> Kept
        ensures { result ≡ fresh }
    {
        Kept {
            candidate: -1,
            voted: None,
            log: Vec::new(alloc),
        }
    }

    /// The candidate term, -1 to 2^62.
    pub fn candidate(&self) -> i64
        ensures { result ≡ self.now.candidate }
    {
        self.candidate
    }

    /// The member voted for in the candidate term.
    pub fn voted(&self) -> Option<u8>
        ensures { result ≡ self.now.voted }
    {
        self.voted
    }

    /// The entries of the log.
    pub fn entries(&self) -> &[Entry]
        ensures { result.now ≡ self.now.log }
    {
        self.log.as_slice()
    }

    /// Where its memory comes from.
    pub fn alloc(&self) -> Global {
        *self.log.allocator()
    }

    /// A copy of the log.
    pub fn copies(&self) -> Result<List<Entry>, NoMemory>
        ensures { IfOk result (λ xs. xs ≡ self.now.log) }
    {
        copies(self.alloc(), self.log.as_slice())
    }

    /// The index of the log.
    pub fn index(&self) -> Result<LogIndex, NoMemory>
        requires { LogFits self.now.log }
        ensures { IfOk result (λ x. x ≡ shape_of self.now.log) }
    {
        index_of(self.alloc(), self.log.as_slice())
    }

    /// The part in the agreement of a member that starts on it, as this one of so many members, with so many services.
    pub fn begin(&self, number: u8, members: u8, services: u8) -> Core
        requires members { members ≤ 5 }
        requires number { number < members }
        requires candidate { IsTerm self.now.candidate }
        ensures { result ≡ started number members self.now.candidate self.now.voted (first_commit services self.now) }
    {
        let _services = services;
        Core::new(self.alloc(), number, members, self.candidate, self.voted, 0)
    }

    /// A row's change is made.
    pub fn make(&mut self, change: Change) -> Result<(), NoMemory>
        ensures { OnOk result (self.new ≡ changed change self.old) }
    {
        match change {
            Change::Nothing => {}
            Change::Raise { term, voted } => {
                self.candidate = term;
                self.voted = voted;
            }
            Change::Append(entries) => extend(&mut self.log, entries.as_slice())?,
            Change::Cut(entries) => self.log.truncate(entries as usize),
        }
        Ok(())
    }
}
