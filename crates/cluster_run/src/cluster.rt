// All members of a run, with what they share.
use crate::clock::Clock;
use cl_base::{Disk, List, NoMemory};
use ingress::Outcome;
use joined_clients::Joined;
use run_backup::BackupNode;
use run_outside::Outside;
use run_report::Reply;
use run_seats::{Seat, Site, Took};
use std::alloc::Global;

/// How many clients a scenario may name.
pub(crate) const CLIENTS: usize = 64;

/// What is told while orders run.
#[derive(Clone, Copy, Debug, PartialEq, Eq)]
pub(crate) enum Line {
    /// What became of the order in a line of the scenario.
    Order { line: u64, reply: Reply },
    /// A member was stopped: its disk failed, or holds bytes that are none of its own.
    Stopped { member: u8 },
    /// The backup was stopped: its disk failed.
    BackupStopped,
}

/// All members of a run, with what they share.
#[derive(Drop)]
pub(crate) struct Cluster<D: Disk> {
    pub(crate) site: Site,
    pub(crate) clock: Clock,
    pub(crate) seats: Vec<Seat<D>>,
    pub(crate) outside: Outside,
    /// The backup, where the scenario has one.
    pub(crate) backup: Option<BackupNode<D>>,
    /// How many connects each client has sent.
    pub(crate) connects: Vec<i64>,
    /// The clients that joined, by rising number.
    pub(crate) joined: Vec<Joined>,
    /// Phases go on over orders.
    pub(crate) free: bool,
    /// What was told and isn't written yet.
    pub(crate) told: List<Line>,
    /// Order lines that are neither `accepted`, `alive` nor `ok`.
    pub(crate) refused: u64,
}

/// Whether an answer is one that grants.
fn grants(reply: Reply) -> bool {
    matches!(
        reply,
        Reply::Fine | Reply::Given(Outcome::Accepted { .. } | Outcome::Alive)
    )
}

impl<D: Disk + Drop> Cluster<D> {
    /// Members that haven't started yet, on these disks, and the backup, where there is one.
    pub(crate) fn new(
        site: Site,
        seats: Vec<Seat<D>>,
        backup: Option<BackupNode<D>>,
    ) -> Result<Cluster<D>, NoMemory> {
        let alloc = site.alloc;
        let outside = Outside::new(alloc, site.members)?;
        let connects = vec![in alloc; 0i64; CLIENTS]?;
        Ok(Cluster {
            site,
            clock: Clock::new(),
            seats,
            outside,
            backup,
            connects,
            joined: Vec::new(alloc),
            free: false,
            told: List::new(alloc),
            refused: 0,
        })
    }

    pub(crate) fn alloc(&self) -> Global {
        self.site.alloc
    }

    /// Tells what became of the order in a line.
    pub(crate) fn tell(&mut self, line: u64, reply: Reply) -> Result<(), NoMemory> {
        if !grants(reply) {
            self.refused = self.refused.saturating_add(1);
        }
        self.told.push(Line::Order { line, reply })
    }

    /// Tells that a member was stopped.
    pub(crate) fn tell_stop(&mut self, member: u8) -> Result<(), NoMemory> {
        self.told.push(Line::Stopped { member })
    }

    /// What a step of a member means for the run: a member that was stopped is told of, and the outcome is handed on.
    pub(crate) fn took(&mut self, member: usize, took: Took) -> Result<Option<Outcome>, NoMemory> {
        match took {
            Took::Taken(outcome) => Ok(outcome),
            Took::Down => Ok(Some(Outcome::MemberDown)),
            Took::Stopped => {
                if let Some(seat) = self.seats.get(member) {
                    let member = seat.member();
                    self.told.push(Line::Stopped { member })?;
                }
                Ok(Some(Outcome::Device))
            }
        }
    }
}
