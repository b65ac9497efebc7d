// A row that a member's part in the agreement just ran, and what it leaves to be noted.
ghost use Rattle.std.specs.Prelude.{◌≡◌, [], None, IfOk};
ghost use Rattle.world.specs.World.{is_elected, raises_by};
ghost use Rattle.world_steps.specs.Members.{cut_of, reigns_from, row_run};
ghost use Rattle.world_steps.specs.Steps.{listed};

use crate::cut::Cut;
use crate::history::{Raise, Reign, Sent};
use crate::kept::Kept;
use cl_base::{List, NoMemory};
use consensus_core::{Change, Core, State};
use std::alloc::Global;

/// A row that a member's part in the agreement just ran: the state before it, what the part is now, and the change that is
/// to be made.
#[derive(Drop)]
pub struct Ran {
    pub was: State,
    pub core: Core,
    pub change: Change,
}

/// What a row of a member leaves to be noted.
#[derive(Drop)]
pub struct Done {
    pub raise: Option<Raise>,
    pub sent: List<Sent>,
    pub reign: Option<Reign>,
}

impl Done {
    /// Nothing is noted.
    pub fn nothing(alloc: Global) -> Done
        ensures raise { result.raise ≡ None }
        ensures sent { result.sent ≡ [] }
        ensures reign { result.reign ≡ None }
    {
        Done {
            raise: None,
            sent: List::new(alloc),
            reign: None,
        }
    }
}

/// Whether it was elected, and its new term event isn't in its log yet.
fn is_elected(state: State) -> bool
    ensures { result ≡ is_elected state }
{
    matches!(state, State::LeaderInit)
}

impl Ran {
    /// The raise for a vote that the change makes, unless a stop cuts it, of a voter with this disk.
    pub fn raise(&self, number: u8, cut: Cut, kept: &Kept) -> Result<Option<Raise>, NoMemory>
        ensures { IfOk result (λ r. listed r ≡ raises_by number kept.now.log self.now.change (cut_of cut)) }
    {
        match (cut, &self.change) {
            (
                Cut::Whole | Cut::After,
                Change::Raise {
                    term,
                    voted: Some(choice),
                },
            ) => Ok(Some(Raise {
                voter: number,
                term: *term,
                choice: *choice,
                log: kept.copies()?,
            })),
            _ => Ok(None),
        }
    }

    /// The reign that the row begins, unless a stop cuts it, of a member with this disk.
    pub fn reign(&self, number: u8, cut: Cut, kept: &Kept) -> Result<Option<Reign>, NoMemory>
        ensures { IfOk result (λ r. listed r ≡ reigns_from number self.now.was (row_run self.now.core self.now.change) kept.now.log (cut_of cut)) }
    {
        if !matches!(cut, Cut::Whole) || is_elected(self.was) || !is_elected(self.core.state()) {
            return Ok(None);
        }
        Ok(Some(Reign {
            term: self.core.term(),
            member: number,
            first: kept.copies()?,
        }))
    }
}
