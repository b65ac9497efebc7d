// The steps.
ghost use Rattle.std.specs.Prelude.{◌≡◌, length, OnOk};
ghost use Rattle.entry_log.specs.Log.{IsPrefixOf};
ghost use Rattle.service_runs.specs.Hosts.{printed_by};
ghost use Rattle.world.specs.World.{step};
ghost use Rattle.world.specs.Safe.{ReignsHold, TermsHold, VotesHold};
ghost use Rattle.agreement.specs.View.{CommitsHold, CutsKeep, IsAgreed, IsGrounded, view_of};
ghost use Rattle.one_log.specs.Opened.{TermsOpen};
ghost use Rattle.world_steps.specs.Promises.{GoesOn, IsServed};
ghost use Rattle.world_steps.specs.Steps.{IsGiven, IsReached, step_of};

use crate::cluster::World;
use crate::cut::Cut;
use cl_base::{List, NoMemory};
use sbe_events::Event;

/// One step of the protocol.
#[derive(Drop)]
pub enum Step {
    /// Time rises to this moment (ms), where that is later and at most 2^60.
    Passes {
        now: u64,
    },
    /// A stopped member starts.
    Starts {
        member: u8,
    },
    /// A running member stops.
    Stops {
        member: u8,
    },
    /// A running member has its duty. A leader is given the last keep-alive of each session (ms) and the moment since which
    /// it leads (ms).
    Duty {
        member: u8,
        alive: List<(i64, u64)>,
        since: u64,
        cut: Cut,
    },
    /// A packet is delivered, where its receiver runs: any that was ever sent, counted from 0, any number of times.
    Delivers {
        which: u64,
        cut: Cut,
    },
    /// A client's event, or an operator's, comes to a member that leads, where it is of the leader's term, stamped now and
    /// admitted behind its log.
    Client {
        member: u8,
        event: Event,
        cut: Cut,
    },
}

/// Makes one step of a world that such steps reached. It is the protocol's step, and all that is promised of worlds goes on
/// to hold. A step whose guard doesn't hold changes nothing, and the printed log only grows. Where there is no memory the
/// world is only given up.
pub fn world_step(w: &mut World, s: &Step) -> Result<(), NoMemory>
    requires reached { IsReached w.old }
    requires given { IsGiven s.now }
    ensures step { OnOk result (w.new.world ≡ step w.old.world (step_of w.old s.now)) }
    ensures printed { OnOk result (w.new.printed ≡ printed_by (length w.new.world.members) w.new.world w.old.printed) }
    ensures kinds { OnOk result (w.new.kinds ≡ w.old.kinds) }
    ensures reached { OnOk result (IsReached w.new) }
    ensures unchanged { OnOk result (w.new.world ≡ w.old.world → w.new ≡ w.old) }
    ensures grows { OnOk result (IsPrefixOf w.old.printed w.new.printed) }
    ensures goes_on { OnOk result (GoesOn w.old.world w.new.world) }
    ensures terms { OnOk result (TermsHold w.new.world) }
    ensures votes { OnOk result (VotesHold w.new.world) }
    ensures reigns { OnOk result (ReignsHold (length w.new.world.members) w.new.world) }
    ensures opens { OnOk result (TermsOpen w.new.world) }
    ensures grounded { OnOk result (IsGrounded (view_of w.new.world)) }
    ensures agreed { OnOk result (IsAgreed (view_of w.new.world)) }
    ensures commits { OnOk result (CommitsHold w.new.world) }
    ensures cuts { OnOk result (CutsKeep w.new.world) }
    ensures served { OnOk result (IsServed w.new) }
{
    make(w, s)?;
    w.prints()?;
    Ok(())
}

/// Makes one step, of which nothing is printed yet.
fn make(w: &mut World, s: &Step) -> Result<(), NoMemory>
    requires reached { IsReached w.old }
    requires given { IsGiven s.now }
    ensures { OnOk result (w.new ≡ record w.old { world = step w.old.world (step_of w.old s.now) }) }
{
    match s {
        Step::Passes { now } => {
            w.passes(*now);
            Ok(())
        }
        Step::Starts { member } => w.starts(*member),
        Step::Stops { member } => w.stops(*member),
        Step::Duty {
            member,
            alive,
            since,
            cut,
        } => w.duty(*member, alive, *since, *cut),
        Step::Delivers { which, cut } => w.delivers(*which, *cut),
        Step::Client { member, event, cut } => w.client(*member, event, *cut),
    }
}
