// The changes of a member's disk.
ghost use Rattle.std.specs.Prelude.{◌≡◌, ◌≤◌, IsTrue, OnErr, OnOk, length};
ghost use Rattle.entry_log.specs.Shape.{shape_of};
ghost use Rattle.consensus_core.specs.declared.change.Change.TheVariants as Change;
ghost use Rattle.consensus_core.specs.Standing.{CanFollow};
ghost use Rattle.consensus_agent.specs.Disks.{Done, Went};
ghost use Rattle.consensus_agent.specs.Rows.{IsKept, Made};
ghost use Rattle.consensus_agent.specs.Sound.{CanRaise};

use crate::fault::AgentFault;
use cl_base::{Disk, Entry};
use member_disk::MemberDisk;

/// Raises the candidate term above the one that there is, with the member voted for in it.
pub fn raise<D: Disk>(
    disk: &mut MemberDisk<D>,
    term: i64,
    voted: Option<u8>,
) -> Result<(), AgentFault>
    requires whole { IsTrue disk.old.whole }
    requires can { CanRaise term voted disk.old.kept.node }
    ensures made { OnOk result (Made (Change.Raise term voted) disk.old.kept disk.new.kept) }
    ensures stays { OnErr result (IsKept disk.old.kept.node disk.old.kept.log disk.new.kept) }
    ensures whole { OnOk result (IsTrue disk.new.whole) }
    ensures went { Went D.state D.tells D.is_honest (Change.Raise term voted) disk.old disk.new }
    ensures done { OnOk result (Done D.state D.tells D.is_honest (Change.Raise term voted) disk.old disk.new) }
{
    disk.raise_term(term, voted)?;
    Ok(())
}

/// Appends entries that can go behind the log: one batch of events whose terms don't fall.
#[tactic(auto, using(crate::proofs::Batches::batch_of, crate::proofs::Batches::rises_of, crate::proofs::Entries::all_events))]
pub fn append<D: Disk>(disk: &mut MemberDisk<D>, entries: &[Entry]) -> Result<(), AgentFault>
    requires whole { IsTrue disk.old.whole }
    requires follows { CanFollow (shape_of disk.old.kept.log) entries.now }
    ensures made { OnOk result (Made (Change.Append entries.now) disk.old.kept disk.new.kept) }
    ensures stays { OnErr result (IsKept disk.old.kept.node disk.old.kept.log disk.new.kept) }
    ensures whole { OnOk result (IsTrue disk.new.whole) }
    ensures went { Went D.state D.tells D.is_honest (Change.Append entries.now) disk.old disk.new }
    ensures done { OnOk result (Done D.state D.tells D.is_honest (Change.Append entries.now) disk.old disk.new) }
{
    disk.append(entries)?;
    Ok(())
}

/// Cuts the log to the first entries, at most as many as it has.
pub fn cut<D: Disk>(disk: &mut MemberDisk<D>, entries: u64) -> Result<(), AgentFault>
    requires whole { IsTrue disk.old.whole }
    requires few { entries ≤ length disk.old.kept.log }
    ensures made { OnOk result (Made (Change.Cut entries) disk.old.kept disk.new.kept) }
    ensures stays { OnErr result (IsKept disk.old.kept.node disk.old.kept.log disk.new.kept) }
    ensures whole { OnOk result (IsTrue disk.new.whole) }
    ensures went { Went D.state D.tells D.is_honest (Change.Cut entries) disk.old disk.new }
    ensures done { OnOk result (Done D.state D.tells D.is_honest (Change.Cut entries) disk.old disk.new) }
{
    disk.cut(entries)?;
    Ok(())
}
