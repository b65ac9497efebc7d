// The entries that are read to be sent on.
ghost use Rattle.std.specs.Prelude.{◌≡◌, ◌≤◌, ◌-◌, IsTrue, IfOk, OnOk, length};
ghost use Rattle.cl_base.specs.Looks.{Same};
ghost use Rattle.consensus_core.specs.Member.{entries_in};
ghost use Rattle.consensus_agent.specs.Disks.{Looked};
ghost use Rattle.consensus_agent.specs.Reads.{AreRead, AreWithin, IsReadOn};

use crate::fault::AgentFault;
use cl_base::{Disk, Entry, List};
use member_disk::MemberDisk;
use std::alloc::Global;

/// Reads so many entries of the log from one on, and puts them behind those that were read before.
#[tactic(auto, using(crate::proofs::Entries::length_shape))]
fn read_range<D: Disk>(
    disk: &mut MemberDisk<D>,
    first: u64,
    count: u64,
    batches: &mut List<Entry>,
) -> Result<(), AgentFault>
    requires whole { IsTrue disk.old.whole }
    requires within { count ≤ length disk.old.kept.log - first }
    ensures whole { IsTrue disk.new.whole }
    ensures looked { Looked D.state D.tells D.is_honest disk.old disk.new }
    ensures same { IsTrue (D.tells disk.old.disk) → OnOk result (Same (D.state disk.old.disk) (D.state disk.new.disk)) }
    ensures read { OnOk result (IsReadOn (D.tells disk.old.disk) disk.old.kept.log first count batches.old batches.new) }
{
    let _entries = disk.index().entries();
    for index in first..first.saturating_add(count) {
        let entry = disk.read(index)?;
        batches.push(entry)?;
    }
    Ok(())
}

/// Reads the entries of these ranges, which lie within the log, one range after the other.
pub fn read_ranges<D: Disk>(
    alloc: Global,
    disk: &mut MemberDisk<D>,
    ranges: &[(u64, u64)],
) -> Result<List<Entry>, AgentFault>
    requires whole { IsTrue disk.old.whole }
    requires within { AreWithin ranges.now (length disk.old.kept.log) }
    ensures whole { IsTrue disk.new.whole }
    ensures looked { Looked D.state D.tells D.is_honest disk.old disk.new }
    ensures same { IsTrue (D.tells disk.old.disk) → OnOk result (Same (D.state disk.old.disk) (D.state disk.new.disk)) }
    ensures read { IfOk result (AreRead ranges.now) }
    ensures exact { IsTrue (D.tells disk.old.disk) → IfOk result (λ es. es ≡ entries_in ranges.now disk.old.kept.log) }
{
    let mut batches = List::new(alloc);
    for range in ranges {
        read_range(disk, range.0, range.1, &mut batches)?;
    }
    Ok(batches)
}
