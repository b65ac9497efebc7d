// One entry of a mounted disk.
ghost use Rattle.std.specs.Prelude.{◌≡◌, ◌<◌, length, slice_index_or, IsTrue, IfOk};
ghost use Rattle.cl_base.specs.declared.entry.Entry.{Entry as OneEntry};
ghost use Rattle.cluster_tool.specs.Disks.{Reads};

use cl_base::{Disk, Entry, MemberFault};
use member_disk::MemberDisk;

/// Reads the entry at an index of the log, below the number of its entries.
pub(crate) fn entry_at<D: Disk>(
    member: &mut MemberDisk<D>,
    index: u64,
) -> Result<Entry, MemberFault>
    requires whole { IsTrue member.old.whole }
    requires index { index < length member.old.kept.log }
    ensures reads { Reads D.tells D.is_honest D.state D.fault_count member.old member.new result }
    ensures entry { IsTrue (D.tells member.old.disk) → (d : OneEntry) → IfOk result (λ e. e ≡ slice_index_or member.old.kept.log index d) }
{
    member.read(index)
}
