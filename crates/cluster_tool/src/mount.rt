// The mount of a disk.
ghost use Rattle.std.specs.Prelude.{MatchResult};
ghost use Rattle.cluster_tool.specs.Disks.{IsRead, MountFails};
ghost use Rattle.cluster_tool.specs.Listed.{IsMounted};

use crate::ToolStatus;
use cl_base::Disk;
use member_disk::MemberDisk;
use std::alloc::Global;

/// Mounts a disk of this number with so many services. Where its files don't stand for a member, or it can't be read, it
/// comes back with the answer.
pub(crate) fn mounted<D: Disk>(
    alloc: Global,
    number: u64,
    disk: D,
    services: u8,
) -> Result<MemberDisk<D>, (D, ToolStatus)>
    ensures { MatchResult result (IsMounted D.tells D.is_honest D.state D.fault_count services disk)
        (λ e. IsRead D.tells D.is_honest D.state D.fault_count disk e.0 × MountFails D.fault_count number disk e.0 e.1) }
{
    match MemberDisk::mount(alloc, disk, services) {
        Ok(member) => {
            // Its index says that the entries of its log are events.
            let _ = member.index();
            Ok(member)
        }
        Err((disk, fault)) => Err((disk, ToolStatus::of(number, fault))),
    }
}
