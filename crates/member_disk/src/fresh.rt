// The disk of a new member.
ghost use Rattle.std.specs.Prelude.{◌≡◌, IsTrue, OnOk};
ghost use Rattle.cl_base.specs.Faults.{HasDeviceCause};
ghost use Rattle.member_disk.specs.Fresh.{AreEmpty, IsFresh};

use cl_base::{Disk, MemberFault};
use log_segment::format_log;

/// Makes a disk whose files are all empty that of a new member: no candidate term, nobody voted for, an empty log and
/// no snapshots. Each file is synced.
pub fn format<D: Disk>(disk: &mut D) -> Result<(), MemberFault>
    ensures cause { HasDeviceCause (D.fault_count disk.old) (D.fault_count disk.new) result }
    ensures tells { D.tells disk.new ≡ D.tells disk.old }
    ensures honest { D.is_honest disk.new ≡ D.is_honest disk.old }
    ensures fresh { IsTrue (D.tells disk.old) → AreEmpty (D.state disk.old).files → OnOk result (IsFresh (D.state disk.new).files) }
{
    match node_state::format(disk) {
        Ok(()) => match recording_log::format(disk) {
            Ok(()) => format_log(disk),
            Err(fault) => Err(fault),
        },
        Err(fault) => Err(fault),
    }
}
