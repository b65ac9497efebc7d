// The file of a new member.
ghost use Rattle.std.specs.Prelude.{◌≡◌, [], IsTrue, OnOk};
ghost use Rattle.cl_base.specs.Faults.{HasDeviceCause};
ghost use Rattle.cl_base.specs.Disk.{OthersStay};
ghost use Rattle.recording_log.specs.Entries.{IsFresh};

use crate::file::FILE;
use cl_base::{Disk, MemberFault, write_through};

/// Writes the file of a member that has no entries yet, and syncs it. The file is empty before.
pub fn format<D: Disk>(disk: &mut D) -> Result<(), MemberFault>
    ensures cause { HasDeviceCause (D.fault_count disk.old) (D.fault_count disk.new) result }
    ensures tells { D.tells disk.new ≡ D.tells disk.old }
    ensures honest { D.is_honest disk.new ≡ D.is_honest disk.old }
    ensures others { IsTrue (D.tells disk.old) → OthersStay 1 (D.state disk.old).files (D.state disk.new).files }
    ensures done { IsTrue (D.tells disk.old) → ((D.state disk.old).files 1).reads ≡ [] → OnOk result (IsFresh ((D.state disk.new).files 1)) }
{
    match write_through(disk, FILE, 0, &[0; 64]) {
        Ok(()) => Ok(()),
        Err(trouble) => Err(MemberFault::from(trouble)),
    }
}
