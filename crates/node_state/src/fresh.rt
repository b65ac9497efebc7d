// The file of a new member.
ghost use Rattle.std.specs.Prelude.{◌≡◌, [], IsTrue, OnOk};
ghost use Rattle.cl_base.specs.Faults.{HasDeviceCause};
ghost use Rattle.cl_base.specs.Disk.{OthersStay};
ghost use Rattle.node_state.specs.Node.{IsFresh};

use cl_base::{Disk, MemberFault, write_through};

/// No candidate term and nobody voted for, in both slots, of version 2.
const FRESH: [u8; 32] = [
    255, 255, 255, 255, 255, 255, 255, 255, 255, 255, 255, 255, 255, 255, 255, 255, 0, 2, 0, 0,
    255, 255, 255, 255, 255, 255, 255, 255, 0, 0, 0, 0,
];

/// Writes the file of a member that has no candidate term yet and has voted for nobody, and syncs it. The file is empty
/// before.
pub fn format<D: Disk>(disk: &mut D) -> Result<(), MemberFault>
    ensures cause { HasDeviceCause (D.fault_count disk.old) (D.fault_count disk.new) result }
    ensures tells { D.tells disk.new ≡ D.tells disk.old }
    ensures honest { D.is_honest disk.new ≡ D.is_honest disk.old }
    ensures others { IsTrue (D.tells disk.old) → OthersStay 0 (D.state disk.old).files (D.state disk.new).files }
    ensures done { IsTrue (D.tells disk.old) → ((D.state disk.old).files 0).reads ≡ [] → OnOk result (IsFresh ((D.state disk.new).files 0)) }
{
    match write_through(disk, 0, 0, &FRESH) {
        Ok(()) => Ok(()),
        Err(trouble) => Err(MemberFault::from(trouble)),
    }
}
