// What a backup answers.
ghost use Rattle.std.specs.Prelude.{◌≡◌};

use cl_base::{MemberFault, NoMemory};
use wire_prims::Bad;

/// What became of bytes that a backup was given.
#[derive(Clone, Copy, Debug, PartialEq, Eq)]
pub enum Taken {
    /// So many entries were appended to its log.
    Grown(u64),
    /// The snapshot of a service or of the module is on its disk.
    Part,
    /// The bytes are a packet that brings nothing now.
    Nothing,
    /// The bytes are no packet.
    Bad(Bad),
}

/// Why a call of a backup was not done.
#[derive(Clone, Copy, Debug, PartialEq, Eq)]
pub enum BackupFault {
    /// The disk's count of faults rose in this call. The backup is mounted again.
    Device,
    /// No memory was there.
    NoMemory,
}

impl From<NoMemory> for BackupFault {
    ghost use Rattle.cluster_backup.specs.declared.answer.BackupFault.TheVariants as faults;

    ghost from_gives = { λ _ e. e ≡ faults.NoMemory };

    fn from(_: NoMemory) -> BackupFault {
        BackupFault::NoMemory
    }
}

impl From<MemberFault> for BackupFault {
    ghost use Rattle.cluster_backup.specs.Taking.{fault_of};

    ghost from_gives = { λ t e. e ≡ fault_of t };

    fn from(fault: MemberFault) -> BackupFault {
        match fault {
            MemberFault::Device => BackupFault::Device,
            _ => BackupFault::NoMemory,
        }
    }
}
