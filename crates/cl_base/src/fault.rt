// What a call of the outside, or of a member's files, answers where it was not done.
ghost use Rattle.std.specs.Prelude.{◌≡◌};

use std::alloc::AllocError;

/// A call of something outside failed.
#[derive(Clone, Copy, Debug, PartialEq, Eq)]
pub struct Failed;

/// No memory was there.
#[derive(Clone, Copy, Debug, PartialEq, Eq)]
pub struct NoMemory;

impl From<AllocError> for NoMemory {
    fn from(_: AllocError) -> NoMemory {
        NoMemory
    }
}

/// Why a call of a sink or of a disk was not done.
#[derive(Clone, Copy, Debug, PartialEq, Eq)]
pub enum Trouble {
    /// The outside failed: its count of faults rose.
    Failed,
    /// No memory was there, and nothing changed.
    NoMemory,
}

/// Why a call of a member's files was not done.
#[derive(Clone, Copy, Debug, PartialEq, Eq)]
pub enum MemberFault {
    /// The disk's count of faults rose in this call.
    Device,
    /// The log would end at this place (bytes), past its last segment.
    LogFull { place: u64 },
    /// The file of this number is first wrong at this place (bytes).
    Damaged { file: u32, place: u64 },
    /// No memory was there.
    NoMemory,
}

impl From<Trouble> for MemberFault {
    ghost use Rattle.cl_base.specs.Faults.{fault_of};

    ghost from_gives = { λ t e. e ≡ fault_of t };

    fn from(trouble: Trouble) -> Self {
        match trouble {
            Trouble::Failed => MemberFault::Device,
            Trouble::NoMemory => MemberFault::NoMemory,
        }
    }
}
