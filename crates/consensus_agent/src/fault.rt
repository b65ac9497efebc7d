// Why a call of a member was not done.
ghost use Rattle.std.specs.Prelude.{◌≡◌};

use cl_base::{MemberFault, NoMemory};

/// Why a call of a member was not done.
#[derive(Clone, Copy, Debug, PartialEq, Eq)]
pub enum AgentFault {
    /// The disk's count of faults rose in this call. The caller stops the member.
    Device,
    /// The file of this number, read again, is first wrong at this place (bytes). The caller stops the member.
    Damaged { file: u32, place: u64 },
    /// No memory was there. The member is only given up.
    NoMemory,
}

impl From<NoMemory> for AgentFault {
    ghost use Rattle.consensus_agent.specs.declared.fault.AgentFault.TheVariants as fault;

    ghost from_gives = { λ _ e. e ≡ fault.NoMemory };

    fn from(_: NoMemory) -> AgentFault {
        AgentFault::NoMemory
    }
}

impl From<MemberFault> for AgentFault {
    ghost use Rattle.consensus_agent.specs.Faults.{answered};

    ghost from_gives = { λ fault e. e ≡ answered fault };

    fn from(fault: MemberFault) -> AgentFault {
        match fault {
            MemberFault::Device => AgentFault::Device,
            MemberFault::Damaged { file, place } => AgentFault::Damaged { file, place },
            MemberFault::LogFull { .. } | MemberFault::NoMemory => AgentFault::NoMemory,
        }
    }
}
