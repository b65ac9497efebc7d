// A first look at a disk.
ghost use Rattle.std.specs.Prelude.{◌≡◌, ◌≢◌, ◌↔◌, length, slice_index, IsTrue, IfOk, IfSome, None};
ghost use Rattle.cl_base.specs.Counts.{HasCause};
ghost use Rattle.cluster_tool.specs.Disks.{IsOldNode, IsOld, IsSeen, TurnsAway};

use crate::ToolStatus;
use cl_base::{Disk, Trouble, read_some};

/// The bytes of a node state.
const NODE_BYTES: usize = 32;

/// Where the version stands in it.
const VERSION_AT: usize = 17;

/// The version that is read without a change.
const VERSION: u8 = 2;

/// The bytes of a node state of version 1: there are 32, and the version isn't 2.
fn is_old_node(bytes: &[u8]) -> bool
    ensures { IsTrue result ↔ IsOldNode bytes.now }
{
    bytes.len() == NODE_BYTES && bytes[VERSION_AT] != VERSION
}

/// The node state of a disk is of version 1. Nothing is changed.
fn is_old<D: Disk>(disk: &mut D) -> Result<bool, Trouble>
    ensures old { IsTrue (D.tells disk.old) → IfOk result (λ old. IsTrue old ↔ IsOld (D.state disk.old).files) }
    ensures cause { HasCause (D.fault_count disk.old) (D.fault_count disk.new) result }
    ensures seen { IsSeen D.tells D.is_honest D.state D.fault_count disk.old disk.new }
{
    let mut bytes = [0; 33];
    match read_some(disk, 0, 0, &mut bytes) {
        Ok(count) => Ok(is_old_node(&bytes[..count])),
        Err(trouble) => Err(trouble),
    }
}

/// Why a disk of this number isn't mounted: its node state is of version 1, or it can't be looked at.
pub(crate) fn turned_away<D: Disk>(number: u64, disk: &mut D) -> Option<ToolStatus>
    ensures some { IfSome result (TurnsAway D.tells D.state D.fault_count number disk.old disk.new) }
    ensures none { result ≡ None → IsTrue (D.tells disk.old) → IsOld (D.state disk.old).files → ⊥ }
    ensures seen { IsSeen D.tells D.is_honest D.state D.fault_count disk.old disk.new }
{
    match is_old(disk) {
        Ok(false) => None,
        Ok(true) => Some(ToolStatus::Old { disk: number }),
        Err(Trouble::Failed) => Some(ToolStatus::DiskFault { disk: number }),
        Err(Trouble::NoMemory) => Some(ToolStatus::NoMemory),
    }
}
