// The packets that a member answers a query with.
ghost use Rattle.std.specs.Prelude.{◌≡◌, ◌<◌, ◌≤◌, ◌^◌, ◌≤ℤ◌, ◌↔◌, All, IfOk, IfSome, Ok, None, length, pos};
ghost use Rattle.snapshot_store.specs.Snapshots.{ArePieces};
ghost use Rattle.cluster_backup.specs.Spelling.{spelling_of};
ghost use Rattle.cluster_backup.specs.Giving.{IsEvent, FitsPacket};
ghost use Rattle.cluster_backup.specs.declared.packet.BackupPacket.{BackupPacket};

use crate::encode::encode_backup;
use crate::packet::{BackupPacket, number};
use cl_base::limits::NUMBER_LIMIT;
use cl_base::{Bytes, List, NoMemory};
use member_disk::SetEntry;
use std::alloc::Global;

/// The packet of entries, of which the first has this index, by their events: 1 to 64.
#[tactic(auto, using(crate::proofs::Given::log_numbered))]
pub fn entries_packet(alloc: Global, start: u64, events: List<Bytes>) -> Result<Bytes, NoMemory>
    requires start { start ≤ 2 ^ 62 }
    requires some { 1 ≤ length events }
    requires few { length events ≤ 64 }
    requires events { All IsEvent events }
    ensures { IfOk result (λ b. b ≡ spelling_of (BackupPacket.Log (pos start) events)) }
{
    let packet = BackupPacket::Log {
        start: number(start),
        events,
    };
    encode_backup(alloc, &packet)
}

/// The packet of the snapshot of a service, or of the module at -1. None exactly where no packet spells it: its stamp
/// isn't 0 to 2^62, or it has 2^31 pieces or more.
#[tactic(auto, using(crate::proofs::Given::snapshot_numbered))]
pub fn snapshot_packet(
    alloc: Global,
    service: i32,
    entry: SetEntry,
) -> Result<Option<Bytes>, NoMemory>
    requires recording { entry.recording < 1024 }
    requires low { pos 0 ≤ℤ entry.term }
    requires high { entry.term ≤ℤ pos (2 ^ 62) }
    requires position { entry.position ≤ 2 ^ 62 }
    requires pieces { ArePieces entry.pieces }
    ensures some { IfOk result (λ o. IfSome o (λ b. b ≡ spelling_of (BackupPacket.Snapshot (pos entry.recording) entry.term (pos entry.position) entry.stamp service entry.pieces))) }
    ensures none { result ≡ Ok None ↔ (FitsPacket entry.stamp entry.pieces → ⊥) }
{
    if entry.stamp < 0
        || entry.stamp > NUMBER_LIMIT as i64
        || entry.pieces.len() > i32::MAX as usize
    {
        return Ok(None);
    }
    let packet = BackupPacket::Snapshot {
        recording: number(entry.recording),
        term: entry.term,
        position: number(entry.position),
        stamp: entry.stamp,
        service,
        pieces: entry.pieces,
    };
    let bytes = encode_backup(alloc, &packet)?;
    Ok(Some(bytes))
}
