// Which snapshots of packets are put.
ghost use Rattle.std.specs.Prelude.{◌≡◌, ◌≤◌, ◌<◌, ◌^◌, ◌≤ℤ◌, ◌<ℤ◌, ◌↔◌, pos, None, IfSome, IsTrue};
ghost use Rattle.entry_log.specs.Log.{Log, place};
ghost use Rattle.entry_log.specs.Shape.{shape_of};
ghost use Rattle.member_disk.specs.Kept.{Kept};
ghost use Rattle.member_disk.specs.Changes.{IsMemberOf};
ghost use Rattle.cluster_backup.specs.Taking.{IsLatest, IsAbove, CanPut, head_of as head_in};

use entry_log::LogIndex;
use member_disk::{Durable, SnapshotHead};

/// Whether a snapshot is of the module, at -1, or of one of so many services.
#[tactic(auto, using(crate::proofs::Bringing::member_of, crate::proofs::Bringing::member_low, crate::proofs::Bringing::member_high))]
fn is_member(head: SnapshotHead, services: u8) -> bool
    ensures { IsTrue result ↔ IsMemberOf services head.service }
{
    -1 <= head.service && head.service < i32::from(services)
}

/// What a snapshot is of, None where its recording is none: not 0 to 1,023.
pub fn head_of(
    recording: i64,
    term: i64,
    position: i64,
    stamp: i64,
    service: i32,
) -> Option<SnapshotHead>
    ensures some { IfSome result (λ h. (h ≡ head_in recording term position stamp service) × (pos 0 ≤ℤ recording) × (recording <ℤ pos 1024)) }
    ensures none { result ≡ None → pos 0 ≤ℤ recording → pos 1024 ≤ℤ recording }
{
    if recording < 0 || recording >= 1_024 {
        return None;
    }
    Some(SnapshotHead {
        recording: recording.unsigned_abs(),
        service,
        term,
        position: position.unsigned_abs(),
        stamp,
    })
}

/// The position of the latest valid set of snapshots, None where there is none.
#[tactic(auto, using(crate::proofs::Bringing::latest_at, crate::proofs::Bringing::none_latest))]
pub fn latest_in(durable: &Durable) -> Option<u64>
    ensures latest { IsLatest durable.now result }
    ensures range { IfSome result (λ p. p ≤ 2 ^ 62) }
{
    let sets = durable.sets();
    if sets.is_empty() {
        return None;
    }
    Some(sets[sets.len() - 1].position)
}

/// Whether a position is above that of the latest valid set.
#[tactic(auto, using(crate::proofs::Bringing::above_latest, crate::proofs::Bringing::latest_above))]
fn is_above(latest: Option<u64>, position: u64) -> bool
    ensures { (kept : Kept) → IsLatest kept latest → IsTrue result ↔ IsAbove position kept }
{
    match latest {
        Some(other) => other < position,
        None => true,
    }
}

/// Whether a position is within a log, by its index.
fn is_within(index: &LogIndex, position: u64) -> bool
    ensures { (log : Log) → index.now ≡ shape_of log → IsTrue result ↔ position ≤ place log }
{
    position <= index.place()
}

/// Whether a snapshot can be put.
pub fn can_put(durable: &Durable, head: SnapshotHead) -> bool
    requires { head.recording < 1024 }
    ensures { IsTrue result ↔ CanPut durable.now head }
{
    if !is_member(head, durable.services()) {
        return false;
    }
    if !is_within(durable.index(), head.position) {
        return false;
    }
    is_above(latest_in(durable), head.position)
}
