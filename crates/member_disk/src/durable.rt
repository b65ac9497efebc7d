// What a member keeps on its disk.
ghost use Rattle.recording_log.specs.Listed.{AreSets};
ghost use Rattle.member_disk.specs.Changes.{IsMemberOf, HasSome, IsLatestPart};

use cl_base::{Bytes, Disk, Entry, List, MemberFault};
use entry_log::LogIndex;
use log_segment::Segments;
use node_state::NodeState;
use recording_log::{RecEntry, RecordingLog, SnapshotAt};
use std::alloc::Global;
use std::marker::Model;

/// What a snapshot is of: a service or the module, and the snapshot action that asked for it.
#[derive(Clone, Copy, Debug, PartialEq, Eq)]
pub struct SnapshotHead {
    /// The recording, 0 to 1,023, which names the file of the pieces.
    pub recording: u64,
    /// The service, from 0 on, or -1 for the module.
    pub service: i32,
    /// The term of the action, 0 to 2^62.
    pub term: i64,
    /// The place of the log after the action, 0 to 2^62, in bytes.
    pub position: u64,
    /// The stamp of the action, 0 to 2^62, in ms.
    pub stamp: i64,
}

/// The snapshot of a service, or of the module, in the latest valid set.
#[derive(Debug, Drop)]
pub struct SetEntry {
    /// The recording, 0 to 1,023.
    pub recording: u64,
    /// The term of its action, 0 to 2^62.
    pub term: i64,
    /// The place of the log after the action, 0 to 2^62, in bytes.
    pub position: u64,
    /// The stamp of the action, in ms.
    pub stamp: i64,
    /// The pieces, each a strict one.
    pub pieces: List<Bytes>,
}

/// What a member keeps on its disk: a candidate term with the member voted for in it, a log, and snapshots.
#[derive(Drop)]
pub struct Durable {
    pub(crate) alloc: Global,
    pub(crate) node: NodeState,
    pub(crate) recording: RecordingLog,
    pub(crate) log: Segments,
    pub(crate) sets: Vec<SnapshotAt>,
    pub(crate) services: u8,
}

impl Model for Durable {
    ghost use Rattle.recording_log.specs.Listed.{AreSets};
    ghost use Rattle.member_disk.specs.Kept.{Kept};

    ghost Value = { Kept };

    ghost view = { λ d. record { node = d.node; entries = d.recording; log = d.log; services = d.services } };

    ghost invariant = { λ d. AreSets d.services d.recording d.sets.items };
}

/// The SNAPSHOT entry of a service, or of the module at -1, in the latest of the valid sets, of which there is one.
fn latest_part(
    recording: &RecordingLog,
    sets: &[SnapshotAt],
    services: u8,
    service: i32,
) -> RecEntry
    requires sets { AreSets services recording.now sets.now }
    requires some { HasSome services recording.now }
    requires service { IsMemberOf services service }
    ensures { IsLatestPart services recording.now service result }
{
    let set = sets[sets.len() - 1];
    match recording.last_part(set, service) {
        Some(entry) => entry,
        None => unreachable!(),
    }
}

impl Durable {
    ghost use Rattle.std.specs.Prelude.{◌≡◌, ◌+◌, ◌<◌, ◌≤◌, ◌^◌, ◌++◌, ◌∷◌, ℕ, pos, ◌≤ℤ◌, IsTrue, IfOk, IfSome, length};
    ghost use Rattle.cl_base.specs.Faults.{HasMountCause};
    ghost use Rattle.cl_base.specs.Disk.{LeavesOnly, IsImageOf};
    ghost use Rattle.cl_base.specs.Looks.{Looks};
    ghost use Rattle.cl_base.specs.declared.entry.Entry.{Entry};
    ghost use Rattle.node_state.specs.Node.{IsTerm};
    ghost use Rattle.recording_log.specs.Listed.{AreSets};
    ghost use Rattle.entry_log.specs.Log.{Log};
    ghost use Rattle.entry_log.specs.Shape.{shape_of, entry_shape};
    ghost use Rattle.log_segment.specs.Held.{IsEventEntry, IsHeld, AreRanged};
    ghost use Rattle.log_segment.specs.Looked.{IsOnly};
    ghost use Rattle.snapshot_store.specs.Snapshots.{ArePieces, spelled};
    ghost use Rattle.member_disk.specs.Kept.{ReadsAs};
    ghost use Rattle.member_disk.specs.Latest.{IsLatestEntry};
    ghost use Rattle.member_disk.specs.Changes.{IsMemberOf, HasSome, IsLatestPart};

    /// The candidate term, -1 to 2^62, where -1 is none.
    pub fn candidate_term(&self) -> i64
        ensures value { result ≡ self.now.node.term }
        ensures range { IsTerm result }
    {
        self.node.candidate_term()
    }

    /// The member voted for in the candidate term, 0 to 4.
    pub fn voted(&self) -> Option<u8>
        ensures value { result ≡ self.now.node.voted }
        ensures range { IfSome result (λ m. m < 5) }
    {
        self.node.voted()
    }

    /// The valid sets of snapshots, by rising position and at one position by rising term. The last is the latest.
    pub fn sets(&self) -> &[SnapshotAt]
        ensures { AreSets self.now.services self.now.entries result.now }
    {
        &self.sets
    }

    /// How many services the member has.
    pub fn services(&self) -> u8
        ensures { result ≡ self.now.services }
    {
        self.services
    }

    /// The index of the log.
    pub fn index(&self) -> &LogIndex
        ensures index { result.now ≡ shape_of self.now.log }
        ensures sound { IsHeld self.now.log }
        ensures ranged { AreRanged result.now }
    {
        self.log.index()
    }

    /// Reads the entry at an index of the log.
    pub(crate) fn read<D: Disk>(&self, disk: &mut D, index: u64) -> Result<Entry, MemberFault>
        requires index { index < length self.now.log }
        requires stands { IsTrue (D.tells disk.old) → ReadsAs self.now (D.state disk.old).files }
        ensures cause { HasMountCause (D.fault_count disk.old) (D.fault_count disk.new) result }
        ensures tells { D.tells disk.new ≡ D.tells disk.old }
        ensures honest { D.is_honest disk.new ≡ D.is_honest disk.old }
        ensures looks { IsTrue (D.tells disk.old) → Looks MemberFault.Device (D.state disk.old) (D.state disk.new) result }
        ensures any_moment { IsTrue (D.is_honest disk.old) → LeavesOnly D.moment D.left_since disk.old disk.new (IsImageOf (D.state disk.old).files) }
        ensures stands { IsTrue (D.tells disk.old) → ReadsAs self.now (D.state disk.new).files }
        ensures entry { (kept rest : Log) (e : Entry) → self.now.log ≡ kept ++ e ∷ rest → length kept ≡ index → IfOk result (λ v. IsEventEntry v × (entry_shape v ≡ entry_shape e)) }
        ensures exact { IsTrue (D.tells disk.old) → (kept rest : Log) (e : Entry) → self.now.log ≡ kept ++ e ∷ rest → length kept ≡ index → IsOnly e result }
    {
        self.log.read(disk, index)
    }

    /// Reads the snapshot of a service, or of the module at -1, in the latest valid set.
    pub(crate) fn set_entry<D: Disk>(
        &self,
        disk: &mut D,
        service: i32,
    ) -> Result<SetEntry, MemberFault>
        requires some { HasSome self.now.services self.now.entries }
        requires service { IsMemberOf self.now.services service }
        requires stands { IsTrue (D.tells disk.old) → ReadsAs self.now (D.state disk.old).files }
        ensures cause { HasMountCause (D.fault_count disk.old) (D.fault_count disk.new) result }
        ensures tells { D.tells disk.new ≡ D.tells disk.old }
        ensures honest { D.is_honest disk.new ≡ D.is_honest disk.old }
        ensures looks { IsTrue (D.tells disk.old) → Looks MemberFault.Device (D.state disk.old) (D.state disk.new) result }
        ensures any_moment { IsTrue (D.is_honest disk.old) → LeavesOnly D.moment D.left_since disk.old disk.new (IsImageOf (D.state disk.old).files) }
        ensures stands { IsTrue (D.tells disk.old) → ReadsAs self.now (D.state disk.new).files }
        ensures strict { IfOk result (λ e. ArePieces e.pieces) }
        ensures named { IfOk result (λ e. e.recording < 1024) }
        ensures low { IfOk result (λ e. pos 0 ≤ℤ e.term) }
        ensures high { IfOk result (λ e. e.term ≤ℤ pos (2 ^ 62)) }
        ensures placed { IfOk result (λ e. e.position ≤ 2 ^ 62) }
        // It is what the entry says, and the pieces are those of the file that it names.
        ensures latest { IfOk result (IsLatestEntry self.now.services self.now.entries service) }
        ensures pieces { IsTrue (D.tells disk.old) → IfOk result (λ e. spelled e.pieces ≡ ((D.state disk.old).files (258 + e.recording)).reads) }
    {
        let entry = latest_part(&self.recording, &self.sets, self.services, service);
        let part = entry.as_snapshot();
        match snapshot_store::read(self.alloc, disk, part.recording) {
            Ok(pieces) => Ok(SetEntry {
                recording: part.recording,
                term: part.term,
                position: part.position,
                stamp: entry.stamp,
                pieces,
            }),
            Err(fault) => Err(fault),
        }
    }
}
