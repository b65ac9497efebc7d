// A backup.
ghost use Rattle.std.specs.Prelude.{◌≡◌, length};

use crate::answer::{BackupFault, Taken};
use crate::decode::decode_backup;
use crate::entries::behind;
use crate::packet::BackupPacket;
use crate::query::query_of;
use crate::snapshots::{can_put, head_of};
use cl_base::{Bytes, Disk, Entry, MemberFault, NoMemory};
use entry_log::LogIndex;
use member_disk::{Durable, MemberDisk, SnapshotHead};
use std::alloc::Global;
use std::marker::Model;
use wire_prims::DecodeFault;

/// A node that is no member. It copies committed entries and the latest valid set of snapshots into files laid out as a
/// member's, and votes for nobody.
#[derive(Drop)]
pub struct Backup<D: Disk> {
    alloc: Global,
    disk: MemberDisk<D>,
}

impl<D: Disk> Model for Backup<D> {
    ghost use Rattle.member_disk.specs.Kept.{Held};

    ghost Value = { Held D };

    ghost view = { λ b. b.disk };
}

impl<D: Disk> Backup<D> {
    ghost use Rattle.std.specs.Prelude.{◌≡◌, ◌++◌, ◌∷◌, ◌+◌, ◌<◌, ◌≤◌, ◌↔◌, ℕ, ℤ, List, IsTrue, IfOk, OnOk, OnErr, Ok, Err, MatchResult, Some, pos, unsigned_abs};
    ghost use Rattle.cl_base.specs.Counts.{Rose};
    ghost use Rattle.cl_base.specs.Disk.{LeavesOnly, OthersStay, settled_file};
    ghost use Rattle.wire_prims.specs.declared.fault.Bad.{Bad};
    ghost use Rattle.cl_base.specs.Faults.{HasMountCause};
    ghost use Rattle.cl_base.specs.declared.entry.Entry.{Entry as OneEntry};
    ghost use Rattle.entry_log.specs.Log.{Log as EntryLog};
    ghost use Rattle.entry_log.specs.Shape.{shape_of, entry_shape};
    ghost use Rattle.log_segment.specs.Held.{IsEventEntry, IsHeld, AreRanged, new_terms};
    ghost use Rattle.log_segment.specs.Looked.{IsOnly};
    ghost use Rattle.node_state.specs.Node.{mount_calls};
    ghost use Rattle.recording_log.specs.Listed.{IsThere};
    ghost use Rattle.snapshot_store.specs.Snapshots.{spelled};
    ghost use Rattle.member_disk.specs.Kept.{Kept, ReadsLike, Means, EachStands, IsSettled};
    ghost use Rattle.member_disk.specs.Parts.{MountEnds};
    ghost use Rattle.member_disk.specs.Changes.{HaveTerms, HasMoreTerms, IsHead, entry_for};
    ghost use Rattle.cluster_backup.specs.Spelling.{HasSpelling, AreParts, first_fault, packet_of};
    ghost use Rattle.cluster_backup.specs.Taking.{CanPut, EntriesBring, SnapshotBrings, Brings, HasBackupCause, IsQuery, head_of as head_in};
    ghost use Rattle.member_disk.specs.CutWell.{IsDurable};
    ghost use Rattle.cluster_backup.specs.Copying.{IsLike, Took};
    ghost use Rattle.cluster_backup.specs.Cutting.{EntriesCutWell, SnapshotCutWell, PacketCutWell};
    ghost use Rattle.cluster_backup.specs.declared.part.Part.TheVariants as part;
    ghost use Rattle.cluster_backup.specs.declared.packet.BackupPacket.{BackupPacket};

    /// Reads what the files of a backup of so many services stand for, as a member's are read. The disk comes back with an
    /// error.
    pub fn mount(alloc: Global, disk: D, services: u8) -> Result<Backup<D>, (D, MemberFault)>
        ensures tells { MatchResult result (λ m. D.tells m.disk ≡ D.tells disk) (λ e. D.tells e.0 ≡ D.tells disk) }
        ensures honest { MatchResult result (λ m. D.is_honest m.disk ≡ D.is_honest disk) (λ e. D.is_honest e.0 ≡ D.is_honest disk) }
        ensures whole { IfOk result (λ m. IsTrue m.whole) }
        ensures services { IfOk result (λ m. m.kept.services ≡ services) }
        ensures terms { IfOk result (λ m. HaveTerms m.kept.entries (new_terms 0 m.kept.log)) }

        // It gives what the files stand for, and that alone.
        ensures gives { IsTrue (D.tells disk) → IfOk result (λ m. ReadsLike m.kept (D.state disk).files) }
        ensures others { IsTrue (D.tells disk) → MatchResult result (λ m. OthersStay 0 (D.state disk).files (D.state m.disk).files) (λ e. OthersStay 0 (D.state disk).files (D.state e.0).files) }
        ensures once { IsTrue (D.tells disk) → (kept : Kept) → ReadsLike kept (D.state disk).files → IsHeld kept.log → kept.services ≡ services → IfOk result (λ m. m.kept ≡ kept) }

        // Whatever a crash left that is durable as this, it is found so.
        ensures finds { IsTrue (D.tells disk) → (kept : Kept) → IsDurable kept (λ f. ((D.state disk).files f).reads) → IsHeld kept.log → kept.services ≡ services → IfOk result (λ m. IsLike kept m.kept) }
        // What a crash leaves at any moment of the call means the same, as does what each choice leaves where a fuse ends it.
        ensures settled { IsTrue (D.is_honest disk) → IsSettled (D.state disk).files → IfOk result (λ m. EachStands m.kept (D.state m.disk).files) }
        ensures run { IsTrue (D.is_honest disk) → IsSettled (D.state disk).files → (kept : Kept) → ReadsLike kept (D.state disk).files
            → MatchResult result (λ m. LeavesOnly D.moment D.left_since disk m.disk (Means kept)) (λ e. LeavesOnly D.moment D.left_since disk e.0 (Means kept)) }
        ensures fuse { IsTrue (D.is_honest disk) → IsSettled (D.state disk).files → (kept : Kept) → ReadsLike kept (D.state disk).files
            → MatchResult result (λ m. MountEnds {T = Unit {0}} (mount_calls ((D.state disk).files 0).reads) kept (D.state disk) (D.state m.disk) (Ok tt))
            (λ e. MountEnds {T = Unit {0}} (mount_calls ((D.state disk).files 0).reads) kept (D.state disk) (D.state e.0) (Err e.1)) }
        ensures cause { MatchResult result (λ m. D.fault_count disk ≤ D.fault_count m.disk)
            (λ e. (D.fault_count disk ≤ D.fault_count e.0) × (e.1 ≡ MemberFault.Device → Rose (D.fault_count disk) (D.fault_count e.0))) }
    {
        match MemberDisk::mount(alloc, disk, services) {
            Ok(disk) => Ok(Backup { alloc, disk }),
            Err(error) => Err(error),
        }
    }

    /// Asks for what comes after what it has: its entries, and the position of its latest valid set.
    pub fn query(&self) -> Result<Bytes, NoMemory>
        ensures { IfOk result (IsQuery self.now.kept) }
    {
        query_of(self.alloc, self.disk.durable())
    }

    /// Takes bytes. Of a packet with entries those past its own are appended, and a packet's snapshot is put; any other
    /// bytes change nothing. After an error, where a change has begun, it is only mounted again: always after Device.
    pub fn take(&mut self, bytes: &[u8]) -> Result<Taken, BackupFault>
        requires whole { IsTrue self.old.whole }
        // A packet brings what it can, and is answered so.
        ensures packet { (p : BackupPacket) → packet_of bytes.now ≡ Some p → IfOk result (λ taken. Brings self.old.kept p taken self.new.kept) }
        // Other bytes change nothing.
        ensures bad { (b : Bad) → first_fault bytes.now ≡ Some b → IfOk result (λ taken. (taken ≡ Taken.Bad b) × (self.new.kept ≡ self.old.kept)) }
        // The pieces of a snapshot that is new are in its file, all of them on the disk.
        ensures stored { IsTrue (D.tells self.old.disk) → (recording term position stamp service : ℤ) (pieces : List (List ℕ)) → packet_of bytes.now ≡ Some (BackupPacket.Snapshot recording term position stamp service pieces)
            → (IsThere (entry_for self.old.kept (head_in recording term position stamp service)) self.old.kept.entries → ⊥) → result ≡ Ok Taken.Part → (D.state self.new.disk).files (258 + unsigned_abs recording) ≡ settled_file (spelled pieces) }
        ensures err { OnErr result (HasMoreTerms self.old.kept self.new.kept) }
        ensures cause { HasBackupCause (D.fault_count self.old.disk) (D.fault_count self.new.disk) result }
        ensures tells { D.tells self.new.disk ≡ D.tells self.old.disk }
        ensures honest { D.is_honest self.new.disk ≡ D.is_honest self.old.disk }
        ensures whole { OnOk result (IsTrue self.new.whole) }

        // Whatever the answer, and whenever a crash comes, a mount finds the state before or the one after.
        ensures cut_well { IsTrue (D.is_honest self.old.disk) → EachStands self.old.kept (D.state self.old.disk).files → HaveTerms self.old.kept.entries (new_terms 0 self.old.kept.log)
            → (p : BackupPacket) → packet_of bytes.now ≡ Some p → PacketCutWell D.state D.moment D.left_since self.old.kept p self.old.disk self.new.disk }
        ensures untouched { (b : Bad) → first_fault bytes.now ≡ Some b → self.new.disk ≡ self.old.disk }
        // What is kept is what a law over every list of packets and stops speaks of.
        ensures took { Took bytes.now self.old.kept self.new.kept }
    {
        match decode_backup(self.alloc, bytes) {
            Ok(packet) => self.take_packet(&packet),
            Err(DecodeFault::Bad(bad)) => Ok(Taken::Bad(bad)),
            Err(DecodeFault::NoMemory) => Err(BackupFault::NoMemory),
        }
    }

    fn take_packet(&mut self, packet: &BackupPacket) -> Result<Taken, BackupFault>
        requires whole { IsTrue self.old.whole }
        requires spelled { HasSpelling packet.now }
        ensures brings { IfOk result (λ taken. Brings self.old.kept packet.now taken self.new.kept) }
        ensures stored { IsTrue (D.tells self.old.disk) → (recording term position stamp service : ℤ) (pieces : List (List ℕ)) → packet.now ≡ BackupPacket.Snapshot recording term position stamp service pieces
            → (IsThere (entry_for self.old.kept (head_in recording term position stamp service)) self.old.kept.entries → ⊥) → result ≡ Ok Taken.Part → (D.state self.new.disk).files (258 + unsigned_abs recording) ≡ settled_file (spelled pieces) }
        ensures err { OnErr result (HasMoreTerms self.old.kept self.new.kept) }
        ensures cause { HasBackupCause (D.fault_count self.old.disk) (D.fault_count self.new.disk) result }
        ensures tells { D.tells self.new.disk ≡ D.tells self.old.disk }
        ensures honest { D.is_honest self.new.disk ≡ D.is_honest self.old.disk }
        ensures whole { OnOk result (IsTrue self.new.whole) }
        ensures cut_well { IsTrue (D.is_honest self.old.disk) → EachStands self.old.kept (D.state self.old.disk).files → HaveTerms self.old.kept.entries (new_terms 0 self.old.kept.log)
            → PacketCutWell D.state D.moment D.left_since self.old.kept packet.now self.old.disk self.new.disk }
    {
        match packet {
            BackupPacket::Query { .. } => Ok(Taken::Nothing),
            BackupPacket::Log { start, events } => self.take_entries(*start, events.as_slice()),
            BackupPacket::Snapshot {
                recording,
                term,
                position,
                stamp,
                service,
                pieces,
            } => match head_of(*recording, *term, *position, *stamp, *service) {
                Some(head) => self.take_snapshot(head, pieces.as_slice()),
                None => Ok(Taken::Nothing),
            },
        }
    }

    /// Appends those entries past its own that can go behind its log.
    #[tactic(auto, using(crate::proofs::Bringing::same_terms, crate::proofs::Bringing::append_cause))]
    fn take_entries(&mut self, start: i64, events: &[Bytes]) -> Result<Taken, BackupFault>
        requires whole { IsTrue self.old.whole }
        requires events { AreParts part.Event events.now }
        ensures brings { IfOk result (λ taken. EntriesBring self.old.kept start events.now taken self.new.kept) }
        ensures err { OnErr result (HasMoreTerms self.old.kept self.new.kept) }
        ensures cause { HasBackupCause (D.fault_count self.old.disk) (D.fault_count self.new.disk) result }
        ensures tells { D.tells self.new.disk ≡ D.tells self.old.disk }
        ensures honest { D.is_honest self.new.disk ≡ D.is_honest self.old.disk }
        ensures whole { OnOk result (IsTrue self.new.whole) }
        ensures cut_well { IsTrue (D.is_honest self.old.disk) → EachStands self.old.kept (D.state self.old.disk).files → HaveTerms self.old.kept.entries (new_terms 0 self.old.kept.log)
            → EntriesCutWell D.state D.moment D.left_since self.old.kept start events.now self.old.disk self.new.disk }
    {
        let entries = behind(self.alloc, self.disk.index(), start, events)?;
        if entries.is_empty() {
            return Ok(Taken::Nothing);
        }
        self.disk.append(entries.as_slice())?;
        Ok(Taken::Grown(entries.len() as u64))
    }

    /// Puts a snapshot, if it can be put.
    #[tactic(auto, using(crate::proofs::Bringing::same_terms, crate::proofs::Bringing::put_cause))]
    fn take_snapshot(&mut self, head: SnapshotHead, pieces: &[Bytes]) -> Result<Taken, BackupFault>
        requires whole { IsTrue self.old.whole }
        requires head { IsHead head }
        requires pieces { AreParts part.Piece pieces.now }
        ensures brings { IfOk result (λ taken. SnapshotBrings self.old.kept (pos head.recording) head taken self.new.kept) }
        ensures stored { IsTrue (D.tells self.old.disk) → (IsThere (entry_for self.old.kept head) self.old.kept.entries → ⊥) → result ≡ Ok Taken.Part → (D.state self.new.disk).files (258 + head.recording) ≡ settled_file (spelled pieces.now) }
        ensures err { OnErr result (HasMoreTerms self.old.kept self.new.kept) }
        ensures cause { HasBackupCause (D.fault_count self.old.disk) (D.fault_count self.new.disk) result }
        ensures tells { D.tells self.new.disk ≡ D.tells self.old.disk }
        ensures honest { D.is_honest self.new.disk ≡ D.is_honest self.old.disk }
        ensures whole { OnOk result (IsTrue self.new.whole) }
        ensures cut_well { IsTrue (D.is_honest self.old.disk) → EachStands self.old.kept (D.state self.old.disk).files → HaveTerms self.old.kept.entries (new_terms 0 self.old.kept.log)
            → SnapshotCutWell D.state D.moment D.left_since self.old.kept (pos head.recording) head self.old.disk self.new.disk }
    {
        if !can_put(self.disk.durable(), head) {
            return Ok(Taken::Nothing);
        }
        self.disk.put_snapshot(head, pieces)?;
        Ok(Taken::Part)
    }

    /// Reads the entry at an index, below the number of entries.
    pub fn read(&mut self, index: u64) -> Result<Entry, MemberFault>
        requires whole { IsTrue self.old.whole }
        requires index { index < length self.old.kept.log }
        ensures cause { HasMountCause (D.fault_count self.old.disk) (D.fault_count self.new.disk) result }
        ensures tells { D.tells self.new.disk ≡ D.tells self.old.disk }
        ensures honest { D.is_honest self.new.disk ≡ D.is_honest self.old.disk }
        ensures kept { self.new.kept ≡ self.old.kept }
        ensures whole { IsTrue self.new.whole }
        // It is an event of the length and the term that are kept, and on a disk that tells the very entry.
        ensures entry { (kept rest : EntryLog) (e : OneEntry) → self.old.kept.log ≡ kept ++ e ∷ rest → length kept ≡ index → IfOk result (λ v. IsEventEntry v × (entry_shape v ≡ entry_shape e)) }
        ensures exact { IsTrue (D.tells self.old.disk) → (kept rest : EntryLog) (e : OneEntry) → self.old.kept.log ≡ kept ++ e ∷ rest → length kept ≡ index → IsOnly e result }
    {
        self.disk.read(index)
    }

    /// What its disk stands for.
    pub fn durable(&self) -> &Durable
        ensures { result.now ≡ self.now.kept }
    {
        self.disk.durable()
    }

    /// The index of its log.
    pub fn index(&self) -> &LogIndex
        ensures index { result.now ≡ shape_of self.now.kept.log }
        ensures sound { IsHeld self.now.kept.log }
        ensures ranged { AreRanged result.now }
    {
        self.disk.index()
    }

    /// Whether no change has failed. Where one has, it is only mounted again.
    pub fn is_whole(&self) -> bool
        ensures { result ≡ self.now.whole }
    {
        self.disk.is_whole()
    }

    /// How often a call of its disk failed.
    pub fn faults(&self) -> u64
        ensures { result ≡ D.fault_count self.now.disk }
    {
        self.disk.faults()
    }

    /// The disk, as it stands.
    pub fn into_disk(self) -> D
        ensures { result ≡ self.disk }
    {
        let Backup { alloc: _, disk } = self;
        disk.into_disk()
    }
}
