// A member's disk.
use crate::durable::{Durable, SetEntry, SnapshotHead};
use crate::mount::mount_files;
use cl_base::{Bytes, Disk, Entry, MemberFault};
use entry_log::LogIndex;
use std::alloc::Global;
use std::marker::Model;

/// A member's files as one durable state, with the disk that they are on.
#[derive(Drop)]
pub struct MemberDisk<D: Disk> {
    disk: D,
    durable: Durable,
    /// No change has failed.
    is_whole: bool,
}

impl<D: Disk> Model for MemberDisk<D> {
    ghost use Rattle.std.specs.Prelude.{◌≡◌, IsTrue, true};
    ghost use Rattle.member_disk.specs.Kept.{Held, ReadsAs};

    ghost Value = { Held D };

    ghost view = { λ m. record { kept = m.durable; whole = m.is_whole; disk = m.disk } };

    ghost invariant = { λ m. IsTrue m.is_whole → IsTrue (D.tells m.disk) → ReadsAs m.durable (D.state m.disk).files };
}

impl<D: Disk> MemberDisk<D> {
    ghost use Rattle.std.specs.Prelude.{◌≡◌, ◌≢◌, ◌⊎◌, ◌+◌, ◌<◌, ◌≤◌, ◌^◌, ◌++◌, ◌∷◌, [], ◌↔◌, ℕ, pos, ◌<ℤ◌, ◌≤ℤ◌, All, IsTrue, IsFalse, IfOk, IfErr, IfSome, OnOk, OnErr, Ok, Err, MatchResult, Some, length, take};
    ghost use Rattle.cl_base.specs.Counts.{Rose};
    ghost use Rattle.cl_base.specs.Faults.{HasDeviceCause, HasMountCause, IsNoLogFull};
    ghost use Rattle.cl_base.specs.Disk.{LeavesOnly, OthersStay, IsImageOf, settled_file};
    ghost use Rattle.cl_base.specs.Looks.{Looks};
    ghost use Rattle.cl_base.specs.declared.entry.Entry.{Entry};
    ghost use Rattle.recording_log.specs.declared.entry.RecEntry.{RecEntry};
    ghost use Rattle.recording_log.specs.Sets.{HasNoSet, IsLatest, struck};
    ghost use Rattle.recording_log.specs.Listed.{IsThere};
    ghost use Rattle.entry_log.specs.Log.{Log, RisesFrom, last, place, place_from};
    ghost use Rattle.entry_log.specs.Shape.{shape_of, entry_shape};
    ghost use Rattle.log_segment.specs.Batch.{IsBatchAt};
    ghost use Rattle.log_segment.specs.Held.{IsEventEntry, IsHeld, AreRanged, new_terms};
    ghost use Rattle.log_segment.specs.Looked.{IsOnly};
    ghost use Rattle.snapshot_store.specs.Snapshots.{ArePieces, spelled};
    ghost use Rattle.member_disk.specs.Kept.{Kept, ReadsAs, ReadsLike, Means, EachStands, IsSettled};
    ghost use Rattle.member_disk.specs.Parts.{IsMade, made, raise_part, put_part, append_parts, cut_parts, MountEnds};
    ghost use Rattle.member_disk.specs.Struck.{IsStruck, with_struck};
    ghost use Rattle.member_disk.specs.CutWell.{IsCutWell, no_file, file_of};
    ghost use Rattle.node_state.specs.Node.{IsVersionTwo, mount_calls};
    ghost use Rattle.member_disk.specs.Latest.{IsLatestEntry};
    ghost use Rattle.member_disk.specs.Changes.{HaveTerms, IsAppended, entry_for, HasMoreTerms, IsHead, IsPut, IsMemberOf, HasSome, HasAppendCause};

    /// Reads what the files of a member with so many services stand for. A node state of version 1 is made one of version
    /// 2. Damaged names the first wrong place: first of the node state, then of the recording log, then of the segments,
    /// then place 0 of the recording log where a TERM entry is missing, then of the snapshots of valid sets. The disk
    /// comes back with an error.
    pub fn mount(alloc: Global, disk: D, services: u8) -> Result<MemberDisk<D>, (D, MemberFault)>
        ensures tells { MatchResult result (λ m. D.tells m.disk ≡ D.tells disk) (λ e. D.tells e.0 ≡ D.tells disk) }
        ensures honest { MatchResult result (λ m. D.is_honest m.disk ≡ D.is_honest disk) (λ e. D.is_honest e.0 ≡ D.is_honest disk) }
        ensures whole { IfOk result (λ m. IsTrue m.whole) }
        ensures services { IfOk result (λ m. m.kept.services ≡ services) }
        ensures terms { IfOk result (λ m. HaveTerms m.kept.entries (new_terms 0 m.kept.log)) }

        // It gives what the files stand for.
        ensures gives { IsTrue (D.tells disk) → IfOk result (λ m. ReadsLike m.kept (D.state disk).files) }
        ensures others { IsTrue (D.tells disk) → MatchResult result (λ m. OthersStay 0 (D.state disk).files (D.state m.disk).files) (λ e. OthersStay 0 (D.state disk).files (D.state e.0).files) }
        // Where the node state is of version 2, it only looks: no changing call is made.
        ensures looks { IsTrue (D.tells disk) → IsVersionTwo ((D.state disk).files 0).reads
            → MatchResult result (λ m. Looks {T = Unit {0}} MemberFault.Device (D.state disk) (D.state m.disk) (Ok tt)) (λ e. Looks {T = Unit {0}} MemberFault.Device (D.state disk) (D.state e.0) (Err e.1)) }
        ensures any_moment { IsTrue (D.is_honest disk) → IsVersionTwo ((D.state disk).files 0).reads
            → MatchResult result (λ m. LeavesOnly D.moment D.left_since disk m.disk (IsImageOf (D.state disk).files)) (λ e. LeavesOnly D.moment D.left_since disk e.0 (IsImageOf (D.state disk).files)) }

        // It is the only one that they stand for.
        ensures once { IsTrue (D.tells disk) → (kept : Kept) → ReadsLike kept (D.state disk).files → IsHeld kept.log → kept.services ≡ services → IfOk result (λ m. m.kept ≡ kept) }

        // Where a crash before would leave what a read gives, each image stands for it then, and at any moment of the
        // call each means it, as does what each choice leaves where a fuse ends it.
        ensures settled { IsTrue (D.is_honest disk) → IsSettled (D.state disk).files → IfOk result (λ m. EachStands m.kept (D.state m.disk).files) }
        ensures run { IsTrue (D.is_honest disk) → IsSettled (D.state disk).files → (kept : Kept) → ReadsLike kept (D.state disk).files
            → MatchResult result (λ m. LeavesOnly D.moment D.left_since disk m.disk (Means kept)) (λ e. LeavesOnly D.moment D.left_since disk e.0 (Means kept)) }
        ensures fuse { IsTrue (D.is_honest disk) → IsSettled (D.state disk).files → (kept : Kept) → ReadsLike kept (D.state disk).files
            → MatchResult result (λ m. MountEnds {T = Unit {0}} (mount_calls ((D.state disk).files 0).reads) kept (D.state disk) (D.state m.disk) (Ok tt))
            (λ e. MountEnds {T = Unit {0}} (mount_calls ((D.state disk).files 0).reads) kept (D.state disk) (D.state e.0) (Err e.1)) }
        ensures cause { MatchResult result (λ m. D.fault_count disk ≤ D.fault_count m.disk)
            (λ e. (D.fault_count disk ≤ D.fault_count e.0) × (e.1 ≡ MemberFault.Device → Rose (D.fault_count disk) (D.fault_count e.0))) }
    {
        let mut disk = disk;
        match mount_files(alloc, &mut disk, services) {
            Ok(durable) => Ok(MemberDisk {
                disk,
                durable,
                is_whole: true,
            }),
            Err(fault) => Err((disk, fault)),
        }
    }

    /// Raises the candidate term, at most 2^62, with the member voted for in it, 0 to 4. After an error the value is
    /// only given up.
    pub fn raise_term(&mut self, term: i64, voted: Option<u8>) -> Result<(), MemberFault>
        requires whole { IsTrue self.old.whole }
        requires above { self.old.kept.node.term <ℤ term }
        requires high { term ≤ℤ pos (2 ^ 62) }
        requires member { IfSome voted (λ m. m < 5) }
        ensures ok { OnOk result (self.new.kept ≡ (raise_part self.old.kept term voted).makes) }
        ensures err { OnErr result (self.new.kept ≡ self.old.kept) }
        ensures cause { HasDeviceCause (D.fault_count self.old.disk) (D.fault_count self.new.disk) result }
        ensures tells { D.tells self.new.disk ≡ D.tells self.old.disk }
        ensures honest { D.is_honest self.new.disk ≡ D.is_honest self.old.disk }
        ensures whole { OnOk result (IsTrue self.new.whole) }

        // After Ok each image stands for it, at any moment each stands for it or for what was before, and what a fuse leaves
        // is as the part says.
        ensures made { IsTrue (D.is_honest self.old.disk) → EachStands self.old.kept (D.state self.old.disk).files
            → IsMade D.state D.moment D.left_since (raise_part self.old.kept term voted ∷ []) self.old.kept self.old.disk self.new.disk result }
        // Whatever the answer, and whenever a crash comes, a mount finds the state before or the one after.
        ensures cut_well { IsTrue (D.is_honest self.old.disk) → EachStands self.old.kept (D.state self.old.disk).files → HaveTerms self.old.kept.entries (new_terms 0 self.old.kept.log)
            → IsCutWell D.state D.moment D.left_since no_file self.old.kept (raise_part self.old.kept term voted).makes self.old.disk self.new.disk }
    {
        match self.durable.raise(&mut self.disk, term, voted) {
            Ok(()) => Ok(()),
            Err(fault) => {
                self.is_whole = false;
                Err(fault)
            }
        }
    }

    /// Appends a batch: 1 to 64 strict events in one segment, one alone or at most 8,192 bytes of them, whose terms
    /// don't fall from the log's last on. LogFull is where the log would end past its last segment: then nothing is
    /// changed. After another error the value is only given up.
    pub fn append(&mut self, entries: &[Entry]) -> Result<(), MemberFault>
        requires whole { IsTrue self.old.whole }
        requires batch { IsBatchAt (place self.old.kept.log) entries.now }
        requires events { All IsEventEntry entries.now }
        requires rises { RisesFrom (last self.old.kept.log) entries.now }
        ensures ok { OnOk result (IsAppended entries.now self.old.kept self.new.kept) }
        ensures err { OnErr result (HasMoreTerms self.old.kept self.new.kept) }
        ensures full { (place : ℕ) → result ≡ Err (MemberFault.LogFull place) → (self.new ≡ self.old) × (16777216 < place) }
        // LogFull comes exactly where the log would end past its last segment, and names that place.
        ensures full_at { (at : ℕ) → result ≡ Err (MemberFault.LogFull at) → at ≡ place_from (place self.old.kept.log) entries.now }
        ensures fills { 16777216 < place_from (place self.old.kept.log) entries.now → result ≡ Err (MemberFault.LogFull (place_from (place self.old.kept.log) entries.now)) }
        ensures cause { HasAppendCause (D.fault_count self.old.disk) (D.fault_count self.new.disk) result }
        ensures tells { D.tells self.new.disk ≡ D.tells self.old.disk }
        ensures honest { D.is_honest self.new.disk ≡ D.is_honest self.old.disk }
        ensures whole { OnOk result (IsTrue self.new.whole) }
        ensures makes { OnOk result (self.new.kept ≡ made (append_parts self.old.kept entries.now) self.old.kept) }
        // First the TERM entries that it wants, each a part, and then the batch.
        ensures made { IsTrue (D.is_honest self.old.disk) → EachStands self.old.kept (D.state self.old.disk).files
            → IsMade D.state D.moment D.left_since (append_parts self.old.kept entries.now) self.old.kept self.old.disk self.new.disk result }
        // Whatever the answer, and whenever a crash comes, a mount finds the state before or the one after.
        ensures cut_well { IsTrue (D.is_honest self.old.disk) → EachStands self.old.kept (D.state self.old.disk).files → HaveTerms self.old.kept.entries (new_terms 0 self.old.kept.log)
            → IsCutWell D.state D.moment D.left_since no_file self.old.kept (record self.old.kept { log = self.old.kept.log ++ entries.now }) self.old.disk self.new.disk }
    {
        match self.durable.append(&mut self.disk, entries) {
            Ok(()) => Ok(()),
            Err(MemberFault::LogFull { place }) => Err(MemberFault::LogFull { place }),
            Err(fault) => {
                self.is_whole = false;
                Err(fault)
            }
        }
    }

    /// Keeps the first entries of the log, at most as many as it has. After an error the value is only given up.
    pub fn cut(&mut self, entries: u64) -> Result<(), MemberFault>
        requires whole { IsTrue self.old.whole }
        requires few { entries ≤ length self.old.kept.log }
        ensures ok { OnOk result (self.new.kept ≡ record self.old.kept { log = take entries self.old.kept.log }) }
        ensures err { OnErr result (self.new.kept ≡ self.old.kept) }
        ensures cause { HasDeviceCause (D.fault_count self.old.disk) (D.fault_count self.new.disk) result }
        ensures tells { D.tells self.new.disk ≡ D.tells self.old.disk }
        ensures honest { D.is_honest self.new.disk ≡ D.is_honest self.old.disk }
        ensures whole { OnOk result (IsTrue self.new.whole) }
        ensures made { IsTrue (D.is_honest self.old.disk) → EachStands self.old.kept (D.state self.old.disk).files
            → IsMade D.state D.moment D.left_since (cut_parts self.old.kept entries) self.old.kept self.old.disk self.new.disk result }
        // Whatever the answer, and whenever a crash comes, a mount finds the state before or the one after.
        ensures cut_well { IsTrue (D.is_honest self.old.disk) → EachStands self.old.kept (D.state self.old.disk).files → HaveTerms self.old.kept.entries (new_terms 0 self.old.kept.log)
            → IsCutWell D.state D.moment D.left_since no_file self.old.kept (record self.old.kept { log = take entries self.old.kept.log }) self.old.disk self.new.disk }
    {
        match self.durable.cut(&mut self.disk, entries) {
            Ok(()) => Ok(()),
            Err(fault) => {
                self.is_whole = false;
                Err(fault)
            }
        }
    }

    /// Puts a snapshot of a service or of the module, with its strict pieces of fewer than 2^32 bytes each. Where it is
    /// there already nothing is changed. After an error the value is only given up.
    pub fn put_snapshot(&mut self, head: SnapshotHead, pieces: &[Bytes]) -> Result<(), MemberFault>
        requires whole { IsTrue self.old.whole }
        requires head { IsHead head }
        requires pieces { All (λ p. length p < 2 ^ 32) pieces.now }
        ensures ok { OnOk result (IsPut head self.old.kept self.new.kept) }
        // A snapshot that is new is in its file, all of it on the disk.
        ensures stored { IsTrue (D.tells self.old.disk) → (IsThere (entry_for self.old.kept head) self.old.kept.entries → ⊥) → OnOk result ((D.state self.new.disk).files (258 + head.recording) ≡ settled_file (spelled pieces.now)) }
        ensures err { OnErr result (self.new.kept ≡ self.old.kept) }
        ensures cause { HasDeviceCause (D.fault_count self.old.disk) (D.fault_count self.new.disk) result }
        ensures tells { D.tells self.new.disk ≡ D.tells self.old.disk }
        ensures honest { D.is_honest self.new.disk ≡ D.is_honest self.old.disk }
        ensures whole { OnOk result (IsTrue self.new.whole) }
        ensures made { IsTrue (D.is_honest self.old.disk) → EachStands self.old.kept (D.state self.old.disk).files → (IsThere (entry_for self.old.kept head) self.old.kept.entries → ⊥)
            → IsMade D.state D.moment D.left_since (put_part self.old.kept head ∷ []) self.old.kept self.old.disk self.new.disk result }
        ensures again { IsThere (entry_for self.old.kept head) self.old.kept.entries → self.new.disk ≡ self.old.disk }
        // Where it fails the snapshot is in its file, or each image of the disk stands for what was kept.
        ensures filed { IsTrue (D.is_honest self.old.disk) → EachStands self.old.kept (D.state self.old.disk).files → (IsThere (entry_for self.old.kept head) self.old.kept.entries → ⊥)
            → OnErr result (EachStands self.old.kept (D.state self.new.disk).files ⊎ ((D.state self.new.disk).files (258 + head.recording) ≡ settled_file (spelled pieces.now))) }
        // Whatever the answer, and whenever a crash comes, a mount finds the state before or the one after.
        ensures cut_well { IsTrue (D.is_honest self.old.disk) → EachStands self.old.kept (D.state self.old.disk).files → HaveTerms self.old.kept.entries (new_terms 0 self.old.kept.log) → (IsThere (entry_for self.old.kept head) self.old.kept.entries → ⊥)
            → IsCutWell D.state D.moment D.left_since (file_of head.recording) self.old.kept (put_part self.old.kept head).makes self.old.disk self.new.disk }
    {
        match self.durable.put_snapshot(&mut self.disk, head, pieces) {
            Ok(()) => Ok(()),
            Err(fault) => {
                self.is_whole = false;
                Err(fault)
            }
        }
    }

    /// Makes the module's entry of the latest valid set invalid, and with it the set. False exactly where there is no
    /// valid set: then nothing is changed. After an error the value is only given up.
    pub fn invalidate(&mut self) -> Result<bool, MemberFault>
        requires whole { IsTrue self.old.whole }
        ensures found { IfOk result (λ found. IsFalse found ↔ HasNoSet self.old.kept.services self.old.kept.entries) }
        ensures nothing { HasNoSet self.old.kept.services self.old.kept.entries → self.new.kept ≡ self.old.kept }
        ensures untouched { HasNoSet self.old.kept.services self.old.kept.entries → D.state self.new.disk ≡ D.state self.old.disk }
        ensures ok { (i : ℕ) (e : RecEntry) → IsLatest self.old.kept.services self.old.kept.entries i e → OnOk result (self.new.kept ≡ record self.old.kept { entries = struck i e self.old.kept.entries }) }
        ensures err { OnErr result (self.new.kept ≡ self.old.kept) }
        ensures cause { HasDeviceCause (D.fault_count self.old.disk) (D.fault_count self.new.disk) result }
        ensures tells { D.tells self.new.disk ≡ D.tells self.old.disk }
        ensures honest { D.is_honest self.new.disk ≡ D.is_honest self.old.disk }
        ensures whole { OnOk result (IsTrue self.new.whole) }
        // Of the byte that is written last a crash may leave any value: then what counts is as before or as after.
        ensures struck { IsTrue (D.is_honest self.old.disk) → EachStands self.old.kept (D.state self.old.disk).files → (i : ℕ) (e : RecEntry) → IsLatest self.old.kept.services self.old.kept.entries i e
            → IsStruck D.state D.moment D.left_since self.old.kept (with_struck self.old.kept i e) self.old.disk self.new.disk result }
        // Whatever the answer, and whenever a crash comes, a mount finds the state before or the one after.
        ensures cut_well { IsTrue (D.is_honest self.old.disk) → EachStands self.old.kept (D.state self.old.disk).files → HaveTerms self.old.kept.entries (new_terms 0 self.old.kept.log) → (i : ℕ) (e : RecEntry) → IsLatest self.old.kept.services self.old.kept.entries i e
            → IsCutWell D.state D.moment D.left_since no_file self.old.kept (with_struck self.old.kept i e) self.old.disk self.new.disk }
    {
        match self.durable.invalidate(&mut self.disk) {
            Ok(found) => Ok(found),
            Err(fault) => {
                self.is_whole = false;
                Err(fault)
            }
        }
    }

    /// Reads the entry at an index, below the number of entries.
    pub fn read(&mut self, index: u64) -> Result<Entry, MemberFault>
        requires whole { IsTrue self.old.whole }
        requires index { index < length self.old.kept.log }
        ensures cause { HasMountCause (D.fault_count self.old.disk) (D.fault_count self.new.disk) result }
        ensures tells { D.tells self.new.disk ≡ D.tells self.old.disk }
        ensures honest { D.is_honest self.new.disk ≡ D.is_honest self.old.disk }
        ensures whole { IsTrue self.new.whole }
        ensures kept { self.new.kept ≡ self.old.kept }
        ensures looks { IsTrue (D.tells self.old.disk) → Looks MemberFault.Device (D.state self.old.disk) (D.state self.new.disk) result }
        ensures any_moment { IsTrue (D.is_honest self.old.disk) → LeavesOnly D.moment D.left_since self.old.disk self.new.disk (IsImageOf (D.state self.old.disk).files) }
        // It is an event of the length and the term that are kept, and on a disk that tells the very entry.
        ensures entry { (kept rest : Log) (e : Entry) → self.old.kept.log ≡ kept ++ e ∷ rest → length kept ≡ index → IfOk result (λ v. IsEventEntry v × (entry_shape v ≡ entry_shape e)) }
        ensures exact { IsTrue (D.tells self.old.disk) → (kept rest : Log) (e : Entry) → self.old.kept.log ≡ kept ++ e ∷ rest → length kept ≡ index → IsOnly e result }
    {
        self.durable.read(&mut self.disk, index)
    }

    /// Reads the snapshot of a service, or of the module at -1, in the latest valid set, of which there is one.
    pub fn set_entry(&mut self, service: i32) -> Result<SetEntry, MemberFault>
        requires whole { IsTrue self.old.whole }
        requires some { HasSome self.old.kept.services self.old.kept.entries }
        requires service { IsMemberOf self.old.kept.services service }
        ensures cause { HasMountCause (D.fault_count self.old.disk) (D.fault_count self.new.disk) result }
        ensures tells { D.tells self.new.disk ≡ D.tells self.old.disk }
        ensures honest { D.is_honest self.new.disk ≡ D.is_honest self.old.disk }
        ensures whole { IsTrue self.new.whole }
        ensures kept { self.new.kept ≡ self.old.kept }
        ensures looks { IsTrue (D.tells self.old.disk) → Looks MemberFault.Device (D.state self.old.disk) (D.state self.new.disk) result }
        ensures any_moment { IsTrue (D.is_honest self.old.disk) → LeavesOnly D.moment D.left_since self.old.disk self.new.disk (IsImageOf (D.state self.old.disk).files) }
        ensures strict { IfOk result (λ e. ArePieces e.pieces) }
        ensures named { IfOk result (λ e. e.recording < 1024) }
        ensures low { IfOk result (λ e. pos 0 ≤ℤ e.term) }
        ensures high { IfOk result (λ e. e.term ≤ℤ pos (2 ^ 62)) }
        ensures placed { IfOk result (λ e. e.position ≤ 2 ^ 62) }
        // It is what the entry says, and the pieces are those of the file that it names.
        ensures latest { IfOk result (IsLatestEntry self.old.kept.services self.old.kept.entries service) }
        ensures pieces { IsTrue (D.tells self.old.disk) → IfOk result (λ e. spelled e.pieces ≡ ((D.state self.old.disk).files (258 + e.recording)).reads) }
    {
        self.durable.set_entry(&mut self.disk, service)
    }

    /// What the disk stands for.
    pub fn durable(&self) -> &Durable
        ensures { result.now ≡ self.now.kept }
    {
        &self.durable
    }

    /// The index of the log.
    pub fn index(&self) -> &LogIndex
        ensures index { result.now ≡ shape_of self.now.kept.log }
        ensures sound { IsHeld self.now.kept.log }
        ensures ranged { AreRanged result.now }
    {
        self.durable.index()
    }

    /// Whether no change has failed. Where one has, the value is only given up.
    pub fn is_whole(&self) -> bool
        ensures { result ≡ self.now.whole }
    {
        self.is_whole
    }

    /// How often a call of the disk failed.
    pub fn faults(&self) -> u64
        ensures { result ≡ D.fault_count self.now.disk }
    {
        self.disk.faults()
    }

    /// Lets so many changing calls of the disk pass. The next one and every call after it fail.
    pub fn fuse(&mut self, calls: u64)
        ensures kept { self.new.kept ≡ self.old.kept }
        ensures whole { self.new.whole ≡ self.old.whole }
        ensures count { D.fault_count self.new.disk ≡ D.fault_count self.old.disk }
        ensures tells { D.tells self.new.disk ≡ D.tells self.old.disk }
        ensures honest { D.is_honest self.new.disk ≡ D.is_honest self.old.disk }
        ensures told { IsTrue (D.tells self.old.disk) → D.state self.new.disk ≡ record (D.state self.old.disk) { lets = Some calls } }
    {
        self.disk.fuse(calls);
    }

    /// The disk, as it stands.
    pub fn into_disk(self) -> D
        ensures { result ≡ self.disk }
    {
        self.disk
    }
}
