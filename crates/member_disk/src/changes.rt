// The changes of what a member keeps.
ghost use Rattle.std.specs.Prelude.{◌≡◌, ◌⊎◌, ◌≢◌, ◌+◌, ◌<◌, ◌≤◌, ◌^◌, ◌++◌, ◌∷◌, [], ◌↔◌, ℕ, pos, ◌<ℤ◌, ◌≤ℤ◌, All, IsTrue, IsFalse, IfOk, IfErr, IfSome, OnOk, OnErr, Err, Some, length, take};
ghost use Rattle.cl_base.specs.Faults.{HasDeviceCause};
ghost use Rattle.cl_base.specs.Disk.{OthersStay, settled_file};
ghost use Rattle.entry_log.specs.Log.{RisesFrom, last, place, place_from};
ghost use Rattle.recording_log.specs.declared.entry.RecEntry.{RecEntry};
ghost use Rattle.recording_log.specs.Sets.{HasNoSet, IsLatest, struck};
ghost use Rattle.recording_log.specs.Listed.{IsThere};
ghost use Rattle.snapshot_store.specs.Snapshots.{spelled};
ghost use Rattle.log_segment.specs.Batch.{IsBatchAt};
ghost use Rattle.log_segment.specs.Held.{IsEventEntry, new_term_of, put_term, new_terms};
ghost use Rattle.member_disk.specs.Kept.{ReadsAs, EachStands};
ghost use Rattle.member_disk.specs.Parts.{IsMade, made, raise_part, entry_part, put_part, wanted_parts, term_parts, append_parts, cut_parts};
ghost use Rattle.member_disk.specs.Struck.{IsStruck, with_struck};
ghost use Rattle.member_disk.specs.CutWell.{Spares, IsCutWell, no_file, file_of};
ghost use Rattle.member_disk.specs.Changes.{IsNewRanged, HasTerm, HaveTerms, HasMoreTerms, IsAppended, base_of, entry_for, IsHead, IsPut, HasAppendCause};

use crate::durable::{Durable, SnapshotHead};
use cl_base::{Bytes, Disk, Entry, MemberFault};
use log_segment::NewTerm;
use recording_log::{RecEntry, TermAt};

/// The term is of this number.
fn is_of(new: NewTerm, term: i64) -> bool
    ensures { IsTrue result ↔ (new.term ≡ term) }
{
    new.term == term
}

/// Where the first of these terms of a number begins, 0 where there is none.
fn base_in(terms: &[NewTerm], term: i64) -> u64
    ensures { result ≡ base_of term terms.now }
{
    for new in terms {
        if is_of(*new, term) {
            return new.base;
        }
    }
    0
}

impl Durable {
    /// Raises the candidate term, with the member voted for in it.
    pub(crate) fn raise<D: Disk>(
        &mut self,
        disk: &mut D,
        term: i64,
        voted: Option<u8>,
    ) -> Result<(), MemberFault>
        requires above { self.old.node.term <ℤ term }
        requires high { term ≤ℤ pos (2 ^ 62) }
        requires member { IfSome voted (λ m. m < 5) }
        requires stands { IsTrue (D.tells disk.old) → ReadsAs self.old (D.state disk.old).files }
        ensures ok { OnOk result (self.new ≡ (raise_part self.old term voted).makes) }
        ensures err { OnErr result (self.new ≡ self.old) }
        ensures cause { HasDeviceCause (D.fault_count disk.old) (D.fault_count disk.new) result }
        ensures tells { D.tells disk.new ≡ D.tells disk.old }
        ensures honest { D.is_honest disk.new ≡ D.is_honest disk.old }
        ensures stands { IsTrue (D.tells disk.old) → OnOk result (ReadsAs self.new (D.state disk.new).files) }
        ensures spares { IsTrue (D.is_honest disk.old) → EachStands self.old (D.state disk.old).files → Spares D.state D.moment D.left_since no_file disk.old disk.new }
        ensures cut_well { IsTrue (D.is_honest disk.old) → EachStands self.old (D.state disk.old).files → HaveTerms self.old.entries (new_terms 0 self.old.log)
            → IsCutWell D.state D.moment D.left_since no_file self.old (raise_part self.old term voted).makes disk.old disk.new }
        ensures made { IsTrue (D.is_honest disk.old) → EachStands self.old (D.state disk.old).files
            → IsMade D.state D.moment D.left_since (raise_part self.old term voted ∷ []) self.old disk.old disk.new result }
    {
        self.node.raise(disk, term, voted)
    }

    /// Appends a batch. Before it the TERM entries that its new term entries need are added where they aren't there.
    pub(crate) fn append<D: Disk>(
        &mut self,
        disk: &mut D,
        entries: &[Entry],
    ) -> Result<(), MemberFault>
        requires batch { IsBatchAt (place self.old.log) entries.now }
        requires events { All IsEventEntry entries.now }
        requires rises { RisesFrom (last self.old.log) entries.now }
        requires stands { IsTrue (D.tells disk.old) → ReadsAs self.old (D.state disk.old).files }
        ensures ok { OnOk result (IsAppended entries.now self.old self.new) }
        ensures err { OnErr result (HasMoreTerms self.old self.new) }
        ensures full { (place : ℕ) → result ≡ Err (MemberFault.LogFull place) → (self.new ≡ self.old) × (disk.new ≡ disk.old) × (16777216 < place) }
        // LogFull comes exactly where the log would end past its last segment, and names that place.
        ensures full_at { (at : ℕ) → result ≡ Err (MemberFault.LogFull at) → at ≡ place_from (place self.old.log) entries.now }
        ensures fills { 16777216 < place_from (place self.old.log) entries.now → result ≡ Err (MemberFault.LogFull (place_from (place self.old.log) entries.now)) }
        ensures cause { HasAppendCause (D.fault_count disk.old) (D.fault_count disk.new) result }
        ensures tells { D.tells disk.new ≡ D.tells disk.old }
        ensures honest { D.is_honest disk.new ≡ D.is_honest disk.old }
        ensures stands { IsTrue (D.tells disk.old) → OnOk result (ReadsAs self.new (D.state disk.new).files) }
        ensures spares { IsTrue (D.is_honest disk.old) → EachStands self.old (D.state disk.old).files → Spares D.state D.moment D.left_since no_file disk.old disk.new }
        ensures cut_well { IsTrue (D.is_honest disk.old) → EachStands self.old (D.state disk.old).files → HaveTerms self.old.entries (new_terms 0 self.old.log)
            → IsCutWell D.state D.moment D.left_since no_file self.old (record self.old { log = self.old.log ++ entries.now }) disk.old disk.new }
        ensures makes { OnOk result (self.new ≡ made (append_parts self.old entries.now) self.old) }
        ensures made { IsTrue (D.is_honest disk.old) → EachStands self.old (D.state disk.old).files
            → IsMade D.state D.moment D.left_since (append_parts self.old entries.now) self.old disk.old disk.new result }
    {
        match self.log.stage(entries) {
            Ok(batch) => match self.add_terms(disk, entries) {
                Ok(()) => self.log.publish(disk, &batch, entries),
                Err(fault) => Err(fault),
            },
            Err(fault) => Err(fault),
        }
    }

    /// Adds the TERM entries that a batch needs.
    fn add_terms<D: Disk>(&mut self, disk: &mut D, entries: &[Entry]) -> Result<(), MemberFault>
        requires events { All IsEventEntry entries.now }
        requires stands { IsTrue (D.tells disk.old) → ReadsAs self.old (D.state disk.old).files }
        ensures more { HasMoreTerms self.old self.new }
        ensures there { OnOk result (HaveTerms self.new.entries (new_terms 0 entries.now)) }
        ensures cause { HasDeviceCause (D.fault_count disk.old) (D.fault_count disk.new) result }
        ensures tells { D.tells disk.new ≡ D.tells disk.old }
        ensures honest { D.is_honest disk.new ≡ D.is_honest disk.old }
        ensures stands { IsTrue (D.tells disk.old) → OnOk result (ReadsAs self.new (D.state disk.new).files) }
        ensures spares { IsTrue (D.is_honest disk.old) → EachStands self.old (D.state disk.old).files → Spares D.state D.moment D.left_since no_file disk.old disk.new }
        ensures makes { OnOk result (self.new ≡ made (term_parts self.old entries.now) self.old) }
        ensures made { IsTrue (D.is_honest disk.old) → EachStands self.old (D.state disk.old).files
            → IsMade D.state D.moment D.left_since (term_parts self.old entries.now) self.old disk.old disk.new result }
    {
        for entry in entries {
            match self.add_term_of(disk, entry) {
                Ok(()) => (),
                Err(fault) => return Err(fault),
            }
        }
        Ok(())
    }

    /// Adds the TERM entry that an entry needs, if it is a new term's.
    fn add_term_of<D: Disk>(&mut self, disk: &mut D, entry: &Entry) -> Result<(), MemberFault>
        requires event { IsEventEntry entry.now }
        requires stands { IsTrue (D.tells disk.old) → ReadsAs self.old (D.state disk.old).files }
        ensures more { HasMoreTerms self.old self.new }
        ensures there { OnOk result (HaveTerms self.new.entries (put_term (new_term_of 0 entry.now.bytes) [])) }
        ensures cause { HasDeviceCause (D.fault_count disk.old) (D.fault_count disk.new) result }
        ensures tells { D.tells disk.new ≡ D.tells disk.old }
        ensures honest { D.is_honest disk.new ≡ D.is_honest disk.old }
        ensures stands { IsTrue (D.tells disk.old) → OnOk result (ReadsAs self.new (D.state disk.new).files) }
        ensures spares { IsTrue (D.is_honest disk.old) → EachStands self.old (D.state disk.old).files → Spares D.state D.moment D.left_since no_file disk.old disk.new }
        ensures makes { OnOk result (self.new ≡ made (wanted_parts self.old (new_term_of 0 entry.now.bytes)) self.old) }
        ensures made { IsTrue (D.is_honest disk.old) → EachStands self.old (D.state disk.old).files
            → IsMade D.state D.moment D.left_since (wanted_parts self.old (new_term_of 0 entry.now.bytes)) self.old disk.old disk.new result }
    {
        match NewTerm::of(0, entry.bytes.as_slice()) {
            Some(new) => self.add_term(disk, new),
            None => Ok(()),
        }
    }

    /// Adds a TERM entry, unless it is there.
    fn add_term<D: Disk>(&mut self, disk: &mut D, new: NewTerm) -> Result<(), MemberFault>
        requires range { IsNewRanged new }
        requires stands { IsTrue (D.tells disk.old) → ReadsAs self.old (D.state disk.old).files }
        ensures more { HasMoreTerms self.old self.new }
        ensures there { OnOk result (HasTerm self.new.entries new) }
        ensures cause { HasDeviceCause (D.fault_count disk.old) (D.fault_count disk.new) result }
        ensures tells { D.tells disk.new ≡ D.tells disk.old }
        ensures honest { D.is_honest disk.new ≡ D.is_honest disk.old }
        ensures stands { IsTrue (D.tells disk.old) → OnOk result (ReadsAs self.new (D.state disk.new).files) }
        ensures spares { IsTrue (D.is_honest disk.old) → EachStands self.old (D.state disk.old).files → Spares D.state D.moment D.left_since no_file disk.old disk.new }
        ensures makes { OnOk result (self.new ≡ made (wanted_parts self.old (Some new)) self.old) }
        ensures made { IsTrue (D.is_honest disk.old) → EachStands self.old (D.state disk.old).files
            → IsMade D.state D.moment D.left_since (wanted_parts self.old (Some new)) self.old disk.old disk.new result }
    {
        let term = TermAt {
            term: new.term,
            base: new.base,
            stamp: new.stamp,
        };
        match self.recording.find_term(term, 0) {
            Some(_) => Ok(()),
            None => self.recording.add_term(disk, new.term, new.base, new.stamp),
        }
    }

    /// Keeps the first entries of the log.
    pub(crate) fn cut<D: Disk>(&mut self, disk: &mut D, entries: u64) -> Result<(), MemberFault>
        requires few { entries ≤ length self.old.log }
        requires stands { IsTrue (D.tells disk.old) → ReadsAs self.old (D.state disk.old).files }
        ensures ok { OnOk result (self.new ≡ record self.old { log = take entries self.old.log }) }
        ensures err { OnErr result (self.new ≡ self.old) }
        ensures cause { HasDeviceCause (D.fault_count disk.old) (D.fault_count disk.new) result }
        ensures tells { D.tells disk.new ≡ D.tells disk.old }
        ensures honest { D.is_honest disk.new ≡ D.is_honest disk.old }
        ensures stands { IsTrue (D.tells disk.old) → OnOk result (ReadsAs self.new (D.state disk.new).files) }
        ensures spares { IsTrue (D.is_honest disk.old) → EachStands self.old (D.state disk.old).files → Spares D.state D.moment D.left_since no_file disk.old disk.new }
        ensures cut_well { IsTrue (D.is_honest disk.old) → EachStands self.old (D.state disk.old).files → HaveTerms self.old.entries (new_terms 0 self.old.log)
            → IsCutWell D.state D.moment D.left_since no_file self.old (record self.old { log = take entries self.old.log }) disk.old disk.new }
        ensures made { IsTrue (D.is_honest disk.old) → EachStands self.old (D.state disk.old).files
            → IsMade D.state D.moment D.left_since (cut_parts self.old entries) self.old disk.old disk.new result }
    {
        self.log.cut(disk, entries)
    }

    /// Where the log's new term entry of a term begins, 0 where there is none.
    fn base_of(&self, term: i64) -> u64
        ensures base { result ≡ base_of term (new_terms 0 self.now.log) }
        ensures range { result ≤ 2 ^ 62 }
    {
        // Its entries are events, so that its terms are in their ranges.
        let _ = self.log.index();
        base_in(self.log.terms(), term)
    }

    /// The entry of a snapshot.
    fn entry_for(&self, head: SnapshotHead) -> RecEntry
        requires { IsHead head }
        ensures { result ≡ entry_for self.now head }
    {
        RecEntry::of_snapshot(
            head.recording,
            head.term,
            self.base_of(head.term),
            head.position,
            head.stamp,
            head.service,
        )
    }

    /// Puts a snapshot: its file, and then its entry. Where the entry is there already nothing is changed.
    pub(crate) fn put_snapshot<D: Disk>(
        &mut self,
        disk: &mut D,
        head: SnapshotHead,
        pieces: &[Bytes],
    ) -> Result<(), MemberFault>
        requires head { IsHead head }
        requires pieces { All (λ p. length p < 2 ^ 32) pieces.now }
        requires stands { IsTrue (D.tells disk.old) → ReadsAs self.old (D.state disk.old).files }
        ensures ok { OnOk result (IsPut head self.old self.new) }
        ensures err { OnErr result (self.new ≡ self.old) }
        ensures stored { IsTrue (D.tells disk.old) → (IsThere (entry_for self.old head) self.old.entries → ⊥) → OnOk result ((D.state disk.new).files (258 + head.recording) ≡ settled_file (spelled pieces.now)) }
        ensures cause { HasDeviceCause (D.fault_count disk.old) (D.fault_count disk.new) result }
        ensures tells { D.tells disk.new ≡ D.tells disk.old }
        ensures honest { D.is_honest disk.new ≡ D.is_honest disk.old }
        ensures stands { IsTrue (D.tells disk.old) → OnOk result (ReadsAs self.new (D.state disk.new).files) }
        ensures spares { IsTrue (D.is_honest disk.old) → EachStands self.old (D.state disk.old).files → Spares D.state D.moment D.left_since (file_of head.recording) disk.old disk.new }
        ensures cut_well { IsTrue (D.is_honest disk.old) → EachStands self.old (D.state disk.old).files → HaveTerms self.old.entries (new_terms 0 self.old.log) → (IsThere (entry_for self.old head) self.old.entries → ⊥)
            → IsCutWell D.state D.moment D.left_since (file_of head.recording) self.old (put_part self.old head).makes disk.old disk.new }
        ensures made { IsTrue (D.is_honest disk.old) → EachStands self.old (D.state disk.old).files → (IsThere (entry_for self.old head) self.old.entries → ⊥)
            → IsMade D.state D.moment D.left_since (put_part self.old head ∷ []) self.old disk.old disk.new result }
        ensures filed { IsTrue (D.is_honest disk.old) → EachStands self.old (D.state disk.old).files → (IsThere (entry_for self.old head) self.old.entries → ⊥) → OnErr result (EachStands self.old (D.state disk.new).files ⊎ ((D.state disk.new).files (258 + head.recording) ≡ settled_file (spelled pieces.now))) }
        ensures again { IsThere (entry_for self.old head) self.old.entries → disk.new ≡ disk.old }
    {
        if self.recording.has_entry(self.entry_for(head)) {
            return Ok(());
        }
        match snapshot_store::write(self.alloc, disk, head.recording, pieces) {
            Ok(()) => self.add_snapshot(disk, head),
            Err(fault) => Err(fault),
        }
    }

    /// Adds the entry of a snapshot, whose file is on the disk.
    fn add_snapshot<D: Disk>(&mut self, disk: &mut D, head: SnapshotHead) -> Result<(), MemberFault>
        requires head { IsHead head }
        requires stands { IsTrue (D.tells disk.old) → ReadsAs self.old (D.state disk.old).files }
        ensures ok { OnOk result (self.new ≡ record self.old { entries = self.old.entries ++ entry_for self.old head ∷ [] }) }
        ensures others { IsTrue (D.tells disk.old) → OthersStay 1 (D.state disk.old).files (D.state disk.new).files }
        ensures err { OnErr result (self.new ≡ self.old) }
        ensures cause { HasDeviceCause (D.fault_count disk.old) (D.fault_count disk.new) result }
        ensures tells { D.tells disk.new ≡ D.tells disk.old }
        ensures honest { D.is_honest disk.new ≡ D.is_honest disk.old }
        ensures stands { IsTrue (D.tells disk.old) → OnOk result (ReadsAs self.new (D.state disk.new).files) }
        ensures spares { IsTrue (D.is_honest disk.old) → EachStands self.old (D.state disk.old).files → Spares D.state D.moment D.left_since no_file disk.old disk.new }
        ensures made { IsTrue (D.is_honest disk.old) → EachStands self.old (D.state disk.old).files
            → IsMade D.state D.moment D.left_since (entry_part self.old head ∷ []) self.old disk.old disk.new result }
    {
        let base = self.base_of(head.term);
        if self.recording.reserve_sets(&mut self.sets, 1).is_err() {
            return Err(MemberFault::NoMemory);
        }
        match self.recording.add_snapshot(
            disk,
            head.recording,
            head.term,
            base,
            head.position,
            head.stamp,
            head.service,
        ) {
            Ok(()) => {
                self.recording.list_sets(self.services, &mut self.sets);
                Ok(())
            }
            Err(fault) => Err(fault),
        }
    }

    /// Makes the latest valid set invalid. False exactly where there is none: then nothing is changed.
    pub(crate) fn invalidate<D: Disk>(&mut self, disk: &mut D) -> Result<bool, MemberFault>
        requires stands { IsTrue (D.tells disk.old) → ReadsAs self.old (D.state disk.old).files }
        ensures found { IfOk result (λ found. IsFalse found ↔ HasNoSet self.old.services self.old.entries) }
        ensures nothing { HasNoSet self.old.services self.old.entries → self.new ≡ self.old }
        ensures untouched { HasNoSet self.old.services self.old.entries → D.state disk.new ≡ D.state disk.old }
        ensures ok { (i : ℕ) (e : RecEntry) → IsLatest self.old.services self.old.entries i e → OnOk result (self.new ≡ record self.old { entries = struck i e self.old.entries }) }
        ensures err { OnErr result (self.new ≡ self.old) }
        ensures cause { HasDeviceCause (D.fault_count disk.old) (D.fault_count disk.new) result }
        ensures tells { D.tells disk.new ≡ D.tells disk.old }
        ensures honest { D.is_honest disk.new ≡ D.is_honest disk.old }
        ensures stands { IsTrue (D.tells disk.old) → OnOk result (ReadsAs self.new (D.state disk.new).files) }
        ensures struck { IsTrue (D.is_honest disk.old) → EachStands self.old (D.state disk.old).files → (i : ℕ) (e : RecEntry) → IsLatest self.old.services self.old.entries i e
            → IsStruck D.state D.moment D.left_since self.old (with_struck self.old i e) disk.old disk.new result }
        ensures spares { IsTrue (D.is_honest disk.old) → EachStands self.old (D.state disk.old).files → (i : ℕ) (e : RecEntry) → IsLatest self.old.services self.old.entries i e
            → Spares D.state D.moment D.left_since no_file disk.old disk.new }
        ensures cut_well { IsTrue (D.is_honest disk.old) → EachStands self.old (D.state disk.old).files → HaveTerms self.old.entries (new_terms 0 self.old.log) → (i : ℕ) (e : RecEntry) → IsLatest self.old.services self.old.entries i e
            → IsCutWell D.state D.moment D.left_since no_file self.old (with_struck self.old i e) disk.old disk.new }
    {
        if self.recording.reserve_sets(&mut self.sets, 0).is_err() {
            return Err(MemberFault::NoMemory);
        }
        match self.recording.invalidate_latest(disk, self.services) {
            Ok(found) => {
                self.recording.list_sets(self.services, &mut self.sets);
                Ok(found)
            }
            Err(fault) => Err(fault),
        }
    }
}
