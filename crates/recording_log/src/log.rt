// The recording log.
ghost use Rattle.std.specs.Prelude.{◌≡◌, ◌≢◌, ◌+◌, ◌*◌, ◌^◌, ◌<◌, ◌≤◌, ◌==◌, ◌&&◌, ◌↔◌, if◌then◌else◌, ℕ, ℤ, pos, negsuc, ◌≤ℤ◌, List, [], ◌∷◌, ◌++◌, length, drop, IsTrue, IsFalse, Err, OnOk, OnErr, OnSome, IfSome, IfOk, MatchOption, vec_len, vec_capacity, slice_get, slice_index};
ghost use Rattle.cl_base.specs.Faults.{HasDeviceCause, HasMountCause};
ghost use Rattle.cl_base.specs.Disk.{OthersStay, LeavesOnly, IsImageOf};
ghost use Rattle.cl_base.specs.Fuse.{FuseEnds};
ghost use Rattle.cl_base.specs.Looks.{Looks};
ghost use Rattle.cl_base.specs.declared.disk.Choice.{Choice};
ghost use Rattle.recording_log.specs.declared.entry.RecEntry.{RecEntry};
ghost use Rattle.cl_base.specs.Every.{EveryImage, FileIs, takes};
ghost use Rattle.recording_log.specs.Entries.{Holds, HoldsOne, IsWrongAt, IsNext, IsShortAt, entry_of, open_gate};
ghost use Rattle.recording_log.specs.Valid.{Stands, StandsOne, valid_of, terms_of, term_entry, snapshot_entry};
ghost use Rattle.recording_log.specs.Sets.{HasNoSet, IsLatest, IsLatestSet, struck, is_struck};
ghost use Rattle.recording_log.specs.Parts.{Tells};
ghost use Rattle.recording_log.specs.Steps.{AddLeft, StrikeLeft};

use crate::entry::{RecEntry, SnapshotAt, TermAt};
use crate::file::{FILE, OPEN, add_to_file, strike};
use crate::parts::Parts;
use crate::sets::latest_index;
use cl_base::{Disk, MemberFault, NoMemory, read_some};
use std::alloc::Global;
use std::marker::Model;

/// The most entries that a log holds: more than any memory has.
const ENTRIES_LIMIT: usize = 1 << 56;

/// The kind of an entry that was made invalid.
const STRUCK_KIND: u32 = 0x8000_0001;

/// The entries of a member's second file, the leadership terms among them, and the parts of sets of snapshots.
#[derive(Drop)]
pub struct RecordingLog {
    entries: Vec<RecEntry>,
    terms: Vec<TermAt>,
    parts: Parts,
}

impl Model for RecordingLog {
    ghost use Rattle.std.specs.Prelude.{List, ◌≡◌, ◌≤◌, ◌^◌, length};
    ghost use Rattle.recording_log.specs.declared.entry.RecEntry.{RecEntry};
    ghost use Rattle.recording_log.specs.Valid.{terms_of};
    ghost use Rattle.recording_log.specs.Parts.{Tells};

    ghost Value = { List RecEntry };

    ghost view = { λ l. l.entries.items };

    ghost invariant = { λ l. (length l.entries.items ≤ 2 ^ 56) × (l.terms.items ≡ terms_of l.entries.items) × Tells l.parts l.entries.items };
}

/// Has room for one more entry, and gives the place (bytes) at which it comes in the file, or None where no memory is
/// there.
fn make_room(entries: &mut Vec<RecEntry>, terms: &mut Vec<TermAt>) -> Option<u64>
    ensures entries { entries.new.items ≡ entries.old.items }
    ensures terms { terms.new.items ≡ terms.old.items }
    ensures room { OnSome result ((vec_len entries.new < vec_capacity entries.new) × (vec_len terms.new < vec_capacity terms.new)) }
    ensures place { IfSome result (λ at. (at ≡ 64 * length entries.old.items) × (length entries.old.items < 2 ^ 56)) }
{
    let len = entries.len();
    if len >= ENTRIES_LIMIT || entries.reserve(1).is_err() || terms.reserve(1).is_err() {
        return None;
    }
    Some(64 * len as u64)
}

/// Puts a value where there is room for it.
fn put<T: Drop>(values: &mut Vec<T>, value: T)
    requires { vec_len values.old < vec_capacity values.old }
    ensures { values.new.items ≡ values.old.items ++ value ∷ [] }
{
    match values.push(value) {
        Ok(()) => (),
        Err(_) => unreachable!(),
    }
}

/// Puts an entry behind the others, and its leadership term where it is one's.
fn put_entry(entries: &mut Vec<RecEntry>, terms: &mut Vec<TermAt>, entry: RecEntry)
    requires entries { vec_len entries.old < vec_capacity entries.old }
    requires terms { vec_len terms.old < vec_capacity terms.old }
    ensures entries { entries.new.items ≡ entries.old.items ++ entry ∷ [] }
    ensures terms { terms.new.items ≡ terms.old.items ++ terms_of (entry ∷ []) }
{
    if let Some(term) = entry.as_term() {
        put(terms, term);
    }
    put(entries, entry);
}

/// Reads the entry at a place of the file, or gives None where its gate isn't open. It changes nothing.
fn read_entry<D: Disk>(disk: &mut D, at: u64) -> Result<Option<RecEntry>, MemberFault>
    requires high { at < 2 ^ 63 }
    requires fits { IsTrue (D.tells disk.old) → at ≤ length ((D.state disk.old).files 1).reads }
    ensures cause { HasMountCause (D.fault_count disk.old) (D.fault_count disk.new) result }
    ensures tells { D.tells disk.new ≡ D.tells disk.old }
    ensures honest { D.is_honest disk.new ≡ D.is_honest disk.old }
    ensures gives { IsTrue (D.tells disk.old) → IfOk result (IsNext at ((D.state disk.old).files 1).reads) }
    ensures damaged { IsTrue (D.tells disk.old) → (file place : ℕ) → result ≡ Err (MemberFault.Damaged file place) → (file ≡ 1) × IsShortAt at ((D.state disk.old).files 1).reads place }
    ensures looks { IsTrue (D.tells disk.old) → Looks MemberFault.Device (D.state disk.old) (D.state disk.new) result }
    ensures any_moment { IsTrue (D.is_honest disk.old) → LeavesOnly D.moment D.left_since disk.old disk.new (IsImageOf (D.state disk.old).files) }
{
    let mut block = [0; 64];
    match read_some(disk, FILE, at, &mut block) {
        Ok(n) => {
            if n < 64 {
                return Err(MemberFault::Damaged {
                    file: FILE,
                    place: at + n as u64,
                });
            }
            if block[63] == OPEN {
                Ok(Some(RecEntry::read(&block)))
            } else {
                Ok(None)
            }
        }
        Err(trouble) => Err(MemberFault::from(trouble)),
    }
}

impl RecordingLog {
    /// Reads the entries of the file, and changes nothing. Damaged is at the file's length, exactly where its entries
    /// with an open gate aren't followed by 64 bytes with a closed one.
    pub fn mount<D: Disk>(alloc: Global, disk: &mut D) -> Result<RecordingLog, MemberFault>
        ensures cause { HasMountCause (D.fault_count disk.old) (D.fault_count disk.new) result }
        ensures tells { D.tells disk.new ≡ D.tells disk.old }
        ensures honest { D.is_honest disk.new ≡ D.is_honest disk.old }
        ensures gives { IsTrue (D.tells disk.old) → IfOk result (λ log. Holds log ((D.state disk.old).files 1).reads) }
        ensures damaged { IsTrue (D.tells disk.old) → (file place : ℕ) → result ≡ Err (MemberFault.Damaged file place) → (file ≡ 1) × IsWrongAt ((D.state disk.old).files 1).reads place }
        ensures looks { IsTrue (D.tells disk.old) → Looks MemberFault.Device (D.state disk.old) (D.state disk.new) result }
        ensures any_moment { IsTrue (D.is_honest disk.old) → LeavesOnly D.moment D.left_since disk.old disk.new (IsImageOf (D.state disk.old).files) }
    {
        let mut entries = Vec::new(alloc);
        let mut terms = Vec::new(alloc);
        let mut parts = Parts::new(alloc);
        'entries: for i in 0..ENTRIES_LIMIT {
            match read_entry(disk, 64 * i as u64) {
                Ok(Some(entry)) => {
                    if make_room(&mut entries, &mut terms).is_none()
                        || parts.take_in(entry).is_err()
                    {
                        return Err(MemberFault::NoMemory);
                    }
                    put_entry(&mut entries, &mut terms, entry);
                }
                Ok(None) => {
                    return Ok(RecordingLog {
                        entries,
                        terms,
                        parts,
                    });
                }
                Err(fault) => return Err(fault),
            }
        }
        Err(MemberFault::NoMemory)
    }

    /// The entries of the file, in its order, valid or not.
    pub fn entries(&self) -> &[RecEntry]
        ensures { result.now ≡ self.now }
    {
        &self.entries
    }

    /// Makes room in a list of sets for as many as there are entries and so many more, at most 1,024.
    pub fn reserve_sets(&self, sets: &mut Vec<SnapshotAt>, more: usize) -> Result<(), NoMemory>
        requires { more ≤ 1024 }
        ensures items { sets.new.items ≡ sets.old.items }
        ensures room { OnOk result (length self.now + more ≤ vec_capacity sets.new) }
    {
        let entries = self.entries.len();
        match sets.reserve(entries + more) {
            Ok(()) => Ok(()),
            Err(_) => Err(NoMemory),
        }
    }

    /// The parts of sets that the entries have.
    pub fn parts(&self) -> &Parts
        ensures { Tells result.now self.now }
    {
        &self.parts
    }

    /// The leadership terms of the valid TERM entries, in the order of the file.
    pub fn terms(&self) -> &[TermAt]
        ensures { result.now ≡ terms_of self.now }
    {
        &self.terms
    }

    /// The latest valid set of snapshots: the module's and one of each service, 0 up to `services`, of one term and
    /// position. None exactly where there is no valid set.
    pub fn latest_snapshot(&self, services: u8) -> Option<SnapshotAt>
        ensures { MatchOption result (HasNoSet services self.now) (IsLatestSet services self.now) }
    {
        match latest_index(&self.entries, &self.parts, services) {
            None => None,
            Some(i) => Some(self.entries[i].as_snapshot()),
        }
    }

    /// Adds a leadership term, 0 to 2^62, with the place at which it begins (bytes, to 2^62) and its stamp (ms). The
    /// entry is written with a closed gate, synced, and only then opened. After an error the value is only given up.
    pub fn add_term<D: Disk>(
        &mut self,
        disk: &mut D,
        term: i64,
        base: u64,
        stamp: i64,
    ) -> Result<(), MemberFault>
        requires low { pos 0 ≤ℤ term }
        requires high { term ≤ℤ pos (2 ^ 62) }
        requires place { base ≤ 2 ^ 62 }
        requires mounted { IsTrue (D.tells disk.old) → Holds self.old ((D.state disk.old).files 1).reads }
        ensures ok { OnOk result (self.new ≡ self.old ++ term_entry term base stamp ∷ []) }
        ensures err { OnErr result (self.new ≡ self.old) }
        ensures cause { HasDeviceCause (D.fault_count disk.old) (D.fault_count disk.new) result }
        ensures tells { D.tells disk.new ≡ D.tells disk.old }
        ensures honest { D.is_honest disk.new ≡ D.is_honest disk.old }
        ensures others { IsTrue (D.tells disk.old) → OthersStay 1 (D.state disk.old).files (D.state disk.new).files }
        ensures mounted { IsTrue (D.tells disk.old) → OnOk result (Holds (self.old ++ term_entry term base stamp ∷ []) ((D.state disk.new).files 1).reads) }

        // After Ok each image has the entry. The other files are as they were.
        ensures done { IsTrue (D.is_honest disk.old) → EveryImage 1 (Holds self.old) (D.state disk.old).files (D.state disk.old).files
            → OnOk result (EveryImage 1 (Holds (self.old ++ term_entry term base stamp ∷ [])) (D.state disk.old).files (D.state disk.new).files) }

        // After any answer, and at any moment of the call, each image has the entries from before, with it or without.
        ensures each { IsTrue (D.is_honest disk.old) → EveryImage 1 (Holds self.old) (D.state disk.old).files (D.state disk.old).files
            → EveryImage 1 (HoldsOne self.old (self.old ++ term_entry term base stamp ∷ [])) (D.state disk.old).files (D.state disk.new).files }
        ensures cut_well { IsTrue (D.is_honest disk.old) → EveryImage 1 (Holds self.old) (D.state disk.old).files (D.state disk.old).files
            → LeavesOnly D.moment D.left_since disk.old disk.new (FileIs 1 (HoldsOne self.old (self.old ++ term_entry term base stamp ∷ [])) (D.state disk.old).files) }

        // A fuse ends it where it lets fewer than five calls pass, and then each choice leaves the entries from before,
        // but for the choices that take the open gate along at four.
        ensures fuse { IsTrue (D.is_honest disk.old) → EveryImage 1 (Holds self.old) (D.state disk.old).files (D.state disk.old).files
            → FuseEnds 5 MemberFault.Device (AddLeft self.old (self.old ++ term_entry term base stamp ∷ [])) (D.state disk.old) (D.state disk.new) result }
    {
        self.add(disk, RecEntry::of_term(term, base, stamp))
    }

    /// Adds a snapshot of a service, or of the module at -1: its recording (0 to 1,023), its term (0 to 2^62) and the
    /// place at which that begins (bytes, to 2^62), its own place (bytes, to 2^62) and its stamp (ms). It goes as with
    /// a term.
    pub fn add_snapshot<D: Disk>(
        &mut self,
        disk: &mut D,
        recording: u64,
        term: i64,
        base: u64,
        position: u64,
        stamp: i64,
        service: i32,
    ) -> Result<(), MemberFault>
        requires low { pos 0 ≤ℤ term }
        requires high { term ≤ℤ pos (2 ^ 62) }
        requires recording { recording < 1024 }
        requires base { base ≤ 2 ^ 62 }
        requires position { position ≤ 2 ^ 62 }
        requires mounted { IsTrue (D.tells disk.old) → Holds self.old ((D.state disk.old).files 1).reads }
        ensures ok { OnOk result (self.new ≡ self.old ++ snapshot_entry recording term base position stamp service ∷ []) }
        ensures err { OnErr result (self.new ≡ self.old) }
        ensures cause { HasDeviceCause (D.fault_count disk.old) (D.fault_count disk.new) result }
        ensures tells { D.tells disk.new ≡ D.tells disk.old }
        ensures honest { D.is_honest disk.new ≡ D.is_honest disk.old }
        ensures others { IsTrue (D.tells disk.old) → OthersStay 1 (D.state disk.old).files (D.state disk.new).files }
        ensures mounted { IsTrue (D.tells disk.old) → OnOk result (Holds (self.old ++ snapshot_entry recording term base position stamp service ∷ []) ((D.state disk.new).files 1).reads) }

        // After Ok each image has the entry. The other files are as they were.
        ensures done { IsTrue (D.is_honest disk.old) → EveryImage 1 (Holds self.old) (D.state disk.old).files (D.state disk.old).files
            → OnOk result (EveryImage 1 (Holds (self.old ++ snapshot_entry recording term base position stamp service ∷ [])) (D.state disk.old).files (D.state disk.new).files) }

        // After any answer, and at any moment of the call, each image has the entries from before, with it or without.
        ensures each { IsTrue (D.is_honest disk.old) → EveryImage 1 (Holds self.old) (D.state disk.old).files (D.state disk.old).files
            → EveryImage 1 (HoldsOne self.old (self.old ++ snapshot_entry recording term base position stamp service ∷ [])) (D.state disk.old).files (D.state disk.new).files }
        ensures cut_well { IsTrue (D.is_honest disk.old) → EveryImage 1 (Holds self.old) (D.state disk.old).files (D.state disk.old).files
            → LeavesOnly D.moment D.left_since disk.old disk.new (FileIs 1 (HoldsOne self.old (self.old ++ snapshot_entry recording term base position stamp service ∷ [])) (D.state disk.old).files) }

        // A fuse ends it where it lets fewer than five calls pass, and then each choice leaves the entries from before,
        // but for the choices that take the open gate along at four.
        ensures fuse { IsTrue (D.is_honest disk.old) → EveryImage 1 (Holds self.old) (D.state disk.old).files (D.state disk.old).files
            → FuseEnds 5 MemberFault.Device (AddLeft self.old (self.old ++ snapshot_entry recording term base position stamp service ∷ [])) (D.state disk.old) (D.state disk.new) result }
    {
        let entry = RecEntry::of_snapshot(recording, term, base, position, stamp, service);
        self.add(disk, entry)
    }

    /// Makes the module's entry of the latest valid set invalid, and with it the set. False exactly where there is no
    /// valid set: then nothing is changed. After an error the value is only given up.
    pub fn invalidate_latest<D: Disk>(
        &mut self,
        disk: &mut D,
        services: u8,
    ) -> Result<bool, MemberFault>
        requires { IsTrue (D.tells disk.old) → Holds self.old ((D.state disk.old).files 1).reads }
        ensures found { IfOk result (λ found. IsFalse found ↔ HasNoSet services self.old) }
        ensures count { length self.new ≡ length self.old }
        ensures nothing { HasNoSet services self.old → (self.new ≡ self.old) × (D.state disk.new ≡ D.state disk.old) }
        ensures ok { (i : ℕ) (e : RecEntry) → IsLatest services self.old i e → OnOk result (self.new ≡ struck i e self.old) }
        ensures err { OnErr result (self.new ≡ self.old) }
        ensures cause { HasDeviceCause (D.fault_count disk.old) (D.fault_count disk.new) result }
        ensures tells { D.tells disk.new ≡ D.tells disk.old }
        ensures honest { D.is_honest disk.new ≡ D.is_honest disk.old }
        ensures others { IsTrue (D.tells disk.old) → OthersStay 1 (D.state disk.old).files (D.state disk.new).files }
        ensures mounted { IsTrue (D.tells disk.old) → OnOk result (Holds self.new ((D.state disk.new).files 1).reads) }

        // After Ok each image has the entries as they are then. The other files are as they were.
        ensures done { IsTrue (D.is_honest disk.old) → EveryImage 1 (Holds self.old) (D.state disk.old).files (D.state disk.old).files
            → OnOk result (EveryImage 1 (Holds self.new) (D.state disk.old).files (D.state disk.new).files) }

        // After any answer, and at any moment of the call, the entries that count in each image are those from before,
        // or those without the module's entry of the latest valid set.
        ensures each { IsTrue (D.is_honest disk.old) → EveryImage 1 (Holds self.old) (D.state disk.old).files (D.state disk.old).files
            → (i : ℕ) (e : RecEntry) → IsLatest services self.old i e
            → EveryImage 1 (StandsOne (valid_of self.old) (valid_of (struck i e self.old))) (D.state disk.old).files (D.state disk.new).files }
        ensures cut_well { IsTrue (D.is_honest disk.old) → EveryImage 1 (Holds self.old) (D.state disk.old).files (D.state disk.old).files
            → (i : ℕ) (e : RecEntry) → IsLatest services self.old i e
            → LeavesOnly D.moment D.left_since disk.old disk.new (FileIs 1 (StandsOne (valid_of self.old) (valid_of (struck i e self.old))) (D.state disk.old).files) }

        // A fuse ends it where it lets fewer than two calls pass, and then each choice leaves what counted before, but
        // for the choices that take a byte other than 0 along at one.
        ensures fuse { IsTrue (D.is_honest disk.old) → EveryImage 1 (Holds self.old) (D.state disk.old).files (D.state disk.old).files
            → (i : ℕ) (e : RecEntry) → IsLatest services self.old i e
            → FuseEnds 2 MemberFault.Device (StrikeLeft self.old (struck i e self.old)) (D.state disk.old) (D.state disk.new) result }
    {
        match latest_index(&self.entries, &self.parts, services) {
            None => Ok(false),
            Some(i) => match strike(disk, 64 * i as u64 + 47) {
                Ok(()) => {
                    let entry = self.entries[i];
                    self.entries[i].kind = STRUCK_KIND;
                    self.parts.let_go(&self.entries, entry);
                    Ok(true)
                }
                Err(trouble) => Err(MemberFault::from(trouble)),
            },
        }
    }

    /// Adds an entry.
    fn add<D: Disk>(&mut self, disk: &mut D, entry: RecEntry) -> Result<(), MemberFault>
        requires { IsTrue (D.tells disk.old) → Holds self.old ((D.state disk.old).files 1).reads }
        ensures ok { OnOk result (self.new ≡ self.old ++ entry ∷ []) }
        ensures err { OnErr result (self.new ≡ self.old) }
        ensures cause { HasDeviceCause (D.fault_count disk.old) (D.fault_count disk.new) result }
        ensures tells { D.tells disk.new ≡ D.tells disk.old }
        ensures honest { D.is_honest disk.new ≡ D.is_honest disk.old }
        ensures others { IsTrue (D.tells disk.old) → OthersStay 1 (D.state disk.old).files (D.state disk.new).files }
        ensures mounted { IsTrue (D.tells disk.old) → OnOk result (Holds (self.old ++ entry ∷ []) ((D.state disk.new).files 1).reads) }

        // After Ok each image has the entry. The other files are as they were.
        ensures done { IsTrue (D.is_honest disk.old) → EveryImage 1 (Holds self.old) (D.state disk.old).files (D.state disk.old).files
            → OnOk result (EveryImage 1 (Holds (self.old ++ entry ∷ [])) (D.state disk.old).files (D.state disk.new).files) }

        // After any answer, and at any moment of the call, each image has the entries from before, with it or without.
        ensures each { IsTrue (D.is_honest disk.old) → EveryImage 1 (Holds self.old) (D.state disk.old).files (D.state disk.old).files
            → EveryImage 1 (HoldsOne self.old (self.old ++ entry ∷ [])) (D.state disk.old).files (D.state disk.new).files }
        ensures cut_well { IsTrue (D.is_honest disk.old) → EveryImage 1 (Holds self.old) (D.state disk.old).files (D.state disk.old).files
            → LeavesOnly D.moment D.left_since disk.old disk.new (FileIs 1 (HoldsOne self.old (self.old ++ entry ∷ [])) (D.state disk.old).files) }

        // A fuse ends it where it lets fewer than five calls pass, and then each choice leaves the entries from before,
        // but for the choices that take the open gate along at four.
        ensures fuse { IsTrue (D.is_honest disk.old) → EveryImage 1 (Holds self.old) (D.state disk.old).files (D.state disk.old).files
            → FuseEnds 5 MemberFault.Device (AddLeft self.old (self.old ++ entry ∷ [])) (D.state disk.old) (D.state disk.new) result }
    {
        let Some(at) = make_room(&mut self.entries, &mut self.terms) else {
            return Err(MemberFault::NoMemory);
        };
        // What may want memory comes before the disk's calls.
        if self.parts.take_in(entry).is_err() {
            return Err(MemberFault::NoMemory);
        }
        match add_to_file(disk, at, &entry.bytes()) {
            Ok(()) => {
                put_entry(&mut self.entries, &mut self.terms, entry);
                Ok(())
            }
            Err(trouble) => {
                self.parts.let_go(&self.entries, entry);
                Err(MemberFault::from(trouble))
            }
        }
    }
}
