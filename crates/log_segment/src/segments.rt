// The log in a member's segment files.
ghost use Rattle.std.specs.Prelude.{◌≡◌, ◌≢◌, ◌+◌, ◌-◌, ◌/◌, ◌%◌, ◌==◌, ◌<◌, ◌≤◌, ◌≤ℤ◌, ◌++◌, [], ◌∷◌, ◌⊎◌, ℕ, if◌then◌else◌, IsTrue, IfOk, IfErr, OnOk, OnErr, Err, All, length, take};
ghost use Rattle.cl_base.specs.Faults.{HasDeviceCause};
ghost use Rattle.cl_base.specs.Disk.{LeavesOnly, OthersStay, settled_file};
ghost use Rattle.cl_base.specs.Fuse.{FuseEnds};
ghost use Rattle.cl_base.specs.Runs.{EachImage};
ghost use Rattle.cl_base.specs.declared.entry.Entry.{Entry};
ghost use Rattle.entry_log.specs.Log.{Log, RisesFrom, last, place, place_from};
ghost use Rattle.log_segment.specs.Segment.{LogIs};
ghost use Rattle.log_segment.specs.Held.{IsEventEntry};

use crate::batch::{Batch, first_len};
use crate::cut::shut_gate;
use crate::entries::{read_known, read_next};
use crate::kept::{KeptLog, NewTerm};
use crate::scan::segment_at;
use cl_base::limits::{LOG_LIMIT, SEGMENT_BYTES};
use cl_base::{Disk, Entry, MemberFault};
use entry_log::{LogIndex, end_after};
use std::alloc::Global;
use std::marker::Model;

/// The file of segment 0.
pub const FIRST_SEGMENT_FILE: u32 = 2;

/// The log in a member's segment files: its index and the terms that begin in it. No event's bytes are kept.
#[derive(Drop)]
pub struct Segments {
    alloc: Global,
    log: KeptLog,
}

impl Model for Segments {
    ghost use Rattle.entry_log.specs.Log.{Log};

    ghost Value = { Log };

    ghost view = { λ s. s.log };
}

/// Where the log ends with these entries behind it, in bytes.
fn end_with(place: u64, entries: &[Entry]) -> u64
    requires place { place ≤ 16777216 }
    requires few { length entries.now ≤ 64 }
    requires events { All IsEventEntry entries.now }
    ensures { result ≡ place_from place entries.now }
{
    let mut end = place;
    for entry in entries {
        end = end_after(end, entry.bytes.len() as u64);
    }
    end
}

impl Segments {
    ghost use Rattle.entry_log.specs.Shape.{shape_of, entry_shape};
    ghost use Rattle.log_segment.specs.Batch.{IsBatchAt};
    ghost use Rattle.log_segment.specs.Held.{IsHeld, AreRanged, new_terms};
    ghost use Rattle.log_segment.specs.Spelled.{IsSpelled, CanWrite, append_calls};
    ghost use Rattle.log_segment.specs.Looked.{Looked, IsOnly};
    ghost use Rattle.log_segment.specs.Whole.{IsApart, LogIsOne, LogLeft};
    ghost use Rattle.log_segment.specs.Cuts.{CutLeft};

    /// Reads the log from its segments, and changes nothing. Damaged names the first wrong byte.
    pub fn mount<D: Disk>(alloc: Global, disk: &mut D) -> Result<Segments, MemberFault>
        ensures looked { Looked D.fault_count D.tells D.is_honest D.state D.moment D.left_since disk.old disk.new result }
        ensures sound { IfOk result IsHeld }

        // What is read of the files stands for it.
        ensures stands { IsTrue (D.tells disk.old) → IfOk result (λ log. LogIs log (λ f. ((D.state disk.old).files f).reads)) }
        ensures reads { IsTrue (D.tells disk.old) → IfOk result (λ log. LogIs log (λ f. ((D.state disk.new).files f).reads)) }

        // And a log for which it stands is read: it stands for one at most.
        ensures exact { IsTrue (D.tells disk.old) → (log : Log) → IsHeld log → LogIs log (λ f. ((D.state disk.old).files f).reads) → IsOnly log result }
    {
        let mut log = KeptLog::new(alloc);
        'entries: loop {
            let place = log.place();
            if place >= LOG_LIMIT {
                return Ok(Segments { alloc, log });
            }
            let last_term = log.last_term();
            match read_next(alloc, disk, place, last_term) {
                Ok(Some(entry)) => match log.push(&entry) {
                    Ok(()) => (),
                    Err(_) => return Err(MemberFault::NoMemory),
                },
                Ok(None) => return Ok(Segments { alloc, log }),
                Err(fault) => return Err(fault),
            }
        }
    }

    /// Spells a batch behind the log. LogFull exactly where it would end past the last segment.
    pub fn stage(&self, entries: &[Entry]) -> Result<Batch, MemberFault>
        requires batch { IsBatchAt (place self.now) entries.now }
        requires events { All IsEventEntry entries.now }
        ensures ok { IfOk result (IsSpelled (place self.now) entries.now) }
        ensures room { IfOk result (λ _. place_from (place self.now) entries.now ≤ 16777216) }
        ensures err { IfErr result (λ e. (e ≡ MemberFault.NoMemory) ⊎ ((e ≡ MemberFault.LogFull (place_from (place self.now) entries.now)) × (16777216 < place_from (place self.now) entries.now))) }
        ensures full { 16777216 < place_from (place self.now) entries.now → result ≡ Err (MemberFault.LogFull (place_from (place self.now) entries.now)) }
    {
        let place = self.log.place();
        let end = end_with(place, entries);
        if end > LOG_LIMIT {
            return Err(MemberFault::LogFull { place: end });
        }
        match Batch::spell(self.alloc, place, first_len(entries), entries) {
            Ok(batch) => Ok(batch),
            Err(_) => Err(MemberFault::NoMemory),
        }
    }

    /// Writes a batch that was staged, of these entries. After an error the log is the one before.
    pub fn publish<D: Disk>(
        &mut self,
        disk: &mut D,
        batch: &Batch,
        entries: &[Entry],
    ) -> Result<(), MemberFault>
        requires spelled { IsSpelled (place self.old) entries.now batch.now }
        requires events { All IsEventEntry entries.now }
        requires rises { RisesFrom (last self.old) entries.now }
        requires room { place_from (place self.old) entries.now ≤ 16777216 }
        requires stands { IsTrue (D.tells disk.old) → LogIs self.old (λ f. ((D.state disk.old).files f).reads) }
        ensures ok { OnOk result (self.new ≡ self.old ++ entries.now) }
        ensures err { OnErr result (self.new ≡ self.old) }
        ensures cause { HasDeviceCause (D.fault_count disk.old) (D.fault_count disk.new) result }
        ensures tells { D.tells disk.new ≡ D.tells disk.old }
        ensures honest { D.is_honest disk.new ≡ D.is_honest disk.old }
        ensures others { IsTrue (D.tells disk.old) → (g : ℕ) → (g < 2) ⊎ (258 ≤ g) → (D.state disk.new).files g ≡ (D.state disk.old).files g }
        ensures apart { IsTrue (D.is_honest disk.old) → LeavesOnly D.moment D.left_since disk.old disk.new (IsApart (D.state disk.old).files) }
        ensures stands { IsTrue (D.tells disk.old) → OnOk result (LogIs self.new (λ f. ((D.state disk.new).files f).reads)) }

        // Each image stands for the log then, and at any moment of the call each stands for the log before or after.
        ensures done { IsTrue (D.is_honest disk.old) → EachImage (LogIs self.old) (D.state disk.old).files → OnOk result (EachImage (LogIs (self.old ++ entries.now)) (D.state disk.new).files) }
        ensures each { IsTrue (D.is_honest disk.old) → EachImage (LogIs self.old) (D.state disk.old).files → EachImage (LogIsOne self.old (self.old ++ entries.now)) (D.state disk.new).files }
        ensures cut_well { IsTrue (D.is_honest disk.old) → EachImage (LogIs self.old) (D.state disk.old).files → LeavesOnly D.moment D.left_since disk.old disk.new (LogIsOne self.old (self.old ++ entries.now)) }
        ensures fuse { IsTrue (D.is_honest disk.old) → EachImage (LogIs self.old) (D.state disk.old).files
            → FuseEnds (append_calls (place self.old) entries.now) MemberFault.Device (LogLeft (append_calls (place self.old) entries.now - 1) self.old (self.old ++ entries.now)) (D.state disk.old) (D.state disk.new) result }
    {
        let before = self.log.index().entries();
        match self.log.push_all(entries) {
            Ok(()) => match batch.write(disk) {
                Ok(()) => Ok(()),
                Err(trouble) => {
                    self.log.cut(before);
                    Err(MemberFault::from(trouble))
                }
            },
            Err(_) => Err(MemberFault::NoMemory),
        }
    }

    /// Cuts the log to its first entries. After an error it is the one before.
    pub fn cut<D: Disk>(&mut self, disk: &mut D, entries: u64) -> Result<(), MemberFault>
        requires few { entries ≤ length self.old }
        requires stands { IsTrue (D.tells disk.old) → LogIs self.old (λ f. ((D.state disk.old).files f).reads) }
        ensures ok { OnOk result (self.new ≡ take entries self.old) }
        ensures err { OnErr result (self.new ≡ self.old) }
        ensures cause { HasDeviceCause (D.fault_count disk.old) (D.fault_count disk.new) result }
        ensures tells { D.tells disk.new ≡ D.tells disk.old }
        ensures honest { D.is_honest disk.new ≡ D.is_honest disk.old }
        ensures others { IsTrue (D.tells disk.old) → (g : ℕ) → (g < 2) ⊎ (258 ≤ g) → (D.state disk.new).files g ≡ (D.state disk.old).files g }
        ensures apart { IsTrue (D.is_honest disk.old) → LeavesOnly D.moment D.left_since disk.old disk.new (IsApart (D.state disk.old).files) }
        ensures stands { IsTrue (D.tells disk.old) → OnOk result (LogIs self.new (λ f. ((D.state disk.new).files f).reads)) }

        // Each image stands for the kept entries then, and at any moment of the call for these or for all.
        ensures done { IsTrue (D.is_honest disk.old) → EachImage (LogIs self.old) (D.state disk.old).files → OnOk result (EachImage (LogIs (take entries self.old)) (D.state disk.new).files) }
        ensures each { IsTrue (D.is_honest disk.old) → EachImage (LogIs self.old) (D.state disk.old).files → EachImage (LogIsOne self.old (take entries self.old)) (D.state disk.new).files }
        ensures cut_well { IsTrue (D.is_honest disk.old) → EachImage (LogIs self.old) (D.state disk.old).files → LeavesOnly D.moment D.left_since disk.old disk.new (LogIsOne self.old (take entries self.old)) }
        ensures fuse { IsTrue (D.is_honest disk.old) → EachImage (LogIs self.old) (D.state disk.old).files
            → FuseEnds (if entries == length self.old then 0 else 2) MemberFault.Device (CutLeft self.old (take entries self.old)) (D.state disk.old) (D.state disk.new) result }
    {
        if entries == self.log.index().entries() {
            return Ok(());
        }
        let place = self.log.index().end_at(entries);
        match shut_gate(disk, segment_at(place), place % SEGMENT_BYTES) {
            Ok(()) => {
                self.log.cut(entries);
                Ok(())
            }
            Err(trouble) => Err(MemberFault::from(trouble)),
        }
    }

    /// Reads the entry of an index.
    pub fn read<D: Disk>(&self, disk: &mut D, index: u64) -> Result<Entry, MemberFault>
        requires index { index < length self.now }
        requires stands { IsTrue (D.tells disk.old) → LogIs self.now (λ f. ((D.state disk.old).files f).reads) }
        ensures looked { Looked D.fault_count D.tells D.is_honest D.state D.moment D.left_since disk.old disk.new result }

        // It is an event of the length and the term that are kept, and on a disk that tells the very entry.
        ensures entry { (kept rest : Log) (e : Entry) → self.now ≡ kept ++ e ∷ rest → length kept ≡ index → IfOk result (λ v. IsEventEntry v × (entry_shape v ≡ entry_shape e)) }
        ensures exact { IsTrue (D.tells disk.old) → (kept rest : Log) (e : Entry) → self.now ≡ kept ++ e ∷ rest → length kept ≡ index → IsOnly e result }
    {
        let log = self.log.index();
        let place = log.end_at(index);
        let len = log.event_len(index);
        let term = log.term_at(index + 1);
        read_known(self.alloc, disk, place, len, term)
    }

    /// The log's index.
    pub fn index(&self) -> &LogIndex
        ensures index { result.now ≡ shape_of self.now }
        ensures sound { IsHeld self.now }
        ensures ranged { AreRanged result.now }
    {
        self.log.index()
    }

    /// The terms that begin in the log, in order.
    pub fn terms(&self) -> &[NewTerm]
        ensures { result.now ≡ new_terms 0 self.now }
    {
        self.log.terms()
    }
}

/// Writes the front of the empty log, and syncs it.
pub fn format_log<D: Disk>(disk: &mut D) -> Result<(), MemberFault>
    ensures cause { HasDeviceCause (D.fault_count disk.old) (D.fault_count disk.new) result }
    ensures tells { D.tells disk.new ≡ D.tells disk.old }
    ensures honest { D.is_honest disk.new ≡ D.is_honest disk.old }
    ensures others { IsTrue (D.tells disk.old) → OthersStay 2 (D.state disk.old).files (D.state disk.new).files }
    ensures done { IsTrue (D.tells disk.old) → OnOk result (EachImage (LogIs []) (D.state disk.new).files) }
    ensures settled { IsTrue (D.tells disk.old) → OnOk result ((D.state disk.new).files 2 ≡ settled_file ((D.state disk.new).files 2).reads) }
{
    match cl_base::write_through(disk, FIRST_SEGMENT_FILE, 0, &[0; 32]) {
        Ok(()) => Ok(()),
        Err(trouble) => Err(MemberFault::from(trouble)),
    }
}
