// The valid sets of snapshots, in order, and what is found among the entries.
ghost use Rattle.std.specs.Prelude.{◌≡◌, ◌+◌, ◌<◌, ◌≤◌, ◌^◌, ◌↔◌, ℕ, List, Some, slice_get, pos, IsTrue, IsFalse, MatchOption, length, vec_len, vec_capacity};
ghost use Rattle.recording_log.specs.declared.entry.RecEntry.{RecEntry};
ghost use Rattle.recording_log.specs.Parts.{Tells};
ghost use Rattle.recording_log.specs.Valid.{terms_of};
ghost use Rattle.recording_log.specs.Sets.{HasPart};
ghost use Rattle.recording_log.specs.Listed.{IsBefore, Rise, IsPlace, IsFound, IsPutIn, HaveThese, AreSets, IsLastPart, IsThere, FindsFrom};

use crate::entry::{MODULE, RecEntry, SnapshotAt, TermAt};
use crate::log::RecordingLog;
use crate::parts::Parts;
use crate::sets::is_candidate;

/// The first set is listed before the second: by position, and at one position by term.
fn is_before(one: SnapshotAt, other: SnapshotAt) -> bool
    ensures { IsTrue result ↔ IsBefore one other }
{
    if one.position < other.position {
        return true;
    }
    one.position == other.position && one.term < other.term
}

/// Where a set belongs among others that are in order. It looks from their end on.
fn place_of(sets: &[SnapshotAt], set: SnapshotAt) -> usize
    requires { Rise sets.now }
    ensures { IsPlace set sets.now result }
{
    let mut place = sets.len();
    while place > 0 {
        if is_before(sets[place - 1], set) {
            return place;
        }
        place -= 1;
    }
    0
}

/// Where a set belongs among others that are in order, and whether one of its position and term is there.
fn find_place(sets: &[SnapshotAt], set: SnapshotAt) -> (usize, bool)
    requires { Rise sets.now }
    ensures { IsFound set sets.now result.0 result.1 }
{
    let place = place_of(sets, set);
    if place >= sets.len() {
        return (place, false);
    }
    (place, !is_before(set, sets[place]))
}

/// Puts a set at its place among others that are in order, of which there is room for one more. Of two of one position
/// and term the later one stays.
fn put_set(sets: &mut Vec<SnapshotAt>, set: SnapshotAt)
    requires rise { Rise sets.old.items }
    requires room { vec_len sets.old < vec_capacity sets.old }
    ensures put { IsPutIn set sets.old.items sets.new.items }
    ensures len { vec_len sets.new ≤ vec_len sets.old + 1 }
    ensures capacity { vec_capacity sets.old ≤ vec_capacity sets.new }
{
    let (place, is_there) = find_place(sets, set);
    if is_there {
        sets[place] = set;
        return;
    }
    match sets.insert(place, set) {
        Ok(()) => (),
        Err(_) => unreachable!(),
    }
}

/// Puts the set of an entry among others, where it is the module's entry of a valid set.
fn take_set(parts: &Parts, services: u8, entry: RecEntry, sets: &mut Vec<SnapshotAt>)
    requires rise { Rise sets.old.items }
    requires room { vec_len sets.old < vec_capacity sets.old }
    ensures taken { (entries : List RecEntry) (i : ℕ) → Tells parts.now entries → slice_get entries i ≡ Some entry → HaveThese services entries i sets.old.items → HaveThese services entries (i + 1) sets.new.items }
    ensures rise { Rise sets.new.items }
    ensures len { vec_len sets.new ≤ vec_len sets.old + 1 }
    ensures capacity { vec_capacity sets.old ≤ vec_capacity sets.new }
{
    if is_candidate(parts, services, entry) {
        put_set(sets, entry.as_snapshot());
    }
}

/// The last entry of a service, or of the module at -1, of another entry's term and position.
fn last_of(entries: &[RecEntry], of: RecEntry, service: i32) -> Option<RecEntry>
    ensures { MatchOption result (HasPart entries.now of.term of.position service → ⊥) (IsLastPart entries.now of.term of.position service) }
{
    let mut i = entries.len();
    while i > 0 {
        i -= 1;
        if entries[i].is_part(of, service) {
            return Some(entries[i]);
        }
    }
    None
}

/// The entry is one of these.
fn holds(entries: &[RecEntry], entry: RecEntry) -> bool
    ensures there { IsTrue result → IsThere entry entries.now }
    ensures nowhere { IsFalse result → IsThere entry entries.now → ⊥ }
{
    for i in 0..entries.len() {
        if entries[i] == entry {
            return true;
        }
    }
    false
}

/// The index of a term in a list, from an index on.
fn index_of(terms: &[TermAt], term: TermAt, from: usize) -> Option<usize>
    ensures { FindsFrom terms.now term from result }
{
    for i in from..terms.len() {
        if terms[i] == term {
            return Some(i);
        }
    }
    None
}

impl RecordingLog {
    /// Lists the valid sets, by rising position and at one position by rising term, each with the recording of the last
    /// of the module's entries for it. There is room for as many as the log has entries.
    pub fn list_sets(&self, services: u8, sets: &mut Vec<SnapshotAt>)
        requires { length self.now ≤ vec_capacity sets.old }
        ensures { AreSets services self.now sets.new.items }
    {
        let entries = self.entries();
        let parts = self.parts();
        sets.clear();
        for entry in entries {
            take_set(parts, services, *entry, sets);
        }
    }

    /// The last valid SNAPSHOT entry of a service, or of the module at -1, of a set's term and position.
    pub fn last_part(&self, set: SnapshotAt, service: i32) -> Option<RecEntry>
        requires recording { set.recording < 1024 }
        requires position { set.position ≤ 2 ^ 62 }
        ensures { MatchOption result (HasPart self.now set.term (pos set.position) service → ⊥) (IsLastPart self.now set.term (pos set.position) service) }
    {
        let of = RecEntry::of_snapshot(set.recording, set.term, 0, set.position, 0, MODULE);
        last_of(self.entries(), of, service)
    }

    /// The entry is there, with all its fields.
    pub fn has_entry(&self, entry: RecEntry) -> bool
        ensures there { IsTrue result → IsThere entry self.now }
        ensures nowhere { IsFalse result → IsThere entry self.now → ⊥ }
    {
        holds(self.entries(), entry)
    }

    /// The index of a leadership term among those of the valid TERM entries, looked for from an index on, and then
    /// before it.
    pub fn find_term(&self, term: TermAt, from: usize) -> Option<usize>
        ensures { FindsFrom (terms_of self.now) term 0 result }
    {
        let terms = self.terms();
        match index_of(terms, term, from) {
            Some(i) => Some(i),
            None => index_of(terms, term, 0),
        }
    }
}
