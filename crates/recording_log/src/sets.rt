// The latest set of snapshots.
ghost use Rattle.std.specs.Prelude.{◌≡◌, ◌+◌, ◌<◌, List, length, IsTrue, IsFalse, ◌↔◌, IfSome, IsSomeAnd, MatchOption, Some, slice_get};
ghost use Rattle.recording_log.specs.declared.entry.RecEntry.{RecEntry};
ghost use Rattle.recording_log.specs.Sets.{HasSet, HasNoSet, IsLatest, IsUpTo, IsCandidate, IsSoFar};
ghost use Rattle.recording_log.specs.Parts.{Tells};
ghost use Rattle.recording_log.specs.Valid.{is_snapshot};

use crate::entry::{MODULE, RecEntry};
use crate::parts::Parts;

/// The set of the entry's term and position is valid.
fn has_set(parts: &Parts, services: u8, of: RecEntry) -> bool
    ensures { (entries : List RecEntry) → Tells parts.now entries → IsTrue result ↔ HasSet services entries of.term of.position }
{
    for s in 0..services {
        if !parts.has(of, i32::from(s)) {
            return false;
        }
    }
    parts.has(of, MODULE)
}

/// The entry is the module's of a valid set.
pub fn is_candidate(parts: &Parts, services: u8, e: RecEntry) -> bool
    ensures candidate { (entries : List RecEntry) → Tells parts.now entries → IsTrue result ↔ IsCandidate services entries e }
    ensures counts { IsTrue result → IsTrue (is_snapshot e) }
{
    e.is_part(e, MODULE) && has_set(parts, services, e)
}

/// A set of the first entry's term and position is later than one of the second's.
fn is_later(a: RecEntry, b: RecEntry) -> bool
    ensures later { IsTrue result → IsUpTo a.term a.position b → ⊥ }
    ensures up_to { IsFalse result → IsUpTo a.term a.position b }
{
    if b.position < a.position {
        return true;
    }
    if a.position < b.position {
        return false;
    }
    if a.term <= b.term {
        return false;
    }
    true
}

/// The latest one behind index i is at least as late as the entry there.
fn is_behind(entries: &[RecEntry], e: RecEntry, latest: Option<usize>) -> bool
    requires { IfSome latest (λ b. b < length entries.now) }
    ensures yes { IsTrue result → IsSomeAnd latest (λ b. (d : RecEntry) → slice_get entries.now b ≡ Some d → IsUpTo e.term e.position d) }
    ensures no { IsFalse result → IfSome latest (λ b. (d : RecEntry) → slice_get entries.now b ≡ Some d → IsUpTo e.term e.position d → ⊥) }
{
    match latest {
        Some(b) => !is_later(e, entries[b]),
        None => false,
    }
}

/// The latest one from index i on, given the latest one behind it.
fn latest_from(
    entries: &[RecEntry],
    parts: &Parts,
    services: u8,
    i: usize,
    latest: Option<usize>,
) -> Option<usize>
    requires tells { Tells parts.now entries.now }
    requires here { i < length entries.now }
    requires so_far { IsSoFar services entries.now (i + 1) latest }
    ensures { IsSoFar services entries.now i result }
{
    let e = entries[i];
    if is_behind(entries, e, latest) {
        return latest;
    }
    if is_candidate(parts, services, e) {
        return Some(i);
    }
    latest
}

/// The index of the module's entry of the latest valid set. It walks from the end, and asks at each entry for the
/// parts of its set: its time is linear in the number of entries, but for the logarithm of each search, on any log.
pub fn latest_index(entries: &[RecEntry], parts: &Parts, services: u8) -> Option<usize>
    requires { Tells parts.now entries.now }
    ensures within { IfSome result (λ i. i < length entries.now) }
    ensures latest { MatchOption result (HasNoSet services entries.now) (λ i. (e : RecEntry) → slice_get entries.now i ≡ Some e → IsLatest services entries.now i e) }
{
    let mut latest = None;
    let mut i = entries.len();
    while i > 0 {
        i -= 1;
        latest = latest_from(entries, parts, services, i, latest);
    }
    latest
}
