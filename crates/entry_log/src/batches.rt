// Entries that are written as one batch, measured before they are in an index.
ghost use Rattle.std.specs.Prelude.{◌≡◌, ◌≤◌, ◌<◌, ◌+◌, ◌*◌, All, MatchOption, drop, length, sum};
ghost use Rattle.entry_log.specs.Log.{place_from};
ghost use Rattle.entry_log.specs.Shape.{shape_of, lens_of};
ghost use Rattle.entry_log.specs.Batches.{segment_of, all_in, in_one_segment, is_batch};

use crate::places::end_after;
use cl_base::Entry;
use cl_base::limits::{BATCH_BYTES, BATCH_ENTRIES, LOG_LIMIT, SEGMENT_BYTES};

#[tactic(auto, using(crate::specs::Places::place_from_grows))]
/// Where entries end that are written from `start` (bytes), None where that is past the log's end. Their events have at
/// most 32,768 bytes each.
pub fn end_within(start: u64, entries: &[Entry]) -> Option<u64>
    requires { All (λ e. length e.bytes ≤ 32768) entries.now }
    ensures { MatchOption result (16777216 < place_from start entries.now) (λ end. (end ≡ place_from start entries.now) × (end ≤ 16777216)) }
{
    let mut end = start;
    for entry in entries {
        if end > LOG_LIMIT {
            return None;
        }
        end = end_after(end, entry.bytes.len() as u64);
    }
    if end > LOG_LIMIT { None } else { Some(end) }
}

/// The segment in which an entry stands that ends at this place (bytes).
pub fn segment_of(end: u64) -> u64
    ensures { result ≡ segment_of end }
{
    end.saturating_sub(1) / SEGMENT_BYTES
}

/// Whether all of the entries, written from `start`, stand in this segment.
fn are_all_in(number: u64, start: u64, entries: &[Entry]) -> bool
    requires events { All (λ e. length e.bytes ≤ 32768) entries.now }
    requires start { start ≤ 16777216 }
    requires few { length entries.now ≤ 64 }
    ensures { result ≡ all_in number start (shape_of entries.now) }
{
    let mut end = start;
    for entry in entries {
        end = end_after(end, entry.bytes.len() as u64);
        if segment_of(end) != number {
            return false;
        }
    }
    true
}

fn are_in_one_segment(start: u64, entries: &[Entry]) -> bool
    requires events { All (λ e. length e.bytes ≤ 32768) entries.now }
    requires start { start ≤ 16777216 }
    requires few { length entries.now ≤ 64 }
    ensures { result ≡ in_one_segment start (shape_of entries.now) }
{
    if entries.is_empty() {
        return true;
    }
    let first = end_after(start, entries[0].bytes.len() as u64);
    are_all_in(segment_of(first), start, entries)
}

/// The bytes of the events of entries.
fn event_bytes(entries: &[Entry]) -> u64
    requires events { All (λ e. length e.bytes ≤ 32768) entries.now }
    requires few { length entries.now ≤ 64 }
    ensures { result ≡ sum (lens_of (shape_of entries.now)) }
{
    let mut total: u64 = 0;
    for entry in entries {
        total += entry.bytes.len() as u64;
    }
    total
}

/// Whether entries that are written from `start` (bytes, at most 16,777,216) are one batch: at most 64 entries in one
/// segment, with at most 8,192 bytes of events or a single entry. Their events have at most 32,768 bytes each.
pub fn is_one_batch(start: u64, entries: &[Entry]) -> bool
    requires events { All (λ e. length e.bytes ≤ 32768) entries.now }
    requires start { start ≤ 16777216 }
    ensures { result ≡ is_batch start (shape_of entries.now) }
{
    entries.len() as u64 <= BATCH_ENTRIES
        && (entries.len() <= 1 || event_bytes(entries) <= BATCH_BYTES)
        && are_in_one_segment(start, entries)
}
