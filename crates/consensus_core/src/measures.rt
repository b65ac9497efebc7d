// Entries that come in a batch, measured before they are in an index.
ghost use Rattle.std.specs.Prelude.{◌≡◌, ◌≤◌, ◌+◌, ◌*◌, All, drop, length};
ghost use Rattle.log_replication.specs.Replication.{past as left_past};
ghost use Rattle.consensus_core.specs.Sendable.{are_rising as rising, is_end_from as ends_there};

use cl_base::Entry;
use entry_log::end_after;

/// Whether the terms of entries don't fall from `low` on, up to `high`.
pub fn are_rising(low: i64, high: i64, entries: &[Entry]) -> bool
    ensures { result ≡ rising low high entries.now }
{
    let mut least = low;
    for entry in entries {
        if entry.term < least || entry.term > high {
            return false;
        }
        least = entry.term;
    }
    true
}

/// How many of the entries, written from `start`, end at most at `place`, from the front.
pub fn count_to(start: u64, place: u64, entries: &[Entry]) -> usize
    requires events { All (λ e. length e.bytes ≤ 32768) entries.now }
    requires start { start ≤ 16777216 }
    requires few { length entries.now ≤ 64 }
    ensures rest { drop result entries.now ≡ left_past start place entries.now }
    ensures within { result ≤ length entries.now }
{
    let mut end = start;
    let mut count = 0;
    for entry in entries {
        end = end_after(end, entry.bytes.len() as u64);
        if end > place {
            return count;
        }
        count += 1;
    }
    count
}

/// Whether one of the entries, written from `start`, ends at `place`.
pub fn is_end_from(start: u64, place: u64, entries: &[Entry]) -> bool
    requires events { All (λ e. length e.bytes ≤ 32768) entries.now }
    requires start { start ≤ 16777216 }
    requires few { length entries.now ≤ 64 }
    ensures { result ≡ ends_there start place entries.now }
{
    let mut end = start;
    for entry in entries {
        end = end_after(end, entry.bytes.len() as u64);
        if end == place {
            return true;
        }
    }
    false
}
