// How many entries go into one batch.
ghost use Rattle.std.specs.Prelude.{◌≡◌, ◌≤◌, length};
ghost use Rattle.log_replication.specs.Batches.{IsLongestBatch, FollowsBatch};

use cl_base::limits::{BATCH_BYTES, BATCH_ENTRIES};
use entry_log::{LogIndex, segment_of};

/// How many entries the batch from entry `from` has: as many as make one batch, none where the log
/// has no such entry.
pub fn batch_len(index: &LogIndex, from: u64) -> u64
    ensures longest { IsLongestBatch index.now from result }
    ensures follows { FollowsBatch index.now from result }
{
    let limit = index.entries().saturating_sub(from).min(BATCH_ENTRIES);
    if limit == 0 {
        return 0;
    }
    let segment = segment_of(index.end_at(from + 1));
    let mut bytes = index.event_len(from);
    for count in 1..limit {
        bytes = bytes.saturating_add(index.event_len(from + count));
        let next = segment_of(index.end_at(from + count + 1));
        if bytes > BATCH_BYTES || next != segment {
            return count;
        }
    }
    limit
}
