// What a leader answers to a Canvass, and what a follower keeps on the answer.
ghost use Rattle.std.specs.Prelude.{◌≡◌, ◌↔◌, take, length, IsTrue};
ghost use Rattle.entry_log.specs.Log.{Log, last};
ghost use Rattle.entry_log.specs.Shape.{shape_of, last_term_of};
ghost use Rattle.log_replication.specs.Replication.{IsAnswer, IsKept, answer_term, answer_end, kept, KeepsCommon, KeepsNoMore};

use entry_log::LogIndex;

/// The answer to a Canvass of a log with the last term `f`: the greatest term at most `f` in the log, and where that
/// term ends (bytes), or -1 and 0. Row P13.
pub fn answer_canvass(index: &LogIndex, f: i64) -> (i64, u64)
    ensures answer { IsAnswer index.now f result.0 result.1 }
    ensures term { (log : Log) → shape_of log ≡ index.now → result.0 ≡ answer_term log f }
    ensures end { (log : Log) → shape_of log ≡ index.now → result.1 ≡ answer_end log f }
{
    let entries = index.entries_through(f);
    (index.term_at(entries), index.end_at(entries))
}

/// How many entries a follower keeps on the answer (`u`, `e` bytes): those of the longest prefix whose terms are at
/// most `u` and whose place is at most `e`. And whether its last term is then `u`. Row P12.
pub fn keep_for(index: &LogIndex, u: i64, e: u64) -> (u64, bool)
    ensures kept { IsKept index.now u e result.0 }
    ensures matched { IsTrue result.1 ↔ (last_term_of (take result.0 index.now) ≡ u) }
    ensures log { (log : Log) → shape_of log ≡ index.now → take result.0 log ≡ kept u e log }
    ensures log_matched { (log : Log) → shape_of log ≡ index.now → IsTrue result.1 ↔ (last (kept u e log) ≡ u) }
    ensures common { KeepsCommon index.now u e result.0 }
    ensures no_more { KeepsNoMore index.now u e result.0 }
{
    let entries = index.entries_through(u).min(index.entries_to(e));
    (entries, index.term_at(entries) == u)
}
