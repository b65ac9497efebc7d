// What feeds were fed stays the log's.
ghost use Rattle.std.specs.Prelude.{◌≡◌, ◌+◌, ◌≤◌, ℕ, List, ◌++◌, length, take, drop};
ghost use Rattle.cl_base.specs.declared.entry.Entry.{Entry};
ghost use Rattle.commit_counter.specs.Ends.{Fed, fed_to};
ghost use Rattle.service_container.specs.Held.{Held, consumed_to};
ghost use Rattle.service_phases.specs.Feeds.{FeedEnds, FeedHolds, FeedsFrom, Finishes, Publishes, TakesMore};
ghost use Rattle.service_phases.specs.Phases.{BeginsAt, IsWithin};

/// What a feed was fed is the log's from where its image begins, at first and after each further part of the log; also once
/// entries are put behind the log.
pub fn what_is_fed_is_the_logs()
    ensures begins { (log : List Entry) (commit : ℕ) (c : Held) (f : Fed) → BeginsAt c f → consumed_to c ≤ commit → consumed_to c ≤ length log → FeedsFrom log commit f f }
    ensures goes_on { (log : List Entry) (commit first : ℕ) (b f g h : Fed) → first ≤ fed_to f → FeedsFrom log commit b f → TakesMore first (drop first log) f g → Publishes commit g h → FeedsFrom log commit b h }
    ensures grows { (log more : List Entry) (commit next : ℕ) (b f : Fed) → commit ≤ next → FeedsFrom log commit b f → FeedsFrom (log ++ more) next b f }
{}

/// What a feed published is the log's, to its end, also once the log is cut above the commit and goes on otherwise; and so
/// is what a service consumed of it.
pub fn what_is_published_stays_the_logs()
    ensures holds { (log : List Entry) (commit : ℕ) (b f : Fed) → FeedsFrom log commit b f → FeedHolds log commit b f }
    ensures stays { (log next : List Entry) (commit : ℕ) (b f : Fed) → take commit next ≡ take commit log → FeedHolds log commit b f → FeedHolds next commit b f }
    ensures ends { (log : List Entry) (commit : ℕ) (b f g : Fed) → FeedHolds log commit b f → Finishes f g → FeedEnds log commit b g }
    ensures within { (log next : List Entry) (commit later : ℕ) (c : Held) → commit ≤ later → take commit next ≡ take commit log → IsWithin log commit c → IsWithin next later c }
{}
