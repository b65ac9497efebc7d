// Images are fed from the log.
ghost use Rattle.std.specs.Prelude.{◌≡◌, ◌+◌, ◌≤◌, ◌<◌, ◌^◌, true, false, length, Ok, MatchOption};
ghost use Rattle.commit_counter.specs.Ends.{fed_to};
ghost use Rattle.service_phases.specs.Pairs.{Each, Each2};
ghost use Rattle.service_phases.specs.Feeds.{TakesMore, Publishes};

use cl_base::{Entry, NoMemory};
use commit_counter::Feed;
use std::sync::Wait;

/// The least index that a feed wants next. None where there is no feed.
pub fn wanted(feeds: &[Feed]) -> Option<u64>
    ensures { MatchOption result (length feeds.now ≡ 0) (λ i. Each (λ f. i ≤ fed_to f) feeds.now) }
{
    let (first, rest) = feeds.split_first()?;
    let own = first.pushed();
    match wanted(rest) {
        Some(other) => Some(own.min(other)),
        None => Some(own),
    }
}

// Feeds one service with what it wants next of these entries, the first of which has the index `first`. True where its
// queue took all of them.
fn feed_one<R: Wait>(
    rt: &R,
    feed: &mut Feed,
    first: u64,
    entries: &[Entry],
) -> Result<bool, NoMemory>
    requires place { first ≤ fed_to feed.old }
    requires bound { first + length entries.now < 2 ^ 62 }
    ensures takes { TakesMore first entries.now feed.old feed.new }
    ensures all { result ≡ Ok true → first + length entries.now ≤ fed_to feed.new }
{
    let end = first + entries.len() as u64;
    for index in feed.pushed()..end {
        let entry = entries[(index - first) as usize].copy()?;
        if feed.push(rt, entry).is_err() {
            return Ok(false);
        }
    }
    Ok(true)
}

/// Feeds each service with what it wants next of these entries of the log, the first of which has the index `first`, as
/// far as its queue takes them. True where each queue took all of them.
pub fn feed_each<R: Wait>(
    rt: &R,
    feeds: &mut [Feed],
    first: u64,
    entries: &[Entry],
) -> Result<bool, NoMemory>
    requires place { Each (λ f. first ≤ fed_to f) feeds.old }
    requires bound { first + length entries.now < 2 ^ 62 }
    ensures takes { Each2 (TakesMore first entries.now) feeds.old feeds.new }
    ensures all { result ≡ Ok true → Each (λ f. first + length entries.now ≤ fed_to f) feeds.new }
{
    let Some((feed, rest)) = feeds.split_first_mut() else {
        return Ok(true);
    };
    let one = feed_one(rt, feed, first, entries);
    let others = feed_each(rt, rest, first, entries);
    Ok(one? && others?)
}

/// True where each service was fed up to this index.
pub fn have_pushed(feeds: &[Feed], index: u64) -> bool
    ensures { result ≡ true → Each (λ f. index ≤ fed_to f) feeds.now }
{
    let Some((feed, rest)) = feeds.split_first() else {
        return true;
    };
    index <= feed.pushed() && have_pushed(rest, index)
}

// Publishes to one service the lesser of the commit and of what was fed to it.
fn publish_one(feed: &mut Feed, commit: u64)
    requires running { feed.old.ended ≡ false }
    requires bound { commit < 2 ^ 62 }
    ensures { Publishes commit feed.old feed.new }
{
    let due = feed.pushed().min(commit);
    if due > feed.commit() {
        feed.publish(due);
    }
}

/// Publishes to each service the lesser of the commit and of what was fed to it.
pub fn publish_each(feeds: &mut [Feed], commit: u64)
    requires running { Each (λ f. f.ended ≡ false) feeds.old }
    requires bound { commit < 2 ^ 62 }
    ensures { Each2 (Publishes commit) feeds.old feeds.new }
{
    let Some((feed, rest)) = feeds.split_first_mut() else {
        return;
    };
    publish_one(feed, commit);
    publish_each(rest, commit);
}
