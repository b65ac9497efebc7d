// Images come to their end.
ghost use Rattle.std.specs.Prelude.{◌≡◌, ◌≤◌, ◌<◌, ◌^◌, true, false};
ghost use Rattle.commit_counter.specs.Ends.{fed_to};
ghost use Rattle.service_phases.specs.Pairs.{Each, Each2};
ghost use Rattle.service_phases.specs.Feeds.{Finishes, HasCommit, MayFinish, Looked};
ghost use Rattle.service_phases.specs.Phases.{HasEndedWell};

use commit_counter::Feed;
use service_container::{ServeEnd, Served};

/// Publishes the end to each service.
pub fn finish_each(feeds: &mut [Feed])
    requires { Each MayFinish feeds.old }
    ensures { Each2 Finishes feeds.old feeds.new }
{
    let Some((feed, rest)) = feeds.split_first_mut() else {
        return;
    };
    feed.finish();
    finish_each(rest);
}

/// True where each feed has published this commit. It has published no more than it.
pub fn have_published(feeds: &[Feed], commit: u64) -> bool
    requires { Each (λ f. f.commit ≤ commit) feeds.now }
    ensures published { result ≡ true → Each (HasCommit commit) feeds.now }
    ensures only { Each (HasCommit commit) feeds.now → result ≡ true }
{
    let Some((feed, rest)) = feeds.split_first() else {
        return true;
    };
    commit <= feed.commit() && have_published(rest, commit)
}

/// True where each service was found to have taken up to this index.
pub fn have_taken(feeds: &mut [Feed], index: u64) -> bool
    ensures looked { Each2 Looked feeds.old feeds.new }
    ensures taken { result ≡ true → Each (λ f. index ≤ f.found) feeds.new }
{
    let Some((feed, rest)) = feeds.split_first_mut() else {
        return true;
    };
    let one = index <= feed.service_position();
    let others = have_taken(rest, index);
    one && others
}

/// True where each container ended in the ordinary way.
pub fn have_ended(served: &[Served]) -> bool
    ensures { result ≡ true → Each HasEndedWell served.now }
{
    let Some((job, rest)) = served.split_first() else {
        return true;
    };
    matches!(job.end, ServeEnd::Ended) && have_ended(rest)
}
