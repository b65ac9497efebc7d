// The images of a phase are closed.
ghost use Rattle.std.specs.Prelude.{◌≡◌, ◌+◌, ◌≤◌, ◌++◌, map, vec_len, vec_capacity};
ghost use Rattle.service_phases.specs.Pairs.{Each2};
ghost use Rattle.service_phases.specs.Phases.{Closed, MayClose};

use commit_counter::{Feed, close};
use service_container::{Container, Served};
use std::sync::Wait;

/// Closes each image, and puts the containers behind those that are kept. There has to be room for them.
pub fn close_each<R: Wait>(
    rt: &R,
    feeds: &mut Vec<Feed>,
    served: &mut Vec<Served>,
    kept: &mut Vec<Container>,
)
    requires close { Each2 MayClose feeds.old.items served.old.items }
    requires room { vec_len kept.old + vec_len served.old ≤ vec_capacity kept.old }
    ensures closed { Each2 Closed feeds.old.items served.old.items }
    ensures kept { kept.new.items ≡ kept.old.items ++ map (λ s. s.container) served.old.items }
    ensures len { vec_len kept.new ≡ vec_len kept.old + vec_len served.old }
    ensures capacity { vec_capacity kept.new ≡ vec_capacity kept.old }
{
    let (Some(feed), Some(job)) = (feeds.pop(), served.pop()) else {
        return;
    };
    close_each(rt, feeds, served, kept);
    let Served {
        container,
        poller,
        end: _,
    } = job;
    close(rt, feed, poller);
    kept.push_reserved(container);
}
