// Containers are lent to a phase.
ghost use Rattle.std.specs.Prelude.{◌≡◌, ◌+◌, ◌≤◌, [], length, vec_len, vec_capacity};
ghost use Rattle.service_phases.specs.Pairs.{Each2};
ghost use Rattle.service_phases.specs.Begins.{Holds, Polls};

use commit_counter::Poller;
use service_container::{Container, ServeEnd, Served};

/// Puts each container into a job with the poller of its place. There has to be room for them.
pub fn lend_each(kept: &mut Vec<Container>, pollers: &mut Vec<Poller>, jobs: &mut Vec<Served>)
    requires pairs { length kept.old.items ≡ length pollers.old.items }
    requires none { jobs.old.items ≡ [] }
    requires room { vec_len kept.old ≤ vec_capacity jobs.old }
    ensures kept { kept.new.items ≡ [] }
    ensures same { vec_capacity kept.new ≡ vec_capacity kept.old }
    ensures containers { Each2 Holds kept.old.items jobs.new.items }
    ensures pollers { Each2 Polls pollers.old.items jobs.new.items }
    ensures capacity { vec_capacity jobs.new ≡ vec_capacity jobs.old }
    ensures len { vec_len jobs.new ≡ vec_len kept.old }
{
    let (Some(container), Some(poller)) = (kept.pop(), pollers.pop()) else {
        return;
    };
    lend_each(kept, pollers, jobs);
    jobs.push_reserved(Served {
        container,
        poller,
        end: ServeEnd::NoMemory,
    });
}
