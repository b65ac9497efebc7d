// The length of an event, and the term of it.
ghost use Rattle.std.specs.Prelude.{◌≡◌, ◌+◌, ◌≤◌, ◌^◌, length};
ghost use Rattle.entry_log.specs.Log.{end_after};
ghost use Rattle.sbe_events.specs.Spelling.{HasSpelling, term_of};
ghost use Rattle.echo_run.specs.Module.{event_len};

use entry_log::end_after;
use sbe_events::Event;

pub(crate) fn term_of(event: &Event) -> i64
    ensures { result ≡ term_of event.now }
{
    match event {
        Event::Term { term, .. }
        | Event::Opened { term, .. }
        | Event::Message { term, .. }
        | Event::ServiceMessage { term, .. }
        | Event::Timer { term, .. }
        | Event::Closed { term, .. }
        | Event::Snapshot { term, .. } => *term,
    }
}

/// The bytes of an event.
#[tactic(auto, using(crate::proofs::Lengths::len_counted))]
fn event_len(event: &Event) -> u64
    requires { event_len event.now ≤ 32768 }
    ensures { result ≡ event_len event.now }
{
    match event {
        Event::Term { .. } => 48,
        Event::Opened { channel, .. } => 48 + channel.len() as u64,
        Event::Message { payload, .. } | Event::ServiceMessage { payload, .. } => {
            32 + payload.len() as u64
        }
        Event::Timer { .. } => 32,
        Event::Closed { .. } | Event::Snapshot { .. } => 36,
    }
}

/// Where an event ends that is appended at a place.
pub(crate) fn end_behind(place: u64, event: &Event) -> u64
    requires place { place ≤ 2 ^ 48 }
    requires spelled { HasSpelling event.now }
    ensures { result ≡ end_after place (event_len event.now) }
{
    end_after(place, event_len(event))
}
