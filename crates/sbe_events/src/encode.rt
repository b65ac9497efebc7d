// Bytes from events.
ghost use Rattle.std.specs.Prelude.{◌≡◌, ◌⊎◌, ◌++◌, List, [], ℕ, Some, IfOk};
ghost use Rattle.sbe_events.specs.Spelling.{HasSpelling, spelling_of, event_of, term_of, stamp_of, subject_of, IsMessage};
ghost use Rattle.sbe_events.specs.declared.event.Event.{Event};

use crate::event::Event;
use cl_base::{Bytes, NoMemory};
use std::alloc::Global;
use wire_prims::{Field, bare, session_of, with_counted, with_rest};

/// The one spelling of an event.
pub fn encode_event(alloc: Global, e: &Event) -> Result<Bytes, NoMemory>
    requires { HasSpelling e.now }
    ensures spelled { IfOk result (λ b. b ≡ spelling_of e.now) }
    ensures read_again { event_of (spelling_of e.now) ≡ Some e.now }
    // No other event has this spelling.
    ensures alone { (other : Event) → HasSpelling other → spelling_of other ≡ spelling_of e.now → other ≡ e.now }
    // Nor does another one's spelling begin with it, unless it is that of a message.
    ensures prefix_free { (other : Event) (rest : List ℕ) → HasSpelling other → spelling_of other ≡ spelling_of e.now ++ rest → (rest ≡ []) ⊎ IsMessage e.now }
{
    spelled(alloc, e)
}

/// The term of an event.
fn term_of(e: &Event) -> i64
    ensures { result ≡ term_of e.now }
{
    match e {
        Event::Term { term, .. }
        | Event::Opened { term, .. }
        | Event::Message { term, .. }
        | Event::ServiceMessage { term, .. }
        | Event::Timer { term, .. }
        | Event::Closed { term, .. }
        | Event::Snapshot { term, .. } => *term,
    }
}

/// When an event came, in ms.
fn stamp_of(e: &Event) -> i64
    ensures { result ≡ stamp_of e.now }
{
    match e {
        Event::Term { stamp, .. }
        | Event::Opened { stamp, .. }
        | Event::Message { stamp, .. }
        | Event::ServiceMessage { stamp, .. }
        | Event::Timer { stamp, .. }
        | Event::Closed { stamp, .. }
        | Event::Snapshot { stamp, .. } => *stamp,
    }
}

/// The number that stands behind an event's term: its place, the name that a client or a service gave, or its sender.
fn subject_of(e: &Event) -> i64
    requires { HasSpelling e.now }
    ensures { result ≡ subject_of e.now }
{
    match e {
        Event::Term { position, .. } | Event::Snapshot { position, .. } => *position,
        Event::Opened { corr, .. } | Event::Timer { corr, .. } => *corr,
        Event::Message { session, .. } | Event::Closed { session, .. } => *session,
        Event::ServiceMessage {
            service,
            number,
            ..
        } => session_of(*service, *number),
    }
}

fn spelled(alloc: Global, e: &Event) -> Result<Bytes, NoMemory>
    requires { HasSpelling e.now }
    ensures { IfOk result (λ b. b ≡ spelling_of e.now) }
{
    let term = Field::I64(term_of(e));
    let subject = Field::I64(subject_of(e));
    let stamp = Field::I64(stamp_of(e));
    match e {
        Event::Term { base, leader, .. } => {
            let base = Field::I64(*base);
            let leader = Field::I32(*leader);
            bare(
                alloc,
                24,
                &[term, subject, stamp, base, leader, Field::I32(1)],
            )
        }
        Event::Opened {
            session,
            stream,
            channel,
            ..
        } => {
            let session = Field::I64(*session);
            let fields = [term, subject, session, stamp, Field::I32(*stream)];
            with_counted(alloc, 21, &fields, channel.as_slice())
        }
        Event::Message { payload, .. } | Event::ServiceMessage { payload, .. } => with_rest(
            alloc,
            1,
            &[term, subject, stamp],
            payload.as_slice(),
        ),
        Event::Timer { .. } => bare(alloc, 20, &[term, subject, stamp]),
        Event::Closed { reason, .. } => {
            let reason = Field::I32(i32::from(*reason));
            bare(alloc, 22, &[term, subject, stamp, reason])
        }
        Event::Snapshot { .. } => bare(alloc, 23, &[term, subject, stamp, Field::I32(2)]),
    }
}
