// What is due at a member, and what it admits. The module's state is made anew each time.
ghost use Rattle.std.specs.Prelude.{◌≡◌, ◌≤◌, ◌^◌, ◌&&◌, [], ◌∷◌, length, nat_le, IfOk, IfSome};
ghost use Rattle.std.specs.List.{AllByRecursion};
ghost use Rattle.sbe_events.specs.Spelling.{HasSpelling, event_of, term_of};
ghost use Rattle.entry_log.specs.Log.{end_after, place};
ghost use Rattle.module_state.specs.Entries.{events_in};
ghost use Rattle.module_state.specs.Due.{due};
ghost use Rattle.module_state.specs.Module.{first_module, tentative};
ghost use Rattle.module_state.specs.Ranges.{IsNumber};
ghost use Rattle.module_state.specs.Places.{entry_of, stamp_of};
ghost use Rattle.one_log.specs.Led.{admits, has_room};
ghost use Rattle.world_steps.specs.Fit.{LogFits};

use crate::log::{index_of, put};
use cl_base::limits::{ACTIONS_LIMIT, LOG_LIMIT, SESSIONS_LIMIT};
use cl_base::{Entry, List, NoMemory};
use entry_log::end_after;
use module_state::{ModuleState, Moment};
use sbe_events::{Event, decode_event, encode_event};
use std::alloc::Global;
use wire_prims::DecodeFault;

/// The term of an event.
pub fn term_of(event: &Event) -> i64
    ensures { result ≡ term_of event.now }
{
    match event {
        Event::Term { term, .. }
        | Event::Opened { term, .. }
        | Event::Message { term, .. }
        | Event::ServiceMessage { term, .. }
        | Event::Timer { term, .. }
        | Event::Closed { term, .. }
        | Event::Snapshot { term, .. } => *term,
    }
}

/// The stamp of an event.
pub fn stamp_of(event: &Event) -> i64
    ensures { result ≡ stamp_of event.now }
{
    match event {
        Event::Term { stamp, .. }
        | Event::Opened { stamp, .. }
        | Event::Message { stamp, .. }
        | Event::ServiceMessage { stamp, .. }
        | Event::Timer { stamp, .. }
        | Event::Closed { stamp, .. }
        | Event::Snapshot { stamp, .. } => *stamp,
    }
}

/// The entry of an event, whose term is the event's.
pub fn entry_of(alloc: Global, event: &Event) -> Result<Entry, NoMemory>
    requires { HasSpelling event.now }
    ensures { IfOk result (λ x. x ≡ entry_of event.now) }
{
    let bytes = encode_event(alloc, event)?;
    Ok(Entry {
        term: term_of(event),
        bytes,
    })
}

/// The event of an entry, where it spells one.
fn event_of(alloc: Global, entry: &Entry) -> Result<Option<Event>, NoMemory>
    ensures found { IfOk result (λ e. e ≡ event_of entry.now.bytes) }
    ensures spelled { IfOk result (λ e. IfSome e HasSpelling) }
{
    match decode_event(alloc, entry.bytes.as_slice()) {
        Ok(event) => Ok(Some(event)),
        Err(DecodeFault::Bad(_)) => Ok(None),
        Err(DecodeFault::NoMemory) => Err(NoMemory),
    }
}

/// The events that the entries of a log spell.
fn events_in(alloc: Global, log: &[Entry]) -> Result<Vec<Event>, NoMemory>
    ensures events { IfOk result (λ es. es.items ≡ events_in log.now) }
    ensures spelled { IfOk result (λ es. AllByRecursion HasSpelling es.items) }
{
    let mut events = Vec::new(alloc);
    for entry in log {
        if let Some(event) = event_of(alloc, entry)? {
            put(&mut events, event)?;
        }
    }
    Ok(events)
}

/// What is due at this moment at a leader with this log, of which its module applied nothing.
pub fn due_in(
    alloc: Global,
    services: u8,
    log: &[Entry],
    alive: &[(i64, u64)],
    moment: Moment,
) -> Result<List<Event>, NoMemory>
    requires services { services ≤ 3 }
    requires now { moment.now ≤ 2 ^ 60 }
    ensures due { IfOk result (λ es. es ≡ due (first_module services) (tentative (first_module services) (events_in log.now)) (events_in log.now) alive.now moment.term moment.now moment.since) }
    ensures spelled { IsNumber moment.term → IfOk result (λ es. AllByRecursion HasSpelling es) }
{
    let events = events_in(alloc, log)?;
    let state = ModuleState::fresh(alloc, services)?;
    let latest = state.tentative(events.as_slice())?;
    state.due(&latest, events.as_slice(), alive, moment)
}

/// Whether an event may go behind a log that ends at this place (bytes), where this is the module's state.
fn admits(view: &ModuleState, place: u64, event: &Event) -> bool
    requires { place ≤ 16777216 }
    ensures { result ≡ admits view.now place event.now }
{
    match event {
        Event::Opened { session, .. } => {
            *session == view.sessions().next_id() && view.sessions().open_count() < SESSIONS_LIMIT
        }
        Event::Message { session, .. } => view.sessions().find(*session).is_some(),
        Event::Closed {
            session,
            reason,
            ..
        } => *reason == 0 && view.sessions().find(*session).is_some(),
        Event::Snapshot { position, .. } => {
            *position == place as i64 && view.actions() < ACTIONS_LIMIT
        }
        _ => false,
    }
}

#[tactic(auto, using(crate::proofs::Logs::end_is_place))]
/// Where a log ends (bytes).
fn place_of(alloc: Global, log: &[Entry]) -> Result<u64, NoMemory>
    requires { LogFits log.now }
    ensures place { IfOk result (λ p. p ≡ place log.now) }
    ensures limit { IfOk result (λ p. p ≤ 16777216) }
{
    Ok(index_of(alloc, log)?.place())
}

/// Whether there is room for an entry behind a log that ends at this place (bytes).
fn has_room(place: u64, entry: &Entry) -> bool
    requires place { place ≤ 16777216 }
    requires len { length entry.now.bytes ≤ 32768 }
    ensures { result ≡ nat_le (end_after place (length entry.now.bytes)) 16777216 }
{
    end_after(place, entry.bytes.len() as u64) <= LOG_LIMIT
}

/// Whether a leader with this log, of which its module applied nothing, may append this event: it is admitted, and there is
/// room.
pub fn may_append(
    alloc: Global,
    services: u8,
    log: &[Entry],
    event: &Event,
) -> Result<bool, NoMemory>
    requires services { services ≤ 3 }
    requires log { LogFits log.now }
    requires event { HasSpelling event.now }
    ensures { IfOk result (λ b. b ≡ (admits (tentative (first_module services) (events_in log.now)) (place log.now) event.now && has_room log.now (entry_of event.now ∷ []))) }
{
    let events = events_in(alloc, log)?;
    let view = ModuleState::fresh(alloc, services)?.tentative(events.as_slice())?;
    let place = place_of(alloc, log)?;
    let entry = entry_of(alloc, event)?;
    let admitted = admits(&view, place, event);
    Ok(admitted && has_room(place, &entry))
}
