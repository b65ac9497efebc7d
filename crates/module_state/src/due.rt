// The entries that are due.
ghost use Rattle.std.specs.Prelude.{◌≡◌, pos, [], ◌∷◌, ◌==◌, ◌≤◌, ◌<◌, ◌+◌, ◌++◌, ◌^◌, OnOk, length, option_copied, nat_le, not};
ghost use Rattle.std.specs.List.{AllByRecursion};
ghost use Rattle.sbe_events.specs.declared.event.Event.TheVariants as events;
ghost use Rattle.pending_messages.specs.Pending.{offers_at, offered_of};
ghost use Rattle.module_state.specs.Allowed.{rings};
ghost use Rattle.module_state.specs.Ranges.{OffersFit};
ghost use Rattle.module_state.specs.Due.{alive_at, is_silent, is_marked, close_of, close_due_to, closes_due, over, rings_of, messages_of, messages_due};

use crate::Moment;
use cl_base::limits::SESSION_TIMEOUT_MS;
use cl_base::{List, NoMemory};
use pending_messages::Pending;
use sbe_events::Event;
use session_manager::{Session, Sessions};
use timer_service::Timers;

/// The reason of a close by a service.
const BY_SERVICE: u8 = 1;

/// The reason of a close after too long a silence.
const BY_SILENCE: u8 = 2;

// The last keep-alive of a session, 0 where there was none.
fn alive_at(id: i64, alive: &[(i64, u64)]) -> u64
    ensures { result ≡ alive_at id alive.now }
{
    for pair in alive.iter() {
        if pair.0 == id {
            return pair.1;
        }
    }
    0
}

// A moment is 10,000 ms past.
fn is_past(moment: u64, now: u64) -> bool
    ensures { result ≡ nat_le (moment + 10000) now }
{
    now >= SESSION_TIMEOUT_MS && moment <= now - SESSION_TIMEOUT_MS
}

// Nothing was heard of a session for 10,000 ms.
fn is_silent(session: &Session, alive: &[(i64, u64)], moment: Moment) -> bool
    requires { moment.now ≤ 2 ^ 60 }
    ensures { result ≡ is_silent alive.now moment.since moment.now session.now }
{
    session.is_idle(moment.now, moment.since) && is_past(alive_at(session.id, alive), moment.now)
}

// A session that is there is marked by a service.
fn is_marked(session: Option<&Session>) -> bool
    ensures { result ≡ is_marked (option_copied session.entry) }
{
    match session {
        Some(session) => session.closing,
        None => false,
    }
}

// Adds the close of a session.
fn add_close(found: &mut List<Event>, id: i64, reason: u8, moment: Moment) -> Result<(), NoMemory>
    requires { moment.now ≤ 2 ^ 60 }
    ensures { OnOk result (found.new ≡ found.old ++ close_of moment.term moment.now id reason) }
{
    found.push(Event::Closed {
        term: moment.term,
        session: id,
        stamp: moment.now as i64,
        reason,
    })
}

// Adds the close of an open session that is there, where it is due.
fn add_due_close(
    found: &mut List<Event>,
    consumed: &Sessions,
    session: Option<&Session>,
    alive: &[(i64, u64)],
    moment: Moment,
) -> Result<(), NoMemory>
    requires { moment.now ≤ 2 ^ 60 }
    ensures { OnOk result (found.new ≡ found.old ++ close_due_to consumed.now.table alive.now moment.term moment.now moment.since (option_copied session.entry)) }
{
    let Some(session) = session else {
        return Ok(());
    };
    if is_marked(consumed.find(session.id)) {
        return add_close(found, session.id, BY_SERVICE, moment);
    }
    if is_silent(session, alive, moment) {
        return add_close(found, session.id, BY_SILENCE, moment);
    }
    Ok(())
}

/// Adds the closes that are due, by rising id.
pub fn add_closes(
    found: &mut List<Event>,
    consumed: &Sessions,
    tentative: &Sessions,
    alive: &[(i64, u64)],
    moment: Moment,
) -> Result<(), NoMemory>
    requires { moment.now ≤ 2 ^ 60 }
    ensures { OnOk result (found.new ≡ found.old ++ closes_due consumed.now.table alive.now moment.term moment.now moment.since tentative.now.table.listed) }
{
    let count = tentative.open_count();
    for place in 0..count {
        add_due_close(found, consumed, tentative.at(place), alive, moment)?;
    }
    Ok(())
}

// An event is one of the timer of this name.
fn is_ring(event: &Event, name: i64) -> bool
    ensures { result ≡ not (rings name (event.now ∷ []) == 0) }
{
    match event {
        Event::Timer { corr, .. } => *corr == name,
        _ => false,
    }
}

// A timer of this name rang in these events.
fn has_rung(name: i64, ahead: &[Event]) -> bool
    ensures { result ≡ not (rings name ahead.now == 0) }
{
    for event in ahead.iter() {
        if is_ring(event, name) {
            return true;
        }
    }
    false
}

// Adds the event of a timer.
fn add_ring(found: &mut List<Event>, corr: i64, moment: Moment) -> Result<(), NoMemory>
    requires { moment.now ≤ 2 ^ 60 }
    ensures { OnOk result (found.new ≡ found.old ++ events.Timer moment.term corr (pos moment.now) ∷ []) }
{
    found.push(Event::Timer {
        term: moment.term,
        corr,
        stamp: moment.now as i64,
    })
}

/// Adds the events of the timers that are over and didn't ring since, by deadline and then by name.
pub fn add_rings(
    found: &mut List<Event>,
    timers: &Timers,
    ahead: &[Event],
    moment: Moment,
) -> Result<(), NoMemory>
    requires { moment.now ≤ 2 ^ 60 }
    ensures { OnOk result (found.new ≡ found.old ++ rings_of moment.term moment.now (over ahead.now moment.now timers.now)) }
{
    let due = timers.due(moment.now as i64)?;
    for timer in due.as_slice().iter() {
        if !has_rung(timer.0, ahead) {
            add_ring(found, timer.0, moment)?;
        }
    }
    Ok(())
}

// Adds the messages of a service that wait.
fn add_messages_of(
    found: &mut List<Event>,
    pending: &Pending,
    service: u8,
    moment: Moment,
) -> Result<(), NoMemory>
    requires service { service < length pending.now }
    requires offered { offered_of (offers_at service pending.now) ≤ 2 ^ 47 }
    requires now { moment.now ≤ 2 ^ 60 }
    ensures { OnOk result (found.new ≡ found.old ++ messages_of moment.term moment.now service (offers_at service pending.now).appended (offers_at service pending.now).waiting) }
{
    let mut number = pending.appended_count(service);
    for payload in pending.waiting(service).iter() {
        number += 1;
        found.push(Event::ServiceMessage {
            term: moment.term,
            service,
            number: number as i64,
            stamp: moment.now as i64,
            payload: payload.copy()?,
        })?;
    }
    Ok(())
}

/// Adds the messages that wait, by service and number.
pub fn add_messages(
    found: &mut List<Event>,
    pending: &Pending,
    moment: Moment,
) -> Result<(), NoMemory>
    requires few { length pending.now ≤ 3 }
    requires fit { AllByRecursion OffersFit pending.now }
    requires now { moment.now ≤ 2 ^ 60 }
    ensures { OnOk result (found.new ≡ found.old ++ messages_due moment.term moment.now 0 pending.now) }
{
    for service in 0..pending.len() {
        add_messages_of(found, pending, service as u8, moment)?;
    }
    Ok(())
}
