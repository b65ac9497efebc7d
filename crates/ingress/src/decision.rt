// From a client's bytes, or an operator's action, to what is done.
ghost use Rattle.std.specs.Prelude.{◌≡◌, ℕ, ◌≤◌, ◌^◌, ◌++◌, Some, IfOk, length};
ghost use Rattle.wire_prims.specs.declared.fault.Bad.{Bad};
ghost use Rattle.sbe_client.specs.Reading.{ReadsIngress, first_fault_ingress};
ghost use Rattle.sbe_client.specs.declared.ingress.Ingress.{Ingress};
ghost use Rattle.sbe_events.specs.Spelling.{spelling_of};
ghost use Rattle.ingress.specs.Outcomes.{first_row, leading_rows, naming_rows};
ghost use Rattle.ingress.specs.Decisions.{IsSeen, IdsAreNamed, IsSpelled, Admits, unless, decided, decided_action, admitted};

use crate::view::{action_refusal, size_refusal};
use crate::{Outcome, View};
use cl_base::limits::{CHANNEL_LIMIT, PAYLOAD_LIMIT};
use cl_base::{Bytes, NoMemory};
use entry_log::end_after;
use sbe_client::{Ingress, decode_ingress};
use sbe_events::Event;
use std::alloc::Global;
use wire_prims::DecodeFault;

/// What is done.
#[derive(Debug, Drop)]
pub enum Decided {
    /// Nothing, and why.
    Refuse(Outcome),
    /// This session was heard of.
    Alive(i64),
    /// This event is appended.
    Append(Event),
}

/// An event of so many bytes is appended where it has room.
fn admit(view: &View, event: Event, event_len: u64) -> Decided
    requires place { view.now.place ≤ 2 ^ 62 }
    requires short { event_len ≤ 32768 }
    requires length { event_len ≡ length (spelling_of event) }
    ensures { result ≡ admitted view.now event }
{
    match view.room_refusal(end_after(view.place, event_len)) {
        Some(outcome) => Decided::Refuse(outcome),
        None => Decided::Append(event),
    }
}

/// A connect opens a session.
fn connect(view: &View, corr: i64, stream: i32, channel: Bytes, now: u64) -> Decided
    requires place { view.now.place ≤ 2 ^ 62 }
    requires now { now ≤ 2 ^ 60 }
    ensures { result ≡ decided view.now now (Ingress.Connect corr stream channel) }
{
    if let Some(outcome) = view.leading_refusal() {
        return Decided::Refuse(outcome);
    }
    if let Some(outcome) = size_refusal(channel.len(), CHANNEL_LIMIT) {
        return Decided::Refuse(outcome);
    }
    if let Some(outcome) = view.open_refusal() {
        return Decided::Refuse(outcome);
    }
    let event_len = 48 + channel.len() as u64;
    let event = Event::Opened {
        term: view.term,
        corr,
        session: view.sessions.next_id(),
        stamp: now as i64,
        stream,
        channel,
    };
    admit(view, event, event_len)
}

/// A message of a session is for the services.
fn message(view: &View, term: i64, session: i64, payload: Bytes, now: u64) -> Decided
    requires place { view.now.place ≤ 2 ^ 62 }
    requires now { now ≤ 2 ^ 60 }
    ensures { result ≡ decided view.now now (Ingress.Message term session payload) }
{
    if let Some(outcome) = named(view, term, session) {
        return Decided::Refuse(outcome);
    }
    if let Some(outcome) = size_refusal(payload.len(), PAYLOAD_LIMIT) {
        return Decided::Refuse(outcome);
    }
    let event_len = 32 + payload.len() as u64;
    let event = Event::Message {
        term: view.term,
        session,
        stamp: now as i64,
        payload,
    };
    admit(view, event, event_len)
}

/// Why nothing is done of what names a term and a session.
fn named(view: &View, term: i64, session: i64) -> Option<Outcome>
    ensures { result ≡ first_row (leading_rows view.now ++ naming_rows view.now term session) }
{
    if let Some(outcome) = view.leading_refusal() {
        return Some(outcome);
    }
    view.naming_refusal(term, session)
}

/// A client ends its session.
fn close(view: &View, term: i64, session: i64, now: u64) -> Decided
    requires place { view.now.place ≤ 2 ^ 62 }
    requires now { now ≤ 2 ^ 60 }
    ensures { result ≡ decided view.now now (Ingress.Close term session) }
{
    if let Some(outcome) = named(view, term, session) {
        return Decided::Refuse(outcome);
    }
    let event = Event::Closed {
        term: view.term,
        session,
        stamp: now as i64,
        reason: 0,
    };
    admit(view, event, 36)
}

/// A client keeps its session.
fn keep_alive(view: &View, term: i64, session: i64) -> Decided
    ensures { result ≡ unless (first_row (leading_rows view.now ++ naming_rows view.now term session)) (Decided.Alive session) }
{
    match named(view, term, session) {
        Some(outcome) => Decided::Refuse(outcome),
        None => Decided::Alive(session),
    }
}

/// What is done with a message of a client.
fn decide_message(view: &View, message_of_client: Ingress, now: u64) -> Decided
    requires place { view.now.place ≤ 2 ^ 62 }
    requires now { now ≤ 2 ^ 60 }
    ensures { result ≡ decided view.now now message_of_client }
{
    match message_of_client {
        Ingress::Connect {
            corr,
            stream,
            channel,
        } => connect(view, corr, stream, channel, now),
        Ingress::Message {
            term,
            session,
            payload,
        } => message(view, term, session, payload, now),
        Ingress::Close { term, session } => close(view, term, session, now),
        Ingress::KeepAlive { term, session } => keep_alive(view, term, session),
    }
}

/// What a member does with a client's bytes at `now` (ms, at most 2^60): exactly what the first row of the table of
/// outcomes says. The place of the commit is at most the place, which is at most 2^62 (bytes).
pub fn decide(alloc: Global, view: &View, bytes: &[u8], now: u64) -> Result<Decided, NoMemory>
    requires view { IsSeen view.now }
    requires now { now ≤ 2 ^ 60 }
    ensures bad { (bad : Bad) → first_fault_ingress bytes.now ≡ Some bad → IfOk result (λ d. d ≡ Decided.Refuse (Outcome.Bad bad)) }
    ensures decided { (m : Ingress) → ReadsIngress bytes.now m → IfOk result (λ d. d ≡ decided view.now now m) }
    ensures spelled { IdsAreNamed view.now.sessions.now.table → IfOk result IsSpelled }
    ensures admits { (actions : ℕ) → IfOk result (λ d. Admits view.now actions now d) }
{
    match decode_ingress(alloc, bytes) {
        Ok(sent) => Ok(decide_message(view, sent, now)),
        Err(DecodeFault::Bad(bad)) => Ok(Decided::Refuse(Outcome::Bad(bad))),
        Err(DecodeFault::NoMemory) => Err(NoMemory),
    }
}

/// A snapshot action names the log's place.
fn action(view: &View, actions: u64, now: u64) -> Decided
    requires place { view.now.place ≤ 2 ^ 62 }
    requires now { now ≤ 2 ^ 60 }
    ensures { result ≡ decided_action view.now actions now }
{
    if let Some(outcome) = view.leading_refusal() {
        return Decided::Refuse(outcome);
    }
    if let Some(outcome) = action_refusal(actions) {
        return Decided::Refuse(outcome);
    }
    let event = Event::Snapshot {
        term: view.term,
        position: view.place as i64,
        stamp: now as i64,
    };
    admit(view, event, 36)
}

/// What a member does with a snapshot action at `now` (ms, at most 2^60), with so many snapshot actions in its log.
pub fn decide_action(view: &View, actions: u64, now: u64) -> Decided
    requires view { IsSeen view.now }
    requires now { now ≤ 2 ^ 60 }
    ensures decided { result ≡ decided_action view.now actions now }
    ensures spelled { IsSpelled result }
    ensures admits { Admits view.now actions now result }
{
    action(view, actions, now)
}
