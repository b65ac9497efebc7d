// What entries owe to clients is put behind what was sent.
ghost use Rattle.std.specs.Prelude.{◌≡◌, ◌++◌, ◌∷◌, [], ◌+◌, ◌<◌, ◌^◌, pos, ◌+ℤ◌, ◌<ℤ◌, ◌≤ℤ◌, OnOk, IfOk, All, fold, length};
ghost use Rattle.sbe_events.specs.Spelling.{HasSpelling, term_of, stamp_of};
ghost use Rattle.echo_run.specs.Module.{module_after};
ghost use Rattle.echo_run.specs.World.{is_ready, leads_in, sent_at, sent_from};
ghost use Rattle.echo_run.specs.Owed.{new_leader_to, closed_to, owed_by_module, given_to, owed_outputs, owed_by_echo, owed};

use crate::{Module, Origin, Sent, Session};
use cl_base::limits::PAYLOAD_LIMIT;
use cl_base::{Bytes, List, NoMemory};
use election::{Election, State};
use sbe_client::Egress;
use sbe_events::Event;
use service_api::{Echo, Output, Service};
use std::alloc::Global;

fn put_new_leader(
    sessions: &[Session],
    entry: u64,
    term: i64,
    leader: i32,
    sent: &mut List<Sent>,
) -> Result<(), NoMemory>
    ensures { OnOk result (sent.new ≡ sent.old ++ new_leader_to entry 0 term leader sessions.now) }
{
    for (i, s) in sessions.iter().enumerate() {
        let number = i as u64;
        sent.push(Sent {
            stream: s.stream,
            origin: Origin::Module { entry, number },
            egress: Egress::NewLeader {
                term,
                session: s.id,
                leader,
            },
        })?;
    }
    Ok(())
}

fn put_session(
    stream: i32,
    entry: u64,
    egress: Egress,
    sent: &mut List<Sent>,
) -> Result<(), NoMemory>
    ensures { OnOk result (sent.new ≡ sent.old ++ record { stream = stream; origin = Origin.Module entry 0; egress = egress } ∷ []) }
{
    sent.push(Sent {
        stream,
        origin: Origin::Module { entry, number: 0 },
        egress,
    })
}

fn put_closed(
    found: Option<Session>,
    entry: u64,
    term: i64,
    leader: i32,
    sent: &mut List<Sent>,
) -> Result<(), NoMemory>
    ensures { OnOk result (sent.new ≡ sent.old ++ closed_to entry term leader found) }
{
    match found {
        Some(s) => put_session(
            s.stream,
            entry,
            Egress::SessionEvent {
                session: s.id,
                corr: s.corr,
                term,
                leader,
                code: 4,
            },
            sent,
        ),
        None => Ok(()),
    }
}

/// What the module owes at an entry, before which it is this.
fn put_module_owed(
    tables: &Module,
    entry: u64,
    event: &Event,
    sent: &mut List<Sent>,
) -> Result<(), NoMemory>
    ensures { OnOk result (sent.new ≡ sent.old ++ owed_by_module tables.now entry event.now) }
{
    match event {
        Event::Term { term, leader, .. } => {
            put_new_leader(tables.sessions.as_slice(), entry, *term, *leader, sent)
        }
        Event::Opened {
            term,
            corr,
            session,
            stream,
            ..
        } => put_session(
            *stream,
            entry,
            Egress::SessionEvent {
                session: *session,
                corr: *corr,
                term: *term,
                leader: tables.leader,
                code: 0,
            },
            sent,
        ),
        Event::Closed { term, session, .. } => {
            put_closed(tables.session(*session), entry, *term, tables.leader, sent)
        }
        _ => Ok(()),
    }
}

/// A service's message, where its session is open and it isn't too long. Answers how many are owed.
fn put_given(
    found: Option<Session>,
    origin: Origin,
    term: i64,
    stamp: i64,
    session: i64,
    payload: &Bytes,
    sent: &mut List<Sent>,
) -> Result<u64, NoMemory>
    ensures sent { OnOk result (sent.new ≡ sent.old ++ given_to origin term stamp session payload.now found) }
    ensures count { IfOk result (λ n. n ≡ length (given_to origin term stamp session payload.now found)) }
{
    match found {
        Some(s) => {
            if payload.len() > PAYLOAD_LIMIT {
                return Ok(0);
            }
            let payload = payload.copy()?;
            sent.push(Sent {
                stream: s.stream,
                origin,
                egress: Egress::Message {
                    term,
                    session,
                    stamp,
                    payload,
                },
            })?;
            Ok(1)
        }
        None => Ok(0),
    }
}

/// An entry of the log, as its outputs name it.
#[derive(Clone, Copy)]
pub(crate) struct Head {
    pub entry: u64,
    pub term: i64,
    pub stamp: i64,
}

/// What a service owes by its outputs at an entry, after which the module is this.
fn put_outputs(
    tables: &Module,
    head: Head,
    service: u8,
    outputs: &[Output],
    sent: &mut List<Sent>,
) -> Result<(), NoMemory>
    ensures { OnOk result (sent.new ≡ sent.old ++ owed_outputs tables.now head.entry service head.term head.stamp 0 outputs.now) }
{
    let mut number = 0;
    for output in outputs {
        if let Output::Egress { session, payload } = output {
            let origin = Origin::Service {
                entry: head.entry,
                service,
                number,
            };
            let found = tables.session(*session);
            let owed = put_given(
                found, origin, head.term, head.stamp, *session, payload, sent,
            )?;
            number += owed;
        }
    }
    Ok(())
}

fn head_of(entry: u64, event: &Event) -> Head
    ensures { result ≡ record { entry = entry; term = term_of event.now; stamp = stamp_of event.now } }
{
    let (term, stamp) = match event {
        Event::Term { term, stamp, .. }
        | Event::Opened { term, stamp, .. }
        | Event::Message { term, stamp, .. }
        | Event::ServiceMessage { term, stamp, .. }
        | Event::Timer { term, stamp, .. }
        | Event::Closed { term, stamp, .. }
        | Event::Snapshot { term, stamp, .. } => (*term, *stamp),
    };
    Head { entry, term, stamp }
}

/// The service takes an entry, the module applies it, and where the member leads in its term what it owes is sent.
pub(crate) fn take_entry(
    alloc: Global,
    election: &Election,
    echo: &mut Echo,
    tables: &mut Module,
    entry: u64,
    event: &Event,
    sent: &mut List<Sent>,
) -> Result<(), NoMemory>
    requires spelled { HasSpelling event.now }
    requires numbered { tables.old.next_id <ℤ pos (2 ^ 62) }
    ensures tables { OnOk result (tables.new ≡ module_after tables.old event.now) }
    ensures sent { OnOk result (sent.new ≡ sent.old ++ sent_at election.now tables.old entry event.now) }
{
    let head = head_of(entry, event);
    let leads = leads_in(election, head.term);
    if leads {
        put_module_owed(tables, entry, event, sent)?;
    }
    tables.apply(alloc, event)?;
    let mut outputs = List::new(alloc);
    echo.apply(entry, event, &mut outputs)?;
    if leads {
        put_outputs(tables, head, 0, outputs.as_slice(), sent)?;
    }
    Ok(())
}

pub(crate) fn is_ready(state: State) -> bool
    ensures { result ≡ is_ready state }
{
    matches!(state, State::LeaderReady)
}

pub(crate) fn leads_in(election: &Election, term: i64) -> bool
    ensures { result ≡ leads_in election.now term }
{
    is_ready(election.state) && election.term == term
}

/// The service takes entries one after the other, of which the first is this one.
pub(crate) fn take_entries(
    alloc: Global,
    election: &Election,
    echo: &mut Echo,
    tables: &mut Module,
    first: u64,
    entries: &[Event],
    sent: &mut List<Sent>,
) -> Result<(), NoMemory>
    requires count { first + length entries.now < 2 ^ 64 }
    requires spelled { All HasSpelling entries.now }
    requires numbered { (tables.old.next_id +ℤ pos (length entries.now)) ≤ℤ pos (2 ^ 62) }
    ensures tables { OnOk result (tables.new ≡ fold module_after tables.old entries.now) }
    ensures sent { OnOk result (sent.new ≡ sent.old ++ sent_from election.now tables.old first entries.now) }
{
    for (i, event) in entries.iter().enumerate() {
        take_entry(alloc, election, echo, tables, first + i as u64, event, sent)?;
    }
    Ok(())
}
