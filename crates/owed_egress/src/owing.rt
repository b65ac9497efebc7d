// What a consumed entry owes to clients.
ghost use Rattle.std.specs.Prelude.{◌≡◌, ◌+◌, ◌<◌, ◌^◌, ◌++◌, ◌∷◌, [], Some, None, length, OnOk, IfOk, option_to_list};
ghost use Rattle.sbe_events.specs.Spelling.{term_of};
ghost use Rattle.module_state.specs.Places.{stamp_of};
ghost use Rattle.module_state.specs.Outputs.{outputs_of};
ghost use Rattle.owed_egress.specs.Records.{numbered, owed_by_one, owed_outputs, sends_of, sent_of};

use cl_base::limits::PAYLOAD_LIMIT;
use cl_base::{List, NoMemory};
use commit_counter::Role;
use egress::Sent;
use module_state::{ModuleOutput, ModuleState};
use sbe_client::{Egress, encode_egress};
use sbe_events::Event;
use service_api::Output;
use std::alloc::Global;

/// An entry that is consumed, and whether what it owes is sent.
#[derive(Clone, Copy)]
pub struct Owing<'a> {
    alloc: Global,
    index: u64,
    event: &'a Event,
    sends: bool,
}

/// The term of an event.
fn term_in(event: &Event) -> i64
    ensures { result ≡ term_of event.now }
{
    match event {
        Event::Term { term, .. } => *term,
        Event::Opened { term, .. } => *term,
        Event::Message { term, .. } => *term,
        Event::ServiceMessage { term, .. } => *term,
        Event::Timer { term, .. } => *term,
        Event::Closed { term, .. } => *term,
        Event::Snapshot { term, .. } => *term,
    }
}

/// The stamp of an event, in ms.
fn stamp_in(event: &Event) -> i64
    ensures { result ≡ stamp_of event.now }
{
    match event {
        Event::Term { stamp, .. } => *stamp,
        Event::Opened { stamp, .. } => *stamp,
        Event::Message { stamp, .. } => *stamp,
        Event::ServiceMessage { stamp, .. } => *stamp,
        Event::Timer { stamp, .. } => *stamp,
        Event::Closed { stamp, .. } => *stamp,
        Event::Snapshot { stamp, .. } => *stamp,
    }
}

/// Whether a member that began a phase in this role sends what an event owes.
fn sends(role: Role, event: &Event) -> bool
    ensures { result ≡ sends_of role (term_of event.now) }
{
    match role {
        Role::Follower => false,
        Role::Leader { term } => term <= term_in(event) && term_in(event) <= term,
    }
}

/// The record of an output at the entry of an index, with its number among those of its service or of the module.
fn record_of(index: u64, service: Option<u8>, number: u64, output: ModuleOutput) -> Sent
    ensures { result ≡ record { stream = output.stream; entry = Some index; service = service; number = number; bytes = output.bytes } }
{
    let ModuleOutput { stream, bytes } = output;
    Sent {
        stream,
        entry: Some(index),
        service,
        number,
        bytes,
    }
}

impl<'a> Owing<'a> {
    /// The entry at an index with this event, at a member that began the phase in this role: it sends what is owed by
    /// entries of the term in which it was ready to lead, and nothing else.
    pub fn new(alloc: Global, index: u64, event: &'a Event, role: Role) -> Owing<'a>
        ensures index { result.index ≡ index }
        ensures event { result.event.now ≡ event.now }
        ensures sends { result.sends ≡ sends_of role (term_of event.now) }
    {
        Owing {
            alloc,
            index,
            event,
            sends: sends(role, event),
        }
    }

    /// Sends what the module owes at the entry, numbered from 0.
    pub fn send_module(
        &self,
        owed: List<ModuleOutput>,
        sent: &mut List<Sent>,
    ) -> Result<(), NoMemory>
        ensures { OnOk result (sent.new ≡ sent.old ++ sent_of self.now.sends self.now.index None owed) }
    {
        if !self.sends {
            return Ok(());
        }
        self.send_all(owed, sent)
    }

    /// Sends what the module owes at the entry, numbered from 0 on.
    #[tactic(auto, using(crate::proofs::Numbers::one_more))]
    fn send_all(&self, owed: List<ModuleOutput>, sent: &mut List<Sent>) -> Result<(), NoMemory>
        ensures { OnOk result (sent.new ≡ sent.old ++ numbered self.now.index None 0 owed) }
    {
        let before = sent.len();
        for output in owed.into_vec() {
            let number = sent.len().saturating_sub(before) as u64;
            sent.push(record_of(self.index, None, number, output))?;
        }
        Ok(())
    }

    /// What an output owes: a message to a session that is open, and within the limit.
    fn owed(&self, state: &ModuleState, output: &Output) -> Result<Option<ModuleOutput>, NoMemory>
        ensures { IfOk result (λ o. option_to_list o ≡ outputs_of (owed_by_one state.now self.now.event.now output.now)) }
    {
        let Output::Egress { session, payload } = output else {
            return Ok(None);
        };
        let Some(stream) = state.stream_of(*session) else {
            return Ok(None);
        };
        if payload.len() > PAYLOAD_LIMIT {
            return Ok(None);
        }
        let message = Egress::Message {
            term: term_in(self.event),
            session: *session,
            stamp: stamp_in(self.event),
            payload: payload.copy()?,
        };
        let bytes = encode_egress(self.alloc, &message)?;
        Ok(Some(ModuleOutput { stream, bytes }))
    }

    /// Sends what these outputs of a service owe, numbered from `number` on.
    #[tactic(auto, using(crate::proofs::Numbers::from_some, crate::proofs::Numbers::from_none))]
    fn send_from(
        &self,
        state: &ModuleState,
        service: u8,
        number: u64,
        outputs: &[(u64, Output)],
        sent: &mut List<Sent>,
    ) -> Result<(), NoMemory>
        requires { number + length outputs.now < 2 ^ 64 }
        ensures { OnOk result (sent.new ≡ sent.old ++ numbered self.now.index (Some service) number (owed_outputs state.now self.now.event.now outputs.now)) }
    {
        let Some((first, rest)) = outputs.split_first() else {
            return Ok(());
        };
        match self.owed(state, &first.1)? {
            Some(output) => {
                sent.push(record_of(self.index, Some(service), number, output))?;
                self.send_from(state, service, number + 1, rest, sent)
            }
            None => self.send_from(state, service, number, rest, sent),
        }
    }

    /// Sends what a service owes at the entry by its outputs, numbered from 0. `state` is the module after the entry's
    /// event.
    pub fn send_service(
        &self,
        state: &ModuleState,
        service: u8,
        outputs: &[(u64, Output)],
        sent: &mut List<Sent>,
    ) -> Result<(), NoMemory>
        ensures { OnOk result (sent.new ≡ sent.old ++ sent_of self.now.sends self.now.index (Some service) (owed_outputs state.now self.now.event.now outputs.now)) }
    {
        if !self.sends {
            return Ok(());
        }
        self.send_from(state, service, 0, outputs, sent)
    }
}
