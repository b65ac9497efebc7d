// The module's state: its tables and counts.
ghost use Rattle.std.specs.Prelude.{◌≡◌, ◌<◌, ◌≤◌, ◌^◌, Ok, Err, OnOk, OnErr, IfOk, length, option_map};
ghost use Rattle.std.specs.List.{AllByRecursion};
ghost use Rattle.wire_prims.specs.declared.fault.Bad.{Bad};
ghost use Rattle.wire_prims.specs.declared.fault.DecodeFault.TheVariants as faults;
ghost use Rattle.sbe_events.specs.Spelling.{HasSpelling};
ghost use Rattle.sbe_local.specs.Pieces.{HasPieceSpelling};
ghost use Rattle.module_state.specs.Due.{due};
ghost use Rattle.module_state.specs.Ranges.{IsNumber};
ghost use Rattle.module_state.specs.Recorded.{module_from_pieces};
ghost use Rattle.module_state.specs.Reading.{Ends};
ghost use Rattle.module_state.specs.Restored.{records_of, restored};
ghost use Rattle.session_manager.specs.Sessions.{session_of};
ghost use Rattle.module_state.specs.Module.{first_module, module_after, module_asked, tentative};
ghost use Rattle.module_state.specs.Owed.{owed_by_module};
ghost use Rattle.module_state.specs.Outputs.{outputs_of};

use crate::Moment;
use crate::counts::Counted;
use crate::due::{add_closes, add_messages, add_rings};
use crate::output::ModuleOutput;
use crate::owed::{closed, news, opened};
use crate::parts::{pending_ask, pending_take, sessions_ask, timers_ask, timers_take};
use crate::reading::{take_counters, take_head, take_pending, take_sessions, take_timers};
use crate::records::{add_counters, add_head, add_pending, add_sessions, add_timers};
use crate::restore::{Front, first_wrong, read_front};
use cl_base::{Bytes, List, NoMemory};
use pending_messages::Pending;
use sbe_events::Event;
use sbe_local::{Command, Piece};
use session_manager::Sessions;
use std::alloc::Global;
use std::collections::VecDeque;
use std::marker::Model;
use timer_service::Timers;
use wire_prims::DecodeFault;

/// The module after what it consumed.
#[derive(Drop)]
pub struct ModuleState {
    alloc: Global,
    sessions: Sessions,
    timers: Timers,
    pending: Pending,
    counts: Counted,
}

impl Model for ModuleState {
    ghost use Rattle.module_state.specs.Module.{Module};
    ghost use Rattle.module_state.specs.Ranges.{IsSound};

    ghost Value = { Module };

    ghost view = { λ m. record { sessions = m.sessions.table; timers = m.timers; pending = m.pending; counts = m.counts } };

    ghost invariant = { λ m. IsSound (record { sessions = m.sessions.table; timers = m.timers; pending = m.pending; counts = m.counts }) };
}

impl ModuleState {
    /// The module of the empty log.
    pub fn fresh(alloc: Global, services: u8) -> Result<ModuleState, NoMemory>
        requires { services ≤ 3 }
        ensures { IfOk result (λ m. m ≡ first_module services) }
    {
        let pending = Pending::new(alloc, services)?;
        Ok(ModuleState {
            alloc,
            sessions: Sessions::new(alloc),
            timers: Timers::new(alloc),
            pending,
            counts: Counted::new(),
        })
    }

    pub fn sessions(&self) -> &Sessions
        ensures { result.now.table ≡ self.now.sessions }
    {
        &self.sessions
    }

    /// How many snapshot actions there were.
    pub fn actions(&self) -> u64
        ensures { result ≡ self.now.counts.actions }
    {
        self.counts.actions()
    }

    /// How many entries there were.
    pub fn entries(&self) -> u64
        ensures { result ≡ self.now.counts.entries }
    {
        self.counts.entries()
    }

    /// How many services the member has.
    pub fn services(&self) -> usize
        ensures { result ≡ length self.now.pending }
    {
        self.pending.len()
    }

    /// The leader that the last new term event names, -1 where there was none.
    pub fn leader(&self) -> i32
        ensures { result ≡ self.now.counts.leader }
    {
        self.counts.leader()
    }

    /// The stream on which the client of an open session listens.
    pub fn stream_of(&self, session: i64) -> Option<i32>
        ensures { result ≡ option_map (λ s. s.stream) (session_of self.now.sessions session) }
    {
        match self.sessions.find(session) {
            Some(session) => Some(session.stream),
            None => None,
        }
    }

    /// A second state that is equal to this one.
    pub fn copy(&self) -> Result<ModuleState, NoMemory>
        ensures { IfOk result (λ m. m ≡ self.now) }
    {
        let sessions = self.sessions.copy()?;
        let timers = self.timers.copy()?;
        let pending = self.pending.copy()?;
        Ok(ModuleState {
            alloc: self.alloc,
            sessions,
            timers,
            pending,
            counts: self.counts,
        })
    }

    /// The tentative state: a copy of this one that takes the events ahead of it, without their commands. It costs the
    /// tables and these events; one more event is taken by `advance`.
    pub fn tentative(&self, ahead: &[Event]) -> Result<ModuleState, NoMemory>
        requires { AllByRecursion HasSpelling ahead.now }
        ensures { IfOk result (λ m. m ≡ tentative self.now ahead.now) }
    {
        let mut state = self.copy()?;
        for event in ahead.iter() {
            state.advance(event)?;
        }
        Ok(state)
    }

    /// The entries that are due, in order: closes by rising id, timers by deadline and name, messages of services by
    /// service and number. This is the consumed state, `ahead` are the events of the log past it, `tentative` is the state
    /// with them, and `alive` has the last keep-alive (ms) of each session that had one.
    pub fn due(
        &self,
        tentative: &ModuleState,
        ahead: &[Event],
        alive: &[(i64, u64)],
        moment: Moment,
    ) -> Result<List<Event>, NoMemory>
        requires { moment.now ≤ 2 ^ 60 }
        ensures value { IfOk result (λ l. l ≡ due self.now tentative.now ahead.now alive.now moment.term moment.now moment.since) }
        ensures spelled { IsNumber moment.term → IfOk result (λ l. AllByRecursion HasSpelling l) }
    {
        let mut found = List::new(self.alloc);
        add_closes(
            &mut found,
            &self.sessions,
            &tentative.sessions,
            alive,
            moment,
        )?;
        add_rings(&mut found, &self.timers, ahead, moment)?;
        add_messages(&mut found, &tentative.pending, moment)?;
        Ok(found)
    }

    /// The pieces of a snapshot of this state, between its markers.
    pub fn records(&self) -> Result<List<Bytes>, NoMemory>
        ensures { IfOk result (λ l. l ≡ records_of self.now) }
    {
        let mut found = List::new(self.alloc);
        add_head(
            self.alloc,
            &mut found,
            self.sessions.next_id(),
            &self.counts,
        )?;
        add_counters(self.alloc, &mut found, &self.pending)?;
        add_pending(self.alloc, &mut found, &self.pending)?;
        add_sessions(self.alloc, &mut found, &self.sessions)?;
        add_timers(self.alloc, &mut found, &self.timers)?;
        Ok(found)
    }

    /// The state of a snapshot's pieces, those between its markers, at a member with so many services. Bad exactly where
    /// they aren't the pieces of one, at the first that is wrong: places count the pieces before, each with its length of
    /// four bytes.
    pub fn from_records(
        alloc: Global,
        services: u8,
        records: &[Bytes],
    ) -> Result<ModuleState, DecodeFault>
        requires { services ≤ 3 }
        ensures ok { IfOk result (λ m. restored services records.now ≡ Ok m) }
        ensures bad { (b : Bad) → result ≡ Err (faults.Bad b) → restored services records.now ≡ Err b }
    {
        let Front { mut pieces, fault } = read_front(alloc, records)?;
        let known = pieces.len();
        match ModuleState::of_pieces(alloc, services, &mut pieces)? {
            Some(state) if fault.is_none() => Ok(state),
            _ => Err(DecodeFault::Bad(first_wrong(records, known, pieces.len(), fault))),
        }
    }

    // The state of pieces, all of which are taken. None where one mustn't come, which is then in front, or is missing.
    fn of_pieces(
        alloc: Global,
        services: u8,
        pieces: &mut VecDeque<Piece>,
    ) -> Result<Option<ModuleState>, NoMemory>
        requires few { services ≤ 3 }
        requires spelled { AllByRecursion HasPieceSpelling pieces.old.items }
        ensures { IfOk result (λ state. Ends state pieces.new.items (module_from_pieces services pieces.old.items)) }
    {
        let Some(head) = take_head(pieces) else {
            return Ok(None);
        };
        let Some(counts) = take_counters(alloc, services, pieces)? else {
            return Ok(None);
        };
        let Some(pending) = take_pending(alloc, pieces, counts.as_slice())? else {
            return Ok(None);
        };
        let sessions = take_sessions(alloc, pieces, head.next_id)?;
        let timers = take_timers(alloc, pieces)?;
        if !pieces.is_empty() {
            return Ok(None);
        }
        Ok(Some(ModuleState {
            alloc,
            sessions,
            timers,
            pending,
            counts: head.counts,
        }))
    }

    // What the module owes to clients at an event that it is about to take.
    fn owed(&self, e: &Event) -> Result<List<ModuleOutput>, NoMemory>
        ensures { IfOk result (λ l. l ≡ outputs_of (owed_by_module self.now e.now)) }
    {
        match e {
            Event::Term { term, leader, .. } => news(self.alloc, &self.sessions, *term, *leader),
            Event::Opened {
                term,
                corr,
                session,
                stream,
                ..
            } => opened(
                self.alloc,
                *stream,
                *session,
                *corr,
                *term,
                self.counts.leader(),
            ),
            Event::Closed { term, session, .. } => {
                closed(
                    self.alloc,
                    self.sessions.find(*session),
                    *term,
                    self.counts.leader(),
                )
            }
            _ => Ok(List::new(self.alloc)),
        }
    }

    /// Takes an event, and gives what it owes to clients. Where there is no memory nothing changes.
    pub fn apply(&mut self, e: &Event) -> Result<List<ModuleOutput>, NoMemory>
        requires { HasSpelling e.now }
        ensures state { OnOk result (self.new ≡ module_after self.old e.now) }
        ensures owed { IfOk result (λ l. l ≡ outputs_of (owed_by_module self.old e.now)) }
        ensures err { OnErr result (self.new ≡ self.old) }
    {
        let owed = self.owed(e)?;
        self.advance(e)?;
        Ok(owed)
    }

    /// Takes an event whose outputs nobody is sent, as a tentative state does. Where there is no memory nothing changes.
    pub fn advance(&mut self, e: &Event) -> Result<(), NoMemory>
        requires { HasSpelling e.now }
        ensures ok { OnOk result (self.new ≡ module_after self.old e.now) }
        ensures err { OnErr result (self.new ≡ self.old) }
    {
        self.sessions.apply(e)?;
        timers_take(&mut self.timers, e);
        pending_take(&mut self.pending, e);
        self.counts.take(e);
        Ok(())
    }

    /// What a command of a service makes of the state. An offer of a service that isn't there makes nothing.
    pub fn on_command(&mut self, service: u8, c: &Command) -> Result<(), NoMemory>
        ensures { OnOk result (self.new ≡ module_asked self.old service c.now) }
    {
        timers_ask(&mut self.timers, service, c)?;
        pending_ask(&mut self.pending, service, c)?;
        sessions_ask(&mut self.sessions, service, c);
        Ok(())
    }
}
