// One member.
ghost use Rattle.std.specs.Prelude.{◌≡◌, ◌≤◌, ◌<◌, ◌^◌, true, All, length, IfOk, OnOk, Option, Some, None};
ghost use Rattle.entry_log.specs.Durable.{fresh};
ghost use Rattle.entry_log.specs.Shape.{shape_of};
ghost use Rattle.sbe_consensus.specs.Spelling.{HasSpelling};
ghost use Rattle.sbe_events.specs.Spelling.{HasSpelling as IsEvent};
ghost use Rattle.consensus_core.specs.Fit.{IsTerm};
ghost use Rattle.consensus_core.specs.Member.{after, changed_log, is_ready, row_of_client, row_of_duty, row_of_packet, sent_by, starts, stopped};
ghost use Rattle.world.specs.World.{raises_by};
ghost use Rattle.world_steps.specs.Fit.{LogFits, Runs, Speaks};
ghost use Rattle.world_steps.specs.Members.{change_of_client, cut_of, held_term, reign_term, reigns_from, row_run};
ghost use Rattle.world_steps.specs.Steps.{listed};

use crate::cut::Cut;
use crate::due::entry_of;
use crate::kept::Kept;
use crate::ran::{Done, Ran};
use crate::speech::finish;
use cl_base::{List, NoMemory};
use consensus_core::{Change, Core, State};
use entry_log::LogIndex;
use sbe_consensus::Packet;
use sbe_events::Event;
use std::alloc::Global;
use std::marker::Model;

/// One member: its part in the agreement while it runs, and what its disk keeps.
#[derive(Drop)]
pub struct Member {
    core: Option<Core>,
    kept: Kept,
}

impl Model for Member {
    ghost use Rattle.consensus_core.specs.Member.{Member as Whole};
    ghost use Rattle.world_steps.specs.Members.{member_of};

    ghost Value = { Whole };

    ghost view = { λ m. member_of m.core m.kept };
}

impl Member {
    /// A stopped member on a formatted disk.
    pub fn fresh(alloc: Global) -> Member
        ensures { result ≡ stopped fresh }
    {
        Member {
            core: None,
            kept: Kept::fresh(alloc),
        }
    }

    /// Whether it runs.
    pub fn is_up(&self) -> bool
        ensures { result ≡ self.now.up }
    {
        self.core.is_some()
    }

    /// Where it stands in the agreement, CLOSED where it doesn't run.
    pub fn state(&self) -> State
        ensures { result ≡ self.now.values.election.state }
    {
        match &self.core {
            Some(core) => core.state(),
            None => State::Closed,
        }
    }

    /// The leadership term that it is in, -1 for none.
    pub fn term(&self) -> i64
        ensures { result ≡ self.now.values.election.term }
    {
        match &self.core {
            Some(core) => core.term(),
            None => -1,
        }
    }

    /// How many entries are committed, 0 where it doesn't run.
    pub fn commit(&self) -> u64
        ensures { result ≡ self.now.values.rest.commit }
    {
        match &self.core {
            Some(core) => core.commit(),
            None => 0,
        }
    }

    /// Where its memory comes from.
    fn alloc(&self) -> Global {
        self.kept.alloc()
    }

    /// What its disk keeps.
    pub fn kept(&self) -> &Kept
        ensures { result.now ≡ self.now.durable }
    {
        &self.kept
    }

    /// Whether it leads, and its term's first entry is in its log.
    pub fn is_ready(&self) -> bool
        ensures { result ≡ is_ready self.now.values.election.state }
    {
        matches!(self.state(), State::LeaderReady)
    }

    /// The term in which it reigns.
    pub fn reign_term(&self) -> Option<i64>
        ensures { result ≡ reign_term self.now }
    {
        match self.state() {
            State::LeaderInit | State::LeaderReady => Some(self.term()),
            _ => None,
        }
    }

    /// The term in which it holds its log: it reigns in it, or follows.
    pub fn held_term(&self) -> Option<i64>
        ensures { result ≡ held_term self.now }
    {
        match self.state() {
            State::LeaderInit | State::LeaderReady | State::FollowerReady => Some(self.term()),
            _ => None,
        }
    }

    /// It starts, as this one of so many members, with so many services. No snapshot is on its disk.
    pub fn start(&mut self, number: u8, members: u8, services: u8)
        requires members { members ≤ 5 }
        requires number { number < members }
        requires candidate { IsTerm self.old.durable.candidate }
        ensures { self.new ≡ starts number members services self.old.durable }
    {
        self.core = Some(self.kept.begin(number, members, services));
    }

    /// It stops.
    pub fn stop(&mut self)
        ensures { self.new ≡ stopped self.old.durable }
    {
        self.core = None;
    }

    /// The index of its log.
    fn index(&self) -> Result<LogIndex, NoMemory>
        requires { LogFits self.now.durable.log }
        ensures { IfOk result (λ x. x ≡ shape_of self.now.durable.log) }
    {
        self.kept.index()
    }

    /// The part in the agreement of a running member, which is taken out of it.
    fn taken(&mut self) -> Core
        requires { self.old.up ≡ true }
        ensures values { result.values ≡ self.old.values }
        ensures member { self.new ≡ stopped self.old.durable }
    {
        match self.core.take() {
            Some(core) => core,
            None => unreachable!(),
        }
    }

    /// A row that its part in the agreement just ran goes on.
    fn settle(&mut self, number: u8, ran: Ran, cut: Cut) -> Result<Done, NoMemory>
        requires { cut ≡ Cut.Whole → Speaks ran.core.values ran.core.plan (changed_log ran.change self.old.durable.log) }
        ensures member { OnOk result (self.new ≡ after (row_run ran.core ran.change) (cut_of cut) (stopped self.old.durable)) }
        ensures raises { IfOk result (λ d. listed d.raise ≡ raises_by number self.old.durable.log ran.change (cut_of cut)) }
        ensures sent { IfOk result (λ d. d.sent ≡ sent_by (row_run ran.core ran.change) (cut_of cut) (stopped self.old.durable)) }
        ensures reigns { IfOk result (λ d. listed d.reign ≡ reigns_from number ran.was (row_run ran.core ran.change) self.old.durable.log (cut_of cut)) }
    {
        let raise = ran.raise(number, cut, &self.kept)?;
        let reign = ran.reign(number, cut, &self.kept)?;
        let Ran { core, change, .. } = ran;
        let (core, sent) = finish(core, &mut self.kept, change, cut)?;
        self.core = core;
        Ok(Done { raise, sent, reign })
    }

    /// A running member takes a packet at this moment (ms).
    pub fn takes(
        &mut self,
        number: u8,
        packet: &Packet,
        now: u64,
        cut: Cut,
    ) -> Result<Done, NoMemory>
        requires up { self.old.up ≡ true }
        requires now { now ≤ 2 ^ 60 }
        requires spelled { HasSpelling packet.now }
        requires before { Runs self.old.values self.old.durable.log }
        requires after { cut ≡ Cut.Whole → Speaks (row_of_packet self.old packet.now now).values (row_of_packet self.old packet.now now).plan (changed_log (row_of_packet self.old packet.now now).change self.old.durable.log) }
        ensures member { OnOk result (self.new ≡ after (row_of_packet self.old packet.now now) (cut_of cut) (stopped self.old.durable)) }
        ensures raises { IfOk result (λ d. listed d.raise ≡ raises_by number self.old.durable.log (row_of_packet self.old packet.now now).change (cut_of cut)) }
        ensures sent { IfOk result (λ d. d.sent ≡ sent_by (row_of_packet self.old packet.now now) (cut_of cut) (stopped self.old.durable)) }
        ensures reigns { IfOk result (λ d. listed d.reign ≡ reigns_from number self.old.values.election.state (row_of_packet self.old packet.now now) self.old.durable.log (cut_of cut)) }
    {
        let index = self.index()?;
        let mut core = self.taken();
        let was = core.state();
        let change = core.on_packet(&index, packet, now)?;
        let done = self.settle(number, Ran { was, core, change }, cut)?;
        Ok(done)
    }

    /// A running member has its duty at this moment (ms), with these events being due.
    pub fn has_duty(
        &mut self,
        number: u8,
        due: &[Event],
        now: u64,
        cut: Cut,
    ) -> Result<Done, NoMemory>
        requires up { self.old.up ≡ true }
        requires now { now ≤ 2 ^ 60 }
        requires spelled { All IsEvent due.now }
        requires before { Runs self.old.values self.old.durable.log }
        requires after { cut ≡ Cut.Whole → Speaks (row_of_duty self.old due.now now).values (row_of_duty self.old due.now now).plan (changed_log (row_of_duty self.old due.now now).change self.old.durable.log) }
        ensures member { OnOk result (self.new ≡ after (row_of_duty self.old due.now now) (cut_of cut) (stopped self.old.durable)) }
        ensures raises { IfOk result (λ d. listed d.raise ≡ raises_by number self.old.durable.log (row_of_duty self.old due.now now).change (cut_of cut)) }
        ensures sent { IfOk result (λ d. d.sent ≡ sent_by (row_of_duty self.old due.now now) (cut_of cut) (stopped self.old.durable)) }
        ensures reigns { IfOk result (λ d. listed d.reign ≡ reigns_from number self.old.values.election.state (row_of_duty self.old due.now now) self.old.durable.log (cut_of cut)) }
    {
        let index = self.index()?;
        let mut core = self.taken();
        let was = core.state();
        let change = core.on_duty(&index, due, now)?;
        let done = self.settle(number, Ran { was, core, change }, cut)?;
        Ok(done)
    }

    /// A running member appends a client's event, or an operator's, where it leads.
    pub fn appends(&mut self, number: u8, event: &Event, cut: Cut) -> Result<Done, NoMemory>
        requires up { self.old.up ≡ true }
        requires spelled { IsEvent event.now }
        requires before { Runs self.old.values self.old.durable.log }
        requires after { cut ≡ Cut.Whole → Speaks (row_of_client self.old event.now).values (row_of_client self.old event.now).plan (changed_log (row_of_client self.old event.now).change self.old.durable.log) }
        ensures member { OnOk result (self.new ≡ after (row_of_client self.old event.now) (cut_of cut) (stopped self.old.durable)) }
        ensures raises { IfOk result (λ d. listed d.raise ≡ raises_by number self.old.durable.log (row_of_client self.old event.now).change (cut_of cut)) }
        ensures sent { IfOk result (λ d. d.sent ≡ sent_by (row_of_client self.old event.now) (cut_of cut) (stopped self.old.durable)) }
        ensures reigns { IfOk result (λ d. listed d.reign ≡ reigns_from number self.old.values.election.state (row_of_client self.old event.now) self.old.durable.log (cut_of cut)) }
    {
        let index = self.index()?;
        let mut core = self.taken();
        let was = core.state();
        let change = change_of_client(self.alloc(), was, event)?;
        core.on_append(&index);
        let done = self.settle(number, Ran { was, core, change }, cut)?;
        Ok(done)
    }
}

/// What a client's event, or an operator's, changes at a member in this state.
fn change_of_client(alloc: Global, state: State, event: &Event) -> Result<Change, NoMemory>
    requires { IsEvent event.now }
    ensures { IfOk result (λ c. c ≡ change_of_client state event.now) }
{
    if !matches!(state, State::LeaderReady) {
        return Ok(Change::Nothing);
    }
    let mut entries = List::new(alloc);
    entries.push(entry_of(alloc, event)?)?;
    Ok(Change::Append(entries))
}
