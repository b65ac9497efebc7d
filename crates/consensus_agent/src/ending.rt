// What a member does at a phase's end.
ghost use Rattle.std.specs.Prelude.{◌≡◌, ◌+◌, ◌-◌, ◌<◌, ◌^◌, ◌++◌, false, Some, IsTrue, IfOk, OnErr, OnOk, slice_get, take, drop, map};
ghost use Rattle.sbe_events.specs.declared.event.Event.{Event as EventOf};
ghost use Rattle.sbe_events.specs.Spelling.{term_of};
ghost use Rattle.module_state.specs.Module.{module_part};
ghost use Rattle.module_state.specs.Part.{after_asks};
ghost use Rattle.module_state.specs.Services.{asks_among};
ghost use Rattle.owed_egress.specs.Records.{output_in, sends_of, sent_of};
ghost use Rattle.owed_egress.specs.Taken.{asks_at, module_over, module_with, sent_by_services, sent_over, sent_with};
ghost use Rattle.entry_log.specs.Shape.{shape_of};
ghost use Rattle.consensus_agent.specs.Rows.{IsKept};
ghost use Rattle.consensus_agent.specs.Written.{AreWritten, StoppedAmong, action_with, phase_snapshots};
ghost use Rattle.consensus_agent.specs.Consumed.{HasConsumed, HaveRising, IsTaking, asked_by, outboxes};

use crate::agent::Agent;
use crate::fault::AgentFault;
use crate::guard::is_number;
use crate::snapshots::{Action, put_all};
use cl_base::{Disk, List, NoMemory};
use egress::Sent;
use member_module::MemberModule;
use module_state::ModuleOutput;
use owed_egress::{Owing, outputs_at};
use sbe_events::Event;
use service_api::Output;
use service_container::Container;

/// The module takes an output of a service: what it asks, if it asks something.
#[tactic(auto, using(crate::proofs::Consuming::applied, crate::proofs::Consuming::unchanged))]
fn ask_one(module: &mut MemberModule, service: u8, output: &Output) -> Result<(), NoMemory>
    ensures stays { OnOk result (IsTaking module.old module.new) }
    ensures state { OnOk result (module.new.state ≡ asked_by module.old.state service output.now) }
{
    match output {
        Output::Command(command) => module.ask(service, command),
        Output::Egress { .. } => Ok(()),
    }
}

/// The module takes what a service asks by its outputs at an entry, in order.
#[tactic(auto, using(crate::proofs::Consuming::asked_first, crate::proofs::Consuming::taking_on, crate::proofs::Consuming::unchanged))]
fn ask_all(
    module: &mut MemberModule,
    service: u8,
    outputs: &[(u64, Output)],
) -> Result<(), NoMemory>
    ensures stays { OnOk result (IsTaking module.old module.new) }
    ensures state { OnOk result (module.new.state ≡ after_asks module_part module.old.state (asks_among service (map output_in outputs.now))) }
{
    let Some((first, rest)) = outputs.split_first() else {
        return Ok(());
    };
    ask_one(module, service, &first.1)?;
    ask_all(module, service, rest)
}

/// The module takes what the services ask at an entry, by rising service.
#[tactic(auto, using(crate::proofs::Consuming::services_asked, crate::proofs::Consuming::taking_on, crate::proofs::Consuming::unchanged))]
fn ask_services(
    module: &mut MemberModule,
    index: u64,
    containers: &[Container],
) -> Result<(), NoMemory>
    ensures stays { OnOk result (IsTaking module.old module.new) }
    ensures state { HaveRising containers.now → OnOk result (module.new.state ≡ after_asks module_part module.old.state (asks_at index (outboxes containers.now))) }
{
    let Some((container, rest)) = containers.split_first() else {
        return Ok(());
    };
    let outputs = outputs_at(container.outbox(), index);
    ask_all(module, container.service(), outputs)?;
    ask_services(module, index, rest)
}

/// Sends what the services owe at an entry, by rising service.
#[tactic(auto, using(crate::proofs::Consuming::services_sent))]
fn send_services(
    owing: &Owing,
    index: u64,
    module: &MemberModule,
    containers: &[Container],
    sent: &mut List<Sent>,
) -> Result<(), NoMemory>
    requires { owing.now.index ≡ index }
    ensures { HaveRising containers.now → OnOk result (sent.new ≡ sent.old ++ sent_by_services owing.now.sends index module.now.state owing.now.event.now (outboxes containers.now)) }
{
    let Some((container, rest)) = containers.split_first() else {
        return Ok(());
    };
    let outputs = outputs_at(container.outbox(), index);
    owing.send_service(module.state(), container.service(), outputs, sent)?;
    send_services(owing, index, module, rest, sent)
}

impl<D: Disk> Agent<D> {
    /// The module takes the entries that the services consumed, the snapshots of the actions among them are written,
    /// and what is owed to clients is given.
    #[tactic(auto, using(crate::proofs::Sounding::taken_sound, crate::proofs::Writing::stopped_all, crate::proofs::Writing::stopped_none))]
    pub(crate) fn consume(&mut self) -> Result<List<Sent>, AgentFault>
        requires { self.old.core.values.rest.commit < 2 ^ 62 }
        ensures consumed { OnOk result (self.new.module.consumed ≡ self.old.module.consumed + (self.old.core.values.rest.commit - self.old.module.consumed)) }
        ensures ahead { OnOk result (self.new.module.ahead.entries ≡ drop (self.old.core.values.rest.commit - self.old.module.consumed) self.old.module.ahead.entries) }
        ensures events { OnOk result (self.new.module.ahead.events ≡ drop (self.old.core.values.rest.commit - self.old.module.consumed) self.old.module.ahead.events) }
        ensures rest { OnOk result (HasConsumed self.old.module self.new.module) }
        ensures state { HaveRising self.old.services.kept → OnOk result (self.new.module.state ≡ module_over (outboxes self.old.services.kept) self.old.module.consumed self.old.module.state (take (self.old.core.values.rest.commit - self.old.module.consumed) self.old.module.ahead.events)) }
        ensures owed { HaveRising self.old.services.kept → IfOk result (λ sent. sent ≡ sent_over self.old.role (outboxes self.old.services.kept) self.old.module.consumed self.old.module.state (take (self.old.core.values.rest.commit - self.old.module.consumed) self.old.module.ahead.events)) }
        ensures written { HaveRising self.old.services.kept → OnOk result (AreWritten D.state D.tells D.is_honest (phase_snapshots self.old.services.kept self.old.disk.kept.log self.old.module (self.old.core.values.rest.commit - self.old.module.consumed)) self.old.disk self.new.disk) }
        ensures stopped { HaveRising self.old.services.kept → OnErr result (StoppedAmong D.state D.tells D.is_honest (phase_snapshots self.old.services.kept self.old.disk.kept.log self.old.module (self.old.core.values.rest.commit - self.old.module.consumed)) self.old.disk self.new.disk) }
        ensures services { self.new.services ≡ self.old.services }
        ensures core { self.new.core ≡ self.old.core }
        ensures base { self.new.base ≡ self.old.base }
        ensures whole { OnOk result (IsTrue self.new.is_whole) }
        ensures kept { IsKept self.old.disk.kept.node self.old.disk.kept.log self.new.disk.kept }
    {
        if !self.is_whole {
            return Err(AgentFault::NoMemory);
        }
        let first = self.module.consumed();
        let count = self.core.commit().saturating_sub(first);
        let mut sent = List::new(self.alloc);
        let mut actions = List::new(self.alloc);
        self.is_whole = false;
        for number in 0..count {
            self.take_entry(number, &mut sent, &mut actions)?;
        }
        put_all(
            self.alloc,
            &mut self.disk,
            self.services.containers(),
            actions.as_slice(),
        )?;
        self.module.advance(count)?;
        self.is_whole = true;
        Ok(sent)
    }

    /// The module takes the entry ahead at this number, where there is one, with what the services ask at it.
    #[tactic(auto, using(crate::proofs::Consuming::applied, crate::proofs::Consuming::taking_on, crate::proofs::Consuming::unchanged, crate::proofs::Consuming::entry_taken, crate::proofs::Consuming::none_taken, crate::proofs::Consuming::entry_sent, crate::proofs::Consuming::none_sent))]
    fn take_entry(
        &mut self,
        number: u64,
        sent: &mut List<Sent>,
        actions: &mut List<Action>,
    ) -> Result<(), AgentFault>
        requires open { self.old.is_whole ≡ false }
        requires number { number < 2 ^ 62 }
        ensures module { OnOk result (IsTaking self.old.module self.new.module) }
        ensures state { HaveRising self.old.services.kept → OnOk result (self.new.module.state ≡ module_with (outboxes self.old.services.kept) (self.old.module.consumed + number) self.old.module.state (slice_get self.old.module.ahead.events number)) }
        ensures owed { HaveRising self.old.services.kept → OnOk result (sent.new ≡ sent.old ++ sent_with self.old.role (outboxes self.old.services.kept) (self.old.module.consumed + number) self.old.module.state (slice_get self.old.module.ahead.events number)) }
        ensures actions { HaveRising self.old.services.kept → OnOk result (actions.new ≡ actions.old ++ action_with (shape_of self.old.disk.kept.log) (self.old.module.consumed + number) (slice_get self.old.module.ahead.events number) (module_with (outboxes self.old.services.kept) (self.old.module.consumed + number) self.old.module.state (slice_get self.old.module.ahead.events number))) }
        ensures services { self.new.services ≡ self.old.services }
        ensures core { self.new.core ≡ self.old.core }
        ensures open { self.new.is_whole ≡ false }
        ensures disk { self.new.disk ≡ self.old.disk }
        ensures role { self.new.role ≡ self.old.role }
        ensures base { self.new.base ≡ self.old.base }
    {
        let index = self.module.consumed().saturating_add(number);
        let number = number as usize;
        let Some(_event) = self.module.event(number) else {
            return Ok(());
        };
        let owed = self.module.apply(number)?;
        self.send_entry(index, number, owed, sent)?;
        ask_services(&mut self.module, index, self.services.containers())?;
        self.note_action(index, number, actions)?;
        Ok(())
    }

    /// The entry that was just taken, where it is a snapshot action, is added to the actions.
    #[tactic(auto, using(crate::proofs::Views::front_ends))]
    fn note_action(
        &self,
        index: u64,
        number: usize,
        actions: &mut List<Action>,
    ) -> Result<(), NoMemory>
        requires { index < 2 ^ 63 }
        ensures { OnOk result (actions.new ≡ actions.old ++ action_with (shape_of self.now.disk.kept.log) index (slice_get self.now.module.ahead.events number) self.now.module.state) }
    {
        let Some(Event::Snapshot { term, stamp, .. }) = self.module.event(number) else {
            return Ok(());
        };
        let entries = index + 1;
        if entries > self.disk.index().entries() || !is_number(term) || !is_number(stamp) {
            return Err(NoMemory);
        }
        let position = self.disk.index().end_at(entries);
        let action = Action::of(self.alloc, &self.module, index, position, (*term, *stamp))?;
        actions.push(action)
    }

    /// Sends what the entry that was just taken owes.
    #[tactic(auto, using(crate::proofs::Consuming::entry_owes))]
    fn send_entry(
        &self,
        index: u64,
        number: usize,
        owed: List<ModuleOutput>,
        sent: &mut List<Sent>,
    ) -> Result<(), NoMemory>
        ensures { (e : EventOf) → slice_get self.now.module.ahead.events number ≡ Some e → HaveRising self.now.services.kept
            → OnOk result (sent.new ≡ sent.old ++ (sent_of (sends_of self.now.role (term_of e)) index None owed ++ sent_by_services (sends_of self.now.role (term_of e)) index self.now.module.state e (outboxes self.now.services.kept))) }
    {
        let Some(event) = self.module.event(number) else {
            return Ok(());
        };
        let owing = Owing::new(self.alloc, index, event, self.role);
        owing.send_module(owed, sent)?;
        send_services(
            &owing,
            index,
            &self.module,
            self.services.containers(),
            sent,
        )
    }
}
