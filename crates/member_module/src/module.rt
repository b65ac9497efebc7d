// The module's state on one member.
ghost use Rattle.std.specs.Prelude.{◌≡◌, IsSome, ◌+◌, ◌-◌, ◌<◌, ◌≤◌, ◌^◌, [], ◌∷◌, ◌++◌, take, drop, length, Option, Some, None, slice_get, OnOk, OnErr, IfOk, IfSome, option_copied};
ghost use Rattle.sbe_events.specs.declared.event.Event.{Event};
ghost use Rattle.sbe_events.specs.Spelling.{HasSpelling};
ghost use Rattle.std.specs.List.{AllByRecursion};
ghost use Rattle.module_state.specs.Ranges.{IsNumber};
ghost use Rattle.module_state.specs.Module.{module_after, module_asked};
ghost use Rattle.module_state.specs.Due.{due};
ghost use Rattle.module_state.specs.Owed.{owed_by_module};
ghost use Rattle.module_state.specs.Outputs.{outputs_of};
ghost use Rattle.module_state.specs.Entries.{events_in};
ghost use Rattle.member_module.specs.Ahead.{event_in, AreEvents};
ghost use Rattle.member_module.specs.Held.{Holds, at_end, brought_past, heard, latest_of, with_coming};

use crate::ahead::{Ahead, event_of};
use crate::alive::hear;
use cl_base::limits::NUMBER_LIMIT;
use cl_base::{Entry, List, NoMemory};
use module_state::{ModuleOutput, ModuleState, Moment};
use sbe_events::Event;
use sbe_local::Command;
use std::alloc::Global;
use std::marker::Model;

/// The module's state on one member: after what it consumed, and, where it is asked for, at the log's end.
#[derive(Drop)]
pub struct MemberModule {
    alloc: Global,
    state: ModuleState,
    consumed: u64,
    ahead: Ahead,
    coming: Option<Event>,
    latest: Option<ModuleState>,
    alive: Vec<(i64, u64)>,
    since: u64,
}

impl Model for MemberModule {
    ghost use Rattle.std.specs.Prelude.{◌≤◌, ◌^◌};
    ghost use Rattle.member_module.specs.Held.{Held, IsBroughtUp, ComesSpelled};

    ghost Value = { Held };

    ghost view = { λ m. record { state = m.state; consumed = m.consumed; ahead = m.ahead; coming = m.coming; latest = m.latest; alive = m.alive.items; since = m.since } };

    ghost invariant = { λ m. IsBroughtUp (record { state = m.state; consumed = m.consumed; ahead = m.ahead; coming = m.coming; latest = m.latest; alive = m.alive.items; since = m.since }) × ComesSpelled (record { state = m.state; consumed = m.consumed; ahead = m.ahead; coming = m.coming; latest = m.latest; alive = m.alive.items; since = m.since }) × (m.consumed ≤ 2 ^ 62) };
}

/// The state at the log's end takes one more event, where it was brought up. Where there is no memory nothing changes.
fn bring_past(latest: &mut Option<ModuleState>, event: &Event) -> Result<(), NoMemory>
    requires { HasSpelling event.now }
    ensures ok { OnOk result (latest.new ≡ brought_past event.now latest.old) }
    ensures err { OnErr result (latest.new ≡ latest.old) }
{
    match latest {
        Some(state) => state.advance(event),
        None => Ok(()),
    }
}

impl MemberModule {
    /// The module of a member that starts: it has consumed so many entries of its log, and none is ahead.
    pub fn new(alloc: Global, state: ModuleState, consumed: u64) -> MemberModule
        requires { consumed ≤ 2 ^ 62 }
        ensures ahead { Holds result [] [] }
        ensures rest { result ≡ record { state = state; consumed = consumed; ahead = result.ahead; coming = None; latest = None; alive = []; since = 0 } }
    {
        MemberModule {
            alloc,
            state,
            consumed,
            ahead: Ahead::new(alloc),
            coming: None,
            latest: None,
            alive: Vec::new(alloc),
            since: 0,
        }
    }

    /// The module after what it consumed.
    pub fn state(&self) -> &ModuleState
        ensures { result.now ≡ self.now.state }
    {
        &self.state
    }

    /// How many entries the module consumed, at most 2^62.
    pub fn consumed(&self) -> u64
        ensures value { result ≡ self.now.consumed }
        ensures bound { result ≤ 2 ^ 62 }
    {
        self.consumed
    }

    /// The log's entries past those that the module consumed.
    pub fn ahead(&self) -> &[Entry]
        ensures { result.now ≡ self.now.ahead.entries }
    {
        self.ahead.entries()
    }

    /// The event of the entry ahead at this number, counted from 0.
    pub fn event(&self, number: usize) -> Option<&Event>
        ensures { option_copied result ≡ slice_get self.now.ahead.events number }
    {
        self.ahead.events().get(number)
    }

    /// The member became ready to lead at `now` (ms): no keep-alive was accepted since.
    pub fn reign(&mut self, now: u64)
        ensures { self.new ≡ record self.old { latest = None; alive = []; since = now } }
    {
        self.alive.clear();
        self.since = now;
        self.latest = None;
    }

    /// The member doesn't lead: nothing is asked of the state at the log's end.
    pub fn rest(&mut self)
        ensures { self.new ≡ record self.old { latest = None } }
    {
        self.latest = None;
    }

    /// A keep-alive of this session was accepted at `now` (ms).
    pub fn keep_alive(&mut self, session: i64, now: u64) -> Result<(), NoMemory>
        ensures ok { OnOk result (self.new ≡ record self.old { alive = heard session now self.old.alive }) }
        ensures err { OnErr result (self.new ≡ self.old) }
    {
        hear(&mut self.alive, session, now)?;
        Ok(())
    }

    /// The state at the log's end where it was brought up, else the one after what was consumed.
    pub fn latest(&self) -> &ModuleState
        ensures { result.now ≡ latest_of self.now.latest self.now.state }
    {
        match &self.latest {
            Some(state) => state,
            None => &self.state,
        }
    }

    /// Brings up the state at the log's end, but for what the services will ask at the entries ahead. No event is
    /// expected. Where there is no memory nothing changes.
    pub fn look_ahead(&mut self) -> Result<(), NoMemory>
        ensures ok { OnOk result (self.new ≡ record self.old { latest = Some (at_end self.old) }) }
        ensures err { OnErr result (self.new ≡ self.old) }
    {
        if self.coming.is_some() {
            return Err(NoMemory);
        }
        if self.latest.is_some() {
            return Ok(());
        }
        let state = self.state.tentative(self.ahead.events())?;
        self.latest = Some(state);
        Ok(())
    }

    /// What is due at `now` (ms, at most 2^60) to a member that leads `term`.
    pub fn due(&mut self, term: i64, now: u64) -> Result<List<Event>, NoMemory>
        requires { now ≤ 2 ^ 60 }
        ensures due { IfOk result (λ es. es ≡ due self.old.state (at_end self.old) self.old.ahead.events self.old.alive term now self.old.since) }
        ensures spelled { IsNumber term → IfOk result (λ es. AllByRecursion HasSpelling es) }
        ensures ahead { self.new ≡ record self.old { latest = self.new.latest } }
    {
        self.look_ahead()?;
        let moment = Moment {
            term,
            now,
            since: self.since,
        };
        self.state.due(
            self.latest(),
            self.ahead.events(),
            self.alive.as_slice(),
            moment,
        )
    }

    /// An event comes: all the memory that its entry needs is taken, and the state at the log's end is brought past it,
    /// where it was brought up. Where another is expected the answer is that of no memory.
    pub fn expect(&mut self, event: Event) -> Result<(), NoMemory>
        requires { HasSpelling event }
        ensures entries { self.new.ahead.entries ≡ self.old.ahead.entries }
        ensures events { self.new.ahead.events ≡ self.old.ahead.events }
        ensures room { OnOk result (1 ≤ self.new.ahead.room) }
        ensures ok { OnOk result (self.new ≡ record self.old { ahead = self.new.ahead; coming = Some event; latest = brought_past event self.old.latest }) }
        ensures err { OnErr result (self.new ≡ record self.old { ahead = self.new.ahead }) }
    {
        if self.coming.is_some() {
            return Err(NoMemory);
        }
        self.expect_next(event)
    }

    /// The same, where none is expected.
    fn expect_next(&mut self, event: Event) -> Result<(), NoMemory>
        requires coming { self.old.coming ≡ None }
        requires spelled { HasSpelling event }
        ensures entries { self.new.ahead.entries ≡ self.old.ahead.entries }
        ensures events { self.new.ahead.events ≡ self.old.ahead.events }
        ensures room { OnOk result (1 ≤ self.new.ahead.room) }
        ensures ok { OnOk result (self.new ≡ record self.old { ahead = self.new.ahead; coming = Some event; latest = brought_past event self.old.latest }) }
        ensures err { OnErr result (self.new ≡ record self.old { ahead = self.new.ahead }) }
    {
        self.ahead.reserve()?;
        bring_past(&mut self.latest, &event)?;
        self.coming = Some(event);
        Ok(())
    }

    /// The entry of the event that was expected is in the log.
    pub fn put(&mut self, entry: Entry)
        requires room { 1 ≤ self.old.ahead.room }
        requires event { (self.old.coming ≡ event_in entry) × IsSome self.old.coming }
        ensures entries { self.new.ahead.entries ≡ self.old.ahead.entries ++ entry ∷ [] }
        ensures events { self.new.ahead.events ≡ with_coming self.old.coming self.old.ahead.events }
        ensures rest { self.new ≡ record self.old { ahead = self.new.ahead; coming = None } }
    {
        let Some(event) = self.coming.take() else {
            unreachable!()
        };
        self.ahead.put(entry, event);
    }

    /// An entry is in the log. Where it spells no event, or another is expected, there is no place for it: the answer is
    /// that of no memory.
    #[tactic(auto, using(crate::proofs::Events::one_event))]
    pub fn append(&mut self, entry: Entry) -> Result<(), NoMemory>
        ensures entries { OnOk result (self.new.ahead.entries ≡ self.old.ahead.entries ++ entry ∷ []) }
        ensures events { OnOk result (self.new.ahead.events ≡ self.old.ahead.events ++ events_in (entry ∷ [])) }
        ensures stays { OnErr result ((self.new.ahead.entries ≡ self.old.ahead.entries) × (self.new.ahead.events ≡ self.old.ahead.events)) }
        ensures rest { self.new ≡ record self.old { ahead = self.new.ahead; latest = self.new.latest } }
    {
        match event_of(self.alloc, &entry)? {
            Some(event) => self.append_next(entry, event),
            None => Err(NoMemory),
        }
    }

    /// The entry of this event is in the log.
    #[tactic(auto, using(crate::proofs::Events::with_one))]
    fn append_next(&mut self, entry: Entry, event: Event) -> Result<(), NoMemory>
        requires event { event_in entry ≡ Some event }
        requires spelled { HasSpelling event }
        ensures entries { OnOk result (self.new.ahead.entries ≡ self.old.ahead.entries ++ entry ∷ []) }
        ensures events { OnOk result (self.new.ahead.events ≡ self.old.ahead.events ++ event ∷ []) }
        ensures stays { OnErr result ((self.new.ahead.entries ≡ self.old.ahead.entries) × (self.new.ahead.events ≡ self.old.ahead.events)) }
        ensures rest { self.new ≡ record self.old { ahead = self.new.ahead; latest = self.new.latest } }
    {
        if self.coming.is_some() {
            return Err(NoMemory);
        }
        self.expect_next(event)?;
        self.put(entry);
        Ok(())
    }

    /// The log was cut to so many entries, at least as many as were consumed.
    pub fn cut(&mut self, entries: u64)
        ensures entries { self.new.ahead.entries ≡ take (entries - self.old.consumed) self.old.ahead.entries }
        ensures events { self.new.ahead.events ≡ take (entries - self.old.consumed) self.old.ahead.events }
        ensures rest { self.new ≡ record self.old { ahead = self.new.ahead; latest = None } }
    {
        let left = entries.saturating_sub(self.consumed);
        self.ahead.cut(left as usize);
        self.latest = None;
    }

    /// The module takes the event of the entry ahead at this number, counted from 0, and gives what it owes to clients.
    pub fn apply(&mut self, number: usize) -> Result<List<ModuleOutput>, NoMemory>
        ensures state { (e : Event) → slice_get self.old.ahead.events number ≡ Some e → OnOk result (self.new ≡ record self.old { state = module_after self.old.state e; latest = None }) }
        ensures owed { (e : Event) → slice_get self.old.ahead.events number ≡ Some e → IfOk result (λ l. l ≡ outputs_of (owed_by_module self.old.state e)) }
        ensures rest { self.new ≡ record self.old { state = self.new.state; latest = None } }
    {
        self.latest = None;
        match self.ahead.events().get(number) {
            Some(event) => self.state.apply(event),
            None => Ok(List::new(self.alloc)),
        }
    }

    /// A service asks this at the entry that was applied last.
    pub fn ask(&mut self, service: u8, command: &Command) -> Result<(), NoMemory>
        ensures state { OnOk result (self.new.state ≡ module_asked self.old.state service command.now) }
        ensures rest { self.new ≡ record self.old { state = self.new.state; latest = None } }
    {
        self.latest = None;
        if service as usize >= self.state.services() {
            return Err(NoMemory);
        }
        self.state.on_command(service, command)
    }

    /// The first entries ahead were applied, and are ahead no more. Where there are fewer nothing changes, and the
    /// answer is that of no memory.
    pub fn advance(&mut self, count: u64) -> Result<(), NoMemory>
        ensures entries { OnOk result (self.new.ahead.entries ≡ drop count self.old.ahead.entries) }
        ensures events { OnOk result (self.new.ahead.events ≡ drop count self.old.ahead.events) }
        ensures consumed { OnOk result (self.new.consumed ≡ self.old.consumed + count) }
        ensures rest { self.new ≡ record self.old { consumed = self.new.consumed; ahead = self.new.ahead; latest = self.new.latest } }
    {
        if count == 0 {
            return Ok(());
        }
        let Some(consumed) = self.consumed.checked_add(count) else {
            return Err(NoMemory);
        };
        if consumed > NUMBER_LIMIT || count > self.ahead().len() as u64 || self.coming.is_some() {
            return Err(NoMemory);
        }
        self.ahead.advance(count as usize);
        self.consumed = consumed;
        self.latest = None;
        Ok(())
    }
}
