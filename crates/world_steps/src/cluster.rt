// The world.
ghost use Rattle.std.specs.Prelude.{◌≡◌, ◌≤◌, ◌<◌, ◌++◌, true, All, length, replicate, take, IfOk, OnOk};
ghost use Rattle.sbe_events.specs.Spelling.{HasSpelling as IsEvent};
ghost use Rattle.entry_log.specs.Durable.{fresh};
ghost use Rattle.sbe_consensus.specs.Spelling.{HasSpelling as IsPacket};
ghost use Rattle.consensus_core.specs.Member.{row_of_client, row_of_duty, row_of_packet, stopped};
ghost use Rattle.module_state.specs.Entries.{IsSpellable};
ghost use Rattle.service_runs.specs.Hosts.{longer, printed_by};
ghost use Rattle.world.specs.World.{acts, first_logs, is_running, is_stopped, member, step};
ghost use Rattle.world_steps.specs.declared.step.Step.TheVariants as steps;
ghost use Rattle.world_steps.specs.Fit.{SpeaksBy};
ghost use Rattle.world_steps.specs.Members.{cut_of};
ghost use Rattle.world_steps.specs.Steps.{IsReached, due_if_ready, first_seen, held_in, is_asked, listed, noting, print_first, sent_at, step_of, written_in};

use crate::cut::Cut;
use crate::due::{due_in, may_append, stamp_of, term_of};
use crate::history::{Holding, Raise, Reign, Sent, Written};
use crate::log::{copies, extend, put, put_all, put_first, put_if};
use crate::member::Member;
use crate::ran::Done;
use cl_base::{Entry, List, NoMemory};
use module_state::Moment;
use sbe_events::Event;
use service_api::Kind;
use std::alloc::Global;
use std::marker::Model;

/// The latest moment, in ms.
const TIME_LIMIT: u64 = 1 << 60;

/// The members of a cluster with their disks as data, and what was: packets, raises, reigns and holdings only grow.
#[derive(Drop)]
pub struct World {
    alloc: Global,
    /// The services of each member, 1 to 3.
    kinds: Vec<Kind>,
    /// The moment, in ms.
    moment: u64,
    members: Vec<Member>,
    sent: Vec<Sent>,
    raises: Vec<Raise>,
    reigns: Vec<Reign>,
    /// The logs of reigns, the newest first.
    written: Vec<Written>,
    holdings: Vec<Holding>,
    /// The longest list of entries at which any member's commit has stood.
    printed: Vec<Entry>,
}

impl Model for World {
    ghost use Rattle.world_steps.specs.Steps.{Seen};

    ghost Value = { Seen };

    ghost view = { λ w. record { kinds = w.kinds.items; world = record { now = w.moment; members = w.members.items; sent = w.sent.items; raises = w.raises.items; reigns = w.reigns.items; written = w.written.items; holdings = w.holdings.items }; printed = w.printed.items } };
}

impl World {
    /// So many formatted members, stopped, with these services each.
    pub fn new(alloc: Global, members: u8, kinds: &[Kind]) -> Result<World, NoMemory>
        requires members { members ≤ 5 }
        requires kinds { length kinds.now ≤ 3 }
        ensures world { IfOk result (λ w. w ≡ first_seen members kinds.now) }
        ensures reached { IfOk result IsReached }
    {
        let world = World::formatted(alloc, members, kinds)?;
        Ok(world)
    }

    /// The same.
    fn formatted(alloc: Global, members: u8, kinds: &[Kind]) -> Result<World, NoMemory>
        ensures { IfOk result (λ w. w ≡ first_seen members kinds.now) }
    {
        let members = fresh_members(alloc, members)?;
        Ok(World {
            alloc,
            kinds: Vec::from_slice(alloc, kinds)?,
            moment: 0,
            members,
            sent: Vec::new(alloc),
            raises: Vec::new(alloc),
            reigns: Vec::new(alloc),
            written: Vec::new(alloc),
            holdings: Vec::new(alloc),
            printed: Vec::new(alloc),
        })
    }

    /// The moment (ms).
    pub fn now(&self) -> u64
        ensures { result ≡ self.now.world.now }
    {
        self.moment
    }

    /// The members.
    pub fn members(&self) -> &[Member]
        ensures { result.now ≡ self.now.world.members }
    {
        self.members.as_slice()
    }

    /// Every packet ever sent.
    pub fn sent(&self) -> &[Sent]
        ensures { result.now ≡ self.now.world.sent }
    {
        self.sent.as_slice()
    }

    /// Each election that was won, in order.
    pub fn reigns(&self) -> &[Reign]
        ensures { result.now ≡ self.now.world.reigns }
    {
        self.reigns.as_slice()
    }

    /// The longest list of entries at which any member's commit has stood.
    pub fn printed(&self) -> &[Entry]
        ensures { result.now ≡ self.now.printed }
    {
        self.printed.as_slice()
    }

    /// Whether there is this member and it runs.
    fn is_running(&self, number: u8) -> bool
        ensures { result ≡ is_running self.now.world number }
    {
        let number = number as usize;
        if number >= self.members.len() {
            return false;
        }
        self.members[number].is_up()
    }

    /// Whether there is this member and it doesn't run.
    fn is_stopped(&self, number: u8) -> bool
        ensures { result ≡ is_stopped self.now.world number }
    {
        let number = number as usize;
        if number >= self.members.len() {
            return false;
        }
        let found = &self.members[number];
        !found.is_up()
    }

    /// Time rises.
    pub fn passes(&mut self, now: u64)
        ensures { self.new ≡ record self.old { world = step self.old.world (step_of self.old (steps.Passes now)) } }
    {
        if now <= TIME_LIMIT && self.moment < now {
            self.moment = now;
        }
    }

    /// A stopped member starts.
    pub fn starts(&mut self, number: u8) -> Result<(), NoMemory>
        requires { IsReached self.old }
        ensures { OnOk result (self.new ≡ record self.old { world = step self.old.world (step_of self.old (steps.Starts number)) }) }
    {
        if !self.is_stopped(number) {
            return Ok(());
        }
        let count = self.members.len() as u8;
        let services = self.kinds.len() as u8;
        let reigned = self.members[number as usize].reign_term();
        self.members[number as usize].start(number, count, services);
        let done = Done::nothing(self.alloc);
        self.notes(number, reigned, done)?;
        Ok(())
    }

    /// A running member stops.
    pub fn stops(&mut self, number: u8) -> Result<(), NoMemory>
        ensures { OnOk result (self.new ≡ record self.old { world = step self.old.world (step_of self.old (steps.Stops number)) }) }
    {
        if !self.is_running(number) {
            return Ok(());
        }
        let reigned = self.members[number as usize].reign_term();
        self.members[number as usize].stop();
        let done = Done::nothing(self.alloc);
        self.notes(number, reigned, done)?;
        Ok(())
    }

    /// A running member has its duty. A leader is given the last keep-alive of each session (ms) and the moment since which
    /// it leads (ms).
    pub fn duty(
        &mut self,
        number: u8,
        alive: &List<(i64, u64)>,
        since: u64,
        cut: Cut,
    ) -> Result<(), NoMemory>
        requires { IsReached self.old }
        ensures { OnOk result (self.new ≡ record self.old { world = step self.old.world (step_of self.old (steps.Duty number alive.now since cut)) }) }
    {
        if !self.is_running(number) {
            return Ok(());
        }
        let events = self.due_at(number, alive, since)?;
        self.does(number, events.as_slice(), cut)?;
        Ok(())
    }

    /// The row of a running member's duty, with these events being due.
    fn does(&mut self, number: u8, due: &[Event], cut: Cut) -> Result<(), NoMemory>
        requires reached { IsReached self.old }
        requires runs { is_running self.old.world number ≡ true }
        requires due { All IsEvent due.now }
        requires speaks { SpeaksBy (member self.old.world number) (row_of_duty (member self.old.world number) due.now self.old.world.now) }
        ensures { OnOk result (self.new ≡ record self.old { world = acts self.old.world number (row_of_duty (member self.old.world number) due.now self.old.world.now) (cut_of cut) }) }
    {
        let reigned = self.members[number as usize].reign_term();
        let now = self.moment;
        let done = self.members[number as usize].has_duty(number, due, now, cut)?;
        self.notes(number, reigned, done)?;
        Ok(())
    }

    /// What is due at a running member, nothing unless it leads.
    fn due_at(
        &self,
        number: u8,
        alive: &List<(i64, u64)>,
        since: u64,
    ) -> Result<List<Event>, NoMemory>
        requires reached { IsReached self.now }
        requires runs { is_running self.now.world number ≡ true }
        ensures due { IfOk result (λ es. es ≡ due_if_ready self.now number alive.now since) }
        ensures spelled { IfOk result (λ es. All IsEvent es) }
    {
        let found = &self.members[number as usize];
        if !found.is_ready() {
            return Ok(List::new(self.alloc));
        }
        let moment = Moment {
            term: found.term(),
            now: self.moment,
            since,
        };
        let services = self.kinds.len() as u8;
        due_in(
            self.alloc,
            services,
            found.kept().entries(),
            alive.as_slice(),
            moment,
        )
    }

    /// A packet is delivered, where its receiver runs.
    pub fn delivers(&mut self, which: u64, cut: Cut) -> Result<(), NoMemory>
        requires { IsReached self.old }
        ensures { OnOk result (self.new ≡ record self.old { world = step self.old.world (step_of self.old (steps.Delivers which cut)) }) }
    {
        let all = self.sent();
        if all.len() as u64 <= which {
            return Ok(());
        }
        let sent = &all[which as usize];
        let number = sent.to;
        if !self.is_running(number) {
            return Ok(());
        }
        self.takes(number, which, cut)?;
        Ok(())
    }

    /// The row of a running member that takes a packet, which was sent to it.
    fn takes(&mut self, number: u8, which: u64, cut: Cut) -> Result<(), NoMemory>
        requires reached { IsReached self.old }
        requires runs { is_running self.old.world number ≡ true }
        requires sent { which < length self.old.world.sent }
        requires spelled { IsPacket (sent_at self.old.world which).packet }
        requires speaks { SpeaksBy (member self.old.world number) (row_of_packet (member self.old.world number) (sent_at self.old.world which).packet self.old.world.now) }
        ensures { OnOk result (self.new ≡ record self.old { world = acts self.old.world number (row_of_packet (member self.old.world number) (sent_at self.old.world which).packet self.old.world.now) (cut_of cut) }) }
    {
        let reigned = self.members[number as usize].reign_term();
        let now = self.moment;
        let sent = &self.sent[which as usize];
        let done = self.members[number as usize].takes(number, &sent.packet, now, cut)?;
        self.notes(number, reigned, done)?;
        Ok(())
    }

    /// A client's event, or an operator's, comes to a running member.
    pub fn client(&mut self, number: u8, event: &Event, cut: Cut) -> Result<(), NoMemory>
        requires reached { IsReached self.old }
        requires event { IsSpellable event.now }
        ensures { OnOk result (self.new ≡ record self.old { world = step self.old.world (step_of self.old (steps.Client number event.now cut)) }) }
    {
        if !self.is_running(number) {
            return Ok(());
        }
        let asked = self.is_asked(number, event)?;
        if !asked {
            return Ok(());
        }
        self.appends(number, event, cut)?;
        Ok(())
    }

    /// The row of a running member that a client's event comes to.
    fn appends(&mut self, number: u8, event: &Event, cut: Cut) -> Result<(), NoMemory>
        requires reached { IsReached self.old }
        requires runs { is_running self.old.world number ≡ true }
        requires event { IsEvent event.now }
        requires speaks { SpeaksBy (member self.old.world number) (row_of_client (member self.old.world number) event.now) }
        ensures { OnOk result (self.new ≡ record self.old { world = acts self.old.world number (row_of_client (member self.old.world number) event.now) (cut_of cut) }) }
    {
        let reigned = self.members[number as usize].reign_term();
        let done = self.members[number as usize].appends(number, event, cut)?;
        self.notes(number, reigned, done)?;
        Ok(())
    }

    /// Whether an event may be asked of a running member: it is of its term, stamped now, and admitted behind its log, where
    /// there is room.
    fn is_asked(&self, number: u8, event: &Event) -> Result<bool, NoMemory>
        requires reached { IsReached self.now }
        requires runs { is_running self.now.world number ≡ true }
        requires event { IsEvent event.now }
        ensures { IfOk result (λ b. b ≡ is_asked self.now number event.now) }
    {
        let found = &self.members[number as usize];
        if stamp_of(event) != self.moment as i64 {
            return Ok(false);
        }
        if term_of(event) != found.term() {
            return Ok(false);
        }
        let services = self.kinds.len() as u8;
        may_append(self.alloc, services, found.kept().entries(), event)
    }

    /// A member was changed, which reigned in this term before: what is to be noted of it is noted.
    fn notes(&mut self, number: u8, reigned: Option<i64>, done: Done) -> Result<(), NoMemory>
        requires { number < length self.old.world.members }
        ensures { OnOk result (self.new ≡ record self.old { world = noting self.old.world number reigned (listed done.raise) done.sent (listed done.reign) }) }
    {
        let held = self.members[number as usize].held_term();
        let log = self.members[number as usize].kept().copies()?;
        note_written(&mut self.written, reigned, log.as_slice())?;
        note_holding(&mut self.holdings, number, held, log.as_slice())?;
        note_first(&mut self.written, &done.reign)?;
        put_if(&mut self.raises, done.raise)?;
        put_if(&mut self.reigns, done.reign)?;
        put_all(&mut self.sent, done.sent)?;
        Ok(())
    }

    #[tactic(auto, using(crate::proofs::Lists::print_is))]
    /// The longest list of entries at which a commit stands is printed.
    pub fn prints(&mut self) -> Result<(), NoMemory>
        ensures { OnOk result (self.new ≡ record self.old { printed = printed_by (length self.old.world.members) self.old.world self.old.printed }) }
    {
        print_all(&mut self.printed, self.members.as_slice())?;
        Ok(())
    }
}

#[tactic(auto, using(crate::proofs::Lists::replicate_more))]
/// So many stopped members on formatted disks.
fn fresh_members(alloc: Global, count: u8) -> Result<Vec<Member>, NoMemory>
    ensures { IfOk result (λ ms. ms.items ≡ replicate count (stopped fresh)) }
{
    let mut members = Vec::new(alloc);
    for _ in 0..count {
        put(&mut members, Member::fresh(alloc))?;
    }
    Ok(members)
}

/// A member that reigned in this term has this log now.
fn note_written(
    written: &mut Vec<Written>,
    reigned: Option<i64>,
    log: &[Entry],
) -> Result<(), NoMemory>
    ensures { OnOk result (written.new.items ≡ written_in reigned log.now ++ written.old.items) }
{
    match reigned {
        Some(term) => {
            let log = copies(*written.allocator(), log)?;
            put_first(written, Written { term, log })
        }
        None => Ok(()),
    }
}

/// The first log of a reign that begins is written.
fn note_first(written: &mut Vec<Written>, reign: &Option<Reign>) -> Result<(), NoMemory>
    ensures { OnOk result (written.new.items ≡ first_logs (listed reign.now) ++ written.old.items) }
{
    match reign {
        Some(begun) => note_written(written, Some(begun.term), begun.first.as_slice()),
        None => Ok(()),
    }
}

/// A member holds this log in this term.
fn note_holding(
    holdings: &mut Vec<Holding>,
    number: u8,
    held: Option<i64>,
    log: &[Entry],
) -> Result<(), NoMemory>
    ensures { OnOk result (holdings.new.items ≡ holdings.old.items ++ held_in number held log.now) }
{
    match held {
        Some(term) => {
            let log = copies(*holdings.allocator(), log)?;
            let member = number;
            put(holdings, Holding { member, term, log })
        }
        None => Ok(()),
    }
}

/// What the members have committed is printed, one after the other, where that is longer.
fn print_all(printed: &mut Vec<Entry>, members: &[Member]) -> Result<(), NoMemory>
    ensures { OnOk result (printed.new.items ≡ print_first (length members.now) members.now printed.old.items) }
{
    for i in 0..members.len() {
        print(printed, &members[i])?;
    }
    Ok(())
}

/// What a member has committed is printed, where that is longer.
fn print(printed: &mut Vec<Entry>, member: &Member) -> Result<(), NoMemory>
    ensures { OnOk result (printed.new.items ≡ longer printed.old.items (take member.now.values.rest.commit member.now.durable.log)) }
{
    let log = member.kept().entries();
    let count = (member.commit() as usize).min(log.len());
    if printed.len() < count {
        printed.clear();
        extend(printed, &log[..count])?;
    }
    Ok(())
}
