// One member with the echo service, over a log in memory.
ghost use Rattle.std.specs.Prelude.{◌≡◌, ◌≤◌, ◌+◌, ◌^◌, nat_le, if◌then◌else◌};
ghost use Rattle.sbe_events.specs.Spelling.{term_of};

use crate::owing::take_entries;
use crate::places::{end_behind, term_of};
use crate::{Module, OrderLine, Sent};
use cl_base::limits::{LOG_LIMIT, ROUND_MS, STATUS_INTERVAL_MS};
use cl_base::{List, NoMemory};
use election::{Election, ElectionEvent, State};
use entry_log::LogName;
use sbe_events::Event;
use service_api::{Echo, Service};
use std::alloc::Global;

/// One member and its clients while orders are run.
#[derive(Drop)]
pub(crate) struct Run {
    pub(crate) alloc: Global,
    /// In ms.
    pub(crate) clock: u64,
    pub(crate) election: Election,
    pub(crate) log: List<Event>,
    /// The term of the log's last entry, and where the log ends.
    pub(crate) name: LogName,
    /// Where the leader's own new term event ends.
    pub(crate) own_end: u64,
    /// How many entries are committed, and where they end.
    pub(crate) commit: u64,
    pub(crate) commit_place: u64,
    /// How many entries the service has taken.
    pub(crate) consumed: u64,
    pub(crate) echo: Echo,
    /// The module after the entries that were taken, and after the whole log.
    pub(crate) committed: Module,
    pub(crate) tentative: Module,
    pub(crate) sent: List<Sent>,
    pub(crate) told: List<OrderLine>,
    /// How many connects each client has sent.
    pub(crate) connects: [u64; 64],
}

/// The name of a log whose last event is this one, which ends here.
fn name_behind(event: &Event, end: u64) -> LogName
    ensures { result ≡ record { term = term_of event.now; place = end } }
{
    let term = term_of(event);
    LogName { term, place: end }
}

/// When a leader speaks next that was to speak at `next`, in ms.
fn next_word(next: u64, now: u64) -> u64
    requires { now ≤ 2 ^ 48 }
    ensures { result ≡ (if nat_le next now then now + 100 else next) }
{
    if next <= now {
        now + STATUS_INTERVAL_MS
    } else {
        next
    }
}

impl Run {
    ghost use Rattle.std.specs.Prelude.{◌≡◌, ◌++◌, ◌∷◌, [], OnOk, IfOk, ◌≤◌, ◌+◌, ◌*◌, ◌^◌};
    ghost use Rattle.election.specs.declared.member.State.TheVariants.{LeaderInit, LeaderReady};
    ghost use Rattle.sbe_events.specs.Spelling.{HasSpelling};
    ghost use Rattle.echo_run.specs.Driver.{IsKept, member_in, world_of};
    ghost use Rattle.echo_run.specs.Module.{place_of};
    ghost use Rattle.echo_run.specs.World.{first_world, with_member, turn, phase, round, rounds};
    ghost use Rattle.echo_run.specs.LeaderRows.{new_term, appends};

    /// A member on a formatted disk, before any order.
    pub(crate) fn new(alloc: Global) -> Result<Run, NoMemory>
        ensures kept { IfOk result IsKept }
        ensures world { IfOk result (λ r. world_of r ≡ first_world) }
    {
        let echo = Echo::start(alloc)?;
        Ok(Run {
            alloc,
            clock: 0,
            election: Election::new(0, 1, -1, None),
            log: List::new(alloc),
            name: LogName { term: -1, place: 0 },
            own_end: 0,
            commit: 0,
            commit_place: 0,
            consumed: 0,
            echo,
            committed: Module::new(alloc),
            tentative: Module::new(alloc),
            sent: List::new(alloc),
            told: List::new(alloc),
            connects: [0; 64],
        })
    }

    /// Row P19: an entry that ends here is appended.
    pub(crate) fn append(&mut self, event: Event, end: u64) -> Result<(), NoMemory>
        requires kept { IsKept self.old }
        requires spelled { HasSpelling event }
        requires end { end ≡ place_of (self.old.log ++ event ∷ []) }
        requires room { end ≤ 16777216 }
        ensures kept { OnOk result (IsKept self.new) }
        ensures world { OnOk result (world_of self.new ≡ with_member (world_of self.old) (appends (member_in self.old) event)) }
    {
        self.tentative.apply(self.alloc, &event)?;
        self.name = name_behind(&event, end);
        self.log.push(event)
    }

    /// The new term event of the term that the member is to lead.
    fn new_term(&self) -> Event
        requires kept { IsKept self.now }
        requires moment { self.now.clock ≤ 2 ^ 48 }
        ensures { result ≡ new_term (member_in self.now) self.now.clock }
    {
        let place = self.name.place as i64;
        Event::Term {
            term: self.election.term,
            position: place,
            stamp: self.clock as i64,
            base: place,
            leader: self.election.id as i32,
        }
    }

    /// Row P10.
    fn begin_reign(&mut self) -> Result<(), NoMemory>
        requires kept { IsKept self.old }
        requires moment { self.old.clock ≤ 2 ^ 48 }
        requires state { self.old.election.state ≡ LeaderInit }
        ensures kept { OnOk result (IsKept self.new) }
        ensures world { OnOk result (world_of self.new ≡ turn (world_of self.old)) }
    {
        let event = self.new_term();
        let end = end_behind(self.name.place, &event);
        if end > LOG_LIMIT {
            self.election.enter_canvass(self.clock);
            return Ok(());
        }
        let next = self.clock + STATUS_INTERVAL_MS;
        self.append(event, end)?;
        self.own_end = end;
        self.election.state = State::LeaderReady;
        self.election.next = next;
        Ok(())
    }

    /// Row P15: with no others each entry of its log is committed once its own new term event is in it.
    fn lead(&mut self)
        requires kept { IsKept self.old }
        requires moment { self.old.clock ≤ 2 ^ 48 }
        requires state { self.old.election.state ≡ LeaderReady }
        ensures kept { IsKept self.new }
        ensures world { world_of self.new ≡ turn (world_of self.old) }
    {
        self.election.next = next_word(self.election.next, self.clock);
        if self.own_end <= self.name.place {
            self.commit = self.log.len() as u64;
            self.commit_place = self.name.place;
        }
    }

    /// The one row of its state.
    fn turn(&mut self) -> Result<(), NoMemory>
        requires kept { IsKept self.old }
        requires moment { self.old.clock ≤ 2 ^ 48 }
        ensures kept { OnOk result (IsKept self.new) }
        ensures world { OnOk result (world_of self.new ≡ turn (world_of self.old)) }
    {
        match self.election.state {
            State::LeaderInit => self.begin_reign(),
            State::LeaderReady => {
                self.lead();
                Ok(())
            }
            _ => {
                let own = self.name;
                let _ = self.election.step(ElectionEvent::Duty { own }, self.clock);
                Ok(())
            }
        }
    }

    /// The service takes what is committed, and what that owes is sent.
    fn phase(&mut self) -> Result<(), NoMemory>
        requires kept { IsKept self.old }
        ensures kept { OnOk result (IsKept self.new) }
        ensures world { OnOk result (world_of self.new ≡ phase (world_of self.old)) }
    {
        let (from, to) = (self.consumed, self.commit);
        take_entries(
            self.alloc,
            &self.election,
            &mut self.echo,
            &mut self.committed,
            from,
            &self.log.as_slice()[from as usize..to as usize],
            &mut self.sent,
        )?;
        self.consumed = to;
        Ok(())
    }

    /// 10 ms pass, the member has its turn, and then its phase.
    fn round(&mut self) -> Result<(), NoMemory>
        requires kept { IsKept self.old }
        requires moment { self.old.clock + 10 ≤ 2 ^ 48 }
        ensures kept { OnOk result (IsKept self.new) }
        ensures world { OnOk result (world_of self.new ≡ round (world_of self.old)) }
    {
        self.clock += ROUND_MS;
        self.turn()?;
        self.phase()
    }

    /// So many rounds.
    pub(crate) fn rounds(&mut self, count: u64) -> Result<(), NoMemory>
        requires kept { IsKept self.old }
        requires moment { self.old.clock + 10 * count ≤ 2 ^ 48 }
        ensures kept { OnOk result (IsKept self.new) }
        ensures world { OnOk result (world_of self.new ≡ rounds count (world_of self.old)) }
    {
        'each: for done in 0..count {
            self.round()?;
        }
        Ok(())
    }
}
