// What a member does with a client's message, and with a snapshot action.
ghost use Rattle.std.specs.Prelude.{◌≡◌, ◌≤◌, ◌^◌, ◌∷◌, [], true, IsTrue, IfOk, IfSome, OnErr, OnOk};
ghost use Rattle.entry_log.specs.Shape.{end_of, shape_of};
ghost use Rattle.sbe_events.specs.Spelling.{HasSpelling, spelling_of, term_of};
ghost use Rattle.consensus_core.specs.Member.{is_ready as leads};
ghost use Rattle.consensus_core.specs.Reign.{entry_of};
ghost use Rattle.consensus_core.specs.declared.change.Change.TheVariants as Change;
ghost use Rattle.ingress.specs.Decisions.{IsSeen};
ghost use Rattle.member_module.specs.Held.{at_end, latest_of};
ghost use Rattle.consensus_agent.specs.Accepted.{Adds, Decides, DecidesAction, HasMore, HasRoom, HasRoomFor, IsAppended, IsCalm, IsDecided, IsDecidedAction, IsDirect, IsDone, IsTried, IsView, Leaves, OnAppend, OnFault, OnNothingNew, TookAction, TookClient, Tried, UnlessNoMemory};
ghost use Rattle.consensus_agent.specs.Disks.{Done, Went};
ghost use Rattle.consensus_agent.specs.Rows.{IsKept};

use crate::agent::Agent;
use crate::changes::append;
use crate::fault::AgentFault;
use crate::guard::is_admissible;
use cl_base::{Bytes, Disk, Entry, NoMemory};
use egress::{Sent, error, redirect};
use ingress::{Decided, Outcome, View, decide, decide_action};
use sbe_client::{Ingress, decode_ingress};
use sbe_events::{Event, encode_event};
use std::slice::from_ref;
use wire_prims::DecodeFault;

/// An entry of this term, with these bytes.
fn entry_with(term: i64, bytes: Bytes) -> Entry
    ensures term { result.term ≡ term }
    ensures bytes { result.bytes ≡ bytes }
{
    Entry { term, bytes }
}

impl<D: Disk> Agent<D> {
    /// Brings the state at the log's end up, where the member is ready to lead.
    #[tactic(auto, using(crate::proofs::Sounding::kept_sound, crate::proofs::Orders::calm_same, crate::proofs::Orders::calm_of, crate::proofs::Orders::calm_up, crate::proofs::Orders::up_of))]
    fn look(&mut self) -> Result<(), NoMemory>
        ensures services { self.new.services ≡ self.old.services }
        ensures base { self.new.base ≡ self.old.base }
        ensures role { self.new.role ≡ self.old.role }
        ensures calm { IsCalm self.old.module self.new.module }
        ensures up { OnOk result (leads self.old.core.values.election.state ≡ true → latest_of self.new.module.latest self.new.module.state ≡ at_end self.old.module) }
        ensures core { self.new.core ≡ self.old.core }
        ensures over { self.new.over ≡ self.old.over }
        ensures disk { self.new.disk ≡ self.old.disk }
        ensures whole { self.new.is_whole ≡ self.old.is_whole }
    {
        if !self.is_ready() {
            return Ok(());
        }
        self.module.look_ahead()?;
        Ok(())
    }

    /// What decides on an order.
    #[tactic(auto, using(crate::proofs::Views::front_ends, crate::proofs::Views::leads_in))]
    fn view(&self) -> View<'_>
        requires { IsTrue self.now.is_whole }
        ensures seen { IsSeen result }
        ensures is { IsView result self.now.core.values self.now.disk.kept.log (latest_of self.now.module.latest self.now.module.state) }
    {
        let index = self.disk.index();
        View {
            ready: self.is_ready(),
            leader: self.core.leader(),
            term: self.core.term(),
            place: index.place(),
            commit_place: index.end_at(self.core.commit()),
            sessions: self.module.latest().sessions(),
        }
    }

    /// The answer to a connect that was refused, where it gets one.
    fn answer(&self, bytes: &[u8], outcome: &Outcome) -> Result<Option<Sent>, NoMemory>
        ensures { IfOk result (λ r. IfSome r IsDirect) }
    {
        let redirects = match outcome {
            Outcome::NotLeader { .. } => true,
            Outcome::TooLarge { .. }
            | Outcome::SessionLimit
            | Outcome::BackPressure { .. }
            | Outcome::LogFull { .. } => false,
            _ => return Ok(None),
        };
        let (corr, stream) = match decode_ingress(self.alloc, bytes) {
            Ok(Ingress::Connect { corr, stream, .. }) => (corr, stream),
            Err(DecodeFault::NoMemory) => return Err(NoMemory),
            _ => return Ok(None),
        };
        let term = self.core.term();
        let leader = self.core.leader();
        let bytes = if redirects {
            redirect(self.alloc, corr, term, leader)?
        } else {
            error(self.alloc, corr, term, leader)?
        };
        Ok(Some(Sent {
            stream,
            entry: None,
            service: None,
            number: 0,
            bytes,
        }))
    }

    /// Appends an event, and gives the index of its entry. All memory of its own is taken before the change.
    #[tactic(auto, using(crate::proofs::Sounding::kept_sound, crate::proofs::Views::may_append, crate::proofs::Views::appended_sound, crate::proofs::Entries::length_shape))]
    fn append_one(&mut self, event: Event) -> Result<u64, AgentFault>
        requires whole { IsTrue self.old.is_whole }
        requires room { HasRoom self.old.core.values self.old.disk.kept event }
        ensures services { self.new.services ≡ self.old.services }
        ensures base { self.new.base ≡ self.old.base }
        ensures role { self.new.role ≡ self.old.role }
        ensures consumed { self.new.module.consumed ≡ self.old.module.consumed }
        ensures values { self.new.core.values ≡ self.old.core.values }
        ensures over { self.new.over ≡ self.old.over }
        ensures whole { OnOk result (IsTrue self.new.is_whole) }
        ensures appended { IfOk result (λ i. IsAppended i event self.old.disk.kept self.new.disk.kept) }
        ensures more { OnOk result (HasMore event self.old.module self.new.module) }
        ensures went { Went D.state D.tells D.is_honest (Change.Append (entry_of event ∷ [])) self.old.disk self.new.disk }
        ensures done { OnOk result (Done D.state D.tells D.is_honest (Change.Append (entry_of event ∷ [])) self.old.disk self.new.disk) }
        ensures spelled { OnFault result (HasSpelling event) }
        ensures stays { OnErr result (IsKept self.old.disk.kept.node self.old.disk.kept.log self.new.disk.kept) }
        ensures early { OnErr result (IsTrue self.new.is_whole → self.new.disk ≡ self.old.disk) }
    {
        if !is_admissible(&event) {
            return Err(AgentFault::NoMemory);
        }
        let bytes = encode_event(self.alloc, &event)?;
        let term = self.core.term();
        let index = self.disk.index().entries();
        self.module.expect(event)?;
        self.is_whole = false;
        let entry = entry_with(term, bytes);
        append(&mut self.disk, from_ref(&entry))?;
        self.core.on_append(self.disk.index());
        self.module.put(entry);
        self.is_whole = true;
        Ok(index)
    }

    /// What is decided on a client's bytes at `now` (ms).
    fn decided(&self, bytes: &[u8], now: u64) -> Result<Decided, NoMemory>
        requires whole { IsTrue self.now.is_whole }
        requires now { now ≤ 2 ^ 60 }
        ensures { IfOk result (Decides self.now.core.values self.now.disk.kept (latest_of self.now.module.latest self.now.module.state) bytes.now now) }
    {
        let decided = decide(self.alloc, &self.view(), bytes, now)?;
        Ok(decided)
    }

    /// What is decided on an action at `now` (ms).
    fn decided_action(&self, now: u64) -> Decided
        requires whole { IsTrue self.now.is_whole }
        requires now { now ≤ 2 ^ 60 }
        ensures { DecidesAction self.now.core.values self.now.disk.kept (latest_of self.now.module.latest self.now.module.state) now result }
    {
        let actions = self.module.latest().actions();
        decide_action(&self.view(), actions, now)
    }

    /// Does what was decided, and gives the outcome.
    #[tactic(auto, using(crate::proofs::Sounding::kept_sound, crate::proofs::Orders::done_refuse, crate::proofs::Orders::done_alive, crate::proofs::Orders::done_append, crate::proofs::Orders::nothing_new, crate::proofs::Orders::room_for))]
    fn carry_out(&mut self, decided: Decided, now: u64) -> Result<Outcome, AgentFault>
        requires whole { IsTrue self.old.is_whole }
        requires room { HasRoomFor decided self.old.core.values self.old.disk.kept }
        ensures services { self.new.services ≡ self.old.services }
        ensures base { self.new.base ≡ self.old.base }
        ensures role { self.new.role ≡ self.old.role }
        ensures consumed { self.new.module.consumed ≡ self.old.module.consumed }
        ensures values { self.new.core.values ≡ self.old.core.values }
        ensures over { self.new.over ≡ self.old.over }
        ensures whole { OnOk result (IsTrue self.new.is_whole) }
        ensures done { IfOk result (λ o. IsDone decided now o self.old.disk.kept self.new.disk.kept self.old.module self.new.module) }
        ensures adds { OnOk result (OnAppend decided (λ e. Adds D.state D.tells D.is_honest e self.old.disk self.new.disk)) }
        ensures tried { OnFault result (IsTried D.state D.tells D.is_honest decided self.old.disk self.new.disk) }
        ensures stays { OnErr result (IsKept self.old.disk.kept.node self.old.disk.kept.log self.new.disk.kept) }
        ensures early { OnErr result (IsTrue self.new.is_whole → self.new.disk ≡ self.old.disk) }
        ensures untouched { IfOk result (λ o. OnNothingNew o (self.new.disk ≡ self.old.disk)) }
        ensures core { IfOk result (λ o. OnNothingNew o (self.new.core ≡ self.old.core)) }
    {
        match decided {
            Decided::Refuse(outcome) => Ok(outcome),
            Decided::Alive(session) => {
                self.module.keep_alive(session, now)?;
                Ok(Outcome::Alive)
            }
            Decided::Append(event) => {
                let index = self.append_one(event)?;
                Ok(Outcome::Accepted { index })
            }
        }
    }

    /// Takes a client's message at `now` (ms, at most 2^60), and gives the outcome, which is the first row of the table of
    /// outcomes that applies, with the answer that no entry owes. Accepted is where the entry is in the log on the disk, at
    /// that index. All memory is taken before the disk is changed: after an error the disk is as it was, or a call of it
    /// failed and the member is only given up.
    pub fn client(&mut self, bytes: &[u8], now: u64) -> Result<(Outcome, Option<Sent>), AgentFault>
        requires { now ≤ 2 ^ 60 }
        ensures services { self.new.services ≡ self.old.services }
        ensures base { self.new.base ≡ self.old.base }
        ensures role { self.new.role ≡ self.old.role }
        ensures consumed { self.new.module.consumed ≡ self.old.module.consumed }
        ensures values { self.new.core.values ≡ self.old.core.values }
        ensures over { self.new.over ≡ self.old.over }
        ensures whole { OnOk result (IsTrue self.new.is_whole) }
        ensures took { IfOk result (λ r. TookClient D.state D.tells D.is_honest self.old.core.values bytes.now now r.0 self.old.disk self.new.disk self.old.module self.new.module) }
        ensures was_whole { UnlessNoMemory result (IsTrue self.old.is_whole) }
        ensures tried { OnFault result (Tried D.state D.tells D.is_honest (λ w. IsDecided w bytes.now now) self.old.core.values self.old.module self.old.disk self.new.disk) }
        ensures untouched { IfOk result (λ r. OnNothingNew r.0 (self.new.disk ≡ self.old.disk)) }
        ensures core { IfOk result (λ r. OnNothingNew r.0 (self.new.core ≡ self.old.core)) }
        ensures direct { IfOk result (λ r. IfSome r.1 IsDirect) }
        ensures leaves { IfOk result (λ r. Leaves r.0 self.old.core.values.election.term self.old.disk.kept self.new.disk.kept) }
        ensures stays { OnErr result (IsKept self.old.disk.kept.node self.old.disk.kept.log self.new.disk.kept) }
        ensures early { OnErr result (IsTrue self.new.is_whole → self.new.disk ≡ self.old.disk) }
    {
        if !self.is_whole {
            return Err(AgentFault::NoMemory);
        }
        self.look()?;
        let decided = self.decided(bytes, now)?;
        let sent = match &decided {
            Decided::Refuse(outcome) => self.answer(bytes, outcome)?,
            Decided::Alive(_) | Decided::Append(_) => None,
        };
        let outcome = self.carry_out(decided, now)?;
        Ok((outcome, sent))
    }

    /// Takes a snapshot action at `now` (ms, at most 2^60), and gives the outcome, as `client` does.
    pub fn action(&mut self, now: u64) -> Result<Outcome, AgentFault>
        requires { now ≤ 2 ^ 60 }
        ensures services { self.new.services ≡ self.old.services }
        ensures base { self.new.base ≡ self.old.base }
        ensures role { self.new.role ≡ self.old.role }
        ensures consumed { self.new.module.consumed ≡ self.old.module.consumed }
        ensures values { self.new.core.values ≡ self.old.core.values }
        ensures over { self.new.over ≡ self.old.over }
        ensures whole { OnOk result (IsTrue self.new.is_whole) }
        ensures took { IfOk result (λ o. TookAction D.state D.tells D.is_honest self.old.core.values now o self.old.disk self.new.disk self.old.module self.new.module) }
        ensures was_whole { UnlessNoMemory result (IsTrue self.old.is_whole) }
        ensures tried { OnFault result (Tried D.state D.tells D.is_honest (λ w. IsDecidedAction w (at_end self.old.module) now) self.old.core.values self.old.module self.old.disk self.new.disk) }
        ensures untouched { IfOk result (λ o. OnNothingNew o (self.new.disk ≡ self.old.disk)) }
        ensures core { IfOk result (λ o. OnNothingNew o (self.new.core ≡ self.old.core)) }
        ensures leaves { IfOk result (λ o. Leaves o self.old.core.values.election.term self.old.disk.kept self.new.disk.kept) }
        ensures stays { OnErr result (IsKept self.old.disk.kept.node self.old.disk.kept.log self.new.disk.kept) }
        ensures early { OnErr result (IsTrue self.new.is_whole → self.new.disk ≡ self.old.disk) }
    {
        if !self.is_whole {
            return Err(AgentFault::NoMemory);
        }
        self.look()?;
        let decided = self.decided_action(now);
        self.carry_out(decided, now)
    }
}
