// The phases of a member, in which its services consume what is committed.
ghost use Rattle.std.specs.Prelude.{◌≡◌, true, Ok, ℕ, ◌+◌, ◌-◌, ◌<◌, ◌≤◌, ◌^◌, List as ListOf, [], ◌++◌, length, take, drop, slice_get, IsTrue, IfErr, IfOk, OnErr, OnOk};
ghost use Rattle.commit_counter.specs.Ends.{Fed as FedBy};
ghost use Rattle.entry_log.specs.Log.{Log};
ghost use Rattle.owed_egress.specs.Taken.{module_over, sent_over};
ghost use Rattle.service_phases.specs.Pairs.{Each, Each2};
ghost use Rattle.service_phases.specs.Feeds.{FedOn, FeedEnds, FeedsFrom, HasCommit, IsFed};
ghost use Rattle.service_phases.specs.Phases.{Began, Closed, HasAll, HasEndedWell, IsAt, IsWithin, containers, keeping};
ghost use Rattle.service_phases.specs.Stages.{Begins, HasRun, IsFeeding, IsIdle, forgot};
ghost use Rattle.consensus_agent.specs.Phases.{stage};
ghost use Rattle.consensus_agent.specs.Rows.{IsKept};
ghost use Rattle.consensus_agent.specs.Written.{AreWritten, StoppedAmong, phase_snapshots};
ghost use Rattle.consensus_agent.specs.Consumed.{HasConsumed, HaveRising, inputs_of, outboxes, role_in};

use crate::agent::Agent;
use crate::fault::AgentFault;
use cl_base::{Disk, Entry, List, NoMemory};
use commit_counter::{Feed, Role};
use egress::Sent;
use service_container::Served;
use service_phases::{Services, feed_each, publish_each};
use std::sync::Wait;

/// How far the services were fed.
#[derive(Clone, Copy, Debug, PartialEq, Eq)]
pub enum Fed {
    /// Every feed holds the log to its end.
    All,
    /// A feed's queue was full.
    Full,
    /// The phase is over: since it began the log was cut, or the member became ready to lead. Nothing was pushed or
    /// published.
    Over,
}

/// Feeds each service with these entries of the log, the first of which has the index `first`, and publishes what is
/// committed. True where each queue took all of them.
#[tactic(auto, using(crate::proofs::Phasing::all_fed, crate::proofs::Phasing::all_reached, crate::proofs::Phasing::all_running, crate::proofs::Consuming::all_from))]
fn feed_all<R: Wait>(
    rt: &R,
    feeds: &mut [Feed],
    first: u64,
    entries: &[Entry],
    commit: u64,
) -> Result<bool, NoMemory>
    requires fed { Each (IsFed first commit) feeds.old }
    requires bound { first + length entries.now < 2 ^ 62 }
    requires commit { commit < 2 ^ 62 }
    ensures fed { Each (IsFed first commit) feeds.new }
    ensures on { Each2 (FedOn commit) feeds.old feeds.new }
    // What was fed of a log stays the log's, where these are its entries from the first on.
    ensures log { (log : Log) (begun : ListOf FedBy) → entries.now ≡ drop first log → Each2 (FeedsFrom log commit) begun feeds.old → Each2 (FeedsFrom log commit) begun feeds.new }
{
    let all = feed_each(rt, feeds, first, entries);
    publish_each(feeds, commit);
    all
}

/// Begins an image for each service, whose outbox is emptied.
#[tactic(auto, using(crate::proofs::Phasing::all_ready))]
fn begin_all(
    services: &mut Services,
    role: Role,
    first: u64,
) -> Result<(List<Feed>, List<Served>), NoMemory>
    requires kept { Each (IsAt first) services.old.kept }
    requires bound { first < 2 ^ 62 }
    ensures began { IfOk result (λ p. Began (forgot services.old) services.new p.0 p.1) }
    ensures forgot { OnErr result (services.new ≡ forgot services.old) }
{
    services.forget_outboxes();
    services.begin(role)
}

impl<D: Disk> Agent<D> {
    /// Whether something is committed that wasn't consumed. No phase runs.
    pub fn is_due(&self) -> bool {
        self.module.consumed() < self.core.commit()
    }

    /// The entries that a service consumed since the mount, in order; none where there is no such service, or its
    /// container is lent to a phase.
    pub fn inputs(&self, service: u8) -> &[Entry]
        ensures { result.now ≡ inputs_of (slice_get self.now.services.kept service) }
    {
        match self.services.containers().get(service as usize) {
            Some(container) => container.inputs(),
            None => &[],
        }
    }

    /// Begins a phase: an image for each service, from what it consumed on. No phase runs.
    pub fn phase_begin(&mut self) -> Result<(List<Feed>, List<Served>), NoMemory>
        requires { IsIdle (stage self.old.services self.old.module self.old.core self.old.over) }
        ensures begun { IfOk result (λ p. Begins (stage self.old.services self.old.module self.old.core self.old.over) (stage self.new.services self.new.module self.new.core self.new.over) p.0 p.1) }
        ensures role { OnOk result (self.new.role ≡ role_in self.old.core.values) }
        ensures forgot { OnErr result (self.new.services ≡ forgot self.old.services) }
        ensures disk { self.new.disk ≡ self.old.disk }
        ensures module { self.new.module ≡ self.old.module }
        ensures core { self.new.core ≡ self.old.core }
        ensures base { self.new.base ≡ self.old.base }
        ensures whole { self.new.is_whole ≡ self.old.is_whole }
    {
        let role = if self.is_ready() {
            Role::Leader {
                term: self.core.term(),
            }
        } else {
            Role::Follower
        };
        let begun = begin_all(&mut self.services, role, self.module.consumed())?;
        self.role = role;
        self.over = false;
        Ok(begun)
    }

    /// Pushes the log to each feed of the phase, and publishes what is committed.
    #[tactic(auto, using(crate::proofs::Phasing::all_same, crate::proofs::Sounding::short_ahead))]
    pub fn feed<R: Wait>(&self, rt: &R, feeds: &mut List<Feed>) -> Result<Fed, AgentFault>
        requires phase { IsFeeding (stage self.now.services self.now.module self.now.core self.now.over) feeds.old }
        ensures phase { IsFeeding (stage self.now.services self.now.module self.now.core self.now.over) feeds.new }
        ensures on { Each2 (FedOn self.now.core.values.rest.commit) feeds.old feeds.new }
        ensures over { result ≡ Ok Fed.Over → self.now.over ≡ true }
        ensures goes_on { IfOk result (λ fed. self.now.over ≡ true → fed ≡ Fed.Over) }
        // What was fed of a log stays the log's, where the module has its entries ahead; in a phase that is over nothing is fed.
        ensures log { (log : Log) (begun : ListOf FedBy) → self.now.module.ahead.entries ≡ drop self.now.module.consumed log → Each2 (FeedsFrom log self.now.core.values.rest.commit) begun feeds.old → Each2 (FeedsFrom log self.now.core.values.rest.commit) begun feeds.new }
        ensures stays { self.now.over ≡ true → feeds.new ≡ feeds.old }
        ensures failed { IfErr result (λ fault. fault ≡ AgentFault.NoMemory) }
    {
        if self.over {
            return Ok(Fed::Over);
        }
        if !self.is_whole {
            return Err(AgentFault::NoMemory);
        }
        let _entries = self.disk.index().entries();
        let first = self.module.consumed();
        let ahead = self.module.ahead();
        let commit = self.core.commit();
        let all = feed_all(rt, feeds.as_mut_slice(), first, ahead, commit)?;
        Ok(if all { Fed::All } else { Fed::Full })
    }

    /// Closes the images of a phase whose services all ended, and begins new ones of the same role at what was taken.
    pub fn next_images<R: Wait>(
        &mut self,
        rt: &R,
        feeds: List<Feed>,
        served: List<Served>,
    ) -> Result<(List<Feed>, List<Served>), NoMemory>
        requires run { HasRun (stage self.old.services self.old.module self.old.core self.old.over) feeds served }
        requires kept { self.old.services.kept ≡ [] }
        requires ended { Each HasEndedWell served }
        requires bound { Each (λ f. f.commit < 2 ^ 62) feeds }
        ensures closed { Each2 Closed feeds served }
        // What each service consumed is the log's, within its commit.
        ensures within { (log : Log) (commit : ℕ) → Each (IsWithin log commit) self.old.services.lent → Each2 (FeedEnds log commit) self.old.services.begun feeds → Each (IsWithin log commit) (containers served) }
        ensures began { IfOk result (λ p. Began (keeping served) self.new.services p.0 p.1) }
        ensures kept { OnErr result (self.new.services ≡ keeping served) }
        ensures disk { self.new.disk ≡ self.old.disk }
        ensures module { self.new.module ≡ self.old.module }
        ensures core { self.new.core ≡ self.old.core }
        ensures base { self.new.base ≡ self.old.base }
        ensures role { self.new.role ≡ self.old.role }
        ensures over { self.new.over ≡ self.old.over }
        ensures whole { self.new.is_whole ≡ self.old.is_whole }
        ensures none { OnErr result (self.new.services.lent ≡ []) }
    {
        self.services.next_images(rt, self.role, feeds, served)
    }

    /// Ends a phase whose feeds were finished at the commit and whose services all ended: the module takes what is
    /// committed, snapshots are written, and what the phase's entries owe to clients is given.
    pub fn phase_end<R: Wait>(
        &mut self,
        rt: &R,
        feeds: List<Feed>,
        served: List<Served>,
    ) -> Result<List<Sent>, AgentFault>
        requires run { HasRun (stage self.old.services self.old.module self.old.core self.old.over) feeds served }
        requires kept { self.old.services.kept ≡ [] }
        requires commit { Each (HasCommit self.old.core.values.rest.commit) feeds }
        requires ended { Each HasEndedWell served }
        requires place { self.old.module.consumed ≤ self.old.core.values.rest.commit }
        requires bound { self.old.core.values.rest.commit < 2 ^ 62 }
        ensures idle { OnOk result (IsIdle (stage self.new.services self.new.module self.new.core self.new.over)) }
        ensures kept { self.new.services ≡ record { kept = containers served; lent = []; begun = [] } }
        // Each service consumed all of the log up to the commit, where that was published of it.
        ensures all { (log : Log) → Each (IsWithin log self.old.core.values.rest.commit) self.old.services.lent → Each2 (FeedEnds log self.old.core.values.rest.commit) self.old.services.begun feeds → Each (HasAll log self.old.core.values.rest.commit) (containers served) }
        // The module takes the entries ahead up to the commit, each with what the services ask at it by their outboxes.
        ensures state { HaveRising (containers served) → OnOk result (self.new.module.state ≡ module_over (outboxes (containers served)) self.old.module.consumed self.old.module.state (take (self.old.core.values.rest.commit - self.old.module.consumed) self.old.module.ahead.events)) }
        ensures ahead { OnOk result (self.new.module.ahead.entries ≡ drop (self.old.core.values.rest.commit - self.old.module.consumed) self.old.module.ahead.entries) }
        ensures events { OnOk result (self.new.module.ahead.events ≡ drop (self.old.core.values.rest.commit - self.old.module.consumed) self.old.module.ahead.events) }
        ensures rest { OnOk result (HasConsumed self.old.module self.new.module) }
        // What they owe is given, one entry after the other.
        ensures owed { HaveRising (containers served) → IfOk result (λ sent. sent ≡ sent_over self.old.role (outboxes (containers served)) self.old.module.consumed self.old.module.state (take (self.old.core.values.rest.commit - self.old.module.consumed) self.old.module.ahead.events)) }
        // Of each action among these entries the services' snapshots are written, and then the module's.
        ensures written { HaveRising (containers served) → OnOk result (AreWritten D.state D.tells D.is_honest (phase_snapshots (containers served) self.old.disk.kept.log self.old.module (self.old.core.values.rest.commit - self.old.module.consumed)) self.old.disk self.new.disk) }
        ensures stopped { HaveRising (containers served) → OnErr result (StoppedAmong D.state D.tells D.is_honest (phase_snapshots (containers served) self.old.disk.kept.log self.old.module (self.old.core.values.rest.commit - self.old.module.consumed)) self.old.disk self.new.disk) }
        ensures core { self.new.core ≡ self.old.core }
        ensures base { self.new.base ≡ self.old.base }
        ensures whole { OnOk result (IsTrue self.new.is_whole) }
        ensures durable { IsKept self.old.disk.kept.node self.old.disk.kept.log self.new.disk.kept }
    {
        self.services.end(rt, feeds, served);
        let sent = self.consume()?;
        Ok(sent)
    }

    /// Ends a phase of a member that is then stopped: the services are kept for `inputs`, and nothing else is done.
    pub fn phase_drop<R: Wait>(&mut self, rt: &R, feeds: List<Feed>, served: List<Served>)
        requires run { HasRun (stage self.old.services self.old.module self.old.core self.old.over) feeds served }
        ensures lent { self.new.services.lent ≡ [] }
        ensures kept { self.new.services ≡ record { kept = self.old.services.kept ++ containers served; lent = []; begun = [] } }
        // What each service consumed is the log's, within its commit.
        ensures within { (log : Log) (commit : ℕ) → Each (IsWithin log commit) self.old.services.lent → Each2 (FeedEnds log commit) self.old.services.begun feeds → Each (IsWithin log commit) (containers served) }
        ensures disk { self.new.disk ≡ self.old.disk }
        ensures module { self.new.module ≡ self.old.module }
        ensures core { self.new.core ≡ self.old.core }
        ensures base { self.new.base ≡ self.old.base }
        ensures role { self.new.role ≡ self.old.role }
        ensures over { self.new.over ≡ self.old.over }
        ensures whole { self.new.is_whole ≡ self.old.is_whole }
    {
        self.services.end(rt, feeds, served);
    }
}
