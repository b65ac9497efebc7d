// Phases that go on beside further calls of the agent.
ghost use Rattle.std.specs.Prelude.{◌≡◌, ◌-◌, ◌≤◌, List as ListOf, [], ◌++◌, length, take, drop, true, false, OnOk, OnErr, IfOk, IsTrue};
ghost use Rattle.cl_base.specs.declared.entry.Entry.{Entry as LogEntry};
ghost use Rattle.consensus_agent.specs.Consumed.{HasConsumed, HaveRising, outboxes, role_in};
ghost use Rattle.consensus_agent.specs.Phases.{stage};
ghost use Rattle.consensus_agent.specs.Rows.{IsKept};
ghost use Rattle.owed_egress.specs.Taken.{module_over, sent_over};
ghost use Rattle.run_phases.specs.Frees.{IsFree, IsGoing};
ghost use Rattle.run_phases.specs.Grown.{CameBack, GoesOn};
ghost use Rattle.run_phases.specs.Logs.{FeedsLog, HoldsLog};
ghost use Rattle.service_phases.specs.Pairs.{Each, Each2};
ghost use Rattle.service_phases.specs.Feeds.{HasCommit, MayFinish, Finishes};
ghost use Rattle.service_phases.specs.Phases.{HasAll, IsWithin, Ran};
ghost use Rattle.service_phases.specs.Stages.{Begins, IsIdle, forgot};

use cl_base::{Disk, List, NoMemory};
use commit_counter::Feed;
use consensus_agent::{Agent, AgentFault, Fed};
use egress::Sent;
use lanes::Lanes;
use service_container::{Gate, Served};
use service_phases::{finish_each, have_ended, have_published};
use std::alloc::Global;
use std::mem;
use std::sync::Wait;
use std::thread::Threads;

/// A free phase: its feeds by service, and the lanes, to which its containers are lent.
#[derive(Drop)]
pub struct Free<G: Gate + Send + Sync + 'static> {
    feeds: List<Feed>,
    lanes: Lanes<G>,
}

impl<G: Gate + Send + Sync + 'static> Free<G> {
    /// The feeds, by service.
    pub fn feeds(&mut self) -> &mut List<Feed> {
        &mut self.feeds
    }

    /// Finishes the images at what was published, and takes the containers back.
    fn come_back<R: Wait>(&mut self, rt: &R) -> List<Served>
        requires finish { Each MayFinish self.old.feeds }
        ensures feeds { Each2 Finishes self.old.feeds self.new.feeds }
        ensures ran { Each2 Ran self.old.lanes result }
        ensures none { self.new.lanes ≡ [] }
    {
        finish_each(self.feeds.as_mut_slice());
        self.lanes.take_back(rt)
    }

    /// The feeds and the lanes.
    fn into_parts(self) -> (List<Feed>, Lanes<G>)
        ensures { (result.0 ≡ self.feeds) × (result.1 ≡ self.lanes) }
    {
        let Free { feeds, lanes } = self;
        (feeds, lanes)
    }
}

/// Begins a free phase on these lanes, to each of which a container is lent. No phase of this agent runs. After NoMemory the
/// lanes are gone.
pub fn free_begin<
    R: Threads + Wait + Copy + Send + Sync + 'static,
    D: Disk,
    G: Gate + Send + Sync + 'static,
>(rt: &R, agent: &mut Agent<D>, lanes: Lanes<G>) -> Result<Free<G>, NoMemory>
    requires idle { IsIdle (stage agent.old.services agent.old.module agent.old.core agent.old.over) }
    requires none { lanes ≡ [] }
    ensures free { IfOk result (λ p. IsFree (stage agent.new.services agent.new.module agent.new.core agent.new.over) p) }
    ensures going { IfOk result (λ p. IsGoing (stage agent.new.services agent.new.module agent.new.core agent.new.over) p.feeds) }
    ensures on { IfOk result (λ _. agent.new.over ≡ false) }
    // The containers are lent with their outboxes emptied.
    ensures begins { IfOk result (λ p. Begins (stage agent.old.services agent.old.module agent.old.core agent.old.over) (stage agent.new.services agent.new.module agent.new.core agent.new.over) p.feeds p.lanes) }
    ensures role { OnOk result (agent.new.role ≡ role_in agent.old.core.values) }
    ensures forgot { OnErr result (agent.new.services ≡ forgot agent.old.services) }
    // What they consumed of a log stays the log's.
    ensures log { (log : ListOf LogEntry) → agent.old.module.consumed ≤ length log → Each (IsWithin log agent.old.core.values.rest.commit) agent.old.services.kept → IfOk result (λ p. FeedsLog log (stage agent.new.services agent.new.module agent.new.core agent.new.over) p.feeds) }
    ensures disk { agent.new.disk ≡ agent.old.disk }
    ensures module { agent.new.module ≡ agent.old.module }
    ensures core { agent.new.core ≡ agent.old.core }
    ensures base { agent.new.base ≡ agent.old.base }
    ensures whole { agent.new.is_whole ≡ agent.old.is_whole }
{
    let mut lanes = lanes;
    let (feeds, jobs) = agent.phase_begin()?;
    lanes.lend(rt, jobs);
    Ok(Free { feeds, lanes })
}

/// New images at what was taken, after queues that were full.
fn go_on<
    R: Threads + Wait + Copy + Send + Sync + 'static,
    D: Disk,
    G: Gate + Send + Sync + 'static,
>(rt: &R, alloc: Global, agent: &mut Agent<D>, phase: &mut Free<G>) -> Result<(), NoMemory>
    requires free { IsFree (stage agent.old.services agent.old.module agent.old.core agent.old.over) phase.old }
    requires going { IsGoing (stage agent.old.services agent.old.module agent.old.core agent.old.over) phase.old.feeds }
    requires on { agent.old.over ≡ false }
    ensures free { IsFree (stage agent.new.services agent.new.module agent.new.core agent.new.over) phase.new }
    ensures going { OnOk result (IsGoing (stage agent.new.services agent.new.module agent.new.core agent.new.over) phase.new.feeds) }
    ensures over { OnOk result (agent.new.over ≡ agent.old.over) }
    ensures grew { Each2 GoesOn agent.old.services.lent (agent.new.services.kept ++ agent.new.services.lent) }
    ensures log { (log : ListOf LogEntry) → FeedsLog log (stage agent.old.services agent.old.module agent.old.core agent.old.over) phase.old.feeds → FeedsLog log (stage agent.new.services agent.new.module agent.new.core agent.new.over) phase.new.feeds }
    ensures within { (log : ListOf LogEntry) → FeedsLog log (stage agent.old.services agent.old.module agent.old.core agent.old.over) phase.old.feeds → Each (IsWithin log agent.old.core.values.rest.commit) agent.new.services.kept }
    ensures disk { agent.new.disk ≡ agent.old.disk }
    ensures module { agent.new.module ≡ agent.old.module }
    ensures core { agent.new.core ≡ agent.old.core }
    ensures base { agent.new.base ≡ agent.old.base }
    ensures role { agent.new.role ≡ agent.old.role }
    ensures whole { agent.new.is_whole ≡ agent.old.is_whole }
{
    let served = phase.come_back(rt);
    let feeds = mem::replace(&mut phase.feeds, List::new(alloc));
    if !have_ended(served.as_slice()) {
        agent.phase_drop(rt, feeds, served);
        return Err(NoMemory);
    }
    let (next, jobs) = agent.next_images(rt, feeds, served)?;
    phase.feeds = next;
    phase.lanes.lend(rt, jobs);
    Ok(())
}

/// Feeds a free phase, after each call of its agent, until every feed has published the agent's commit. Over exactly
/// where the phase is over. After NoMemory the phase is gone.
pub fn free_feed<
    R: Threads + Wait + Copy + Send + Sync + 'static,
    D: Disk,
    G: Gate + Send + Sync + 'static,
>(rt: &R, alloc: Global, agent: &mut Agent<D>, phase: &mut Free<G>) -> Result<Fed, AgentFault>
    requires free { IsFree (stage agent.old.services agent.old.module agent.old.core agent.old.over) phase.old }
    requires going { IsGoing (stage agent.old.services agent.old.module agent.old.core agent.old.over) phase.old.feeds }
    ensures free { IsFree (stage agent.new.services agent.new.module agent.new.core agent.new.over) phase.new }
    ensures going { OnOk result (IsGoing (stage agent.new.services agent.new.module agent.new.core agent.new.over) phase.new.feeds) }
    ensures published { OnOk result (Each (HasCommit (stage agent.new.services agent.new.module agent.new.core agent.new.over).commit) phase.new.feeds) }
    ensures over { OnOk result (agent.new.over ≡ agent.old.over) }
    ensures goes_on { IfOk result (λ fed. agent.new.over ≡ true → fed ≡ Fed.Over) }
    // What the containers of images that ended consumed; after NoMemory they may have come back.
    ensures grew { Each2 GoesOn agent.old.services.lent (agent.new.services.kept ++ agent.new.services.lent) }
    // What was fed and consumed of a log stays the log's, where the module has its entries ahead.
    ensures log { (log : ListOf LogEntry) → agent.old.module.ahead.entries ≡ drop agent.old.module.consumed log → FeedsLog log (stage agent.old.services agent.old.module agent.old.core agent.old.over) phase.old.feeds → FeedsLog log (stage agent.new.services agent.new.module agent.new.core agent.new.over) phase.new.feeds }
    ensures within { (log : ListOf LogEntry) → agent.old.module.ahead.entries ≡ drop agent.old.module.consumed log → FeedsLog log (stage agent.old.services agent.old.module agent.old.core agent.old.over) phase.old.feeds → Each (IsWithin log agent.old.core.values.rest.commit) agent.new.services.kept }
    // In a phase that is over nothing is fed.
    ensures stays { agent.old.over ≡ true → (phase.new.feeds ≡ phase.old.feeds) × (agent.new.services ≡ agent.old.services) }
    ensures disk { agent.new.disk ≡ agent.old.disk }
    ensures module { agent.new.module ≡ agent.old.module }
    ensures core { agent.new.core ≡ agent.old.core }
    ensures base { agent.new.base ≡ agent.old.base }
    ensures role { agent.new.role ≡ agent.old.role }
    ensures whole { agent.new.is_whole ≡ agent.old.is_whole }
{
    for _ in rt.forever() {
        let fed = agent.feed(rt, &mut phase.feeds)?;
        if fed == Fed::Over || have_published(phase.feeds.as_slice(), agent.commit()) {
            return Ok(fed);
        }
        go_on(rt, alloc, agent, phase)?;
    }
    unreachable!()
}

/// Ends a free phase whose feeds have published the commit.
fn end_fed<
    R: Threads + Wait + Copy + Send + Sync + 'static,
    D: Disk,
    G: Gate + Send + Sync + 'static,
>(rt: &R, agent: &mut Agent<D>, phase: Free<G>) -> Result<(List<Sent>, Lanes<G>), AgentFault>
    requires free { IsFree (stage agent.old.services agent.old.module agent.old.core agent.old.over) phase }
    requires going { IsGoing (stage agent.old.services agent.old.module agent.old.core agent.old.over) phase.feeds }
    requires published { Each (HasCommit agent.old.core.values.rest.commit) phase.feeds }
    ensures idle { OnOk result (IsIdle (stage agent.new.services agent.new.module agent.new.core agent.new.over)) }
    ensures none { IfOk result (λ p. p.1 ≡ []) }
    // Each container came back, with what it consumed since it was lent.
    ensures back { agent.new.services.lent ≡ [] }
    ensures grew { Each2 GoesOn agent.old.services.lent agent.new.services.kept }
    ensures within { (log : ListOf LogEntry) → HoldsLog log (stage agent.old.services agent.old.module agent.old.core agent.old.over) phase.feeds → Each (IsWithin log agent.old.core.values.rest.commit) agent.new.services.kept }
    ensures all { (log : ListOf LogEntry) → HoldsLog log (stage agent.old.services agent.old.module agent.old.core agent.old.over) phase.feeds → OnOk result (Each (HasAll log agent.old.core.values.rest.commit) agent.new.services.kept) }
    // The module takes the entries ahead up to the commit, each with what the services ask at it by their outboxes.
    ensures state { HaveRising agent.new.services.kept → OnOk result (agent.new.module.state ≡ module_over (outboxes agent.new.services.kept) agent.old.module.consumed agent.old.module.state (take (agent.old.core.values.rest.commit - agent.old.module.consumed) agent.old.module.ahead.events)) }
    ensures ahead { OnOk result (agent.new.module.ahead.entries ≡ drop (agent.old.core.values.rest.commit - agent.old.module.consumed) agent.old.module.ahead.entries) }
    ensures rest { OnOk result (HasConsumed agent.old.module agent.new.module) }
    // What they owe is given, one entry after the other, by what the member was as the phase began.
    ensures owed { HaveRising agent.new.services.kept → IfOk result (λ p. p.0 ≡ sent_over agent.old.role (outboxes agent.new.services.kept) agent.old.module.consumed agent.old.module.state (take (agent.old.core.values.rest.commit - agent.old.module.consumed) agent.old.module.ahead.events)) }
    ensures core { agent.new.core ≡ agent.old.core }
    ensures base { agent.new.base ≡ agent.old.base }
    ensures whole { OnOk result (IsTrue agent.new.is_whole) }
    ensures durable { IsKept agent.old.disk.kept.node agent.old.disk.kept.log agent.new.disk.kept }
{
    let mut phase = phase;
    let served = phase.come_back(rt);
    let (feeds, lanes) = phase.into_parts();
    if !have_ended(served.as_slice()) {
        agent.phase_drop(rt, feeds, served);
        return Err(AgentFault::NoMemory);
    }
    let records = agent.phase_end(rt, feeds, served)?;
    Ok((records, lanes))
}

/// Ends a free phase: each service consumes exactly what the member has committed. Gives the records that go out, and the
/// lanes. Where feeding fails the phase is dropped, the lanes are gone, and the caller stops the agent.
pub fn free_end<
    R: Threads + Wait + Copy + Send + Sync + 'static,
    D: Disk,
    G: Gate + Send + Sync + 'static,
>(
    rt: &R,
    alloc: Global,
    agent: &mut Agent<D>,
    phase: Free<G>,
) -> Result<(List<Sent>, Lanes<G>), AgentFault>
    requires free { IsFree (stage agent.old.services agent.old.module agent.old.core agent.old.over) phase }
    requires going { IsGoing (stage agent.old.services agent.old.module agent.old.core agent.old.over) phase.feeds }
    ensures idle { OnOk result (IsIdle (stage agent.new.services agent.new.module agent.new.core agent.new.over)) }
    ensures none { IfOk result (λ p. p.1 ≡ []) }
    // Each container came back, with what it consumed since it was lent.
    ensures back { agent.new.services.lent ≡ [] }
    ensures grew { Each2 GoesOn agent.old.services.lent agent.new.services.kept }
    // What each service consumed of a log is the log's within the commit, and in the end all of it: where the module has its
    // entries ahead, and where the phase is over and the log was cut.
    ensures within { (log : ListOf LogEntry) → agent.old.module.ahead.entries ≡ drop agent.old.module.consumed log → FeedsLog log (stage agent.old.services agent.old.module agent.old.core agent.old.over) phase.feeds → Each (IsWithin log agent.old.core.values.rest.commit) agent.new.services.kept }
    ensures all { (log : ListOf LogEntry) → agent.old.module.ahead.entries ≡ drop agent.old.module.consumed log → FeedsLog log (stage agent.old.services agent.old.module agent.old.core agent.old.over) phase.feeds → OnOk result (Each (HasAll log agent.old.core.values.rest.commit) agent.new.services.kept) }
    ensures over_within { (log : ListOf LogEntry) → agent.old.over ≡ true → HoldsLog log (stage agent.old.services agent.old.module agent.old.core agent.old.over) phase.feeds → Each (IsWithin log agent.old.core.values.rest.commit) agent.new.services.kept }
    ensures over_all { (log : ListOf LogEntry) → agent.old.over ≡ true → HoldsLog log (stage agent.old.services agent.old.module agent.old.core agent.old.over) phase.feeds → OnOk result (Each (HasAll log agent.old.core.values.rest.commit) agent.new.services.kept) }
    // The module takes the entries ahead up to the commit, each with what the services ask at it by their outboxes.
    ensures state { HaveRising agent.new.services.kept → OnOk result (agent.new.module.state ≡ module_over (outboxes agent.new.services.kept) agent.old.module.consumed agent.old.module.state (take (agent.old.core.values.rest.commit - agent.old.module.consumed) agent.old.module.ahead.events)) }
    ensures ahead { OnOk result (agent.new.module.ahead.entries ≡ drop (agent.old.core.values.rest.commit - agent.old.module.consumed) agent.old.module.ahead.entries) }
    ensures rest { OnOk result (HasConsumed agent.old.module agent.new.module) }
    // What they owe is given, one entry after the other, by what the member was as the phase began.
    ensures owed { HaveRising agent.new.services.kept → IfOk result (λ p. p.0 ≡ sent_over agent.old.role (outboxes agent.new.services.kept) agent.old.module.consumed agent.old.module.state (take (agent.old.core.values.rest.commit - agent.old.module.consumed) agent.old.module.ahead.events)) }
    ensures core { agent.new.core ≡ agent.old.core }
    ensures base { agent.new.base ≡ agent.old.base }
    ensures whole { OnOk result (IsTrue agent.new.is_whole) }
    ensures durable { IsKept agent.old.disk.kept.node agent.old.disk.kept.log agent.new.disk.kept }
{
    let mut phase = phase;
    if let Err(fault) = free_feed(rt, alloc, agent, &mut phase) {
        free_drop(rt, agent, phase);
        return Err(fault);
    }
    end_fed(rt, agent, phase)
}

/// Drops a free phase at a stop: the services consume what was published, nothing is sent, the lanes' threads end, and the
/// caller stops the agent.
pub fn free_drop<
    R: Threads + Wait + Copy + Send + Sync + 'static,
    D: Disk,
    G: Gate + Send + Sync + 'static,
>(rt: &R, agent: &mut Agent<D>, phase: Free<G>)
    requires free { IsFree (stage agent.old.services agent.old.module agent.old.core agent.old.over) phase }
    // Each container came back, with what it consumed since it was lent, and that is the log's within the commit.
    ensures back { CameBack agent.old.services agent.new.services }
    ensures within { (log : ListOf LogEntry) → HoldsLog log (stage agent.old.services agent.old.module agent.old.core agent.old.over) phase.feeds → Each (IsWithin log agent.old.core.values.rest.commit) agent.old.services.kept → Each (IsWithin log agent.old.core.values.rest.commit) agent.new.services.kept }
    ensures disk { agent.new.disk ≡ agent.old.disk }
    ensures module { agent.new.module ≡ agent.old.module }
    ensures core { agent.new.core ≡ agent.old.core }
    ensures base { agent.new.base ≡ agent.old.base }
    ensures role { agent.new.role ≡ agent.old.role }
    ensures over { agent.new.over ≡ agent.old.over }
    ensures whole { agent.new.is_whole ≡ agent.old.is_whole }
{
    let mut phase = phase;
    let served = phase.come_back(rt);
    let (feeds, lanes) = phase.into_parts();
    agent.phase_drop(rt, feeds, served);
    lanes.close(rt);
}
