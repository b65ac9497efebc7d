// A phase within one call.
ghost use Rattle.std.specs.Prelude.{◌≡◌, ◌-◌, ◌<◌, ◌≤◌, List as ListOf, [], true, take, drop, Ok, OnErr, OnOk, IfErr, IfOk, IsTrue};
ghost use Rattle.cl_base.specs.declared.entry.Entry.{Entry as LogEntry};
ghost use Rattle.commit_counter.specs.Ends.{Fed as FedBy};
ghost use Rattle.consensus_agent.specs.Accepted.{OnFault};
ghost use Rattle.consensus_agent.specs.Consumed.{HasConsumed, outboxes, role_in};
ghost use Rattle.consensus_agent.specs.Phases.{stage};
ghost use Rattle.consensus_agent.specs.Rows.{IsKept};
ghost use Rattle.consensus_agent.specs.Written.{AreWritten, StoppedAmong, phase_snapshots};
ghost use Rattle.owed_egress.specs.Taken.{module_over, sent_over};
ghost use Rattle.run_phases.specs.Grown.{Grew};
ghost use Rattle.run_phases.specs.Logs.{FromToEnd};
ghost use Rattle.service_phases.specs.Pairs.{Each, Each2};
ghost use Rattle.service_phases.specs.Feeds.{FedToEnd, FeedsFrom};
ghost use Rattle.service_phases.specs.Phases.{HasAll, IsWithin};
ghost use Rattle.service_phases.specs.Stages.{IsIdle, IsFeeding};

use cl_base::{Disk, List};
use commit_counter::Feed;
use consensus_agent::{Agent, AgentFault};
use egress::Sent;
use lanes::Lanes;
use service_container::Gate;
use service_phases::{finish_each, have_ended, have_published};
use std::alloc::Global;
use std::sync::Wait;
use std::thread::Threads;

/// Feeds what is due, as far as the queues take it, and publishes the end.
fn drive<R: Wait, D: Disk>(
    rt: &R,
    agent: &Agent<D>,
    feeds: &mut List<Feed>,
) -> Result<(), AgentFault>
    requires feeding { IsFeeding (stage agent.now.services agent.now.module agent.now.core agent.now.over) feeds.old }
    ensures ended { Each2 (FedToEnd (stage agent.now.services agent.now.module agent.now.core agent.now.over).commit) feeds.old feeds.new }
    // What was fed of a log is the log's to the end, where the module has its entries ahead.
    ensures log { (log : ListOf LogEntry) (begun : ListOf FedBy) → agent.now.module.ahead.entries ≡ drop agent.now.module.consumed log → Each2 (FeedsFrom log agent.now.core.values.rest.commit) begun feeds.old → Each2 (FromToEnd log agent.now.core.values.rest.commit) begun feeds.new }
    ensures failed { IfErr result (λ fault. fault ≡ AgentFault.NoMemory) }
{
    let fed = agent.feed(rt, feeds);
    finish_each(feeds.as_mut_slice());
    fed?;
    Ok(())
}

/// A whole phase: each service consumes exactly what the member has committed, on the thread of its lane or, where that
/// thread hasn't begun when all is fed, here, and the phase ends. Where nothing is due no thread is started and none is
/// woken. More entries than a queue holds go by several images, one after the other. Gives the records that go out. Where
/// feeding fails the phase is dropped, and the caller stops the agent.
pub fn run_phase<
    R: Threads + Wait + Copy + Send + Sync + 'static,
    D: Disk,
    G: Gate + Send + Sync + 'static,
>(
    rt: &R,
    alloc: Global,
    agent: &mut Agent<D>,
    lanes: &mut Lanes<G>,
) -> Result<List<Sent>, AgentFault>
    requires idle { IsIdle (stage agent.old.services agent.old.module agent.old.core agent.old.over) }
    requires none { lanes.old ≡ [] }
    ensures idle { OnOk result (IsIdle (stage agent.new.services agent.new.module agent.new.core agent.new.over)) }
    ensures none { lanes.new ≡ [] }
    // Where nothing is due nothing is done.
    ensures rests { agent.old.core.values.rest.commit ≤ agent.old.module.consumed → (result ≡ Ok []) × (agent.new ≡ agent.old) }
    // Each container came back, and consumed what it did since its outbox was emptied.
    ensures back { agent.new.services.lent ≡ [] }
    ensures grew { agent.old.module.consumed < agent.old.core.values.rest.commit → Each2 Grew agent.old.services.kept agent.new.services.kept }
    // What each service consumed is the log's within the commit, and in the end all of it.
    ensures within { (log : ListOf LogEntry) → agent.old.module.ahead.entries ≡ drop agent.old.module.consumed log → Each (IsWithin log agent.old.core.values.rest.commit) agent.old.services.kept → Each (IsWithin log agent.old.core.values.rest.commit) agent.new.services.kept }
    ensures all { (log : ListOf LogEntry) → agent.old.module.ahead.entries ≡ drop agent.old.module.consumed log → Each (IsWithin log agent.old.core.values.rest.commit) agent.old.services.kept → OnOk result (Each (HasAll log agent.old.core.values.rest.commit) agent.new.services.kept) }
    // The module takes the entries ahead up to the commit, each with what the services ask at it by their outboxes.
    ensures state { OnOk result (agent.new.module.state ≡ module_over (outboxes agent.new.services.kept) agent.old.module.consumed agent.old.module.state (take (agent.old.core.values.rest.commit - agent.old.module.consumed) agent.old.module.ahead.events)) }
    ensures ahead { OnOk result (agent.new.module.ahead.entries ≡ drop (agent.old.core.values.rest.commit - agent.old.module.consumed) agent.old.module.ahead.entries) }
    ensures events { OnOk result (agent.new.module.ahead.events ≡ drop (agent.old.core.values.rest.commit - agent.old.module.consumed) agent.old.module.ahead.events) }
    ensures rest { OnOk result (HasConsumed agent.old.module agent.new.module) }
    // What they owe is given, one entry after the other, by what the member was as the phase began.
    ensures owed { IfOk result (λ sent. sent ≡ sent_over (role_in agent.old.core.values) (outboxes agent.new.services.kept) agent.old.module.consumed agent.old.module.state (take (agent.old.core.values.rest.commit - agent.old.module.consumed) agent.old.module.ahead.events)) }
    // Of each snapshot action among these entries the services' snapshots are written, and then the module's.
    ensures written { OnOk result (AreWritten D.state D.tells D.is_honest (phase_snapshots agent.new.services.kept agent.old.disk.kept.log agent.old.module (agent.old.core.values.rest.commit - agent.old.module.consumed)) agent.old.disk agent.new.disk) }
    ensures stopped { OnErr result (StoppedAmong D.state D.tells D.is_honest (phase_snapshots agent.new.services.kept agent.old.disk.kept.log agent.old.module (agent.old.core.values.rest.commit - agent.old.module.consumed)) agent.old.disk agent.new.disk) }
    // A fault of the disk comes after the services consumed all that is committed.
    ensures failed { (log : ListOf LogEntry) → agent.old.module.ahead.entries ≡ drop agent.old.module.consumed log → Each (IsWithin log agent.old.core.values.rest.commit) agent.old.services.kept → OnFault result (Each (HasAll log agent.old.core.values.rest.commit) agent.new.services.kept) }
    ensures core { agent.new.core ≡ agent.old.core }
    ensures base { agent.new.base ≡ agent.old.base }
    ensures whole { agent.old.module.consumed < agent.old.core.values.rest.commit → OnOk result (IsTrue agent.new.is_whole) }
    ensures durable { IsKept agent.old.disk.kept.node agent.old.disk.kept.log agent.new.disk.kept }
{
    if agent.commit() <= agent.consumed() {
        return Ok(List::new(alloc));
    }
    let (mut feeds, mut jobs) = agent.phase_begin()?;
    for _ in rt.forever() {
        lanes.lend(rt, jobs);
        let fed = drive(rt, agent, &mut feeds);
        let served = lanes.take_back(rt);
        if let Err(fault) = fed {
            agent.phase_drop(rt, feeds, served);
            return Err(fault);
        }
        if !have_ended(served.as_slice()) {
            agent.phase_drop(rt, feeds, served);
            return Err(AgentFault::NoMemory);
        }
        if have_published(feeds.as_slice(), agent.commit()) {
            return agent.phase_end(rt, feeds, served);
        }
        let (next, lent) = agent.next_images(rt, feeds, served)?;
        feeds = next;
        jobs = lent;
    }
    unreachable!()
}
