// The phases of a running member.
ghost use Rattle.std.specs.Prelude.{◌≡◌, [], true, false, IsTrue, OnOk, IfOk};
ghost use Rattle.consensus_agent.specs.Accepted.{OnFault};
ghost use Rattle.member_phases.specs.Calls.{PhaseCut};
ghost use Rattle.run_phases.specs.Frees.{IsFree, IsGoing};
ghost use Rattle.run_seats.specs.Phased.{PhaseRan};
ghost use Rattle.run_seats.specs.Seen.{stage_of};
ghost use Rattle.service_phases.specs.Feeds.{HasCommit};
ghost use Rattle.service_phases.specs.Pairs.{Each};
ghost use Rattle.service_phases.specs.Stages.{IsIdle};

use crate::member::Member;
use cl_base::{Disk, List, NoMemory};
use consensus_agent::{AgentFault, Fed};
use egress::Sent;
use lanes::Lanes;
use run_phases::{Free, free_begin, free_drop, free_end, free_feed, run_phase};
use service_container::NoGate;
use std::alloc::Global;
use std::sync::Wait;
use std::thread::Threads;

impl<D: Disk> Member<D> {
    /// A whole phase: the services consume what is committed. Gives the records that go out.
    #[tactic(auto, using(crate::proofs::Phasing::phase_fell))]
    pub(crate) fn phase<R: Threads + Wait + Copy + Send + Sync + 'static>(
        &mut self,
        rt: &R,
        alloc: Global,
        lanes: &mut Lanes<NoGate>,
    ) -> Result<List<Sent>, AgentFault>
        requires idle { IsIdle (stage_of self.old) }
        requires none { lanes.old ≡ [] }
        ensures idle { OnOk result (IsIdle (stage_of self.new)) }
        ensures none { lanes.new ≡ [] }
        ensures whole { IsTrue self.old.whole → OnOk result (IsTrue self.new.whole) }
        ensures ran { IsTrue self.old.whole → IfOk result (PhaseRan D.state D.tells D.is_honest self.old.seen self.new.seen) }
        ensures cut { IsTrue self.old.whole → OnFault result (PhaseCut D.state D.tells D.is_honest self.old.seen self.new.seen) }
    {
        run_phase(rt, alloc, &mut self.agent, lanes)
    }

    /// A phase begins that goes on over calls, on these lanes.
    pub(crate) fn begin<R: Threads + Wait + Copy + Send + Sync + 'static>(
        &mut self,
        rt: &R,
        lanes: Lanes<NoGate>,
    ) -> Result<Free<NoGate>, NoMemory>
        requires idle { IsIdle (stage_of self.old) }
        requires none { lanes ≡ [] }
        ensures free { IfOk result (λ p. IsFree (stage_of self.new) p) }
        ensures going { IfOk result (λ p. IsGoing (stage_of self.new) p.feeds) }
        ensures on { IfOk result (λ _. self.new.seen.over ≡ false) }
        ensures whole { self.new.whole ≡ self.old.whole }
    {
        free_begin(rt, &mut self.agent, lanes)
    }

    /// Feeds a phase what is committed. Over exactly where it is over.
    pub(crate) fn feed<R: Threads + Wait + Copy + Send + Sync + 'static>(
        &mut self,
        rt: &R,
        alloc: Global,
        phase: &mut Free<NoGate>,
    ) -> Result<Fed, AgentFault>
        requires free { IsFree (stage_of self.old) phase.old }
        requires going { IsGoing (stage_of self.old) phase.old.feeds }
        ensures free { IsFree (stage_of self.new) phase.new }
        ensures going { OnOk result (IsGoing (stage_of self.new) phase.new.feeds) }
        ensures published { OnOk result (Each (HasCommit self.new.seen.core.values.rest.commit) phase.new.feeds) }
        ensures over { OnOk result (self.new.seen.over ≡ self.old.seen.over) }
        ensures goes_on { IfOk result (λ fed. self.new.seen.over ≡ true → fed ≡ Fed.Over) }
        ensures whole { self.new.whole ≡ self.old.whole }
    {
        free_feed(rt, alloc, &mut self.agent, phase)
    }

    /// A phase ends. Gives the records that go out, and the lanes.
    pub(crate) fn end<R: Threads + Wait + Copy + Send + Sync + 'static>(
        &mut self,
        rt: &R,
        alloc: Global,
        phase: Free<NoGate>,
    ) -> Result<(List<Sent>, Lanes<NoGate>), AgentFault>
        requires free { IsFree (stage_of self.old) phase }
        requires going { IsGoing (stage_of self.old) phase.feeds }
        ensures idle { OnOk result (IsIdle (stage_of self.new)) }
        ensures none { IfOk result (λ p. p.1 ≡ []) }
        ensures whole { OnOk result (IsTrue self.new.whole) }
    {
        free_end(rt, alloc, &mut self.agent, phase)
    }

    /// A phase is dropped.
    pub(crate) fn drop_phase<R: Threads + Wait + Copy + Send + Sync + 'static>(
        &mut self,
        rt: &R,
        phase: Free<NoGate>,
    )
        requires { IsFree (stage_of self.old) phase }
    {
        free_drop(rt, &mut self.agent, phase);
    }
}
