// A running member whose phase goes on over its calls.
ghost use Rattle.std.specs.Prelude.{IsTrue, IfOk};
ghost use Rattle.cluster_backup.specs.Spelling.{HasSpelling};
ghost use Rattle.run_phases.specs.Frees.{IsFree, IsGoing};
ghost use Rattle.run_seats.specs.Seen.{IsLooked, stage_of};

use crate::asking::Call;
use crate::idle::Idle;
use crate::member::Member;
use crate::stopped::Failed;
use cl_base::{Bytes, Disk, List};
use cluster_backup::BackupPacket;
use consensus_agent::Fed;
use ingress::Outcome;
use run_outside::Outside;
use run_phases::Free;
use service_container::NoGate;
use std::alloc::Global;
use std::marker::Model;
use std::sync::Wait;
use std::thread::Threads;

/// A running member whose phase goes on over its calls. All that it has committed is published, and no call failed.
/// Contracts see of it what stands to the world of a run.
#[derive(Drop)]
pub(crate) struct Going<D: Disk> {
    pub(crate) member: Member<D>,
    pub(crate) phase: Free<NoGate>,
}

impl<D: Disk> Model for Going<D> {
    ghost use Rattle.std.specs.Prelude.{IsTrue};
    ghost use Rattle.run_orders.specs.Stands.{UpSeen};
    ghost use Rattle.run_seats.specs.Going.{GoesOn};
    ghost use Rattle.run_seats.specs.Seen.{stage_of};

    ghost Value = { UpSeen D };

    ghost view = { λ m. m.member.seen };

    ghost invariant = { λ m. GoesOn (stage_of m.member) m.phase × IsTrue m.member.whole };
}

/// Feeds a phase what is committed. One that is over ends, its records are sent, and another begins.
fn feed<R: Threads + Wait + Copy + Send + Sync + 'static, D: Disk>(
    rt: &R,
    outside: &mut Outside,
    member: Member<D>,
    phase: Free<NoGate>,
) -> Result<Going<D>, Failed<D>>
    requires free { IsFree (stage_of member) phase }
    requires going { IsGoing (stage_of member) phase.feeds }
    requires whole { IsTrue member.whole }
{
    let mut member = member;
    let mut phase = phase;
    match member.feed(rt, outside.alloc, &mut phase) {
        Ok(Fed::Over) => end(rt, outside, member, phase)?.begin(rt, outside.alloc),
        Ok(Fed::All | Fed::Full) => Ok(Going { member, phase }),
        Err(fault) => {
            member.drop_phase(rt, phase);
            Err(Failed { member, fault })
        }
    }
}

/// A phase ends, and its records are sent.
fn end<R: Threads + Wait + Copy + Send + Sync + 'static, D: Disk>(
    rt: &R,
    outside: &mut Outside,
    member: Member<D>,
    phase: Free<NoGate>,
) -> Result<Idle<D>, Failed<D>>
    requires free { IsFree (stage_of member) phase }
    requires going { IsGoing (stage_of member) phase.feeds }
    requires whole { IsTrue member.whole }
{
    let mut member = member;
    match member.end(rt, outside.alloc, phase) {
        Ok((records, lanes)) => Idle { member, lanes }.send(outside, records),
        Err(fault) => Err(Failed { member, fault }),
    }
}

impl<D: Disk> Going<D> {
    /// Calls the member, and feeds its phase what the call left.
    pub(crate) fn ask<R: Threads + Wait + Copy + Send + Sync + 'static>(
        self,
        rt: &R,
        outside: &mut Outside,
        call: Call<'_>,
    ) -> Result<(Going<D>, Option<Outcome>), Failed<D>> {
        let Going { member, phase } = self;
        let mut member = member;
        match member.ask(outside, call) {
            Ok(outcome) => {
                let going = feed(rt, outside, member, phase)?;
                Ok((going, outcome))
            }
            Err(fault) => {
                member.drop_phase(rt, phase);
                Err(Failed { member, fault })
            }
        }
    }

    /// Answers a backup's packet.
    pub(crate) fn answer<R: Threads + Wait + Copy + Send + Sync + 'static>(
        self,
        rt: &R,
        alloc: Global,
        query: &BackupPacket,
    ) -> Result<(Going<D>, List<Bytes>), Failed<D>>
        requires { HasSpelling query.now }
        ensures { IfOk result (λ r. IsLooked self r.0) }
    {
        let Going { member, phase } = self;
        let mut member = member;
        match member.answer(alloc, query) {
            Ok(packets) => Ok((Going { member, phase }, packets)),
            Err(fault) => {
                member.drop_phase(rt, phase);
                Err(Failed { member, fault })
            }
        }
    }

    /// The phase ends, and its records are sent.
    pub(crate) fn end<R: Threads + Wait + Copy + Send + Sync + 'static>(
        self,
        rt: &R,
        outside: &mut Outside,
    ) -> Result<Idle<D>, Failed<D>> {
        let Going { member, phase } = self;
        end(rt, outside, member, phase)
    }
}
