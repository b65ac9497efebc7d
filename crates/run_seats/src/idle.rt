// A running member between its phases.
ghost use Rattle.std.specs.Prelude.{◌≡◌, [], IsTrue, IfOk, IfErr, OnOk};
ghost use Rattle.cluster_backup.specs.Spelling.{HasSpelling};
ghost use Rattle.member_phases.specs.Calls.{PhaseCut};
ghost use Rattle.run_outside.specs.Gives.{with_records};
ghost use Rattle.run_seats.specs.Asked.{Asked, Cut};
ghost use Rattle.run_seats.specs.Failed.{IfFailed};
ghost use Rattle.run_seats.specs.Phased.{Phased};
ghost use Rattle.run_seats.specs.Seen.{IsLooked, stage_of};
ghost use Rattle.service_phases.specs.Stages.{IsIdle};

use crate::asking::Call;
use crate::going::Going;
use crate::member::Member;
use crate::stopped::Failed;
use cl_base::{Bytes, Disk, List, NoMemory};
use cluster_backup::BackupPacket;
use consensus_agent::AgentFault;
use egress::Sent;
use ingress::Outcome;
use lanes::Lanes;
use run_outside::Outside;
use service_container::NoGate;
use std::alloc::Global;
use std::marker::Model;
use std::sync::Wait;
use std::thread::Threads;

/// A running member of which no phase runs, and no call failed. Contracts see of it what stands to the world of a run.
#[derive(Drop)]
pub(crate) struct Idle<D: Disk> {
    pub(crate) member: Member<D>,
    /// The threads of its services.
    pub(crate) lanes: Lanes<NoGate>,
}

impl<D: Disk> Model for Idle<D> {
    ghost use Rattle.std.specs.Prelude.{◌≡◌, [], IsTrue};
    ghost use Rattle.run_orders.specs.Stands.{UpSeen};
    ghost use Rattle.run_seats.specs.Seen.{stage_of};
    ghost use Rattle.service_phases.specs.Stages.{IsIdle};

    ghost Value = { UpSeen D };

    ghost view = { λ m. m.member.seen };

    ghost invariant = { λ m. IsIdle (stage_of m.member) × IsTrue m.member.whole × (m.lanes ≡ []) };
}

impl<D: Disk> Idle<D> {
    /// Records of a phase that ended are sent.
    pub(crate) fn send(
        self,
        outside: &mut Outside,
        records: List<Sent>,
    ) -> Result<Idle<D>, Failed<D>>
        ensures same { IfOk result (λ r. r ≡ self) }
        ensures memory { IfErr result (λ f. f.fault ≡ AgentFault.NoMemory) }
        ensures egress { OnOk result (outside.new.egress ≡ with_records records outside.old.egress) }
        ensures net { outside.new.net ≡ outside.old.net }
        ensures printed { outside.new.printed ≡ outside.old.printed }
    {
        match outside.send(records) {
            Ok(()) => Ok(self),
            Err(NoMemory) => {
                let (member, _lanes) = self.into_parts();
                Err(Failed {
                    member,
                    fault: AgentFault::NoMemory,
                })
            }
        }
    }

    /// The member and its lanes.
    fn into_parts(self) -> (Member<D>, Lanes<NoGate>)
        ensures idle { IsIdle (stage_of result.0) }
        ensures none { result.1 ≡ [] }
        ensures whole { IsTrue result.0.whole }
        ensures seen { result.0.seen ≡ self }
    {
        let Idle { member, lanes } = self;
        (member, lanes)
    }

    /// Calls the member.
    pub(crate) fn ask(
        self,
        outside: &mut Outside,
        call: Call<'_>,
    ) -> Result<(Idle<D>, Option<Outcome>), Failed<D>>
        ensures asked { IfOk result (λ r. Asked D.state D.tells D.is_honest call.entry.member call.entry.now call.entry.asking self r.0 r.1 outside.old outside.new) }
        ensures cut { IfFailed result (λ v. Cut D.state D.tells D.is_honest call.entry.now call.entry.asking self v outside.old outside.new) }
    {
        let (member, lanes) = self.into_parts();
        let mut member = member;
        match member.ask(outside, call) {
            Ok(outcome) => Ok((Idle { member, lanes }, outcome)),
            Err(fault) => Err(Failed { member, fault }),
        }
    }

    /// Answers a backup's packet.
    pub(crate) fn answer(
        self,
        alloc: Global,
        query: &BackupPacket,
    ) -> Result<(Idle<D>, List<Bytes>), Failed<D>>
        requires { HasSpelling query.now }
        ensures looked { IfOk result (λ r. IsLooked self r.0) }
        ensures failed { IfFailed result (λ v. IsLooked self v) }
    {
        let (member, lanes) = self.into_parts();
        let mut member = member;
        match member.answer(alloc, query) {
            Ok(packets) => Ok((Idle { member, lanes }, packets)),
            Err(fault) => Err(Failed { member, fault }),
        }
    }

    /// A whole phase: the services consume what is committed, and what is owed is sent.
    pub(crate) fn phase<R: Threads + Wait + Copy + Send + Sync + 'static>(
        self,
        rt: &R,
        outside: &mut Outside,
    ) -> Result<Idle<D>, Failed<D>>
        ensures phased { IfOk result (λ r. Phased D.state D.tells D.is_honest self r outside.old outside.new) }
        ensures cut { IfFailed result (λ v. PhaseCut D.state D.tells D.is_honest self v × (outside.new ≡ outside.old)) }
    {
        let (member, lanes) = self.into_parts();
        let mut member = member;
        let mut lanes = lanes;
        match member.phase(rt, outside.alloc, &mut lanes) {
            Ok(records) => Idle { member, lanes }.send(outside, records),
            Err(fault) => Err(Failed { member, fault }),
        }
    }

    /// A phase begins that goes on over the calls that follow, and is fed what is committed.
    pub(crate) fn begin<R: Threads + Wait + Copy + Send + Sync + 'static>(
        self,
        rt: &R,
        alloc: Global,
    ) -> Result<Going<D>, Failed<D>> {
        let (member, lanes) = self.into_parts();
        let mut member = member;
        let mut phase = match member.begin(rt, lanes) {
            Ok(phase) => phase,
            Err(NoMemory) => {
                return Err(Failed {
                    member,
                    fault: AgentFault::NoMemory,
                });
            }
        };
        match member.feed(rt, alloc, &mut phase) {
            Ok(_) => Ok(Going { member, phase }),
            Err(fault) => {
                member.drop_phase(rt, phase);
                Err(Failed { member, fault })
            }
        }
    }
}
