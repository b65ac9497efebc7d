// A member that stops, and one that a call failed under.
ghost use Rattle.std.specs.Prelude.{◌≡◌, ◌↔◌, ◌≤◌, ◌++◌, false, length, map, IsTrue, OnOk};
ghost use Rattle.member_rows.specs.Places.{run_ended};
ghost use Rattle.run_seats.specs.Seats.{ended_seen};

use crate::ended::{ServiceRun, ended_run};
use crate::member::Member;
use cl_base::{Disk, NoMemory};
use consensus_agent::AgentFault;
use std::alloc::Global;

/// A member that stops, no phase of which runs any more.
#[derive(Drop)]
pub(crate) struct Stopped<D: Disk> {
    pub(crate) member: Member<D>,
}

impl<D: Disk> Stopped<D> {
    /// Keeps what the services consumed in the run of this number.
    #[tactic(auto, using(crate::proofs::Keeping::kept_more))]
    pub(crate) fn keep_inputs(
        &self,
        alloc: Global,
        run: u64,
        ended: &mut Vec<ServiceRun>,
    ) -> Result<(), NoMemory>
        ensures { length self.now.member.seen.lending.kept ≤ 255 → OnOk result (map ended_seen ended.new.items ≡ map ended_seen ended.old.items ++ run_ended self.now.member.seen false) }
    {
        for service in 0..self.member.at_hand() {
            let entries = self.member.inputs(service);
            let one = ended_run(alloc, service, run, self.member.base(), entries)?;
            if ended.push(one).is_err() {
                return Err(NoMemory);
            }
        }
        Ok(())
    }

    /// The disk as it stands.
    pub(crate) fn into_disk(self) -> D
        ensures { result ≡ self.member.seen.disk.disk }
    {
        let Stopped { member } = self;
        member.into_disk()
    }
}

/// A member that a call failed under.
#[derive(Drop)]
pub(crate) struct Failed<D: Disk> {
    pub(crate) member: Member<D>,
    pub(crate) fault: AgentFault,
}

impl<D: Disk> Failed<D> {
    /// Whether memory was wanted.
    pub(crate) fn wants_memory(&self) -> bool
        ensures { IsTrue result ↔ self.now.fault ≡ AgentFault.NoMemory }
    {
        matches!(&self.fault, AgentFault::NoMemory)
    }

    /// The member, which stops.
    pub(crate) fn stop(self) -> Stopped<D>
        ensures { result.member ≡ self.member }
    {
        let Failed { member, fault: _ } = self;
        Stopped { member }
    }
}
