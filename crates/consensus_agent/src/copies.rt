// What is read of a member's disk for a copy of it elsewhere.
ghost use Rattle.std.specs.Prelude.{◌≡◌, ◌<◌, ◌≤◌, ◌^◌, pos, ◌≤ℤ◌, IsTrue, IfOk, IfErr, IfSome, MatchOption, Some, slice_get};
ghost use Rattle.recording_log.specs.Sets.{HasNoSet};
ghost use Rattle.snapshot_store.specs.Snapshots.{ArePieces};
ghost use Rattle.member_disk.specs.Changes.{HasSome, IsMemberOf};
ghost use Rattle.consensus_agent.specs.Copies.{IsLike, IsNewest};
ghost use Rattle.consensus_agent.specs.Disks.{Looked};
ghost use Rattle.consensus_agent.specs.Faults.{HasCause, IsNoDamage};

use crate::agent::Agent;
use crate::fault::AgentFault;
use cl_base::{Disk, Entry};
use member_disk::SetEntry;
use recording_log::SnapshotAt;

impl<D: Disk> Agent<D> {
    /// Reads the entry of its log at an index below the commit. Damaged is where the entry, as it reads, breaks its form or
    /// differs from its kept length or term: never on a disk that tells its contents. Nothing else changes.
    #[tactic(auto, using(crate::proofs::Sounding::kept_sound, crate::proofs::Found::within))]
    pub fn read(&mut self, index: u64) -> Result<Entry, AgentFault>
        requires { index < self.old.core.values.rest.commit }
        ensures entry { IfOk result (IsLike self.old.disk.kept.log index) }
        ensures exact { IsTrue (D.tells self.old.disk.disk) → IfOk result (λ x. slice_get self.old.disk.kept.log index ≡ Some x) }
        ensures undamaged { IsTrue (D.tells self.old.disk.disk) → IfErr result IsNoDamage }
        ensures cause { HasCause (D.fault_count self.old.disk.disk) (D.fault_count self.new.disk.disk) result }
        ensures looked { Looked D.state D.tells D.is_honest self.old.disk self.new.disk }
        ensures kept { self.new.disk.kept ≡ self.old.disk.kept }
        ensures core { self.new.core ≡ self.old.core }
        ensures module { self.new.module ≡ self.old.module }
        ensures services { self.new.services ≡ self.old.services }
        ensures base { self.new.base ≡ self.old.base }
        ensures role { self.new.role ≡ self.old.role }
        ensures over { self.new.over ≡ self.old.over }
        ensures whole { self.new.is_whole ≡ self.old.is_whole }
    {
        if !self.is_whole {
            return Err(AgentFault::NoMemory);
        }
        let entry = self.disk.read(index)?;
        Ok(entry)
    }

    /// The latest valid set of snapshots on its disk, by position and then by term: the term and the position (bytes) of
    /// its action, and a recording of the module's. None exactly where there is no valid set.
    pub fn latest(&self) -> Option<SnapshotAt>
        ensures set { MatchOption result (HasNoSet self.now.disk.kept.services self.now.disk.kept.entries) (IsNewest self.now.disk.kept.services self.now.disk.kept.entries) }
        ensures some { IfSome result (λ _. HasSome self.now.disk.kept.services self.now.disk.kept.entries) }
    {
        let sets = self.disk.durable().sets();
        if sets.is_empty() {
            return None;
        }
        Some(sets[sets.len() - 1])
    }

    /// Reads the snapshot of a service, or of the module at -1, in the latest valid set, of which there is one. Damaged is
    /// where its file, as it reads, breaks its form. Nothing else changes.
    #[tactic(auto, using(crate::proofs::Sounding::kept_sound))]
    pub fn set_entry(&mut self, service: i32) -> Result<SetEntry, AgentFault>
        requires some { HasSome self.old.disk.kept.services self.old.disk.kept.entries }
        requires service { IsMemberOf self.old.disk.kept.services service }
        ensures strict { IfOk result (λ s. ArePieces s.pieces) }
        ensures named { IfOk result (λ s. s.recording < 1024) }
        ensures low { IfOk result (λ s. pos 0 ≤ℤ s.term) }
        ensures high { IfOk result (λ s. s.term ≤ℤ pos (2 ^ 62)) }
        ensures placed { IfOk result (λ s. s.position ≤ 2 ^ 62) }
        ensures cause { HasCause (D.fault_count self.old.disk.disk) (D.fault_count self.new.disk.disk) result }
        ensures looked { Looked D.state D.tells D.is_honest self.old.disk self.new.disk }
        ensures kept { self.new.disk.kept ≡ self.old.disk.kept }
        ensures core { self.new.core ≡ self.old.core }
        ensures module { self.new.module ≡ self.old.module }
        ensures services { self.new.services ≡ self.old.services }
        ensures base { self.new.base ≡ self.old.base }
        ensures role { self.new.role ≡ self.old.role }
        ensures over { self.new.over ≡ self.old.over }
        ensures whole { self.new.is_whole ≡ self.old.is_whole }
    {
        if !self.is_whole {
            return Err(AgentFault::NoMemory);
        }
        let set = self.disk.set_entry(service)?;
        Ok(set)
    }
}
