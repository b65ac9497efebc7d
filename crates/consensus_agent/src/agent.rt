// One member as a whole.
ghost use Rattle.std.specs.Prelude.{◌≡◌, ◌≤◌, ◌^◌, IsTrue, length};
ghost use Rattle.std.proofs.Props.{props};
ghost use Rattle.consensus_agent.specs.Sound.{IsSound};

use cl_base::{Disk, Entry};
use commit_counter::Role;
use consensus_core::{Core, State};
use entry_log::LogIndex;
use member_disk::{Durable, MemberDisk};
use member_module::MemberModule;
use service_phases::Services;
use std::alloc::Global;

/// One running member: its disk, its part in the agreement, the module and the services.
#[derive(Drop)]
pub struct Agent<D: Disk> {
    pub(crate) alloc: Global,
    pub(crate) core: Core,
    pub(crate) disk: MemberDisk<D>,
    pub(crate) module: MemberModule,
    pub(crate) services: Services,
    /// How many services there are.
    pub(crate) count: u8,
    /// The entries of the snapshot that the services began with.
    pub(crate) base: u64,
    /// What the member was as the phase began.
    pub(crate) role: Role,
    /// Since the phase began the log was cut, or the member became ready to lead.
    pub(crate) over: bool,
    /// No call has failed in the middle: where one has, the member is only given up.
    pub(crate) is_whole: bool,
    ghost bounded: { base ≤ 2 ^ 62 },
    ghost sound: { IsTrue is_whole → IsSound core.values disk.kept disk.whole «module» } by { Prim.hlevel props },
}

impl<D: Disk> Agent<D> {
    ghost use Rattle.entry_log.specs.Shape.{shape_of};
    ghost use Rattle.consensus_core.specs.Member.{is_ready as leads};

    /// Where it stands in the agreement.
    pub fn state(&self) -> State
        ensures { result ≡ self.now.core.values.election.state }
    {
        self.core.state()
    }

    /// Whether it leads, and its term's first entry is in its log.
    pub fn is_ready(&self) -> bool
        ensures value { result ≡ leads self.now.core.values.election.state }
    {
        matches!(self.core.state(), State::LeaderReady)
    }

    /// The leadership term that it is in, -1 for none.
    pub fn term(&self) -> i64
        ensures { result ≡ self.now.core.values.election.term }
    {
        self.core.term()
    }

    /// The leader that it knows, -1 for none.
    pub fn leader(&self) -> i32 {
        self.core.leader()
    }

    /// How many entries are committed.
    pub fn commit(&self) -> u64
        ensures { result ≡ self.now.core.values.rest.commit }
    {
        self.core.commit()
    }

    /// How many entries the module consumed.
    pub fn consumed(&self) -> u64
        ensures value { result ≡ self.now.module.consumed }
        ensures bound { result ≤ 2 ^ 62 }
    {
        self.module.consumed()
    }

    /// The log's entries past those that the module consumed.
    pub fn ahead(&self) -> &[Entry]
        ensures { result.now ≡ self.now.module.ahead.entries }
    {
        self.module.ahead()
    }

    /// The entries of the snapshot that the services began with, 0 without one.
    pub fn base(&self) -> u64
        ensures value { result ≡ self.now.base }
        ensures bound { result ≤ 2 ^ 62 }
    {
        self.base
    }

    /// How many services there are.
    pub fn services(&self) -> u8 {
        self.count
    }

    /// How many services are at hand: all of them while no phase runs, and none while one runs.
    pub fn at_hand(&self) -> usize
        ensures { result ≡ length self.now.services.kept }
    {
        self.services.containers().len()
    }

    /// What its disk keeps.
    pub fn durable(&self) -> &Durable
        ensures { result.now ≡ self.now.disk.kept }
    {
        self.disk.durable()
    }

    /// The index of its log.
    pub fn index(&self) -> &LogIndex
        ensures { result.now ≡ shape_of self.now.disk.kept.log }
    {
        self.disk.index()
    }

    /// Whether each call so far was done, or changed nothing. Where one was not, the member is only given up: `deliver`,
    /// `duty`, `client`, `action` and `phase_end` answer NoMemory and change nothing.
    pub fn is_whole(&self) -> bool
        ensures value { result ≡ self.now.is_whole }
    {
        self.is_whole
    }

    /// How often a call of its disk failed.
    pub fn faults(&self) -> u64
        ensures { result ≡ D.fault_count self.now.disk.disk }
    {
        self.disk.faults()
    }

    /// Lets so many changing calls of its disk pass.
    #[tactic(auto, using(crate::proofs::Sounding::kept_sound))]
    pub fn fuse(&mut self, calls: u64)
        ensures core { self.new.core ≡ self.old.core }
        ensures module { self.new.module ≡ self.old.module }
        ensures services { self.new.services ≡ self.old.services }
        ensures base { self.new.base ≡ self.old.base }
        ensures role { self.new.role ≡ self.old.role }
        ensures over { self.new.over ≡ self.old.over }
        ensures kept { self.new.disk.kept ≡ self.old.disk.kept }
        ensures whole { self.new.is_whole ≡ self.old.is_whole }
        ensures tells { D.tells self.new.disk.disk ≡ D.tells self.old.disk.disk }
        ensures honest { D.is_honest self.new.disk.disk ≡ D.is_honest self.old.disk.disk }
        ensures told { IsTrue (D.tells self.old.disk.disk) → D.state self.new.disk.disk ≡ record (D.state self.old.disk.disk) { lets = Some calls } }
    {
        self.disk.fuse(calls);
    }

    /// Gives the disk back as it stands; all else is gone.
    pub fn stop(self) -> D
        ensures { result ≡ self.disk.disk }
    {
        let Agent {
            alloc: _,
            core: _,
            disk,
            module: _,
            services: _,
            count: _,
            base: _,
            role: _,
            over: _,
            is_whole: _,
        } = self;
        disk.into_disk()
    }
}
