// A running member, as its phases and its calls ask for it.
ghost use Rattle.std.specs.Prelude.{◌≡◌, ◌≤◌, ◌^◌, min, length, IsTrue, IfOk, OnOk, slice_get};
ghost use Rattle.consensus_agent.specs.Consumed.{inputs_of};
ghost use Rattle.run_seats.specs.Asked.{with_printed};
ghost use Rattle.run_seats.specs.Seen.{IsFused, stage_of};
ghost use Rattle.service_phases.specs.Stages.{IsIdle};

use crate::site::{MemberId, Site};
use cl_base::{Disk, Entry, MemberFault, NoMemory};
use consensus_agent::Agent;
use recording_log::SnapshotAt;
use run_outside::Outside;
use std::marker::Model;

/// What is told of a running member.
#[derive(Clone, Copy)]
pub struct Shown<'a> {
    /// Its commit, in entries.
    pub commit: u64,
    /// Its candidate term, -1 before any.
    pub candidate: i64,
    /// How many entries its log has.
    pub entries: u64,
    /// How many of them, from the front, its module consumed.
    pub consumed: u64,
    /// Those behind.
    pub ahead: &'a [Entry],
    /// Its valid snapshot sets, by rising position.
    pub sets: &'a [SnapshotAt],
}

/// A running member. Contracts see of it what stands to the world of a run.
#[derive(Drop)]
pub(crate) struct Member<D: Disk> {
    pub(crate) agent: Box<Agent<D>>,
}

impl<D: Disk> Model for Member<D> {
    ghost use Rattle.run_seats.specs.Seen.{MemberSeen};

    ghost Value = { MemberSeen D };

    ghost view = { λ m. record {
      seen = record {
        core = m.agent.value.core;
        disk = m.agent.value.disk;
        module_held = m.agent.value.module;
        lending = m.agent.value.services;
        role = m.agent.value.role;
        base = m.agent.value.base;
        over = m.agent.value.over;
      };
      whole = m.agent.value.is_whole;
    } };
}

impl<D: Disk> Member<D> {
    /// A member starts from its disk, with the services of all, `now` in ms. The disk comes back with an error.
    pub(crate) fn mount(
        site: &Site,
        id: MemberId,
        disk: D,
        now: u64,
    ) -> Result<Member<D>, (D, MemberFault)>
        ensures idle { IfOk result (λ m. IsIdle (stage_of m)) }
        ensures whole { IfOk result (λ m. IsTrue m.whole) }
    {
        let MemberId { member, members } = id;
        match Agent::mount(site.alloc, member, members, site.kinds(), disk, now) {
            Ok(agent) => match Box::new(site.alloc, agent) {
                Ok(agent) => Ok(Member { agent }),
                Err(failed) => Err((failed.value.stop(), MemberFault::NoMemory)),
            },
            Err(back) => Err(back),
        }
    }

    /// What is told of it.
    pub(crate) fn shown(&self) -> Shown<'_> {
        let durable = self.agent.durable();
        Shown {
            commit: self.agent.commit(),
            candidate: durable.candidate_term(),
            entries: self.agent.index().entries(),
            consumed: self.agent.consumed(),
            ahead: self.agent.ahead(),
            sets: durable.sets(),
        }
    }

    /// What it has committed is printed.
    pub(crate) fn print(&self, outside: &mut Outside) -> Result<(), NoMemory>
        ensures printed { OnOk result (outside.new.printed ≡ with_printed self.now.seen outside.old.printed) }
        ensures net { outside.new.net ≡ outside.old.net }
        ensures egress { outside.new.egress ≡ outside.old.egress }
    {
        outside.print(
            self.agent.consumed(),
            self.agent.ahead(),
            self.agent.commit(),
        )
    }

    /// How many services it has.
    pub(crate) fn services(&self) -> u8 {
        self.agent.services()
    }

    /// How many services are at hand, up to 255: all of them while no phase runs.
    pub(crate) fn at_hand(&self) -> u8
        ensures { result ≡ min (length self.now.seen.lending.kept) 255 }
    {
        self.agent.at_hand().min(255) as u8
    }

    /// The entries of the snapshot from which its services began.
    pub(crate) fn base(&self) -> u64
        ensures value { result ≡ self.now.seen.base }
        ensures bound { result ≤ 2 ^ 62 }
    {
        self.agent.base()
    }

    /// What a service consumed; nothing while a phase goes on.
    pub(crate) fn inputs(&self, service: u8) -> &[Entry]
        ensures { result.now ≡ inputs_of (slice_get self.now.seen.lending.kept service) }
    {
        self.agent.inputs(service)
    }

    /// Lets so many changing calls of its disk pass.
    #[tactic(auto, using(crate::proofs::Seen::was_fused))]
    pub(crate) fn fuse(&mut self, calls: u64)
        ensures stage { stage_of self.new ≡ stage_of self.old }
        ensures whole { self.new.whole ≡ self.old.whole }
        ensures fused { IsTrue self.old.whole → IsFused D.state D.tells D.is_honest calls self.old.seen self.new.seen }
    {
        self.agent.fuse(calls);
    }

    /// The disk as it stands; all else is gone.
    pub(crate) fn into_disk(self) -> D
        ensures { result ≡ self.seen.disk.disk }
    {
        let Member { agent } = self;
        Box::into_inner(agent).stop()
    }
}
