// Schedules, driven through the steps.
ghost use Rattle.std.specs.Prelude.{◌≡◌, ◌≤◌, length, IfOk, OnOk};
ghost use Rattle.world_steps.specs.Steps.{IsReached};

mod commits;
mod elections;

use crate::{Cut, Sent, Step, World, world_step};
use cl_base::{List, NoMemory};
use consensus_core::State;
use service_api::Kind;
use std::alloc::Global;

/// A world and how many of its packets were looked at.
#[derive(Drop)]
struct Run {
    world: World,
    seen: u64,
}

/// Which packets are delivered.
#[derive(Clone, Copy, Debug, PartialEq, Eq)]
enum Filter {
    /// All.
    All,
    /// All but batches that aren't full and to member 3.
    FullTo3,
}

/// Whether a packet passes.
fn passes(filter: Filter, sent: &Sent) -> bool {
    match (filter, &sent.packet) {
        (Filter::FullTo3, sbe_consensus::Packet::LogBatch { entries, .. }) => {
            sent.to == 3 && entries.len() == 64
        }
        _ => true,
    }
}

impl Run {
    /// So many members start.
    fn of(alloc: Global, members: u8) -> Result<Run, NoMemory>
        requires { members ≤ 5 }
        ensures { IfOk result (λ r. IsReached r.world) }
    {
        let mut world = World::new(alloc, members, &[Kind::Echo])?;
        for member in 0..members {
            world_step(&mut world, &Step::Starts { member })?;
        }
        Ok(Run { world, seen: 0 })
    }

    /// A member stops.
    fn stop(&mut self, member: u8) -> Result<(), NoMemory>
        requires { IsReached self.old.world }
        ensures { OnOk result (IsReached self.new.world) }
    {
        world_step(&mut self.world, &Step::Stops { member })
    }

    /// A member starts.
    fn start(&mut self, member: u8) -> Result<(), NoMemory>
        requires { IsReached self.old.world }
        ensures { OnOk result (IsReached self.new.world) }
    {
        world_step(&mut self.world, &Step::Starts { member })
    }

    /// The new packets to these members that pass are delivered.
    fn deliver(&mut self, among: &[u8], filter: Filter) -> Result<(), NoMemory>
        requires { IsReached self.old.world }
        ensures { OnOk result (IsReached self.new.world) }
    {
        let sent = self.world.sent().len() as u64;
        for which in self.seen..sent {
            let comes = match self.world.sent().get(which as usize) {
                Some(packet) => among.contains(&packet.to) && passes(filter, packet),
                None => false,
            };
            if comes {
                let cut = Cut::Whole;
                world_step(&mut self.world, &Step::Delivers { which, cut })?;
            }
        }
        self.seen = sent;
        Ok(())
    }

    /// What is in flight is lost.
    fn lose(&mut self)
        ensures { self.new.world ≡ self.old.world }
    {
        self.seen = self.world.sent().len() as u64;
    }

    /// Rounds of 10 ms among these members: the packets sent before are delivered, and each member has its duty.
    fn rounds(
        &mut self,
        alloc: Global,
        count: u64,
        among: &[u8],
        filter: Filter,
    ) -> Result<(), NoMemory>
        requires { IsReached self.old.world }
        ensures { OnOk result (IsReached self.new.world) }
    {
        for _ in 0..count {
            let now = self.world.now().saturating_add(10);
            world_step(&mut self.world, &Step::Passes { now })?;
            self.deliver(among, filter)?;
            for member in among {
                let duty = Step::Duty {
                    member: *member,
                    alive: List::new(alloc),
                    since: 0,
                    cut: Cut::Whole,
                };
                world_step(&mut self.world, &duty)?;
            }
        }
        Ok(())
    }

    /// Rounds of 10 ms among these members until this one leads, at most 600.
    fn until_leads(&mut self, alloc: Global, member: usize, among: &[u8]) -> Result<(), NoMemory>
        requires { IsReached self.old.world }
        ensures { OnOk result (IsReached self.new.world) }
    {
        for _ in 0..600 {
            if !self.leads(member) {
                self.rounds(alloc, 1, among, Filter::All)?;
            }
        }
        Ok(())
    }

    /// Whether a member leads.
    fn leads(&self, member: usize) -> bool {
        match self.world.members().get(member) {
            Some(found) => found.state() == State::LeaderReady,
            None => false,
        }
    }

    /// How many entries a member committed.
    fn commit(&self, member: usize) -> u64 {
        match self.world.members().get(member) {
            Some(found) => found.commit(),
            None => 0,
        }
    }

    /// How many entries of a term a member has.
    fn count(&self, member: usize, term: i64) -> u64 {
        let mut count: u64 = 0;
        if let Some(found) = self.world.members().get(member) {
            for entry in found.kept().entries() {
                if entry.term == term {
                    count = count.saturating_add(1);
                }
            }
        }
        count
    }
}
