// What a member answers a backup.
ghost use Rattle.std.specs.Prelude.{◌≡◌, ◌+◌, ◌<◌, ◌≤◌, ◌^◌, All, IfOk, length};
ghost use Rattle.member_disk.specs.Changes.{HasSome, IsMemberOf};
ghost use Rattle.cluster_backup.specs.Giving.{IsEvent};
ghost use Rattle.cluster_backup.specs.Spelling.{HasSpelling};
ghost use Rattle.run_seats.specs.Seen.{IsRead};

use crate::member::Member;
use cl_base::{Bytes, Disk, List};
use cluster_backup::{BackupPacket, entries_packet, snapshot_packet};
use consensus_agent::{Agent, AgentFault};
use log_replication::batch_len;
use std::alloc::Global;

/// Puts the packet of a service's snapshot in the latest valid set, or of the module's at -1.
fn put_snapshot<D: Disk>(
    alloc: Global,
    agent: &mut Agent<D>,
    service: i32,
    packets: &mut List<Bytes>,
) -> Result<(), AgentFault>
    requires some { HasSome agent.old.disk.kept.services agent.old.disk.kept.entries }
    requires service { IsMemberOf agent.old.disk.kept.services service }
    ensures kept { agent.new.disk.kept ≡ agent.old.disk.kept }
    ensures core { agent.new.core ≡ agent.old.core }
    ensures module { agent.new.module ≡ agent.old.module }
    ensures services { agent.new.services ≡ agent.old.services }
    ensures base { agent.new.base ≡ agent.old.base }
    ensures role { agent.new.role ≡ agent.old.role }
    ensures over { agent.new.over ≡ agent.old.over }
    ensures whole { agent.new.is_whole ≡ agent.old.is_whole }
{
    let entry = agent.set_entry(service)?;
    if let Some(packet) = snapshot_packet(alloc, service, entry)? {
        packets.push(packet)?;
    }
    Ok(())
}

/// Puts the packets of the latest valid set, by service, and the module's last.
fn put_set<D: Disk>(
    alloc: Global,
    agent: &mut Agent<D>,
    packets: &mut List<Bytes>,
) -> Result<(), AgentFault>
    requires { HasSome agent.old.disk.kept.services agent.old.disk.kept.entries }
    ensures kept { agent.new.disk.kept ≡ agent.old.disk.kept }
    ensures core { agent.new.core ≡ agent.old.core }
    ensures module { agent.new.module ≡ agent.old.module }
    ensures services { agent.new.services ≡ agent.old.services }
    ensures base { agent.new.base ≡ agent.old.base }
    ensures role { agent.new.role ≡ agent.old.role }
    ensures over { agent.new.over ≡ agent.old.over }
    ensures whole { agent.new.is_whole ≡ agent.old.is_whole }
{
    let services = agent.durable().services();
    for service in 0..services {
        put_snapshot(alloc, agent, i32::from(service), packets)?;
    }
    put_snapshot(alloc, agent, -1, packets)
}

impl<D: Disk> Member<D> {
    /// How many entries the batch from an index on has that are committed: at most 64, and 0 where none is committed
    /// from there.
    #[tactic(auto, using(crate::proofs::Answering::few_of))]
    fn batch_from(&self, from: u64) -> u64
        ensures few { result ≤ 64 }
        ensures committed { 0 < result → from + result ≤ self.now.seen.core.values.rest.commit }
        ensures numbered { from + result < 2 ^ 64 }
    {
        let committed = self.agent.commit().saturating_sub(from);
        batch_len(self.agent.index(), from).min(committed)
    }

    /// Reads the event of a committed entry.
    #[tactic(auto, using(crate::proofs::Answering::some_event, crate::proofs::Seen::was_read))]
    fn read_event(&mut self, index: u64) -> Result<Bytes, AgentFault>
        requires { index < self.old.seen.core.values.rest.commit }
        ensures event { IfOk result IsEvent }
        ensures same { IsRead self.old self.new }
    {
        let entry = self.agent.read(index)?;
        Ok(entry.bytes)
    }

    /// The events of the batch of committed entries from an index on.
    #[tactic(auto, using(crate::proofs::Seen::read_none, crate::proofs::Seen::read_more))]
    fn committed_from(&mut self, alloc: Global, from: u64) -> Result<List<Bytes>, AgentFault>
        ensures events { IfOk result (All IsEvent) }
        ensures few { IfOk result (λ es. length es ≤ 64) }
        ensures same { IsRead self.old self.new }
    {
        let mut events = List::new(alloc);
        for at in 0..self.batch_from(from) {
            events.push(self.read_event(from + at)?)?;
        }
        Ok(events)
    }

    /// Puts the packets of the latest valid set, where it is past a position (bytes), or -1, and within so many entries.
    #[tactic(auto, using(crate::proofs::Seen::was_read, crate::proofs::Seen::read_none))]
    fn put_latest(
        &mut self,
        alloc: Global,
        entries: u64,
        position: i64,
        packets: &mut List<Bytes>,
    ) -> Result<(), AgentFault>
        ensures { IsRead self.old self.new }
    {
        if let Some(set) = self.agent.latest()
            && (position < 0 || position.unsigned_abs() < set.position)
            && self.agent.index().entries_to(set.position) <= entries
        {
            put_set(alloc, &mut self.agent, packets)?;
        }
        Ok(())
    }

    /// What it answers a backup: the batch of committed entries past those that the backup has, and then the snapshots of
    /// its latest valid set, where that is past the backup's and the backup has the entries that it stands for. Nothing
    /// where the packet is no query.
    #[tactic(auto, using(crate::proofs::Seen::read_none, crate::proofs::Seen::read_more))]
    pub(crate) fn answer(
        &mut self,
        alloc: Global,
        query: &BackupPacket,
    ) -> Result<List<Bytes>, AgentFault>
        requires { HasSpelling query.now }
        ensures { IsRead self.old self.new }
    {
        let mut packets = List::new(alloc);
        let BackupPacket::Query { entries, position } = query else {
            return Ok(packets);
        };
        let asked = entries.unsigned_abs();
        let events = self.committed_from(alloc, asked)?;
        if !events.is_empty() {
            packets.push(entries_packet(alloc, asked, events)?)?;
        }
        self.put_latest(alloc, asked, *position, &mut packets)?;
        Ok(packets)
    }
}
