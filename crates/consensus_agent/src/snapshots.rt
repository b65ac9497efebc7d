// The snapshots of a phase's actions.
ghost use Rattle.std.specs.Prelude.{◌≡◌, ◌<◌, ◌≤◌, ◌^◌, ◌++◌, true, pos, negsuc, ◌≤ℤ◌, [], ◌∷◌, length, All, IsTrue, IfOk, OnErr, OnOk};
ghost use Rattle.snapshot_pieces.specs.Pieces.{IsOrigin};
ghost use Rattle.member_disk.specs.Changes.{IsHead};
ghost use Rattle.service_container.specs.Records.{found_at};
ghost use Rattle.consensus_agent.specs.Rows.{IsKept};
ghost use Rattle.consensus_agent.specs.Written.{AreWritten, StoppedAmong, action_at, head_at, module_snapshot, origin_at, seat_of, service_snapshots, snapshot_with, snapshots_of};

use crate::fault::AgentFault;
use crate::guard::is_number;
use cl_base::limits::{ACTIONS_LIMIT, NUMBER_LIMIT, SERVICES_LIMIT};
use cl_base::{Bytes, Disk, List, NoMemory};
use member_disk::{MemberDisk, SnapshotHead};
use member_module::MemberModule;
use service_container::Container;
use snapshot_pieces::{Origin, module_pieces, service_pieces};
use std::alloc::Global;

/// The most bytes of a service's records.
const RECORDS_LIMIT: usize = 2_147_483_647;

/// The most bytes of a piece.
const PIECE_LIMIT: usize = 4_294_967_295;

/// A snapshot action that was consumed.
#[derive(Drop)]
pub struct Action {
    /// How many actions the log has before it.
    before: u64,
    /// The index of its entry.
    index: u64,
    term: i64,
    /// In ms.
    stamp: i64,
    /// Where its entry ends.
    position: u64,
    /// The pieces of the module's snapshot.
    pieces: List<Bytes>,
}

/// The place of a service's snapshot among those of an action, the module's (-1) being 0.
fn seat_of(service: i32) -> u64
    requires low { negsuc 0 ≤ℤ service }
    requires high { service ≤ℤ pos 2 }
    ensures seat { result ≡ seat_of service }
    ensures bound { result < 4 }
{
    (service + 1) as u64
}

impl Action {
    /// The action that was just applied, with this index, place, term and stamp (ms).
    pub fn of(
        alloc: Global,
        module: &MemberModule,
        index: u64,
        position: u64,
        event: (i64, i64),
    ) -> Result<Action, NoMemory>
        requires position { position ≤ 2 ^ 62 }
        requires low { pos 0 ≤ℤ event.0 }
        requires high { event.0 ≤ℤ pos (2 ^ 62) }
        ensures { IfOk result (λ a. a ≡ action_at index position event.0 event.1 module.now.state) }
    {
        let (term, stamp) = event;
        let origin = Origin {
            service: -1,
            position,
            term,
        };
        let records = module.state().records()?;
        Ok(Action {
            before: module.state().actions().saturating_sub(1),
            index,
            term,
            stamp,
            position,
            pieces: module_pieces(alloc, &origin, records)?,
        })
    }

    /// The snapshot entry of a service, or of the module (-1).
    fn head(&self, service: i32) -> Result<SnapshotHead, AgentFault>
        requires low { negsuc 0 ≤ℤ service }
        requires high { service ≤ℤ pos 2 }
        ensures head { IfOk result IsHead }
        ensures origin { IfOk result (λ h. IsOrigin (origin_at self.now service)) }
        ensures exact { IfOk result (λ h. h ≡ head_at self.now service) }
    {
        let stamps = is_number(&self.term) && self.position <= NUMBER_LIMIT;
        if self.before >= ACTIONS_LIMIT || !stamps {
            return Err(AgentFault::NoMemory);
        }
        Ok(SnapshotHead {
            recording: 4 * self.before + seat_of(service),
            service,
            term: self.term,
            position: self.position,
            stamp: self.stamp,
        })
    }
}

/// Writes the snapshots of actions, in order.
#[tactic(auto, using(crate::proofs::Writing::written_none, crate::proofs::Writing::written_more, crate::proofs::Writing::stopped_none, crate::proofs::Writing::stopped_first, crate::proofs::Writing::stopped_later))]
pub fn put_all<D: Disk>(
    alloc: Global,
    disk: &mut MemberDisk<D>,
    containers: &[Container],
    actions: &[Action],
) -> Result<(), AgentFault>
    requires whole { IsTrue disk.old.whole }
    ensures kept { IsKept disk.old.kept.node disk.old.kept.log disk.new.kept }
    ensures whole { OnOk result (IsTrue disk.new.whole) }
    ensures written { OnOk result (AreWritten D.state D.tells D.is_honest (snapshots_of containers.now actions.now) disk.old disk.new) }
    ensures stopped { OnErr result (StoppedAmong D.state D.tells D.is_honest (snapshots_of containers.now actions.now) disk.old disk.new) }
{
    let Some((action, rest)) = actions.split_first() else {
        return Ok(());
    };
    put_action(alloc, disk, containers, action)?;
    put_all(alloc, disk, containers, rest)
}

/// Writes the snapshots of an action: those of the services, by rising number, and the module's.
#[tactic(auto, using(crate::proofs::Writing::written_none, crate::proofs::Writing::written_more, crate::proofs::Writing::stopped_first, crate::proofs::Writing::stopped_later))]
fn put_action<D: Disk>(
    alloc: Global,
    disk: &mut MemberDisk<D>,
    containers: &[Container],
    action: &Action,
) -> Result<(), AgentFault>
    requires whole { IsTrue disk.old.whole }
    ensures kept { IsKept disk.old.kept.node disk.old.kept.log disk.new.kept }
    ensures whole { OnOk result (IsTrue disk.new.whole) }
    ensures written { OnOk result (AreWritten D.state D.tells D.is_honest (service_snapshots action.now containers.now ++ module_snapshot action.now ∷ []) disk.old disk.new) }
    ensures stopped { OnErr result (StoppedAmong D.state D.tells D.is_honest (service_snapshots action.now containers.now ++ module_snapshot action.now ∷ []) disk.old disk.new) }
{
    put_services(alloc, disk, containers, action)?;
    let head = action.head(-1)?;
    put(disk, head, action.pieces.as_slice())
}

/// Writes the snapshots of the services at an action, by rising number.
#[tactic(auto, using(crate::proofs::Writing::written_none, crate::proofs::Writing::written_more, crate::proofs::Writing::stopped_first, crate::proofs::Writing::stopped_later))]
fn put_services<D: Disk>(
    alloc: Global,
    disk: &mut MemberDisk<D>,
    containers: &[Container],
    action: &Action,
) -> Result<(), AgentFault>
    requires whole { IsTrue disk.old.whole }
    ensures kept { IsKept disk.old.kept.node disk.old.kept.log disk.new.kept }
    ensures whole { OnOk result (IsTrue disk.new.whole) }
    ensures written { OnOk result (AreWritten D.state D.tells D.is_honest (service_snapshots action.now containers.now) disk.old disk.new) }
    ensures stopped { OnErr result (StoppedAmong D.state D.tells D.is_honest (service_snapshots action.now containers.now) disk.old disk.new) }
{
    let Some((container, rest)) = containers.split_first() else {
        return Ok(());
    };
    put_service(alloc, disk, container, action)?;
    put_services(alloc, disk, rest, action)
}

/// Writes the snapshot of a service at an action, where it left records at it.
#[tactic(auto, using(crate::proofs::Writing::written_none, crate::proofs::Writing::stopped_none))]
fn put_service<D: Disk>(
    alloc: Global,
    disk: &mut MemberDisk<D>,
    container: &Container,
    action: &Action,
) -> Result<(), AgentFault>
    requires whole { IsTrue disk.old.whole }
    ensures kept { IsKept disk.old.kept.node disk.old.kept.log disk.new.kept }
    ensures whole { OnOk result (IsTrue disk.new.whole) }
    ensures written { OnOk result (AreWritten D.state D.tells D.is_honest (snapshot_with action.now container.now.service (found_at action.now.index container.now.records)) disk.old disk.new) }
    ensures stopped { OnErr result (StoppedAmong D.state D.tells D.is_honest (snapshot_with action.now container.now.service (found_at action.now.index container.now.records)) disk.old disk.new) }
{
    let service = container.service();
    let Some(records) = container.snapshot(action.index) else {
        return Ok(());
    };
    if service >= SERVICES_LIMIT || records.len() > RECORDS_LIMIT {
        return Err(AgentFault::NoMemory);
    }
    let head = action.head(service as i32)?;
    let pieces = service_pieces(alloc, &origin_of(&head), records)?;
    put(disk, head, pieces.as_slice())
}

/// Whether each piece has fewer than 2^32 bytes.
fn are_short(pieces: &[Bytes]) -> bool
    ensures { result ≡ true → All (λ p. length p < 2 ^ 32) pieces.now }
{
    let Some((first, rest)) = pieces.split_first() else {
        return true;
    };
    first.len() <= PIECE_LIMIT && are_short(rest)
}

/// Writes a snapshot.
#[tactic(auto, using(crate::proofs::There::put_kept, crate::proofs::Writing::stopped_none))]
fn put<D: Disk>(
    disk: &mut MemberDisk<D>,
    head: SnapshotHead,
    pieces: &[Bytes],
) -> Result<(), AgentFault>
    requires head { IsHead head }
    requires whole { IsTrue disk.old.whole }
    ensures kept { IsKept disk.old.kept.node disk.old.kept.log disk.new.kept }
    ensures whole { OnOk result (IsTrue disk.new.whole) }
    ensures written { OnOk result (AreWritten D.state D.tells D.is_honest (record { head = head; pieces = pieces.now } ∷ []) disk.old disk.new) }
    ensures stopped { OnErr result (StoppedAmong D.state D.tells D.is_honest (record { head = head; pieces = pieces.now } ∷ []) disk.old disk.new) }
{
    if !are_short(pieces) {
        return Err(AgentFault::NoMemory);
    }
    disk.put_snapshot(head, pieces)?;
    Ok(())
}

fn origin_of(head: &SnapshotHead) -> Origin
    ensures { result ≡ record { service = head.now.service; position = head.now.position; term = head.now.term } }
{
    Origin {
        service: head.service,
        position: head.position,
        term: head.term,
    }
}
