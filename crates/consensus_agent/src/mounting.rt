// How a member starts from its disk.
ghost use Rattle.std.specs.Prelude.{◌≡◌, ◌+◌, true, false, ◌<◌, ◌≤◌, ◌^◌, pos, negsuc, ◌≤ℤ◌, [], length, ◌∷◌, ◌++◌, unwrap_or, IsTrue, IfOk, IfErr, OnOk, MatchOption, MatchResult, Ok, Err, drop};
ghost use Rattle.cl_base.specs.Counts.{Rose};
ghost use Rattle.cl_base.specs.Disk.{OthersStay};
ghost use Rattle.cl_base.specs.Runs.{EachImage};
ghost use Rattle.entry_log.specs.Shape.{shape_of};
ghost use Rattle.module_state.specs.Module.{first_module};
ghost use Rattle.recording_log.specs.Sets.{HasNoSet};
ghost use Rattle.recording_log.specs.declared.entry.SnapshotAt.{SnapshotAt};
ghost use Rattle.node_state.specs.Node.{mount_calls};
ghost use Rattle.log_segment.specs.Held.{IsHeld};
ghost use Rattle.member_disk.specs.Changes.{HasSome};
ghost use Rattle.member_disk.specs.Kept.{Kept, EachStands, IsSettled, Means, ReadsLike};
ghost use Rattle.member_disk.specs.Parts.{MountEnds};
ghost use Rattle.consensus_agent.specs.Disks.{HasTerms, Looked};
ghost use Rattle.snapshot_pieces.specs.Pieces.{IsOrigin};
ghost use Rattle.service_phases.specs.Pairs.{Each};
ghost use Rattle.service_phases.specs.Phases.{IsAt};
ghost use Rattle.service_phases.specs.Stages.{IsIdle};
ghost use Rattle.consensus_agent.specs.Phases.{stage};
ghost use Rattle.consensus_core.specs.Fit.{IsTerm, started};
ghost use Rattle.consensus_agent.specs.Quiet.{Quiet, Failed};
ghost use Rattle.consensus_agent.specs.Sound.{HasAhead};
ghost use Rattle.snapshot_store.specs.Snapshots.{ArePieces, spelled};
ghost use Rattle.member_disk.specs.Latest.{IsLatestEntry};
ghost use Rattle.consensus_agent.specs.Copies.{IsNewest};
ghost use Rattle.consensus_agent.specs.Restored.{GoesOn, GoOn, IsRestored, IsFromSet};
ghost use Rattle.consensus_agent.specs.Starts.{IsNew, IsStart, IsFirst, ends_at, first_containers};

use crate::agent::Agent;
use cl_base::{Disk, Entry, MemberFault, NoMemory};
use commit_counter::Role;
use consensus_core::Core;
use entry_log::LogIndex;
use member_disk::{Durable, MemberDisk, SetEntry};
use member_module::MemberModule;
use module_state::ModuleState;
use recording_log::SnapshotAt;
use service_api::Kind;
use service_container::Container;
use service_phases::Services;
use snapshot_pieces::{Origin, Source, restore_module, restore_service};
use std::alloc::Global;

/// The number of the file of the snapshot with recording id 0.
const FIRST_SNAPSHOT: u64 = 258;

/// What a member starts from besides its disk.
#[derive(Drop)]
struct Start {
    base: u64,
    module: MemberModule,
    containers: Vec<Container>,
}

/// The file that an entry of the latest set was read from, and what it must be of.
fn source_of(set: &SetEntry, service: i32, entries: Option<u64>) -> Source
    requires { set.now.recording < 1024 }
    ensures origin { result.origin ≡ record { service = service; position = set.now.position; term = set.now.term } }
    ensures entries { result.entries ≡ entries }
{
    Source {
        file: (FIRST_SNAPSHOT + set.recording) as u32,
        origin: Origin {
            service,
            position: set.position,
            term: set.term,
        },
        entries,
    }
}

/// Whether there is a valid set.
#[tactic(auto, using(crate::proofs::Sets::some_set))]
fn has_set(durable: &Durable) -> bool
    ensures { result ≡ true → HasSome durable.now.services durable.now.entries }
{
    !durable.sets().is_empty()
}

/// The snapshot of a service, or of the module (-1), in the latest valid set.
#[tactic(auto, using(crate::proofs::Disking::looked_none))]
fn set_of<D: Disk>(disk: &mut MemberDisk<D>, service: i32) -> Result<SetEntry, MemberFault>
    requires low { negsuc 0 ≤ℤ service }
    requires high { service ≤ℤ pos 2 }
    requires whole { IsTrue disk.old.whole }
    ensures strict { IfOk result (λ e. ArePieces e.pieces) }
    ensures latest { IfOk result (IsLatestEntry disk.old.kept.services disk.old.kept.entries service) }
    ensures pieces { IsTrue (D.tells disk.old.disk) → IfOk result (λ e. spelled e.pieces ≡ ((D.state disk.old.disk).files (258 + e.recording)).reads) }
    ensures kept { disk.new.kept ≡ disk.old.kept }
    ensures looked { Looked D.state D.tells D.is_honest disk.old disk.new }
    ensures quiet { OnOk result (Quiet D.fault_count D.state D.tells disk.old disk.new) }
    ensures failed { IfErr result (Failed D.fault_count D.state D.tells disk.old disk.new) }
    ensures whole { IsTrue disk.new.whole }
    ensures recording { IfOk result (λ e. e.recording < 1024) }
    ensures origin { IfOk result (λ e. IsOrigin (record { service = service; position = e.position; term = e.term })) }
{
    let is_there = service < disk.durable().services() as i32;
    if !has_set(disk.durable()) || !is_there {
        return Err(MemberFault::NoMemory);
    }
    disk.set_entry(service)
}

/// The services before any entry.
fn fresh_services(alloc: Global, kinds: &[Kind]) -> Result<Vec<Container>, NoMemory>
    requires { length kinds.now ≤ 3 }
    ensures { IfOk result (λ cs. cs.items ≡ first_containers 0 kinds.now) }
{
    let mut containers = Vec::new(alloc);
    for kind in kinds {
        let service = containers.len() as u8;
        let container = Container::fresh(alloc, *kind, service)?;
        if containers.push(container).is_err() {
            return Err(NoMemory);
        }
    }
    Ok(containers)
}

/// The services and the module before any entry.
#[tactic(auto, using(crate::proofs::Starting::new_first))]
fn fresh(alloc: Global, kinds: &[Kind]) -> Result<Start, NoMemory>
    requires { length kinds.now ≤ 3 }
    ensures start { IfOk result IsStart }
    ensures first { IfOk result (IsFirst kinds.now) }
    ensures none { IfOk result (λ s. s.module.ahead.entries ≡ []) }
{
    let containers = fresh_services(alloc, kinds)?;
    let state = ModuleState::fresh(alloc, kinds.len() as u8)?;
    Ok(Start {
        base: 0,
        module: MemberModule::new(alloc, state, 0),
        containers,
    })
}

/// A service of the latest valid set of snapshots, which goes on at an entry.
#[tactic(auto, using(crate::proofs::Phasing::begun_at))]
fn restored_one<D: Disk>(
    alloc: Global,
    kind: Kind,
    service: u8,
    disk: &mut MemberDisk<D>,
    entries: Option<u64>,
) -> Result<Container, MemberFault>
    requires low { service ≤ 2 }
    requires whole { IsTrue disk.old.whole }
    ensures at { IfOk result (IsAt (unwrap_or entries 0)) }
    ensures on { IsTrue (D.tells disk.old.disk) → IfOk result (GoesOn disk.old.kept (D.state disk.old.disk).files (unwrap_or entries 0) kind service) }
    ensures kept { disk.new.kept ≡ disk.old.kept }
    ensures looked { Looked D.state D.tells D.is_honest disk.old disk.new }
    ensures quiet { OnOk result (Quiet D.fault_count D.state D.tells disk.old disk.new) }
    ensures failed { IfErr result (Failed D.fault_count D.state D.tells disk.old disk.new) }
    ensures whole { IsTrue disk.new.whole }
{
    let set = set_of(disk, service as i32)?;
    let source = source_of(&set, service as i32, entries);
    restore_service(alloc, kind, service, &source, set.pieces.as_slice())
}

/// The services of the latest valid set of snapshots, which go on at an entry.
fn restored_services<D: Disk>(
    alloc: Global,
    kinds: &[Kind],
    disk: &mut MemberDisk<D>,
    entries: Option<u64>,
) -> Result<Vec<Container>, MemberFault>
    requires few { length kinds.now ≤ 3 }
    requires whole { IsTrue disk.old.whole }
    ensures services { IfOk result (λ cs. Each (IsAt (unwrap_or entries 0)) cs.items) }
    ensures on { IsTrue (D.tells disk.old.disk) → IfOk result (λ cs. GoOn disk.old.kept (D.state disk.old.disk).files (unwrap_or entries 0) kinds.now 0 cs.items) }
    ensures kept { disk.new.kept ≡ disk.old.kept }
    ensures looked { Looked D.state D.tells D.is_honest disk.old disk.new }
    ensures quiet { OnOk result (Quiet D.fault_count D.state D.tells disk.old disk.new) }
    ensures failed { IfErr result (Failed D.fault_count D.state D.tells disk.old disk.new) }
    ensures whole { IsTrue disk.new.whole }
{
    let mut containers = Vec::new(alloc);
    for kind in kinds {
        let service = containers.len() as u8;
        let container = restored_one(alloc, *kind, service, disk, entries)?;
        if containers.push(container).is_err() {
            return Err(MemberFault::NoMemory);
        }
    }
    Ok(containers)
}

/// The module of the latest valid set of snapshots, which goes on at an entry.
fn restored_state<D: Disk>(
    alloc: Global,
    services: u8,
    disk: &mut MemberDisk<D>,
    entries: Option<u64>,
) -> Result<ModuleState, MemberFault>
    requires few { services ≤ 3 }
    requires whole { IsTrue disk.old.whole }
    ensures on { IsTrue (D.tells disk.old.disk) → IfOk result (IsRestored disk.old.kept (D.state disk.old.disk).files services) }
    ensures kept { disk.new.kept ≡ disk.old.kept }
    ensures looked { Looked D.state D.tells D.is_honest disk.old disk.new }
    ensures quiet { OnOk result (Quiet D.fault_count D.state D.tells disk.old disk.new) }
    ensures failed { IfErr result (Failed D.fault_count D.state D.tells disk.old disk.new) }
    ensures whole { IsTrue disk.new.whole }
{
    let set = set_of(disk, -1)?;
    let source = source_of(&set, -1, entries);
    restore_module(alloc, services, &source, set.pieces.as_slice())
}

/// How many entries of the log end at a place, where one ends right there.
fn entries_ending(index: &LogIndex, place: u64) -> Option<u64>
    ensures count { unwrap_or result 0 ≡ ends_at place index.now }
    ensures within { unwrap_or result 0 ≤ length index.now }
{
    let count = index.entries_to(place);
    if index.end_at(count) == place && count > 0 {
        Some(count)
    } else {
        None
    }
}

/// The services and the module of the latest valid set of snapshots.
#[tactic(auto, using(crate::proofs::Entries::length_shape, crate::proofs::Sounding::few, crate::proofs::Starting::new_first))]
fn restored<D: Disk>(
    alloc: Global,
    kinds: &[Kind],
    disk: &mut MemberDisk<D>,
    latest: SnapshotAt,
) -> Result<Start, MemberFault>
    requires few { length kinds.now ≤ 3 }
    requires whole { IsTrue disk.old.whole }
    ensures start { IfOk result IsStart }
    ensures base { IfOk result (λ s. s.base ≡ ends_at latest.position (shape_of disk.old.kept.log)) }
    ensures within { IfOk result (λ s. s.base ≤ length disk.old.kept.log) }
    ensures none { IfOk result (λ s. s.module.ahead.entries ≡ []) }
    ensures on { IsTrue (D.tells disk.old.disk) → IfOk result (IsFromSet disk.old.kept (D.state disk.old.disk).files kinds.now) }
    ensures kept { disk.new.kept ≡ disk.old.kept }
    ensures looked { Looked D.state D.tells D.is_honest disk.old disk.new }
    ensures quiet { OnOk result (Quiet D.fault_count D.state D.tells disk.old disk.new) }
    ensures failed { IfErr result (Failed D.fault_count D.state D.tells disk.old disk.new) }
    ensures whole { IsTrue disk.new.whole }
{
    let entries = entries_ending(disk.index(), latest.position);
    let base = entries.unwrap_or(0);
    let containers = restored_services(alloc, kinds, disk, entries)?;
    let state = restored_state(alloc, kinds.len() as u8, disk, entries)?;
    Ok(Start {
        base,
        module: MemberModule::new(alloc, state, base),
        containers,
    })
}

/// The latest valid set.
fn latest_of(durable: &Durable) -> Option<SnapshotAt>
    ensures { MatchOption result (HasNoSet durable.now.services durable.now.entries) (IsNewest durable.now.services durable.now.entries) }
{
    let sets = durable.sets();
    if sets.is_empty() {
        return None;
    }
    Some(sets[sets.len() - 1])
}

/// The services and the module of the latest valid set of snapshots, or before any entry where there is none.
fn first_of<D: Disk>(
    alloc: Global,
    kinds: &[Kind],
    disk: &mut MemberDisk<D>,
) -> Result<Start, MemberFault>
    requires few { length kinds.now ≤ 3 }
    requires whole { IsTrue disk.old.whole }
    ensures start { IfOk result IsStart }
    ensures first { HasNoSet disk.old.kept.services disk.old.kept.entries → IfOk result (IsFirst kinds.now) }
    ensures base { (set : SnapshotAt) → IsNewest disk.old.kept.services disk.old.kept.entries set → IfOk result (λ s. s.base ≡ ends_at set.position (shape_of disk.old.kept.log)) }
    ensures within { IfOk result (λ s. s.base ≤ length disk.old.kept.log) }
    ensures none { IfOk result (λ s. s.module.ahead.entries ≡ []) }
    ensures on { IsTrue (D.tells disk.old.disk) → IfOk result (IsFromSet disk.old.kept (D.state disk.old.disk).files kinds.now) }
    ensures kept { disk.new.kept ≡ disk.old.kept }
    ensures looked { Looked D.state D.tells D.is_honest disk.old disk.new }
    ensures quiet { OnOk result (Quiet D.fault_count D.state D.tells disk.old disk.new) }
    ensures failed { IfErr result (Failed D.fault_count D.state D.tells disk.old disk.new) }
    ensures whole { IsTrue disk.new.whole }
{
    match latest_of(disk.durable()) {
        Some(latest) => restored(alloc, kinds, disk, latest),
        None => match fresh(alloc, kinds) {
            Ok(start) => Ok(start),
            Err(NoMemory) => Err(MemberFault::NoMemory),
        },
    }
}

/// The module has one more entry ahead.
#[tactic(auto, using(crate::proofs::Starting::new_more))]
fn take_one(module: &mut MemberModule, entry: Entry) -> Result<(), MemberFault>
    requires { IsNew module.old }
    ensures state { module.new.state ≡ module.old.state }
    ensures consumed { module.new.consumed ≡ module.old.consumed }
    ensures entries { OnOk result (module.new.ahead.entries ≡ module.old.ahead.entries ++ entry ∷ []) }
    ensures fresh { OnOk result (IsNew module.new) }
    ensures err { IfErr result (λ e. e ≡ MemberFault.NoMemory) }
{
    match module.append(entry) {
        Ok(()) => Ok(()),
        Err(NoMemory) => Err(MemberFault::NoMemory),
    }
}

/// The module has the log's entries past what it consumed ahead.
#[tactic(auto, using(crate::proofs::Entries::length_shape, crate::proofs::Disking::looked_none))]
fn read_ahead<D: Disk>(
    disk: &mut MemberDisk<D>,
    module: &mut MemberModule,
) -> Result<(), MemberFault>
    requires whole { IsTrue disk.old.whole }
    requires within { module.old.consumed ≤ length disk.old.kept.log }
    requires none { module.old.ahead.entries ≡ [] }
    requires fresh { IsNew module.old }
    ensures state { module.new.state ≡ module.old.state }
    ensures consumed { module.new.consumed ≡ module.old.consumed }
    ensures fresh { OnOk result (IsNew module.new) }
    ensures kept { disk.new.kept ≡ disk.old.kept }
    ensures looked { Looked D.state D.tells D.is_honest disk.old disk.new }
    ensures quiet { OnOk result (Quiet D.fault_count D.state D.tells disk.old disk.new) }
    ensures failed { IfErr result (Failed D.fault_count D.state D.tells disk.old disk.new) }
    ensures whole { IsTrue disk.new.whole }
    ensures ahead { OnOk result (HasAhead module.new disk.new.kept.log) }
    ensures exact { IsTrue (D.tells disk.old.disk) → OnOk result (module.new.ahead.entries ≡ drop module.old.consumed disk.old.kept.log) }
{
    let entries = disk.index().entries();
    for index in module.consumed()..entries {
        let entry = disk.read(index)?;
        take_one(module, entry)?;
    }
    Ok(())
}

/// What a member starts from, with the log's entries past the snapshot.
#[tactic(auto, using(crate::proofs::Disking::looked_more))]
fn begin<D: Disk>(
    alloc: Global,
    kinds: &[Kind],
    disk: &mut MemberDisk<D>,
) -> Result<Start, MemberFault>
    requires few { length kinds.now ≤ 3 }
    requires whole { IsTrue disk.old.whole }
    ensures start { IfOk result IsStart }
    ensures first { HasNoSet disk.old.kept.services disk.old.kept.entries → IfOk result (IsFirst kinds.now) }
    ensures base { (set : SnapshotAt) → IsNewest disk.old.kept.services disk.old.kept.entries set → IfOk result (λ s. s.base ≡ ends_at set.position (shape_of disk.old.kept.log)) }
    ensures within { IfOk result (λ s. s.base ≤ length disk.new.kept.log) }
    ensures ahead { IfOk result (λ s. HasAhead s.module disk.new.kept.log) }
    ensures exact { IsTrue (D.tells disk.old.disk) → IfOk result (λ s. s.module.ahead.entries ≡ drop s.base disk.old.kept.log) }
    ensures on { IsTrue (D.tells disk.old.disk) → IfOk result (IsFromSet disk.old.kept (D.state disk.old.disk).files kinds.now) }
    ensures kept { disk.new.kept ≡ disk.old.kept }
    ensures looked { Looked D.state D.tells D.is_honest disk.old disk.new }
    ensures quiet { OnOk result (Quiet D.fault_count D.state D.tells disk.old disk.new) }
    ensures failed { IfErr result (Failed D.fault_count D.state D.tells disk.old disk.new) }
    ensures whole { IsTrue disk.new.whole }
{
    let mut start = first_of(alloc, kinds, disk)?;
    read_ahead(disk, &mut start.module)?;
    Ok(start)
}

/// A member's part in the agreement as it starts, by its disk and the entries of its latest valid set.
fn core_of(alloc: Global, id: u8, members: u8, durable: &Durable, commit: u64) -> Core
    requires members { members ≤ 5 }
    requires id { id < members }
    ensures core { result ≡ started id members durable.now.node.term durable.now.node.voted commit }
    ensures range { IsTerm durable.now.node.term }
{
    let candidate = durable.candidate_term();
    let voted = durable.voted();
    Core::new(alloc, id, members, candidate, voted, commit)
}

impl<D: Disk> Agent<D> {
    /// Starts a member (row P1) from its disk alone: `id` of so many members, with one service of each kind. The
    /// services and the module go on from the latest valid set of snapshots. Damaged names the first wrong place. The
    /// disk comes back with an error.
    pub fn mount(
        alloc: Global,
        id: u8,
        members: u8,
        kinds: &[Kind],
        disk: D,
        _now: u64,
    ) -> Result<Agent<D>, (D, MemberFault)>
        requires members { members ≤ 5 }
        requires id { id < members }
        requires some { 1 ≤ length kinds.now }
        requires few { length kinds.now ≤ 3 }
        ensures tells { MatchResult result (λ a. D.tells a.disk.disk ≡ D.tells disk) (λ e. D.tells e.0 ≡ D.tells disk) }
        ensures honest { MatchResult result (λ a. D.is_honest a.disk.disk ≡ D.is_honest disk) (λ e. D.is_honest e.0 ≡ D.is_honest disk) }
        ensures core { IfOk result (λ a. a.core ≡ started id members a.disk.kept.node.term a.disk.kept.node.voted a.base) }
        ensures role { IfOk result (λ a. a.role ≡ Role.Follower) }
        ensures over { IfOk result (λ a. a.over ≡ false) }
        ensures within { IfOk result (λ a. a.base ≤ length a.disk.kept.log) }
        ensures fresh { IfOk result (λ a. IsNew a.module) }
        // What the disk stood for is kept, and nothing else: where a crash before would leave what a read gives, each image
        // stands for it then.
        ensures services { IfOk result (λ a. a.disk.kept.services ≡ length kinds.now) }
        ensures terms { IfOk result (λ a. HasTerms a.disk.kept) }
        ensures once { IsTrue (D.tells disk) → (kept : Kept) → ReadsLike kept (D.state disk).files → IsHeld kept.log → kept.services ≡ length kinds.now → IfOk result (λ a. a.disk.kept ≡ kept) }
        ensures settled { IsTrue (D.is_honest disk) → IsSettled (D.state disk).files → IfOk result (λ a. EachStands a.disk.kept (D.state a.disk.disk).files) }
        ensures idle { IfOk result (λ a. IsIdle (stage a.services a.module a.core a.over)) }
        ensures based { IfOk result (λ a. a.module.consumed ≡ a.base) }
        ensures whole { IfOk result (λ a. IsTrue a.is_whole) }

        // Without a valid set of snapshots the services and the module are before any entry. With one they go on past as
        // many entries as end at its position, where one ends right there.
        ensures first_base { IfOk result (λ a. HasNoSet a.disk.kept.services a.disk.kept.entries → a.base ≡ 0) }
        ensures first_services { IfOk result (λ a. HasNoSet a.disk.kept.services a.disk.kept.entries → a.services.kept ≡ first_containers 0 kinds.now) }
        ensures first_module { IfOk result (λ a. HasNoSet a.disk.kept.services a.disk.kept.entries → a.module.state ≡ first_module (length kinds.now)) }
        ensures base { IfOk result (λ a. (set : SnapshotAt) → IsNewest a.disk.kept.services a.disk.kept.entries set → a.base ≡ ends_at set.position (shape_of a.disk.kept.log)) }
        ensures services_from_set { IsTrue (D.tells disk) → IfOk result (λ a. GoOn a.disk.kept (D.state a.disk.disk).files a.base kinds.now 0 a.services.kept) }
        ensures module_from_set { IsTrue (D.tells disk) → IfOk result (λ a. IsRestored a.disk.kept (D.state a.disk.disk).files (length kinds.now) a.module.state) }
        ensures exact { IsTrue (D.tells disk) → IfOk result (λ a. a.module.ahead.entries ≡ drop a.base a.disk.kept.log) }

        // Past the mount of the disk it only looks. So whatever the answer, each image means what was kept, and a fuse ends
        // it as it ends that mount.
        ensures others { IsTrue (D.tells disk) → MatchResult result (λ a. OthersStay 0 (D.state disk).files (D.state a.disk.disk).files) (λ e. OthersStay 0 (D.state disk).files (D.state e.0).files) }
        ensures means { IsTrue (D.is_honest disk) → IsSettled (D.state disk).files → (kept : Kept) → ReadsLike kept (D.state disk).files
            → MatchResult result (λ a. EachImage (Means kept) (D.state a.disk.disk).files) (λ e. EachImage (Means kept) (D.state e.0).files) }
        ensures fuse { IsTrue (D.is_honest disk) → IsSettled (D.state disk).files → (kept : Kept) → ReadsLike kept (D.state disk).files
            → MatchResult result (λ a. MountEnds {T = Unit {0}} (mount_calls ((D.state disk).files 0).reads) kept (D.state disk) (D.state a.disk.disk) (Ok tt))
            (λ e. MountEnds {T = Unit {0}} (mount_calls ((D.state disk).files 0).reads) kept (D.state disk) (D.state e.0) (Err e.1)) }
        ensures cause { MatchResult result (λ a. D.fault_count disk ≤ D.fault_count a.disk.disk)
            (λ e. (D.fault_count disk ≤ D.fault_count e.0) × (e.1 ≡ MemberFault.Device → Rose (D.fault_count disk) (D.fault_count e.0))) }
    {
        let count = kinds.len() as u8;
        let mut disk = MemberDisk::mount(alloc, disk, count)?;
        match begin(alloc, kinds, &mut disk) {
            Ok(start) => {
                let _entries = disk.index().entries();
                let durable = disk.durable();
                let core = core_of(alloc, id, members, durable, start.base);
                Ok(Agent {
                    alloc,
                    core,
                    disk,
                    module: start.module,
                    services: Services::new(alloc, start.containers),
                    count,
                    base: start.base,
                    role: Role::Follower,
                    over: false,
                    is_whole: true,
                })
            }
            Err(fault) => Err((disk.into_disk(), fault)),
        }
    }
}
