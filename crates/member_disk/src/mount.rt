// What a disk stands for, as it is mounted.
ghost use Rattle.std.specs.Prelude.{◌≡◌, ◌+◌, ◌<◌, ◌≤◌, ◌^◌, ℕ, false, IsTrue, IfOk, IfErr, OnOk, length};
ghost use Rattle.cl_base.specs.Faults.{HasMountCause};
ghost use Rattle.cl_base.specs.Disk.{LeavesOnly, OthersStay, IsImageOf};
ghost use Rattle.cl_base.specs.Looks.{Looks};
ghost use Rattle.recording_log.specs.Entries.{Holds};
ghost use Rattle.recording_log.specs.Listed.{AreSets};
ghost use Rattle.log_segment.specs.Segment.{LogIs};
ghost use Rattle.log_segment.specs.Held.{IsHeld, new_terms};
ghost use Rattle.entry_log.specs.Log.{Log};
ghost use Rattle.node_state.specs.Node.{IsVersionTwo, mount_calls};
ghost use Rattle.member_disk.specs.Parts.{MountEnds};
ghost use Rattle.member_disk.specs.Kept.{Kept, ReadsAs, ReadsLike, Means, EachStands, IsSettled};
ghost use Rattle.member_disk.specs.Changes.{HaveTerms, HaveEach};

use crate::durable::Durable;
use cl_base::{Disk, MemberFault};
use log_segment::{NewTerm, Segments};
use node_state::NodeState;
use recording_log::{MODULE, RecordingLog, SnapshotAt, TermAt};
use std::alloc::Global;

/// How many recordings of snapshots there are.
const RECORDINGS: usize = 1_024;

/// Reads what the files stand for. Of the files' wrong places the first is Damaged: first of the node state, then of the
/// recording log, then of the segments, then a missing TERM entry, then of the snapshots of valid sets.
pub fn mount_files<D: Disk>(
    alloc: Global,
    disk: &mut D,
    services: u8,
) -> Result<Durable, MemberFault>
    ensures cause { HasMountCause (D.fault_count disk.old) (D.fault_count disk.new) result }
    ensures tells { D.tells disk.new ≡ D.tells disk.old }
    ensures honest { D.is_honest disk.new ≡ D.is_honest disk.old }
    ensures services { IfOk result (λ d. d.services ≡ services) }
    ensures terms { IfOk result (λ d. HaveTerms d.entries (new_terms 0 d.log)) }
    ensures gives { IsTrue (D.tells disk.old) → IfOk result (λ d. ReadsLike d (D.state disk.old).files) }
    ensures stands { IsTrue (D.tells disk.old) → IfOk result (λ d. ReadsAs d (D.state disk.new).files) }
    ensures others { IsTrue (D.tells disk.old) → OthersStay 0 (D.state disk.old).files (D.state disk.new).files }

    // Where the node state is of version 2, it only looks: no changing call is made.
    ensures looks { IsTrue (D.tells disk.old) → IsVersionTwo ((D.state disk.old).files 0).reads → Looks MemberFault.Device (D.state disk.old) (D.state disk.new) result }
    ensures any_moment { IsTrue (D.is_honest disk.old) → IsVersionTwo ((D.state disk.old).files 0).reads → LeavesOnly D.moment D.left_since disk.old disk.new (IsImageOf (D.state disk.old).files) }

    // It is the only one that they stand for.
    ensures once { IsTrue (D.tells disk.old) → (kept : Kept) → ReadsLike kept (D.state disk.old).files → IsHeld kept.log → kept.services ≡ services → IfOk result (λ d. d ≡ kept) }

    // Where a crash before would leave what a read gives, each image stands for it then, and at any moment of the call
    // each means it, as does what each choice leaves where a fuse ends it.
    ensures settled { IsTrue (D.is_honest disk.old) → IsSettled (D.state disk.old).files → IfOk result (λ d. EachStands d (D.state disk.new).files) }
    ensures run { IsTrue (D.is_honest disk.old) → IsSettled (D.state disk.old).files → (kept : Kept) → ReadsLike kept (D.state disk.old).files → LeavesOnly D.moment D.left_since disk.old disk.new (Means kept) }
    ensures fuse { IsTrue (D.is_honest disk.old) → IsSettled (D.state disk.old).files → (kept : Kept) → ReadsLike kept (D.state disk.old).files
        → MountEnds (mount_calls ((D.state disk.old).files 0).reads) kept (D.state disk.old) (D.state disk.new) result }
{
    match NodeState::mount(disk) {
        Ok(node) => match read_rest(alloc, disk, services) {
            Ok((recording, log, sets)) => Ok(Durable {
                alloc,
                node,
                recording,
                log,
                sets,
                services,
            }),
            Err(fault) => Err(fault),
        },
        Err(fault) => Err(fault),
    }
}

/// Reads the recording log and the segments, and looks at the TERM entries and the snapshots.
fn read_rest<D: Disk>(
    alloc: Global,
    disk: &mut D,
    services: u8,
) -> Result<(RecordingLog, Segments, Vec<SnapshotAt>), MemberFault>
    ensures cause { HasMountCause (D.fault_count disk.old) (D.fault_count disk.new) result }
    ensures tells { D.tells disk.new ≡ D.tells disk.old }
    ensures honest { D.is_honest disk.new ≡ D.is_honest disk.old }
    ensures looks { IsTrue (D.tells disk.old) → Looks MemberFault.Device (D.state disk.old) (D.state disk.new) result }
    ensures any_moment { IsTrue (D.is_honest disk.old) → LeavesOnly D.moment D.left_since disk.old disk.new (IsImageOf (D.state disk.old).files) }
    ensures sets { IfOk result (λ x. AreSets services x.0 x.2.items) }
    ensures terms { IfOk result (λ x. HaveTerms x.0 (new_terms 0 x.1)) }
    ensures entries { IsTrue (D.tells disk.old) → IfOk result (λ x. Holds x.0 ((D.state disk.old).files 1).reads) }
    ensures log { IsTrue (D.tells disk.old) → IfOk result (λ x. LogIs x.1 (λ f. ((D.state disk.old).files f).reads)) }
    ensures once { IsTrue (D.tells disk.old) → (log : Log) → IsHeld log → LogIs log (λ f. ((D.state disk.old).files f).reads) → IfOk result (λ x. x.1 ≡ log) }
{
    match RecordingLog::mount(alloc, disk) {
        Ok(recording) => match Segments::mount(alloc, disk) {
            Ok(log) => match look_at(alloc, disk, services, &recording, &log) {
                Ok(sets) => Ok((recording, log, sets)),
                Err(fault) => Err(fault),
            },
            Err(fault) => Err(fault),
        },
        Err(fault) => Err(fault),
    }
}

/// Looks at the TERM entries that the log needs, and at the snapshots of the valid sets, which it lists.
fn look_at<D: Disk>(
    alloc: Global,
    disk: &mut D,
    services: u8,
    recording: &RecordingLog,
    log: &Segments,
) -> Result<Vec<SnapshotAt>, MemberFault>
    ensures cause { HasMountCause (D.fault_count disk.old) (D.fault_count disk.new) result }
    ensures tells { D.tells disk.new ≡ D.tells disk.old }
    ensures honest { D.is_honest disk.new ≡ D.is_honest disk.old }
    ensures looks { IsTrue (D.tells disk.old) → (D.state disk.old).burnt ≡ false → Looks MemberFault.Device (D.state disk.old) (D.state disk.new) result }
    ensures files { IsTrue (D.tells disk.old) → (g : ℕ) → (D.state disk.new).files g ≡ (D.state disk.old).files g }
    ensures any_moment { IsTrue (D.is_honest disk.old) → LeavesOnly D.moment D.left_since disk.old disk.new (IsImageOf (D.state disk.old).files) }
    ensures sets { IfOk result (λ v. AreSets services recording.now v.items) }
    ensures terms { IfOk result (λ _. HaveTerms recording.now (new_terms 0 log.now)) }
{
    check_terms(recording, log)?;
    let sets = sets_of(alloc, recording, services)?;
    let marks = marks_of(recording, &sets, services);
    match check_snapshots(alloc, disk, &marks) {
        Ok(()) => Ok(sets),
        Err(fault) => Err(fault),
    }
}

/// The valid sets.
fn sets_of(
    alloc: Global,
    recording: &RecordingLog,
    services: u8,
) -> Result<Vec<SnapshotAt>, MemberFault>
    ensures sets { IfOk result (λ v. AreSets services recording.now v.items) }
    ensures err { IfErr result (λ e. e ≡ MemberFault.NoMemory) }
{
    let mut sets = Vec::new(alloc);
    if recording.reserve_sets(&mut sets, 0).is_err() {
        return Err(MemberFault::NoMemory);
    }
    recording.list_sets(services, &mut sets);
    Ok(sets)
}

/// Each new term entry of the log has a valid TERM entry.
fn check_terms(recording: &RecordingLog, log: &Segments) -> Result<(), MemberFault>
    ensures err { IfErr result (λ e. e ≡ MemberFault.Damaged 1 0) }
    ensures there { OnOk result (HaveTerms recording.now (new_terms 0 log.now)) }
{
    if find_terms(recording, log.terms()) {
        Ok(())
    } else {
        Err(MemberFault::Damaged { file: 1, place: 0 })
    }
}

/// Each of these terms has a valid TERM entry.
fn find_terms(recording: &RecordingLog, terms: &[NewTerm]) -> bool
    ensures { IsTrue result → HaveEach recording.now terms.now (length terms.now) }
{
    let mut from = 0;
    for new in terms {
        let term = TermAt {
            term: new.term,
            base: new.base,
            stamp: new.stamp,
        };
        let Some(at) = recording.find_term(term, from) else {
            return false;
        };
        from = at;
    }
    true
}

/// The recordings of the entries of these sets.
fn marks_of(recording: &RecordingLog, sets: &[SnapshotAt], services: u8) -> [bool; RECORDINGS]
    requires { AreSets services recording.now sets.now }
{
    let mut marks = [false; RECORDINGS];
    for set in sets {
        mark_set(recording, *set, services, &mut marks);
    }
    marks
}

/// Marks the recordings of the entries of a set.
fn mark_set(recording: &RecordingLog, set: SnapshotAt, services: u8, marks: &mut [bool])
    requires recording { set.recording < 1024 }
    requires position { set.position ≤ 2 ^ 62 }
    requires size { length marks.old ≡ 1024 }
    ensures { length marks.new ≡ 1024 }
{
    for service in MODULE..i32::from(services) {
        if let Some(entry) = recording.last_part(set, service) {
            marks[entry.as_snapshot().recording as usize] = true;
        }
    }
}

/// The snapshots of these recordings are of their form.
fn check_snapshots<D: Disk>(
    alloc: Global,
    disk: &mut D,
    marks: &[bool; RECORDINGS],
) -> Result<(), MemberFault>
    ensures cause { HasMountCause (D.fault_count disk.old) (D.fault_count disk.new) result }
    ensures tells { D.tells disk.new ≡ D.tells disk.old }
    ensures honest { D.is_honest disk.new ≡ D.is_honest disk.old }
    ensures looks { IsTrue (D.tells disk.old) → (D.state disk.old).burnt ≡ false → Looks MemberFault.Device (D.state disk.old) (D.state disk.new) result }
    ensures files { IsTrue (D.tells disk.old) → (g : ℕ) → (D.state disk.new).files g ≡ (D.state disk.old).files g }
    ensures any_moment { IsTrue (D.is_honest disk.old) → LeavesOnly D.moment D.left_since disk.old disk.new (IsImageOf (D.state disk.old).files) }
{
    for recording in 0..RECORDINGS {
        match check_marked(alloc, disk, marks[recording], recording as u64) {
            Ok(()) => (),
            Err(fault) => return Err(fault),
        }
    }
    Ok(())
}

/// The snapshot of a recording is of its form, if it is marked.
fn check_marked<D: Disk>(
    alloc: Global,
    disk: &mut D,
    is_marked: bool,
    recording: u64,
) -> Result<(), MemberFault>
    requires { recording < 1024 }
    ensures cause { HasMountCause (D.fault_count disk.old) (D.fault_count disk.new) result }
    ensures tells { D.tells disk.new ≡ D.tells disk.old }
    ensures honest { D.is_honest disk.new ≡ D.is_honest disk.old }
    ensures looks { IsTrue (D.tells disk.old) → (D.state disk.old).burnt ≡ false → Looks MemberFault.Device (D.state disk.old) (D.state disk.new) result }
    ensures files { IsTrue (D.tells disk.old) → (g : ℕ) → (D.state disk.new).files g ≡ (D.state disk.old).files g }
    ensures any_moment { IsTrue (D.is_honest disk.old) → LeavesOnly D.moment D.left_since disk.old disk.new (IsImageOf (D.state disk.old).files) }
{
    if !is_marked {
        return Ok(());
    }
    check_snapshot(alloc, disk, recording)
}

/// The snapshot of a recording is of its form.
fn check_snapshot<D: Disk>(alloc: Global, disk: &mut D, recording: u64) -> Result<(), MemberFault>
    requires { recording < 1024 }
    ensures cause { HasMountCause (D.fault_count disk.old) (D.fault_count disk.new) result }
    ensures tells { D.tells disk.new ≡ D.tells disk.old }
    ensures honest { D.is_honest disk.new ≡ D.is_honest disk.old }
    ensures looks { IsTrue (D.tells disk.old) → Looks MemberFault.Device (D.state disk.old) (D.state disk.new) result }
    ensures any_moment { IsTrue (D.is_honest disk.old) → LeavesOnly D.moment D.left_since disk.old disk.new (IsImageOf (D.state disk.old).files) }
{
    match snapshot_store::read(alloc, disk, recording) {
        Ok(_) => Ok(()),
        Err(fault) => Err(fault),
    }
}
