// A member's life from its format on, one change after another, each stopped by a fuse or a call that fails.
use crate::disks::CHOICES;
use crate::member_rows::{Image, Member, OPEN, Stopped, TERM, append, filled, message, new_disk};
use cl_base::{Bytes, Choice, Disk, MemberFault};
use cl_memdisk::MemDisk;
use member_disk::{MemberDisk, SnapshotHead, format};
use std::alloc::Global;
use std::test::Fail;

/// The candidate term, the entries, the place (bytes), and the position of the latest valid set.
type State = (i64, u64, u64, Option<u64>);

#[derive(Clone, Copy)]
enum Change {
    /// Raises the candidate term to 0, with a vote for this member.
    Raise,
    Term,
    Open,
    /// Appends a message of so many letters.
    Message(usize),
    /// Keeps so many entries.
    Cut(u64),
    /// Puts the snapshot of service 0 at recording 1, or of the module at recording 0.
    Put(u8),
    Invalidate,
}

/// A change, how many calls it has, whether a crash leaves it done where it fills the last byte with 0x5a, and with 0xa7,
/// and the state after it.
type Row = (Change, u64, bool, bool, State);

/// The state of a new member.
const NEW: State = (-1, 0, 0, None);

const LIFE: [Row; 9] = [
    (Change::Raise, 5, false, true, (0, 0, 0, None)),
    // A TERM entry of five calls, which is a change of its own, and then the entry.
    (Change::Term, 10, true, false, (0, 1, 96, None)),
    (Change::Open, 5, true, false, (0, 2, 192, None)),
    (Change::Message(3_000), 5, true, false, (0, 3, 3_328, None)),
    (Change::Cut(2), 2, false, true, (0, 2, 192, None)),
    (Change::Cut(1), 2, false, true, (0, 1, 96, None)),
    (Change::Put(1), 8, true, false, (0, 1, 96, None)),
    (Change::Put(0), 8, true, false, (0, 1, 96, Some(96))),
    (Change::Invalidate, 2, true, true, (0, 1, 96, None)),
];

/// The state of a member whose first segment is nearly full.
const FULL: State = (-1, 65, 64_704, None);

const ROLLS: [Row; 5] = [
    // Behind a pad, in several frames. The cut takes the pad away too.
    (
        Change::Message(1_400),
        6,
        true,
        false,
        (-1, 66, 67_040, None),
    ),
    (Change::Cut(65), 2, false, true, (-1, 65, 64_704, None)),
    // To the segment's end, and behind a full segment.
    (Change::Message(768), 7, true, false, (-1, 66, 65_536, None)),
    (Change::Message(0), 5, true, false, (-1, 67, 65_600, None)),
    (Change::Cut(65), 2, false, true, (-1, 65, 64_704, None)),
];

/// How many calls a format makes.
const FORMAT: u64 = 6;

fn raise(member: Member) -> Result<Member, Stopped> {
    let mut member = member;
    if !member.is_whole() || member.durable().candidate_term() >= 0 {
        return Err((member.into_disk(), MemberFault::NoMemory));
    }
    match member.raise_term(0, Some(0)) {
        Ok(()) => Ok(member),
        Err(fault) => Err((member.into_disk(), fault)),
    }
}

fn cut(member: Member, entries: u64) -> Result<Member, Stopped> {
    let mut member = member;
    if !member.is_whole() || member.index().entries() < entries {
        return Err((member.into_disk(), MemberFault::NoMemory));
    }
    match member.cut(entries) {
        Ok(()) => Ok(member),
        Err(fault) => Err((member.into_disk(), fault)),
    }
}

/// A timer's piece.
const PIECE: [u8; 24] = [
    16, 0, 111, 0, 111, 0, 0, 0, 7, 0, 0, 0, 0, 0, 0, 0, 8, 0, 0, 0, 0, 0, 0, 0,
];

/// Puts a snapshot at a position, of the recording 0 for the module and 1 for service 0.
pub(crate) fn put(
    alloc: Global,
    member: Member,
    recording: u8,
    position: u32,
) -> Result<Member, Stopped> {
    let mut member = member;
    let head = SnapshotHead {
        recording: u64::from(recording),
        service: i32::from(recording) - 1,
        term: 0,
        position: u64::from(position),
        stamp: 420,
    };
    let Ok(piece) = Bytes::of(alloc, &PIECE) else {
        return Err((member.into_disk(), MemberFault::NoMemory));
    };
    if !member.is_whole() {
        return Err((member.into_disk(), MemberFault::NoMemory));
    }
    match member.put_snapshot(head, &[piece]) {
        Ok(()) => Ok(member),
        Err(fault) => Err((member.into_disk(), fault)),
    }
}

/// Invalidates the latest valid set, and says whether there was one.
pub(crate) fn invalidate(member: Member) -> Result<(Member, bool), Stopped> {
    let mut member = member;
    if !member.is_whole() {
        return Err((member.into_disk(), MemberFault::NoMemory));
    }
    match member.invalidate() {
        Ok(found) => Ok((member, found)),
        Err(fault) => Err((member.into_disk(), fault)),
    }
}

fn make(alloc: Global, member: Member, change: Change) -> Result<Member, Stopped> {
    match change {
        Change::Raise => raise(member),
        Change::Term => append(alloc, member, &TERM),
        Change::Open => append(alloc, member, &OPEN),
        Change::Message(letters) => match message(alloc, letters) {
            Some(event) => append(alloc, member, &event),
            None => Err((member.into_disk(), MemberFault::NoMemory)),
        },
        Change::Cut(entries) => cut(member, entries),
        Change::Put(recording) => put(alloc, member, recording, 96),
        Change::Invalidate => match invalidate(member) {
            Ok((member, _)) => Ok(member),
            Err(stopped) => Err(stopped),
        },
    }
}

/// Mounts a disk and makes the changes in turn, up to one that fails. It gives how many were made, what the failing one
/// answered, and the disk.
fn lived(alloc: Global, disk: MemDisk, life: &[Row]) -> (usize, Option<MemberFault>, MemDisk) {
    let mut member = match MemberDisk::mount(alloc, disk, 1) {
        Ok(member) => member,
        Err((disk, fault)) => return (0, Some(fault), disk),
    };
    for done in 0..life.len() {
        member = match make(alloc, member, life[done].0) {
            Ok(member) => member,
            Err((disk, fault)) => return (done, Some(fault), disk),
        };
    }
    (life.len(), None, member.into_disk())
}

/// The state that a mount finds.
pub(crate) fn state_of(alloc: Global, disk: MemDisk) -> Option<State> {
    let Ok(member) = MemberDisk::mount(alloc, disk, 1) else {
        return None;
    };
    let durable = member.durable();
    let latest = match durable.sets().last() {
        Some(set) => Some(set.position),
        None => None,
    };
    let index = member.index();
    Some((
        durable.candidate_term(),
        index.entries(),
        index.place(),
        latest,
    ))
}

/// The state after so many changes, from a first state.
fn state_after(first: State, life: &[Row], done: usize) -> State {
    if done == 0 || done > life.len() {
        return first;
    }
    life[done - 1].4
}

/// How many changes a fuse of so many calls lets be made, and how many there are after a crash by a choice.
fn made_under(life: &[Row], fuse: u64, choice: Choice) -> (usize, usize) {
    let mut left = fuse;
    for done in 0..life.len() {
        let (_, calls, by_5a, by_a7, _) = life[done];
        if left < calls {
            let takes = match choice {
                Choice::Drop => false,
                Choice::Keep => true,
                Choice::Fill(byte) => byte == 0x5a && by_5a || byte == 0xa7 && by_a7,
            };
            let is_last = left.saturating_add(1) == calls;
            return (done, if is_last && takes { done + 1 } else { done });
        }
        left -= calls;
    }
    (life.len(), life.len())
}

/// Whether a life on this disk that a fuse ends, and a crash, leave the state that the table gives.
fn is_left(alloc: Global, disk: MemDisk, first: State, life: &[Row], fuse: (u64, Choice)) -> bool {
    let mut disk = disk;
    disk.fuse(fuse.0);
    let (done, fault, mut disk) = lived(alloc, disk, life);
    disk.crash(fuse.1);
    let (made, left) = made_under(life, fuse.0, fuse.1);
    let is_whole = made == life.len();
    done == made
        && fault.is_none() == is_whole
        && (is_whole || fault == Some(MemberFault::Device))
        && state_of(alloc, disk) == Some(state_after(first, life, left))
}

/// The disk of a member whose first segment is nearly full.
fn full(alloc: Global) -> Option<Image> {
    Image::of(alloc, filled(alloc, 63)?.into_disk())
}

#[test]
fn a_fuse_leaves_the_state_before_or_after(rt: HostRuntime) -> Result<(), Fail> {
    let alloc = rt.alloc();
    for choice in CHOICES {
        for fuse in 0..48 {
            let disk = new_disk(alloc, None).ok_or("disk")?;
            assert!(rt;
                is_left(alloc, disk, NEW, &LIFE, (fuse, choice)),
                "{fuse} calls"
            );
        }
    }
    Ok(())
}

/// Whether a life on this disk, of which a call fails, and a crash leave the state before or after the change in which it
/// failed. None where no call failed.
fn is_left_by(
    alloc: Global,
    disk: MemDisk,
    first: State,
    life: &[Row],
    choice: Choice,
) -> Option<bool> {
    let (done, fault, mut disk) = lived(alloc, disk, life);
    let fault = fault?;
    disk.crash(choice);
    let found = state_of(alloc, disk);
    let is_before = found == Some(state_after(first, life, done));
    let is_after = found == Some(state_after(first, life, done.saturating_add(1)));
    Some(fault == MemberFault::Device && (is_before || is_after))
}

#[test]
fn a_call_that_fails_leaves_the_state_before_or_after(rt: HostRuntime) -> Result<(), Fail> {
    let alloc = rt.alloc();
    for choice in CHOICES {
        let mut failed = 0u64;
        for call in FORMAT + 1..999 {
            let disk = new_disk(alloc, Some(call)).ok_or("disk")?;
            match is_left_by(alloc, disk, NEW, &LIFE, choice) {
                None => break,
                Some(is_left) => assert!(rt; is_left, "call {call}"),
            }
            failed = failed.saturating_add(1);
        }
        // The changing calls are 47, and a mount reads.
        assert!(rt; failed > 47 && failed < 900);
    }
    Ok(())
}

#[test]
fn a_call_that_fails_in_a_roll_leaves_one_side(rt: HostRuntime) -> Result<(), Fail> {
    let alloc = rt.alloc();
    let image = full(alloc).ok_or("image")?;
    let mut failed = 0u64;
    // The first calls are reads of the mount, more than a hundred.
    for call in 120..999u64 {
        let disk = image.disk(alloc, Some(call)).ok_or("disk")?;
        match is_left_by(alloc, disk, FULL, &ROLLS, Choice::Fill(0x5a)) {
            None => break,
            Some(is_left) => assert!(rt; is_left, "call {call}"),
        }
        failed = failed.saturating_add(1);
    }
    // The changing calls are 22.
    assert!(rt; failed > 22 && failed < 900);
    Ok(())
}

#[test]
fn a_call_of_a_format_may_fail(rt: HostRuntime) -> Result<(), Fail> {
    let alloc = rt.alloc();
    for call in 1..=FORMAT + 1 {
        let mut failing = Vec::new(alloc);
        failing.push(call)?;
        let mut disk = MemDisk::new(alloc, failing).ok().ok_or("disk")?;
        let answer = format(&mut disk);
        let want = if call <= FORMAT {
            Err(MemberFault::Device)
        } else {
            Ok(())
        };
        assert!(rt; answer == want, "call {call}");
        assert!(rt; disk.faults() == if call <= FORMAT { 1 } else { 0 });
    }
    Ok(())
}
