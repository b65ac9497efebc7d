// What a fuse or a call that fails, and then a crash, leave of a backup.
use crate::packets::tests::{LOG, MODULE, SERVICE};
use crate::takes::{new_disk, taken};
use cl_base::{Choice, Disk};
use cl_memdisk::MemDisk;
use cluster_backup::Backup;
use std::alloc::Global;
use std::test::Fail;

const CHOICES: [Choice; 4] = [
    Choice::Drop,
    Choice::Keep,
    Choice::Fill(0x5a),
    Choice::Fill(0xa7),
];

/// What a mount finds: how many entries, and the position of the latest valid set, None where the mount fails.
type Found = Option<(u64, Option<u64>)>;

/// Nothing, a log of two entries, and these with a set at their end.
const FRONTS: [Found; 3] = [Some((0, None)), Some((2, None)), Some((2, Some(160)))];

fn state_of(backup: &Backup<MemDisk>) -> (u64, Option<u64>) {
    let latest = match backup.durable().sets().last() {
        Some(set) => Some(set.position),
        None => None,
    };
    (backup.index().entries(), latest)
}

fn found(alloc: Global, disk: MemDisk) -> Found {
    match Backup::mount(alloc, disk, 1) {
        Ok(backup) => Some(state_of(&backup)),
        Err(_) => None,
    }
}

/// The disk of a backup that took these packets.
fn disk_after(alloc: Global, packets: &[&[u8]]) -> Option<MemDisk> {
    match taken(alloc, new_disk(alloc, 0)?, packets) {
        (true, disk) => Some(disk),
        _ => None,
    }
}

/// Gives a packet to the backup on this disk under a fuse, and crashes. It says whether the packet was taken, and what
/// a mount then finds.
fn taken_under(
    alloc: Global,
    mut disk: MemDisk,
    packet: &[u8],
    calls: u64,
    choice: Choice,
) -> (bool, Found) {
    disk.fuse(calls);
    let (is_done, mut disk) = taken(alloc, disk, &[packet]);
    disk.crash(choice);
    (is_done, found(alloc, disk))
}

/// Whether a crash by this choice leaves a gate open that was written and not synced.
fn takes_gate(choice: Choice) -> bool {
    choice == Choice::Keep || choice == Choice::Fill(0x5a)
}

/// Whether a fuse that ends the last of so many calls, and a crash, leave what was before or after by the choice, and
/// one that ends an earlier call leaves what was before.
fn is_one_change(
    alloc: Global,
    before: &[&[u8]],
    packet: &[u8],
    calls: u64,
    fronts: (Found, Found),
) -> bool {
    for choice in CHOICES {
        for fuse in 0..calls.saturating_add(1) {
            let Some(disk) = disk_after(alloc, before) else {
                return false;
            };
            let is_last = fuse.saturating_add(1) == calls;
            let is_after = fuse == calls || is_last && takes_gate(choice);
            let want = if is_after { fronts.1 } else { fronts.0 };
            if taken_under(alloc, disk, packet, fuse, choice) != (fuse == calls, want) {
                return false;
            }
        }
    }
    true
}

/// A TERM entry of five calls comes before a batch of five. The three calls of a file of pieces come before the five of
/// its entry.
#[test]
fn a_fuse_leaves_what_was_before_or_after(rt: HostRuntime) -> Result<(), Fail> {
    let alloc = rt.alloc();
    let [nothing, log, set] = FRONTS;
    assert!(rt; is_one_change(alloc, &[], &LOG, 10, (nothing, log)));
    assert!(rt; is_one_change(alloc, &[&LOG, &MODULE], &SERVICE, 8, (log, set)));
    assert!(rt; is_one_change(alloc, &[&LOG, &SERVICE], &MODULE, 8, (log, set)));
    Ok(())
}

/// No candidate term in either slot, of version 1.
const OLD: [u8; 32] = [
    255, 255, 255, 255, 255, 255, 255, 255, 255, 255, 255, 255, 255, 255, 255, 255, 0, 1, 0, 0, 0,
    0, 0, 0, 0, 0, 0, 0, 0, 0, 0, 0,
];

/// Mounts the files of a backup with a node state of version 1 under a fuse, and crashes.
fn mounted_under(alloc: Global, calls: u64, choice: Choice) -> Option<(bool, Found)> {
    let mut disk = disk_after(alloc, &[&LOG, &SERVICE, &MODULE])?;
    if disk.write_at(0, 0, &OLD).is_err() || disk.sync(0).is_err() {
        return None;
    }
    disk.fuse(calls);
    let (is_done, mut disk) = taken(alloc, disk, &[]);
    disk.crash(choice);
    Some((is_done, found(alloc, disk)))
}

#[test]
fn a_fuse_in_a_mount_leaves_all(rt: HostRuntime) -> Result<(), Fail> {
    let alloc = rt.alloc();
    let [_, _, set] = FRONTS;
    for choice in CHOICES {
        for calls in 0..5 {
            assert!(rt; mounted_under(alloc, calls, choice) == Some((calls == 4, set)));
        }
    }
    Ok(())
}

/// Which of the fronts this is.
fn front_of(found: Found) -> Option<usize> {
    for front in 0..FRONTS.len() {
        if FRONTS[front] == found {
            return Some(front);
        }
    }
    None
}

/// Which front is left where this call of the disk fails, and then a crash comes, and whether all can be taken then.
/// None where the call doesn't come.
fn left_by(alloc: Global, call: u64, choice: Choice) -> Option<(Option<usize>, bool)> {
    let packets: [&[u8]; 3] = [&LOG, &SERVICE, &MODULE];
    let (is_done, mut disk) = taken(alloc, new_disk(alloc, call)?, &packets);
    if is_done {
        return None;
    }
    disk.crash(choice);
    let Ok(backup) = Backup::mount(alloc, disk, 1) else {
        return Some((None, false));
    };
    let front = front_of(Some(state_of(&backup)));
    let (is_done, disk) = taken(alloc, backup.into_disk(), &packets);
    Some((front, is_done && found(alloc, disk) == FRONTS[2]))
}

#[test]
fn a_call_that_fails_leaves_a_front(rt: HostRuntime) -> Result<(), Fail> {
    let alloc = rt.alloc();
    for choice in CHOICES {
        let mut least = 0usize;
        let mut failed = 0u64;
        // A format makes six calls. A later call that fails leaves no less.
        for call in 7..500u64 {
            let Some((front, is_whole)) = left_by(alloc, call, choice) else {
                break;
            };
            let front = front.ok_or("front")?;
            assert!(rt; is_whole && front >= least, "call {call}");
            least = front;
            failed = failed.saturating_add(1);
        }
        // The changing calls alone are 26, and the last of them is the sync of a gate.
        let last = if takes_gate(choice) { 2 } else { 1 };
        assert!(rt; failed > 26 && failed < 400 && least == last);
    }
    Ok(())
}
