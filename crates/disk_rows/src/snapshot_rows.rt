// Snapshots of a service and of the module behind a log that ends with a snapshot action.
use crate::disks::CHOICES;
use crate::life_rows::{invalidate, put, state_of};
use crate::member_rows::{Member, OPEN, TERM, member_with, mounted};
use cl_base::{Choice, Disk};
use cl_memdisk::MemDisk;
use std::alloc::Global;
use std::test::Fail;

/// A message of session 1 in term 0, of eight bytes, at 410 ms.
const AMOUNT: [u8; 40] = [
    0x18, 0, 1, 0, 0x6f, 0, 0, 0, 0, 0, 0, 0, 0, 0, 0, 0, 1, 0, 0, 0, 0, 0, 0, 0, 0x9a, 1, 0, 0, 0,
    0, 0, 0, 5, 0, 0, 0, 0, 0, 0, 0,
];

/// A snapshot action at place 288 in term 0, at 420 ms.
const ACTION: [u8; 36] = [
    0x1c, 0, 0x17, 0, 0x6f, 0, 0, 0, 0, 0, 0, 0, 0, 0, 0, 0, 0x20, 1, 0, 0, 0, 0, 0, 0, 0xa4, 1, 0,
    0, 0, 0, 0, 0, 2, 0, 0, 0,
];

/// Four entries, which end at place 384, and the position of the latest valid set.
type Found = Option<(i64, u64, u64, Option<u64>)>;

const NO_SET: Found = Some((-1, 4, 384, None));

const SET: Found = Some((-1, 4, 384, Some(384)));

fn member(alloc: Global) -> Option<Member> {
    member_with(alloc, &[&TERM, &OPEN, &AMOUNT, &ACTION])
}

/// Puts the snapshots of the service and of the module under a fuse, and crashes. It says whether both were put.
fn put_under(alloc: Global, calls: u64, choice: Choice) -> Option<(bool, MemDisk)> {
    let mut member = member(alloc)?;
    member.fuse(calls);
    let (is_done, mut disk) = match put_both(alloc, member) {
        Ok(member) => (true, member.into_disk()),
        Err(disk) => (false, disk),
    };
    disk.crash(choice);
    Some((is_done, disk))
}

fn put_both(alloc: Global, member: Member) -> Result<Member, MemDisk> {
    match put(alloc, member, 1, 384) {
        Ok(member) => match put(alloc, member, 0, 384) {
            Ok(member) => Ok(member),
            Err((disk, _)) => Err(disk),
        },
        Err((disk, _)) => Err(disk),
    }
}

#[test]
fn a_set_is_there_with_the_modules_snapshot(rt: HostRuntime) -> Result<(), Fail> {
    let alloc = rt.alloc();
    for choice in CHOICES {
        for calls in 0..17 {
            let (is_done, disk) = put_under(alloc, calls, choice).ok_or("put")?;
            let takes_gate = choice == Choice::Keep || choice == Choice::Fill(0x5a);
            let want = if calls == 16 || calls == 15 && takes_gate {
                SET
            } else {
                NO_SET
            };
            assert!(rt;
                is_done == (calls == 16) && state_of(alloc, disk) == want,
                "{calls} calls"
            );
        }
    }
    Ok(())
}

#[test]
fn a_snapshot_that_is_there_is_not_put_again(rt: HostRuntime) -> Result<(), Fail> {
    let alloc = rt.alloc();
    // The service's snapshot is put, and not the module's.
    let (is_done, disk) = put_under(alloc, 8, Choice::Drop).ok_or("put")?;
    assert!(rt; !is_done);
    let mut member = mounted(alloc, disk).ok_or("mount")?;
    assert!(rt; member.durable().sets().is_empty());
    // Eight calls are enough for both, since the service's needs none.
    member.fuse(8);
    let mut disk = put_both(alloc, member).ok().ok_or("put")?.into_disk();
    disk.crash(Choice::Drop);
    assert!(rt; state_of(alloc, disk) == SET);
    Ok(())
}

#[test]
fn a_set_is_invalidated_once(rt: HostRuntime) -> Result<(), Fail> {
    let alloc = rt.alloc();
    let (_, disk) = put_under(alloc, 16, Choice::Drop).ok_or("put")?;
    let member = mounted(alloc, disk).ok_or("mount")?;
    let (member, first) = invalidate(member).ok().ok_or("first")?;
    let (member, second) = invalidate(member).ok().ok_or("second")?;
    assert!(rt; first && !second);
    assert!(rt; state_of(alloc, member.into_disk()) == NO_SET);
    Ok(())
}
