// Members whose logs grow, and what a mount of their disks finds.
ghost use Rattle.std.specs.Prelude.{IfSome};
ghost use Rattle.log_segment.specs.Held.{IsEventEntry};

use cl_base::{Bytes, Choice, Disk, Entry, MemberFault};
use cl_memdisk::MemDisk;
use member_disk::{MemberDisk, format};
use sbe_events::{decode_event, term_of};
use std::alloc::Global;

pub(crate) type Member = MemberDisk<MemDisk>;

/// What is left where a change isn't done: the disk, and the fault that was answered.
pub(crate) type Stopped = (MemDisk, MemberFault);

/// How many entries a log has, and its place in bytes.
pub(crate) type Log = (u64, u64);

/// Member 0 leads term 0 from 340 ms on.
pub(crate) const TERM: [u8; 48] = [
    0x28, 0, 0x18, 0, 0x6f, 0, 0, 0, 0, 0, 0, 0, 0, 0, 0, 0, 0, 0, 0, 0, 0, 0, 0, 0, 0x54, 1, 0, 0,
    0, 0, 0, 0, 0, 0, 0, 0, 0, 0, 0, 0, 0, 0, 0, 0, 1, 0, 0, 0,
];

/// The open of session 1 in term 0 at 400 ms, with correlation id 1, stream 0 and no channel.
pub(crate) const OPEN: [u8; 48] = [
    0x24, 0, 0x15, 0, 0x6f, 0, 0, 0, 0, 0, 0, 0, 0, 0, 0, 0, 1, 0, 0, 0, 0, 0, 0, 0, 1, 0, 0, 0, 0,
    0, 0, 0, 0x90, 1, 0, 0, 0, 0, 0, 0, 0, 0, 0, 0, 0, 0, 0, 0,
];

/// What stands before the letters of a message of session 1 in term 0, at 770 ms.
const MESSAGE: [u8; 32] = [
    0x18, 0, 1, 0, 0x6f, 0, 0, 0, 0, 0, 0, 0, 0, 0, 0, 0, 1, 0, 0, 0, 0, 0, 0, 0, 2, 3, 0, 0, 0, 0,
    0, 0,
];

/// The event of a message of so many letters.
pub(crate) fn message(alloc: Global, letters: usize) -> Option<Vec<u8>> {
    let mut bytes = MESSAGE.to_vec(alloc).ok()?;
    for _ in 0..letters {
        bytes.push(b'a').ok()?;
    }
    Some(bytes)
}

/// An empty disk. Of its calls that give a Result, counted from 1, the one of this number fails, where there is one.
fn empty_disk(alloc: Global, failing_call: Option<u64>) -> Option<MemDisk> {
    let mut failing = Vec::new(alloc);
    if let Some(call) = failing_call {
        failing.push(call).ok()?;
    }
    MemDisk::new(alloc, failing).ok()
}

/// The disk of a new member, in six calls.
pub(crate) fn new_disk(alloc: Global, failing_call: Option<u64>) -> Option<MemDisk> {
    let mut disk = empty_disk(alloc, failing_call)?;
    match format(&mut disk) {
        Ok(()) => Some(disk),
        Err(_) => None,
    }
}

/// The first three files of a member.
#[derive(Drop)]
pub(crate) struct Image {
    node: Vec<u8>,
    records: Vec<u8>,
    segment: Vec<u8>,
}

/// The bytes of a file.
fn file_of(alloc: Global, disk: &mut MemDisk, file: u32) -> Option<Vec<u8>> {
    let len = disk.len(file).ok()?;
    let mut bytes = Vec::new(alloc);
    bytes.resize(len as usize, 0).ok()?;
    match disk.read_at(file, 0, &mut bytes) {
        Ok(_) => Some(bytes),
        Err(_) => None,
    }
}

fn write(disk: &mut MemDisk, file: u32, bytes: &[u8]) -> Option<()> {
    disk.write_at(file, 0, bytes).ok()?;
    disk.sync(file).ok()
}

impl Image {
    pub(crate) fn of(alloc: Global, mut disk: MemDisk) -> Option<Image> {
        Some(Image {
            node: file_of(alloc, &mut disk, 0)?,
            records: file_of(alloc, &mut disk, 1)?,
            segment: file_of(alloc, &mut disk, 2)?,
        })
    }

    /// A disk with these files, in six calls as a format has them. The call of this number fails, where there is one.
    pub(crate) fn disk(&self, alloc: Global, failing_call: Option<u64>) -> Option<MemDisk> {
        let mut disk = empty_disk(alloc, failing_call)?;
        write(&mut disk, 0, &self.node)?;
        write(&mut disk, 1, &self.records)?;
        write(&mut disk, 2, &self.segment)?;
        Some(disk)
    }
}

/// Mounts the disk of a member with one service.
pub(crate) fn mounted(alloc: Global, disk: MemDisk) -> Option<Member> {
    match MemberDisk::mount(alloc, disk, 1) {
        Ok(member) => Some(member),
        Err(_) => None,
    }
}

/// The entry of bytes that spell an event.
fn entry_of(alloc: Global, bytes: &[u8]) -> Option<Entry>
    ensures { IfSome result IsEventEntry }
{
    let Ok(copy) = Bytes::of(alloc, bytes) else {
        return None;
    };
    match decode_event(alloc, bytes) {
        Ok(_) => Some(Entry {
            term: term_of(bytes),
            bytes: copy,
        }),
        Err(_) => None,
    }
}

/// Appends one entry, unless its term is below the log's last.
fn append_one(member: Member, entry: Entry) -> Result<Member, Stopped>
    requires { IsEventEntry entry }
{
    let mut member = member;
    if !member.is_whole() {
        return Err((member.into_disk(), MemberFault::NoMemory));
    }
    let last = member.index().last_term();
    let term = entry.term;
    if last > term {
        return Err((member.into_disk(), MemberFault::NoMemory));
    }
    match member.append(&[entry]) {
        Ok(()) => Ok(member),
        Err(fault) => Err((member.into_disk(), fault)),
    }
}

/// Appends an event.
pub(crate) fn append(alloc: Global, member: Member, event: &[u8]) -> Result<Member, Stopped> {
    match entry_of(alloc, event) {
        Some(entry) => append_one(member, entry),
        None => Err((member.into_disk(), MemberFault::NoMemory)),
    }
}

/// A member of one service whose log has these events.
pub(crate) fn member_with(alloc: Global, events: &[&[u8]]) -> Option<Member> {
    let mut member = mounted(alloc, new_disk(alloc, None)?)?;
    for event in events {
        member = append(alloc, member, event).ok()?;
    }
    Some(member)
}

/// A member whose log is a term, an open and so many messages of 960 letters.
pub(crate) fn filled(alloc: Global, messages: u64) -> Option<Member> {
    let mut member = member_with(alloc, &[&TERM, &OPEN])?;
    let event = message(alloc, 960)?;
    for _ in 0..messages {
        member = append(alloc, member, &event).ok()?;
    }
    Some(member)
}

/// Appends an event under a fuse, and crashes. Gives what the append answered, and the log that a mount then finds.
pub(crate) fn append_under(
    alloc: Global,
    member: Member,
    event: &[u8],
    calls: u64,
    choice: Choice,
) -> Option<(Option<MemberFault>, Log)> {
    let mut member = member;
    member.fuse(calls);
    let (fault, mut disk) = match append(alloc, member, event) {
        Ok(member) => (None, member.into_disk()),
        Err((disk, fault)) => (Some(fault), disk),
    };
    disk.crash(choice);
    let member = mounted(alloc, disk)?;
    Some((fault, (member.index().entries(), member.index().place())))
}
