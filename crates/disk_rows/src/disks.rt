// The disks that the changes are made on, and what they answer.
#[cfg(test)]
use cl_base::Choice;
use cl_base::{Disk, MemberFault};
use cl_memdisk::MemDisk;
use std::alloc::Global;

/// What a change answered, and by how many the disk's count of faults rose.
pub type Answer<T> = (Result<T, MemberFault>, u64);

/// The choices of a crash: what the last syncs left, what a read gave, an open gate, and another byte.
#[cfg(test)]
pub(crate) const CHOICES: [Choice; 4] = [
    Choice::Drop,
    Choice::Keep,
    Choice::Fill(0x5a),
    Choice::Fill(0xa7),
];

/// A disk of which one file has these bytes, in two calls. Of the calls from 1 on that give a Result, the one of
/// this number fails, where there is one.
pub fn disk_with(
    alloc: Global,
    file: u32,
    bytes: &[u8],
    failing_call: Option<u64>,
) -> Option<MemDisk> {
    let mut failing = Vec::new(alloc);
    if let Some(call) = failing_call
        && failing.push(call).is_err()
    {
        return None;
    }
    let Ok(mut disk) = MemDisk::new(alloc, failing) else {
        return None;
    };
    if disk.write_at(file, 0, bytes).is_err() || disk.sync(file).is_err() {
        return None;
    }
    Some(disk)
}
