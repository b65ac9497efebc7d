// The disks that the program makes.
use cl_base::Trouble;
use cl_filedisk::FileDisk;
use cl_memdisk::MemDisk;
use plan::{Plan, WordsFault, plan_words};
use std::alloc::Global;
use std::fs::Files;

/// How many disks there are: one for each of the most members of a cluster, and the backup's.
const DISKS: u64 = 6;

/// Why the disks of a folder can't be had.
#[derive(Clone, Copy, Debug, PartialEq, Eq)]
pub enum Unhad {
    /// The folder of this member's disk can't be had.
    Folder { member: u64 },
    /// No memory was there.
    NoMemory,
}

/// The folder that the words name, if they name one.
pub fn folder_of(alloc: Global, words: &[String]) -> Result<Option<String>, WordsFault> {
    match plan_words(alloc, words) {
        Ok(Plan::Run { dir: Some(dir) }) => Ok(Some(dir.into_string())),
        Ok(Plan::Make { dir: Some(dir), .. }) => Ok(Some(dir.into_string())),
        Ok(_) => Ok(None),
        Err(fault) => Err(fault),
    }
}

/// The disks in memory, or None where there is no memory for them.
pub fn memory_disks(alloc: Global) -> Option<Vec<MemDisk>> {
    let mut disks = Vec::new(alloc);
    for _ in 0..DISKS {
        let Ok(disk) = MemDisk::new(alloc, Vec::new(alloc)) else {
            return None;
        };
        if disks.push(disk).is_err() {
            return None;
        }
    }
    Some(disks)
}

/// The disks in a folder: that of member M in its folder `mM`, and the backup's, where it is the next one, likewise.
pub fn folder_disks<R: Files + Copy + Clone + Drop>(
    rt: &R,
    alloc: Global,
    folder: &str,
) -> Result<Vec<FileDisk<R>>, Unhad> {
    let mut disks = Vec::new(alloc);
    for member in 0..DISKS {
        let Ok(name) = format!(in alloc; "{folder}/m{member}") else {
            return Err(Unhad::NoMemory);
        };
        let disk = match FileDisk::at(*rt, alloc, name) {
            Ok(disk) => disk,
            Err(Trouble::Failed) => return Err(Unhad::Folder { member }),
            Err(Trouble::NoMemory) => return Err(Unhad::NoMemory),
        };
        if disks.push(disk).is_err() {
            return Err(Unhad::NoMemory);
        }
    }
    Ok(disks)
}
