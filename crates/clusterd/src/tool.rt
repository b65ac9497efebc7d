// The tool's words: a look into the folders of members.
use cl_base::{Sink, Trouble};
use cl_filedisk::FileDisk;
use cluster_tool::{Asked, asked_by, takes_disks, tool_main};
use run_start::Status;
use std::alloc::Global;
use std::fs::Files;

/// Whether the words are the tool's.
pub fn is_tool(words: &[String]) -> bool {
    match words.first() {
        Some(word) => word.as_str() == "tool",
        None => false,
    }
}

/// Puts the disk in a folder behind the others.
fn put_disk<R: Files + Copy + Clone + Drop>(
    rt: &R,
    alloc: Global,
    folder: &str,
    disks: &mut Vec<FileDisk<R>>,
) -> Result<(), Trouble> {
    let Ok(name) = format!(in alloc; "{folder}") else {
        return Err(Trouble::NoMemory);
    };
    let disk = FileDisk::at(*rt, alloc, name)?;
    if disks.push(disk).is_err() {
        return Err(Trouble::NoMemory);
    }
    Ok(())
}

/// The disks in the folders that the words name, in their order.
fn disks_of<R: Files + Copy + Clone + Drop>(
    rt: &R,
    alloc: Global,
    words: &[String],
    disks: &mut Vec<FileDisk<R>>,
) -> Result<(), Trouble> {
    match asked_by(words) {
        Some(Asked::Describe(_, folder) | Asked::RecordingLog(folder)) => {
            put_disk(rt, alloc, folder, disks)
        }
        Some(Asked::Verify(first, second)) => {
            put_disk(rt, alloc, first, disks)?;
            put_disk(rt, alloc, second, disks)
        }
        None => Ok(()),
    }
}

/// Lists what the tool's words ask for, and gives the exit status.
pub fn run_tool<R: Files + Copy + Clone + Drop, O: Sink>(
    rt: &R,
    alloc: Global,
    words: &[String],
    sink: &mut O,
) -> u8 {
    let mut disks = Vec::new(alloc);
    match disks_of(rt, alloc, words, &mut disks) {
        Ok(()) => {
            if takes_disks(words, disks.len()) {
                return tool_main(alloc, words, sink, &mut disks).code();
            }
            Status::NoMemory.code()
        }
        Err(Trouble::Failed) => {
            let member = disks.len() as u64;
            Status::DiskFault { member }.written(alloc, sink).code()
        }
        Err(Trouble::NoMemory) => Status::NoMemory.code(),
    }
}
