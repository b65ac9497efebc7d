// A call of the tool on disks with files that are known.
use crate::files::File;
use cl_base::{Disk, MemSink, Sink, Trouble};
use cl_memdisk::MemDisk;
use cluster_tool::{ToolStatus, takes_disks, tool_main};
use std::alloc::Global;
use std::test::Fail;

/// What is called, on disks with which files, and how it ends.
#[derive(Clone, Copy)]
pub struct Row<'a> {
    /// The words.
    pub words: &'a [&'a str],
    /// The files of each disk.
    pub disks: &'a [&'a [File]],
    /// The answer.
    pub status: ToolStatus,
    /// All that is written.
    pub text: &'a str,
}

/// A call number that is never reached.
const NEVER: u64 = 1 << 60;

/// What fails under a call: of the disk of one number the call of this number that gives a Result, counted from the first
/// one that the tool makes, and of the sink the write of this number.
#[derive(Clone, Copy)]
pub struct Failing {
    disk: usize,
    call: u64,
    write: u64,
}

impl Failing {
    /// Nothing fails.
    pub const NOTHING: Failing = Failing {
        disk: 0,
        call: NEVER,
        write: NEVER,
    };

    /// A call of a disk fails.
    pub fn call(disk: usize, call: u64) -> Failing {
        Failing {
            disk,
            call,
            write: NEVER,
        }
    }

    /// A write of the sink fails.
    pub fn write(write: u64) -> Failing {
        Failing {
            disk: 0,
            call: NEVER,
            write,
        }
    }

    fn call_of(self, disk: usize) -> u64 {
        if disk == self.disk { self.call } else { NEVER }
    }
}

/// Puts bytes behind those of a file.
fn put_behind<D: Disk>(disk: &mut D, file: u32, bytes: &[u8]) -> Result<(), Trouble> {
    let end = disk.len(file)?;
    disk.write_at(file, end, bytes)
}

/// A disk with these files, each piece of which is put there by two calls. Of the calls after these one fails, and each
/// that would change a file.
fn disk_of(alloc: Global, files: &[File], call: u64) -> Result<MemDisk, Fail> {
    let made = 2 * files.len() as u64;
    let failing = Vec::from_slice(alloc, &[call.saturating_add(made)])?;
    let mut disk = MemDisk::new(alloc, failing)?;
    for (number, pieces) in files {
        let mut bytes = Vec::new(alloc);
        for piece in *pieces {
            bytes.extend_from_slice(hex::decode(alloc, *piece)?.as_slice())?;
        }
        put_behind(&mut disk, *number, bytes.as_slice())?;
    }
    disk.fuse(0);
    Ok(disk)
}

/// How many bytes a file has.
fn length_of(files: &[File], number: u32) -> u64 {
    let mut digits = 0u64;
    for (file, pieces) in files {
        for piece in *pieces {
            if *file == number {
                digits = digits.saturating_add(piece.len() as u64);
            }
        }
    }
    digits / 2
}

fn words_of(alloc: Global, words: &[&str]) -> Result<Vec<String>, Fail> {
    let mut all = Vec::new(alloc);
    for word in words {
        all.push(String::from_str(alloc, *word)?)?;
    }
    Ok(all)
}

/// The same disks are there, in the same order, as far as their segments tell.
fn are_there(row: &Row, disks: &mut Vec<MemDisk>) -> bool {
    if disks.len() != row.disks.len() {
        return false;
    }
    for (files, disk) in row.disks.iter().zip(disks.iter_mut()) {
        let length = length_of(*files, 2);
        if disk.len(2).is_ok_and(|len| len != length) {
            return false;
        }
    }
    true
}

/// How the call of a row ends over a sink. The disks are all there.
pub fn called_over<O: Sink>(
    alloc: Global,
    row: &Row,
    failing: Failing,
    sink: &mut O,
) -> Result<ToolStatus, Fail> {
    let words = words_of(alloc, row.words)?;
    let mut disks = Vec::new(alloc);
    for (number, files) in row.disks.iter().enumerate() {
        disks.push(disk_of(alloc, *files, failing.call_of(number))?)?;
    }
    if !takes_disks(words.as_slice(), disks.len()) {
        return Err("disks".into());
    }
    let status = tool_main(alloc, words.as_slice(), sink, &mut disks);
    if !are_there(row, &mut disks) {
        return Err("other disks".into());
    }
    Ok(status)
}

/// How the call of a row ends, and what is then written.
pub fn called(alloc: Global, row: &Row, failing: Failing) -> Result<(ToolStatus, Vec<u8>), Fail> {
    let mut sink = MemSink::new(alloc, Vec::from_slice(alloc, &[failing.write])?);
    let status = called_over(alloc, row, failing, &mut sink)?;
    Ok((status, Vec::from_slice(alloc, sink.held())?))
}

/// The call of a row ends as it says, and writes its text.
pub fn ends(alloc: Global, row: &Row) -> Result<bool, Fail> {
    let (status, text) = called(alloc, row, Failing::NOTHING)?;
    Ok(status == row.status && text.as_slice() == row.text.as_bytes())
}

/// Each call of a disk fails in turn, and the disk is told, until the failing call comes behind the listing's last.
pub fn tells_each_fault(alloc: Global, row: &Row, disk: usize) -> Result<bool, Fail> {
    let line = format!(in alloc; "disk {disk}: fault\n")?;
    let fault = ToolStatus::DiskFault { disk: disk as u64 };
    let mut ended = false;
    for call in 1..100 {
        let (status, text) = called(alloc, row, Failing::call(disk, call))?;
        if status == row.status && text.as_slice() == row.text.as_bytes() {
            ended = call > 1;
        } else if ended || status != fault || text.as_slice() != line.as_bytes() {
            return Ok(false);
        }
    }
    Ok(ended)
}
