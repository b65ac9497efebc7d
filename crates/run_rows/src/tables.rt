// Tables of runs, and the walk over each.
use crate::lines::{count_of, lines_of, stands_in};
use crate::runs::{Called, disks_of, run_on, runs};
use cl_base::Disk;
use run_start::Status;
use std::alloc::Global;
use std::sync::Wait;
use std::test::Fail;
use std::thread::Threads;

/// A scenario, and lines that its run must write, both in the short form of lines.
pub type Row = (&'static str, &'static str);

/// Whether a scenario's run on six disks comes to its end, writes these lines, and tells of as many stopped members.
pub fn writes<R: Threads + Wait + Copy + Send + Sync + 'static>(
    rt: &R,
    alloc: Global,
    scenario: &str,
    lines: &str,
) -> Result<bool, Fail> {
    let wanted = lines_of(alloc, lines)?;
    let mut disks = disks_of(alloc, 6, 0, 0)?;
    let (status, text) = run_on(rt, alloc, lines_of(alloc, scenario)?, &mut disks)?;
    let stopped = count_of(b"stopped ", text.as_slice())
        == count_of(b"stopped ", wanted.as_slice());
    Ok(status == Status::Done && stopped && stands_in(wanted.as_slice(), text.as_slice()))
}

/// What passes at a fuse: from how many calls on, up to how many, the choices of what a crash leaves, and the lines that
/// must be written.
pub type Fused = (u32, u32, &'static [&'static str], &'static str);

/// The first number of calls and choice for which a scenario with a fuse among its lines doesn't write what it must.
pub fn differs<R: Threads + Wait + Copy + Send + Sync + 'static>(
    rt: &R,
    alloc: Global,
    around: Row,
    table: &[Fused],
) -> Result<Option<(u32, &'static str)>, Fail> {
    let (front, back) = around;
    for (from, to, choices, lines) in table {
        for calls in *from..=*to {
            for choice in *choices {
                let scenario = format!(in alloc; "{front} / fuse 0 {calls} {choice} / {back}")?;
                if !writes(rt, alloc, scenario.as_str(), *lines)? {
                    return Ok(Some((calls, *choice)));
                }
            }
        }
    }
    Ok(None)
}

/// A call, and how it ends.
#[derive(Clone, Copy)]
pub struct Ended {
    /// The words.
    pub words: &'static [&'static str],
    /// The scenario, in the short form of lines.
    pub scenario: &'static str,
    /// How many disks there are.
    pub disks: u8,
    /// The disk and the file that holds one byte.
    pub used: Option<(u8, u32)>,
    /// The number of a disk, and the call of it that fails.
    pub fails: (u8, u64),
    /// The read of the source that fails.
    pub read: u64,
    /// The write of the sink that fails.
    pub write: u64,
    /// The answer.
    pub status: Status,
    /// The exit status.
    pub code: u8,
    /// All that is written, in the short form of lines.
    pub text: &'static str,
}

/// Whether a call ends so, and leaves as many disks.
pub fn ends<R: Threads + Wait + Copy + Send + Sync + 'static>(
    rt: &R,
    alloc: Global,
    row: &Ended,
) -> Result<bool, Fail> {
    let (number, call) = row.fails;
    let mut disks = disks_of(alloc, row.disks, number, call)?;
    if let Some((disk, file)) = row.used
        && let Some(disk) = disks.get_mut(disk as usize)
    {
        disk.write_at(file, 0, b"x")?;
    }
    let called = Called {
        words: row.words,
        scenario: lines_of(alloc, row.scenario)?,
        read: row.read,
        write: row.write,
    };
    let (status, text) = runs(rt, alloc, called, &mut disks)?;
    let wanted = lines_of(alloc, row.text)?;
    Ok(
        status == row.status
            && status.code() == row.code
            && text.as_slice() == wanted.as_slice()
            && disks.len() == row.disks as usize,
    )
}
