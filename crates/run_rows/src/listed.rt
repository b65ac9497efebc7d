// What a look into the disks of a run writes.
use crate::lines::lines_of;
use crate::runs::{disks_of, run_on, words_of};
use cl_base::MemSink;
use cluster_tool::{ToolStatus, takes_disks, tool_main};
use run_start::Status;
use std::alloc::Global;
use std::sync::Wait;
use std::test::Fail;
use std::thread::Threads;

/// The leader is lost, and the entry that it alone had is its own.
const LOST: &str =
    "members 3 / service echo / rounds 60 / connect 0 0 / rounds 5 / send 0 0 a / stop 0 / rounds 300 / send 0 1 a / rounds 3";

/// A backup copies a log and a snapshot.
const COPIED: &str =
    "members 1 / service ledger / rounds 40 / connect 0 0 / rounds 1 / sendhex 0 0 0500000000000000 / rounds 1 / action 0 / rounds 1 / backup 0 / rounds 6";

/// A scenario, the words of a listing, the first of its disks, how many there are, and what is written.
type Listing = (
    &'static str,
    &'static [&'static str],
    usize,
    usize,
    &'static str,
);

const LISTED: [Listing; 5] = [
    (
        LOST,
        &["tool", "describe", "1", "m0"],
        0,
        1,
        "candidate 0 / entries 3 / place 288 / terms 1 / snapshots 0 / done",
    ),
    (
        LOST,
        &["tool", "recording-log", "m1"],
        1,
        1,
        "term 0 base 0 ts 350 / term 1 base 192 ts 2100 / done",
    ),
    (
        LOST,
        &["tool", "verify", "m0", "m1"],
        0,
        2,
        "common 2 / differ at 2 terms 0 1 / done",
    ),
    // The backup's disk is that of a member with these entries.
    (
        COPIED,
        &["tool", "describe", "1", "m1"],
        1,
        1,
        "candidate -1 / entries 4 / place 384 / terms 1 / snapshots 1 / snapshot 384 0 / done",
    ),
    (
        COPIED,
        &["tool", "verify", "m0", "m1"],
        0,
        2,
        "common 4 / equal / done",
    ),
];

/// What a listing writes of the disks that a scenario leaves.
fn listed<R: Threads + Wait + Copy + Send + Sync + 'static>(
    rt: &R,
    alloc: Global,
    row: &Listing,
) -> Result<Vec<u8>, Fail> {
    let (scenario, words, first, count, _) = *row;
    let mut disks = disks_of(alloc, 3, 0, 0)?;
    let (status, _) = run_on(rt, alloc, lines_of(alloc, scenario)?, &mut disks)?;
    let mut seen = Vec::new(alloc);
    for (at, disk) in disks.into_iter().enumerate() {
        if at >= first && at - first < count {
            seen.push(disk)?;
        }
    }
    let words = words_of(alloc, words)?;
    if status != Status::Done || !takes_disks(words.as_slice(), seen.len()) {
        return Err("status".into());
    }
    let mut sink = MemSink::new(alloc, Vec::new(alloc));
    match tool_main(alloc, words.as_slice(), &mut sink, &mut seen) {
        ToolStatus::Done => Ok(Vec::from_slice(alloc, sink.held())?),
        _ => Err("listing".into()),
    }
}

#[test]
fn disks_of_a_run_are_listed(rt: HostRuntime) -> Result<(), Fail> {
    let alloc = rt.alloc();
    for row in &LISTED {
        let text = listed(&rt, alloc, row)?;
        let wanted = lines_of(alloc, row.4)?;
        assert!(rt; text.as_slice() == wanted.as_slice(), "{}", row.4);
    }
    Ok(())
}
