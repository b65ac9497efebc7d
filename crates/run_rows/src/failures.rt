// A call of a disk, a source or a sink that fails.
use crate::lines::{count_of, lines_of};
use crate::runs::{Called, disks_of, run_on, runs};
use cl_base::Disk;
use run_start::Status;
use std::alloc::Global;
use std::sync::Wait;
use std::test::Fail;
use std::thread::Threads;

/// Whether a text has a line that begins with one of these words.
fn tells(words: &[&str], text: &[u8]) -> bool {
    for front in words {
        if count_of(front.as_bytes(), text) > 0 {
            return true;
        }
    }
    false
}

/// Runs a scenario on two disks, of one of which each call fails in turn, until a run has no call that fails. Gives the
/// first call for which the run neither ends with the disk's fault nor tells of it by one of these lines, or for which it
/// has none of the last lines.
fn untold<R: Threads + Wait + Copy + Send + Sync + 'static>(
    rt: &R,
    alloc: Global,
    scenario: &str,
    disk: u8,
    faults: &[&str],
    always: &[&str],
) -> Result<Option<u64>, Fail> {
    for call in 1..10_000u64 {
        let mut disks = disks_of(alloc, 2, disk, call)?;
        let (status, text) = run_on(rt, alloc, lines_of(alloc, scenario)?, &mut disks)?;
        let text = text.as_slice();
        let failed = disks
            .get(disk as usize)
            .is_some_and(|disk| disk.faults() > 0);
        if status
            == (Status::DiskFault {
                member: disk as u64,
            })
        {
            continue;
        }
        if status != Status::Done || !tells(always, text) || failed != tells(faults, text) {
            return Ok(Some(call));
        }
        if !failed {
            return Ok(None);
        }
    }
    Ok(Some(0))
}

const LEDGER: &str =
    "members 1 / service ledger / rounds 40 / connect 0 0 / rounds 1 / sendhex 0 0 0500000000000000 / rounds 1 / action 0 / rounds 1 / stop 0 / start 0 / rounds 40";

const COPIED: &str =
    "members 1 / service ledger / rounds 40 / connect 0 0 / rounds 1 / sendhex 0 0 0500000000000000 / rounds 1 / action 0 / rounds 1 / backup 0 / rounds 6";

#[test]
fn one_call_of_a_disk_fails(rt: HostRuntime) -> Result<(), Fail> {
    let alloc = rt.alloc();
    // A member tells that its disk failed, by a stop, by an order's answer, or in the report.
    let faults = [
        "stopped 0",
        "order 4 device",
        "order 6 device",
        "order 8 device",
        "order 11 device",
        "member 0 down unread",
    ];
    assert_eq!(rt; untold(&rt, alloc, LEDGER, 0, &faults, &["done"])?, None);
    // So does the backup, whose log is that of the cluster as far as it goes.
    let faults = ["stopped backup", "order 10 device", "backup unread"];
    let fronts = [
        "backup entries 0 same 0 snapshots 0",
        "backup entries 1 same 1 snapshots 0",
        "backup entries 2 same 2 snapshots 0",
        "backup entries 3 same 3 snapshots 0",
        "backup entries 4 same 4 ",
        "backup unread",
    ];
    assert_eq!(rt; untold(&rt, alloc, COPIED, 1, &faults, &fronts)?, None);
    Ok(())
}

const ECHO: &str =
    "members 1 / service echo / rounds 40 / connect 0 0 / rounds 1 / send 0 0 hi / rounds 1";

/// How a run ends whose source and sink fail at these calls, and what its sink then holds.
fn ends<R: Threads + Wait + Copy + Send + Sync + 'static>(
    rt: &R,
    alloc: Global,
    scenario: &str,
    read: u64,
    write: u64,
) -> Result<(Status, Vec<u8>), Fail> {
    let called = Called {
        words: &["run"],
        scenario: lines_of(alloc, scenario)?,
        read,
        write,
    };
    runs(rt, alloc, called, &mut disks_of(alloc, 1, 0, 0)?)
}

/// Each read and each write fails in turn. Of a read there is one line; of a write the sink holds a front of the text.
#[test]
fn one_call_of_a_source_or_a_sink_fails(rt: HostRuntime) -> Result<(), Fail> {
    let alloc = rt.alloc();
    for scenario in [ECHO, LEDGER] {
        let (status, whole) = ends(&rt, alloc, scenario, 0, 0)?;
        assert_eq!(rt; status, Status::Done);
        for call in 1..40 {
            let (status, text) = ends(&rt, alloc, scenario, call, 0)?;
            let line = text.as_slice() == b"read fault\n".as_slice();
            assert!(rt; line || text.as_slice() == whole.as_slice(), "read {call}");
            assert_eq!(rt; status == Status::ReadFault, line, "read {call}");
            let (status, text) = ends(&rt, alloc, scenario, 0, call)?;
            assert!(rt;
                whole.as_slice().starts_with(text.as_slice()),
                "write {call}"
            );
            let done = text.len() == whole.len();
            assert_eq!(rt; status == Status::WriteFault, !done, "write {call}");
        }
    }
    Ok(())
}
