// Services that run on over the orders, and what each service took in.
use crate::lines::{last_of, lines_of, stands_in};
use crate::runs::{disks_of, run_on};
use crate::tables::Row;
use run_start::Status;
use std::alloc::Global;
use std::sync::Wait;
use std::test::Fail;
use std::thread::Threads;

/// Whether each entry that a service took in stands in the log of a run's text, at its index.
fn inputs_stand(alloc: Global, text: &[u8]) -> Result<bool, Fail> {
    let mut wanted = Vec::new(alloc);
    for line in text.split(|b| *b == b'\n') {
        if let Some(input) = line.strip_prefix(b"in ") {
            wanted.clear();
            wanted.extend_from_slice(b"entry ")?;
            wanted.extend_from_slice(input)?;
            wanted.push(b'\n')?;
            if !stands_in(wanted.as_slice(), text) {
                return Ok(false);
            }
        }
    }
    Ok(!wanted.is_empty())
}

/// Whether each entry that was accepted stands in the log.
fn accepted_stand(alloc: Global, text: &[u8]) -> Result<bool, Fail> {
    let text = str::from_utf8(text).ok().ok_or("text")?;
    for line in text.lines() {
        if let Some((_, index)) = line.split_once(" accepted ") {
            let wanted = format!(in alloc; "entry {index} ..\n")?;
            if !stands_in(wanted.as_bytes(), text.as_bytes()) {
                return Ok(false);
            }
        }
    }
    Ok(true)
}

/// What a scenario's run writes on three disks.
fn text_of<R: Threads + Wait + Copy + Send + Sync + 'static>(
    rt: &R,
    alloc: Global,
    scenario: &str,
) -> Result<Vec<u8>, Fail> {
    let mut disks = disks_of(alloc, 3, 0, 0)?;
    let (status, text) = run_on(rt, alloc, lines_of(alloc, scenario)?, &mut disks)?;
    if status != Status::Done {
        return Err("status".into());
    }
    Ok(text)
}

/// What a crash may be told to leave.
const CHOICES: [&str; 4] = ["drop", "keep", "5a", "a7"];

/// A member is stopped at each of its writes, and starts again: what was accepted is in the log, and the last run's inputs
/// end where the log does.
#[test]
fn inputs_after_a_stop(rt: HostRuntime) -> Result<(), Fail> {
    let alloc = rt.alloc();
    for calls in 0..47u32 {
        for choice in CHOICES {
            let scenario = format!(in alloc;
                "members 1 / service ledger / fuse 0 {calls} {choice} / rounds 40 / connect 0 0 / rounds 1 / sendhex 0 0 0500000000000000 / rounds 1 / action 0 / rounds 1 / start 0 / rounds 40"
            )?;
            let text = text_of(&rt, alloc, scenario.as_str())?;
            let text = text.as_slice();
            assert!(rt; accepted_stand(alloc, text)?, "{calls} {choice}");
            assert!(rt; inputs_stand(alloc, text)?, "{calls} {choice}");
            assert!(rt;
                last_of(b"in ", text) == last_of(b"entry ", text),
                "{calls} {choice}"
            );
        }
    }
    Ok(())
}

/// A message comes back while the services run on: all that is written.
const FREE: Row = (
    "members 1 / service echo / rounds 40 / connect 0 0 / rounds 1 / free on / send 0 0 hi / rounds 1 / free off / rounds 1",
    "order 4 accepted 1 / order 7 accepted 2 / log 3 / entry 0 0 term leader 0 base 0 ts 340 / entry 1 0 open 1 stream 0 corr 1 ts 400 channel - / entry 2 0 message 1 ts 410 6869 / service 0 0 run 1 from 0 count 3 / in 0 0 term leader 0 base 0 ts 340 / in 1 0 open 1 stream 0 corr 1 ts 400 channel - / in 2 0 message 1 ts 410 6869 / stream 0 egress 2 / out 1 module 200002006f000000010000000000000001000000000000000000000000000000000000000000000000000000 / out 2 service 0 0 180001006f000000000000000000000001000000000000009a010000000000006869 / member 0 up candidate 0 entries 3 same 3 commit 3 snapshots 0 / done",
);

/// The leader is lost while the services run on.
const LOST: &str =
    "members 3 / service echo / rounds 60 / free on / connect 0 0 / rounds 5 / send 0 0 a / stop 0 / rounds 300 / send 0 1 a / rounds 3";

#[test]
fn services_that_run_on(rt: HostRuntime) -> Result<(), Fail> {
    let alloc = rt.alloc();
    let text = text_of(&rt, alloc, FREE.0)?;
    let wanted = lines_of(alloc, FREE.1)?;
    assert!(rt; text.as_slice() == wanted.as_slice());
    let text = text_of(&rt, alloc, LOST)?;
    assert!(rt; inputs_stand(alloc, text.as_slice())?);
    Ok(())
}
