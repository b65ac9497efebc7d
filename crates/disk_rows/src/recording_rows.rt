// Additions to a recording log, and invalidations.
use crate::disks::Answer;
use cl_base::Disk;
use cl_memdisk::MemDisk;
use recording_log::{RecordingLog, SnapshotAt, TermAt};
use std::alloc::Global;

/// Adds a leadership term under a fuse, and gives what the mount or the addition answered.
pub fn add_term(alloc: Global, disk: &mut MemDisk, calls: u64, term: i64) -> Option<Answer<()>> {
    if term < 0 || term > 9 {
        return None;
    }
    let before = disk.faults();
    let answer = match RecordingLog::mount(alloc, disk) {
        Ok(mut log) => {
            disk.fuse(calls);
            log.add_term(disk, term, 64 * term as u64, 5)
        }
        Err(fault) => Err(fault),
    };
    Some((answer, disk.faults().saturating_sub(before)))
}

/// Adds a snapshot of a service, or of the module at -1, under a fuse, and gives what the mount or the addition
/// answered.
pub fn add_snapshot(
    alloc: Global,
    disk: &mut MemDisk,
    calls: u64,
    recording: u64,
    position: u64,
    service: i32,
) -> Option<Answer<()>> {
    if recording > 9 || position > 999 {
        return None;
    }
    let before = disk.faults();
    let answer = match RecordingLog::mount(alloc, disk) {
        Ok(mut log) => {
            disk.fuse(calls);
            log.add_snapshot(disk, recording, 1, 0, position, 7, service)
        }
        Err(fault) => Err(fault),
    };
    Some((answer, disk.faults().saturating_sub(before)))
}

/// Adds the snapshots of two services and of the module, at one position. It says whether all three were added.
pub fn add_set(alloc: Global, disk: &mut MemDisk, recording: u64, position: u64) -> Option<bool> {
    if recording > 7 {
        return None;
    }
    let (first, _) = add_snapshot(alloc, disk, 5, recording + 1, position, 0)?;
    let (second, _) = add_snapshot(alloc, disk, 5, recording + 2, position, 1)?;
    let (module, _) = add_snapshot(alloc, disk, 5, recording, position, -1)?;
    Some(first.is_ok() && second.is_ok() && module.is_ok())
}

/// Invalidates the latest set of two services under a fuse, and gives what the mount or the call answered.
pub fn invalidate(alloc: Global, disk: &mut MemDisk, calls: u64) -> Answer<bool> {
    let before = disk.faults();
    let answer = match RecordingLog::mount(alloc, disk) {
        Ok(mut log) => {
            disk.fuse(calls);
            log.invalidate_latest(disk, 2)
        }
        Err(fault) => Err(fault),
    };
    (answer, disk.faults().saturating_sub(before))
}

/// The latest set of two services that a mount finds.
pub fn latest(alloc: Global, disk: &mut MemDisk) -> Option<Option<SnapshotAt>> {
    match RecordingLog::mount(alloc, disk) {
        Ok(log) => Some(log.latest_snapshot(2)),
        Err(_) => None,
    }
}

/// How many leadership terms a mount finds, how many entries, and the last term.
pub fn terms(alloc: Global, disk: &mut MemDisk) -> Option<(usize, usize, Option<TermAt>)> {
    match RecordingLog::mount(alloc, disk) {
        Ok(log) => {
            let last = match log.terms().last() {
                Some(term) => Some(*term),
                None => None,
            };
            Some((log.terms().len(), log.entries().len(), last))
        }
        Err(_) => None,
    }
}

#[cfg(test)]
mod tests {
    use super::*;
    use crate::disks::{CHOICES, disk_with};
    use cl_base::{Choice, MemberFault};
    use std::test::Fail;

    /// More calls than a change makes.
    const NO_FUSE: u64 = 99;

    const DONE: Answer<()> = (Ok(()), 0);

    /// The answer where one call of the disk was refused or failed.
    const DEVICE: Answer<()> = (Err(MemberFault::Device), 1);

    const STRUCK: Answer<bool> = (Ok(true), 0);

    /// The same answer of an invalidation.
    const NOT_STRUCK: Answer<bool> = (Err(MemberFault::Device), 1);

    const SET: SnapshotAt = SnapshotAt {
        recording: 4,
        term: 1,
        position: 96,
    };

    const LATER: SnapshotAt = SnapshotAt {
        recording: 1,
        term: 1,
        position: 160,
    };

    /// Adds a second term, and gives how many terms a mount finds after a crash.
    fn term_under(
        alloc: Global,
        failing_call: Option<u64>,
        calls: u64,
        choice: Choice,
    ) -> Option<(Answer<()>, usize)> {
        let mut disk = disk_with(alloc, 1, &[0; 64], failing_call)?;
        if add_term(alloc, &mut disk, 5, 1)? != DONE {
            return None;
        }
        let answer = add_term(alloc, &mut disk, calls, 2)?;
        disk.crash(choice);
        let (count, _, _) = terms(alloc, &mut disk)?;
        Some((answer, count))
    }

    #[test]
    fn a_fuse_ends_an_addition(rt: HostRuntime) -> Result<(), Fail> {
        let alloc = rt.alloc();
        for choice in CHOICES {
            for calls in 0..4 {
                assert!(rt; term_under(alloc, None, calls, choice) == Some((DEVICE, 1)));
            }
            assert!(rt; term_under(alloc, None, 5, choice) == Some((DONE, 2)));
        }
        assert!(rt; term_under(alloc, None, 4, Choice::Drop) == Some((DEVICE, 1)));
        assert!(rt; term_under(alloc, None, 4, Choice::Keep) == Some((DEVICE, 2)));
        assert!(rt; term_under(alloc, None, 4, Choice::Fill(0x5a)) == Some((DEVICE, 2)));
        assert!(rt; term_under(alloc, None, 4, Choice::Fill(0xa7)) == Some((DEVICE, 1)));
        Ok(())
    }

    /// Adds the module's snapshot to those of two services.
    fn set_under(
        alloc: Global,
        failing_call: Option<u64>,
        calls: u64,
        choice: Choice,
    ) -> Option<(Answer<()>, Option<SnapshotAt>)> {
        let mut disk = disk_with(alloc, 1, &[0; 64], failing_call)?;
        let first = add_snapshot(alloc, &mut disk, 5, 5, 96, 0)?;
        let second = add_snapshot(alloc, &mut disk, 5, 6, 96, 1)?;
        if first != DONE || second != DONE {
            return None;
        }
        let answer = add_snapshot(alloc, &mut disk, calls, 4, 96, -1)?;
        disk.crash(choice);
        Some((answer, latest(alloc, &mut disk)?))
    }

    #[test]
    fn a_set_counts_with_the_modules_entry(rt: HostRuntime) -> Result<(), Fail> {
        let alloc = rt.alloc();
        for choice in CHOICES {
            for calls in 0..4 {
                assert!(rt; set_under(alloc, None, calls, choice) == Some((DEVICE, None)));
            }
            assert!(rt; set_under(alloc, None, 5, choice) == Some((DONE, Some(SET))));
        }
        assert!(rt; set_under(alloc, None, 4, Choice::Drop) == Some((DEVICE, None)));
        assert!(rt; set_under(alloc, None, 4, Choice::Keep) == Some((DEVICE, Some(SET))));
        assert!(rt; set_under(alloc, None, 4, Choice::Fill(0x5a)) == Some((DEVICE, Some(SET))));
        assert!(rt; set_under(alloc, None, 4, Choice::Fill(0xa7)) == Some((DEVICE, None)));
        Ok(())
    }

    /// Invalidates the later one of two sets.
    fn struck_under(
        alloc: Global,
        failing_call: Option<u64>,
        calls: u64,
        choice: Choice,
    ) -> Option<(Answer<bool>, Option<SnapshotAt>)> {
        let mut disk = disk_with(alloc, 1, &[0; 64], failing_call)?;
        if !add_set(alloc, &mut disk, 4, 96)? || !add_set(alloc, &mut disk, 1, 160)? {
            return None;
        }
        let answer = invalidate(alloc, &mut disk, calls);
        disk.crash(choice);
        Some((answer, latest(alloc, &mut disk)?))
    }

    #[test]
    fn a_fuse_ends_an_invalidation(rt: HostRuntime) -> Result<(), Fail> {
        let alloc = rt.alloc();
        for choice in CHOICES {
            assert!(rt; struck_under(alloc, None, 0, choice) == Some((NOT_STRUCK, Some(LATER))));
            assert!(rt; struck_under(alloc, None, 2, choice) == Some((STRUCK, Some(SET))));
        }
        let under = |choice| struck_under(alloc, None, 1, choice);
        assert!(rt; under(Choice::Drop) == Some((NOT_STRUCK, Some(LATER))));
        assert!(rt; under(Choice::Keep) == Some((NOT_STRUCK, Some(SET))));
        assert!(rt; under(Choice::Fill(0x5a)) == Some((NOT_STRUCK, Some(SET))));
        assert!(rt; under(Choice::Fill(0xa7)) == Some((NOT_STRUCK, Some(SET))));
        assert!(rt; under(Choice::Fill(0)) == Some((NOT_STRUCK, Some(LATER))));
        Ok(())
    }

    /// How many calls come before an addition: two make the file, and each addition before has one read for each entry
    /// and one more, and five calls.
    const BEFORE_SECOND: u64 = 2 + 6;

    const BEFORE_THIRD: u64 = BEFORE_SECOND + 7;

    const BEFORE_SEVENTH: u64 = BEFORE_THIRD + 8 + 9 + 10 + 11;

    /// The write of the gate, the fourth call of an addition, and its sync: the call that fails, a choice, and whether
    /// the crash leaves the entry.
    const ADDITION: [(u64, Choice, bool); 8] = [
        (4, Choice::Drop, false),
        (4, Choice::Keep, false),
        (4, Choice::Fill(0x5a), true),
        (4, Choice::Fill(0xa7), false),
        (5, Choice::Drop, false),
        (5, Choice::Keep, true),
        (5, Choice::Fill(0x5a), true),
        (5, Choice::Fill(0xa7), false),
    ];

    /// The write of an entry's kind, and its sync, in the same way: whether the crash leaves the set invalid.
    const INVALIDATION: [(u64, Choice, bool); 8] = [
        (1, Choice::Drop, false),
        (1, Choice::Keep, false),
        (1, Choice::Fill(0xa7), true),
        (1, Choice::Fill(0), false),
        (2, Choice::Drop, false),
        (2, Choice::Keep, true),
        (2, Choice::Fill(0xa7), true),
        (2, Choice::Fill(0), false),
    ];

    #[test]
    fn each_call_of_the_disk_may_fail(rt: HostRuntime) -> Result<(), Fail> {
        let alloc = rt.alloc();
        let term = |call, choice| term_under(alloc, Some(call), NO_FUSE, choice);
        let set = |call, choice| set_under(alloc, Some(call), NO_FUSE, choice);
        let struck = |call, choice| struck_under(alloc, Some(call), NO_FUSE, choice);
        for choice in CHOICES {
            // The reads of the mount, and the calls of the addition up to the sync before the gate.
            for call in 1..6 {
                assert!(rt; term(BEFORE_SECOND + call, choice) == Some((DEVICE, 1)));
            }
            for call in 1..7 {
                assert!(rt; set(BEFORE_THIRD + call, choice) == Some((DEVICE, None)));
            }
            for call in 1..8 {
                assert!(rt;
                    struck(BEFORE_SEVENTH + call, choice) == Some((NOT_STRUCK, Some(LATER)))
                );
            }
        }
        for (call, choice, is_after) in ADDITION {
            let count = if is_after { 2 } else { 1 };
            assert!(rt; term(BEFORE_SECOND + 2 + call, choice) == Some((DEVICE, count)));
            let found = if is_after { Some(SET) } else { None };
            assert!(rt; set(BEFORE_THIRD + 3 + call, choice) == Some((DEVICE, found)));
        }
        for (call, choice, is_after) in INVALIDATION {
            let found = if is_after { SET } else { LATER };
            let want = Some((NOT_STRUCK, Some(found)));
            assert!(rt; struck(BEFORE_SEVENTH + 7 + call, choice) == want);
        }
        Ok(())
    }

    fn fault_of(alloc: Global, bytes: &[u8]) -> Option<MemberFault> {
        let Ok(mut disk) = MemDisk::new(alloc, Vec::new(alloc)) else {
            return None;
        };
        if disk.write_at(1, 0, bytes).is_err() {
            return None;
        }
        match RecordingLog::mount(alloc, &mut disk) {
            Ok(_) => None,
            Err(fault) => Some(fault),
        }
    }

    #[test]
    fn a_file_that_ends_too_early_is_wrong_at_its_end(rt: HostRuntime) -> Result<(), Fail> {
        let alloc = rt.alloc();
        let short = MemberFault::Damaged { file: 1, place: 63 };
        assert!(rt; fault_of(alloc, &[0; 63]) == Some(short));
        assert!(rt; fault_of(alloc, &[0; 64]) == None);
        Ok(())
    }

    fn term_of(alloc: Global) -> Option<(usize, usize, Option<TermAt>)> {
        let mut disk = disk_with(alloc, 1, &[0; 64], None)?;
        if add_term(alloc, &mut disk, 5, 3)? != DONE {
            return None;
        }
        terms(alloc, &mut disk)
    }

    #[test]
    fn a_term_is_found_again(rt: HostRuntime) -> Result<(), Fail> {
        let alloc = rt.alloc();
        let last = TermAt {
            term: 3,
            base: 192,
            stamp: 5,
        };
        assert!(rt; term_of(alloc) == Some((1, 1, Some(last))));
        Ok(())
    }
}
