// Raises and migrations of a node state.
use crate::disks::Answer;
use cl_base::{Choice, Disk};
use cl_memdisk::MemDisk;
use node_state::NodeState;

/// Raises the candidate term to 5, with a vote for member 3, under a fuse, and crashes. Gives what the raise
/// answered, and the candidate term and the vote that a mount then finds.
pub fn raised_under(
    mut disk: MemDisk,
    calls: u64,
    choice: Choice,
) -> Option<(Answer<()>, i64, Option<u8>)> {
    let before = disk.faults();
    let answer = match NodeState::mount(&mut disk) {
        Ok(mut node) => {
            if node.candidate_term() >= 5 {
                return None;
            }
            disk.fuse(calls);
            node.raise(&mut disk, 5, Some(3))
        }
        Err(_) => return None,
    };
    let rose = disk.faults().saturating_sub(before);
    disk.crash(choice);
    match NodeState::mount(&mut disk) {
        Ok(node) => Some(((answer, rose), node.candidate_term(), node.voted())),
        Err(_) => None,
    }
}

/// Mounts a file under a fuse, and crashes. Gives what the mount answered, what the next mount finds, and the bytes
/// that are then there.
pub fn migrated_under(
    mut disk: MemDisk,
    calls: u64,
    choice: Choice,
) -> Option<(Answer<()>, i64, Option<u8>, [u8; 32])> {
    let before = disk.faults();
    disk.fuse(calls);
    let answer = match NodeState::mount(&mut disk) {
        Ok(_) => Ok(()),
        Err(fault) => Err(fault),
    };
    let rose = disk.faults().saturating_sub(before);
    disk.crash(choice);
    let Ok(node) = NodeState::mount(&mut disk) else {
        return None;
    };
    let mut bytes = [0; 32];
    match disk.read_at(0, 0, &mut bytes) {
        Ok(_) => Some(((answer, rose), node.candidate_term(), node.voted(), bytes)),
        Err(_) => None,
    }
}

#[cfg(test)]
mod tests {
    use super::*;
    use crate::disks::{CHOICES, disk_with};
    use cl_base::MemberFault;
    use std::alloc::Global;
    use std::test::Fail;

    const DONE: Answer<()> = (Ok(()), 0);

    /// The answer where one call of the disk was refused or failed.
    const DEVICE: Answer<()> = (Err(MemberFault::Device), 1);

    /// More calls than a change makes.
    const NO_FUSE: u64 = 99;

    /// Nobody in both slots, as a new member has it.
    const FRESH: [u8; 32] = [
        255, 255, 255, 255, 255, 255, 255, 255, 255, 255, 255, 255, 255, 255, 255, 255, 0, 2, 0, 0,
        255, 255, 255, 255, 255, 255, 255, 255, 0, 0, 0, 0,
    ];

    /// Candidate 7 in slot 0, of version 1.
    const OLD: [u8; 32] = [
        7, 0, 0, 0, 0, 0, 0, 0, 255, 255, 255, 255, 255, 255, 255, 255, 0, 1, 0, 0, 0, 0, 0, 0, 0,
        0, 0, 0, 0, 0, 0, 0,
    ];

    const MIGRATED: [u8; 32] = [
        7, 0, 0, 0, 0, 0, 0, 0, 255, 255, 255, 255, 255, 255, 255, 255, 0, 2, 0, 0, 255, 255, 255,
        255, 255, 255, 255, 255, 0, 0, 0, 0,
    ];

    const BEFORE: Option<(Answer<()>, i64, Option<u8>)> = Some((DEVICE, -1, None));

    const AFTER: Option<(Answer<()>, i64, Option<u8>)> = Some((DEVICE, 5, Some(3)));

    fn raised(alloc: Global, calls: u64, choice: Choice) -> Option<(Answer<()>, i64, Option<u8>)> {
        raised_under(disk_with(alloc, 0, &FRESH, None)?, calls, choice)
    }

    fn migrated(
        alloc: Global,
        calls: u64,
        choice: Choice,
    ) -> Option<(Answer<()>, i64, Option<u8>, [u8; 32])> {
        migrated_under(disk_with(alloc, 0, &OLD, None)?, calls, choice)
    }

    #[test]
    fn a_fuse_ends_a_raise(rt: HostRuntime) -> Result<(), Fail> {
        let alloc = rt.alloc();
        for choice in CHOICES {
            for calls in 0..4 {
                assert!(rt; raised(alloc, calls, choice) == BEFORE);
            }
            assert!(rt; raised(alloc, 5, choice) == Some((DONE, 5, Some(3))));
        }
        assert!(rt; raised(alloc, 4, Choice::Drop) == BEFORE);
        assert!(rt; raised(alloc, 4, Choice::Keep) == AFTER);
        assert!(rt; raised(alloc, 4, Choice::Fill(0x5a)) == BEFORE);
        assert!(rt; raised(alloc, 4, Choice::Fill(0xa7)) == AFTER);
        Ok(())
    }

    #[test]
    fn a_migration_leaves_the_state_as_it_was(rt: HostRuntime) -> Result<(), Fail> {
        let alloc = rt.alloc();
        for choice in CHOICES {
            for calls in 0..4 {
                assert!(rt; migrated(alloc, calls, choice) == Some((DEVICE, 7, None, MIGRATED)));
            }
            assert!(rt; migrated(alloc, 4, choice) == Some((DONE, 7, None, MIGRATED)));
        }
        Ok(())
    }

    fn raised_past(
        alloc: Global,
        call: u64,
        choice: Choice,
    ) -> Option<(Answer<()>, i64, Option<u8>)> {
        raised_under(disk_with(alloc, 0, &FRESH, Some(call))?, NO_FUSE, choice)
    }

    fn mounted_past(
        alloc: Global,
        bytes: &[u8],
        call: u64,
        choice: Choice,
    ) -> Option<(Answer<()>, i64, Option<u8>, [u8; 32])> {
        migrated_under(disk_with(alloc, 0, bytes, Some(call))?, NO_FUSE, choice)
    }

    /// Calls 1 and 2 make the file, and 3 is the mount's read.
    #[test]
    fn each_call_of_the_disk_may_fail(rt: HostRuntime) -> Result<(), Fail> {
        let alloc = rt.alloc();
        for choice in CHOICES {
            assert!(rt; mounted_past(alloc, &FRESH, 3, choice) == Some((DEVICE, -1, None, FRESH)));
            for call in 3..8 {
                assert!(rt;
                    mounted_past(alloc, &OLD, call, choice) == Some((DEVICE, 7, None, MIGRATED))
                );
            }
            for call in 4..7 {
                assert!(rt; raised_past(alloc, call, choice) == BEFORE);
            }
        }
        // The write of the selector, and then its sync.
        assert!(rt; raised_past(alloc, 7, Choice::Drop) == BEFORE);
        assert!(rt; raised_past(alloc, 7, Choice::Keep) == BEFORE);
        assert!(rt; raised_past(alloc, 7, Choice::Fill(0x5a)) == BEFORE);
        assert!(rt; raised_past(alloc, 7, Choice::Fill(0xa7)) == AFTER);
        assert!(rt; raised_past(alloc, 8, Choice::Drop) == BEFORE);
        assert!(rt; raised_past(alloc, 8, Choice::Keep) == AFTER);
        assert!(rt; raised_past(alloc, 8, Choice::Fill(0x5a)) == BEFORE);
        assert!(rt; raised_past(alloc, 8, Choice::Fill(0xa7)) == AFTER);
        Ok(())
    }

    fn fault_of(alloc: Global, bytes: &[u8]) -> Option<MemberFault> {
        let mut disk = disk_with(alloc, 0, bytes, None)?;
        match NodeState::mount(&mut disk) {
            Ok(_) => None,
            Err(fault) => Some(fault),
        }
    }

    #[test]
    fn a_wrong_file_is_named(rt: HostRuntime) -> Result<(), Fail> {
        let alloc = rt.alloc();
        let mut low = FRESH;
        low[0] = 254;
        let short = MemberFault::Damaged { file: 0, place: 31 };
        let wrong = MemberFault::Damaged { file: 0, place: 0 };
        assert!(rt; fault_of(alloc, &FRESH[..31]) == Some(short));
        assert!(rt; fault_of(alloc, &low) == Some(wrong));
        assert!(rt; fault_of(alloc, &FRESH) == None);
        Ok(())
    }
}
