// What a backup does with packets, over a disk in memory.
use cl_base::Bytes;
use cl_memdisk::MemDisk;
use cluster_backup::{Backup, Taken};
use member_disk::format;
use std::alloc::Global;

/// The disk of a backup that has nothing yet. Of the calls from 1 on that give a Result, the one of this number fails;
/// at 0 none does. None where it failed before the disk was made.
pub fn new_disk(alloc: Global, failing_call: u64) -> Option<MemDisk> {
    let mut failing = Vec::new(alloc);
    if failing.push(failing_call).is_err() {
        return None;
    }
    let Ok(mut disk) = MemDisk::new(alloc, failing) else {
        return None;
    };
    if format(&mut disk).is_err() {
        return None;
    }
    Some(disk)
}

/// What a backup of one service that had nothing answers to packets in turn, and what it asks then. None where a call
/// isn't done.
pub fn answers(alloc: Global, packets: &[&[u8]]) -> Option<(Vec<Taken>, Bytes)> {
    let disk = new_disk(alloc, 0)?;
    let Ok(mut backup) = Backup::mount(alloc, disk, 1) else {
        return None;
    };
    let mut taken = Vec::new(alloc);
    for packet in packets {
        if !backup.is_whole() {
            return None;
        }
        let Ok(answer) = backup.take(packet) else {
            return None;
        };
        if taken.push(answer).is_err() {
            return None;
        }
    }
    match backup.query() {
        Ok(query) => Some((taken, query)),
        Err(_) => None,
    }
}

/// Mounts the disk of a backup of one service and gives it packets in turn, up to the first that isn't taken. It says
/// whether all were, and gives the disk.
pub fn taken(alloc: Global, disk: MemDisk, packets: &[&[u8]]) -> (bool, MemDisk) {
    let mut backup = match Backup::mount(alloc, disk, 1) {
        Ok(backup) => backup,
        Err((disk, _)) => return (false, disk),
    };
    for packet in packets {
        if !backup.is_whole() || backup.take(packet).is_err() {
            return (false, backup.into_disk());
        }
    }
    (true, backup.into_disk())
}

#[cfg(test)]
mod tests {
    use super::*;
    use crate::packets::tests::{LOG, MODULE, QUERY, SERVICE, TIMERS, changed};
    use std::test::Fail;
    use wire_prims::{Bad, BadCause};

    /// What a backup asks that has so many entries, below 256, and no set.
    fn query_of(entries: u8) -> [u8; 24] {
        let mut want = QUERY;
        want[8] = entries;
        want
    }

    #[test]
    fn a_log_and_its_snapshots_are_taken_once(rt: HostRuntime) -> Result<(), Fail> {
        let (taken, query) = answers(
            rt.alloc(),
            &[&LOG, &LOG, &SERVICE, &MODULE, &SERVICE, &QUERY],
        )
        .ok_or("answers")?;
        assert!(rt;
            taken.as_slice()
                == [
                    Taken::Grown(2),
                    Taken::Nothing,
                    Taken::Part,
                    Taken::Part,
                    Taken::Nothing,
                    Taken::Nothing,
                ]
                .as_slice()
        );
        // Two entries, and a set at 160.
        let mut want = QUERY;
        want[16] = 160;
        for at in 17..24usize {
            want[at] = 0;
        }
        assert!(rt; query.as_slice() == want.as_slice());
        Ok(())
    }

    #[test]
    fn entries_past_its_own_are_appended(rt: HostRuntime) -> Result<(), Fail> {
        // From entry 3 on, past a gap; then two entries of which it has one, and both again.
        let mut gap = TIMERS;
        gap[8] = 3;
        let mut one = TIMERS;
        one[8] = 1;
        let (taken, query) = answers(rt.alloc(), &[&TIMERS, &LOG, &gap, &one, &one, &TIMERS]).ok_or(
            "answers",
        )?;
        assert!(rt;
            taken.as_slice()
                == [
                    Taken::Nothing,
                    Taken::Grown(2),
                    Taken::Nothing,
                    Taken::Grown(1),
                    Taken::Nothing,
                    Taken::Grown(1),
                ]
                .as_slice()
        );
        assert!(rt; query.as_slice() == query_of(4).as_slice());
        Ok(())
    }

    /// Sets the terms of the two events that begin at 24 and at this byte.
    fn with_terms(bytes: &mut [u8], first: u8, second_at: usize, second: u8) {
        if second_at < bytes.len() && 32 < bytes.len() {
            bytes[32] = first;
            bytes[second_at] = second;
        }
    }

    #[test]
    fn a_term_that_falls_brings_nothing(rt: HostRuntime) -> Result<(), Fail> {
        // The second event's term stands at 84, or at 68.
        let mut falling = LOG;
        with_terms(&mut falling, 1, 84, 0);
        let mut first = LOG;
        with_terms(&mut first, 1, 84, 1);
        // Below the last one's, falling behind it, and rising.
        let mut below = TIMERS;
        with_terms(&mut below, 0, 68, 1);
        let mut bent = TIMERS;
        with_terms(&mut bent, 2, 68, 1);
        let mut rising = TIMERS;
        with_terms(&mut rising, 1, 68, 2);
        let (taken, query) = answers(rt.alloc(), &[&falling, &first, &below, &bent, &rising]).ok_or(
            "answers",
        )?;
        assert!(rt;
            taken.as_slice()
                == [
                    Taken::Nothing,
                    Taken::Grown(2),
                    Taken::Nothing,
                    Taken::Nothing,
                    Taken::Grown(2),
                ]
                .as_slice()
        );
        assert!(rt; query.as_slice() == query_of(4).as_slice());
        Ok(())
    }

    /// What a backup whose log ends at 160 answers to the snapshot of a service with two bytes changed.
    fn put_with(alloc: Global, first: (usize, u8), second: (usize, u8)) -> Option<Taken> {
        let once = changed(alloc, &SERVICE, first.0, first.1)?;
        let bytes = changed(alloc, &once, second.0, second.1)?;
        let (taken, _) = answers(alloc, &[&LOG, &bytes])?;
        let answer = taken.as_slice().last()?;
        Some(*answer)
    }

    /// Two bytes, what they are changed to, and the answer.
    const PUTS: [((usize, u8), (usize, u8), Taken); 12] = [
        // Recordings 0, 1,023, 1,024 and 1,027, a great one and one below 0.
        ((8, 0), (9, 0), Taken::Part),
        ((8, 255), (9, 3), Taken::Part),
        ((8, 0), (9, 4), Taken::Nothing),
        ((8, 3), (9, 4), Taken::Nothing),
        ((8, 3), (14, 1), Taken::Nothing),
        ((8, 3), (15, 0x80), Taken::Nothing),
        // Positions 159, 160 and 161.
        ((24, 159), (25, 0), Taken::Part),
        ((24, 160), (25, 0), Taken::Part),
        ((24, 161), (25, 0), Taken::Nothing),
        ((24, 160), (25, 1), Taken::Nothing),
        // Services 1 and one below -1.
        ((40, 1), (41, 0), Taken::Nothing),
        ((40, 0), (43, 0x80), Taken::Nothing),
    ];

    #[test]
    fn a_snapshot_is_put_where_its_numbers_allow(rt: HostRuntime) -> Result<(), Fail> {
        let alloc = rt.alloc();
        for (first, second, want) in PUTS {
            let at = first.0;
            assert!(rt; put_with(alloc, first, second) == Some(want), "byte {at}");
        }
        let (taken, _) = answers(alloc, &[&SERVICE]).ok_or("answers")?;
        assert!(rt; taken.as_slice() == [Taken::Nothing].as_slice());
        Ok(())
    }

    /// Whether every proper front of a packet is Bad, short at its length, and leaves what the backup asks.
    fn fronts_are_short(alloc: Global, backup: &mut Backup<MemDisk>, packet: &[u8]) -> bool {
        let Ok(before) = backup.query() else {
            return false;
        };
        for len in 0..packet.len() {
            let want = Taken::Bad(Bad {
                place: len as u64,
                cause: BadCause::Short,
            });
            if !backup.is_whole() || backup.take(&packet[..len]) != Ok(want) {
                return false;
            }
            match backup.query() {
                Ok(after) if after.as_slice() == before.as_slice() => (),
                _ => return false,
            }
        }
        true
    }

    #[test]
    fn the_front_of_a_packet_is_short_and_changes_nothing(rt: HostRuntime) -> Result<(), Fail> {
        let alloc = rt.alloc();
        let disk = new_disk(alloc, 0).ok_or("disk")?;
        let mut backup = Backup::mount(alloc, disk, 1).ok().ok_or("mount")?;
        let packets: [(&[u8], Taken); 4] = [
            (&QUERY, Taken::Nothing),
            (&LOG, Taken::Grown(2)),
            (&SERVICE, Taken::Part),
            (&MODULE, Taken::Part),
        ];
        for (packet, want) in packets {
            assert!(rt; fronts_are_short(alloc, &mut backup, packet));
            assert!(rt; backup.is_whole());
            assert!(rt; backup.take(packet) == Ok(want));
        }
        Ok(())
    }
}
