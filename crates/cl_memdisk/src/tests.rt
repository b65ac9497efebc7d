use crate::MemDisk;
use cl_base::{Choice, Disk, Trouble};
use std::alloc::Global;
use std::test::Fail;

const FILE: u32 = 3;

#[derive(Clone, Copy)]
enum Step {
    Write(u64, &'static [u8]),
    Cut(u64),
    Sync,
}

/// What a choice leaves after steps on a file that was synced with the bytes 1 to 4.
struct Row {
    steps: &'static [Step],
    /// The numbers of the calls that fail: the first three make the file, and each step but a sync is two.
    failing: &'static [u64],
    drop: &'static [u8],
    keep: &'static [u8],
    fill: &'static [u8],
}

const ROWS: [Row; 8] = [
    Row {
        steps: &[Step::Write(1, &[8]), Step::Write(4, &[6, 7])],
        failing: &[],
        drop: &[1, 2, 3, 4],
        keep: &[1, 8, 3, 4, 6, 7],
        fill: &[1, 5, 3, 4, 5, 5],
    },
    Row {
        steps: &[Step::Write(2, &[9, 9, 9]), Step::Cut(1)],
        failing: &[],
        drop: &[1, 2, 3, 4],
        keep: &[1],
        fill: &[1],
    },
    Row {
        steps: &[Step::Cut(1), Step::Write(1, &[7, 7])],
        failing: &[],
        drop: &[1, 2, 3, 4],
        keep: &[1, 7, 7],
        fill: &[1, 5, 5],
    },
    Row {
        steps: &[Step::Write(3, &[6, 6, 6]), Step::Sync, Step::Write(0, &[2])],
        failing: &[],
        drop: &[1, 2, 3, 6, 6, 6],
        keep: &[2, 2, 3, 6, 6, 6],
        fill: &[5, 2, 3, 6, 6, 6],
    },
    Row {
        steps: &[Step::Write(1, &[8, 8])],
        failing: &[5],
        drop: &[1, 2, 3, 4],
        keep: &[1, 2, 3, 4],
        fill: &[1, 5, 5, 4],
    },
    Row {
        steps: &[Step::Cut(2)],
        failing: &[5],
        drop: &[1, 2, 3, 4],
        keep: &[1, 2, 3, 4],
        fill: &[1, 2, 5, 5],
    },
    Row {
        steps: &[Step::Write(0, &[9]), Step::Sync],
        failing: &[6],
        drop: &[1, 2, 3, 4],
        keep: &[9, 2, 3, 4],
        fill: &[5, 2, 3, 4],
    },
    Row {
        steps: &[Step::Write(0, &[9])],
        failing: &[4],
        drop: &[1, 2, 3, 4],
        keep: &[1, 2, 3, 4],
        fill: &[1, 2, 3, 4],
    },
];

fn make(disk: &mut MemDisk, step: Step) -> Result<(), Trouble> {
    match step {
        Step::Sync => disk.sync(FILE),
        Step::Write(at, bytes) => {
            let end = disk.len(FILE)?;
            if end < at {
                return Err(Trouble::Failed);
            }
            disk.write_at(FILE, at, bytes)
        }
        Step::Cut(len) => {
            let size = disk.len(FILE)?;
            if size < len {
                return Err(Trouble::Failed);
            }
            disk.cut(FILE, len)
        }
    }
}

fn holds(disk: &mut MemDisk, want: &[u8]) -> bool {
    let mut buf = [0u8; 16];
    match disk.read_at(FILE, 0, &mut buf) {
        Ok(n) if n <= buf.len() => &buf[..n] == want,
        _ => false,
    }
}

fn leaves(alloc: Global, row: &Row, choice: Choice, want: &[u8]) -> Result<bool, Fail> {
    let failing = Vec::from_slice(alloc, row.failing)?;
    let Ok(mut disk) = MemDisk::new(alloc, failing) else {
        return Err("memory".into());
    };
    let mut failed = 0u64;
    for made in [Step::Write(0, &[1, 2, 3, 4]), Step::Sync] {
        if make(&mut disk, made).is_err() {
            return Err("memory".into());
        }
    }
    for made in row.steps {
        match make(&mut disk, *made) {
            Ok(()) => {}
            Err(Trouble::Failed) => failed = failed.saturating_add(1),
            Err(Trouble::NoMemory) => return Err("memory".into()),
        }
    }
    let counted = disk.faults() == failed && failed == row.failing.len() as u64;
    disk.crash(choice);
    Ok(counted && holds(&mut disk, want))
}

#[test]
fn a_crash_leaves_what_its_choice_says(rt: HostRuntime) -> Result<(), Fail> {
    let alloc = rt.alloc();
    for (i, row) in ROWS.iter().enumerate() {
        assert!(rt;
            leaves(alloc, row, Choice::Drop, row.drop)?,
            "drop in row {i}"
        );
        assert!(rt;
            leaves(alloc, row, Choice::Keep, row.keep)?,
            "keep in row {i}"
        );
        assert!(rt;
            leaves(alloc, row, Choice::Fill(5), row.fill)?,
            "fill in row {i}"
        );
    }
    Ok(())
}

#[test]
fn a_fuse_refuses_what_is_past_it(rt: HostRuntime) -> Result<(), Fail> {
    let alloc = rt.alloc();
    let failing = Vec::from_slice(alloc, &[4])?;
    let Ok(mut disk) = MemDisk::new(alloc, failing) else {
        return Err("memory".into());
    };
    disk.fuse(2);
    assert!(rt; disk.write_at(FILE, 0, &[1, 2]).is_ok());
    assert!(rt; disk.sync(FILE).is_ok());
    // The third is past the fuse, and the fourth is in the list besides.
    assert!(rt; disk.write_at(FILE, 0, &[7]) == Err(Trouble::Failed));
    assert!(rt; disk.sync(FILE) == Err(Trouble::Failed));
    assert!(rt; disk.len(FILE) == Err(Trouble::Failed));
    assert!(rt; !holds(&mut disk, &[1, 2]));
    assert_eq!(rt; disk.faults(), 4);
    disk.crash(Choice::Fill(9));
    assert!(rt; holds(&mut disk, &[1, 2]));
    assert!(rt; disk.write_at(FILE, 0, &[7]).is_ok());
    assert!(rt; holds(&mut disk, &[7, 2]));
    assert_eq!(rt; disk.faults(), 4);
    Ok(())
}
