// Calls that end in one line.
ghost use Rattle.std.specs.Prelude.{[], false};

use crate::disks::{Failing, Row, called, called_over, ends};
use crate::files::{EMPTY, FIRST, LONG_OLD, NEW, OLD};
use cl_base::{Sink, Trouble};
use cluster_tool::ToolStatus;
use std::test::Fail;

const USAGE: &str =
    "usage: clusterd run [--dir D] | check | make N [--dir D] | tool describe S DIR | tool recording-log DIR | tool verify DIR DIR\n";

/// Words that are those of no listing.
const NO_LISTING: [&[&str]; 16] = [
    &[],
    &["tool"],
    &["tool", "describe", "1"],
    &["tool", "describe", "0", "m0"],
    &["tool", "describe", "4", "m0"],
    &["tool", "describe", "01", "m0"],
    &["tool", "describe", "1", ""],
    &["tool", "describe", "1", "m0", "m1"],
    &["tool", "recording-log"],
    &["tool", "recording-log", ""],
    &["tool", "recording-log", "-m0"],
    &["tool", "verify", "m0"],
    &["tool", "verify", "m0", "-m1"],
    &["tool", "verify", "", "m1"],
    &["tool", "Verify", "m0", "m1"],
    &["run", "recording-log", "m0"],
];

#[test]
fn words_of_no_listing(rt: HostRuntime) -> Result<(), Fail> {
    for words in NO_LISTING {
        let row = Row {
            words,
            disks: &[&FIRST],
            status: ToolStatus::Usage,
            text: USAGE,
        };
        assert!(rt; ends(rt.alloc(), &row)?);
    }
    Ok(())
}

/// A look at each disk comes before any mount, and disks are mounted in order.
const FIRST_AND_SECOND: [Row<'static>; 8] = [
    Row {
        words: &["tool", "describe", "1", "m0"],
        disks: &[&OLD],
        status: ToolStatus::Old { disk: 0 },
        text: "disk 0: version 1\n",
    },
    Row {
        words: &["tool", "recording-log", "m0"],
        disks: &[&NEW],
        status: ToolStatus::Old { disk: 0 },
        text: "disk 0: version 1\n",
    },
    Row {
        words: &["tool", "verify", "m0", "m1"],
        disks: &[&OLD, &NEW],
        status: ToolStatus::Old { disk: 0 },
        text: "disk 0: version 1\n",
    },
    Row {
        words: &["tool", "describe", "1", "m0"],
        disks: &[&LONG_OLD],
        status: ToolStatus::Damaged {
            disk: 0,
            file: 0,
            place: 32,
        },
        text: "damaged 0 0 32\n",
    },
    Row {
        words: &["tool", "verify", "m0", "m1"],
        disks: &[&EMPTY, &OLD],
        status: ToolStatus::Old { disk: 1 },
        text: "disk 1: version 1\n",
    },
    Row {
        words: &["tool", "recording-log", "m0"],
        disks: &[&EMPTY],
        status: ToolStatus::Damaged {
            disk: 0,
            file: 0,
            place: 0,
        },
        text: "damaged 0 0 0\n",
    },
    Row {
        words: &["tool", "verify", "m0", "m1"],
        disks: &[&FIRST, &EMPTY],
        status: ToolStatus::Damaged {
            disk: 1,
            file: 0,
            place: 0,
        },
        text: "damaged 1 0 0\n",
    },
    Row {
        words: &["tool", "verify", "m0", "m1"],
        disks: &[&EMPTY, &EMPTY],
        status: ToolStatus::Damaged {
            disk: 0,
            file: 0,
            place: 0,
        },
        text: "damaged 0 0 0\n",
    },
];

#[test]
fn the_first_disk_is_named(rt: HostRuntime) -> Result<(), Fail> {
    for row in &FIRST_AND_SECOND {
        assert!(rt; ends(rt.alloc(), row)?, "{}", row.text);
    }
    Ok(())
}

/// The exit status of each answer.
const CODES: [(ToolStatus, u8); 7] = [
    (ToolStatus::Done, 0),
    (ToolStatus::Usage, 2),
    (ToolStatus::WriteFault, 8),
    (ToolStatus::DiskFault { disk: 1 }, 9),
    (ToolStatus::NoMemory, 10),
    (
        ToolStatus::Damaged {
            disk: 0,
            file: 2,
            place: 96,
        },
        11,
    ),
    (ToolStatus::Old { disk: 0 }, 12),
];

#[test]
fn exit_statuses(rt: HostRuntime) -> Result<(), Fail> {
    for (status, code) in CODES {
        assert_eq!(rt; status.code(), code);
    }
    Ok(())
}

/// A sink that has no memory for what it is given.
#[derive(Drop)]
struct Full;

impl Sink for Full {
    ghost tells = { λ _. false };

    ghost held = { λ _. [] };

    ghost fault_count = { λ _. 0 };

    fn faults(&self) -> u64 {
        0
    }

    fn write(&mut self, _bytes: &[u8]) -> Result<usize, Trouble> {
        Err(Trouble::NoMemory)
    }
}

/// A sink that fails, or has no memory, ends a refusal as it does a listing.
#[test]
fn a_refusal_is_not_written(rt: HostRuntime) -> Result<(), Fail> {
    let alloc = rt.alloc();
    for row in &FIRST_AND_SECOND {
        let (status, text) = called(alloc, row, Failing::write(1))?;
        assert_eq!(rt; status, ToolStatus::WriteFault);
        assert!(rt; text.is_empty());
        let status = called_over(alloc, row, Failing::NOTHING, &mut Full)?;
        assert_eq!(rt; status, ToolStatus::NoMemory);
    }
    Ok(())
}
