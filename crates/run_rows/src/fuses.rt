// Disks that stop under a run, at each changing call and with each choice of what a crash leaves.
use crate::tables::{Fused, Row, differs};
use std::test::Fail;

/// What a crash may be told to leave.
const ANY: &[&str] = &["drop", "keep", "5a", "a7"];

/// The append of an open makes five changing calls.
const OPEN: Row = (
    "members 1 / service echo / rounds 40",
    "connect 0 0 / start 0 / rounds 40",
);

const OPENED: [Fused; 4] = [
    (
        0,
        3,
        ANY,
        "stopped 0 / order 5 device / order 6 ok / entry 1 1 term leader 0 base 96 ts 740",
    ),
    (
        4,
        4,
        &["drop", "a7"],
        "stopped 0 / order 5 device / order 6 ok / entry 1 1 term leader 0 base 96 ts 740",
    ),
    (
        4,
        4,
        &["keep", "5a"],
        "stopped 0 / order 5 device / order 6 ok / entry 1 0 open 1 stream 0 corr 1 ts 400 channel - / entry 2 1 term leader 0 base 192 ts 740",
    ),
    (5, 5, ANY, "order 5 accepted 1 / order 6 running"),
];

/// A run that makes 46 changing calls before its `start`.
const LEDGER: Row = (
    "members 1 / service ledger",
    "rounds 40 / connect 0 0 / rounds 1 / sendhex 0 0 0500000000000000 / rounds 1 / action 0 / rounds 1 / start 0 / rounds 40",
);

const STOPPED: [Fused; 2] = [
    (0, 45, ANY, "stopped 0 / order 11 ok / done"),
    (46, 46, ANY, "order 11 running / done"),
];

#[test]
fn a_stop_at_each_write(rt: HostRuntime) -> Result<(), Fail> {
    assert_eq!(rt; differs(&rt, rt.alloc(), OPEN, &OPENED)?, None);
    assert_eq!(rt; differs(&rt, rt.alloc(), LEDGER, &STOPPED)?, None);
    Ok(())
}

/// The log ends at 64,704: the first segment has 832 bytes left.
const FULL: &str =
    "members 1 / service echo / rounds 40 / connect 0 0 / rounds 1 / 32 * send 0 0 @960 / rounds 1 / 31 * send 0 0 @960 / rounds 1";

/// A message that doesn't fit: a pad leads to the next segment, by six changing calls.
const PAD: Row = (FULL, "send 0 0 @960 / start 0 / rounds 40");

const PADDED: [Fused; 4] = [
    (
        0,
        4,
        ANY,
        "stopped 0 / order 72 device / order 73 ok / entry 65 1 term leader 0 base 64704 ts 770",
    ),
    (
        5,
        5,
        &["drop", "a7"],
        "stopped 0 / order 72 device / order 73 ok / entry 65 1 term leader 0 base 64704 ts 770",
    ),
    (
        5,
        5,
        &["keep", "5a"],
        "stopped 0 / order 72 device / order 73 ok / entry 66 1 term leader 0 base 66560 ts 770",
    ),
    (6, 6, ANY, "order 72 accepted 65 / order 73 running"),
];

/// A message that fills the segment, by seven changing calls.
const FILL: Row = (FULL, "send 0 0 @768 / start 0 / rounds 40");

const FILLED: [Fused; 4] = [
    (
        0,
        5,
        ANY,
        "stopped 0 / order 72 device / order 73 ok / entry 65 1 term leader 0 base 64704 ts 770",
    ),
    (
        6,
        6,
        &["drop", "a7"],
        "stopped 0 / order 72 device / order 73 ok / entry 65 1 term leader 0 base 64704 ts 770",
    ),
    (
        6,
        6,
        &["keep", "5a"],
        "stopped 0 / order 72 device / order 73 ok / entry 66 1 term leader 0 base 65536 ts 770",
    ),
    (7, 7, ANY, "order 72 accepted 65 / order 73 running"),
];

#[test]
fn a_stop_at_the_end_of_a_segment(rt: HostRuntime) -> Result<(), Fail> {
    assert_eq!(rt; differs(&rt, rt.alloc(), PAD, &PADDED)?, None);
    assert_eq!(rt; differs(&rt, rt.alloc(), FILL, &FILLED)?, None);
    Ok(())
}
