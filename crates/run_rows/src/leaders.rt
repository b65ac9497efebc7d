// Leaders that are lost, timers, snapshots and restarts.
use crate::tables::{Row, writes};
use std::test::Fail;

const LEADERS: [Row; 3] = [
    // The leader is lost: the entry that it alone had stays its own.
    (
        "members 3 / service echo / rounds 60 / connect 0 0 / rounds 5 / send 0 0 a / stop 0 / rounds 300 / send 0 1 a / rounds 3",
        "order 4 accepted 1 / order 6 accepted 2 / order 7 ok / order 9 accepted 3 / log 4 / entry 0 0 term leader 0 base 0 ts 350 / entry 1 0 open 1 stream 0 corr 1 ts 600 channel - / entry 2 1 term leader 1 base 192 ts 2100 / entry 3 1 message 1 ts 3650 61 / stream 0 egress 3 / out 1 module 200002006f000000010000000000000001000000000000000000000000000000000000000000000000000000 / out 2 module 140006006f000000010000000000000001000000000000000100000000000000 / out 3 service 0 0 180001006f00000001000000000000000100000000000000420e00000000000061 / member 0 down candidate 0 entries 3 same 2 commit - snapshots 0 / own 2 0 message 1 ts 650 61",
    ),
    // An entry that was committed and whose egress was never sent.
    (
        "members 3 / service echo / rounds 60 / connect 0 0 / rounds 5 / send 0 0 a / rounds 2 / quiet 1 / stop 0 / rounds 300",
        "entry 2 0 message 1 ts 650 61 / entry 3 1 term leader 1 base 288 ts 2130 / stream 0 egress 2 / out 1 module 200002006f000000010000000000000001000000000000000000000000000000000000000000000000000000 / out 3 module 140006006f000000010000000000000001000000000000000100000000000000",
    ),
    // A service message of a lost leader is appended once, by the next one.
    (
        "members 3 / service ledger / rounds 60 / connect 0 0 / rounds 5 / sendhex 0 0 e803000000000000 / rounds 3 / stop 0 / rounds 300",
        "log 5 / entry 3 1 term leader 1 base 288 ts 2130 / entry 4 1 service 0 1 ts 2140 e803000000000000 / out 2 service 0 0 180001006f000000000000000000000001000000000000008a02000000000000e803000000000000",
    ),
];

const KEPT: [Row; 4] = [
    // A timer whose event was appended before it was moved fires twice.
    (
        "members 1 / service ticker / rounds 40 / connect 0 0 / rounds 1 / sendhex 0 0 07000000000000006400000000000000 / rounds 9 / sendhex 0 0 0700000000000000e803000000000000 / rounds 110",
        "entry 2 0 message 1 ts 410 07000000000000006400000000000000 / entry 3 0 message 1 ts 500 0700000000000000e803000000000000 / entry 4 0 timer 7 ts 510 / entry 5 0 timer 7 ts 1500 / out 4 service 0 0 180001006f00000000000000000000000100000000000000fe010000000000000700000000000000 / out 5 service 0 0 180001006f00000000000000000000000100000000000000dc050000000000000700000000000000",
    ),
    // A snapshot, and a restart from it.
    (
        "members 1 / service ledger / rounds 40 / connect 0 0 / rounds 1 / sendhex 0 0 0500000000000000 / rounds 1 / action 0 / rounds 1 / stop 0 / start 0 / rounds 40",
        "entry 3 0 snapshot ts 420 / service 0 0 run 1 from 0 count 4 / service 0 0 run 2 from 4 count 1 / in 4 1 term leader 0 base 384 ts 770 / member 0 up candidate 1 entries 5 same 5 commit 5 snapshots 1 / snapshot 384 0",
    ),
    // A piece of a snapshot that is missing after a stop is written by the next run.
    (
        "members 1 / service ledger / rounds 40 / connect 0 0 / rounds 1 / sendhex 0 0 0500000000000000 / rounds 1 / action 0 / fuse 0 8 drop / rounds 1 / start 0 / rounds 40",
        "stopped 0 / order 11 ok / service 0 0 run 2 from 0 count 5 / member 0 up candidate 1 entries 5 same 5 commit 5 snapshots 1 / snapshot 384 0",
    ),
    // A snapshot that was made invalid.
    (
        "members 1 / service ledger / rounds 40 / connect 0 0 / rounds 1 / sendhex 0 0 0500000000000000 / rounds 1 / action 0 / rounds 1 / stop 0 / start 0 / rounds 40 / stop 0 / invalidate 0 / invalidate 0 / start 0 / rounds 1",
        "order 13 ok / order 14 ok / order 15 no snapshot / order 16 ok / service 0 0 run 3 from 0 count 0",
    ),
];

#[test]
fn leaders_that_are_lost(rt: HostRuntime) -> Result<(), Fail> {
    for (scenario, lines) in LEADERS {
        assert!(rt; writes(&rt, rt.alloc(), scenario, lines)?, "{lines}");
    }
    Ok(())
}

#[test]
fn timers_and_snapshots(rt: HostRuntime) -> Result<(), Fail> {
    for (scenario, lines) in KEPT {
        assert!(rt; writes(&rt, rt.alloc(), scenario, lines)?, "{lines}");
    }
    Ok(())
}
