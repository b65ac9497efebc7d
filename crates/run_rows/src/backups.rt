// A backup, which is no member.
use crate::tables::{Row, writes};
use std::test::Fail;

const COPIED: [Row; 6] = [
    // Two entries are copied, once they are committed and asked for.
    (
        "members 1 / service echo / rounds 40 / backup 0 / connect 0 0 / rounds 4",
        "order 4 ok / order 5 accepted 1 / backup entries 2 same 2 snapshots 0 / done",
    ),
    (
        "members 1 / service echo / rounds 40 / backup 0 / connect 0 0 / rounds 2",
        "order 4 ok / order 5 accepted 1 / backup entries 0 same 0 snapshots 0 / done",
    ),
    // So is a snapshot, also where packets were lost.
    (
        "members 1 / service ledger / rounds 40 / connect 0 0 / rounds 1 / sendhex 0 0 0500000000000000 / rounds 1 / action 0 / rounds 1 / backup 0 / rounds 6",
        "order 10 ok / backup entries 4 same 4 snapshots 1 / snapshot 384 0 / done",
    ),
    (
        "members 1 / service ledger / rounds 40 / connect 0 0 / rounds 1 / sendhex 0 0 0500000000000000 / rounds 1 / action 0 / rounds 1 / backup 0 / 6 * rounds 3 + backup lose / rounds 2",
        "order 10 ok / backup entries 4 same 4 snapshots 1 / snapshot 384 0 / done",
    ),
    // A node that asks nobody gets nothing, and a member that is stopped drops what it is asked.
    (
        "members 1 / service echo / rounds 40 / backup 0 / backup off / rounds 6",
        "order 4 ok / backup entries 0 same 0 snapshots 0 / done",
    ),
    (
        "members 1 / service echo / rounds 40 / stop 0 / backup 0 / rounds 6",
        "order 4 ok / order 5 ok / backup entries 0 same 0 snapshots 0 / done",
    ),
];

#[test]
fn a_backup_copies_what_is_committed(rt: HostRuntime) -> Result<(), Fail> {
    for (scenario, lines) in COPIED {
        assert!(rt; writes(&rt, rt.alloc(), scenario, lines)?, "{lines}");
    }
    Ok(())
}
