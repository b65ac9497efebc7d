// Clients that join a run, and look after themselves.
use crate::tables::{Row, writes};
use std::test::Fail;

const JOINED: [Row; 3] = [
    // It asks until there is a leader: 36 connects are led on. Its payload comes back.
    (
        "members 3 / service echo / join 0 / rounds 70 / offer 0 hi / rounds 4",
        "order 5 accepted 2 / entry 1 0 open 1 stream 0 corr 37 ts 370 channel - / stream 0 egress 38 / 36 * out - direct .. / out 1 module .. / out 2 service 0 0 .. / client 0 handed 1 / got 0 6869",
    ),
    // It follows to the leader of the next term.
    (
        "members 3 / service echo / join 0 / rounds 70 / offer 0 hi / rounds 4 / stop 0 / rounds 300 / offer 0 again / rounds 4",
        "order 5 accepted 2 / order 7 ok / order 9 accepted 4 / client 0 handed 2 / got 0 6869 / got 1 616761696e",
    ),
    // It has no session yet, or the payload is too large: nothing is sent.
    (
        "members 1 / service echo / join 0 / offer 0 hi / rounds 60 / offer 0 @16385",
        "order 4 not open / order 6 too large 16385 / log 2 / client 0 handed 0",
    ),
];

#[test]
fn clients_that_join(rt: HostRuntime) -> Result<(), Fail> {
    for (scenario, lines) in JOINED {
        assert!(rt; writes(&rt, rt.alloc(), scenario, lines)?, "{lines}");
    }
    Ok(())
}
