// Messages of clients, what they are answered, and the limits that they meet.
use crate::tables::{Row, writes};
use std::test::Fail;

const ANSWERS: [Row; 7] = [
    // A client that asks a follower is redirected.
    (
        "members 3 / service echo / rounds 60 / connect 0 1 / connect 0 0 / rounds 3",
        "order 4 not leader 0 / order 5 accepted 1 / entry 0 0 term leader 0 base 0 ts 350 / stream 0 egress 2 / out - direct 200002006f000000ffffffffffffffff01000000000000000000000000000000000000000200000000000000 / out 1 module 200002006f000000010000000000000002000000000000000000000000000000000000000000000000000000",
    ),
    // A message in another term.
    (
        "members 1 / service echo / rounds 40 / connect 0 0 / rounds 1 / bytes 0 0 180001006f00000007000000000000000100000000000000000000000000000078 / rounds 1",
        "order 6 wrong term 7 / log 2",
    ),
    // A session that is closed.
    (
        "members 1 / service echo / rounds 40 / connect 0 0 / rounds 1 / close 0 0 / send 0 0 x / close 0 0 / rounds 1",
        "order 6 accepted 2 / order 7 no session 1 / order 8 no session 1 / out 1 module .. / out 2 module 200002006f000000010000000000000001000000000000000000000000000000000000000400000000000000",
    ),
    // A connect of a newer schema: what is past the fields that are known is skipped.
    (
        "members 1 / service echo / rounds 40 / bytes 0 0 140003006f00090001000000000000000000000000000000ffffffff090000006165726f6e3a69706300000000010000007a / rounds 1 / send 0 0 hi / rounds 1",
        "order 4 accepted 1 / order 6 accepted 2 / log 3 / entry 0 0 term leader 0 base 0 ts 340 / entry 1 0 open 1 stream 0 corr 1 ts 400 channel 6165726f6e3a697063 / entry 2 0 message 1 ts 410 6869 / service 0 0 run 1 from 0 count 3 / in 0 0 term leader 0 base 0 ts 340 / in 1 0 open 1 stream 0 corr 1 ts 400 channel 6165726f6e3a697063 / in 2 0 message 1 ts 410 6869 / stream 0 egress 2 / out 1 module 200002006f000000010000000000000001000000000000000000000000000000000000000000000000000000 / out 2 service 0 0 180001006f000000000000000000000001000000000000009a010000000000006869 / member 0 up candidate 0 entries 3 same 3 commit 3 snapshots 0 / done",
    ),
    // Bytes that are no message.
    (
        "members 1 / service echo / rounds 40 / bytes 0 0 180001006f0000 / bytes 0 0 180007006f000000 / bytes 0 0 1800010070000000 / bytes 0 0 170001006f000000 / bytes 0 0 180001006f000000",
        "order 4 bad 7 short / order 5 bad 2 template / order 6 bad 4 schema / order 7 bad 0 block / order 8 bad 8 short",
    ),
    // Stops and starts.
    (
        "members 1 / service echo / rounds 40 / connect 0 0 / rounds 1 / send 0 0 hi / rounds 1 / stop 0 / stop 0 / send 0 0 x / start 0 / start 0",
        "order 8 ok / order 9 member down / order 10 member down / order 11 ok / order 12 running",
    ),
    // A keep-alive.
    (
        "members 1 / service echo / rounds 40 / connect 0 0 / rounds 1 / keepalive 0 0",
        "order 6 alive / log 2",
    ),
];

const LIMITS: [Row; 5] = [
    // One message fills the window.
    (
        "members 1 / service echo / rounds 40 / connect 0 0 / rounds 1 / send 0 0 @16384 / send 0 0 @16385 / send 0 0 @16384 / rounds 1",
        "order 6 accepted 2 / order 7 too large 16385 / order 8 back pressure 33600",
    ),
    // As do 32 messages of one frame each.
    (
        "members 3 / service echo / rounds 60 / connect 0 0 / rounds 5 / 33 * send 0 0 @960",
        "order 6 accepted 2 / order 37 accepted 33 / order 38 back pressure 33792",
    ),
    // 1,024 sessions may be open.
    (
        "members 1 / service echo / rounds 40 / 300 * connect 0 0 / rounds 1 / 300 * connect 0 0 / rounds 1 / 300 * connect 0 0 / rounds 1 / 125 * connect 0 0",
        "order 4 accepted 1 / order 303 accepted 300 / order 305 accepted 301 / order 1030 accepted 1024 / order 1031 session limit",
    ),
    // A log has at most 256 snapshot actions.
    (
        "members 1 / service echo / rounds 40 / 256 * action 0 + rounds 1 / action 0",
        "order 4 accepted 1 / order 514 accepted 256 / order 516 action limit",
    ),
    // No member leads yet.
    (
        "members 1 / service echo / connect 0 0 / action 0",
        "order 3 not leader - / order 4 not leader - / out - direct 200002006f000000ffffffffffffffff0100000000000000ffffffffffffffffffffffff0200000000000000",
    ),
];

#[test]
fn clients_and_their_answers(rt: HostRuntime) -> Result<(), Fail> {
    for (scenario, lines) in ANSWERS {
        assert!(rt; writes(&rt, rt.alloc(), scenario, lines)?, "{lines}");
    }
    Ok(())
}

#[test]
fn limits(rt: HostRuntime) -> Result<(), Fail> {
    for (scenario, lines) in LIMITS {
        assert!(rt; writes(&rt, rt.alloc(), scenario, lines)?, "{lines}");
    }
    Ok(())
}

/// Messages of clients, whole: a connect, a close and a keep-alive.
const WHOLE: [&str; 3] = [
    "100003006f000000010000000000000000000000000000000000000000000000",
    "100004006f00000000000000000000000100000000000000",
    "100005006f00000000000000000000000100000000000000",
];

/// Every proper front of a message is too short.
#[test]
fn fronts_of_messages(rt: HostRuntime) -> Result<(), Fail> {
    let alloc = rt.alloc();
    for message in WHOLE {
        let front = "members 1 / service echo / rounds 40 / bytes 0 0 -";
        let mut scenario = String::from_str(alloc, front)?;
        let mut lines = String::from_str(alloc, "order 4 bad 0 short")?;
        for bytes in 1..message.len() / 2 {
            let front = message.get(0..2 * bytes).ok_or("front")?;
            write!(&mut scenario, " / bytes 0 0 {front}")?;
            let at = bytes + 4;
            write!(&mut lines, " / order {at} bad {bytes} short")?;
        }
        assert!(rt;
            writes(&rt, alloc, scenario.as_str(), lines.as_str())?,
            "{message}"
        );
    }
    Ok(())
}
