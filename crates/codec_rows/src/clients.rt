ghost use Rattle.std.specs.Prelude.{◌≤◌};
ghost use Rattle.sbe_client.specs.Spelling.{HasEgressSpelling};

use cl_base::Bytes;
use sbe_client::*;
use std::alloc::{AllocError, Global};
use std::test::*;
use wire_prims::{Bad, BadCause, DecodeFault};

const LETTERS: &[u8; 16] = b"0123456789abcdef";

/// The digits of bytes, two for each.
fn hex(alloc: Global, bytes: &[u8]) -> Result<String, AllocError> {
    let mut text = String::new(alloc);
    for b in bytes {
        text.push(LETTERS[(*b >> 4) as usize] as char)?;
        text.push(LETTERS[(*b & 15) as usize] as char)?;
    }
    Ok(text)
}

fn digit(b: u8) -> u8 {
    match b {
        b'0'..=b'9' => b - b'0',
        b'a'..=b'f' => b - b'a' + 10,
        _ => 0,
    }
}

/// The bytes of digits.
fn bytes_of(alloc: Global, text: &str) -> Result<Vec<u8>, AllocError> {
    let mut bytes = Vec::new(alloc);
    for pair in text.as_bytes().chunks_exact(2) {
        if let [high, low] = pair {
            bytes.push(digit(*high) << 4 | digit(*low))?;
        }
    }
    Ok(bytes)
}

/// What is decoded, as text.
fn ingress_text(alloc: Global, text: &str) -> Result<String, AllocError> {
    let bytes = bytes_of(alloc, text)?;
    match decode_ingress(alloc, &bytes) {
        Ok(
            Ingress::Connect {
                corr,
                stream,
                channel,
            },
        ) => {
            let channel = hex(alloc, channel.as_slice())?;
            format!(in alloc; "connect {corr} {stream} {channel}")
        }
        Ok(
            Ingress::Message {
                term,
                session,
                payload,
            },
        ) => {
            let payload = hex(alloc, payload.as_slice())?;
            format!(in alloc; "message {term} {session} {payload}")
        }
        Ok(Ingress::Close { term, session }) => format!(in alloc; "close {term} {session}"),
        Ok(Ingress::KeepAlive { term, session }) => format!(in alloc; "alive {term} {session}"),
        Err(fault) => fault_text(alloc, fault),
    }
}

fn fault_text(alloc: Global, fault: DecodeFault) -> Result<String, AllocError> {
    match fault {
        DecodeFault::Bad(Bad { place, cause }) => format!(in alloc; "bad {place} {cause:?}"),
        DecodeFault::NoMemory => String::from_str(alloc, "no memory"),
    }
}

fn egress_text(alloc: Global, bytes: &[u8]) -> Result<String, AllocError> {
    match decode_egress(alloc, bytes) {
        Ok(
            Egress::SessionEvent {
                session,
                corr,
                term,
                leader,
                code,
            },
        ) => format!(in alloc; "event {session} {corr} {term} {leader} {code}"),
        Ok(
            Egress::Message {
                term,
                session,
                stamp,
                payload,
            },
        ) => {
            let payload = hex(alloc, payload.as_slice())?;
            format!(in alloc; "message {term} {session} {stamp} {payload}")
        }
        Ok(
            Egress::NewLeader {
                term,
                session,
                leader,
            },
        ) => format!(in alloc; "leader {term} {session} {leader}"),
        Err(fault) => fault_text(alloc, fault),
    }
}

#[test]
fn ingress_is_read_leniently(rt: HostRuntime) -> Result<(), Fail> {
    let alloc = rt.alloc();
    // A connect of a newer schema: a longer block, version 9, one more variable field.
    let newer =
        "140003006f00090001000000000000000000000000000000ffffffff090000006165726f6e3a69706300000000010000007a";
    for (text, want) in [
        (newer, "connect 1 0 6165726f6e3a697063"),
        (
            "180001006f00000007000000000000000100000000000000000000000000000078",
            "message 7 1 78",
        ),
        (
            "100004006f00000002000000000000000300000000000000",
            "close 2 3",
        ),
        (
            "100005006f000000ffffffffffffffff0400000000000000",
            "alive -1 4",
        ),
        ("180001006f0000", "bad 7 Short"),
        ("180007006f000000", "bad 2 Template"),
        ("180002006f000000", "bad 2 Template"),
        ("1800010070000000", "bad 4 Schema"),
        ("170001006f000000", "bad 0 Block"),
        ("180001006f000000", "bad 8 Short"),
        (&newer[..88], "bad 44 Short"),
    ] {
        let found = ingress_text(alloc, text)?;
        assert_eq!(rt; found.as_str(), want, "at {text}");
    }
    Ok(())
}

fn event(session: i64, code: u8) -> Egress
    requires { code ≤ 4 }
    ensures { HasEgressSpelling result }
{
    Egress::SessionEvent {
        session,
        corr: 1,
        term: 0,
        leader: 0,
        code,
    }
}

/// Its bytes, and what they are decoded to.
fn both_ways(alloc: Global, m: Egress) -> Result<(String, String), Fail>
    requires { HasEgressSpelling m }
{
    let bytes = encode_egress(alloc, &m).ok().ok_or("bytes")?;
    Ok((
        hex(alloc, bytes.as_slice())?,
        egress_text(alloc, bytes.as_slice())?,
    ))
}

#[test]
fn egress_goes_both_ways(rt: HostRuntime) -> Result<(), Fail> {
    let alloc = rt.alloc();
    let opened =
        "200002006f000000010000000000000001000000000000000000000000000000000000000000000000000000";
    let led =
        "200002006f000000ffffffffffffffff01000000000000000000000000000000000000000200000000000000";
    let closed =
        "200002006f000000010000000000000001000000000000000000000000000000000000000400000000000000";
    let (bytes, again) = both_ways(alloc, event(1, 0))?;
    assert_eq!(rt;
        (bytes.as_str(), again.as_str()),
        (opened, "event 1 1 0 0 0")
    );
    let (bytes, again) = both_ways(alloc, event(-1, 2))?;
    assert_eq!(rt; (bytes.as_str(), again.as_str()), (led, "event -1 1 0 0 2"));
    let (bytes, again) = both_ways(alloc, event(1, 4))?;
    assert_eq!(rt;
        (bytes.as_str(), again.as_str()),
        (closed, "event 1 1 0 0 4")
    );
    let payload = Bytes::of(alloc, b"hi").ok().ok_or("bytes")?;
    let echo = Egress::Message {
        term: 0,
        session: 1,
        stamp: 410,
        payload,
    };
    let echoed = "180001006f000000000000000000000001000000000000009a010000000000006869";
    let (bytes, again) = both_ways(alloc, echo)?;
    assert_eq!(rt;
        (bytes.as_str(), again.as_str()),
        (echoed, "message 0 1 410 6869")
    );
    let leads = Egress::NewLeader {
        term: 1,
        session: 1,
        leader: 1,
    };
    let new_leader = "140006006f000000010000000000000001000000000000000100000000000000";
    let (bytes, again) = both_ways(alloc, leads)?;
    assert_eq!(rt;
        (bytes.as_str(), again.as_str()),
        (new_leader, "leader 1 1 1")
    );
    let sixth =
        "200002006f000000010000000000000001000000000000000000000000000000000000000500000000000000";
    let text = egress_text(alloc, &bytes_of(alloc, sixth)?)?;
    assert_eq!(rt; text.as_str(), "bad 36 Value");
    Ok(())
}

#[test]
fn ingress_is_written(rt: HostRuntime) -> Result<(), Fail> {
    let alloc = rt.alloc();
    let channel = Bytes::of(alloc, b"aeron:ipc").ok().ok_or("bytes")?;
    let payload = Bytes::of(alloc, b"x").ok().ok_or("bytes")?;
    for (m, want) in [
        (
            Ingress::Connect {
                corr: 1,
                stream: 0,
                channel,
            },
            "100003006f00000001000000000000000000000000000000090000006165726f6e3a69706300000000",
        ),
        (
            Ingress::Message {
                term: 7,
                session: 1,
                payload,
            },
            "180001006f00000007000000000000000100000000000000000000000000000078",
        ),
        (
            Ingress::Close {
                term: 2,
                session: 3,
            },
            "100004006f00000002000000000000000300000000000000",
        ),
        (
            Ingress::KeepAlive {
                term: -1,
                session: 4,
            },
            "100005006f000000ffffffffffffffff0400000000000000",
        ),
    ] {
        let bytes = encode_ingress(alloc, &m).ok().ok_or("bytes")?;
        assert_eq!(rt; hex(alloc, bytes.as_slice())?.as_str(), want);
    }
    Ok(())
}
