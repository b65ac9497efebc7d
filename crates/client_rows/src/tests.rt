use cl_base::Bytes;
use cluster_client::*;
use std::alloc::{AllocError, Global};
use std::test::*;
use wire_prims::{Bad, DecodeFault};

const LETTERS: &[u8; 16] = b"0123456789abcdef";

/// The digits of bytes, two for each.
fn hex(alloc: Global, bytes: &[u8]) -> Result<String, AllocError> {
    let mut text = String::new(alloc);
    for b in bytes {
        text.push(LETTERS[(*b >> 4) as usize] as char)?;
        text.push(LETTERS[(*b & 15) as usize] as char)?;
    }
    Ok(text)
}

fn digit(b: u8) -> u8 {
    match b {
        b'0'..=b'9' => b - b'0',
        b'a'..=b'f' => b - b'a' + 10,
        _ => 0,
    }
}

/// The bytes of digits.
fn bytes_of(alloc: Global, text: &str) -> Result<Vec<u8>, AllocError> {
    let mut bytes = Vec::new(alloc);
    for pair in text.as_bytes().chunks_exact(2) {
        if let [high, low] = pair {
            bytes.push(digit(*high) << 4 | digit(*low))?;
        }
    }
    Ok(bytes)
}

fn sent_text(alloc: Global, sent: &ToMember) -> Result<String, AllocError> {
    let digits = hex(alloc, sent.bytes.as_slice())?;
    format!(in alloc; "to {} {digits}", sent.member)
}

fn state_text(alloc: Global, state: State) -> Result<String, AllocError> {
    match state {
        State::Unconnected => String::from_str(alloc, "unconnected"),
        State::Connecting => String::from_str(alloc, "connecting"),
        State::Open {
            session,
            term,
            leader,
        } => format!(in alloc; "open {session} {term} {leader}"),
        State::Closed => String::from_str(alloc, "closed"),
    }
}

/// What a step sends.
fn step(alloc: Global, client: &mut Client, now: u64) -> Result<String, AllocError> {
    match client.step(alloc, now) {
        Ok(Some(sent)) => sent_text(alloc, &sent),
        Ok(None) => String::from_str(alloc, "nothing"),
        Err(_) => String::from_str(alloc, "no memory"),
    }
}

/// What is handed of a record, or what is wrong with it, or else how far the client is then.
fn hear(alloc: Global, client: &mut Client, record: &str) -> Result<String, AllocError> {
    let bytes = bytes_of(alloc, record)?;
    match client.on_egress(alloc, &bytes, 0) {
        Ok(Took::Handed { term, payload }) => {
            let digits = hex(alloc, payload.as_slice())?;
            format!(in alloc; "got {term} {digits}")
        }
        Ok(Took::Ignored) => state_text(alloc, client.state()),
        Err(DecodeFault::Bad(Bad { place, cause })) => format!(in alloc; "bad {place} {cause:?}"),
        Err(DecodeFault::NoMemory) => String::from_str(alloc, "no memory"),
    }
}

/// What an offer sends.
fn offer(
    alloc: Global,
    client: &mut Client,
    payload: &[u8],
    now: u64,
) -> Result<String, AllocError> {
    match client.offer(alloc, payload, now) {
        Ok(sent) => sent_text(alloc, &sent),
        Err(OfferFault::NotOpen) => String::from_str(alloc, "not open"),
        Err(OfferFault::TooLarge { len }) => format!(in alloc; "too large {len}"),
        Err(OfferFault::NoMemory) => String::from_str(alloc, "no memory"),
    }
}

/// An OK to connect 1: session 1 in term 5, which member 2 leads.
const OPENS: &str =
    "200002006f000000010000000000000001000000000000000500000000000000020000000000000000000000";

/// The close of session 1.
const CLOSES: &str =
    "200002006f000000010000000000000001000000000000000500000000000000020000000400000000000000";

/// A record of each kind, and what it makes of a client that is unconnected, connecting, open and closed.
const RECORDS: [(&str, [&str; 4]); 18] = [
    // OK
    (
        "200002006f000000010000000000000001000000000000000500000000000000020000000000000000000000",
        ["unconnected", "open 1 5 2", "open 1 5 2", "closed"],
    ),
    // OK of another connect
    (
        "200002006f000000010000000000000002000000000000000500000000000000020000000000000000000000",
        ["unconnected", "connecting", "open 1 5 2", "closed"],
    ),
    // OK, leader outside
    (
        "200002006f000000010000000000000001000000000000000500000000000000030000000000000000000000",
        ["unconnected", "open 1 5 0", "open 1 5 2", "closed"],
    ),
    // ERROR
    (
        "200002006f000000ffffffffffffffff01000000000000000500000000000000020000000100000000000000",
        ["unconnected", "connecting", "open 1 5 2", "closed"],
    ),
    // REDIRECT
    (
        "200002006f000000ffffffffffffffff01000000000000000500000000000000020000000200000000000000",
        ["unconnected", "unconnected", "open 1 5 2", "closed"],
    ),
    // AUTHENTICATION_REJECTED
    (
        "200002006f000000ffffffffffffffff01000000000000000500000000000000020000000300000000000000",
        ["unconnected", "connecting", "open 1 5 2", "closed"],
    ),
    // CLOSED
    (
        "200002006f000000010000000000000001000000000000000500000000000000020000000400000000000000",
        ["unconnected", "connecting", "closed", "closed"],
    ),
    // CLOSED of another
    (
        "200002006f000000020000000000000001000000000000000500000000000000020000000400000000000000",
        ["unconnected", "connecting", "open 1 5 2", "closed"],
    ),
    // NewLeader greater
    (
        "140006006f000000060000000000000001000000000000000000000000000000",
        ["unconnected", "connecting", "open 1 6 0", "closed"],
    ),
    // NewLeader not greater
    (
        "140006006f000000050000000000000001000000000000000000000000000000",
        ["unconnected", "connecting", "open 1 5 2", "closed"],
    ),
    // NewLeader of another
    (
        "140006006f000000060000000000000002000000000000000000000000000000",
        ["unconnected", "connecting", "open 1 5 2", "closed"],
    ),
    // NewLeader, leader outside
    (
        "140006006f00000006000000000000000100000000000000ffffffff00000000",
        ["unconnected", "connecting", "open 1 6 0", "closed"],
    ),
    // Message
    (
        "180001006f000000050000000000000001000000000000009a010000000000006869",
        ["unconnected", "connecting", "got 5 6869", "closed"],
    ),
    // Message older
    (
        "180001006f000000040000000000000001000000000000009a010000000000006869",
        ["unconnected", "connecting", "open 1 5 2", "closed"],
    ),
    // Message newer
    (
        "180001006f000000060000000000000001000000000000009a010000000000006869",
        ["unconnected", "connecting", "open 1 5 2", "closed"],
    ),
    // Message of another
    (
        "180001006f000000050000000000000002000000000000009a010000000000006869",
        ["unconnected", "connecting", "open 1 5 2", "closed"],
    ),
    // short
    (
        "180001006f0000",
        ["bad 7 Short", "bad 7 Short", "bad 7 Short", "bad 7 Short"],
    ),
    // schema
    (
        "1800010070000000",
        [
            "bad 4 Schema",
            "bad 4 Schema",
            "bad 4 Schema",
            "bad 4 Schema",
        ],
    ),
];

/// A client of three members that is so far: 0 unconnected, 1 connecting, 2 open, 3 closed.
fn client_so_far(alloc: Global, stage: usize) -> Result<Client, AllocError> {
    let mut client = Client::new(0, 3);
    if stage >= 1 {
        step(alloc, &mut client, 10)?;
    }
    if stage >= 2 {
        hear(alloc, &mut client, OPENS)?;
    }
    if stage >= 3 {
        hear(alloc, &mut client, CLOSES)?;
    }
    Ok(client)
}

#[test]
fn each_record_in_each_state(rt: HostRuntime) -> Result<(), Fail> {
    let alloc = rt.alloc();
    for (record, wanted) in RECORDS {
        for (stage, want) in wanted.iter().enumerate() {
            let mut client = client_so_far(alloc, stage)?;
            let found = hear(alloc, &mut client, record)?;
            assert_eq!(rt; found.as_str(), *want, "{record} at {stage}");
        }
    }
    Ok(())
}

#[test]
fn one_exchange(rt: HostRuntime) -> Result<(), Fail> {
    let alloc = rt.alloc();
    let mut client = Client::new(7, 3);
    // It asks member 0, is led to member 2, and asks there; that one is silent for 1,000 ms, so it asks member 0 again.
    let found = step(alloc, &mut client, 10)?;
    assert_eq!(rt;
        found.as_str(),
        "to 0 100003006f000000010000000000000007000000000000000000000000000000"
    );
    let found = hear(
        alloc,
        &mut client,
        "200002006f000000ffffffffffffffff01000000000000000000000000000000020000000200000000000000",
    )?;
    assert_eq!(rt; found.as_str(), "unconnected");
    let found = step(alloc, &mut client, 20)?;
    assert_eq!(rt;
        found.as_str(),
        "to 2 100003006f000000020000000000000007000000000000000000000000000000"
    );
    let found = step(alloc, &mut client, 1_019)?;
    assert_eq!(rt; found.as_str(), "nothing");
    let found = step(alloc, &mut client, 1_020)?;
    assert_eq!(rt;
        found.as_str(),
        "to 0 100003006f000000030000000000000007000000000000000000000000000000"
    );
    // That one leads: the session opens, a payload goes there, and comes back.
    let found = hear(
        alloc,
        &mut client,
        "200002006f000000010000000000000003000000000000000000000000000000000000000000000000000000",
    )?;
    assert_eq!(rt; found.as_str(), "open 1 0 0");
    let found = offer(alloc, &mut client, b"hi", 1_030)?;
    assert_eq!(rt;
        found.as_str(),
        "to 0 180001006f0000000000000000000000010000000000000000000000000000006869"
    );
    let found = hear(
        alloc,
        &mut client,
        "180001006f0000000000000000000000010000000000000010040000000000006869",
    )?;
    assert_eq!(rt; found.as_str(), "got 0 6869");
    Ok(())
}

#[test]
fn a_session_goes_on(rt: HostRuntime) -> Result<(), Fail> {
    let alloc = rt.alloc();
    let mut client = client_so_far(alloc, 2)?;
    // A new leader; what the old one sent comes too late.
    let found = hear(
        alloc,
        &mut client,
        "140006006f000000060000000000000001000000000000000100000000000000",
    )?;
    assert_eq!(rt; found.as_str(), "open 1 6 1");
    let found = hear(
        alloc,
        &mut client,
        "180001006f000000050000000000000001000000000000009a010000000000006869",
    )?;
    assert_eq!(rt; found.as_str(), "open 1 6 1");
    // Nothing was sent since the connect at 10 ms.
    let found = step(alloc, &mut client, 1_009)?;
    assert_eq!(rt; found.as_str(), "nothing");
    let found = step(alloc, &mut client, 1_010)?;
    assert_eq!(rt;
        found.as_str(),
        "to 1 100005006f00000006000000000000000100000000000000"
    );
    let found = offer(alloc, &mut client, &[0; 16_385], 1_020)?;
    assert_eq!(rt; found.as_str(), "too large 16385");
    let found = hear(alloc, &mut client, CLOSES)?;
    assert_eq!(rt; found.as_str(), "closed");
    let found = step(alloc, &mut client, 9_000)?;
    assert_eq!(rt; found.as_str(), "nothing");
    let found = offer(alloc, &mut client, b"hi", 9_000)?;
    assert_eq!(rt; found.as_str(), "not open");
    Ok(())
}

#[test]
fn a_client_that_joins_before_there_is_a_leader(rt: HostRuntime) -> Result<(), Fail> {
    let alloc = rt.alloc();
    let mut client = Client::new(0, 3);
    // No member leads yet: each of 36 connects is led on to the member behind.
    for corr in 1..37u8 {
        step(alloc, &mut client, corr as u64 * 10)?;
        let number = hex(alloc, &[corr])?;
        let led = format!(in alloc;
            "200002006f000000ffffffffffffffff{number}00000000000000ffffffffffffffffffffffff0200000000000000"
        )?;
        hear(alloc, &mut client, led.as_str())?;
    }
    // Member 0 leads. The session opens, and a payload comes back.
    let found = step(alloc, &mut client, 370)?;
    assert_eq!(rt;
        found.as_str(),
        "to 0 100003006f000000250000000000000000000000000000000000000000000000"
    );
    hear(
        alloc,
        &mut client,
        "200002006f000000010000000000000025000000000000000000000000000000000000000000000000000000",
    )?;
    let found = offer(alloc, &mut client, b"hi", 700)?;
    assert_eq!(rt;
        found.as_str(),
        "to 0 180001006f0000000000000000000000010000000000000000000000000000006869"
    );
    let found = hear(
        alloc,
        &mut client,
        "180001006f00000000000000000000000100000000000000bc020000000000006869",
    )?;
    assert_eq!(rt; found.as_str(), "got 0 6869");
    // Member 0 stops, and member 1 leads the next term.
    hear(
        alloc,
        &mut client,
        "140006006f000000010000000000000001000000000000000100000000000000",
    )?;
    let found = offer(alloc, &mut client, b"again", 3_740)?;
    assert_eq!(rt;
        found.as_str(),
        "to 1 180001006f000000010000000000000001000000000000000000000000000000616761696e"
    );
    let found = hear(
        alloc,
        &mut client,
        "180001006f000000010000000000000001000000000000009c0e000000000000616761696e",
    )?;
    assert_eq!(rt; found.as_str(), "got 1 616761696e");
    Ok(())
}

#[test]
fn a_run_hands_out(rt: HostRuntime) -> Result<(), Fail> {
    let alloc = rt.alloc();
    let mut calls = Vec::new(alloc);
    calls.push(Call::Step { now: 10 })?;
    for record in [
        OPENS,
        "180001006f00000004000000000000000100000000000000000000000000000061",
        "180001006f00000005000000000000000100000000000000000000000000000062",
        CLOSES,
        "180001006f00000005000000000000000100000000000000000000000000000063",
    ] {
        let bytes = Bytes::from_vec(bytes_of(alloc, record)?);
        calls.push(Call::Egress { bytes, now: 20 })?;
    }
    let got = run_calls(alloc, 0, 3, &calls).ok().ok_or("calls")?;
    assert_eq!(rt; got.len(), 1);
    assert_eq!(rt; got.as_slice()[0].term, 5);
    Ok(())
}
