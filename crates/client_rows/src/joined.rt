// A joined client's turns.
use cl_base::{Bytes, List, NoMemory};
use cluster_client::OfferFault;
use egress::Sent;
use joined_clients::Joined;
use std::alloc::Global;
use std::test::Fail;

/// An OK to connect 1: session 1 in term 0, which member 0 leads.
const OPENS: [u8; 44] = [
    32, 0, 2, 0, 111, 0, 0, 0, 1, 0, 0, 0, 0, 0, 0, 0, 1, 0, 0, 0, 0, 0, 0, 0, 0, 0, 0, 0, 0, 0, 0,
    0, 0, 0, 0, 0, 0, 0, 0, 0, 0, 0, 0, 0,
];

/// The message `a` of session 1 in term 0.
const SAYS_A: [u8; 33] = [
    24, 0, 1, 0, 111, 0, 0, 0, 0, 0, 0, 0, 0, 0, 0, 0, 1, 0, 0, 0, 0, 0, 0, 0, 30, 0, 0, 0, 0, 0,
    0, 0, 97,
];

/// The message `b` of session 1 in term 0.
const SAYS_B: [u8; 33] = [
    24, 0, 1, 0, 111, 0, 0, 0, 0, 0, 0, 0, 0, 0, 0, 0, 1, 0, 0, 0, 0, 0, 0, 0, 30, 0, 0, 0, 0, 0,
    0, 0, 98,
];

/// A record on stream 7.
fn record(alloc: Global, bytes: &[u8]) -> Result<Sent, NoMemory> {
    Ok(Sent {
        stream: 7,
        entry: None,
        service: None,
        number: 0,
        bytes: Bytes::of(alloc, bytes)?,
    })
}

/// The records that come before a turn, the time of the turn (ms), and the member that is then sent to.
const TURNS: [(&[&[u8]], u64, Option<u8>); 4] = [
    // It asks member 0 for a session.
    (&[], 10, Some(0)),
    // The session is open, and it has nothing to say until it was silent for 1,000 ms.
    (&[&OPENS, &SAYS_A], 20, None),
    (&[&SAYS_B], 30, None),
    (&[], 1_010, Some(0)),
];

#[test]
fn each_record_is_given_once(rt: HostRuntime) -> Result<(), Fail> {
    let alloc = rt.alloc();
    let mut stream = List::new(alloc);
    let mut joined = Joined::new(alloc, 7, 3);
    let offered = joined.offer(alloc, b"hi", 0).err();
    assert_eq!(rt; offered, Some(OfferFault::NotOpen));
    for (records, now, member) in TURNS {
        for bytes in records {
            stream.push(record(alloc, *bytes)?)?;
        }
        let sent = joined.turn(alloc, stream.as_slice(), now)?;
        assert_eq!(rt; sent.map(|to| to.member), member, "at {now}");
    }
    let handed = joined.handed();
    assert_eq!(rt; handed.len(), 2);
    assert_eq!(rt; handed[0].payload.as_slice(), b"a".as_slice());
    assert_eq!(rt; handed[1].payload.as_slice(), b"b".as_slice());
    Ok(())
}
