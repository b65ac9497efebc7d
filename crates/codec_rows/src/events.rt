use cl_base::{Bytes, NoMemory};
use sbe_events::*;
use std::test::*;
use wire_prims::{Bad, BadCause, DecodeFault};

const TERM: [u8; 48] = [
    40, 0, 24, 0, 111, 0, 0, 0, 1, 0, 0, 0, 0, 0, 0, 0, 96, 0, 0, 0, 0, 0, 0, 0, 84, 1, 0, 0, 0, 0,
    0, 0, 96, 0, 0, 0, 0, 0, 0, 0, 4, 0, 0, 0, 1, 0, 0, 0,
];

const OPENED: [u8; 50] = [
    36, 0, 21, 0, 111, 0, 0, 0, 2, 0, 0, 0, 0, 0, 0, 0, 255, 255, 255, 255, 255, 255, 255, 255, 3,
    0, 0, 0, 0, 0, 0, 0, 4, 0, 0, 0, 0, 0, 0, 0, 254, 255, 255, 255, 2, 0, 0, 0, 97, 98,
];

const MESSAGE: [u8; 34] = [
    24, 0, 1, 0, 111, 0, 0, 0, 1, 0, 0, 0, 0, 0, 0, 0, 2, 0, 0, 0, 0, 0, 0, 0, 3, 0, 0, 0, 0, 0, 0,
    0, 104, 105,
];

/// Message 5 of service 2: the session is -1 - (2 * 2^48 + 5).
const SERVICE: [u8; 33] = [
    24, 0, 1, 0, 111, 0, 0, 0, 1, 0, 0, 0, 0, 0, 0, 0, 250, 255, 255, 255, 255, 255, 253, 255, 3,
    0, 0, 0, 0, 0, 0, 0, 120,
];

const TIMER: [u8; 32] = [
    24, 0, 20, 0, 111, 0, 0, 0, 1, 0, 0, 0, 0, 0, 0, 0, 248, 255, 255, 255, 255, 255, 255, 255, 9,
    0, 0, 0, 0, 0, 0, 0,
];

const CLOSED: [u8; 36] = [
    28, 0, 22, 0, 111, 0, 0, 0, 1, 0, 0, 0, 0, 0, 0, 0, 7, 0, 0, 0, 0, 0, 0, 0, 8, 0, 0, 0, 0, 0,
    0, 0, 2, 0, 0, 0,
];

const SNAPSHOT: [u8; 36] = [
    28, 0, 23, 0, 111, 0, 0, 0, 1, 0, 0, 0, 0, 0, 0, 0, 32, 0, 0, 0, 0, 0, 0, 0, 8, 0, 0, 0, 0, 0,
    0, 0, 2, 0, 0, 0,
];

fn faults_at(bytes: &[u8], place: u64, cause: BadCause) -> bool {
    event_fault(bytes) == Some(Bad { place, cause })
}

#[test]
fn each_event_has_its_one_spelling(rt: HostRuntime) -> Result<(), NoMemory> {
    let a = rt.alloc();
    let payload = Bytes::of(a, b"hi")?;
    let events = [
        (
            encode_event(
                a,
                &Event::Term {
                    term: 1,
                    position: 96,
                    stamp: 340,
                    base: 96,
                    leader: 4,
                },
            )?,
            TERM.as_slice(),
        ),
        (
            encode_event(
                a,
                &Event::Message {
                    term: 1,
                    session: 2,
                    stamp: 3,
                    payload,
                },
            )?,
            MESSAGE.as_slice(),
        ),
        (
            encode_event(
                a,
                &Event::Timer {
                    term: 1,
                    corr: -8,
                    stamp: 9,
                },
            )?,
            TIMER.as_slice(),
        ),
        (
            encode_event(
                a,
                &Event::Closed {
                    term: 1,
                    session: 7,
                    stamp: 8,
                    reason: 2,
                },
            )?,
            CLOSED.as_slice(),
        ),
        (
            encode_event(
                a,
                &Event::Snapshot {
                    term: 1,
                    position: 32,
                    stamp: 8,
                },
            )?,
            SNAPSHOT.as_slice(),
        ),
    ];
    for (bytes, wanted) in &events {
        assert!(rt; bytes.as_slice() == *wanted);
    }
    let channel = Bytes::of(a, b"ab")?;
    let opened = Event::Opened {
        term: 2,
        corr: -1,
        session: 3,
        stamp: 4,
        stream: -2,
        channel,
    };
    assert!(rt; encode_event(a, &opened)?.as_slice() == OPENED.as_slice());
    let payload = Bytes::of(a, b"x")?;
    let service = Event::ServiceMessage {
        term: 1,
        service: 2,
        number: 5,
        stamp: 3,
        payload,
    };
    assert!(rt; encode_event(a, &service)?.as_slice() == SERVICE.as_slice());
    Ok(())
}

#[test]
fn each_spelling_is_read_as_its_event(rt: HostRuntime) {
    let a = rt.alloc();
    assert!(rt;
        matches!(
            decode_event(a, &TERM),
            Ok(Event::Term {
                term: 1,
                position: 96,
                stamp: 340,
                base: 96,
                leader: 4
            })
        )
    );
    assert!(rt;
        matches!(
            decode_event(a, &TIMER),
            Ok(Event::Timer {
                term: 1,
                corr: -8,
                stamp: 9
            })
        )
    );
    assert!(rt;
        matches!(
            decode_event(a, &CLOSED),
            Ok(Event::Closed {
                term: 1,
                session: 7,
                stamp: 8,
                reason: 2
            })
        )
    );
    assert!(rt;
        matches!(
            decode_event(a, &SNAPSHOT),
            Ok(Event::Snapshot {
                term: 1,
                position: 32,
                stamp: 8
            })
        )
    );
    match decode_event(a, &OPENED) {
        Ok(
            Event::Opened {
                term: 2,
                corr: -1,
                session: 3,
                stamp: 4,
                stream: -2,
                channel,
            },
        ) => {
            assert!(rt; channel.as_slice() == b"ab".as_slice());
        }
        _ => assert!(rt; false),
    }
    match decode_event(a, &MESSAGE) {
        Ok(
            Event::Message {
                term: 1,
                session: 2,
                stamp: 3,
                payload,
            },
        ) => {
            assert!(rt; payload.as_slice() == b"hi".as_slice());
        }
        _ => assert!(rt; false),
    }
    match decode_event(a, &SERVICE) {
        Ok(
            Event::ServiceMessage {
                term: 1,
                service: 2,
                number: 5,
                stamp: 3,
                payload,
            },
        ) => {
            assert!(rt; payload.as_slice() == b"x".as_slice());
        }
        _ => assert!(rt; false),
    }
    assert_eq!(rt; term_of(&TERM), 1);
}

#[test]
fn a_prefix_is_short_and_a_byte_too_many_trails(rt: HostRuntime) {
    for bytes in [
        TERM.as_slice(),
        OPENED.as_slice(),
        TIMER.as_slice(),
        CLOSED.as_slice(),
        SNAPSHOT.as_slice(),
    ] {
        for len in 0..bytes.len() {
            assert!(rt; faults_at(&bytes[..len], len as u64, BadCause::Short));
        }
        let mut longer = [0u8; 60];
        if bytes.len() < 60 {
            longer[..bytes.len()].copy_from_slice(bytes);
            assert!(rt;
                faults_at(
                    &longer[..bytes.len() + 1],
                    bytes.len() as u64,
                    BadCause::Trailing
                )
            );
        }
    }
}

fn changed<const N: usize>(bytes: &[u8; N], place: usize, value: u8) -> [u8; N] {
    let mut other = *bytes;
    if place < other.len() {
        other[place] = value;
    }
    other
}

#[test]
fn a_number_out_of_range_is_named_by_its_place(rt: HostRuntime) {
    assert!(rt; faults_at(&changed(&TERM, 0, 41), 0, BadCause::Block));
    assert!(rt; faults_at(&changed(&TERM, 2, 25), 2, BadCause::Template));
    assert!(rt; faults_at(&changed(&TERM, 4, 110), 4, BadCause::Schema));
    for (place, value, wrong) in [
        (6, 1, 6u64),
        (15, 0x80, 8),
        (23, 0x80, 16),
        (31, 0x80, 24),
        (32, 97, 32),
        (40, 5, 40),
        (44, 2, 44),
    ] {
        assert!(rt; faults_at(&changed(&TERM, place, value), wrong, BadCause::Value));
    }
    for (place, value, wrong) in [(15, 0x41, 8u64), (24, 0, 24), (39, 0x80, 32)] {
        assert!(rt; faults_at(&changed(&OPENED, place, value), wrong, BadCause::Value));
    }
    for (place, value, wrong) in [(15, 0x80, 8u64), (16, 0, 16), (31, 0x80, 24)] {
        assert!(rt; faults_at(&changed(&MESSAGE, place, value), wrong, BadCause::Value));
    }
    for (place, value, wrong) in [(22, 252u8, 16u64), (16, 255, 16)] {
        assert!(rt; faults_at(&changed(&SERVICE, place, value), wrong, BadCause::Value));
    }
    for (place, value, wrong) in [(16, 0, 16u64), (32, 3, 32), (35, 0x80, 32)] {
        assert!(rt; faults_at(&changed(&CLOSED, place, value), wrong, BadCause::Value));
    }
    assert!(rt; faults_at(&changed(&SNAPSHOT, 32, 1), 32, BadCause::Value));
    assert!(rt;
        matches!(
            decode_event(rt.alloc(), &[]),
            Err(DecodeFault::Bad(Bad {
                place: 0,
                cause: BadCause::Short
            }))
        )
    );
}
