// What is decided, row by row of the table of outcomes.
use crate::{Decided, Outcome, View, decide, decide_action};
use cl_base::{Bytes, NoMemory};
use sbe_client::{Ingress, encode_ingress};
use sbe_events::Event;
use session_manager::Sessions;
use std::alloc::Global;
use std::process::Abort;
use std::test::Fail;
use wire_prims::{Bad, BadCause};

// So many sessions are open.
fn sessions(alloc: Global, count: i64) -> Result<Sessions, NoMemory> {
    let mut sessions = Sessions::new(alloc);
    for id in 1..=count {
        sessions.apply(&Event::Opened {
            term: 0,
            corr: id,
            session: id,
            stamp: 400,
            stream: 0,
            channel: Bytes::of(alloc, b"")?,
        })?;
    }
    Ok(sessions)
}

// What a leader of term 0 decides at these places.
fn leads(
    rt: &impl Abort,
    alloc: Global,
    sessions: &Sessions,
    place: u64,
    commit_place: u64,
    bytes: &[u8],
) -> Result<Decided, NoMemory> {
    assert!(rt; commit_place <= place && place <= 16_777_216);
    let view = View {
        ready: true,
        leader: 0,
        term: 0,
        place,
        commit_place,
        sessions,
    };
    decide(alloc, &view, bytes, 410)
}

fn refuses(decided: &Decided, want: Outcome) -> bool {
    match decided {
        Decided::Refuse(outcome) => *outcome == want,
        _ => false,
    }
}

// A message of session 1 in term 0 of so many bytes.
fn letters(alloc: Global, count: usize) -> Result<Bytes, Fail> {
    let text = vec![in alloc; 97u8; count]?;
    let payload = Bytes::from_vec(text);
    let message = Ingress::Message {
        term: 0,
        session: 1,
        payload,
    };
    Ok(encode_ingress(alloc, &message)?)
}

#[test]
fn sizes_places_and_the_window(rt: HostRuntime) -> Result<(), Fail> {
    let a = rt.alloc();
    let one = sessions(a, 1)?;
    for (count, place, commit, want) in [
        (16_385, 192, 192, Outcome::TooLarge { bytes: 16_385 }),
        (16_384, 16_992, 192, Outcome::BackPressure { bytes: 33_600 }),
        (960, 32_960, 192, Outcome::BackPressure { bytes: 33_792 }),
        (
            2,
            16_777_152,
            16_777_152,
            Outcome::LogFull { place: 16_777_312 },
        ),
    ] {
        let bytes = letters(a, count)?;
        assert!(rt; refuses(&leads(&rt, a, &one, place, commit, bytes.as_slice())?, want));
    }
    for (count, place) in [(16_384, 192), (960, 31_936)] {
        let bytes = letters(a, count)?;
        let decided = leads(&rt, a, &one, place, 192, bytes.as_slice())?;
        assert!(rt;
            matches!(
                &decided,
                Decided::Append(Event::Message {
                    session: 1,
                    stamp: 410,
                    ..
                })
            )
        );
    }
    Ok(())
}

#[test]
fn names_and_sessions(rt: HostRuntime) -> Result<(), Fail> {
    let a = rt.alloc();
    let one = sessions(a, 1)?;
    let close = |term, session| Ingress::Close { term, session };
    let cases = [
        (close(7, 2), Outcome::WrongTerm { term: 7 }),
        (close(0, 2), Outcome::NoSession { session: 2 }),
        (
            Ingress::KeepAlive {
                term: -1,
                session: -1,
            },
            Outcome::WrongTerm { term: -1 },
        ),
    ];
    for (message, want) in &cases {
        let bytes = encode_ingress(a, message)?;
        assert!(rt; refuses(&leads(&rt, a, &one, 192, 192, bytes.as_slice())?, *want));
    }
    let bytes = encode_ingress(a, &close(0, 1))?;
    let decided = leads(&rt, a, &one, 192, 192, bytes.as_slice())?;
    assert!(rt;
        matches!(
            &decided,
            Decided::Append(Event::Closed {
                session: 1,
                reason: 0,
                ..
            })
        )
    );
    let alive = Ingress::KeepAlive {
        term: 0,
        session: 1,
    };
    let bytes = encode_ingress(a, &alive)?;
    assert!(rt;
        matches!(
            leads(&rt, a, &one, 192, 192, bytes.as_slice())?,
            Decided::Alive(1)
        )
    );
    Ok(())
}

#[test]
fn bytes_that_are_no_message(rt: HostRuntime) -> Result<(), Fail> {
    let a = rt.alloc();
    let none = sessions(a, 0)?;
    let short: [u8; 7] = [24, 0, 1, 0, 111, 0, 0];
    let template: [u8; 8] = [24, 0, 7, 0, 111, 0, 0, 0];
    let schema: [u8; 8] = [24, 0, 1, 0, 112, 0, 0, 0];
    let block: [u8; 8] = [23, 0, 1, 0, 111, 0, 0, 0];
    let header: [u8; 8] = [24, 0, 1, 0, 111, 0, 0, 0];
    for (bytes, place, cause) in [
        (&short[..], 7, BadCause::Short),
        (&template[..], 2, BadCause::Template),
        (&schema[..], 4, BadCause::Schema),
        (&block[..], 0, BadCause::Block),
        (&header[..], 8, BadCause::Short),
    ] {
        let want = Outcome::Bad(Bad { place, cause });
        assert!(rt; refuses(&leads(&rt, a, &none, 96, 96, bytes)?, want));
    }
    Ok(())
}

#[test]
fn connects_and_actions(rt: HostRuntime) -> Result<(), Fail> {
    let a = rt.alloc();
    let full = sessions(a, 1_024)?;
    for (channel, want) in [
        (1_025, Outcome::TooLarge { bytes: 1_025 }),
        (1_024, Outcome::SessionLimit),
    ] {
        let text = vec![in a; 97u8; channel]?;
        assert!(rt; channel <= 1_025);
        let connect = Ingress::Connect {
            corr: 1,
            stream: 0,
            channel: Bytes::from_vec(text),
        };
        let bytes = encode_ingress(a, &connect)?;
        assert!(rt; refuses(&leads(&rt, a, &full, 192, 192, bytes.as_slice())?, want));
    }
    let follower = View {
        ready: false,
        leader: 0,
        term: 0,
        place: 96,
        commit_place: 96,
        sessions: &full,
    };
    let leader = View {
        ready: true,
        leader: 1,
        term: 0,
        place: 96,
        commit_place: 96,
        sessions: &full,
    };
    let behind = Outcome::NotLeader { leader: 0 };
    assert!(rt; refuses(&decide_action(&follower, 256, 420), behind));
    assert!(rt; refuses(&decide_action(&leader, 256, 420), Outcome::ActionLimit));
    let decided = decide_action(&leader, 255, 420);
    assert!(rt;
        matches!(
            &decided,
            Decided::Append(Event::Snapshot {
                position: 96,
                stamp: 420,
                ..
            })
        )
    );
    Ok(())
}
