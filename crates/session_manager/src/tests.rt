use super::*;
use cl_base::{Bytes, NoMemory};
use sbe_events::Event;
use std::alloc::Global;
use std::test::*;

fn opened(a: Global, session: i64) -> Result<Event, NoMemory> {
    Ok(Event::Opened {
        term: 0,
        corr: 70,
        session,
        stamp: 400,
        stream: 3,
        channel: Bytes::of(a, b"c")?,
    })
}

// A table to which an open of each of these ids came.
fn after_opens(a: Global, ids: &[i64]) -> Result<Sessions, NoMemory> {
    let mut sessions = Sessions::new(a);
    for id in ids.iter() {
        sessions.apply(&opened(a, *id)?)?;
    }
    Ok(sessions)
}

/// Only the next id opens.
#[test]
fn only_the_next_id_opens(rt: HostRuntime) -> Result<(), NoMemory> {
    let a = rt.alloc();
    let cases: [(&[i64], u64, i64); 4] = [
        (&[2], 0, 1),
        (&[1, 2], 2, 3),
        (&[1, 1, 3, 2], 2, 3),
        (&[1, 2, 3], 3, 4),
    ];
    for case in cases.iter() {
        let sessions = after_opens(a, case.0)?;
        assert!(rt; sessions.open_count() == case.1 && sessions.next_id() == case.2);
        let copy = sessions.copy()?;
        assert!(rt; copy.open_count() == case.1 && copy.next_id() == case.2);
    }
    Ok(())
}

/// A message keeps its session alive for 10,000 ms more.
#[test]
fn a_message_keeps_its_session_alive(rt: HostRuntime) -> Result<(), NoMemory> {
    let a = rt.alloc();
    let mut sessions = after_opens(a, &[1, 2])?;
    let message = Event::Message {
        term: 0,
        session: 2,
        stamp: 900,
        payload: Bytes::of(a, b"")?,
    };
    sessions.apply(&message)?;
    let cases: [(u64, u64, &[i64]); 5] = [
        (10_399, 0, &[]),
        (10_400, 0, &[1]),
        (10_400, 401, &[]),
        (10_899, 0, &[1]),
        (10_900, 900, &[1, 2]),
    ];
    for case in cases.iter() {
        if case.0 < 20_000 {
            assert!(rt; sessions.due(case.0, case.1)?.as_slice() == case.2);
        }
    }
    Ok(())
}

/// A mark stays with its session, and a close leaves the id unused.
#[test]
fn a_closed_session_is_gone(rt: HostRuntime) -> Result<(), NoMemory> {
    let a = rt.alloc();
    let mut sessions = after_opens(a, &[1, 2])?;
    assert!(rt; sessions.mark(2) && !sessions.mark(3));
    let closed = Event::Closed {
        term: 0,
        session: 1,
        stamp: 950,
        reason: 0,
    };
    sessions.apply(&closed)?;
    assert!(rt; sessions.find(1).is_none() && sessions.open_count() == 1);
    if let Some(session) = sessions.at(0) {
        assert!(rt; session.id == 2 && session.closing && session.stream == 3);
        assert!(rt; session.channel.as_slice() == b"c".as_slice());
    }
    sessions.reserve()?;
    assert!(rt; sessions.next_id() == 3);
    Ok(())
}
