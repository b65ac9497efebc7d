ghost use Rattle.std.specs.Prelude.{◌≤◌, IfOk};
ghost use Rattle.std.specs.List.{AllByRecursion};
ghost use Rattle.sbe_events.specs.Spelling.{HasSpelling};

use cl_base::{Bytes, List, NoMemory};
use module_state::{ModuleState, Moment};
use sbe_events::Event;
use sbe_local::Command;
use std::alloc::Global;
use std::test::*;
use wire_prims::{Bad, BadCause, DecodeFault};

fn term(term: u16, position: u32, stamp: u32, leader: u8) -> Event
    requires { leader ≤ 4 }
    ensures { HasSpelling result }
{
    Event::Term {
        term: term as i64,
        position: position as i64,
        stamp: stamp as i64,
        base: position as i64,
        leader: leader as i32,
    }
}

fn opened(a: Global, stamp: u32, stream: u16) -> Result<Event, NoMemory>
    ensures { IfOk result HasSpelling }
{
    let channel = Bytes::of(a, b"")?;
    Ok(Event::Opened {
        term: 0,
        corr: 1,
        session: 1,
        stamp: stamp as i64,
        stream: stream as i32,
        channel,
    })
}

fn message(a: Global, stamp: u32) -> Result<Event, NoMemory>
    ensures { IfOk result HasSpelling }
{
    let payload = Bytes::of(a, b"x")?;
    Ok(Event::Message {
        term: 0,
        session: 1,
        stamp: stamp as i64,
        payload,
    })
}

fn ring(corr: u32, stamp: u32) -> Event
    ensures { HasSpelling result }
{
    Event::Timer {
        term: 0,
        corr: corr as i64,
        stamp: stamp as i64,
    }
}

// A member of one service, with session 1 open on stream 9.
fn begun(a: Global, stamp: u32) -> Result<ModuleState, NoMemory> {
    let mut m = ModuleState::fresh(a, 1)?;
    m.apply(&term(0, 0, 340, 0))?;
    m.apply(&opened(a, stamp, 9)?)?;
    Ok(m)
}

// The same after a message, at which the service asks for this.
fn asked(a: Global, m: &mut ModuleState, stamp: u32, c: &Command) -> Result<(), NoMemory> {
    m.apply(&message(a, stamp)?)?;
    m.on_command(0, c)
}

// What is due with these events ahead and these keep-alives.
fn due_with(
    m: &ModuleState,
    ahead: &[Event],
    alive: &[(i64, u64)],
    now: u32,
    since: u32,
) -> Result<List<Event>, NoMemory>
    requires { AllByRecursion HasSpelling ahead.now }
{
    let tentative = m.tentative(ahead)?;
    let moment = Moment {
        term: 0,
        now: now as u64,
        since: since as u64,
    };
    m.due(&tentative, ahead, alive, moment)
}

// An event, as a text would show it: what it is, of whom, and its stamp.
fn shown(event: &Event) -> (u8, i64, i64) {
    match event {
        Event::Closed {
            reason,
            session,
            stamp,
            ..
        } => (*reason, *session, *stamp),
        Event::Timer { corr, stamp, .. } => (10, *corr, *stamp),
        Event::ServiceMessage { number, stamp, .. } => (20, *number, *stamp),
        _ => (30, 0, 0),
    }
}

// The events of a list are these.
fn are(due: &List<Event>, wanted: &[(u8, i64, i64)]) -> bool {
    due.len() == wanted.len()
        && due
            .as_slice()
            .iter()
            .zip(wanted.iter())
            .all(|(event, want)| shown(event) == *want)
}

fn schedule(deadline: i64) -> Command {
    Command::Schedule { corr: 7, deadline }
}

/// A timer that is moved after its event was appended stays armed and rings again.
#[test]
fn a_timer_rings_at_its_deadline(rt: HostRuntime) -> Result<(), NoMemory> {
    let a = rt.alloc();
    let mut m = begun(a, 400)?;
    asked(a, &mut m, 410, &schedule(510))?;
    let ahead = [message(a, 500)?];
    assert!(rt; are(&due_with(&m, &ahead, &[], 509, 340)?, &[]));
    assert!(rt; are(&due_with(&m, &ahead, &[], 510, 340)?, &[(10, 7, 510)]));
    Ok(())
}

#[test]
fn a_moved_timer_rings_twice(rt: HostRuntime) -> Result<(), NoMemory> {
    let a = rt.alloc();
    let mut m = begun(a, 400)?;
    asked(a, &mut m, 500, &schedule(1_500))?;
    let rang = [ring(7, 510)];
    assert!(rt; are(&due_with(&m, &rang, &[], 1_500, 340)?, &[]));
    m.apply(&rang[0])?;
    assert!(rt; are(&due_with(&m, &[], &[], 1_490, 340)?, &[]));
    assert!(rt; are(&due_with(&m, &[], &[], 1_500, 340)?, &[(10, 7, 1_500)]));
    Ok(())
}

/// A silent session is closed after 10,000 ms, a marked one at once.
#[test]
fn silent_and_marked_sessions_are_closed(rt: HostRuntime) -> Result<(), NoMemory> {
    let a = rt.alloc();
    let mut m = begun(a, 650)?;
    assert!(rt; m.stream_of(1) == Some(9) && m.stream_of(2).is_none());
    let alive: [(i64, u64); 1] = [(1, 700)];
    assert!(rt; are(&due_with(&m, &[], &[], 10_649, 350)?, &[]));
    assert!(rt; are(&due_with(&m, &[], &[], 10_650, 350)?, &[(2, 1, 10_650)]));
    assert!(rt; are(&due_with(&m, &[], &alive, 10_650, 350)?, &[]));
    asked(a, &mut m, 660, &Command::CloseSession { session: 1 })?;
    assert!(rt; are(&due_with(&m, &[], &[], 700, 350)?, &[(1, 1, 700)]));
    Ok(())
}

/// A service's offer is due until its message is in the log, also at the next leader.
#[test]
fn an_offer_is_due_once(rt: HostRuntime) -> Result<(), NoMemory> {
    let a = rt.alloc();
    let mut m = begun(a, 600)?;
    let offer = Command::Offer {
        service: 0,
        number: 1,
        payload: Bytes::of(a, &[232, 3, 0, 0, 0, 0, 0, 0])?,
    };
    asked(a, &mut m, 650, &offer)?;
    let due = due_with(&m, &[term(1, 288, 2_130, 1)], &[], 2_140, 2_130)?;
    assert!(rt; are(&due, &[(20, 1, 2_140)]));
    Ok(())
}

// A record by its number.
fn record(pick: u8) -> &'static [u8] {
    match pick {
        // The next session is 5; 2 actions, 9 entries, leader 1.
        0 => &[
            28, 0, 112, 0, 111, 0, 0, 0, 5, 0, 0, 0, 0, 0, 0, 0, 2, 0, 0, 0, 0, 0, 0, 0, 9, 0, 0,
            0, 0, 0, 0, 0, 1, 0, 0, 0,
        ],
        // Service 0 offered 3, and 2 were appended.
        1 => &[
            20, 0, 115, 0, 111, 0, 0, 0, 3, 0, 0, 0, 0, 0, 0, 0, 2, 0, 0, 0, 0, 0, 0, 0, 0, 0, 0, 0,
        ],
        // Its message 3.
        2 => &[
            12, 0, 113, 0, 111, 0, 0, 0, 3, 0, 0, 0, 0, 0, 0, 0, 0, 0, 0, 0, 1, 0, 0, 0, 112,
        ],
        // Session 2, marked.
        3 => &[
            32, 0, 110, 0, 111, 0, 0, 0, 2, 0, 0, 0, 0, 0, 0, 0, 9, 0, 0, 0, 0, 0, 0, 0, 144, 1, 0,
            0, 0, 0, 0, 0, 7, 0, 0, 0, 1, 0, 0, 0, 1, 0, 0, 0, 99,
        ],
        // Session 4.
        4 => &[
            32, 0, 110, 0, 111, 0, 0, 0, 4, 0, 0, 0, 0, 0, 0, 0, 8, 0, 0, 0, 0, 0, 0, 0, 244, 1, 0,
            0, 0, 0, 0, 0, 6, 0, 0, 0, 0, 0, 0, 0, 0, 0, 0, 0,
        ],
        // Timer -3.
        5 => &[
            16, 0, 111, 0, 111, 0, 0, 0, 253, 255, 255, 255, 255, 255, 255, 255, 132, 3, 0, 0, 0,
            0, 0, 0,
        ],
        // Timer 7.
        6 => &[
            16, 0, 111, 0, 111, 0, 0, 0, 7, 0, 0, 0, 0, 0, 0, 0, 32, 3, 0, 0, 0, 0, 0, 0,
        ],
        // Session 5.
        7 => &[
            32, 0, 110, 0, 111, 0, 0, 0, 5, 0, 0, 0, 0, 0, 0, 0, 8, 0, 0, 0, 0, 0, 0, 0, 244, 1, 0,
            0, 0, 0, 0, 0, 6, 0, 0, 0, 0, 0, 0, 0, 0, 0, 0, 0,
        ],
        // The first without its last byte.
        8 => &[
            28, 0, 112, 0, 111, 0, 0, 0, 5, 0, 0, 0, 0, 0, 0, 0, 2, 0, 0, 0, 0, 0, 0, 0, 9, 0, 0,
            0, 0, 0, 0, 0, 1, 0, 0,
        ],
        // A Counter of service 3.
        9 => &[
            20, 0, 115, 0, 111, 0, 0, 0, 3, 0, 0, 0, 0, 0, 0, 0, 2, 0, 0, 0, 0, 0, 0, 0, 3, 0, 0, 0,
        ],
        // More were appended than offered.
        _ => &[
            20, 0, 115, 0, 111, 0, 0, 0, 1, 0, 0, 0, 0, 0, 0, 0, 2, 0, 0, 0, 0, 0, 0, 0, 0, 0, 0, 0,
        ],
    }
}

// Some of these records.
fn picked(a: Global, picks: &[u8]) -> Result<List<Bytes>, NoMemory> {
    let mut records = List::new(a);
    for pick in picks.iter() {
        records.push(Bytes::of(a, record(*pick))?)?;
    }
    Ok(records)
}

// Both are the same records.
fn are_alike(some: &[Bytes], others: &[Bytes]) -> bool {
    some.len() == others.len()
        && some
            .iter()
            .zip(others.iter())
            .all(|(one, other)| one.as_slice() == other.as_slice())
}

/// A state of every kind of piece is restored, and its copy gives its records again.
#[test]
fn records_restore(rt: HostRuntime) -> Result<(), DecodeFault> {
    let a = rt.alloc();
    let records = picked(a, &[0, 1, 2, 3, 4, 5, 6])?;
    let m = ModuleState::from_records(a, 1, records.as_slice())?;
    assert!(rt; m.entries() == 9 && m.actions() == 2 && m.leader() == 1);
    let again = m.copy()?.records()?;
    assert!(rt; are_alike(again.as_slice(), records.as_slice()));
    Ok(())
}

// What is first wrong with some of these records.
fn wrong(a: Global, picks: &[u8]) -> Result<Option<Bad>, NoMemory> {
    let records = picked(a, picks)?;
    match ModuleState::from_records(a, 1, records.as_slice()) {
        Ok(_) => Ok(None),
        Err(DecodeFault::Bad(bad)) => Ok(Some(bad)),
        Err(DecodeFault::NoMemory) => Err(NoMemory),
    }
}

/// The first piece that is wrong, or missing, is named by its place.
#[test]
fn each_wrong_piece_is_named_by_its_place(rt: HostRuntime) -> Result<(), NoMemory> {
    let a = rt.alloc();
    let cases: [(&[u8], u64, BadCause); 14] = [
        (&[], 0, BadCause::Short),
        (&[1], 0, BadCause::Value),
        (&[8], 39, BadCause::Short),
        (&[0], 40, BadCause::Short),
        (&[0, 9], 68, BadCause::Value),
        (&[0, 10], 40, BadCause::Value),
        (&[0, 1], 72, BadCause::Short),
        (&[0, 1, 3], 72, BadCause::Value),
        (&[0, 1, 2, 2], 101, BadCause::Value),
        (&[0, 1, 2, 4, 3], 149, BadCause::Value),
        (&[0, 1, 2, 7], 101, BadCause::Value),
        (&[0, 1, 2, 5, 3], 129, BadCause::Value),
        (&[0, 1, 2, 6, 5], 129, BadCause::Value),
        (&[0, 1, 2, 6, 8], 168, BadCause::Short),
    ];
    for case in cases.iter() {
        let bad = Bad {
            place: case.1,
            cause: case.2,
        };
        assert!(rt; wrong(a, case.0)? == Some(bad));
    }
    Ok(())
}
