// The text of each kind of line and of entry, and of what an order is answered.
ghost use Rattle.sbe_events.specs.Spelling.{HasSpelling};

use cl_base::{Bytes, Entry, MemSink, Trouble};
use cluster_client::Got;
use egress::Sent;
use ingress::Outcome;
use recording_log::SnapshotAt;
use run_report::{Made, MemberAt, Page, Reply, RunAt, put_order, put_stopped};
use sbe_events::{Event, encode_event};
use std::alloc::Global;
use std::test::Fail;
use wire_prims::{Bad, BadCause};

// Puts an event that has a spelling behind a log.
fn push(alloc: Global, log: &mut Vec<Entry>, term: i64, event: &Event) -> Result<(), Fail>
    requires { HasSpelling event.now }
{
    let bytes = encode_event(alloc, event)?;
    log.push(Entry { term, bytes })?;
    Ok(())
}

fn sink(alloc: Global) -> MemSink {
    MemSink::new(alloc, Vec::new(alloc))
}

// A term, a session and a message.
fn first_log(alloc: Global) -> Result<Vec<Entry>, Fail> {
    let mut log = Vec::new(alloc);
    let term = Event::Term {
        term: 0,
        position: 0,
        stamp: 340,
        base: 0,
        leader: 0,
    };
    let opened = Event::Opened {
        term: 0,
        corr: 1,
        session: 1,
        stamp: 400,
        stream: 0,
        channel: Bytes::of(alloc, b"")?,
    };
    let message = Event::Message {
        term: 0,
        session: 1,
        stamp: 410,
        payload: Bytes::of(alloc, b"hi")?,
    };
    push(alloc, &mut log, 0, &term)?;
    push(alloc, &mut log, 0, &opened)?;
    push(alloc, &mut log, 0, &message)?;
    Ok(log)
}

const FIRST: &str = "log 3
entry 0 0 term leader 0 base 0 ts 340
entry 1 0 open 1 stream 0 corr 1 ts 400 channel -
entry 2 0 message 1 ts 410 6869
service 0 0 run 1 from 0 count 3
in 0 0 term leader 0 base 0 ts 340
in 1 0 open 1 stream 0 corr 1 ts 400 channel -
in 2 0 message 1 ts 410 6869
stream -3 egress 2
out 1 module 07
out 2 service 0 0 ff
done
";

#[test]
fn a_log_a_run_and_a_stream(rt: HostRuntime) -> Result<(), Fail> {
    let a = rt.alloc();
    let log = first_log(a)?;
    let log = log.as_slice();
    let mut out = sink(a);
    let mut page = Page::new(a);
    page.log(&mut out, log)?;
    let at = RunAt {
        member: 0,
        service: 0,
        run: 1,
        from: 0,
    };
    page.run(&mut out, at, log)?;
    let mut sent = Vec::new(a);
    sent.push(Sent {
        stream: -3,
        entry: Some(1),
        service: None,
        number: 0,
        bytes: Bytes::of(a, &[7])?,
    })?;
    sent.push(Sent {
        stream: -3,
        entry: Some(2),
        service: Some(0),
        number: 0,
        bytes: Bytes::of(a, &[255])?,
    })?;
    page.stream(&mut out, -3, sent.as_slice())?;
    page.stream(&mut out, 5, &[])?;
    page.done(&mut out)?;
    assert!(rt; out.held() == FIRST.as_bytes());
    Ok(())
}

const MEMBERS: &str = "member 0 up candidate 0 entries 3 same 3 commit 3 snapshots 0
member 1 down candidate -1 entries 3 same 0 commit - snapshots 1
own 0 0 term leader 0 base 0 ts 340
own 1 0 open 1 stream 0 corr 1 ts 400 channel -
own 2 0 message 1 ts 410 6869
snapshot 384 0
member 2 down unread
member 3 down damaged 2 31
done
";

#[test]
fn members_at_the_end(rt: HostRuntime) -> Result<(), Fail> {
    let a = rt.alloc();
    let log = first_log(a)?;
    let mut out = sink(a);
    let mut page = Page::new(a);
    let up = MemberAt {
        member: 0,
        commit: Some(3),
        candidate: 0,
        entries: 3,
        same: 3,
    };
    page.member(&mut out, up, &[], &[])?;
    let down = MemberAt {
        member: 1,
        commit: None,
        candidate: -1,
        entries: 3,
        same: 0,
    };
    let set = SnapshotAt {
        recording: 0,
        term: 0,
        position: 384,
    };
    page.member(&mut out, down, log.as_slice(), &[set])?;
    page.unread(&mut out, 2)?;
    page.damaged(&mut out, 3, 2, 31)?;
    page.done(&mut out)?;
    assert!(rt; out.held() == MEMBERS.as_bytes());
    Ok(())
}

const HANDED: &str = "client 0 handed 2
got 0 6869
got 1 616761696e
client 63 handed 0
done
";

#[test]
fn what_joined_clients_were_handed(rt: HostRuntime) -> Result<(), Fail> {
    let a = rt.alloc();
    let mut handed = Vec::new(a);
    handed.push(Got {
        term: 0,
        payload: Bytes::of(a, b"hi")?,
    })?;
    handed.push(Got {
        term: 1,
        payload: Bytes::of(a, b"again")?,
    })?;
    let mut out = sink(a);
    let mut page = Page::new(a);
    page.client(&mut out, 0, handed.as_slice())?;
    page.client(&mut out, 63, &[])?;
    page.done(&mut out)?;
    assert!(rt; out.held() == HANDED.as_bytes());
    Ok(())
}

const OTHERS: &str = "log 4
entry 0 1 service 0 1 ts 2140 e803
entry 1 1 timer 7 ts 510
entry 2 1 close 1 reason 2 ts 9
entry 3 1 snapshot ts 420
made 2000
entries 2007
place 192800
terms 2
refused 0
egress 2010
inputs 14054
done
";

#[test]
fn other_entries_and_a_summary(rt: HostRuntime) -> Result<(), Fail> {
    let a = rt.alloc();
    let mut log = Vec::new(a);
    let offered = Event::ServiceMessage {
        term: 1,
        service: 0,
        number: 1,
        stamp: 2140,
        payload: Bytes::of(a, &[0xe8, 3])?,
    };
    let timer = Event::Timer {
        term: 1,
        corr: 7,
        stamp: 510,
    };
    let closed = Event::Closed {
        term: 1,
        session: 1,
        stamp: 9,
        reason: 2,
    };
    let snapshot = Event::Snapshot {
        term: 1,
        position: 288,
        stamp: 420,
    };
    push(a, &mut log, 1, &offered)?;
    push(a, &mut log, 1, &timer)?;
    push(a, &mut log, 1, &closed)?;
    push(a, &mut log, 1, &snapshot)?;
    let mut out = sink(a);
    let mut page = Page::new(a);
    page.log(&mut out, log.as_slice())?;
    let made = Made {
        messages: 2000,
        entries: 2007,
        place: 192_800,
        terms: 2,
        refused: 0,
        egress: 2010,
        inputs: 14_054,
    };
    page.summary(&mut out, made)?;
    assert!(rt; out.held() == OTHERS.as_bytes());
    Ok(())
}

const ORDERS: &str = "order 1 member down
order 2 bad 7 short
order 3 not leader 4
order 4 not leader -
order 5 wrong term -1
order 6 no session 7
order 7 too large 16385
order 8 session limit
order 9 action limit
order 10 back pressure 33600
order 11 log full 16777312
order 12 device
order 13 alive
order 14 accepted 2
order 15 ok
order 16 running
order 17 damaged 2 31
order 18 no snapshot
order 19 not open
stopped 4
";

#[test]
fn each_answer_has_its_text(rt: HostRuntime) -> Result<(), Fail> {
    let a = rt.alloc();
    let mut out = sink(a);
    let bad = Bad {
        place: 7,
        cause: BadCause::Short,
    };
    let given = [
        Outcome::MemberDown,
        Outcome::Bad(bad),
        Outcome::NotLeader { leader: 4 },
        Outcome::NotLeader { leader: -1 },
        Outcome::WrongTerm { term: -1 },
        Outcome::NoSession { session: 7 },
        Outcome::TooLarge { bytes: 16_385 },
        Outcome::SessionLimit,
        Outcome::ActionLimit,
        Outcome::BackPressure { bytes: 33_600 },
        Outcome::LogFull { place: 16_777_312 },
        Outcome::Device,
        Outcome::Alive,
        Outcome::Accepted { index: 2 },
    ];
    for (i, outcome) in given.iter().enumerate() {
        put_order(a, &mut out, i as u64 + 1, Reply::Given(*outcome))?;
    }
    put_order(a, &mut out, 15, Reply::Fine)?;
    put_order(a, &mut out, 16, Reply::Running)?;
    put_order(a, &mut out, 17, Reply::Damaged { file: 2, place: 31 })?;
    put_order(a, &mut out, 18, Reply::NoSnapshot)?;
    put_order(a, &mut out, 19, Reply::NotOpen)?;
    put_stopped(a, &mut out, 4)?;
    assert!(rt; out.held() == ORDERS.as_bytes());
    Ok(())
}

#[test]
fn a_failing_sink_ends_the_report(rt: HostRuntime) -> Result<(), Fail> {
    let a = rt.alloc();
    let log = first_log(a)?;
    let mut fails = Vec::new(a);
    fails.push(1)?;
    let mut out = MemSink::new(a, fails);
    let mut page = Page::new(a);
    page.log(&mut out, log.as_slice())?;
    assert!(rt; page.done(&mut out) == Err(Trouble::Failed) && out.held().is_empty());
    Ok(())
}
