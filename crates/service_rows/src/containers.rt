ghost use Rattle.std.specs.Prelude.{◌≡◌, ◌+◌, ◌<◌, ◌^◌, false, true, [], IfOk};
ghost use Rattle.commit_counter.specs.Ends.{fed_to};

use cl_base::{Bytes, Entry, NoMemory};
use commit_counter::{Feed, Poller, Role, close, image};
use sbe_events::{Event, encode_event};
use service_api::{Kind, Output};
use service_container::{Container, NoGate, ServeEnd};
use std::alloc::Global;
use std::sync::Wait;
use std::test::Fail;
use std::thread;
use std::thread::join_mut;

// The bytes of a message of session 1.
fn message(alloc: Global) -> Result<Bytes, NoMemory> {
    let e = Event::Message {
        term: 0,
        session: 1,
        stamp: 410,
        payload: Bytes::of(alloc, b"hi")?,
    };
    encode_event(alloc, &e)
}

// Feeds one entry, and waits while the queue is full.
fn put<R: Wait>(rt: &R, feed: &mut Feed, e: Entry)
    requires { fed_to feed.old < 2 ^ 62 }
    ensures { (fed_to feed.new ≡ fed_to feed.old + 1) × (feed.new.commit ≡ feed.old.commit) × (feed.new.ended ≡ feed.old.ended) × (feed.new.name ≡ feed.old.name) }
{
    let mut e = e;
    for _ in rt.forever() {
        match feed.push(rt, e) {
            Ok(()) => return,
            Err(back) => e = back,
        }
        thread::yield_now();
    }
    unreachable!()
}

// Feeds a thousand entries with the commit three behind, and then publishes all, and the end.
fn feed_all<R: Wait>(rt: &R, bytes: &Bytes, feed: &mut Feed) -> bool
    requires { (fed_to feed.old ≡ 0) × (feed.old.commit ≡ 0) × (feed.old.ended ≡ false) }
    ensures { (feed.new.ended ≡ true) × (feed.new.name ≡ feed.old.name) }
{
    let mut whole = true;
    for n in 0..1000u64 {
        let Ok(bytes) = bytes.copy() else {
            whole = false;
            break;
        };
        put(rt, feed, Entry { term: 0, bytes });
        if n > 2 {
            feed.publish(n - 2);
        }
    }
    if whole {
        feed.publish(1000);
    }
    feed.finish();
    whole
}

#[test]
fn a_thousand_entries_are_served_beside_the_feed(rt: HostRuntime) -> Result<(), Fail> {
    let alloc: Global = rt.alloc();
    let bytes = message(alloc)?;
    let (mut feed, mut poller) = image(alloc, 0, Role::Follower)?;
    let mut container = Container::fresh(alloc, Kind::Echo, 0)?;
    let on = &rt;
    let (end, whole) = join_mut(
        on,
        &mut || container.run(on, &mut poller, &NoGate),
        &mut || feed_all(on, &bytes, &mut feed),
    );
    assert!(rt; whole);
    assert_eq!(rt; end, ServeEnd::Ended);
    assert_eq!(rt; container.inputs().len(), 1000);
    assert_eq!(rt; container.outbox().len(), 1000);
    let last = container.outbox().get(999);
    assert!(rt;
        matches!(last, Some((999, Output::Egress { session: 1, payload })) if payload.as_slice() == b"hi".as_slice())
    );
    assert_eq!(rt; close(&rt, feed, poller), 1000);
    Ok(())
}

// An image of a message and then a snapshot action, all published and ended.
fn with_an_action<R: Wait>(rt: &R, alloc: Global) -> Result<Poller, NoMemory>
    ensures { IfOk result (λ poller. (poller.start ≡ 0) × (poller.list ≡ [])) }
{
    let (mut feed, poller) = image(alloc, 0, Role::Follower)?;
    let action = Event::Snapshot {
        term: 0,
        position: 96,
        stamp: 410,
    };
    let first = Entry {
        term: 0,
        bytes: message(alloc)?,
    };
    let second = Entry {
        term: 0,
        bytes: encode_event(alloc, &action)?,
    };
    if feed.push(rt, first).is_err() || feed.push(rt, second).is_err() {
        return Err(NoMemory);
    }
    if feed.pushed() != 2 || feed.commit() != 0 {
        return Err(NoMemory);
    }
    feed.publish(2);
    feed.finish();
    Ok(poller)
}

#[test]
fn a_snapshot_action_leaves_records_once(rt: HostRuntime) -> Result<(), Fail> {
    let alloc: Global = rt.alloc();
    let poller = with_an_action(&rt, alloc)?;
    let container = Container::from_snapshot(alloc, Kind::Ledger, 0, 0, &[7; 16])?;
    let mut container = container.serve(&rt, poller, &NoGate).container;
    assert!(rt; matches!(container.snapshot(1), Some(b) if b.as_slice() == [7; 16].as_slice()));
    assert!(rt; container.snapshot(0).is_none());
    assert!(rt; container.snapshot(2).is_none());
    container.forget_outbox();
    assert_eq!(rt; container.outbox().len(), 0);
    assert_eq!(rt; container.inputs().len(), 2);
    Ok(())
}

#[test]
fn an_entry_that_is_no_event_gives_nothing(rt: HostRuntime) -> Result<(), Fail> {
    let alloc: Global = rt.alloc();
    let (mut feed, poller) = image(alloc, 0, Role::Leader { term: 0 })?;
    let container = Container::from_snapshot(alloc, Kind::Ledger, 1, 0, &[7; 16])?;
    assert_eq!(rt; container.service(), 1);
    let first = Bytes::of(alloc, b"no event")?;
    let bytes = first.copy()?;
    assert!(rt;
        feed.push(
            &rt,
            Entry {
                term: 0,
                bytes: first
            }
        )
        .is_ok()
    );
    assert!(rt; feed.push(&rt, Entry { term: 0, bytes }).is_ok());
    assert_eq!(rt; feed.pushed(), 2);
    assert_eq!(rt; feed.commit(), 0);
    feed.publish(2);
    feed.finish();
    let served = container.serve(&rt, poller, &NoGate);
    assert_eq!(rt; served.end, ServeEnd::Ended);
    assert_eq!(rt; served.container.inputs().len(), 2);
    assert_eq!(rt; served.container.outbox().len(), 0);
    assert!(rt; served.container.state().records()?.as_slice() == [7; 16].as_slice());
    Ok(())
}
