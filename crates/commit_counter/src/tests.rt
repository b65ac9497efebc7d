use crate::{Poll, Role, close, image};
use cl_base::{Bytes, Entry, NoMemory};
use std::alloc::Global;
use std::test::Fail;

fn entry(alloc: Global, term: i64, n: u8) -> Result<Entry, NoMemory> {
    let bytes = Bytes::of(alloc, &[n])?;
    Ok(Entry { term, bytes })
}

#[test]
fn a_poll_answers_by_the_commit_and_the_queue(rt: HostRuntime) -> Result<(), Fail> {
    let alloc = rt.alloc();
    let (mut feed, mut poller) = image(alloc, 0, Role::Follower)?;
    assert!(rt; feed.push(&rt, entry(alloc, 0, 10)?).is_ok());
    assert!(rt; feed.push(&rt, entry(alloc, 0, 11)?).is_ok());
    feed.publish(1);
    let first = poller.poll_one(&rt);
    assert!(rt;
        matches!(&first, Poll::Took { index: 0, entry } if entry.bytes.as_slice() == [10].as_slice())
    );
    assert!(rt; matches!(poller.poll_one(&rt), Poll::NotYet { seen: 1 }));
    feed.publish(3);
    let second = poller.poll_one(&rt);
    assert!(rt;
        matches!(&second, Poll::Took { index: 1, entry } if entry.bytes.as_slice() == [11].as_slice())
    );
    assert!(rt; matches!(poller.poll_one(&rt), Poll::Empty { seen: 3 }));
    assert!(rt; feed.push(&rt, entry(alloc, 0, 12)?).is_ok());
    feed.finish();
    assert!(rt; matches!(poller.poll_one(&rt), Poll::Took { index: 2, .. }));
    assert!(rt; matches!(poller.poll_one(&rt), Poll::Ended { seen: 3 }));
    assert_eq!(rt; feed.service_position(), 3);
    assert_eq!(rt; close(&rt, feed, poller), 3);
    Ok(())
}

#[test]
fn a_full_queue_hands_the_257th_entry_back(rt: HostRuntime) -> Result<(), Fail> {
    let alloc = rt.alloc();
    let (mut feed, _poller) = image(alloc, 0, Role::Follower)?;
    for _ in 0..256u64 {
        assert!(rt; feed.pushed() < 256);
        assert!(rt; feed.push(&rt, entry(alloc, 0, 7)?).is_ok());
    }
    assert_eq!(rt; feed.pushed(), 256);
    let back = feed.push(&rt, entry(alloc, 5, 9)?);
    assert!(rt; matches!(&back, Err(e) if e.term == 5 && e.bytes.as_slice() == [9].as_slice()));
    assert_eq!(rt; feed.pushed(), 256);
    Ok(())
}

#[test]
fn an_image_that_begins_later_counts_from_there(rt: HostRuntime) -> Result<(), Fail> {
    let alloc = rt.alloc();
    let (mut feed, mut poller) = image(alloc, 40, Role::Leader { term: 3 })?;
    assert_eq!(rt; feed.role(), Role::Leader { term: 3 });
    assert_eq!(rt; feed.commit(), 40);
    assert_eq!(rt; feed.pushed(), 40);
    assert_eq!(rt; feed.service_position(), 40);
    assert!(rt; matches!(poller.poll_one(&rt), Poll::NotYet { seen: 40 }));
    poller.await_more(&rt);
    assert!(rt; feed.push(&rt, entry(alloc, 3, 1)?).is_ok());
    feed.publish(41);
    assert_eq!(rt; feed.commit(), 41);
    assert!(rt; matches!(poller.poll_one(&rt), Poll::Took { index: 40, .. }));
    feed.finish();
    assert_eq!(rt; feed.service_position(), 41);
    // The end was published, and the poller hasn't looked since: what it took counts all the same.
    assert_eq!(rt; close(&rt, feed, poller), 41);
    Ok(())
}
