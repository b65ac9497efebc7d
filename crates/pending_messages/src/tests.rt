use super::*;
use cl_base::{Bytes, NoMemory};
use std::test::*;

/// Offers are numbered from 1 for each service, and leave in order.
#[test]
fn offers_are_numbered_and_leave_in_order(rt: HostRuntime) -> Result<(), NoMemory> {
    let a = rt.alloc();
    let mut pending = Pending::new(a, 2)?;
    assert!(rt; pending.next(1).is_none() && !pending.appended(1));
    assert!(rt; pending.offered(1, Bytes::of(a, b"a")?)? == 1);
    assert!(rt; pending.offered(1, Bytes::of(a, b"b")?)? == 2);
    assert!(rt; pending.offered(0, Bytes::of(a, b"c")?)? == 1);
    assert!(rt; pending.appended(1) && pending.appended_count(1) == 1);
    let copy = pending.copy()?;
    assert!(rt; copy.len() == 2 && copy.waiting(0).len() == 1);
    if let Some((number, payload)) = copy.next(1) {
        assert!(rt; number == 2 && payload.as_slice() == b"b".as_slice());
    }
    assert!(rt; pending.appended(1) && pending.next(1).is_none() && pending.has_room(1));
    Ok(())
}
