use super::*;
use cl_base::NoMemory;
use std::alloc::Global;
use std::test::*;

// A table with so many timers, named from 0.
fn armed(a: Global, count: i64, deadline: i64) -> Result<Timers, NoMemory> {
    let mut timers = Timers::new(a);
    for name in 0..count {
        timers.schedule(name, deadline)?;
    }
    Ok(timers)
}

/// 4,096 timers are armed at most, and deadlines are 0 to 2^62.
#[test]
fn timers_are_limited(rt: HostRuntime) -> Result<(), NoMemory> {
    let mut timers = armed(rt.alloc(), 4_096, 5_000)?;
    let cases = [
        (4_096, 1, Made::TimerLimit),
        (-1, 0, Made::TimerLimit),
        (4_096, -1, Made::BadDeadline),
        (7, 4_611_686_018_427_387_905, Made::BadDeadline),
        (7, 4_611_686_018_427_387_904, Made::Yes),
        (7, 1, Made::Yes),
        (9, 1, Made::Yes),
    ];
    for case in cases.iter() {
        assert!(rt; timers.schedule(case.0, case.1)? == case.2);
    }
    assert!(rt;
        timers.len() == 4_096 && timers.due(4_999)?.as_slice() == [(7, 1), (9, 1)].as_slice()
    );
    Ok(())
}

/// A timer is disarmed once, and rings from its deadline on.
#[test]
fn timers_are_disarmed(rt: HostRuntime) -> Result<(), NoMemory> {
    let mut timers = armed(rt.alloc(), 3, 500)?;
    assert!(rt; !timers.fire(1, 499) && timers.fire(1, 500) && !timers.fire(1, 500));
    assert!(rt; timers.cancel(0) && !timers.cancel(0));
    let copy = timers.copy()?;
    assert!(rt; copy.listed()?.as_slice() == [(2, 500)].as_slice());
    assert!(rt; copy.due(499)?.is_empty() && copy.due(500)?.len() == 1);
    Ok(())
}
