// Services that meet, in one phase after the other.
ghost use Rattle.std.specs.Prelude.{IfOk};
ghost use Rattle.service_phases.specs.Phases.{MayServe};

use crate::Lanes;
use cl_base::{Bytes, Entry, List, NoMemory};
use commit_counter::{Role, image};
use service_api::Kind;
use service_container::{Container, Gate, ServeEnd, Served};
use std::alloc::Global;
use std::sync::atomic::{AtomicBool, Ordering};
use std::sync::{Arc, Wait};
use std::test::Fail;
use std::thread;

// How often a flag of another thread is looked at.
const LOOKS: u32 = 1_000_000;

// Each of two services sets its flag at index 0, and looks for the other's.
#[derive(Drop)]
struct Flags {
    here: [AtomicBool; 2],
    met: [AtomicBool; 2],
}

#[derive(Drop)]
struct Meet(Arc<Flags, Global>);

/// A flag is seen within so many looks.
fn is_seen(flag: &AtomicBool) -> bool {
    for _ in 0..LOOKS {
        if flag.load(Ordering::SeqCst) {
            return true;
        }
        thread::yield_now();
    }
    false
}

impl Gate for Meet {
    fn pass(&self, service: u8, _index: u64) {
        let (own, other) = if service == 0 { (0, 1) } else { (1, 0) };
        self.0.here[own].store(true, Ordering::SeqCst);
        if is_seen(&self.0.here[other]) {
            self.0.met[own].store(true, Ordering::SeqCst);
        }
    }
}

/// A fresh service, whose image has one entry and its end.
fn job<R: Wait>(rt: &R, alloc: Global, service: u8) -> Result<Served, NoMemory>
    ensures { IfOk result MayServe }
{
    let (mut feed, poller) = image(alloc, 0, Role::Follower)?;
    let bytes = Bytes::of(alloc, b"no event")?;
    if feed.push(rt, Entry { term: 0, bytes }).is_err()
        || feed.pushed() != 1
        || feed.commit() != 0
    {
        return Err(NoMemory);
    }
    feed.publish(1);
    feed.finish();
    let container = Container::fresh(alloc, Kind::Echo, service)?;
    Ok(Served {
        container,
        poller,
        end: ServeEnd::NoMemory,
    })
}

#[test]
fn two_services_meet_in_each_phase(rt: HostRuntime) -> Result<(), Fail> {
    let alloc: Global = rt.alloc();
    let flags = Flags {
        here: [AtomicBool::new(false), AtomicBool::new(false)],
        met: [AtomicBool::new(false), AtomicBool::new(false)],
    };
    let flags = Arc::new(alloc, flags)?;
    let mut lanes = Lanes::new(alloc, Meet(Arc::try_clone(&flags)?))?;
    for _ in 0..3u8 {
        let first = job(&rt, alloc, 0)?;
        let second = job(&rt, alloc, 1)?;
        let mut jobs = List::new(alloc);
        jobs.push(first)?;
        jobs.push(second)?;
        lanes.lend(&rt, jobs);
        let served = lanes.take_back(&rt);
        for place in 0..2usize {
            assert!(rt; flags.here[place].swap(false, Ordering::SeqCst));
            assert!(rt; flags.met[place].swap(false, Ordering::SeqCst));
            let Some(job) = served.as_slice().get(place) else {
                return Err("a job is gone".into());
            };
            assert_eq!(rt; job.container.service() as usize, place);
            assert_eq!(rt; job.end, ServeEnd::Ended);
            assert_eq!(rt; job.container.inputs().len(), 1);
        }
    }
    lanes.close(&rt);
    Ok(())
}
