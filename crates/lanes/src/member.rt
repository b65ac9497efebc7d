// The lanes of a member's services.
ghost use Rattle.std.specs.Prelude.{◌≡◌, ◌+◌, ◌≤◌, [], ◌++◌, length, vec_len, vec_capacity, IfOk};
ghost use Rattle.std.specs.Arc.{arc_value};
ghost use Rattle.service_phases.specs.Pairs.{Each, Each2};
ghost use Rattle.service_phases.specs.Phases.{MayServe, Ran};
ghost use Rattle.lanes.specs.Jobs.{IsIdle, jobs_of, Adds};

use crate::lane::{Lane, open};
use cl_base::{List, NoMemory};
use service_container::{Gate, Served};
use service_phases::work;
use std::alloc::Global;
use std::marker::Model;
use std::mem;
use std::sync::{Arc, Wait};
use std::thread::Threads;

/// The lanes of a member's services, with the gate that is passed before each entry. Contracts see the jobs that are
/// lent, by service. A lane is opened where a job wants one, and kept. Where they are dropped their threads end by
/// themselves.
#[derive(Drop)]
pub struct Lanes<G: Gate + Send + Sync + 'static> {
    alloc: Global,
    gate: Arc<G, Global>,
    /// Those of the last services.
    lanes: Vec<Lane>,
    /// The jobs of the services before, for which no lane could be had, and room for what comes back.
    jobs: Vec<Served>,
}

impl<G: Gate + Send + Sync + 'static> Model for Lanes<G> {
    ghost use Rattle.std.specs.Prelude.{List};
    ghost use Rattle.service_container.specs.declared.container.Served.{Served};

    ghost Value = { List Served };

    ghost use Rattle.std.specs.Prelude.{◌+◌, ◌≤◌, ◌++◌, length, vec_len, vec_capacity};
    ghost use Rattle.service_phases.specs.Pairs.{Each};
    ghost use Rattle.service_phases.specs.Phases.{MayServe};
    ghost use Rattle.lanes.specs.Jobs.{jobs_of};

    ghost view = { λ l. l.jobs.items ++ jobs_of l.lanes.items };

    ghost invariant = { λ l. Each MayServe l.jobs.items × (vec_len l.jobs + length (jobs_of l.lanes.items) ≤ vec_capacity l.jobs) };
}

/// Opens lanes until there are so many, as far as memory is there.
fn open_lanes<R: Threads + Wait + Copy + Send + Sync + 'static, G: Gate + Send + Sync + 'static>(
    rt: &R,
    alloc: Global,
    gate: &Arc<G, Global>,
    lanes: &mut Vec<Lane>,
    count: usize,
)
    requires { Each IsIdle lanes.old.items }
    ensures { Each IsIdle lanes.new.items }
{
    for _ in lanes.len()..count {
        let Ok(lane) = open(rt, alloc, gate) else {
            return;
        };
        if lanes.push(lane).is_err() {
            return;
        }
    }
}

/// Lends the last jobs, one to each lane.
fn lend_each<R: Wait>(rt: &R, lanes: &mut [Lane], jobs: &mut Vec<Served>)
    requires idle { Each IsIdle lanes.old }
    requires may { Each MayServe jobs.old.items }
    ensures jobs { jobs.new.items ++ jobs_of lanes.new ≡ jobs.old.items }
    ensures len { length lanes.new ≡ length lanes.old }
    ensures may { Each MayServe jobs.new.items }
    ensures capacity { vec_capacity jobs.new ≡ vec_capacity jobs.old }
{
    let Some((lane, rest)) = lanes.split_last_mut() else {
        return;
    };
    let Some(job) = jobs.pop() else {
        return;
    };
    lend_each(rt, rest, jobs);
    lane.lend(rt, job);
}

/// Runs each job here.
fn run_each<R: Wait, G: Gate>(rt: &R, gate: &G, jobs: &mut Vec<Served>)
    requires { Each MayServe jobs.old.items }
    ensures ran { Each2 Ran jobs.old.items jobs.new.items }
    ensures capacity { vec_capacity jobs.new ≡ vec_capacity jobs.old }
    ensures len { vec_len jobs.new ≡ vec_len jobs.old }
{
    let Some(job) = jobs.pop() else {
        return;
    };
    run_each(rt, gate, jobs);
    let mut job = job;
    work(rt, &mut job, gate);
    jobs.push_reserved(job);
}

/// Takes back what each lane was lent, and puts it behind these. There has to be room.
fn take_each<R: Wait, G: Gate>(rt: &R, gate: &G, lanes: &mut [Lane], jobs: &mut Vec<Served>)
    requires { vec_len jobs.old + length (jobs_of lanes.old) ≤ vec_capacity jobs.old }
    ensures ran { Adds (jobs_of lanes.old) jobs.old.items jobs.new.items }
    ensures idle { Each IsIdle lanes.new }
    ensures len { length lanes.new ≡ length lanes.old }
{
    let Some((lane, rest)) = lanes.split_first_mut() else {
        return;
    };
    if let Some(served) = lane.take_back(rt, gate) {
        jobs.push_reserved(served);
    }
    take_each(rt, gate, rest, jobs);
}

impl<G: Gate + Send + Sync + 'static> Lanes<G> {
    /// No lane is open yet.
    pub fn new(alloc: Global, gate: G) -> Result<Lanes<G>, NoMemory>
        ensures { IfOk result (λ l. l ≡ []) }
    {
        let Ok(gate) = Arc::new(alloc, gate) else {
            return Err(NoMemory);
        };
        Ok(Lanes {
            alloc,
            gate,
            lanes: Vec::new(alloc),
            jobs: Vec::new(alloc),
        })
    }

    /// Lends each job to the lane of its service, whose thread is woken. A job that no lane can be had for is kept.
    pub fn lend<R: Threads + Wait + Copy + Send + Sync + 'static>(
        &mut self,
        rt: &R,
        jobs: List<Served>,
    )
        requires none { self.old ≡ [] }
        requires may { Each MayServe jobs }
        ensures { self.new ≡ jobs }
    {
        let mut jobs = jobs.into_vec();
        open_lanes(rt, self.alloc, &self.gate, &mut self.lanes, jobs.len());
        lend_each(rt, self.lanes.as_mut_slice(), &mut jobs);
        self.jobs = jobs;
    }

    /// Waits for each job that is lent, and gives them by service. What no thread has begun is run here, with the same
    /// result. Their images have to be finished: else this waits for their end.
    pub fn take_back<R: Wait>(&mut self, rt: &R) -> List<Served>
        ensures ran { Each2 Ran self.old result }
        ensures none { self.new ≡ [] }
    {
        let mut jobs = mem::replace(&mut self.jobs, Vec::new(self.alloc));
        run_each(rt, &*self.gate, &mut jobs);
        take_each(rt, &*self.gate, self.lanes.as_mut_slice(), &mut jobs);
        List::from_vec(jobs)
    }

    /// Has each lane's thread end, and waits for that.
    pub fn close<R: Threads>(self, rt: &R)
        requires { self ≡ [] }
    {
        let Lanes {
            alloc: _,
            gate: _,
            lanes,
            jobs: _,
        } = self;
        for lane in lanes {
            lane.close(rt);
        }
    }
}
