// A thread that serves one job after the other.
ghost use Rattle.std.specs.Prelude.{◌≡◌, true, Option, None, Some, IfOk, IfSome, MatchOption};
ghost use Rattle.std.specs.Arc.{arc_value};
ghost use Rattle.crossbeam_queue.specs.Passes.{view, IsPassOf, ruled_capacity};
ghost use Rattle.service_container.specs.declared.container.Served.{Served as Work};
ghost use Rattle.service_phases.specs.Phases.{MayServe, Ran};
ghost use Rattle.lanes.specs.Lent.{Stands, StandsFor};

use crate::job::Job;
use crate::rule::{GivesBack, Lends, Line, LinePass, Message, Roles, Takes, TakesBack};
use cl_base::NoMemory;
use service_container::{Gate, Served};
use std::alloc::Global;
use std::marker::Model;
use std::sync::atomic::{AtomicBool, Ordering};
use std::sync::{Arc, Wait};
use std::thread;
use std::thread::{JoinHandle, Parker, Threads};

/// What a lane's driver and its thread share.
#[derive(Drop)]
pub struct Shared {
    pub(crate) queue: Line,
    /// The lane's thread sleeps on it.
    worker: Parker,
    /// The driver sleeps on it.
    driver: Parker,
    /// The thread is to end.
    stop: AtomicBool,
    ghost one: { ruled_capacity queue ≡ 1 },
}

impl Shared {
    fn new(queue: Line) -> Shared
        requires { ruled_capacity queue ≡ 1 }
        ensures { result.queue ≡ queue }
    {
        Shared {
            queue,
            worker: Parker::new(),
            driver: Parker::new(),
            stop: AtomicBool::new(false),
        }
    }

    // Has the thread end, when it has served what it took.
    fn stop(&self) {
        self.stop.store(true, Ordering::SeqCst);
        self.worker.unpark();
    }
}

/// A thread and the job that it was lent, if it was. Contracts see it as that job. Where a lane is dropped its thread ends
/// by itself.
pub struct Lane {
    shared: Arc<Shared, Global>,
    pass: LinePass,
    is_lent: bool,
    /// None where no thread could be started: then the driver runs what is lent.
    thread: Option<JoinHandle<()>>,
}

impl Model for Lane {
    ghost use Rattle.std.specs.Prelude.{Option};
    ghost use Rattle.service_container.specs.declared.container.Served.{Served};

    ghost Value = { Option Served };

    ghost use Rattle.lanes.specs.Inside.{job_lent, IsLane};

    ghost view = { job_lent };

    ghost invariant = { IsLane };
}

impl Drop for Lane {
    fn drop(self) {
        let Lane {
            shared,
            pass,
            is_lent: _,
            thread,
        } = self;
        shared.stop();
        drop(shared);
        drop(pass);
        drop(thread);
    }
}

/// What becomes of a message that a lane's thread takes.
fn answer<R: Wait, G: Gate>(rt: &R, message: Message, gate: &G) -> Message
    ensures { (j : Work) → Stands j message → Stands j result }
{
    match message {
        Message::Job(job) => Message::Done(job.run(rt, gate)),
        Message::Done(done) => Message::Done(done),
    }
}

/// Serves what is in the queue. False where nothing is.
fn work_once<R: Wait, G: Gate>(rt: &R, shared: &Shared, gate: &G, pass: &mut LinePass) -> bool
    requires pass { IsPassOf shared.now.queue pass.old }
    requires works { (view pass.old).works ≡ true }
    requires idle { (view pass.old).has ≡ None }
    ensures pass { IsPassOf shared.now.queue pass.new }
    ensures works { (view pass.new).works ≡ true }
    ensures idle { (view pass.new).has ≡ None }
{
    let Some(message) = shared.queue.try_pop_as::<Takes>(pass) else {
        return false;
    };
    let back = answer(rt, message, gate);
    let Ok(()) = shared.queue.push_as::<GivesBack, R>(rt, pass, back) else {
        unreachable!()
    };
    true
}

/// A lane's thread: it serves what it is lent each time that it is woken, until the lane is dropped.
fn work<R: Wait, G: Gate>(
    rt: R,
    shared: Arc<Shared, Global>,
    gate: Arc<G, Global>,
    mut pass: LinePass,
)
where
    R: Drop,
    requires pass { IsPassOf (arc_value shared).queue pass }
    requires works { (view pass).works ≡ true }
    requires idle { (view pass).has ≡ None }
{
    let here: &Shared = &shared;
    let gate: &G = &gate;
    for _ in rt.forever() {
        if work_once(&rt, here, gate, &mut pass) {
            here.driver.unpark();
        }
        if here.stop.load(Ordering::SeqCst) {
            return;
        }
        here.worker.park(&rt);
    }
    unreachable!()
}

/// A lane with nothing lent, and its thread where one can be started. The gate is passed before each entry.
pub fn open<R: Threads + Wait + Copy + Send + Sync + 'static, G: Gate + Send + Sync + 'static>(
    rt: &R,
    alloc: Global,
    gate: &Arc<G, Global>,
) -> Result<Lane, NoMemory>
    ensures { IfOk result (λ l. l ≡ None) }
{
    let (queue, mut pass) = Line::ruled(alloc, 1)?;
    let their_pass = queue.another::<Roles>(&mut pass);
    let Ok(shared) = Arc::new(alloc, Shared::new(queue)) else {
        return Err(NoMemory);
    };
    let theirs = Arc::try_clone(&shared)?;
    let gate = Arc::try_clone(gate)?;
    let on = *rt;
    let child = thread::spawn(
        rt,
        move ||
            requires { IsPassOf (arc_value theirs).queue their_pass × ((view their_pass).works ≡ true) × ((view their_pass).has ≡ None) }
        { work(on, theirs, gate, their_pass) },
    );
    Ok(Lane {
        shared,
        pass,
        is_lent: false,
        thread: child.ok(),
    })
}

impl Lane {
    /// Lends a job, and wakes the thread.
    pub fn lend<R: Wait>(&mut self, rt: &R, job: Served)
        requires none { self.old ≡ None }
        requires may { MayServe job }
        ensures { self.new ≡ Some job }
    {
        let lent = Job::new(job);
        let Ok(()) = self
            .shared
            .queue
            .push_as::<Lends, R>(rt, &mut self.pass, Message::Job(lent))
        else {
            unreachable!()
        };
        self.is_lent = true;
        self.shared.worker.unpark();
    }

    // Takes what is in the queue, if anything is.
    fn try_back(&mut self) -> Option<Message>
        ensures some { IfSome result (λ m. StandsFor self.old m × (self.new ≡ None)) }
        ensures none { result ≡ None → self.new ≡ self.old }
    {
        let message = self.shared.queue.try_pop_as::<TakesBack>(&mut self.pass)?;
        self.is_lent = false;
        Some(message)
    }

    // Waits until what is lent is in the queue.
    fn wait_back<R: Wait>(&mut self, rt: &R) -> Message
        ensures { StandsFor self.old result × (self.new ≡ None) }
    {
        for _ in rt.forever() {
            if let Some(message) = self.try_back() {
                return message;
            }
            self.shared.driver.park(rt);
        }
        unreachable!()
    }

    /// Waits for what was lent, if anything was. Where the thread hasn't begun, it is run here. Its image has to be
    /// finished: else this waits for the end.
    pub fn take_back<R: Wait, G: Gate>(&mut self, rt: &R, gate: &G) -> Option<Served>
        ensures ran { MatchOption result (self.old ≡ None) (λ s. (j : Work) × (self.old ≡ Some j) × Ran j s) }
        ensures none { self.new ≡ None }
    {
        if !self.is_lent {
            return None;
        }
        match self.wait_back(rt) {
            Message::Job(job) => Some(job.run(rt, gate)),
            Message::Done(done) => Some(done),
        }
    }

    /// Has the thread end, and waits for that. What is lent ends first, and is lost.
    pub fn close<R: Threads>(self, rt: &R) {
        let Lane {
            shared,
            pass: _,
            is_lent: _,
            thread,
        } = self;
        shared.stop();
        if let Some(thread) = thread {
            thread.join(rt);
        }
    }
}
