// One member of a run, with its disk.
ghost use Rattle.std.specs.Prelude.{◌≡◌, ◌≤◌, ◌^◌, [], Bool, true, false, map, IfErr, IfOk, OnOk};
ghost use Rattle.run_orders.specs.Stands.{Down, Up, UpSeen};
ghost use Rattle.run_seats.specs.Seats.{ended_seen};
ghost use Rattle.run_seats.specs.Failed.{NotMemory};
ghost use Rattle.run_seats.specs.Steps.{Crashed, CrashedTo};

use crate::asking::{Asking, Call};
use crate::ended::{ServiceRun, ended_run};
use crate::mounted::Mounted;
use crate::running::{Running, start};
use crate::site::{MemberId, Site};
use crate::stopped::{Failed, Stopped};
use cl_base::{Bytes, Choice, Disk, List, MemberFault, NoMemory};
use cluster_backup::decode_backup;
use ingress::Outcome;
use run_outside::Outside;
use run_report::Reply;
use std::alloc::Global;
use std::marker::Model;
use std::mem;
use std::sync::Wait;
use std::thread::Threads;
use wire_prims::DecodeFault;

/// Where a member's disk is.
#[derive(Drop)]
enum Home<D: Disk> {
    /// The member runs.
    Up(Running<D>),
    /// The member is stopped.
    Down(D),
    /// For a moment, while it is changed.
    Taken,
}

/// What became of a step of a member.
#[derive(Clone, Copy, Debug, PartialEq, Eq)]
pub enum Took {
    /// The member is stopped, and wasn't asked.
    Down,
    /// It was taken. A client and an operator get an outcome.
    Taken(Option<Outcome>),
    /// The member's disk failed, or holds bytes that are none of its own: it was stopped at once.
    Stopped,
}

/// One member of a run, with its disk. Contracts see its number and its place; no home while its disk is taken to be read.
#[derive(Drop)]
pub struct Seat<D: Disk> {
    id: MemberId,
    home: Home<D>,
    /// What the crash after a failing call leaves.
    choice: Choice,
    /// How often it was started.
    run: u64,
    /// What the services of its ended runs consumed, by run and service.
    ended: Vec<ServiceRun>,
}

impl<D: Disk> Model for Seat<D> {
    ghost use Rattle.std.specs.Prelude.{map};
    ghost use Rattle.run_seats.specs.Seats.{SeatHeld, ended_seen, home_of};

    ghost Value = { SeatHeld D };

    ghost view = { λ s. record { member = s.id.member; home = home_of s.home; choice = s.choice; ended = map ended_seen s.ended.items } };
}

impl<D: Disk + Drop> Seat<D> {
    /// A stopped member on this disk.
    pub fn new(alloc: Global, id: MemberId, disk: D) -> Seat<D>
        ensures { result ≡ record { member = id.member; home = Some (Down disk); choice = Choice.Keep; ended = [] } }
    {
        Seat {
            id,
            home: Home::Down(disk),
            choice: Choice::Keep,
            run: 0,
            ended: Vec::new(alloc),
        }
    }

    /// The member's number, 0 to 4.
    pub fn member(&self) -> u8
        ensures { result ≡ self.now.member }
    {
        self.id.member
    }

    /// How often it was started.
    pub fn run(&self) -> u64 {
        self.run
    }

    /// What the services of its ended runs consumed, by run and service.
    pub fn ended(&self) -> &[ServiceRun]
        ensures { map ended_seen result.now ≡ self.now.ended }
    {
        self.ended.as_slice()
    }

    /// The member, where it runs.
    pub fn running(&self) -> Option<&Running<D>> {
        match &self.home {
            Home::Up(running) => Some(running),
            _ => None,
        }
    }

    /// Mounts the disk of a member that is stopped; None where it runs. The caller gives the mounted disk to `unmount`.
    pub fn mount(&mut self, site: &Site) -> Option<Result<Mounted<D>, MemberFault>> {
        let disk = self.take_disk()?;
        match Mounted::mount(site, disk) {
            Ok(mounted) => Some(Ok(mounted)),
            Err((disk, fault)) => {
                self.home = Home::Down(disk);
                Some(Err(fault))
            }
        }
    }

    /// The disk of a member that is stopped comes back, as it stands.
    pub fn unmount(&mut self, mounted: Mounted<D>) {
        self.home = Home::Down(mounted.into_disk());
    }

    /// The member stops: all that isn't on its disk is gone, and a crash leaves of the disk what the choice says.
    fn crash(&mut self, alloc: Global, stopped: Stopped<D>, choice: Choice) -> Result<(), NoMemory>
        ensures { OnOk result (Crashed D.state D.tells D.is_honest choice stopped.member.seen self.old self.new) }
    {
        let kept = stopped.keep_inputs(alloc, self.run, &mut self.ended);
        self.rest(stopped.into_disk(), choice);
        kept
    }

    /// Takes a member that runs out of its seat. The caller puts what becomes of it back.
    fn take_running(&mut self) -> Option<Running<D>>
        ensures up { (u : UpSeen D) (going : Bool) → self.old.home ≡ Some (Up u going) → (result ≡ Some (record { member = u; going = going })) × (self.new ≡ record self.old { home = None }) }
        ensures down { (disk : D) → self.old.home ≡ Some (Down disk) → (result ≡ None) × (self.new ≡ self.old) }
    {
        match mem::replace(&mut self.home, Home::Taken) {
            Home::Up(running) => Some(running),
            home => {
                self.home = home;
                None
            }
        }
    }

    /// Takes the disk of a member that is stopped out of its seat. The caller puts what becomes of it back.
    fn take_disk(&mut self) -> Option<D>
        ensures up { (u : UpSeen D) (going : Bool) → self.old.home ≡ Some (Up u going) → (result ≡ None) × (self.new ≡ self.old) }
        ensures down { (disk : D) → self.old.home ≡ Some (Down disk) → (result ≡ Some disk) × (self.new ≡ record self.old { home = None }) }
    {
        match mem::replace(&mut self.home, Home::Taken) {
            Home::Down(disk) => Some(disk),
            home => {
                self.home = home;
                None
            }
        }
    }

    /// A member that runs stops at rest, and the answer is true.
    pub fn stop<R: Threads + Wait + Copy + Send + Sync + 'static>(
        &mut self,
        rt: &R,
        alloc: Global,
    ) -> Result<bool, NoMemory>
        ensures up { (u : UpSeen D) → self.old.home ≡ Some (Up u false) → IfOk result (λ stopped. (stopped ≡ true) × Crashed D.state D.tells D.is_honest Choice.Keep u self.old self.new) }
        ensures down { (disk : D) → self.old.home ≡ Some (Down disk) → (result ≡ Ok false) × (self.new ≡ self.old) }
    {
        let Some(running) = self.take_running() else {
            return Ok(false);
        };
        self.crash(alloc, running.stop(rt), Choice::Keep)?;
        Ok(true)
    }

    /// A member that a call failed under stops. Where memory was wanted, the run is given up.
    fn fail(&mut self, alloc: Global, failed: Failed<D>) -> Result<Took, NoMemory>
        ensures { IfOk result (λ took. (took ≡ Took.Stopped) × NotMemory failed.fault × Crashed D.state D.tells D.is_honest self.old.choice failed.member.seen self.old self.new) }
    {
        if failed.wants_memory() {
            self.home = Home::Down(failed.stop().into_disk());
            return Err(NoMemory);
        }
        self.crash(alloc, failed.stop(), self.choice)?;
        Ok(Took::Stopped)
    }

    /// A member's step is done, or the member failed under it.
    fn settle(
        &mut self,
        alloc: Global,
        stepped: Result<Running<D>, Failed<D>>,
    ) -> Result<Took, NoMemory>
        ensures done { IfOk stepped (λ r. (result ≡ Ok (Took.Taken None)) × (self.new ≡ record self.old { home = Some (Up r.member r.going) })) }
        ensures failed { IfErr stepped (λ f. IfOk result (λ took. (took ≡ Took.Stopped) × NotMemory f.fault × Crashed D.state D.tells D.is_honest self.old.choice f.member.seen self.old self.new)) }
    {
        match stepped {
            Ok(running) => {
                self.home = Home::Up(running);
                Ok(Took::Taken(None))
            }
            Err(failed) => self.fail(alloc, failed),
        }
    }

    /// Asks a member that runs, `now` in ms.
    pub fn ask<R: Threads + Wait + Copy + Send + Sync + 'static>(
        &mut self,
        rt: &R,
        outside: &mut Outside,
        asking: Asking<'_>,
        now: u64,
    ) -> Result<Took, NoMemory>
        requires { now ≤ 2 ^ 60 }
        ensures { (disk : D) → self.old.home ≡ Some (Down disk) → (result ≡ Ok Took.Down) × (self.new ≡ self.old) × (outside.new ≡ outside.old) }
    {
        let Some(running) = self.take_running() else {
            return Ok(Took::Down);
        };
        let call = Call {
            member: self.id.member,
            now,
            asking,
        };
        match running.ask(rt, outside, call) {
            Ok((running, outcome)) => {
                self.home = Home::Up(running);
                Ok(Took::Taken(outcome))
            }
            Err(failed) => self.fail(outside.alloc, failed),
        }
    }

    /// A backup's packet reaches the member. One that is stopped drops it.
    pub fn answer<R: Threads + Wait + Copy + Send + Sync + 'static>(
        &mut self,
        rt: &R,
        alloc: Global,
        bytes: &[u8],
    ) -> Result<(Took, List<Bytes>), NoMemory> {
        let query = match decode_backup(alloc, bytes) {
            Ok(query) => query,
            Err(DecodeFault::Bad(_)) => return Ok((Took::Taken(None), List::new(alloc))),
            Err(DecodeFault::NoMemory) => return Err(NoMemory),
        };
        let Some(running) = self.take_running() else {
            return Ok((Took::Down, List::new(alloc)));
        };
        match running.answer(rt, alloc, &query) {
            Ok((running, packets)) => {
                self.home = Home::Up(running);
                Ok((Took::Taken(None), packets))
            }
            Err(failed) => Ok((self.fail(alloc, failed)?, List::new(alloc))),
        }
    }

    /// A member that runs has a whole phase, unless one of it goes on.
    pub fn phase<R: Threads + Wait + Copy + Send + Sync + 'static>(
        &mut self,
        rt: &R,
        outside: &mut Outside,
    ) -> Result<Took, NoMemory>
        ensures { (disk : D) → self.old.home ≡ Some (Down disk) → (result ≡ Ok Took.Down) × (self.new ≡ self.old) × (outside.new ≡ outside.old) }
    {
        let Some(running) = self.take_running() else {
            return Ok(Took::Down);
        };
        let stepped = running.phase(rt, outside);
        self.settle(outside.alloc, stepped)
    }

    /// A phase of a member that runs begins, and goes on over its calls.
    pub fn begin<R: Threads + Wait + Copy + Send + Sync + 'static>(
        &mut self,
        rt: &R,
        alloc: Global,
    ) -> Result<Took, NoMemory> {
        let Some(running) = self.take_running() else {
            return Ok(Took::Down);
        };
        let stepped = running.begin(rt, alloc);
        self.settle(alloc, stepped)
    }

    /// The phase of a member that goes on ends, and its records are sent.
    pub fn end<R: Threads + Wait + Copy + Send + Sync + 'static>(
        &mut self,
        rt: &R,
        outside: &mut Outside,
    ) -> Result<Took, NoMemory> {
        let Some(running) = self.take_running() else {
            return Ok(Took::Down);
        };
        let stepped = running.end(rt, outside);
        self.settle(outside.alloc, stepped)
    }

    /// What a member that runs has committed is printed.
    pub fn print(&self, outside: &mut Outside) -> Result<(), NoMemory>
        ensures net { outside.new.net ≡ outside.old.net }
        ensures egress { outside.new.egress ≡ outside.old.egress }
    {
        match &self.home {
            Home::Up(running) => running.print(outside),
            _ => Ok(()),
        }
    }

    /// The disk is at rest after a crash, which clears its fuse.
    fn rest(&mut self, disk: D, choice: Choice)
        ensures { (d : D) × CrashedTo D.state D.tells D.is_honest choice disk d × (self.new ≡ record self.old { home = Some (Down d); choice = Choice.Keep }) }
    {
        let mut disk = disk;
        disk.crash(choice);
        self.choice = Choice::Keep;
        self.home = Home::Down(disk);
    }

    /// The member couldn't be started, or its disk not be mounted.
    fn fall_back(&mut self, disk: D, fault: MemberFault) -> Result<Reply, NoMemory> {
        match fault {
            MemberFault::Device | MemberFault::LogFull { .. } => {
                self.rest(disk, self.choice);
                Ok(Reply::Given(Outcome::Device))
            }
            MemberFault::Damaged { file, place } => {
                self.home = Home::Down(disk);
                Ok(Reply::Damaged { file, place })
            }
            MemberFault::NoMemory => {
                self.home = Home::Down(disk);
                Err(NoMemory)
            }
        }
    }

    /// The member starts, `now` in ms.
    pub fn start(&mut self, site: &Site, now: u64) -> Result<Reply, NoMemory> {
        let Some(disk) = self.take_disk() else {
            return Ok(Reply::Running);
        };
        match start(site, self.id, disk, now) {
            Ok(running) => {
                self.run = self.run.saturating_add(1);
                self.home = Home::Up(running);
                Ok(Reply::Fine)
            }
            Err((disk, fault)) => self.fall_back(disk, fault),
        }
    }

    /// The latest valid snapshot of a stopped member goes.
    pub fn invalidate(&mut self, site: &Site) -> Result<Reply, NoMemory> {
        let Some(disk) = self.take_disk() else {
            return Ok(Reply::Running);
        };
        match Mounted::mount(site, disk) {
            Ok(mounted) => self.strike(mounted),
            Err((disk, fault)) => self.fall_back(disk, fault),
        }
    }

    fn strike(&mut self, mounted: Mounted<D>) -> Result<Reply, NoMemory> {
        match mounted.strike() {
            Ok((disk, struck)) => {
                self.home = Home::Down(disk);
                Ok(if struck {
                    Reply::Fine
                } else {
                    Reply::NoSnapshot
                })
            }
            Err((disk, fault)) => self.fall_back(disk, fault),
        }
    }

    /// The disk lets so many changing calls pass, and the crash that follows leaves what the choice says.
    pub fn set_fuse(&mut self, calls: u64, choice: Choice) {
        self.home = match mem::replace(&mut self.home, Home::Taken) {
            Home::Up(running) => Home::Up(running.fuse(calls)),
            Home::Down(disk) => {
                let mut disk = disk;
                disk.fuse(calls);
                Home::Down(disk)
            }
            Home::Taken => Home::Taken,
        };
        self.choice = choice;
    }

    /// The disk as it stands. A phase that goes on is dropped.
    pub fn into_disk<R: Threads + Wait + Copy + Send + Sync + 'static>(
        self,
        rt: &R,
    ) -> Result<D, NoMemory> {
        let Seat {
            id: _,
            home,
            choice: _,
            run: _,
            ended: _,
        } = self;
        match home {
            Home::Up(running) => Ok(running.stop(rt).into_disk()),
            Home::Down(disk) => Ok(disk),
            Home::Taken => Err(NoMemory),
        }
    }
}
