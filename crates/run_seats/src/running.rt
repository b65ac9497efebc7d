// A running member, between its phases or in one that goes on.
ghost use Rattle.std.specs.Prelude.{◌≡◌, true, false, Ok, IfOk, OnOk, slice_get};
ghost use Rattle.consensus_agent.specs.Consumed.{inputs_of};
ghost use Rattle.cluster_backup.specs.Spelling.{HasSpelling};
ghost use Rattle.member_phases.specs.Calls.{PhaseCut};
ghost use Rattle.run_seats.specs.Asked.{Asked, Cut, with_printed};
ghost use Rattle.run_seats.specs.Failed.{IfFailed};
ghost use Rattle.run_seats.specs.Phased.{Phased};
ghost use Rattle.run_seats.specs.Running.{going_seen, idle_seen};
ghost use Rattle.run_seats.specs.Seen.{IsFused, IsLooked};

use crate::asking::Call;
use crate::going::Going;
use crate::idle::Idle;
use crate::member::{Member, Shown};
use crate::site::{MemberId, Site};
use crate::stopped::{Failed, Stopped};
use cl_base::{Bytes, Disk, Entry, List, MemberFault, NoMemory};
use cluster_backup::BackupPacket;
use ingress::Outcome;
use lanes::Lanes;
use run_outside::Outside;
use service_container::NoGate;
use std::alloc::Global;
use std::marker::Model;
use std::sync::Wait;
use std::thread::Threads;

/// A running member, between its phases or in one.
#[derive(Drop)]
enum State<D: Disk> {
    Idle(Idle<D>),
    Going(Going<D>),
}

/// A running member. Contracts see of it what stands to the world of a run, and whether a phase goes on.
#[derive(Drop)]
pub struct Running<D: Disk> {
    state: State<D>,
}

impl<D: Disk> Model for Running<D> {
    ghost use Rattle.run_seats.specs.Running.{RunningSeen, running_of};

    ghost Value = { RunningSeen D };

    ghost view = { λ r. running_of r.state };
}

impl<D: Disk> Running<D> {
    fn idle(idle: Idle<D>) -> Running<D>
        ensures { result ≡ idle_seen idle }
    {
        Running {
            state: State::Idle(idle),
        }
    }

    fn going(going: Going<D>) -> Running<D>
        ensures { result ≡ going_seen going }
    {
        Running {
            state: State::Going(going),
        }
    }

    fn member(&self) -> &Member<D>
        ensures { result.now.seen ≡ self.now.member }
    {
        match &self.state {
            State::Idle(idle) => &idle.member,
            State::Going(going) => &going.member,
        }
    }

    /// What is told of it.
    pub fn shown(&self) -> Shown<'_> {
        self.member().shown()
    }

    /// How many services it has.
    pub fn services(&self) -> u8 {
        self.member().services()
    }

    /// The entries of the snapshot from which its services began.
    pub fn base(&self) -> u64
        ensures { result ≡ self.now.member.base }
    {
        self.member().base()
    }

    /// What a service consumed; nothing while a phase goes on.
    pub fn inputs(&self, service: u8) -> &[Entry]
        ensures { result.now ≡ inputs_of (slice_get self.now.member.lending.kept service) }
    {
        self.member().inputs(service)
    }

    /// What it has committed is printed.
    pub(crate) fn print(&self, outside: &mut Outside) -> Result<(), NoMemory>
        ensures printed { OnOk result (outside.new.printed ≡ with_printed self.now.member outside.old.printed) }
        ensures net { outside.new.net ≡ outside.old.net }
        ensures egress { outside.new.egress ≡ outside.old.egress }
    {
        self.member().print(outside)
    }

    /// Calls the member. A client and an operator get an outcome.
    pub(crate) fn ask<R: Threads + Wait + Copy + Send + Sync + 'static>(
        self,
        rt: &R,
        outside: &mut Outside,
        call: Call<'_>,
    ) -> Result<(Running<D>, Option<Outcome>), Failed<D>>
        ensures going { IfOk result (λ r. r.0.going ≡ self.going) }
        ensures asked { self.going ≡ false → IfOk result (λ r. Asked D.state D.tells D.is_honest call.entry.member call.entry.now call.entry.asking self.member r.0.member r.1 outside.old outside.new) }
        ensures cut { self.going ≡ false → IfFailed result (λ v. Cut D.state D.tells D.is_honest call.entry.now call.entry.asking self.member v outside.old outside.new) }
    {
        match self.state {
            State::Idle(idle) => {
                let (idle, outcome) = idle.ask(outside, call)?;
                Ok((Running::idle(idle), outcome))
            }
            State::Going(going) => {
                let (going, outcome) = going.ask(rt, outside, call)?;
                Ok((Running::going(going), outcome))
            }
        }
    }

    /// Answers a backup's packet.
    pub(crate) fn answer<R: Threads + Wait + Copy + Send + Sync + 'static>(
        self,
        rt: &R,
        alloc: Global,
        query: &BackupPacket,
    ) -> Result<(Running<D>, List<Bytes>), Failed<D>>
        requires { HasSpelling query.now }
        ensures going { IfOk result (λ r. r.0.going ≡ self.going) }
        ensures looked { IfOk result (λ r. IsLooked self.member r.0.member) }
        ensures failed { self.going ≡ false → IfFailed result (λ v. IsLooked self.member v) }
    {
        match self.state {
            State::Idle(idle) => {
                let (idle, packets) = idle.answer(alloc, query)?;
                Ok((Running::idle(idle), packets))
            }
            State::Going(going) => {
                let (going, packets) = going.answer(rt, alloc, query)?;
                Ok((Running::going(going), packets))
            }
        }
    }

    /// A whole phase, unless one goes on.
    pub(crate) fn phase<R: Threads + Wait + Copy + Send + Sync + 'static>(
        self,
        rt: &R,
        outside: &mut Outside,
    ) -> Result<Running<D>, Failed<D>>
        ensures going { IfOk result (λ r. r.going ≡ self.going) }
        ensures phased { self.going ≡ false → IfOk result (λ r. Phased D.state D.tells D.is_honest self.member r.member outside.old outside.new) }
        ensures cut { self.going ≡ false → IfFailed result (λ v. PhaseCut D.state D.tells D.is_honest self.member v × (outside.new ≡ outside.old)) }
        ensures goes_on { self.going ≡ true → (result ≡ Ok self) × (outside.new ≡ outside.old) }
    {
        match self.state {
            State::Idle(idle) => Ok(Running::idle(idle.phase(rt, outside)?)),
            state => Ok(Running { state }),
        }
    }

    /// A phase begins that goes on over the calls that follow, unless one goes on.
    pub(crate) fn begin<R: Threads + Wait + Copy + Send + Sync + 'static>(
        self,
        rt: &R,
        alloc: Global,
    ) -> Result<Running<D>, Failed<D>>
        ensures going { IfOk result (λ r. r.going ≡ true) }
        ensures goes_on { self.going ≡ true → result ≡ Ok self }
    {
        match self.state {
            State::Idle(idle) => Ok(Running::going(idle.begin(rt, alloc)?)),
            state => Ok(Running { state }),
        }
    }

    /// The phase that goes on ends, where one does.
    pub(crate) fn end<R: Threads + Wait + Copy + Send + Sync + 'static>(
        self,
        rt: &R,
        outside: &mut Outside,
    ) -> Result<Running<D>, Failed<D>>
        ensures going { IfOk result (λ r. r.going ≡ false) }
        ensures rests { self.going ≡ false → (result ≡ Ok self) × (outside.new ≡ outside.old) }
    {
        match self.state {
            State::Going(going) => Ok(Running::idle(going.end(rt, outside)?)),
            state => Ok(Running { state }),
        }
    }

    /// Lets so many changing calls of the member's disk pass.
    pub(crate) fn fuse(self, calls: u64) -> Running<D>
        ensures going { result.going ≡ self.going }
        ensures fused { IsFused D.state D.tells D.is_honest calls self.member result.member }
    {
        match self.state {
            State::Idle(Idle { member, lanes }) => {
                let mut member = member;
                member.fuse(calls);
                Running::idle(Idle { member, lanes })
            }
            State::Going(Going { member, phase }) => {
                let mut member = member;
                member.fuse(calls);
                Running::going(Going { member, phase })
            }
        }
    }

    /// The member, which stops. A phase that goes on is dropped.
    pub(crate) fn stop<R: Threads + Wait + Copy + Send + Sync + 'static>(self, rt: &R) -> Stopped<D>
        ensures { self.going ≡ false → result.member.seen ≡ self.member }
    {
        match self.state {
            State::Idle(Idle { member, lanes }) => {
                lanes.close(rt);
                Stopped { member }
            }
            State::Going(Going { member, phase }) => {
                let mut member = member;
                member.drop_phase(rt, phase);
                Stopped { member }
            }
        }
    }
}

/// A member starts from its disk, with the services of all.
pub(crate) fn start<D: Disk>(
    site: &Site,
    id: MemberId,
    disk: D,
    now: u64,
) -> Result<Running<D>, (D, MemberFault)> {
    let Ok(lanes) = Lanes::new(site.alloc, NoGate) else {
        return Err((disk, MemberFault::NoMemory));
    };
    match Member::mount(site, id, disk, now) {
        Ok(member) => Ok(Running::idle(Idle { member, lanes })),
        Err(back) => Err(back),
    }
}
