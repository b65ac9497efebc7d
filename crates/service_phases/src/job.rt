// A job of a service: its container, run at its image.
ghost use Rattle.service_phases.specs.Phases.{MayServe, Ran};

use service_container::{Gate, Served};
use std::sync::Wait;

/// Runs a job, until its image ends or memory runs out.
pub fn work<R: Wait, G: Gate>(rt: &R, job: &mut Served, gate: &G)
    requires { MayServe job.old }
    ensures { Ran job.old job.new }
{
    job.end = job.container.run(rt, &mut job.poller, gate);
}
