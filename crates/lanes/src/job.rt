// What is lent to a lane.
ghost use Rattle.std.specs.Prelude.{◌≡◌};
ghost use Rattle.service_phases.specs.Phases.{MayServe, Ran};

use service_container::{Gate, Served};
use service_phases::work;
use std::sync::Wait;

/// A container and a poller that stands where the container does.
#[derive(Drop)]
pub struct Job {
    pub served: Served,
    ghost may: { MayServe served },
}

impl Job {
    pub fn new(served: Served) -> Job
        requires { MayServe served }
        ensures { result.served ≡ served }
    {
        Job { served }
    }

    /// Runs it, whoever's thread this is, until its image ends or memory runs out.
    pub fn run<R: Wait, G: Gate>(self, rt: &R, gate: &G) -> Served
        ensures { Ran self.served result }
    {
        let Job { served } = self;
        let mut served = served;
        work(rt, &mut served, gate);
        served
    }
}
