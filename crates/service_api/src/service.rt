// What every service is.
ghost use Rattle.std.specs.Prelude.{◌≡◌, ◌<◌, ◌^◌, ◌++◌, ℕ, List, length, Result, IfOk, OnOk, OnErr};
ghost use Rattle.wire_prims.specs.declared.fault.Bad.{Bad};
ghost use Rattle.sbe_events.specs.Spelling.{HasSpelling};
ghost use Rattle.sbe_events.specs.declared.event.Event.{Event};
ghost use Rattle.service_api.specs.declared.output.Output.{Output};
ghost use Rattle.service_api.specs.Reading.{Reads};
ghost use Rattle.service_api.specs.Outputs.{BeginsWith};

use crate::Outputs;
use cl_base::{Bytes, NoMemory};
use sbe_events::Event;
use std::alloc::Global;
use wire_prims::DecodeFault;

/// A service: a state that each event of the log leads on. Two members that apply the same events have the same
/// states and give the same outputs.
pub trait Service: Sized {
    /// The state before any event.
    ghost first: { Self };

    /// The state after the event at an index, and what comes out.
    ghost applied: { Self → ℕ → Event → Self × List Output };

    /// The bytes of its records.
    ghost spelled: { Self → List ℕ };

    /// The state that bytes are the records of, or their first fault.
    ghost restored: { List ℕ → Result Self Bad };

    /// The state before any event.
    fn start(alloc: Global) -> Result<Self, NoMemory>
        ensures { IfOk result (λ s. s ≡ first) };

    /// Applies the event at an index of the log, and puts what comes out behind `out`. Where no memory was there the
    /// state stays, and `out` may hold a part of what would have come out.
    fn apply(&mut self, index: u64, e: &Event, out: &mut Outputs) -> Result<(), NoMemory>
        requires { HasSpelling e.now }
        ensures state { OnOk result (self.new ≡ (applied self.old index e.now).0) }
        ensures outputs { OnOk result (out.new ≡ out.old ++ (applied self.old index e.now).1) }
        ensures stays { OnErr result (self.new ≡ self.old) }
        ensures before { OnErr result (BeginsWith out.old out.new) };

    /// The bytes from which `from_records` makes this state again.
    fn records(&self) -> Result<Bytes, NoMemory>
        ensures value { IfOk result (λ b. b ≡ spelled self.now) }
        ensures short { length (spelled self.now) < 2 ^ 31 }
        ensures restores { restored (spelled self.now) ≡ Result.Ok self.now };

    /// The state of these records, or their first fault.
    fn from_records(alloc: Global, bytes: &[u8]) -> Result<Self, DecodeFault>
        ensures { Reads (restored bytes.now) result };
}
