// The services that the product ships.
ghost use Rattle.std.specs.Prelude.{◌≡◌, ◌<◌, ◌^◌, ◌++◌, length, Ok, IfOk, OnOk, OnErr};
ghost use Rattle.sbe_events.specs.Spelling.{HasSpelling};
ghost use Rattle.service_api.specs.Outputs.{BeginsWith};
ghost use Rattle.service_api.specs.Reading.{Reads};
ghost use Rattle.service_api.specs.Shipped.{first_of, applied_of, spelled_of, restored_of, kind_of};

use crate::{Echo, Ledger, Outputs, Service, Ticker};
use cl_base::{Bytes, NoMemory};
use sbe_events::Event;
use std::alloc::Global;
use wire_prims::DecodeFault;

/// Which of the shipped services.
#[derive(Clone, Copy, Debug, PartialEq, Eq)]
pub enum Kind {
    /// It gives each message back.
    Echo,
    /// It adds amounts.
    Ledger,
    /// It sets timers for clients.
    Ticker,
}

/// A shipped service. It does what the service of its kind does.
#[derive(Drop)]
pub enum Shipped {
    Echo(Echo),
    Ledger(Ledger),
    Ticker(Ticker),
}

impl Shipped {
    /// A service of this kind before any event.
    pub fn fresh(alloc: Global, kind: Kind) -> Result<Shipped, NoMemory>
        ensures { IfOk result (λ s. s ≡ first_of kind) }
    {
        Ok(match kind {
            Kind::Echo => Shipped::Echo(Echo::start(alloc)?),
            Kind::Ledger => Shipped::Ledger(Ledger::start(alloc)?),
            Kind::Ticker => Shipped::Ticker(Ticker::start(alloc)?),
        })
    }

    /// The service of this kind that these records are of, or their first fault.
    pub fn of_records(alloc: Global, kind: Kind, bytes: &[u8]) -> Result<Shipped, DecodeFault>
        ensures { Reads (restored_of kind bytes.now) result }
    {
        match kind {
            Kind::Echo => match Echo::from_records(alloc, bytes) {
                Ok(s) => Ok(Shipped::Echo(s)),
                Err(fault) => Err(fault),
            },
            Kind::Ledger => match Ledger::from_records(alloc, bytes) {
                Ok(s) => Ok(Shipped::Ledger(s)),
                Err(fault) => Err(fault),
            },
            Kind::Ticker => match Ticker::from_records(alloc, bytes) {
                Ok(s) => Ok(Shipped::Ticker(s)),
                Err(fault) => Err(fault),
            },
        }
    }

    /// Which service it is.
    pub fn kind(&self) -> Kind
        ensures { result ≡ kind_of self.now }
    {
        match self {
            Shipped::Echo(_) => Kind::Echo,
            Shipped::Ledger(_) => Kind::Ledger,
            Shipped::Ticker(_) => Kind::Ticker,
        }
    }

    /// Applies the event at an index of the log, and puts what comes out behind `out`. Where no memory was there the
    /// state stays, and `out` may hold a part of what would have come out.
    pub fn apply(&mut self, index: u64, e: &Event, out: &mut Outputs) -> Result<(), NoMemory>
        requires { HasSpelling e.now }
        ensures state { OnOk result (self.new ≡ (applied_of self.old index e.now).0) }
        ensures outputs { OnOk result (out.new ≡ out.old ++ (applied_of self.old index e.now).1) }
        ensures stays { OnErr result (self.new ≡ self.old) }
        ensures before { OnErr result (BeginsWith out.old out.new) }
    {
        match self {
            Shipped::Echo(s) => s.apply(index, e, out),
            Shipped::Ledger(s) => s.apply(index, e, out),
            Shipped::Ticker(s) => s.apply(index, e, out),
        }
    }

    /// The bytes from which `of_records` makes this service again.
    pub fn records(&self) -> Result<Bytes, NoMemory>
        ensures value { IfOk result (λ b. b ≡ spelled_of self.now) }
        ensures short { length (spelled_of self.now) < 2 ^ 31 }
        ensures restores { restored_of (kind_of self.now) (spelled_of self.now) ≡ Ok self.now }
    {
        match self {
            Shipped::Echo(s) => s.records(),
            Shipped::Ledger(s) => s.records(),
            Shipped::Ticker(s) => s.records(),
        }
    }
}
