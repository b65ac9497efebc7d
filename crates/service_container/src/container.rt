// One service, with what it consumed.
ghost use Rattle.std.specs.Prelude.{◌≡◌, ◌^◌, ◌<◌, true, [], Ok, Err, Some, None, MatchOption, IfOk};
ghost use Rattle.wire_prims.specs.declared.fault.Bad.{Bad};
ghost use Rattle.commit_counter.specs.Ends.{taken_to, HasEnded};
ghost use Rattle.service_api.specs.Shipped.{first_of, restored_of};
ghost use Rattle.service_container.specs.Held.{consumed_to, begun, Consumes};
ghost use Rattle.service_container.specs.Records.{found_at};

use crate::gate::Gate;
use crate::works::Works;
use cl_base::{Bytes, Entry, NoMemory};
use commit_counter::{Poll, Poller};
use service_api::{Kind, Output, Shipped};
use std::alloc::Global;
use std::marker::Model;
use std::sync::Wait;
use wire_prims::DecodeFault;

/// One service, with what it consumed, what came out and the records that it left. Contracts see it as these. Where a
/// call answers NoMemory an entry may have been consumed that was not applied; then the container is not whole, and is
/// only given up.
#[derive(Drop)]
pub struct Container {
    alloc: Global,
    service: u8,
    base: u64,
    inputs: Vec<Entry>,
    works: Works,
    whole: bool,
}

impl Model for Container {
    ghost use Rattle.service_container.specs.Held.{Held};

    ghost Value = { Held };

    ghost use Rattle.service_container.specs.Inside.{held_of};

    ghost view = { held_of };
}

/// How a container's serving ended.
#[derive(Clone, Copy, Debug, PartialEq, Eq)]
pub enum ServeEnd {
    /// The image ended, and all up to its commit was consumed.
    Ended,
    /// No memory was there.
    NoMemory,
}

/// A container and its poller, given back.
#[derive(Drop)]
pub struct Served {
    pub container: Container,
    pub poller: Poller,
    pub end: ServeEnd,
}

enum Step {
    Went,
    Waits,
    Ended,
    NoMemory,
}

impl Container {
    /// A service of this kind that has consumed nothing, and is to begin at the log's first entry. `service` is its
    /// number on the member.
    pub fn fresh(alloc: Global, kind: Kind, service: u8) -> Result<Container, NoMemory>
        ensures { IfOk result (λ c. c ≡ begun service 0 (first_of kind)) }
    {
        let state = Shipped::fresh(alloc, kind)?;
        Ok(Container::begin(alloc, service, 0, state))
    }

    /// A service of this kind in the state of these records, that is to begin at the entry `base`. Bad names the first
    /// fault of the records.
    pub fn from_snapshot(
        alloc: Global,
        kind: Kind,
        service: u8,
        base: u64,
        bytes: &[u8],
    ) -> Result<Container, DecodeFault>
        ensures begun { IfOk result (λ c. c ≡ begun service base c.state) }
        ensures restored { IfOk result (λ c. restored_of kind bytes.now ≡ Ok c.state) }
        ensures bad { (b : Bad) → result ≡ Err (DecodeFault.Bad b) → restored_of kind bytes.now ≡ Err b }
    {
        match Shipped::of_records(alloc, kind, bytes) {
            Ok(state) => Ok(Container::begin(alloc, service, base, state)),
            Err(fault) => Err(fault),
        }
    }

    // A service that is to begin at the entry `base`, in this state.
    fn begin(alloc: Global, service: u8, base: u64, state: Shipped) -> Container
        ensures { result ≡ begun service base state }
    {
        Container {
            alloc,
            service,
            base,
            inputs: Vec::new(alloc),
            works: Works::of(alloc, state),
            whole: true,
        }
    }

    /// Its number on the member.
    pub fn service(&self) -> u8
        ensures { result ≡ self.now.service }
    {
        self.service
    }

    /// The entries that it consumed, in order.
    pub fn inputs(&self) -> &[Entry]
        ensures { result.now ≡ self.now.inputs }
    {
        self.inputs.as_slice()
    }

    /// What came out since its outbox was emptied last, each with the index of its entry, in order.
    pub fn outbox(&self) -> &[(u64, Output)]
        ensures { result.now ≡ self.now.outbox }
    {
        self.works.outbox.as_slice()
    }

    /// Empties its outbox.
    pub fn forget_outbox(&mut self)
        ensures { self.new ≡ record self.old { outbox = [] } }
    {
        self.works.outbox.clear();
    }

    /// The service as it stands.
    pub fn state(&self) -> &Shipped
        ensures { result.now ≡ self.now.state }
    {
        &self.works.state
    }

    /// The service's records as they were after the entry at this index, a snapshot action that it consumed. None for
    /// every other index.
    pub fn snapshot(&self, index: u64) -> Option<&Bytes>
        ensures { MatchOption result (found_at index self.now.records ≡ None) (λ b. found_at index self.now.records ≡ Some b.now) }
    {
        self.works.records_at(index)
    }

    /// The index of the first entry that it has not consumed.
    pub fn consumed_to(&self) -> u64
        requires { consumed_to self.now < 2 ^ 62 }
        ensures { result ≡ consumed_to self.now }
    {
        self.base + self.inputs.len() as u64
    }

    // Polls once. Room for an input is made before one is taken, so what was taken is among the inputs.
    fn step<R: Wait, G: Gate>(&mut self, rt: &R, poller: &mut Poller, gate: &G) -> Step
        requires place { taken_to poller.old ≡ consumed_to self.old }
        requires whole { self.old.whole ≡ true }
        ensures consumes { Consumes self.old poller.old self.new poller.new }
        ensures went { result ≡ Step.Went → self.new.whole ≡ true }
        ensures waits { result ≡ Step.Waits → self.new.whole ≡ true }
        ensures ended { result ≡ Step.Ended → self.new.whole ≡ true }
        ensures end { result ≡ Step.Ended → HasEnded poller.new }
    {
        if self.inputs.reserve(1).is_err() {
            return Step::NoMemory;
        }
        match poller.poll_one(rt) {
            Poll::Took { index, entry } => {
                gate.pass(self.service, index);
                let applied = self.works.apply(self.alloc, index, &entry);
                self.inputs.push_reserved(entry);
                match applied {
                    Ok(()) => Step::Went,
                    Err(NoMemory) => {
                        self.whole = false;
                        Step::NoMemory
                    }
                }
            }
            Poll::NotYet { seen: _ } | Poll::Empty { seen: _ } => Step::Waits,
            Poll::Ended { seen: _ } => Step::Ended,
        }
    }

    /// Consumes what the poller gives, until the image ends or memory runs out. Before each entry it passes the gate.
    pub fn run<R: Wait, G: Gate>(&mut self, rt: &R, poller: &mut Poller, gate: &G) -> ServeEnd
        requires place { taken_to poller.old ≡ consumed_to self.old }
        requires whole { self.old.whole ≡ true }
        ensures consumes { Consumes self.old poller.old self.new poller.new }
        ensures whole { result ≡ ServeEnd.Ended → self.new.whole ≡ true }
        ensures end { result ≡ ServeEnd.Ended → HasEnded poller.new }
    {
        for _ in rt.forever() {
            match self.step(rt, poller, gate) {
                Step::Went => {}
                Step::Waits => poller.await_more(rt),
                Step::Ended => return ServeEnd::Ended,
                Step::NoMemory => return ServeEnd::NoMemory,
            }
        }
        unreachable!()
    }

    /// The same, and gives both back.
    pub fn serve<R: Wait, G: Gate>(self, rt: &R, poller: Poller, gate: &G) -> Served
        requires place { taken_to poller ≡ consumed_to self }
        requires whole { self.whole ≡ true }
        ensures consumes { Consumes self poller result.container result.poller }
        ensures whole { result.end ≡ ServeEnd.Ended → result.container.whole ≡ true }
        ensures end { result.end ≡ ServeEnd.Ended → HasEnded result.poller }
    {
        let mut container = self;
        let mut poller = poller;
        let end = container.run(rt, &mut poller, gate);
        Served {
            container,
            poller,
            end,
        }
    }
}
