// A service at work: its state, what came out, and the records that it left.
ghost use Rattle.std.specs.Prelude.{◌≡◌, ◌++◌, [], MatchOption, None, Some, OnOk};
ghost use Rattle.service_api.specs.Service.{at_entry, numbered};
ghost use Rattle.service_container.specs.Records.{left_at, found_at};

use crate::outbox::put_out;
use cl_base::{Bytes, Entry, NoMemory};
use sbe_events::{Event, decode_event};
use service_api::{Output, Outputs, Shipped};
use std::alloc::Global;
use wire_prims::DecodeFault;

/// A service's state, what came out of it, and the records that it left at snapshot actions, each with the index of
/// its entry, in order.
#[derive(Drop)]
pub struct Works {
    pub(crate) state: Shipped,
    pub(crate) outbox: Vec<(u64, Output)>,
    pub(crate) records: Vec<(u64, Bytes)>,
}

impl Works {
    /// A service in this state, of which nothing came out yet.
    pub fn of(alloc: Global, state: Shipped) -> Works
        ensures state { result.state ≡ state }
        ensures outbox { result.outbox.items ≡ [] }
        ensures records { result.records.items ≡ [] }
    {
        Works {
            state,
            outbox: Vec::new(alloc),
            records: Vec::new(alloc),
        }
    }

    /// Applies the entry at an index, puts what comes out behind the outbox, and keeps the service's records where the
    /// entry is a snapshot action.
    pub fn apply(&mut self, alloc: Global, index: u64, entry: &Entry) -> Result<(), NoMemory>
        ensures state { OnOk result (self.new.state ≡ (at_entry self.old.state index entry.now).0) }
        ensures outbox { OnOk result (self.new.outbox.items ≡ self.old.outbox.items ++ numbered index (at_entry self.old.state index entry.now).1) }
        ensures records { OnOk result (self.new.records.items ≡ self.old.records.items ++ left_at index entry.now self.new.state) }
    {
        let event = match decode_event(alloc, entry.bytes.as_slice()) {
            Ok(event) => event,
            Err(DecodeFault::Bad(_)) => return Ok(()),
            Err(DecodeFault::NoMemory) => return Err(NoMemory),
        };
        let mut outputs = Outputs::new(alloc);
        self.state.apply(index, &event, &mut outputs)?;
        put_out(&mut self.outbox, index, outputs)?;
        if let Event::Snapshot { .. } = event {
            let records = self.state.records()?;
            self.records.reserve(1)?;
            self.records.push_reserved((index, records));
        }
        Ok(())
    }

    /// The records that were left at an index, the last of several.
    pub fn records_at(&self, index: u64) -> Option<&Bytes>
        ensures { MatchOption result (found_at index self.now.records.items ≡ None) (λ b. found_at index self.now.records.items ≡ Some b.now) }
    {
        for (at, records) in &self.records {
            if *at == index {
                return Some(records);
            }
        }
        None
    }
}
