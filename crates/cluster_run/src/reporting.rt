// The report of a run.
ghost use Rattle.std.specs.Prelude.{◌≤◌};
ghost use Rattle.run_listing.specs.Sinks.{Writes};

use crate::cluster::Cluster;
use cl_base::limits::LOG_LIMIT;
use cl_base::{Disk, Entry, Sink, Trouble};
use entry_log::end_after;
use run_backup::report_backup;
use run_listing::{inputs_of, report_members, report_services};
use run_report::{Made, Page};

/// The most bytes of an event.
const EVENT_LIMIT: u64 = 16_416;

impl<D: Disk + Drop> Cluster<D> {
    /// What was sent on each stream.
    fn report_streams<O: Sink>(&self, page: &mut Page, sink: &mut O) -> Result<(), Trouble>
        ensures { Writes O.tells O.held O.fault_count sink.old sink.new result }
    {
        'each: for stream in self.outside.egress.streams() {
            page.stream(sink, stream.number(), stream.sent())?;
        }
        Ok(())
    }

    /// The report of a run that went to its end.
    fn report<O: Sink>(&mut self, sink: &mut O) -> Result<(), Trouble>
        ensures { Writes O.tells O.held O.fault_count sink.old sink.new result }
    {
        let mut page = Page::new(self.alloc());
        page.log(sink, self.outside.printed.as_slice())?;
        self.report_services(&mut page, sink)
    }

    /// The report, from the services on.
    fn report_services<O: Sink>(&mut self, page: &mut Page, sink: &mut O) -> Result<(), Trouble>
        ensures { Writes O.tells O.held O.fault_count sink.old sink.new result }
    {
        report_services(self.seats.as_slice(), page, sink)?;
        self.report_clients(page, sink)
    }

    /// The report, from the clients' streams on.
    fn report_clients<O: Sink>(&mut self, page: &mut Page, sink: &mut O) -> Result<(), Trouble>
        ensures { Writes O.tells O.held O.fault_count sink.old sink.new result }
    {
        self.report_streams(page, sink)?;
        self.report_joined(page, sink)
    }

    /// The report, from the joined clients on.
    fn report_joined<O: Sink>(&mut self, page: &mut Page, sink: &mut O) -> Result<(), Trouble>
        ensures { Writes O.tells O.held O.fault_count sink.old sink.new result }
    {
        self.report_handed(page, sink)?;
        self.report_disks(page, sink)
    }

    /// What each joined client was handed.
    fn report_handed<O: Sink>(&self, page: &mut Page, sink: &mut O) -> Result<(), Trouble>
        ensures { Writes O.tells O.held O.fault_count sink.old sink.new result }
    {
        'each: for joined in &self.joined {
            page.client(sink, joined.number(), joined.handed())?;
        }
        Ok(())
    }

    /// The report, from the members on.
    fn report_disks<O: Sink>(&mut self, page: &mut Page, sink: &mut O) -> Result<(), Trouble>
        ensures { Writes O.tells O.held O.fault_count sink.old sink.new result }
    {
        report_members(
            self.seats.as_mut_slice(),
            &self.site,
            page,
            sink,
            self.outside.printed.as_slice(),
        )?;
        self.report_end(page, sink)
    }

    /// The report, from the backup on.
    fn report_end<O: Sink>(&mut self, page: &mut Page, sink: &mut O) -> Result<(), Trouble>
        ensures { Writes O.tells O.held O.fault_count sink.old sink.new result }
    {
        self.report_backup(page, sink)?;
        page.done(sink)
    }

    /// The backup's lines, where there is one.
    fn report_backup<O: Sink>(&mut self, page: &mut Page, sink: &mut O) -> Result<(), Trouble>
        ensures { Writes O.tells O.held O.fault_count sink.old sink.new result }
    {
        match &mut self.backup {
            Some(node) => {
                report_backup(
                    node,
                    &self.site,
                    page,
                    sink,
                    self.outside.printed.as_slice(),
                )
            }
            None => Ok(()),
        }
    }

    /// What is written of a run that went to its end: its report, or its summary where it was generated with so many
    /// messages.
    pub(crate) fn conclude<O: Sink>(
        &mut self,
        sink: &mut O,
        made: Option<u64>,
    ) -> Result<(), Trouble>
        ensures { Writes O.tells O.held O.fault_count sink.old sink.new result }
    {
        match made {
            Some(messages) => self.summary(sink, messages),
            None => self.report(sink),
        }
    }

    /// The summary of a generated run.
    fn summary<O: Sink>(&self, sink: &mut O, messages: u64) -> Result<(), Trouble>
        ensures { Writes O.tells O.held O.fault_count sink.old sink.new result }
    {
        let mut inputs = 0u64;
        for seat in &self.seats {
            inputs = inputs.saturating_add(inputs_of(seat));
        }
        let mut sent = 0u64;
        for stream in self.outside.egress.streams() {
            sent = sent.saturating_add(stream.sent().len() as u64);
        }
        let mut page = Page::new(self.alloc());
        let printed = self.outside.printed.as_slice();
        page.summary(
            sink,
            Made {
                messages,
                entries: printed.len() as u64,
                place: place_of(printed),
                terms: new_terms(printed),
                refused: self.refused,
                egress: sent,
                inputs,
            },
        )
    }
}

/// The place at which a log ends, in bytes.
fn place_of(log: &[Entry]) -> u64 {
    let mut place = 0;
    for entry in log {
        let bytes = entry.bytes.len() as u64;
        if place <= LOG_LIMIT && bytes <= EVENT_LIMIT {
            place = end_after(place, bytes);
        }
    }
    place
}

/// How many new terms a log has.
fn new_terms(log: &[Entry]) -> u64 {
    let mut count = 0;
    let mut term = -1;
    for entry in log {
        if entry.term != term {
            term = entry.term;
            count += 1;
        }
    }
    count
}
