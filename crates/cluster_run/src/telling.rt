// What is told while orders run is written as each order ends.
ghost use Rattle.run_listing.specs.Sinks.{Writes};

use crate::cluster::{Cluster, Line};
use cl_base::{Disk, List, NoMemory, Sink, Trouble};
use run_report::{put_backup_stopped, put_order, put_stopped};
use scenario::Order;
use std::alloc::Global;
use std::mem;
use std::sync::Wait;
use std::thread::Threads;

/// Writes a line.
fn put_line<O: Sink>(alloc: Global, sink: &mut O, line: &Line) -> Result<(), Trouble>
    ensures { Writes O.tells O.held O.fault_count sink.old sink.new result }
{
    match *line {
        Line::Order { line, reply } => put_order(alloc, sink, line, reply),
        Line::Stopped { member } => put_stopped(alloc, sink, member),
        Line::BackupStopped => put_backup_stopped(sink),
    }
}

/// Writes lines.
fn put_lines<O: Sink>(alloc: Global, sink: &mut O, lines: &[Line]) -> Result<(), Trouble>
    ensures { Writes O.tells O.held O.fault_count sink.old sink.new result }
{
    'each: for line in lines {
        put_line(alloc, sink, line)?;
    }
    Ok(())
}

impl<D: Disk + Drop> Cluster<D> {
    /// Writes what was told by an order that is done, unless a summary alone is wanted.
    fn flush_after<O: Sink>(
        &mut self,
        sink: &mut O,
        done: Result<(), NoMemory>,
        writes: bool,
    ) -> Result<(), Trouble>
        ensures { Writes O.tells O.held O.fault_count sink.old sink.new result }
    {
        if done.is_err() {
            return Err(Trouble::NoMemory);
        }
        let alloc = self.alloc();
        let told = mem::replace(&mut self.told, List::new(alloc));
        if !writes {
            return Ok(());
        }
        put_lines(alloc, sink, told.as_slice())
    }

    /// Starts every member, and runs the scenario's orders and its end.
    pub(crate) fn run_orders<R: Threads + Wait + Copy + Send + Sync + 'static, O: Sink>(
        &mut self,
        rt: &R,
        sink: &mut O,
        orders: &[Order],
        writes: bool,
    ) -> Result<(), Trouble>
        ensures { Writes O.tells O.held O.fault_count sink.old sink.new result }
    {
        let begun = self.begin();
        self.flush_after(sink, begun, writes)?;
        self.run_begun(rt, sink, orders, writes)
    }

    /// The orders, and the scenario's end.
    fn run_begun<R: Threads + Wait + Copy + Send + Sync + 'static, O: Sink>(
        &mut self,
        rt: &R,
        sink: &mut O,
        orders: &[Order],
        writes: bool,
    ) -> Result<(), Trouble>
        ensures { Writes O.tells O.held O.fault_count sink.old sink.new result }
    {
        self.run_each(rt, sink, orders, writes)?;
        let ended = self.free_off(rt);
        self.flush_after(sink, ended, writes)
    }

    /// The orders, one after the other.
    fn run_each<R: Threads + Wait + Copy + Send + Sync + 'static, O: Sink>(
        &mut self,
        rt: &R,
        sink: &mut O,
        orders: &[Order],
        writes: bool,
    ) -> Result<(), Trouble>
        ensures { Writes O.tells O.held O.fault_count sink.old sink.new result }
    {
        'each: for order in orders {
            let done = self.step(rt, order);
            self.flush_after(sink, done, writes)?;
        }
        Ok(())
    }
}
