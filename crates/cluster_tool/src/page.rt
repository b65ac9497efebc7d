// A listing, written in blocks.
ghost use Rattle.std.specs.Prelude.{◌≡◌, ◌++◌, ◌<◌, [], IsTrue, OnOk, OnErr, IfErr, length, string_bytes};
ghost use Rattle.line_text.specs.Written.{Adds};
ghost use Rattle.run_report.specs.Text.{set_lines};
ghost use Rattle.cluster_tool.specs.Text.{line_text, recorded_lines};

use crate::line::Line;
use crate::lines::put_line;
use cl_base::{NoMemory, Sink, Trouble};
use line_text::{BLOCK, give};
use recording_log::{RecEntry, SnapshotAt};
use std::alloc::Global;
use std::marker::Model;

/// What was told and isn't written yet. Each call puts lines behind it, and writes it out where it is as long as a
/// block. Contracts see its bytes.
#[derive(Drop)]
pub struct Page {
    text: String,
}

impl Model for Page {
    ghost use Rattle.std.specs.Prelude.{List, ℕ, string_bytes};

    ghost Value = { List ℕ };

    ghost view = { λ p. string_bytes p.text };
}

impl Page {
    /// Nothing was told. It takes no memory.
    pub fn new(alloc: Global) -> Page
        ensures { result ≡ [] }
    {
        Page {
            text: String::new(alloc),
        }
    }

    // Puts lines on the page.
    fn put(&mut self, line: &Line) -> Result<(), Trouble>
        ensures ok { OnOk result (self.new ≡ self.old ++ line_text line.now) }
        ensures cause { IfErr result (λ e. e ≡ Trouble.NoMemory) }
    {
        match put_line(&mut self.text, line) {
            Ok(()) => Ok(()),
            Err(NoMemory) => Err(Trouble::NoMemory),
        }
    }

    // Writes out what is on the page.
    fn flush<O: Sink>(&mut self, sink: &mut O) -> Result<(), Trouble>
        ensures told { Adds O.tells O.held O.fault_count sink.old sink.new self.old self.new [] result }
        ensures empty { OnOk result (self.new ≡ []) }
    {
        give(sink, self.text.as_bytes())?;
        self.text.clear();
        Ok(())
    }

    // Writes out what is on the page where it is as long as a block.
    fn spill<O: Sink>(&mut self, sink: &mut O) -> Result<(), Trouble>
        ensures { Adds O.tells O.held O.fault_count sink.old sink.new self.old self.new [] result }
    {
        if self.text.len() < BLOCK {
            return Ok(());
        }
        self.flush(sink)
    }

    /// Some lines.
    pub fn line<O: Sink>(&mut self, sink: &mut O, line: &Line) -> Result<(), Trouble>
        ensures { Adds O.tells O.held O.fault_count sink.old sink.new self.old self.new (line_text line.now) result }
    {
        self.put(line)?;
        self.spill(sink)
    }

    /// Valid sets of snapshots.
    pub fn sets<O: Sink>(&mut self, sink: &mut O, sets: &[SnapshotAt]) -> Result<(), Trouble>
        ensures { Adds O.tells O.held O.fault_count sink.old sink.new self.old self.new (set_lines sets.now) result }
    {
        for set in sets {
            self.line(sink, &Line::Set(set))?;
        }
        Ok(())
    }

    /// Entries of a recording log.
    pub fn entries<O: Sink>(&mut self, sink: &mut O, entries: &[RecEntry]) -> Result<(), Trouble>
        ensures { Adds O.tells O.held O.fault_count sink.old sink.new self.old self.new (recorded_lines entries.now) result }
    {
        for entry in entries {
            self.line(sink, &Line::Recorded(entry))?;
        }
        Ok(())
    }

    /// The end: all of the page is written out.
    pub fn done<O: Sink>(&mut self, sink: &mut O) -> Result<(), Trouble>
        ensures told { Adds O.tells O.held O.fault_count sink.old sink.new self.old self.new (line_text Line.Done) result }
        ensures empty { OnOk result (self.new ≡ []) }
    {
        self.line(sink, &Line::Done)?;
        self.flush(sink)
    }
}
