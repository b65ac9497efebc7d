// The report, written in blocks.
ghost use Rattle.std.specs.Prelude.{◌≡◌, ◌++◌, ◌+◌, ◌<◌, ◌^◌, [], IsTrue, OnOk, OnErr, IfErr, IsErrOf, length, string_bytes};
ghost use Rattle.line_text.specs.Written.{Adds};
ghost use Rattle.run_report.specs.Text.{line_text, entry_lines, record_lines, got_lines, set_lines, log_text, run_text, stream_text, client_text, member_text, backup_text};

use crate::line::{BackupAt, EntryKind, Line, Made, MemberAt, RunAt};
use crate::lines::put_line;
use cl_base::{Entry, NoMemory, Sink, Trouble};
use cluster_client::Got;
use egress::Sent;
use line_text::{BLOCK, give};
use recording_log::SnapshotAt;
use std::alloc::Global;
use std::marker::Model;

/// What was told and isn't written yet. Each call puts lines behind it, and writes it out where it is as long as a
/// block. Contracts see its bytes.
#[derive(Drop)]
pub struct Page {
    text: String,
}

impl Model for Page {
    ghost use Rattle.std.specs.Prelude.{List, ℕ, string_bytes};

    ghost Value = { List ℕ };

    ghost view = { λ p. string_bytes p.text };
}

impl Page {
    /// Nothing was told. It takes no memory.
    pub fn new(alloc: Global) -> Page
        ensures { result ≡ [] }
    {
        Page {
            text: String::new(alloc),
        }
    }

    // Puts a line on the page.
    fn put(&mut self, line: &Line) -> Result<(), Trouble>
        ensures ok { OnOk result (self.new ≡ self.old ++ line_text line.now) }
        ensures cause { IfErr result (λ e. e ≡ Trouble.NoMemory) }
    {
        match put_line(&mut self.text, line) {
            Ok(()) => Ok(()),
            Err(NoMemory) => Err(Trouble::NoMemory),
        }
    }

    /// Writes out what is on the page.
    pub fn flush<O: Sink>(&mut self, sink: &mut O) -> Result<(), Trouble>
        ensures told { Adds O.tells O.held O.fault_count sink.old sink.new self.old self.new [] result }
        ensures empty { OnOk result (self.new ≡ []) }
    {
        give(sink, self.text.as_bytes())?;
        self.text.clear();
        Ok(())
    }

    // Writes out what is on the page where it is as long as a block.
    fn spill<O: Sink>(&mut self, sink: &mut O) -> Result<(), Trouble>
        ensures { Adds O.tells O.held O.fault_count sink.old sink.new self.old self.new [] result }
    {
        if self.text.len() < BLOCK {
            return Ok(());
        }
        self.flush(sink)
    }

    // One line.
    fn line<O: Sink>(&mut self, sink: &mut O, line: &Line) -> Result<(), Trouble>
        ensures { Adds O.tells O.held O.fault_count sink.old sink.new self.old self.new (line_text line.now) result }
    {
        self.put(line)?;
        self.spill(sink)
    }

    // Entries, the first of which has this number.
    fn entries<O: Sink>(
        &mut self,
        sink: &mut O,
        kind: EntryKind,
        first: u64,
        entries: &[Entry],
    ) -> Result<(), Trouble>
        requires { first + length entries.now < 2 ^ 64 }
        ensures { Adds O.tells O.held O.fault_count sink.old sink.new self.old self.new (entry_lines kind first entries.now) result }
    {
        for (i, entry) in entries.iter().enumerate() {
            let index = first + i as u64;
            self.line(sink, &Line::Entry { kind, index, entry })?;
        }
        Ok(())
    }

    // Records that were sent.
    fn records<O: Sink>(&mut self, sink: &mut O, sent: &[Sent]) -> Result<(), Trouble>
        ensures { Adds O.tells O.held O.fault_count sink.old sink.new self.old self.new (record_lines sent.now) result }
    {
        for record in sent {
            self.line(sink, &Line::Record(record))?;
        }
        Ok(())
    }

    // Messages that a joined client was handed.
    fn handed<O: Sink>(&mut self, sink: &mut O, messages: &[Got]) -> Result<(), Trouble>
        ensures { Adds O.tells O.held O.fault_count sink.old sink.new self.old self.new (got_lines messages.now) result }
    {
        for got in messages {
            self.line(sink, &Line::Got(got))?;
        }
        Ok(())
    }

    // Valid snapshot sets.
    fn sets<O: Sink>(&mut self, sink: &mut O, sets: &[SnapshotAt]) -> Result<(), Trouble>
        ensures { Adds O.tells O.held O.fault_count sink.old sink.new self.old self.new (set_lines sets.now) result }
    {
        for set in sets {
            self.line(sink, &Line::Set(set))?;
        }
        Ok(())
    }

    /// The printed log.
    pub fn log<O: Sink>(&mut self, sink: &mut O, entries: &[Entry]) -> Result<(), Trouble>
        ensures { Adds O.tells O.held O.fault_count sink.old sink.new self.old self.new (log_text entries.now) result }
    {
        let count = entries.len();
        self.line(sink, &Line::Log { entries: count })?;
        self.entries(sink, EntryKind::Printed, 0, entries)
    }

    /// A run of a service, and what it consumed: its first input has the number at which it began. The last input's
    /// number is below 2^64.
    pub fn run<O: Sink>(&mut self, sink: &mut O, at: RunAt, inputs: &[Entry]) -> Result<(), Trouble>
        requires { at.from + length inputs.now < 2 ^ 64 }
        ensures { Adds O.tells O.held O.fault_count sink.old sink.new self.old self.new (run_text at inputs.now) result }
    {
        let count = inputs.len();
        self.line(sink, &Line::Run { at, count })?;
        self.entries(sink, EntryKind::Consumed, at.from, inputs)
    }

    /// A stream and its records; nothing where it has none.
    pub fn stream<O: Sink>(
        &mut self,
        sink: &mut O,
        stream: i32,
        sent: &[Sent],
    ) -> Result<(), Trouble>
        ensures { Adds O.tells O.held O.fault_count sink.old sink.new self.old self.new (stream_text stream sent.now) result }
    {
        let count = sent.len();
        if count == 0 {
            return Ok(());
        }
        self.line(sink, &Line::Stream { stream, count })?;
        self.records(sink, sent)
    }

    /// A joined client, 0 to 63, and the messages that it was handed, in order.
    pub fn client<O: Sink>(
        &mut self,
        sink: &mut O,
        client: u64,
        messages: &[Got],
    ) -> Result<(), Trouble>
        ensures { Adds O.tells O.held O.fault_count sink.old sink.new self.old self.new (client_text client messages.now) result }
    {
        let count = messages.len();
        self.line(sink, &Line::Client { client, count })?;
        self.handed(sink, messages)
    }

    /// A member whose disk is read: the entries of its log that aren't those of the printed one, and its valid snapshot
    /// sets. The last entry's number is below 2^64.
    pub fn member<O: Sink>(
        &mut self,
        sink: &mut O,
        end: MemberAt,
        own: &[Entry],
        sets: &[SnapshotAt],
    ) -> Result<(), Trouble>
        requires { end.same + length own.now < 2 ^ 64 }
        ensures { Adds O.tells O.held O.fault_count sink.old sink.new self.old self.new (member_text end own.now sets.now) result }
    {
        let count = sets.len();
        self.line(sink, &Line::Member { end, sets: count })?;
        self.entries(sink, EntryKind::Own, end.same, own)?;
        self.sets(sink, sets)
    }

    /// A stopped member whose disk failed as it was read.
    pub fn unread<O: Sink>(&mut self, sink: &mut O, member: u8) -> Result<(), Trouble>
        ensures { Adds O.tells O.held O.fault_count sink.old sink.new self.old self.new (line_text (Line.Unread member)) result }
    {
        self.line(sink, &Line::Unread { member })
    }

    /// A stopped member whose file of this number is first wrong at this place (bytes).
    pub fn damaged<O: Sink>(
        &mut self,
        sink: &mut O,
        member: u8,
        file: u32,
        place: u64,
    ) -> Result<(), Trouble>
        ensures { Adds O.tells O.held O.fault_count sink.old sink.new self.old self.new (line_text (Line.Damaged member file place)) result }
    {
        self.line(
            sink,
            &Line::Damaged {
                member,
                file,
                place,
            },
        )
    }

    /// The backup, and its valid snapshot sets.
    pub fn backup<O: Sink>(
        &mut self,
        sink: &mut O,
        end: BackupAt,
        sets: &[SnapshotAt],
    ) -> Result<(), Trouble>
        ensures { Adds O.tells O.held O.fault_count sink.old sink.new self.old self.new (backup_text end sets.now) result }
    {
        let count = sets.len();
        self.line(sink, &Line::Backup { end, sets: count })?;
        self.sets(sink, sets)
    }

    /// A stopped backup whose disk failed as it was read.
    pub fn backup_unread<O: Sink>(&mut self, sink: &mut O) -> Result<(), Trouble>
        ensures { Adds O.tells O.held O.fault_count sink.old sink.new self.old self.new (line_text Line.BackupUnread) result }
    {
        self.line(sink, &Line::BackupUnread)
    }

    /// A stopped backup whose file of this number is first wrong at this place (bytes).
    pub fn backup_damaged<O: Sink>(
        &mut self,
        sink: &mut O,
        file: u32,
        place: u64,
    ) -> Result<(), Trouble>
        ensures { Adds O.tells O.held O.fault_count sink.old sink.new self.old self.new (line_text (Line.BackupDamaged file place)) result }
    {
        self.line(sink, &Line::BackupDamaged { file, place })
    }

    /// The end: all of the page is written out.
    pub fn done<O: Sink>(&mut self, sink: &mut O) -> Result<(), Trouble>
        ensures told { Adds O.tells O.held O.fault_count sink.old sink.new self.old self.new (line_text Line.Done) result }
        ensures empty { OnOk result (self.new ≡ []) }
    {
        self.line(sink, &Line::Done)?;
        self.flush(sink)
    }

    /// What is told of a generated scenario in place of a report, with its end: all of the page is written out.
    pub fn summary<O: Sink>(&mut self, sink: &mut O, made: Made) -> Result<(), Trouble>
        ensures told { Adds O.tells O.held O.fault_count sink.old sink.new self.old self.new (line_text (Line.Made made) ++ line_text Line.Done) result }
        ensures empty { OnOk result (self.new ≡ []) }
    {
        self.line(sink, &Line::Made(made))?;
        self.done(sink)
    }
}
