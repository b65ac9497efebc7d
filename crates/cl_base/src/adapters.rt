// Sources and sinks over std's readers and writers. They tell nothing of what passes.
ghost use Rattle.std.specs.Prelude.{◌≡◌, ◌<◌, ◌≤◌, ◌++◌, ℕ, List, false, [], IsTrue, IfOk, OnErr, length, take};
ghost use Rattle.cl_base.specs.Counts.{HasCause, HasOnlyCause, RaisesOneAtMost};
ghost use Rattle.cl_base.specs.Stream.{ReadGives};

use crate::{Failed, Sink, Source, Trouble};
use std::io::{ErrorKind, Read, Write};

/// A source that reads from a reader of std's.
#[derive(Drop)]
pub struct ReadSource<R> {
    reader: R,
    faults: u64,
}

impl<R: Read> ReadSource<R> {
    /// A source over this reader, with no faults counted.
    pub fn new(reader: R) -> ReadSource<R>
        ensures count { ⟦<ReadSource<R> as Source>⟧.fault_count result ≡ 0 }
    {
        ReadSource { reader, faults: 0 }
    }
}

impl<R: Read> Source for ReadSource<R> {
    ghost tells = { λ _. false };

    ghost left = { λ _. [] };

    ghost fault_count = { λ s. s.faults };

    fn faults(&self) -> u64 {
        self.faults
    }

    /// Every error of the reader is a fault, an interrupted read too.
    fn read(&mut self, buf: &mut [u8]) -> Result<usize, Failed>
        ensures cause { HasOnlyCause self.old.faults self.new.faults result }
        ensures tells { false ≡ false }
        ensures within { IfOk result (λ n. n ≤ length buf.old) }
        ensures told { IsTrue false → IfOk result (ReadGives [] [] buf.old buf.new) }
        ensures stays { IsTrue false → OnErr result (◌≡◌ {A = List ℕ} [] []) }
        ensures count { RaisesOneAtMost self.old.faults self.new.faults result }
    {
        match self.reader.read(buf) {
            Ok(n) => Ok(n),
            Err(_) => {
                self.faults = self.faults.saturating_add(1);
                Err(Failed)
            }
        }
    }
}

/// A sink that writes to a writer of std's.
#[derive(Drop)]
pub struct WriteSink<W> {
    writer: W,
    faults: u64,
}

impl<W: Write> WriteSink<W> {
    /// A sink over this writer, with no faults counted.
    pub fn new(writer: W) -> WriteSink<W>
        ensures count { ⟦<WriteSink<W> as Sink>⟧.fault_count result ≡ 0 }
    {
        WriteSink { writer, faults: 0 }
    }
}

impl<W: Write> Sink for WriteSink<W> {
    ghost tells = { λ _. false };

    ghost held = { λ _. [] };

    ghost fault_count = { λ s. s.faults };

    fn faults(&self) -> u64 {
        self.faults
    }

    /// A write that takes nothing of a piece that isn't empty is a fault, as is every error but out of memory.
    fn write(&mut self, bytes: &[u8]) -> Result<usize, Trouble>
        ensures cause { HasCause self.old.faults self.new.faults result }
        ensures tells { false ≡ false }
        ensures within { IfOk result (λ n. n ≤ length bytes.now) }
        ensures some { IfOk result (λ n. 0 < length bytes.now → 0 < n) }
        ensures told { IsTrue false → IfOk result (λ n. [] ≡ [] ++ take n bytes.now) }
        ensures stays { IsTrue false → OnErr result (◌≡◌ {A = List ℕ} [] []) }
        ensures count { RaisesOneAtMost self.old.faults self.new.faults result }
    {
        match self.writer.write(bytes) {
            Ok(n) if n > 0 || bytes.is_empty() => Ok(n),
            Err(e) if e.kind() == ErrorKind::OutOfMemory => Err(Trouble::NoMemory),
            _ => {
                self.faults = self.faults.saturating_add(1);
                Err(Trouble::Failed)
            }
        }
    }
}
