// Sources and sinks in memory, for tests and for scenarios that fail at chosen calls.
ghost use Rattle.std.specs.Prelude.{◌≡◌, ◌<◌, ◌≤◌, ◌++◌, [], IsTrue, true, length, take, drop, IfOk, OnErr, ◌↔◌, ◌+◌, ◌-◌, ◌^◌, min, is_err, IsErrOf, Contains, if◌then◌else◌};
ghost use Rattle.cl_base.specs.Counts.{HasCause, HasOnlyCause};
ghost use Rattle.cl_base.specs.Memory.{next, reads_so_far, failing_reads, writes_so_far, failing_writes, CountsFault};
ghost use Rattle.cl_base.specs.Stream.{ReadGives};

use crate::{Failed, Sink, Source, Trouble};
use std::alloc::Global;

/// Bytes in memory, with a list of the numbers of the calls that are to fail, counted from 1.
#[derive(Drop)]
pub struct MemSource {
    bytes: Vec<u8>,
    at: usize,
    failing: Vec<u64>,
    calls: u64,
    faults: u64,
}

/// Bytes in memory, with a list of the numbers of the calls that are to fail, counted from 1.
#[derive(Drop)]
pub struct MemSink {
    bytes: Vec<u8>,
    failing: Vec<u64>,
    calls: u64,
    faults: u64,
}

impl MemSource {
    /// A source that gives these bytes. Its reads of the numbers in `failing`, counted from 1, fail.
    pub fn new(bytes: Vec<u8>, failing: Vec<u64>) -> MemSource
        ensures tells { ⟦<MemSource as Source>⟧.tells result ≡ true }
        ensures left { ⟦<MemSource as Source>⟧.left result ≡ bytes.items }
        ensures count { ⟦<MemSource as Source>⟧.fault_count result ≡ 0 }
        ensures calls { reads_so_far result ≡ 0 }
        ensures failing { failing_reads result ≡ failing.items }
    {
        MemSource {
            bytes,
            at: 0,
            failing,
            calls: 0,
            faults: 0,
        }
    }
}

impl Source for MemSource {
    ghost tells = { λ _. true };

    ghost left = { λ s. drop s.at s.bytes.items };

    ghost fault_count = { λ s. s.faults };

    fn faults(&self) -> u64 {
        self.faults
    }

    fn read(&mut self, buf: &mut [u8]) -> Result<usize, Failed>
        ensures cause { HasOnlyCause self.old.faults self.new.faults result }
        ensures tells { true ≡ true }
        ensures within { IfOk result (λ n. n ≤ length buf.old) }
        ensures told { IsTrue true → IfOk result (ReadGives (drop self.old.at self.old.bytes.items) (drop self.new.at self.new.bytes.items) buf.old buf.new) }
        ensures stays { IsTrue true → OnErr result (drop self.new.at self.new.bytes.items ≡ drop self.old.at self.old.bytes.items) }
        // It fails exactly at the calls of its list.
        ensures exact { IsTrue (is_err result) ↔ Contains (failing_reads self.old) (next (reads_so_far self.old)) }
        ensures calls { reads_so_far self.new ≡ next (reads_so_far self.old) }
        ensures failing { failing_reads self.new ≡ failing_reads self.old }
        ensures count { CountsFault (is_err result) self.old.faults self.new.faults }
    {
        self.calls = self.calls.saturating_add(1);
        if self.failing.contains(&self.calls) {
            self.faults = self.faults.saturating_add(1);
            return Err(Failed);
        }
        if self.at >= self.bytes.len() {
            return Ok(0);
        }
        let n = buf.len().min(self.bytes.len() - self.at);
        buf[..n].copy_from_slice(&self.bytes[self.at..self.at + n]);
        self.at += n;
        Ok(n)
    }
}

impl MemSink {
    /// A sink that holds nothing. Its writes of the numbers in `failing`, counted from 1, fail.
    pub fn new(alloc: Global, failing: Vec<u64>) -> MemSink
        ensures tells { ⟦<MemSink as Sink>⟧.tells result ≡ true }
        ensures held { ⟦<MemSink as Sink>⟧.held result ≡ [] }
        ensures count { ⟦<MemSink as Sink>⟧.fault_count result ≡ 0 }
        ensures calls { writes_so_far result ≡ 0 }
        ensures failing { failing_writes result ≡ failing.items }
    {
        MemSink {
            bytes: Vec::new(alloc),
            failing,
            calls: 0,
            faults: 0,
        }
    }

    /// The bytes that were written.
    pub fn held(&self) -> &[u8]
        ensures { result.now ≡ ⟦<MemSink as Sink>⟧.held self.now }
    {
        &self.bytes
    }
}

impl Sink for MemSink {
    ghost tells = { λ _. true };

    ghost held = { λ s. s.bytes.items };

    ghost fault_count = { λ s. s.faults };

    fn faults(&self) -> u64 {
        self.faults
    }

    fn write(&mut self, bytes: &[u8]) -> Result<usize, Trouble>
        ensures cause { HasCause self.old.faults self.new.faults result }
        ensures tells { true ≡ true }
        ensures within { IfOk result (λ n. n ≤ length bytes.now) }
        ensures some { IfOk result (λ n. 0 < length bytes.now → 0 < n) }
        ensures told { IsTrue true → IfOk result (λ n. self.new.bytes.items ≡ self.old.bytes.items ++ take n bytes.now) }
        ensures stays { IsTrue true → OnErr result (self.new.bytes.items ≡ self.old.bytes.items) }
        // It takes the whole piece.
        ensures whole { IfOk result (λ n. n ≡ length bytes.now) }
        // It answers Failed exactly at the calls of its list.
        ensures exact { IsErrOf result Trouble.Failed ↔ Contains (failing_writes self.old) (next (writes_so_far self.old)) }
        ensures calls { writes_so_far self.new ≡ next (writes_so_far self.old) }
        ensures failing { failing_writes self.new ≡ failing_writes self.old }
        ensures rises { IsErrOf result Trouble.Failed → self.new.faults ≡ next self.old.faults }
        ensures same { IsErrOf result Trouble.NoMemory → self.new.faults ≡ self.old.faults }
        ensures unfailed { IfOk result (λ _. self.new.faults ≡ self.old.faults) }
    {
        self.calls = self.calls.saturating_add(1);
        if self.failing.contains(&self.calls) {
            self.faults = self.faults.saturating_add(1);
            return Err(Trouble::Failed);
        }
        match self.bytes.extend_from_slice(bytes) {
            Ok(()) => Ok(bytes.len()),
            Err(_) => Err(Trouble::NoMemory),
        }
    }
}
