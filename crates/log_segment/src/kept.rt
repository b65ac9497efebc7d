// The log as it is remembered: its index, the terms that begin in it, and its entries as clauses see them.
ghost use Rattle.std.specs.Prelude.{◌≡◌, ◌%◌, ◌+◌, ◌<◌, ◌≤◌, ◌≤ℤ◌, ◌++◌, [], ◌∷◌, All, length, take, OnOk, OnErr, vec_len, vec_capacity};
ghost use Rattle.entry_log.specs.Log.{RisesFrom, end_after, last, place, place_from};
ghost use Rattle.entry_log.specs.Shape.{shape_of};
ghost use Rattle.log_segment.specs.Held.{put_term};

use cl_base::{Entry, NoMemory};
use entry_log::LogIndex;
use std::alloc::Global;
use std::marker::Model;
use std::snapshot::Snapshot;
use wire_prims::{get_i64, get_u16};

/// The template of the event by which a leader begins its term.
const TERM_TEMPLATE: u16 = 24;

/// The bytes of that event.
const TERM_BYTES: usize = 48;

/// A leadership term that begins in the log.
#[derive(Clone, Copy, Debug, PartialEq, Eq)]
pub struct NewTerm {
    /// The index of the entry by which it begins.
    pub entry: u64,
    /// The term, 0 to 2^62.
    pub term: i64,
    /// The place (bytes) at which it begins.
    pub base: u64,
    /// The stamp (ms) of that entry.
    pub stamp: i64,
}

impl NewTerm {
    ghost use Rattle.log_segment.specs.Held.{new_term_of};

    /// The term that begins by an entry of this index, None where none does.
    pub fn of(entry: u64, event: &[u8]) -> Option<NewTerm>
        ensures { result ≡ new_term_of entry event.now }
    {
        if event.len() != TERM_BYTES || get_u16(event, 2) != TERM_TEMPLATE {
            return None;
        }
        Some(NewTerm {
            entry,
            term: get_i64(event, 8),
            base: get_i64(event, 32).cast_unsigned(),
            stamp: get_i64(event, 24),
        })
    }
}

/// The entries of a log, of which no byte is kept: only clauses read them.
#[derive(Drop)]
pub struct KeptLog {
    index: LogIndex,
    terms: Vec<NewTerm>,
    entries: Vec<Snapshot<Entry>>,
}

impl Model for KeptLog {
    ghost use Rattle.std.specs.Prelude.{◌≡◌};
    ghost use Rattle.entry_log.specs.Log.{Log};
    ghost use Rattle.entry_log.specs.Shape.{shape_of};
    ghost use Rattle.log_segment.specs.Kept.{values};
    ghost use Rattle.log_segment.specs.Held.{IsHeld, new_terms};

    ghost Value = { Log };

    ghost view = { λ l. values l.entries.items };

    ghost invariant = { λ l. (l.index ≡ shape_of (values l.entries.items)) × IsHeld (values l.entries.items) × (l.terms.items ≡ new_terms 0 (values l.entries.items)) };
}

/// Puts a value where there is room for it.
fn put<T: Drop>(values: &mut Vec<T>, value: T)
    requires { vec_len values.old < vec_capacity values.old }
    ensures { values.new.items ≡ values.old.items ++ value ∷ [] }
{
    match values.push(value) {
        Ok(()) => (),
        Err(_) => unreachable!(),
    }
}

/// Puts a value where there is one, and room for it.
fn put_some(values: &mut Vec<NewTerm>, value: Option<NewTerm>)
    requires { vec_len values.old < vec_capacity values.old }
    ensures { values.new.items ≡ values.old.items ++ put_term value [] }
{
    if let Some(value) = value {
        put(values, value);
    }
}

impl KeptLog {
    ghost use Rattle.log_segment.specs.Held.{IsEventEntry, IsHeld, new_terms};

    /// The empty log.
    pub fn new(alloc: Global) -> KeptLog
        ensures { result ≡ [] }
    {
        KeptLog {
            index: LogIndex::new(alloc),
            terms: Vec::new(alloc),
            entries: Vec::new(alloc),
        }
    }

    /// Puts an entry behind the last. Where there is no memory the log stays as it was.
    pub fn push(&mut self, entry: &Entry) -> Result<(), NoMemory>
        requires event { IsEventEntry entry.now }
        requires term { last self.old ≤ℤ entry.now.term }
        requires room { end_after (place self.old) (length entry.now.bytes) ≤ 16777216 }
        ensures ok { OnOk result (self.new ≡ self.old ++ entry.now ∷ []) }
        ensures err { OnErr result (self.new ≡ self.old) }
    {
        if self.terms.reserve(1).is_err() || self.entries.reserve(1).is_err() {
            return Err(NoMemory);
        }
        let event = entry.bytes.as_slice();
        let begins = NewTerm::of(self.index.entries(), event);
        self.index.push(entry.term, event.len() as u64)?;
        put_some(&mut self.terms, begins);
        put(&mut self.entries, Snapshot::of(entry));
        Ok(())
    }

    /// Puts entries behind the last. Where there is no memory the log stays as it was.
    pub fn push_all(&mut self, entries: &[Entry]) -> Result<(), NoMemory>
        requires events { All IsEventEntry entries.now }
        requires rises { RisesFrom (last self.old) entries.now }
        requires room { place_from (place self.old) entries.now ≤ 16777216 }
        ensures ok { OnOk result (self.new ≡ self.old ++ entries.now) }
        ensures err { OnErr result (self.new ≡ self.old) }
    {
        let before = self.index().entries();
        for entry in entries {
            match self.push(entry) {
                Ok(()) => (),
                Err(_) => {
                    self.cut(before);
                    return Err(NoMemory);
                }
            }
        }
        Ok(())
    }

    /// Keeps so many entries.
    pub fn cut(&mut self, entries: u64)
        requires { entries ≤ length self.old }
        ensures { self.new ≡ take entries self.old }
    {
        self.index.cut(entries);
        self.entries.truncate(entries as usize);
        let kept = self.terms.partition_point(|term| term.entry < entries);
        self.terms.truncate(kept);
    }

    /// The index of the log.
    pub fn index(&self) -> &LogIndex
        ensures index { result.now ≡ shape_of self.now }
        ensures sound { IsHeld self.now }
    {
        &self.index
    }

    /// Where the log ends, in bytes.
    pub fn place(&self) -> u64
        ensures place { result ≡ place self.now }
        ensures high { result ≤ 16777216 }
        ensures whole { result % 32 ≡ 0 }
    {
        self.index.place()
    }

    /// The term of the last entry, -1 where there is none.
    pub fn last_term(&self) -> i64
        ensures { result ≡ last self.now }
    {
        self.index.last_term()
    }

    /// The terms that begin in the log, in order.
    pub fn terms(&self) -> &[NewTerm]
        ensures { result.now ≡ new_terms 0 self.now }
    {
        &self.terms
    }
}
