// An index of a log.
ghost use Rattle.std.specs.Prelude.{◌≡◌, ◌+◌, ◌^◌, ◌<◌, ◌≤◌, ◌≤ℤ◌, [], ◌∷◌, ◌++◌, length, take, map, slice_index, OnOk, OnErr};

use crate::places::end_after;
use cl_base::NoMemory;
use std::alloc::Global;
use std::marker::Model;

/// Where one entry ends.
#[derive(Clone, Copy)]
struct Stop {
    /// The entry's term.
    term: i64,
    /// The bytes of its event.
    event_len: u64,
    /// The place of the log up to and including it, in bytes.
    end: u64,
}

/// An index of a log: of each entry the term, the length of its event and where it ends. Contracts see it as the
/// log's shape. It is searched by halves, and only `push` takes memory.
#[derive(Drop)]
pub struct LogIndex {
    stops: Vec<Stop>,
}

impl Model for LogIndex {
    ghost use Rattle.entry_log.specs.Shape.{Shape};
    ghost use Rattle.entry_log.specs.Index.{shape_at, IsIndexed};

    ghost Value = { Shape };

    ghost view = { λ x. shape_at x.stops.items };

    ghost invariant = { λ x. IsIndexed x.stops.items };
}

impl LogIndex {
    ghost use Rattle.entry_log.specs.Shape.{last_term_of, end_of, ends_by, end_of_term, terms_to, lens_of, TermsRise};

    /// The index of the empty log.
    pub fn new(alloc: Global) -> LogIndex
        ensures { result ≡ [] }
    {
        LogIndex {
            stops: Vec::new(alloc),
        }
    }

    /// Puts an entry behind the last. Its term isn't below the last one, its event has at most 32,768 bytes, and the
    /// log's place before it is at most 2^62. Where there is no memory the index stays as it was.
    pub fn push(&mut self, term: i64, event_len: u64) -> Result<(), NoMemory>
        requires place { end_of self.old ≤ 2 ^ 62 }
        requires term { last_term_of self.old ≤ℤ term }
        requires event_len { event_len ≤ 32768 }
        ensures ok { OnOk result (self.new ≡ self.old ++ record { term = term; len = event_len } ∷ []) }
        ensures err { OnErr result (self.new ≡ self.old) }
    {
        let end = end_after(self.place(), event_len);
        let stop = Stop {
            term,
            event_len,
            end,
        };
        match self.stops.push(stop) {
            Ok(()) => Ok(()),
            Err(_) => Err(NoMemory),
        }
    }

    /// Drops all but the first entries.
    pub fn cut(&mut self, entries: u64)
        requires { entries ≤ length self.old }
        ensures { self.new ≡ take entries self.old }
    {
        self.stops.truncate(entries as usize);
    }

    /// How many entries the log has.
    pub fn entries(&self) -> u64
        ensures count { result ≡ length self.now }
        ensures rises { TermsRise self.now }
    {
        self.stops.len() as u64
    }

    /// Where the log ends, in bytes.
    pub fn place(&self) -> u64
        ensures { result ≡ end_of self.now }
    {
        match self.stops.last() {
            Some(stop) => stop.end,
            None => 0,
        }
    }

    /// Where the first entries end, in bytes.
    pub fn end_at(&self, entries: u64) -> u64
        requires { entries ≤ length self.now }
        ensures { result ≡ end_of (take entries self.now) }
    {
        if entries == 0 {
            0
        } else {
            self.stops[entries as usize - 1].end
        }
    }

    /// The term of the last of the first entries, -1 where these are none.
    pub fn term_at(&self, entries: u64) -> i64
        requires { entries ≤ length self.now }
        ensures { result ≡ last_term_of (take entries self.now) }
    {
        if entries == 0 {
            -1
        } else {
            self.stops[entries as usize - 1].term
        }
    }

    /// The bytes of the event of the entry at an index.
    pub fn event_len(&self, entry: u64) -> u64
        requires { entry < length self.now }
        ensures { result ≡ slice_index (lens_of self.now) entry }
    {
        self.stops[entry as usize].event_len
    }

    /// How many entries end at most at a place (bytes).
    pub fn entries_to(&self, place: u64) -> u64
        ensures count { result ≡ ends_by place self.now }
        ensures within { result ≤ length self.now }
    {
        self.stops.partition_point(|stop| stop.end <= place) as u64
    }

    /// How many entries the longest prefix has whose terms are at most `term`.
    pub fn entries_through(&self, term: i64) -> u64
        ensures count { result ≡ length (terms_to term self.now) }
        ensures prefix { terms_to term self.now ≡ take result self.now }
        ensures within { result ≤ length self.now }
        ensures rises { TermsRise self.now }
    {
        self.stops.partition_point(|stop| stop.term <= term) as u64
    }

    /// The term of the last entry, -1 where there is none.
    pub fn last_term(&self) -> i64
        ensures { result ≡ last_term_of self.now }
    {
        match self.stops.last() {
            Some(stop) => stop.term,
            None => -1,
        }
    }

    /// Where the last entry of a term ends, in bytes, 0 where there is none.
    pub fn end_of_term(&self, term: i64) -> u64
        ensures { result ≡ end_of_term term self.now }
    {
        let entries = self.entries_through(term);
        if self.term_at(entries) == term {
            self.end_at(entries)
        } else {
            0
        }
    }
}
