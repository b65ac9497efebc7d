// The parts of sets that the entries have.
ghost use Rattle.std.specs.Prelude.{◌≡◌, ◌↔◌, List, [], ◌∷◌, ◌++◌, IsTrue, OnOk, OnErr};
ghost use Rattle.recording_log.specs.declared.entry.RecEntry.{RecEntry};
ghost use Rattle.recording_log.specs.Sets.{HasPart};
ghost use Rattle.recording_log.specs.Parts.{Tells, TellsWith, part_of};

use crate::entry::RecEntry;
use std::alloc::{AllocError, Global};
use std::collections::BTreeSet;

/// A part of a set: a valid SNAPSHOT entry of this position (bytes), term and service.
#[derive(Clone, Copy, Debug, PartialEq, Eq, PartialOrd, Ord)]
pub struct Part {
    /// 0 to 2^62.
    pub position: i64,
    /// 0 to 2^62.
    pub term: i64,
    /// The service, or -1 for the module.
    pub service: i32,
}

/// The parts that the entries of a log have. It is searched in a time that is logarithmic in their number.
#[derive(Drop)]
pub struct Parts {
    pub parts: BTreeSet<Part>,
}

/// The part that an entry is, where it is a valid SNAPSHOT entry.
fn part_of(entry: RecEntry) -> Part
    ensures { result ≡ part_of entry }
{
    Part {
        position: entry.position,
        term: entry.term,
        service: entry.service,
    }
}

/// One of the entries is the part of this service in the set of that entry's term and position. It looks at each.
fn is_among(entries: &[RecEntry], of: RecEntry, service: i32) -> bool
    ensures { IsTrue result ↔ HasPart entries.now of.term of.position service }
{
    for e in entries {
        if e.is_part(of, service) {
            return true;
        }
    }
    false
}

impl Parts {
    /// The parts of no entries.
    pub fn new(alloc: Global) -> Parts
        ensures { Tells result [] }
    {
        Parts {
            parts: BTreeSet::new(alloc),
        }
    }

    /// The entries have the part of this service in the set of that entry's term and position.
    pub fn has(&self, of: RecEntry, service: i32) -> bool
        ensures { (entries : List RecEntry) → Tells self.now entries → IsTrue result ↔ HasPart entries of.term of.position service }
    {
        self.parts.contains(&Part {
            position: of.position,
            term: of.term,
            service,
        })
    }

    /// Takes in one more entry. After an error the parts are as they were.
    pub fn take_in(&mut self, entry: RecEntry) -> Result<(), AllocError>
        ensures ok { (entries : List RecEntry) → Tells self.old entries → OnOk result (Tells self.new (entries ++ entry ∷ [])) }
        ensures err { (entries : List RecEntry) → Tells self.old entries → OnErr result (Tells self.new entries) }
    {
        if entry.is_snapshot() {
            self.parts.insert(part_of(entry))?;
        }
        Ok(())
    }

    /// Lets go of the part that an entry was, unless one of the entries is it too.
    pub fn let_go(&mut self, entries: &[RecEntry], entry: RecEntry)
        requires { TellsWith (part_of entry) self.old entries.now }
        ensures { Tells self.new entries.now }
    {
        if !is_among(entries, entry, entry.service) {
            self.parts.remove(&part_of(entry));
        }
    }
}
