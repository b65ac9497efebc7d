// The entries of the log.
ghost use Rattle.std.specs.Prelude.{◌≡◌, ◌≤◌, length, ◌<◌, ◌≤ℤ◌, if◌then◌else◌, Some, None, IsTrue, ◌↔◌, pos, ◌^◌};
ghost use Rattle.recording_log.specs.Entries.{entry_of};
ghost use Rattle.recording_log.specs.Valid.{in_range, is_valid, is_term, is_snapshot, term_of, names_snapshot, term_entry, snapshot_entry};
ghost use Rattle.recording_log.specs.Sets.{IsPart};

use cl_base::limits::NUMBER_LIMIT;
use wire_prims::{get_i32, get_i64, get_u32, put_i32, put_i64, put_u32};

/// The service number of the module.
pub const MODULE: i32 = -1;

/// The kind of an entry of a leadership term.
pub const TERM: u32 = 0;

/// The kind of an entry of a snapshot.
pub const SNAPSHOT: u32 = 1;

/// Recordings of snapshots are numbered below this.
pub const RECORDINGS: i64 = 1_024;

/// One entry of the log, as its bytes tell it, valid or not.
#[derive(Clone, Copy, Debug, PartialEq, Eq)]
pub struct RecEntry {
    /// The recording of a snapshot, 0 to 1,023 in a valid one. A term's entry has 0.
    pub recording: i64,
    /// The leadership term, 0 to 2^62 in a valid entry.
    pub term: i64,
    /// The place (bytes) at which that term begins in the log, 0 to 2^62 in a valid entry.
    pub base: i64,
    /// The place (bytes) of a snapshot, 0 to 2^62 in a valid one. A term's entry has -1.
    pub position: i64,
    /// The stamp (ms) of the term's first entry, or of the snapshot's action.
    pub stamp: i64,
    /// The service of a snapshot, from 0 on, or -1 for the module. A term's entry has -1.
    pub service: i32,
    /// 0 for a leadership term, 1 for a snapshot. Every other value makes the entry invalid.
    pub kind: u32,
}

/// A leadership term: its number, the place (bytes) at which it begins in the log, and the stamp (ms) of its entry.
#[derive(Clone, Copy, Debug, PartialEq, Eq)]
pub struct TermAt {
    /// 0 to 2^62.
    pub term: i64,
    /// 0 to 2^62.
    pub base: u64,
    pub stamp: i64,
}

/// A set of snapshots of one term and one position.
#[derive(Clone, Copy, Debug, PartialEq, Eq)]
pub struct SnapshotAt {
    /// The recording of the module's snapshot, 0 to 1,023.
    pub recording: u64,
    /// 0 to 2^62.
    pub term: i64,
    /// The place (bytes) in the log that the snapshots stand for, 0 to 2^62.
    pub position: u64,
}

fn is_in_range(n: i64) -> bool
    ensures { result ≡ in_range n }
{
    0 <= n && n <= NUMBER_LIMIT as i64
}

impl RecEntry {
    /// The entry at the front of these bytes.
    pub fn read(bytes: &[u8]) -> RecEntry
        requires { 48 ≤ length bytes.now }
        ensures { result ≡ entry_of bytes.now }
    {
        RecEntry {
            recording: get_i64(bytes, 0),
            term: get_i64(bytes, 8),
            base: get_i64(bytes, 16),
            position: get_i64(bytes, 24),
            stamp: get_i64(bytes, 32),
            service: get_i32(bytes, 40),
            kind: get_u32(bytes, 44),
        }
    }

    /// The bytes of the entry before its gate.
    pub fn bytes(self) -> [u8; 63]
        ensures { entry_of result ≡ self }
    {
        let mut block = [0; 63];
        put_i64(&mut block, 0, self.recording);
        put_i64(&mut block, 8, self.term);
        put_i64(&mut block, 16, self.base);
        put_i64(&mut block, 24, self.position);
        put_i64(&mut block, 32, self.stamp);
        put_i32(&mut block, 40, self.service);
        put_u32(&mut block, 44, self.kind);
        block
    }

    /// The entry counts.
    pub fn is_valid(&self) -> bool
        ensures { result ≡ is_valid self.now }
    {
        self.kind <= 1
            && is_in_range(self.term)
            && is_in_range(self.base)
            && (self.kind == TERM || self.names_snapshot())
    }

    fn names_snapshot(&self) -> bool
        ensures { result ≡ names_snapshot self.now }
    {
        0 <= self.recording && self.recording < RECORDINGS && is_in_range(self.position)
    }

    /// A SNAPSHOT entry that counts.
    pub fn is_snapshot(&self) -> bool
        ensures { result ≡ is_snapshot self.now }
    {
        self.is_valid() && self.kind == SNAPSHOT
    }

    /// A valid SNAPSHOT entry of this service, or of the module at -1, of the term and position of another entry.
    pub fn is_part(self, of: RecEntry, service: i32) -> bool
        ensures { IsTrue result ↔ IsPart of.term of.position service self }
    {
        if !self.is_snapshot() || self.term != of.term || self.position != of.position {
            return false;
        }
        self.service == service
    }

    /// The entry of a leadership term: its number (0 to 2^62), the place at which it begins (bytes), its stamp (ms).
    pub fn of_term(term: i64, base: u64, stamp: i64) -> RecEntry
        requires { base ≤ 2 ^ 62 }
        ensures { result ≡ term_entry term base stamp }
    {
        RecEntry {
            recording: 0,
            term,
            base: base as i64,
            position: -1,
            stamp,
            service: MODULE,
            kind: TERM,
        }
    }

    /// The entry of a snapshot: its recording (0 to 1,023), its term and the place at which that begins (bytes), its
    /// own place (bytes) and stamp (ms), and its service, or -1 for the module.
    pub fn of_snapshot(
        recording: u64,
        term: i64,
        base: u64,
        position: u64,
        stamp: i64,
        service: i32,
    ) -> RecEntry
        requires recording { recording < 1024 }
        requires base { base ≤ 2 ^ 62 }
        requires position { position ≤ 2 ^ 62 }
        ensures { result ≡ snapshot_entry recording term base position stamp service }
    {
        RecEntry {
            recording: recording as i64,
            term,
            base: base as i64,
            position: position as i64,
            stamp,
            service,
            kind: SNAPSHOT,
        }
    }

    /// What a valid SNAPSHOT entry names.
    pub fn as_snapshot(self) -> SnapshotAt
        requires { IsTrue (is_snapshot self) }
        ensures recording { self.recording ≡ pos result.recording }
        ensures term { self.term ≡ result.term }
        ensures position { self.position ≡ pos result.position }
        ensures named { result.recording < 1024 }
        ensures low { pos 0 ≤ℤ result.term }
        ensures high { result.term ≤ℤ pos (2 ^ 62) }
    {
        SnapshotAt {
            recording: self.recording as u64,
            term: self.term,
            position: self.position as u64,
        }
    }

    /// The leadership term of a valid TERM entry.
    pub fn as_term(&self) -> Option<TermAt>
        ensures { result ≡ (if is_term self.now then Some (term_of self.now) else None) }
    {
        if self.is_valid() && self.kind == TERM {
            Some(TermAt {
                term: self.term,
                base: self.base as u64,
                stamp: self.stamp,
            })
        } else {
            None
        }
    }
}
