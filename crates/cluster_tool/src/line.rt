// The lines of a listing.
use crate::compare::Comparison;
use recording_log::{RecEntry, SnapshotAt};

/// What a member's files stand for, but for its sets of snapshots.
#[derive(Clone, Copy)]
pub struct Summary {
    /// The candidate term, -1 to 2^62, where -1 is none.
    pub candidate: i64,
    /// How many entries the log has.
    pub entries: u64,
    /// Where the log ends, in bytes.
    pub place: u64,
    /// How many entries of the log begin a leadership term.
    pub terms: u64,
    /// How many valid sets of snapshots there are.
    pub sets: u64,
}

/// Some lines of a listing.
#[derive(Clone, Copy)]
pub enum Line<'a> {
    /// What a member's files stand for.
    Summary(Summary),
    /// A valid set of snapshots.
    Set(&'a SnapshotAt),
    /// An entry of a recording log, valid or not.
    Recorded(&'a RecEntry),
    /// How far two logs are the same.
    Compared(Comparison),
    /// The end.
    Done,
}
