// The lines of a report.
use cl_base::Entry;
use cluster_client::Got;
use egress::Sent;
use recording_log::SnapshotAt;

/// As what an entry is printed.
#[derive(Clone, Copy, Debug, PartialEq, Eq)]
pub enum EntryKind {
    /// An entry of the printed log.
    Printed,
    /// An entry that a service consumed.
    Consumed,
    /// An entry of a member's log where it differs from the printed one.
    Own,
}

/// Which run of a service it is.
#[derive(Clone, Copy, Debug, PartialEq, Eq)]
pub struct RunAt {
    pub member: u8,
    pub service: u8,
    /// The run's number among the member's runs, from 1.
    pub run: u64,
    /// The entries of the snapshot from which it began.
    pub from: u64,
}

/// What a member is at the end.
#[derive(Clone, Copy, Debug, PartialEq, Eq)]
pub struct MemberAt {
    pub member: u8,
    /// Its commit in entries. None where it is stopped.
    pub commit: Option<u64>,
    /// Its candidate term, -1 before any.
    pub candidate: i64,
    /// How many entries its log has.
    pub entries: u64,
    /// How many of them, from the front, are those of the printed log.
    pub same: u64,
}

/// What a backup is at the end.
#[derive(Clone, Copy, Debug, PartialEq, Eq)]
pub struct BackupAt {
    /// How many entries its log has.
    pub entries: u64,
    /// How many of them, from the front, are those of the printed log.
    pub same: u64,
}

/// What is told of a generated scenario in place of a report.
#[derive(Clone, Copy, Debug, PartialEq, Eq)]
pub struct Made {
    /// The messages that clients sent.
    pub messages: u64,
    /// The entries of the printed log.
    pub entries: u64,
    /// Where it ends, in bytes.
    pub place: u64,
    /// The new term entries in it.
    pub terms: u64,
    /// The orders that were refused.
    pub refused: u64,
    /// The records on all streams.
    pub egress: u64,
    /// The entries consumed by all runs of all services.
    pub inputs: u64,
}

/// One line of a report.
#[derive(Clone, Copy)]
pub enum Line<'a> {
    /// The head of the printed log, of so many entries.
    Log {
        entries: usize,
    },
    /// An entry with its number.
    Entry {
        kind: EntryKind,
        index: u64,
        entry: &'a Entry,
    },
    /// The head of a service's run, which consumed so many entries.
    Run {
        at: RunAt,
        count: usize,
    },
    /// The head of a stream of so many records.
    Stream {
        stream: i32,
        count: usize,
    },
    /// A record that was sent.
    Record(&'a Sent),
    /// The head of a joined client, 0 to 63, which was handed so many messages.
    Client {
        client: u64,
        count: usize,
    },
    /// A message that it was handed.
    Got(&'a Got),
    /// A member with so many valid snapshot sets.
    Member {
        end: MemberAt,
        sets: usize,
    },
    /// A stopped member whose disk failed as it was read.
    Unread {
        member: u8,
    },
    /// A stopped member whose file is first wrong at this place (bytes).
    Damaged {
        member: u8,
        file: u32,
        place: u64,
    },
    /// The backup with so many valid snapshot sets.
    Backup {
        end: BackupAt,
        sets: usize,
    },
    /// A stopped backup whose disk failed as it was read.
    BackupUnread,
    /// A stopped backup whose file is first wrong at this place (bytes).
    BackupDamaged {
        file: u32,
        place: u64,
    },
    /// A valid snapshot set.
    Set(&'a SnapshotAt),
    /// What is told of a generated scenario.
    Made(Made),
    /// The end.
    Done,
}
