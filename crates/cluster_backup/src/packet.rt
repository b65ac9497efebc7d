// The packets between a backup and a member.
ghost use Rattle.std.specs.Prelude.{◌≡◌, ◌≤◌, ◌^◌, pos};

use cl_base::{Bytes, List};

/// A count or a position (bytes) as packets have it.
pub fn number(n: u64) -> i64
    requires { n ≤ 2 ^ 62 }
    ensures { result ≡ pos n }
{
    n as i64
}

/// One packet between a backup and the member that it asks. Entries, starts, positions (bytes), terms and stamps (ms)
/// are 0 to 2^62.
#[derive(Debug, Drop)]
pub enum BackupPacket {
    /// A backup says what it has, and asks for more.
    Query {
        /// How many entries its log has.
        entries: i64,
        /// The position of its latest valid set of snapshots, or -1 where it has none.
        position: i64,
    },
    /// Committed entries of the member's log, from an entry on.
    Log {
        /// The index of the first entry.
        start: i64,
        /// The event of each entry, in strict form: 1 to 64 events.
        events: List<Bytes>,
    },
    /// The snapshot of one service, or of the module, in the member's latest valid set.
    Snapshot {
        /// The recording, which names the file of the pieces. Any value may stand here.
        recording: i64,
        /// The term of the snapshot action.
        term: i64,
        /// The place of the log after the action.
        position: i64,
        /// The stamp of the action.
        stamp: i64,
        /// The service, or -1 for the module. Any value may stand here.
        service: i32,
        /// The pieces, in strict form: fewer than 2^31 pieces.
        pieces: List<Bytes>,
    },
}
