// The packets by which members agree.
use cl_base::{Bytes, Entry, List};

/// One packet from a member to another. Members are 0 to 4. Terms and positions (bytes) are 0 to 2^62; a term that
/// names the last of a log is -1 where the log is empty.
#[derive(Debug, Drop)]
pub enum Packet {
    /// A member says how long its log is.
    Canvass {
        /// The term of its log's last entry, -1 to 2^62.
        log_term: i64,
        /// The place of its log's end.
        log_position: i64,
        /// Its candidate term, -1 to 2^62.
        candidate_term: i64,
        member: i32,
    },
    /// A candidate asks for a vote.
    RequestVote {
        /// The term of its log's last entry, -1 to 2^62.
        log_term: i64,
        /// The place of its log's end.
        log_position: i64,
        /// The term in which it would lead.
        candidate_term: i64,
        candidate: i32,
    },
    /// The answer to a request for a vote.
    Vote {
        /// The term that was asked for.
        candidate_term: i64,
        /// The term of the follower's last entry, -1 to 2^62.
        log_term: i64,
        /// The place of the follower's log's end.
        log_position: i64,
        candidate: i32,
        follower: i32,
        /// 1 for yes, 0 for no.
        vote: i32,
    },
    /// A leader tells its term. It answers a canvass with what of the follower's log may stay, or announces itself.
    NewTerm {
        /// The last term that the canvass named, -1 to 2^62, or -2 in an announcement.
        asked_term: i64,
        /// The place that the canvass named, 0 in an announcement.
        asked_position: i64,
        /// The greatest term up to which the log may stay, -1 to 2^62, -1 in an announcement.
        keep_term: i64,
        /// The place up to which the log may stay, 0 in an announcement.
        keep_position: i64,
        term: i64,
        leader: i32,
    },
    /// A follower says how far its log has come.
    Append {
        term: i64,
        position: i64,
        member: i32,
    },
    /// A leader says how far its log is committed.
    Commit {
        term: i64,
        position: i64,
        leader: i32,
    },
    /// A leader's entries from a place on.
    LogBatch {
        term: i64,
        start_position: i64,
        leader: i32,
        /// 1 to 64 entries, each with one event and that event's term.
        entries: List<Entry>,
    },
}

/// A packet that is to be sent.
#[derive(Debug, Drop)]
pub struct Outgoing {
    /// The member that is to get it.
    pub to: u8,
    /// The packet's spelling.
    pub bytes: Bytes,
}
