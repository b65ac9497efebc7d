// What became of an order.
use wire_prims::Bad;

/// What became of what a client sent, or of an action, at a member.
#[derive(Clone, Copy, Debug, PartialEq, Eq)]
pub enum Outcome {
    /// The member is stopped.
    MemberDown,
    /// The bytes are no message of a client. This is their first fault.
    Bad(Bad),
    /// The member doesn't lead. It knows this leader, -1 where it knows none.
    NotLeader { leader: i32 },
    /// The message names this term, and the member leads another.
    WrongTerm { term: i64 },
    /// This session isn't open.
    NoSession { session: i64 },
    /// The payload or the response channel has so many bytes, above its limit.
    TooLarge { bytes: u64 },
    /// As many sessions are open as may be.
    SessionLimit,
    /// The log has as many snapshot actions as it may have.
    ActionLimit,
    /// With the entry so many bytes of the log would wait for their commit.
    BackPressure { bytes: u64 },
    /// The entry would end at this place (bytes), past the log's end.
    LogFull { place: u64 },
    /// The member's disk failed, and the member is stopped.
    Device,
    /// The session was heard of. Nothing is appended.
    Alive,
    /// The entry is in the leader's log at this index.
    Accepted { index: u64 },
}
