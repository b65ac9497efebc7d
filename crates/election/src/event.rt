// The left sides of the election's rows, and their right sides.
use entry_log::LogName;

/// What happens to a member: the left side of the rows. `own` names the member's log as it is on its disk.
#[derive(Clone, Copy, Debug, PartialEq, Eq)]
pub enum ElectionEvent {
    /// Its turn in a round. Rows P2 to P5, P8 and P9, by its state.
    Duty {
        own: LogName,
    },
    /// Another member asks for its vote in a term, with the name of its log. Row P6.
    RequestVote {
        from: u8,
        term: i64,
        named: LogName,
        own: LogName,
    },
    /// The answer to such a request. Row P7.
    Vote {
        from: u8,
        term: i64,
        granted: bool,
    },
}

/// What a row does: the right side of the rows. A raise has to be on the disk before anything is sent.
#[derive(Clone, Copy, Debug, PartialEq, Eq)]
pub enum Decision {
    /// No row holds: nothing changes, and nothing is sent.
    Nothing,
    /// It enters CANVASS. Row P2, and P5, P8 and P9 where a ballot can't go on.
    EnterCanvass,
    /// It enters NOMINATE. Row P3.
    Nominate,
    /// It hears the others for another canvass. Row P3.
    CanvassAgain,
    /// It sends a Canvass to the others. Row P4.
    Canvass,
    /// It raises the candidate term to this one, voting for itself, and then sends a RequestVote to the others. Row P5.
    Request { term: i64 },
    /// It sends a Vote 0, with no raise. Row P6.
    Refuse { to: u8, term: i64 },
    /// It sends the Vote 1 again that it gave in this term. Row P6.
    Repeat { to: u8, term: i64 },
    /// It raises the candidate term to this one, voting for nobody, and then sends a Vote 0. Row P6.
    RaiseAndRefuse { to: u8, term: i64 },
    /// It raises the candidate term to this one, voting for the sender, and then sends a Vote 1. Row P6.
    Grant { to: u8, term: i64 },
    /// It counts the sender's vote. Row P7.
    CountVote,
    /// It is elected. Row P8.
    Lead,
}
