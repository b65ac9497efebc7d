// What a run says while it goes on: records to clients, and what became of orders.
use sbe_client::Egress;

/// What owes a record that was sent to a client.
#[derive(Clone, Copy, Debug, PartialEq, Eq)]
pub enum Origin {
    /// The module, at this entry. The number counts what it owes there, from 0.
    Module {
        entry: u64,
        number: u64,
    },
    /// A service, at this entry. The number counts what it owes there, from 0.
    Service {
        entry: u64,
        service: u8,
        number: u64,
    },
    /// No entry: an answer to a connect that was refused.
    Direct,
}

/// A record that was sent.
#[derive(Debug, Drop)]
pub struct Sent {
    pub stream: i32,
    pub origin: Origin,
    pub egress: Egress,
}

/// What became of a client's message.
#[derive(Clone, Copy, Debug, PartialEq, Eq)]
pub enum Outcome {
    /// The member doesn't lead. It knows this leader.
    NotLeader { leader: Option<u8> },
    /// The message names this term, and the member leads another.
    WrongTerm { term: i64 },
    /// This session isn't open.
    NoSession { session: i64 },
    /// The payload has so many bytes, above the limit.
    TooLarge { bytes: u64 },
    /// As many sessions are open as may be.
    SessionLimit,
    /// With the entry so many bytes of the log would wait for their commit.
    BackPressure { bytes: u64 },
    /// The entry would end at this place (bytes), past the log's end.
    LogFull { place: u64 },
    /// The entry is in the leader's log at this index.
    Accepted { index: u64 },
}

/// What became of the order in a line.
#[derive(Clone, Copy, Debug, PartialEq, Eq)]
pub struct OrderLine {
    pub line: u64,
    pub outcome: Outcome,
}
