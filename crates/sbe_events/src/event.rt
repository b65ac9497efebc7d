// The events of the log.
use cl_base::Bytes;

/// One event of the log. Terms, positions (bytes) and stamps (ms) are 0 to 2^62.
#[derive(Debug, Drop)]
pub enum Event {
    /// A leader begins its term.
    Term {
        term: i64,
        /// The place of the log before this entry, before any pad.
        position: i64,
        stamp: i64,
        /// The place at which the term begins, which is the position.
        base: i64,
        /// The member that leads, 0 to 4.
        leader: i32,
    },
    /// A session is opened.
    Opened {
        term: i64,
        /// The number by which the client knows its connect.
        corr: i64,
        /// The session's number, at least 1.
        session: i64,
        stamp: i64,
        /// The stream on which the client listens.
        stream: i32,
        /// The channel on which the client listens, at most 1,024 bytes.
        channel: Bytes,
    },
    /// A client's message.
    Message {
        term: i64,
        /// At least 1.
        session: i64,
        stamp: i64,
        /// At most 16,384 bytes.
        payload: Bytes,
    },
    /// A message that a service sends to all services.
    ServiceMessage {
        term: i64,
        /// The service that offered it, 0 to 2.
        service: u8,
        /// Its number among that service's messages, 1 to 2^47.
        number: i64,
        stamp: i64,
        /// At most 16,384 bytes.
        payload: Bytes,
    },
    /// A timer is due.
    Timer {
        term: i64,
        /// The timer's name.
        corr: i64,
        stamp: i64,
    },
    /// A session is closed.
    Closed {
        term: i64,
        /// At least 1.
        session: i64,
        stamp: i64,
        /// 0 by the client, 1 by a service, 2 after too long a silence.
        reason: u8,
    },
    /// A snapshot is to be taken.
    Snapshot {
        term: i64,
        /// The place of the log before this entry, before any pad.
        position: i64,
        stamp: i64,
    },
}
