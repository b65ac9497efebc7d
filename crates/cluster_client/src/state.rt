// How far a client is.
ghost use Rattle.std.specs.Prelude.{◌≡◌};

/// How far a client is.
#[derive(Clone, Copy, Debug, PartialEq, Eq)]
pub enum State {
    /// It asked no member for a session that could still answer.
    Unconnected,
    /// It asked a member, and waits for the answer.
    Connecting,
    /// It has a session.
    Open {
        /// The session, as the cluster numbers it.
        session: i64,
        /// The greatest leadership term that the session was told.
        term: i64,
        /// The member that leads in that term.
        leader: u8,
    },
    /// The cluster closed its session. It stays so.
    Closed,
}
