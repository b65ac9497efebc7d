// The moment at which a leader asks what is due.

/// When a leader asks what is due, and the term in which it leads.
#[derive(Clone, Copy, Debug, PartialEq, Eq)]
pub struct Moment {
    /// The leader's term, 0 to 2^62.
    pub term: i64,
    /// The present moment, in ms.
    pub now: u64,
    /// The moment since which this member leads, in ms.
    pub since: u64,
}
