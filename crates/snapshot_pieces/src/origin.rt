// Whose a snapshot is.

/// Whose a snapshot is, and of which entry.
#[derive(Clone, Copy, Debug, PartialEq, Eq)]
pub struct Origin {
    /// The service, 0 to 2, or -1 for the module.
    pub service: i32,
    /// The place of the log after the entry, 0 to 2^62, in bytes.
    pub position: u64,
    /// The entry's term, 0 to 2^62.
    pub term: i64,
}
