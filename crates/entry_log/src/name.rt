// What members say of a log to each other, and which of two logs is better.
ghost use Rattle.std.specs.Prelude.{◌≡◌};
ghost use Rattle.entry_log.specs.Log.{better};

/// What names a log: the term of its last entry and its place.
#[derive(Clone, Copy, Debug, PartialEq, Eq)]
pub struct LogName {
    /// -1 to 2^62, where -1 is that of the empty log.
    pub term: i64,
    /// In bytes, 0 to 2^62.
    pub place: u64,
}

/// Whether a log of the first term and place (bytes) is better than one of the second: its last term is greater, or
/// the last terms are equal and its place is greater.
pub fn better(t1: i64, p1: u64, t2: i64, p2: u64) -> bool
    ensures { result ≡ better t1 p1 t2 p2 }
{
    t1 > t2 || (t1 == t2 && p1 > p2)
}
