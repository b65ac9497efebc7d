// Where a stop cuts a row.

/// Whether a stop cuts a row, and where.
#[derive(Clone, Copy, Debug, PartialEq, Eq)]
pub enum Cut {
    /// None does: the change is made, and then the packets go out.
    Whole,
    /// Before its change of the disk: nothing is changed or sent, and the member is stopped.
    Before,
    /// After its change of the disk: nothing is sent, and the member is stopped.
    After,
}
