// One entry of the log.
ghost use Rattle.std.specs.Prelude.{◌≡◌, IfOk};

use crate::{Bytes, NoMemory};

/// One entry of the log.
#[derive(Debug, Drop)]
pub struct Entry {
    /// The leadership term in which it was appended, -1 to 2^62, where -1 is none.
    pub term: i64,
    /// One event, as the event grammar spells it.
    pub bytes: Bytes,
}

impl Entry {
    /// A second entry that is equal to this one.
    pub fn copy(&self) -> Result<Entry, NoMemory>
        ensures { IfOk result (λ e. e ≡ self.now) }
    {
        let bytes = self.bytes.copy()?;
        Ok(Entry {
            term: self.term,
            bytes,
        })
    }
}
