// What the first piece of a snapshot has.

use crate::counts::Counted;

/// The id of the session that is opened next, and what the module counts.
#[derive(Clone, Copy, Debug, Drop)]
pub struct Head {
    pub next_id: i64,
    pub counts: Counted,
}
