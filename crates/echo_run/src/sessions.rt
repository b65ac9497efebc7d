// Lists of sessions.
ghost use Rattle.std.specs.Prelude.{◌≡◌, IfOk, filter, find, not};
ghost use Rattle.echo_run.specs.Module.{is_session, others_than};

use crate::Session;
use cl_base::{List, NoMemory};
use std::alloc::Global;

/// The first session of this number.
pub(crate) fn session_among(sessions: &[Session], id: i64) -> Option<Session>
    ensures { result ≡ find (is_session id) sessions.now }
{
    sessions.iter().find(|s| s.id == id).copied()
}

/// The sessions of other numbers.
pub(crate) fn without(
    alloc: Global,
    sessions: &[Session],
    id: i64,
) -> Result<List<Session>, NoMemory>
    ensures { IfOk result (λ kept. kept ≡ others_than id sessions.now) }
{
    let mut kept = List::new(alloc);
    for s in sessions {
        if s.id != id {
            kept.push(*s)?;
        }
    }
    Ok(kept)
}
