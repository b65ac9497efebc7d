// What a member looks at before it takes what a client sends.
ghost use Rattle.std.specs.Prelude.{◌≡◌, ◌≤◌, ◌^◌, Some, None};
ghost use Rattle.ingress.specs.Outcomes.{first_row, leading_rows, naming_rows, size_rows, open_rows, action_rows, room_rows};

use crate::Outcome;
use cl_base::limits::{ACTIONS_LIMIT, LOG_LIMIT, SESSIONS_LIMIT, WINDOW_LIMIT};
use session_manager::Sessions;

/// What decides on an order at a member: whether and in which term it leads, how long its log is, and the sessions that
/// are open at the log's end.
#[derive(Clone, Copy)]
pub struct View<'a> {
    /// The member leads, and its own new term entry is appended.
    pub ready: bool,
    /// The leader that the member knows, -1 where it knows none.
    pub leader: i32,
    /// The term in which the member leads, 0 to 2^62 where it does.
    pub term: i64,
    /// Where its log ends, in bytes.
    pub place: u64,
    /// Where its committed entries end, in bytes.
    pub commit_place: u64,
    /// The sessions after the whole log.
    pub sessions: &'a Sessions,
}

impl View<'_> {
    /// The member doesn't lead.
    pub fn leading_refusal(&self) -> Option<Outcome>
        ensures { result ≡ first_row (leading_rows self.now) }
    {
        if !self.ready {
            return Some(Outcome::NotLeader {
                leader: self.leader,
            });
        }
        None
    }

    /// The term or the session that a message names isn't right.
    pub fn naming_refusal(&self, term: i64, session: i64) -> Option<Outcome>
        ensures { result ≡ first_row (naming_rows self.now term session) }
    {
        if term != self.term {
            return Some(Outcome::WrongTerm { term });
        }
        if self.sessions.find(session).is_none() {
            return Some(Outcome::NoSession { session });
        }
        None
    }

    /// As many sessions are open as may be.
    pub fn open_refusal(&self) -> Option<Outcome>
        ensures { result ≡ first_row (open_rows self.now) }
    {
        if self.sessions.open_count() >= SESSIONS_LIMIT {
            return Some(Outcome::SessionLimit);
        }
        None
    }

    /// An entry that would end at this place has no room.
    pub fn room_refusal(&self, end: u64) -> Option<Outcome>
        ensures { result ≡ first_row (room_rows self.now end) }
    {
        let waiting = end.saturating_sub(self.commit_place);
        if waiting > WINDOW_LIMIT {
            return Some(Outcome::BackPressure { bytes: waiting });
        }
        if end > LOG_LIMIT {
            return Some(Outcome::LogFull { place: end });
        }
        None
    }
}

/// So many bytes are above their limit.
pub fn size_refusal(bytes: usize, limit: usize) -> Option<Outcome>
    ensures { result ≡ first_row (size_rows bytes limit) }
{
    if bytes > limit {
        return Some(Outcome::TooLarge {
            bytes: bytes as u64,
        });
    }
    None
}

/// The log has as many snapshot actions as it may have.
pub fn action_refusal(actions: u64) -> Option<Outcome>
    ensures { result ≡ first_row (action_rows actions) }
{
    if actions >= ACTIONS_LIMIT {
        return Some(Outcome::ActionLimit);
    }
    None
}
