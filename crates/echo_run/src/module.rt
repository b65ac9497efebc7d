// What the log means to the module.
use crate::sessions::{session_among, without};
use cl_base::{List, NoMemory};
use sbe_events::Event;
use std::alloc::Global;

/// A session that is open.
#[derive(Clone, Copy, Debug, PartialEq, Eq)]
pub struct Session {
    /// Its number, at least 1.
    pub id: i64,
    /// The number by which the client knows its connect.
    pub corr: i64,
    /// The stream on which the client listens.
    pub stream: i32,
}

/// What the log means to the module.
#[derive(Debug, Drop)]
pub struct Module {
    /// The open sessions, in the order of their opens.
    pub sessions: List<Session>,
    /// The number of the next session.
    pub next_id: i64,
    /// The leader that the last new term names, -1 before any.
    pub leader: i32,
}

impl Module {
    ghost use Rattle.std.specs.Prelude.{◌≡◌, OnOk, pos, ◌<ℤ◌, ◌^◌};
    ghost use Rattle.echo_run.specs.Module.{empty, opened, closed, module_after, session_of};

    /// Before any event.
    pub fn new(alloc: Global) -> Module
        ensures { result ≡ empty }
    {
        Module {
            sessions: List::new(alloc),
            next_id: 1,
            leader: -1,
        }
    }

    fn open(&mut self, session: Session) -> Result<(), NoMemory>
        requires { self.old.next_id <ℤ pos (2 ^ 62) }
        ensures { OnOk result (self.new ≡ opened self.old session) }
    {
        self.sessions.push(session)?;
        self.next_id += 1;
        Ok(())
    }

    fn close(&mut self, alloc: Global, id: i64) -> Result<(), NoMemory>
        ensures { OnOk result (self.new ≡ closed self.old id) }
    {
        let sessions = without(alloc, self.sessions.as_slice(), id)?;
        self.sessions = sessions;
        Ok(())
    }

    /// Goes on by one event. A session's number is below 2^62.
    pub fn apply(&mut self, alloc: Global, event: &Event) -> Result<(), NoMemory>
        requires numbered { self.old.next_id <ℤ pos (2 ^ 62) }
        ensures tables { OnOk result (self.new ≡ module_after self.old event.now) }
    {
        match event {
            Event::Term { leader, .. } => {
                self.leader = *leader;
                Ok(())
            }
            Event::Opened {
                corr,
                session,
                stream,
                ..
            } => self.open(Session {
                id: *session,
                corr: *corr,
                stream: *stream,
            }),
            Event::Closed { session, .. } => self.close(alloc, *session),
            _ => Ok(()),
        }
    }

    /// The session of this number, where it is open.
    pub fn session(&self, id: i64) -> Option<Session>
        ensures { result ≡ session_of self.now id }
    {
        session_among(self.sessions.as_slice(), id)
    }
}
