// The open sessions.
ghost use Rattle.std.specs.Prelude.{◌≡◌, ◌<ℤ◌, ◌≤◌, ◌<◌, ◌+◌, ◌^◌, ◌++◌, ◌↔◌, OnOk, OnErr, IfOk, IfSome, IsTrue, Some, None, false, true, is_some, length, option_copied, pos};
ghost use Rattle.std.specs.List.{AllByRecursion};
ghost use Rattle.session_manager.specs.Sessions.{none_before, with_last, first_sessions, session_of, session_at, sessions_after, sessions_due, marked_at, stamped_at, closed_at, opened, is_next, idle_id};

use crate::Session;
use crate::order::{key_of, place_of};
use crate::under::{mark_under, raise_under};
use cl_base::limits::NUMBER_LIMIT;
use cl_base::{List, NoMemory};
use sbe_events::Event;
use slab::Slab;
use std::alloc::Global;
use std::marker::Model;

/// The open sessions. Contracts see them by rising id with the next id, and beside them how many more can be opened
/// without memory.
#[derive(Drop)]
pub struct Sessions {
    slab: Slab<Session>,
    order: Vec<(i64, usize)>,
    next_id: i64,
}

impl Model for Sessions {
    ghost use Rattle.std.specs.Prelude.{vec_capacity};
    ghost use Rattle.session_manager.specs.Sessions.{SessionsSeen};
    ghost use Rattle.session_manager.specs.Kept.{IsKept, seen_of};

    ghost Value = { SessionsSeen };

    ghost view = { λ t. seen_of t.slab t.order.items (vec_capacity t.order) t.next_id };

    ghost invariant = { λ t. IsKept t.slab t.order.items t.next_id };
}

impl Sessions {
    /// No sessions, the first id, and no room. It takes no memory.
    pub fn new(alloc: Global) -> Sessions
        ensures { result.table ≡ first_sessions }
    {
        Sessions {
            slab: Slab::new(alloc),
            order: Vec::new(alloc),
            next_id: 1,
        }
    }

    /// No sessions, and the id of the next one, 1 to 2^62. It takes no memory.
    pub fn before(alloc: Global, next_id: i64) -> Sessions
        ensures { result.table ≡ none_before next_id }
    {
        Sessions {
            slab: Slab::new(alloc),
            order: Vec::new(alloc),
            next_id,
        }
    }

    /// Puts an open session behind the others, as a snapshot has it. The next id stays.
    pub fn restore(&mut self, s: Session) -> Result<(), NoMemory>
        requires above { AllByRecursion (λ r. r.id <ℤ s.id) self.old.table.listed }
        requires below { s.id <ℤ self.old.table.next_id }
        ensures ok { OnOk result (self.new.table ≡ with_last s self.old.table) }
        ensures err { OnErr result (self.new.table ≡ self.old.table) }
    {
        self.reserve()?;
        let id = s.id;
        let key = self.slab.insert_reserved(s);
        self.order.push_reserved((id, key));
        Ok(())
    }

    /// A second table that is equal to this one.
    pub fn copy(&self) -> Result<Sessions, NoMemory>
        ensures { IfOk result (λ s. s.table ≡ self.now.table) }
    {
        let mut copies = Sessions::before(*self.order.allocator(), self.next_id);
        for place in 0..self.open_count() {
            if let Some(session) = self.at(place) {
                copies.restore(session.copy()?)?;
            }
        }
        Ok(copies)
    }

    /// The id that the next session has.
    pub fn next_id(&self) -> i64
        ensures { result ≡ self.now.table.next_id }
    {
        self.next_id
    }

    /// How many sessions are open.
    pub fn open_count(&self) -> u64
        ensures { result ≡ length self.now.table.listed }
    {
        self.order.as_slice().len() as u64
    }

    /// The open session of an id.
    pub fn find(&self, id: i64) -> Option<&Session>
        ensures { option_copied result ≡ session_of self.now.table id }
    {
        match key_of(self.order.as_slice(), id) {
            Some(key) => self.slab.get(key),
            None => None,
        }
    }

    /// The session at a place in the order of ids, from 0.
    pub fn at(&self, place: u64) -> Option<&Session>
        ensures { option_copied result ≡ session_at self.now.table.listed place }
    {
        let pairs = self.order.as_slice();
        if place >= pairs.len() as u64 {
            return None;
        }
        self.slab.get(pairs[place as usize].1)
    }

    /// Makes room for one more session. Where there is no memory the sessions stay as they are.
    pub fn reserve(&mut self) -> Result<(), NoMemory>
        ensures room { OnOk result (1 ≤ self.new.rooms) }
        ensures table { self.new.table ≡ self.old.table }
        ensures rooms { self.old.rooms ≤ self.new.rooms }
    {
        self.slab.reserve(1)?;
        self.order.reserve(1)?;
        Ok(())
    }

    /// Opens a session in a room that is there.
    pub fn open_reserved(&mut self, s: Session)
        requires room { 1 ≤ self.old.rooms }
        requires id { s.id ≡ self.old.table.next_id }
        requires closing { s.closing ≡ false }
        ensures table { self.new.table ≡ opened self.old.table s }
        ensures rooms { self.old.rooms ≤ self.new.rooms + 1 }
    {
        if self.next_id >= NUMBER_LIMIT as i64 {
            return;
        }
        let id = s.id;
        let key = self.slab.insert_reserved(s);
        self.order.push_reserved((id, key));
        self.next_id += 1;
    }

    /// Marks a session as closing. True exactly where it is open.
    pub fn mark(&mut self, id: i64) -> bool
        ensures told { result ≡ is_some (session_of self.old.table id) }
        ensures table { self.new.table ≡ marked_at id self.old.table }
        ensures rooms { self.new.rooms ≡ self.old.rooms }
    {
        let Some(key) = key_of(self.order.as_slice(), id) else {
            return false;
        };
        mark_under(&mut self.slab, key);
        true
    }

    // A message raises the stamp of its session.
    fn raise(&mut self, id: i64, stamp: i64)
        ensures table { self.new.table ≡ stamped_at id stamp self.old.table }
        ensures rooms { self.new.rooms ≡ self.old.rooms }
    {
        let Some(key) = key_of(self.order.as_slice(), id) else {
            return;
        };
        raise_under(&mut self.slab, key, stamp);
    }

    // The session of an id goes, and leaves its room.
    fn close(&mut self, id: i64)
        ensures table { self.new.table ≡ closed_at id self.old.table }
        ensures rooms { self.old.rooms ≤ self.new.rooms }
    {
        let Some(place) = place_of(self.order.as_slice(), id) else {
            return;
        };
        let (_, key) = self.order.remove(place);
        let _ = self.slab.try_remove(key);
    }

    // An open of this id opens.
    fn is_next(&self, id: i64) -> bool
        ensures { result ≡ is_next self.now.table id }
    {
        id == self.next_id && self.next_id < NUMBER_LIMIT as i64
    }

    // Opens the session of an open event, where its id is the next one.
    fn open(&mut self, s: Session) -> Result<(), NoMemory>
        requires { s.closing ≡ false }
        ensures ok { OnOk result (self.new.table ≡ opened self.old.table s) }
        ensures err { OnErr result (self.new.table ≡ self.old.table) }
    {
        if s.id != self.next_id {
            return Ok(());
        }
        self.reserve()?;
        self.open_reserved(s);
        Ok(())
    }

    /// What an event makes of the sessions. Where there is no memory they stay as they are.
    pub fn apply(&mut self, e: &Event) -> Result<(), NoMemory>
        ensures ok { OnOk result (self.new.table ≡ sessions_after self.old.table e.now) }
        ensures err { OnErr result (self.new.table ≡ self.old.table) }
    {
        match e {
            Event::Opened {
                corr,
                session,
                stamp,
                stream,
                channel,
                ..
            } => {
                if !self.is_next(*session) {
                    return Ok(());
                }
                let channel = channel.copy()?;
                self.open(Session {
                    id: *session,
                    corr: *corr,
                    stamp: *stamp,
                    stream: *stream,
                    closing: false,
                    channel,
                })
            }
            Event::Message { session, stamp, .. } => {
                self.raise(*session, *stamp);
                Ok(())
            }
            Event::Closed { session, .. } => {
                self.close(*session);
                Ok(())
            }
            _ => Ok(()),
        }
    }

    /// The ids, by rising id, of the sessions without an open or a message for 10,000 ms, where `since` is as long ago.
    pub fn due(&self, now: u64, since: u64) -> Result<List<i64>, NoMemory>
        requires { now ≤ 2 ^ 60 }
        ensures { IfOk result (λ l. l ≡ sessions_due now since self.now.table) }
    {
        let mut found = List::new(*self.order.allocator());
        for pair in self.order.iter() {
            add_idle(&mut found, self.slab.get(pair.1), now, since)?;
        }
        Ok(found)
    }
}

// Adds the id of a session that is there and idle.
fn add_idle(
    found: &mut List<i64>,
    session: Option<&Session>,
    now: u64,
    since: u64,
) -> Result<(), NoMemory>
    requires { now ≤ 2 ^ 60 }
    ensures { OnOk result (found.new ≡ found.old ++ idle_id now since (option_copied session.entry)) }
{
    match session {
        Some(session) if session.is_idle(now, since) => found.push(session.id),
        _ => Ok(()),
    }
}
