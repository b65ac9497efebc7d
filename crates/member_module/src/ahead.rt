// The entries of the log past those that the module consumed.
ghost use Rattle.std.specs.Prelude.{◌≡◌, ◌+◌, ◌-◌, ◌<◌, ◌≤◌, [], ◌∷◌, ◌++◌, take, drop, length, Some, OnOk, IfOk, IfSome};
ghost use Rattle.sbe_events.specs.Spelling.{HasSpelling};
ghost use Rattle.member_module.specs.Ahead.{event_in, AreEvents};

use cl_base::{Entry, NoMemory};
use sbe_events::{Event, decode_event};
use std::alloc::Global;
use std::marker::Model;
use wire_prims::DecodeFault;

/// The log's entries past those that the module consumed, each with its event, and room for some more.
#[derive(Drop)]
pub struct Ahead {
    entries: Vec<Entry>,
    events: Vec<Event>,
}

impl Model for Ahead {
    ghost use Rattle.std.specs.Prelude.{◌-◌, min, vec_len, vec_capacity};
    ghost use Rattle.member_module.specs.Ahead.{Ahead as Listed, AreEvents};

    ghost Value = { Listed };

    ghost view = { λ a. record { entries = a.entries.items; events = a.events.items; room = min (vec_capacity a.entries - vec_len a.entries) (vec_capacity a.events - vec_len a.events) } };

    ghost invariant = { λ a. AreEvents a.entries.items a.events.items };
}

impl Ahead {
    /// No entries.
    pub fn new(alloc: Global) -> Ahead
        ensures entries { result.entries ≡ [] }
        ensures events { result.events ≡ [] }
    {
        Ahead {
            entries: Vec::new(alloc),
            events: Vec::new(alloc),
        }
    }

    /// The entries, in order.
    pub fn entries(&self) -> &[Entry]
        ensures { result.now ≡ self.now.entries }
    {
        self.entries.as_slice()
    }

    /// Their events, in order.
    pub fn events(&self) -> &[Event]
        ensures events { result.now ≡ self.now.events }
        ensures spelled { AreEvents self.now.entries result.now }
    {
        self.events.as_slice()
    }

    /// Makes room for one more entry.
    pub fn reserve(&mut self) -> Result<(), NoMemory>
        ensures room { OnOk result (1 ≤ self.new.room) }
        ensures entries { self.new.entries ≡ self.old.entries }
        ensures events { self.new.events ≡ self.old.events }
    {
        self.entries.reserve(1)?;
        self.events.reserve(1)?;
        Ok(())
    }

    /// Puts an entry with its event behind the last. There is room for it.
    pub fn put(&mut self, entry: Entry, event: Event)
        requires room { 1 ≤ self.old.room }
        requires event { event_in entry ≡ Some event }
        requires spelled { HasSpelling event }
        ensures entries { self.new.entries ≡ self.old.entries ++ entry ∷ [] }
        ensures events { self.new.events ≡ self.old.events ++ event ∷ [] }
    {
        self.entries.push_reserved(entry);
        self.events.push_reserved(event);
    }

    /// Drops all but the first entries.
    pub fn cut(&mut self, count: usize)
        ensures entries { self.new.entries ≡ take count self.old.entries }
        ensures events { self.new.events ≡ take count self.old.events }
    {
        self.entries.truncate(count);
        self.events.truncate(count);
    }

    /// Drops the first entries.
    pub fn advance(&mut self, count: usize)
        requires { count ≤ length self.old.entries }
        ensures entries { self.new.entries ≡ drop count self.old.entries }
        ensures events { self.new.events ≡ drop count self.old.events }
    {
        drop_front(&mut self.entries, count);
        drop_front(&mut self.events, count);
    }
}

/// Drops the first of these, in place.
fn drop_front<T: Drop>(items: &mut Vec<T>, count: usize)
    requires { count ≤ length items.old.items }
    ensures { items.new.items ≡ drop count items.old.items }
{
    let left = items.len() - count;
    items.as_mut_slice().rotate_left(count);
    items.truncate(left);
}

/// The event of an entry, which spells one.
pub fn event_of(alloc: Global, entry: &Entry) -> Result<Option<Event>, NoMemory>
    ensures found { IfOk result (λ e. e ≡ event_in entry.now) }
    ensures spelled { IfOk result (λ e. IfSome e HasSpelling) }
{
    match decode_event(alloc, entry.bytes.as_slice()) {
        Ok(event) => Ok(Some(event)),
        Err(DecodeFault::Bad(_)) => Ok(None),
        Err(DecodeFault::NoMemory) => Err(NoMemory),
    }
}
