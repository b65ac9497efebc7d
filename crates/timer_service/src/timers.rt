// The armed timers, by name and in the order in which they ring.
ghost use Rattle.std.specs.Prelude.{◌≡◌, ◌≢◌, ◌≤◌, ◌↔◌, [], OnOk, OnErr, IfOk, IfSome, IsTrue, Some, None, false, true, is_some, length, nat_lt, ◌||◌, ◌&&◌, not};
ghost use Rattle.std.specs.Ordering.{int_cmp};
ghost use Rattle.std.specs.BTreeMap.{insert_entry};
ghost use Rattle.timer_service.specs.Timers.{armed, without, fired, timers_due, is_deadline, is_made, has_room, is_over, deadline_of};
ghost use Rattle.timer_service.specs.declared.made.Made.TheVariants as made;

use crate::Made;
use crate::ring::front_due;
use cl_base::limits::{NUMBER_LIMIT, TIMERS_LIMIT};
use cl_base::{List, NoMemory};
use std::alloc::Global;
use std::collections::{BTreeMap, BTreeSet};
use std::marker::Model;

/// The armed timers. Contracts see their names and deadlines, by rising name.
#[derive(Drop)]
pub struct Timers {
    alloc: Global,
    names: BTreeMap<i64, i64>,
    ring: BTreeSet<(i64, i64)>,
}

impl Model for Timers {
    ghost use Rattle.timer_service.specs.Timers.{TimerTable, IsKept};

    ghost Value = { TimerTable };

    ghost view = { λ t. t.names.entries };

    ghost invariant = { λ t. IsKept t.names.entries t.ring.keys };
}

impl Timers {
    /// No timers. It takes no memory until one is armed.
    pub fn new(alloc: Global) -> Timers
        ensures { result ≡ [] }
    {
        Timers {
            alloc,
            names: BTreeMap::new(alloc),
            ring: BTreeSet::new(alloc),
        }
    }

    /// How many timers are armed.
    pub fn len(&self) -> usize
        ensures { result ≡ length self.now }
    {
        self.names.len()
    }

    // The deadline of a timer that is armed. Arming it with that deadline again changes nothing.
    fn deadline_of(&self, corr: i64) -> Option<i64>
        ensures value { result ≡ deadline_of self.now corr }
        ensures again { IfSome result (λ d. insert_entry int_cmp self.now corr d ≡ self.now) }
    {
        self.names.get(&corr).copied()
    }

    // A schedule finds room.
    fn has_room(&self, corr: i64) -> bool
        ensures { result ≡ has_room self.now corr }
    {
        self.names.len() < TIMERS_LIMIT as usize || self.deadline_of(corr).is_some()
    }

    // Arms a timer that isn't armed. Where the second table finds no memory the first gives the key back.
    fn put(&mut self, corr: i64, deadline: i64) -> Result<(), NoMemory>
        requires { deadline_of self.old corr ≡ None }
        ensures ok { OnOk result (self.new ≡ insert_entry int_cmp self.old corr deadline) }
        ensures err { OnErr result (self.new ≡ self.old) }
    {
        match self.ring.insert((deadline, corr)) {
            Ok(_) => {}
            Err(_) => return Err(NoMemory),
        }
        match self.names.insert(corr, deadline) {
            Ok(_) => Ok(()),
            Err(_) => {
                self.ring.remove(&(deadline, corr));
                Err(NoMemory)
            }
        }
    }

    // Gives an armed timer another deadline. Only the new key needs memory, and it is made first.
    fn move_to(&mut self, corr: i64, before: i64, deadline: i64) -> Result<(), NoMemory>
        requires armed { deadline_of self.old corr ≡ Some before }
        requires other { before ≢ deadline }
        ensures ok { OnOk result (self.new ≡ insert_entry int_cmp self.old corr deadline) }
        ensures err { OnErr result (self.new ≡ self.old) }
    {
        match self.ring.insert((deadline, corr)) {
            Ok(_) => {}
            Err(_) => return Err(NoMemory),
        }
        self.ring.remove(&(before, corr));
        match self.names.insert(corr, deadline) {
            Ok(_) => Ok(()),
            Err(_) => unreachable!(),
        }
    }

    fn arm(&mut self, corr: i64, deadline: i64) -> Result<(), NoMemory>
        ensures ok { OnOk result (self.new ≡ insert_entry int_cmp self.old corr deadline) }
        ensures err { OnErr result (self.new ≡ self.old) }
    {
        match self.deadline_of(corr) {
            None => self.put(corr, deadline),
            Some(before) => {
                if before == deadline {
                    return Ok(());
                }
                self.move_to(corr, before, deadline)
            }
        }
    }

    /// Arms a timer, or moves it where it is armed. A schedule that isn't made changes nothing.
    pub fn schedule(&mut self, corr: i64, deadline: i64) -> Result<Made, NoMemory>
        ensures state { OnOk result (self.new ≡ armed self.old corr deadline) }
        ensures stays { OnErr result (self.new ≡ self.old) }
        ensures bad { IfOk result (λ m. (m ≡ made.BadDeadline) ↔ (is_deadline deadline ≡ false)) }
        ensures limit { IfOk result (λ m. (m ≡ made.TimerLimit) ↔ ((is_deadline deadline && not (has_room self.old corr)) ≡ true)) }
        ensures yes { IfOk result (λ m. (m ≡ made.Yes) ↔ (is_made self.old corr deadline ≡ true)) }
    {
        if !is_deadline(deadline) {
            return Ok(Made::BadDeadline);
        }
        if !self.has_room(corr) {
            return Ok(Made::TimerLimit);
        }
        self.arm(corr, deadline)?;
        Ok(Made::Yes)
    }

    // Disarms a timer that is armed.
    fn take_out(&mut self, corr: i64, deadline: i64)
        requires { deadline_of self.old corr ≡ Some deadline }
        ensures { self.new ≡ without corr self.old }
    {
        self.names.remove(&corr);
        self.ring.remove(&(deadline, corr));
    }

    /// Disarms a timer. True exactly where it was armed.
    pub fn cancel(&mut self, corr: i64) -> bool
        ensures state { self.new ≡ without corr self.old }
        ensures told { result ≡ is_some (deadline_of self.old corr) }
    {
        match self.deadline_of(corr) {
            None => false,
            Some(deadline) => {
                self.take_out(corr, deadline);
                true
            }
        }
    }

    /// Disarms a timer whose deadline is at most the stamp. True exactly where it did.
    pub fn fire(&mut self, corr: i64, stamp: i64) -> bool
        ensures state { self.new ≡ fired self.old corr stamp }
        ensures told { result ≡ is_over (deadline_of self.old corr) stamp }
    {
        match self.deadline_of(corr) {
            None => false,
            Some(deadline) => {
                if deadline > stamp {
                    return false;
                }
                self.take_out(corr, deadline);
                true
            }
        }
    }

    /// The armed timers with their deadlines, by rising name.
    pub fn listed(&self) -> Result<List<(i64, i64)>, NoMemory>
        ensures { IfOk result (λ l. l ≡ self.now) }
    {
        let mut found = List::new(self.alloc);
        for (corr, deadline) in self.names.iter() {
            found.push((*corr, *deadline))?;
        }
        Ok(found)
    }

    /// A second table that is equal to this one.
    pub fn copy(&self) -> Result<Timers, NoMemory>
        ensures { IfOk result (λ t. t ≡ self.now) }
    {
        let names = self.names.clone()?;
        let ring = self.ring.clone()?;
        Ok(Timers {
            alloc: self.alloc,
            names,
            ring,
        })
    }

    /// The timers whose deadlines are over, by deadline and then by name. It costs a search and what it finds.
    pub fn due(&self, now: i64) -> Result<List<(i64, i64)>, NoMemory>
        ensures { IfOk result (λ l. l ≡ timers_due now self.now) }
    {
        front_due(self.alloc, &self.ring, now)
    }
}

// A deadline is 0 to 2^62.
fn is_deadline(deadline: i64) -> bool
    ensures { result ≡ is_deadline deadline }
{
    deadline >= 0 && deadline <= NUMBER_LIMIT as i64
}
