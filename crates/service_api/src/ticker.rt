// A service that sets timers for clients.
ghost use Rattle.std.specs.Prelude.{◌≡◌, [], ◌++◌, ◌≤ℤ◌, ◌+◌, ◌*◌, ◌^◌, ◌≤◌, pos, true, OnOk, IfOk, OnErr, MatchResult, None, Ok, Err};
ghost use Rattle.std.specs.Ordering.{int_cmp};
ghost use Rattle.std.specs.BTreeMap.{insert_entry};
ghost use Rattle.service_api.specs.Ticker.{Ids, asked, scheduled, has_room, rung, session_of, forgotten, ticked, spelled_ids, spelled_pairs, restored_ids, pair_at, pairs_at, rises, IsTable};
ghost use Rattle.wire_prims.specs.declared.fault.Bad.{Bad};
ghost use Rattle.service_api.specs.Outputs.{BeginsWith};

use crate::number::{add_i64, add_u32, spell_i64};
use crate::{Output, Outputs, Service};
use cl_base::{Bytes, NoMemory};
use sbe_events::Event;
use sbe_local::Command;
use std::alloc::Global;
use std::collections::BTreeMap;
use std::marker::Model;
use wire_prims::{Bad, BadCause, DecodeFault, get_i64, get_u32, get_u64};

/// The most ids that a ticker keeps.
const IDS_LIMIT: usize = 4_096;

/// The least delay that is too long, in ms.
const DELAY_LIMIT: u64 = 4_294_967_296;

/// The bytes of a payload that sets a timer: an id, and a delay in ms.
const SCHEDULE_BYTES: usize = 16;

/// The bytes of a payload that cancels a timer: its id.
const CANCEL_BYTES: usize = 8;

/// The payload that closes its session.
const CLOSE: u8 = 0x78;

/// The bytes of the number of ids in the records, and those of an id with its session.
const COUNT_BYTES: usize = 4;

const PAIR_BYTES: usize = 16;

/// A service that sets and cancels timers for clients, and tells each session of its timers that are due.
#[derive(Drop)]
pub struct Ticker {
    alloc: Global,
    ids: BTreeMap<i64, i64>,
}

impl Model for Ticker {
    ghost use Rattle.service_api.specs.Ticker.{Ids, IsTable};

    ghost Value = { Ids };

    ghost view = { λ t. t.ids.entries };

    ghost invariant = { λ t. IsTable t.ids.entries };
}

impl Ticker {
    // The session that an id is mapped to.
    fn session_of(&self, id: i64) -> Option<i64>
        ensures { result ≡ session_of self.now id }
    {
        self.ids.get(&id).copied()
    }

    // An id is there, or fewer are than may be.
    fn has_room(&self, id: i64) -> bool
        ensures { result ≡ has_room self.now id }
    {
        self.ids.len() < IDS_LIMIT || self.session_of(id).is_some()
    }

    // Maps an id to a session.
    fn put(&mut self, id: i64, session: i64) -> Result<(), NoMemory>
        requires { has_room self.old id ≡ true }
        ensures ok { OnOk result (self.new ≡ insert_entry int_cmp self.old id session) }
        ensures err { OnErr result (self.new ≡ self.old) }
    {
        match self.ids.insert(id, session) {
            Ok(_) => Ok(()),
            Err(_) => Err(NoMemory),
        }
    }

    // Sets a timer that is due after a delay (ms), where its id has room.
    fn schedule(
        &mut self,
        session: i64,
        stamp: i64,
        id: i64,
        delay: u64,
        out: &mut Outputs,
    ) -> Result<(), NoMemory>
        requires { stamp ≤ℤ pos (2 ^ 62) }
        ensures state { OnOk result (self.new ≡ (scheduled self.old session stamp id delay).0) }
        ensures outputs { OnOk result (out.new ≡ out.old ++ (scheduled self.old session stamp id delay).1) }
        ensures stays { OnErr result (self.new ≡ self.old) }
        ensures before { OnErr result (BeginsWith out.old out.new) }
    {
        if delay >= DELAY_LIMIT || !self.has_room(id) {
            return Ok(());
        }
        let deadline = stamp + delay as i64;
        out.push(Output::Command(Command::Schedule { corr: id, deadline }))?;
        self.put(id, session)
    }

    // Does what a session message asks.
    fn ask(
        &mut self,
        session: i64,
        stamp: i64,
        payload: &[u8],
        out: &mut Outputs,
    ) -> Result<(), NoMemory>
        requires { stamp ≤ℤ pos (2 ^ 62) }
        ensures state { OnOk result (self.new ≡ (asked self.old session stamp payload.now).0) }
        ensures outputs { OnOk result (out.new ≡ out.old ++ (asked self.old session stamp payload.now).1) }
        ensures stays { OnErr result (self.new ≡ self.old) }
        ensures before { OnErr result (BeginsWith out.old out.new) }
    {
        if payload.len() == SCHEDULE_BYTES {
            let id = get_i64(payload, 0);
            return self.schedule(session, stamp, id, get_u64(payload, 8), out);
        }
        if payload.len() == CANCEL_BYTES {
            let corr = get_i64(payload, 0);
            return out.push(Output::Command(Command::Cancel { corr }));
        }
        if payload.len() == 1 && payload[0] == CLOSE {
            return out.push(Output::Command(Command::CloseSession { session }));
        }
        Ok(())
    }

    // Tells the session of a timer that is due.
    fn ring(&self, id: i64, out: &mut Outputs) -> Result<(), NoMemory>
        ensures outputs { OnOk result (out.new ≡ out.old ++ rung (session_of self.now id) id) }
        ensures before { OnErr result (BeginsWith out.old out.new) }
    {
        match self.session_of(id) {
            Some(session) => {
                let payload = spell_i64(self.alloc, id)?;
                out.push(Output::Egress { session, payload })
            }
            None => Ok(()),
        }
    }

    // Forgets the ids of a session.
    fn forget(&mut self, session: i64)
        ensures { self.new ≡ forgotten self.old session }
    {
        self.ids.retain(|_, mapped| *mapped != session);
    }
}

// Puts ids with their sessions behind other bytes.
fn add_pairs(bytes: &mut Vec<u8>, ids: &BTreeMap<i64, i64>) -> Result<(), NoMemory>
    ensures { OnOk result (bytes.new.items ≡ bytes.old.items ++ spelled_pairs ids.now.entries) }
{
    for pair in ids.iter() {
        add_i64(bytes, *pair.0)?;
        add_i64(bytes, *pair.1)?;
    }
    Ok(())
}

// The id and the session at a place of the records, behind the id `last`.
fn read_pair(bytes: &[u8], at: usize, last: Option<i64>) -> Result<(i64, i64), Bad>
    requires { at + 16 ≤ 2 ^ 63 }
    ensures pair { MatchResult result (λ e. pair_at at last bytes.now ≡ Ok e) (λ b. pair_at at last bytes.now ≡ Err b) }
    ensures rises { IfOk result (λ e. rises last e.0 ≡ true) }
{
    let short = Bad {
        place: bytes.len() as u64,
        cause: BadCause::Short,
    };
    if bytes.len() < at + 8 {
        return Err(short);
    }
    let id = get_i64(bytes, at);
    let rises = match last {
        None => true,
        Some(last) => last < id,
    };
    if !rises {
        return Err(Bad {
            place: at as u64,
            cause: BadCause::Value,
        });
    }
    if bytes.len() < at + PAIR_BYTES {
        return Err(short);
    }
    Ok((id, get_i64(bytes, at + 8)))
}

// The ids of records, of which there are to be so many.
fn read_ids(alloc: Global, bytes: &[u8], count: usize) -> Result<BTreeMap<i64, i64>, DecodeFault>
    requires { count ≤ 4096 }
    ensures ok { IfOk result (λ m. pairs_at count 4 None bytes.now ≡ Ok m.entries) }
    ensures bad { (b : Bad) → result ≡ Err (DecodeFault.Bad b) → pairs_at count 4 None bytes.now ≡ Err b }
    ensures table { IfOk result (λ m. IsTable m.entries) }
{
    let mut ids = BTreeMap::new(alloc);
    let mut last = None;
    for i in 0..count {
        let (id, session) = read_pair(bytes, COUNT_BYTES + PAIR_BYTES * i, last)?;
        if ids.insert(id, session).is_err() {
            return Err(DecodeFault::NoMemory);
        }
        last = Some(id);
    }
    let end = COUNT_BYTES + PAIR_BYTES * count;
    if end < bytes.len() {
        let place = end as u64;
        let cause = BadCause::Trailing;
        return Err(DecodeFault::Bad(Bad { place, cause }));
    }
    Ok(ids)
}

#[tactic(auto, using(crate::specs::TickerLaws::ids_short, crate::specs::TickerLaws::ids_restored))]
impl Service for Ticker {
    ghost first = { [] };

    ghost applied = { λ s i e. ticked s e };

    ghost spelled = { spelled_ids };

    ghost restored = { restored_ids };

    fn start(alloc: Global) -> Result<Ticker, NoMemory> {
        let ids = BTreeMap::new(alloc);
        Ok(Ticker { alloc, ids })
    }

    fn apply(&mut self, _index: u64, e: &Event, out: &mut Outputs) -> Result<(), NoMemory> {
        match e {
            Event::Message {
                session,
                stamp,
                payload,
                ..
            } => self.ask(*session, *stamp, payload.as_slice(), out),
            Event::Timer { corr, .. } => self.ring(*corr, out),
            Event::Closed { session, .. } => {
                self.forget(*session);
                Ok(())
            }
            _ => Ok(()),
        }
    }

    fn records(&self) -> Result<Bytes, NoMemory> {
        let mut bytes = Vec::with_capacity(self.alloc, COUNT_BYTES + PAIR_BYTES * self.ids.len())?;
        add_u32(&mut bytes, self.ids.len() as u32)?;
        add_pairs(&mut bytes, &self.ids)?;
        Ok(Bytes::from_vec(bytes))
    }

    fn from_records(alloc: Global, bytes: &[u8]) -> Result<Ticker, DecodeFault> {
        if bytes.len() < COUNT_BYTES {
            let place = bytes.len() as u64;
            let cause = BadCause::Short;
            return Err(DecodeFault::Bad(Bad { place, cause }));
        }
        let count = get_u32(bytes, 0) as usize;
        if count > IDS_LIMIT {
            let place = 0;
            let cause = BadCause::Value;
            return Err(DecodeFault::Bad(Bad { place, cause }));
        }
        let ids = read_ids(alloc, bytes, count)?;
        Ok(Ticker { alloc, ids })
    }
}
