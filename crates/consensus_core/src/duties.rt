// Rows P10 and P15.
ghost use Rattle.std.specs.Prelude.{◌≡◌, ◌≤◌, ◌<◌, ◌^◌, ◌≤ℤ◌, pos, IfOk, All, length, map, take, IsTrue, unwrap_or, slice_index_or, None};
ghost use Rattle.entry_log.specs.Shape.{end_of, shape_of};
ghost use Rattle.sbe_events.specs.Spelling.{HasSpelling};
ghost use Rattle.consensus_core.specs.Fit.{IsFit};
ghost use Rattle.consensus_core.specs.Rows.{name_of_shape};
ghost use Rattle.consensus_core.specs.Reign.{term_event, begins_reign, in_leader_init, is_recent, count_recent, has_quorum, one_report, reports as each_report, commit_after, end_limit, is_admitted as admits, entry_of as entry, admitted, beats_next, in_leader_ready, duty_at, does_duty};

use crate::batches::appends;
use crate::change::Change;
use crate::elections::name_of;
use crate::events::entry_of;
use crate::plan::{Plan, Word};
use crate::rest::reigning;
use crate::row::Row;
use crate::values::Values;
use cl_base::limits::{HEARTBEAT_TIMEOUT_MS, LOG_LIMIT, STATUS_INTERVAL_MS, WINDOW_LIMIT};
use cl_base::{Entry, List, NoMemory};
use election::{ElectionEvent, State};
use entry_log::{LogIndex, end_after, end_within, is_one_batch};
use log_replication::quorum_position;
use sbe_events::Event;
use std::alloc::Global;

/// The event with which member `id` begins its reign.
fn term_event(term: i64, place: u64, now: u64, id: u8) -> Event
    requires term { pos 0 ≤ℤ term }
    requires term_limit { term ≤ℤ pos (2 ^ 62) }
    requires place { place ≤ 2 ^ 62 }
    requires moment { now ≤ 2 ^ 62 }
    requires id { id < 5 }
    ensures event { result ≡ term_event term place now id }
    ensures spelled { HasSpelling result }
{
    Event::Term {
        term,
        position: place as i64,
        stamp: now as i64,
        base: place as i64,
        leader: id as i32,
    }
}

/// Where the log may end at most, with this commit (entries).
fn end_limit(index: &LogIndex, commit: u64) -> u64
    requires { commit ≤ length index.now }
    ensures limit { result ≡ end_limit index.now commit }
    ensures bound { result ≤ 16777216 }
{
    let window = index.end_at(commit).saturating_add(WINDOW_LIMIT);
    window.min(LOG_LIMIT)
}

#[tactic(auto, using(crate::proofs::Measured::end_from_shape))]
/// Whether entries behind a log that ends at `place` (bytes) end at most at `limit` and are one batch.
fn is_admitted(place: u64, limit: u64, entries: &[Entry]) -> bool
    requires events { All (λ e. length e.bytes ≤ 32768) entries.now }
    requires place { place ≤ 16777216 }
    requires limit { limit ≤ 16777216 }
    ensures { result ≡ admits place limit (shape_of entries.now) }
{
    match end_within(place, entries) {
        Some(end) => end <= limit && is_one_batch(place, entries),
        None => false,
    }
}

/// The entries of the due events of which one batch is made behind a log that ends at `place` (bytes): as many from the
/// front as one batch takes that ends at most at `limit`.
fn admit(alloc: Global, place: u64, limit: u64, due: &[Event]) -> Result<List<Entry>, NoMemory>
    requires place { place ≤ 16777216 }
    requires limit { limit ≤ 16777216 }
    requires due { All HasSpelling due.now }
    ensures { IfOk result (λ xs. xs ≡ admitted place limit (map entry due.now)) }
{
    let mut entries = List::new(alloc);
    for event in due {
        entries.push(entry_of(alloc, event)?)?;
        if !is_admitted(place, limit, entries.as_slice()) {
            let _refused = entries.pop();
            return Ok(entries);
        }
    }
    Ok(entries)
}

/// The election's duty.
fn duty_of(index: &LogIndex) -> ElectionEvent
    ensures { result ≡ ElectionEvent.Duty (name_of_shape index.now) }
{
    ElectionEvent::Duty {
        own: name_of(index),
    }
}

impl Values {
    /// Row P10, with the entry that it appends.
    fn begins_reign(
        self,
        alloc: Global,
        index: &LogIndex,
        entry: Entry,
        now: u64,
    ) -> Result<Row, NoMemory>
        requires moment { now ≤ 2 ^ 60 }
        requires place { end_of index.now ≤ 16777216 }
        requires event { length entry.bytes ≤ 32768 }
        ensures { IfOk result (λ row. row ≡ begins_reign self.election self.rest index.now entry now) }
    {
        let mut values = self;
        let end = end_after(index.place(), entry.bytes.len() as u64);
        if end > LOG_LIMIT {
            values.election.enter_canvass(now);
            return Ok(Row::only(values));
        }
        let mut entries = List::new(alloc);
        entries.push(entry)?;
        values.election.state = State::LeaderReady;
        values.election.next = now + STATUS_INTERVAL_MS;
        values.rest = reigning(self.rest.commit, end, now);
        Ok(Row {
            values,
            change: Change::Append(entries),
            plan: Plan::All {
                word: Word::Announcement,
            },
        })
    }

    /// Row P10.
    fn in_leader_init(self, alloc: Global, index: &LogIndex, now: u64) -> Result<Row, NoMemory>
        requires moment { now ≤ 2 ^ 60 }
        requires id { self.election.id < 5 }
        requires term { pos 0 ≤ℤ self.election.term }
        requires term_limit { self.election.term ≤ℤ pos (2 ^ 62) }
        requires place { end_of index.now ≤ 16777216 }
        ensures { IfOk result (λ row. row ≡ in_leader_init self.election self.rest index.now now) }
    {
        let event = term_event(self.election.term, index.place(), now, self.election.id);
        let entry = entry_of(alloc, &event)?;
        self.begins_reign(alloc, index, entry, now)
    }

    fn is_recent(&self, member: u8, now: u64) -> bool
        requires moment { now ≤ 2 ^ 60 }
        requires member { member < 5 }
        ensures { result ≡ is_recent now member self.now.election self.now.rest }
    {
        let heard = self.rest.last_heard[member as usize];
        member == self.election.id || now < heard.saturating_add(HEARTBEAT_TIMEOUT_MS)
    }

    /// How many of the members were heard of late, this one included.
    fn count_recent(&self, now: u64) -> usize
        requires moment { now ≤ 2 ^ 60 }
        requires members { self.now.election.members ≤ 5 }
        ensures { result ≡ count_recent now self.now.election.members self.now.election self.now.rest }
    {
        let mut count = 0;
        for member in 0..self.election.members {
            if self.is_recent(member, now) {
                count += 1;
            }
        }
        count
    }

    /// Whether the members that were heard of late are a quorum.
    fn has_quorum(&self, now: u64) -> bool
        requires moment { now ≤ 2 ^ 60 }
        requires members { self.now.election.members ≤ 5 }
        ensures { result ≡ has_quorum self.now.election self.now.rest now }
    {
        self.election.members as usize / 2 < self.count_recent(now)
    }

    /// What a member reported (bytes), this one its own place.
    fn report(&self, member: u8, place: u64) -> u64
        requires { member < 5 }
        ensures { result ≡ one_report member self.now.election.id place self.now.rest.acked }
    {
        if member == self.election.id {
            place
        } else {
            self.rest.acked[member as usize].unwrap_or(0)
        }
    }

    /// What each of the members reported, with zeros behind.
    fn reports(&self, place: u64) -> [u64; 5]
        requires { self.now.election.members ≤ 5 }
        ensures { take self.now.election.members result ≡ each_report self.now.election.members self.now.election.id place self.now.rest.acked }
    {
        let mut reports = [0; 5];
        for member in 0..self.election.members {
            reports[member as usize] = self.report(member, place);
        }
        reports
    }

    /// Row P15 (ii): the commit in entries.
    fn commit_after(&self, index: &LogIndex) -> u64
        requires some { 0 < self.now.election.members }
        requires members { self.now.election.members ≤ 5 }
        requires commit { self.now.rest.commit ≤ length index.now }
        ensures value { result ≡ commit_after self.now.election self.now.rest index.now }
        ensures within { result ≤ length index.now }
    {
        let reports = self.reports(index.place());
        let position = quorum_position(&reports[..self.election.members as usize]);
        if position >= self.rest.own_end {
            self.rest.commit.max(index.entries_to(position))
        } else {
            self.rest.commit
        }
    }

    /// Row P15.
    fn in_leader_ready(
        self,
        alloc: Global,
        index: &LogIndex,
        due: &[Event],
        now: u64,
    ) -> Result<Row, NoMemory>
        requires moment { now ≤ 2 ^ 60 }
        requires some { 0 < self.election.members }
        requires members { self.election.members ≤ 5 }
        requires commit { self.rest.commit ≤ length index.now }
        requires place { end_of index.now ≤ 16777216 }
        requires due { All HasSpelling due.now }
        ensures { IfOk result (λ row. row ≡ in_leader_ready self.election self.rest index.now due.now now) }
    {
        if !self.has_quorum(now) {
            let mut values = self;
            values.election.enter_canvass(now);
            return Ok(Row::only(values));
        }
        let commit = self.commit_after(index);
        let limit = end_limit(index, commit);
        let new = admit(alloc, index.place(), limit, due)?;
        Ok(self.beats_next(commit, new, now))
    }

    /// The leader that a follower knows.
    fn known_leader(&self) -> u8
        ensures { result ≡ unwrap_or self.now.election.leader 0 }
    {
        self.election.leader.unwrap_or(0)
    }

    /// A duty runs the one row of the state in which it began.
    pub fn does_duty(
        self,
        alloc: Global,
        index: &LogIndex,
        due: &[Event],
        now: u64,
    ) -> Result<Row, NoMemory>
        requires moment { now ≤ 2 ^ 60 }
        requires fit { IsFit self.election }
        requires commit { self.rest.commit ≤ length index.now }
        requires place { end_of index.now ≤ 16777216 }
        requires due { All HasSpelling due.now }
        ensures { IfOk result (λ row. row ≡ does_duty self index.now due.now now) }
    {
        match self.election.state {
            State::LeaderInit => self.in_leader_init(alloc, index, now),
            State::LeaderReady => self.in_leader_ready(alloc, index, due, now),
            State::FollowerReady => {
                let to = self.known_leader();
                Ok(self.sends_status(
                    Plan::One {
                        to,
                        word: Word::Report,
                    },
                    now,
                ))
            }
            State::FollowerLogReplication => {
                let to = self.known_leader();
                Ok(self.sends_status(
                    Plan::One {
                        to,
                        word: Word::Canvass,
                    },
                    now,
                ))
            }
            _ => Ok(self.elects(duty_of(index), now)),
        }
    }

    /// Row P15 (v): when it speaks next, and what it says.
    fn beats_next(self, commit: u64, new: List<Entry>, now: u64) -> Row
        requires { now ≤ 2 ^ 60 }
        ensures { result ≡ beats_next self.election self.rest commit new now }
    {
        let mut values = self;
        let beat = now >= self.election.next;
        if beat {
            values.election.next = now + STATUS_INTERVAL_MS;
        }
        values.rest.commit = commit;
        Row {
            values,
            change: appends(new),
            plan: Plan::Beat {
                commit: self.rest.commit < commit || beat,
                announce: beat,
            },
        }
    }
}
