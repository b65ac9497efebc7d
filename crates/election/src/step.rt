// The rows, one after the other.
ghost use Rattle.std.specs.Prelude.{◌≡◌, ◌+◌, ◌*◌, ◌^◌, ◌<◌, ◌≤◌, ◌<ℤ◌, ◌+ℤ◌, pos};
ghost use Rattle.entry_log.specs.Quorum.{is_quorum};
ghost use Rattle.election.specs.Rows.{canvass_ends, in_canvass, in_nominate, nominates, in_candidate_ballot, in_follower_ballot, duty, on_request, on_vote, is_for, row, sender_of};

use crate::heard::{greatest_heard, heard_count, is_any_better, vote_count};
use crate::{Decision, Election, ElectionEvent, State};
use cl_base::limits::{
    CANVASS_MS, CANVASS_STEP_MS, ELECTION_TIMEOUT_MS, NUMBER_LIMIT, STATUS_INTERVAL_MS,
};
use entry_log::{LogName, better};

impl Election {
    fn is_quorum(&self, count: usize) -> bool
        ensures { result ≡ is_quorum self.now.members count }
    {
        self.members as usize / 2 < count
    }

    /// Row P3.
    fn canvass_ends(&mut self, own: LogName, now: u64) -> Decision
        requires moment { now ≤ 2 ^ 60 }
        ensures state { self.new ≡ (canvass_ends self.old own now).election }
        ensures decision { result ≡ (canvass_ends self.old own now).decision }
    {
        if self.is_quorum(1 + heard_count(&self.heard)) && !is_any_better(&self.heard, own) {
            self.state = State::Nominate;
            Decision::Nominate
        } else {
            self.deadline = now + CANVASS_MS + CANVASS_STEP_MS * self.id as u64;
            Decision::CanvassAgain
        }
    }

    /// Rows P3 and P4.
    fn in_canvass(&mut self, own: LogName, now: u64) -> Decision
        requires moment { now ≤ 2 ^ 60 }
        ensures state { self.new ≡ (in_canvass self.old own now).election }
        ensures decision { result ≡ (in_canvass self.old own now).decision }
    {
        if now >= self.deadline {
            self.canvass_ends(own, now)
        } else if now >= self.next {
            self.next = now + STATUS_INTERVAL_MS;
            Decision::Canvass
        } else {
            Decision::Nothing
        }
    }

    /// Row P5.
    fn in_nominate(&mut self, own: LogName, now: u64) -> Decision
        requires moment { now ≤ 2 ^ 60 }
        requires id { self.old.id < 5 }
        ensures state { self.new ≡ (in_nominate self.old own now).election }
        ensures decision { result ≡ (in_nominate self.old own now).decision }
    {
        let most = greatest_heard(self.candidate.max(own.term), &self.heard);
        self.nominates(most, now)
    }

    /// Row P5, above `most`.
    fn nominates(&mut self, most: i64, now: u64) -> Decision
        requires moment { now ≤ 2 ^ 60 }
        requires id { self.old.id < 5 }
        ensures state { self.new ≡ (nominates self.old most now).election }
        ensures decision { result ≡ (nominates self.old most now).decision }
    {
        if most >= NUMBER_LIMIT as i64 {
            self.enter_canvass(now);
            return Decision::EnterCanvass;
        }
        let term = next_term(most);
        self.candidate = term;
        self.voted = Some(self.id);
        self.votes = [false; 5];
        self.votes[self.id as usize] = true;
        self.deadline = now + ELECTION_TIMEOUT_MS;
        self.state = State::CandidateBallot;
        Decision::Request { term }
    }

    /// Row P8.
    fn in_candidate_ballot(&mut self, now: u64) -> Decision
        requires moment { now ≤ 2 ^ 60 }
        ensures state { self.new ≡ (in_candidate_ballot self.old now).election }
        ensures decision { result ≡ (in_candidate_ballot self.old now).decision }
    {
        if self.is_quorum(vote_count(&self.votes)) {
            self.term = self.candidate;
            self.leader = Some(self.id);
            self.state = State::LeaderInit;
            Decision::Lead
        } else {
            self.in_follower_ballot(now)
        }
    }

    /// Row P9, and the end of P8.
    fn in_follower_ballot(&mut self, now: u64) -> Decision
        requires moment { now ≤ 2 ^ 60 }
        ensures state { self.new ≡ (in_follower_ballot self.old now).election }
        ensures decision { result ≡ (in_follower_ballot self.old now).decision }
    {
        if now >= self.deadline {
            self.enter_canvass(now);
            Decision::EnterCanvass
        } else {
            Decision::Nothing
        }
    }

    fn on_duty(&mut self, own: LogName, now: u64) -> Decision
        requires moment { now ≤ 2 ^ 60 }
        requires id { self.old.id < 5 }
        ensures state { self.new ≡ (duty self.old.state self.old own now).election }
        ensures decision { result ≡ (duty self.old.state self.old own now).decision }
    {
        match self.state {
            State::Init => {
                self.enter_canvass(now);
                Decision::EnterCanvass
            }
            State::Canvass => self.in_canvass(own, now),
            State::Nominate => self.in_nominate(own, now),
            State::CandidateBallot => self.in_candidate_ballot(now),
            State::FollowerBallot => self.in_follower_ballot(now),
            _ => Decision::Nothing,
        }
    }

    /// Row P6, in a running state.
    fn on_request(
        &mut self,
        from: u8,
        term: i64,
        named: LogName,
        own: LogName,
        now: u64,
    ) -> Decision
        requires moment { now ≤ 2 ^ 60 }
        ensures state { self.new ≡ (on_request self.old from term named own now).election }
        ensures decision { result ≡ (on_request self.old from term named own now).decision }
    {
        if term > self.candidate {
            self.candidate = term;
            if better(own.term, own.place, named.term, named.place) {
                self.voted = None;
                self.enter_canvass(now);
                Decision::RaiseAndRefuse { to: from, term }
            } else {
                self.voted = Some(from);
                self.term = -1;
                self.leader = None;
                self.deadline = now + ELECTION_TIMEOUT_MS;
                self.state = State::FollowerBallot;
                Decision::Grant { to: from, term }
            }
        } else if term == self.candidate && is_vote_for(self.voted, from) {
            Decision::Repeat { to: from, term }
        } else {
            Decision::Refuse { to: from, term }
        }
    }

    /// Row P7.
    fn on_vote(&mut self, from: u8, term: i64, granted: bool) -> Decision
        requires { from < 5 }
        ensures state { self.new ≡ (on_vote self.old from term granted).election }
        ensures decision { result ≡ (on_vote self.old from term granted).decision }
    {
        if granted && matches!(self.state, State::CandidateBallot) && term == self.candidate {
            self.votes[from as usize] = true;
            Decision::CountVote
        } else {
            Decision::Nothing
        }
    }

    /// One row at `now` (ms): the member's new values, and what the row does. It takes no memory and has no refusal.
    pub fn step(&mut self, event: ElectionEvent, now: u64) -> Decision
        requires moment { now ≤ 2 ^ 60 }
        requires id { self.old.id < 5 }
        requires sender { sender_of event < 5 }
        ensures state { self.new ≡ (row self.old event now).election }
        ensures decision { result ≡ (row self.old event now).decision }
    {
        match event {
            ElectionEvent::Duty { own } => self.on_duty(own, now),
            ElectionEvent::RequestVote {
                from,
                term,
                named,
                own,
            } => {
                if self.is_running() {
                    self.on_request(from, term, named, own, now)
                } else {
                    Decision::Nothing
                }
            }
            ElectionEvent::Vote {
                from,
                term,
                granted,
            } => self.on_vote(from, term, granted),
        }
    }
}

fn next_term(term: i64) -> i64
    requires { term <ℤ pos (2 ^ 62) }
    ensures { result ≡ term +ℤ pos 1 }
{
    term + 1
}

fn is_vote_for(voted: Option<u8>, member: u8) -> bool
    ensures { result ≡ is_for voted member }
{
    match voted {
        Some(v) => v == member,
        None => false,
    }
}
