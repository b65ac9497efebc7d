// The orders of a scenario, one after the other.
use crate::clients::{known_by, put_answer};
use crate::owing::is_ready;
use crate::places::end_behind;
use crate::run::Run;
use crate::{OrderLine, Outcome};
use cl_base::limits::{LOG_LIMIT, PAYLOAD_LIMIT, SESSIONS_LIMIT, WINDOW_LIMIT};
use cl_base::{Bytes, NoMemory};
use sbe_events::Event;
use scenario::Order;

impl Run {
    ghost use Rattle.std.specs.Prelude.{◌≡◌, ◌++◌, ◌∷◌, [], OnOk, IfOk, IsTrue, ◌≤◌, ◌<◌, ◌+◌, ◌*◌, ◌^◌, length, fold, All};
    ghost use Rattle.sbe_events.specs.Spelling.{IsClient, HasSpelling};
    ghost use Rattle.echo_run.specs.Form.{rounds_in};
    ghost use Rattle.echo_run.specs.Driver.{IsKept, IsNamed, rounds_of, member_in, world_of};
    ghost use Rattle.echo_run.specs.World.{is_ready, with_member, taken, admitted, connect_outcome, message_outcome, connects_to, sends, step};

    /// Row P19: an entry is appended where there is room.
    fn offer(&mut self, event: Event) -> Result<Outcome, NoMemory>
        requires kept { IsKept self.old }
        requires spelled { HasSpelling event }
        ensures kept { OnOk result (IsKept self.new) }
        ensures outcome { IfOk result (λ o. o ≡ admitted (member_in self.old) event) }
        ensures world { IfOk result (λ o. world_of self.new ≡ with_member (world_of self.old) (taken (member_in self.old) event o)) }
    {
        let end = end_behind(self.name.place, &event);
        let waiting = end.saturating_sub(self.commit_place);
        if waiting > WINDOW_LIMIT {
            return Ok(Outcome::BackPressure { bytes: waiting });
        }
        if end > LOG_LIMIT {
            return Ok(Outcome::LogFull { place: end });
        }
        let index = self.log.len() as u64;
        self.append(event, end)?;
        Ok(Outcome::Accepted { index })
    }

    /// What becomes of a connect.
    fn offer_connect(&mut self, event: Event) -> Result<Outcome, NoMemory>
        requires kept { IsKept self.old }
        requires spelled { IsTrue (is_ready self.old.election.state) → HasSpelling event }
        ensures kept { OnOk result (IsKept self.new) }
        ensures outcome { IfOk result (λ o. o ≡ connect_outcome (member_in self.old) event) }
        ensures world { IfOk result (λ o. world_of self.new ≡ with_member (world_of self.old) (taken (member_in self.old) event o)) }
    {
        if !is_ready(self.election.state) {
            return Ok(Outcome::NotLeader {
                leader: self.election.leader,
            });
        }
        if self.tentative.sessions.len() as u64 >= SESSIONS_LIMIT {
            return Ok(Outcome::SessionLimit);
        }
        self.offer(event)
    }

    /// What becomes of a message of so many bytes that names a term and a session.
    fn offer_message(
        &mut self,
        term: i64,
        session: i64,
        bytes: u64,
        event: Event,
    ) -> Result<Outcome, NoMemory>
        requires kept { IsKept self.old }
        requires spelled { IsTrue (is_ready self.old.election.state) → IsClient session → bytes ≤ 16384 → HasSpelling event }
        ensures kept { OnOk result (IsKept self.new) }
        ensures outcome { IfOk result (λ o. o ≡ message_outcome (member_in self.old) term session bytes event) }
        ensures world { IfOk result (λ o. world_of self.new ≡ with_member (world_of self.old) (taken (member_in self.old) event o)) }
    {
        if !is_ready(self.election.state) {
            return Ok(Outcome::NotLeader {
                leader: self.election.leader,
            });
        }
        if term != self.election.term {
            return Ok(Outcome::WrongTerm { term });
        }
        if self.tentative.session(session).is_none() {
            return Ok(Outcome::NoSession { session });
        }
        if bytes > PAYLOAD_LIMIT as u64 {
            return Ok(Outcome::TooLarge { bytes });
        }
        self.offer(event)
    }

    fn connect(&mut self, line: u64, client: u64) -> Result<(), NoMemory>
        requires kept { IsKept self.old }
        requires client { client < 64 }
        requires moment { self.old.clock ≤ 2 ^ 48 }
        requires count { length self.old.told < 2 ^ 32 }
        ensures kept { OnOk result (IsKept self.new) }
        ensures world { OnOk result (world_of self.new ≡ connects_to line client (world_of self.old)) }
    {
        let before = self.connects[client as usize];
        let corr = before as i64 + 1;
        let event = Event::Opened {
            term: self.election.term,
            corr,
            session: self.tentative.next_id,
            stamp: self.clock as i64,
            stream: client as i32,
            channel: Bytes::of(self.alloc, &[])?,
        };
        let outcome = self.offer_connect(event)?;
        put_answer(client, corr, &self.election, outcome, &mut self.sent)?;
        self.told.push(OrderLine { line, outcome })?;
        self.connects[client as usize] = before + 1;
        Ok(())
    }

    fn send(&mut self, line: u64, client: u64, text: &Bytes) -> Result<(), NoMemory>
        requires kept { IsKept self.old }
        requires client { client < 64 }
        requires moment { self.old.clock ≤ 2 ^ 48 }
        ensures kept { OnOk result (IsKept self.new) }
        ensures world { OnOk result (world_of self.new ≡ sends line client text.now (world_of self.old)) }
    {
        let known = known_by(client, self.sent.as_slice());
        let event = Event::Message {
            term: self.election.term,
            session: known.session,
            stamp: self.clock as i64,
            payload: text.copy()?,
        };
        let outcome = self.offer_message(known.term, known.session, text.len() as u64, event)?;
        self.told.push(OrderLine { line, outcome })
    }

    /// One order. Those that aren't run change nothing.
    fn step(&mut self, order: &Order) -> Result<(), NoMemory>
        requires kept { IsKept self.old }
        requires named { IsNamed order.now }
        requires moment { self.old.clock + 10 * rounds_in order.now ≤ 2 ^ 48 }
        requires count { length self.old.told < 2 ^ 32 }
        ensures kept { OnOk result (IsKept self.new) }
        ensures world { OnOk result (world_of self.new ≡ step (world_of self.old) order.now) }
    {
        match order {
            Order::Rounds { rounds, .. } => self.rounds(*rounds),
            Order::Connect { line, client, .. } => self.connect(*line, *client),
            Order::Send {
                line,
                client,
                text,
                ..
            } => self.send(*line, *client, text),
            _ => Ok(()),
        }
    }

    /// Orders, one after the other.
    pub(crate) fn steps(&mut self, orders: &[Order]) -> Result<(), NoMemory>
        requires kept { IsKept self.old }
        requires named { All IsNamed orders.now }
        requires moment { self.old.clock + 10 * rounds_of orders.now ≤ 2 ^ 48 }
        requires count { length self.old.told + length orders.now < 2 ^ 32 }
        ensures kept { OnOk result (IsKept self.new) }
        ensures world { OnOk result (world_of self.new ≡ fold step (world_of self.old) orders.now) }
    {
        'each: for order in orders {
            self.step(order)?;
        }
        Ok(())
    }
}
