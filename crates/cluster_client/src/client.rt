// A client.
ghost use Rattle.std.specs.Prelude.{◌≡◌, ◌↔◌, ◌<◌, ◌≤◌, length, Some, None, IfOk, IfErr, OnOk, OnErr, IsOk, IfSome, MatchResult};
ghost use Rattle.wire_prims.specs.declared.fault.Bad.{Bad};
ghost use Rattle.wire_prims.specs.declared.fault.DecodeFault.{DecodeFault};
ghost use Rattle.sbe_client.specs.Reading.{ReadsEgress, first_fault_egress};
ghost use Rattle.sbe_client.specs.declared.egress.Egress.{Egress};
ghost use Rattle.cluster_client.specs.Seen.{new_client};
ghost use Rattle.cluster_client.specs.declared.answers.OfferFault.{OfferFault};
ghost use Rattle.cluster_client.specs.Calls.{stepped, step_sends, asked, connect_of, heard, answered, took, refusal, offer_sends, offered};

use crate::{OfferFault, State, ToMember, Took, hearing};
use cl_base::limits::{NUMBER_LIMIT, PAYLOAD_LIMIT};
use cl_base::{Bytes, NoMemory};
use sbe_client::{Egress, Ingress, decode_egress, encode_ingress};
use std::alloc::Global;
use std::marker::Model;
use wire_prims::DecodeFault;

/// After how long a silence a client asks the next member, or shows that its session lives, in ms.
const QUIET_MS: u64 = 1_000;

/// A client of a cluster: it asks the members for a session, one after another, and keeps the session that it gets. It
/// holds no memory and no handle.
#[derive(Debug, Drop)]
pub struct Client {
    stream: i32,
    members: u8,
    corr: u64,
    next: u8,
    sent: u64,
    state: State,
}

impl Model for Client {
    ghost use Rattle.cluster_client.specs.Seen.{ClientSeen, IsSound};

    ghost Value = { ClientSeen };

    ghost view = { λ c. record { stream = c.stream; members = c.members; corr = c.corr; next = c.next; sent = c.sent; state = c.state } };

    ghost invariant = { λ c. IsSound (record { stream = c.stream; members = c.members; corr = c.corr; next = c.next; sent = c.sent; state = c.state }) };
}

impl Client {
    /// A client that listens on this stream, of a cluster of so many members, 1 to 5. It is unconnected and asks member
    /// 0 first.
    pub fn new(stream: i32, members: u8) -> Client
        requires some { 1 ≤ members }
        requires few { members ≤ 5 }
        ensures { result ≡ new_client stream members }
    {
        Client {
            stream,
            members,
            corr: 0,
            next: 0,
            sent: 0,
            state: State::Unconnected,
        }
    }

    /// How far it is.
    pub fn state(&self) -> State
        ensures { result ≡ self.now.state }
    {
        self.state
    }

    // Asks a member for a session.
    fn ask(&mut self, alloc: Global, member: u8, now: u64) -> Result<ToMember, NoMemory>
        requires { member < self.old.members }
        ensures ok { IfOk result (λ to. (to ≡ connect_of (asked member now self.old)) × (self.new ≡ asked member now self.old)) }
        ensures err { OnErr result (self.new ≡ self.old) }
    {
        let corr = (self.corr + 1).min(NUMBER_LIMIT);
        let connect = Ingress::Connect {
            corr: corr as i64,
            stream: self.stream,
            channel: Bytes::from_vec(Vec::new(alloc)),
        };
        let bytes = encode_ingress(alloc, &connect)?;
        self.corr = corr;
        self.next = member;
        self.sent = now;
        self.state = State::Connecting;
        Ok(ToMember { member, bytes })
    }

    /// One step at this time (ms). Unconnected, it asks its next member for a session; connecting, it asks the member
    /// behind where it was quiet for 1,000 ms; with a session, it shows the leader that it lives where it was quiet for
    /// 1,000 ms. Else it sends nothing, which needs no memory.
    pub fn step(&mut self, alloc: Global, now: u64) -> Result<Option<ToMember>, NoMemory>
        ensures sends { IfOk result (λ sends. sends ≡ step_sends now self.old) }
        ensures ok { OnOk result (self.new ≡ stepped now self.old) }
        ensures err { OnErr result (self.new ≡ self.old) }
        ensures idle { step_sends now self.old ≡ None → IsOk result }
        ensures to_member { IfOk result (λ sends. IfSome sends (λ to. to.member < self.old.members)) }
    {
        let quiet = now.saturating_sub(self.sent) >= QUIET_MS;
        match self.state {
            State::Unconnected => Ok(Some(self.ask(alloc, self.next, now)?)),
            State::Connecting if quiet => {
                let member = (self.next + 1) % self.members;
                Ok(Some(self.ask(alloc, member, now)?))
            }
            State::Open {
                session,
                term,
                leader,
            } if quiet => {
                let bytes = encode_ingress(alloc, &Ingress::KeepAlive { term, session })?;
                self.sent = now;
                Ok(Some(ToMember {
                    member: leader,
                    bytes,
                }))
            }
            _ => Ok(None),
        }
    }

    /// Takes a record of the cluster. What comes isn't something sent, so the time changes nothing. Bytes that are no
    /// message are told with their first fault, and change nothing; nor does want of memory.
    pub fn on_egress(&mut self, alloc: Global, bytes: &[u8], _now: u64) -> Result<Took, DecodeFault>
        ensures heard { (m : Egress) → ReadsEgress bytes.now m → MatchResult result (λ answer. (answer ≡ took m self.old) × (self.new ≡ heard m self.old)) (λ fault. fault ≡ DecodeFault.NoMemory) }
        ensures read { OnOk result ((m : Egress) × ReadsEgress bytes.now m) }
        ensures bad { (bad : Bad) → (result ≡ Err (DecodeFault.Bad bad)) ↔ (first_fault_egress bytes.now ≡ Some bad) }
        ensures err { OnErr result (self.new ≡ self.old) }
    {
        let message = decode_egress(alloc, bytes)?;
        Ok(self.hear(message))
    }

    // Takes a message.
    fn hear(&mut self, message: Egress) -> Took
        ensures answer { result ≡ took message self.old }
        ensures state { self.new ≡ heard message self.old }
    {
        match self.state {
            State::Connecting => {
                self.hear_answer(&message);
                Took::Ignored
            }
            State::Open {
                session,
                term,
                leader,
            } => {
                self.state = hearing::told(self.members, session, term, leader, &message);
                hearing::taken(session, term, message)
            }
            _ => Took::Ignored,
        }
    }

    // Takes what may be the answer to its connect.
    fn hear_answer(&mut self, message: &Egress)
        ensures { self.new ≡ answered message.now self.old }
    {
        let Egress::SessionEvent {
            session,
            corr,
            term,
            leader,
            code,
        } = message
        else {
            return;
        };
        if *corr != self.corr as i64 {
            return;
        }
        let named = hearing::member_named(self.members, *leader);
        match *code {
            0 => {
                self.state = State::Open {
                    session: *session,
                    term: *term,
                    leader: named.unwrap_or(0),
                };
            }
            2 => {
                self.next = named.unwrap_or((self.next + 1) % self.members);
                self.state = State::Unconnected;
            }
            _ => {}
        }
    }

    /// Sends a payload to the leader of the client's session. NotOpen where it has none, then TooLarge above 16,384
    /// bytes. A refusal changes nothing, nor does want of memory.
    pub fn offer(&mut self, alloc: Global, payload: &[u8], now: u64) -> Result<ToMember, OfferFault>
        ensures sends { IfOk result (λ to. offer_sends payload.now self.old ≡ Some to) }
        ensures ok { OnOk result (self.new ≡ offered now self.old) }
        ensures refused { (fault : OfferFault) → refusal (length payload.now) self.old ≡ Some fault → result ≡ Err fault }
        ensures passed { refusal (length payload.now) self.old ≡ None → IfErr result (λ fault. fault ≡ OfferFault.NoMemory) }
        ensures err { OnErr result (self.new ≡ self.old) }
        ensures to_member { IfOk result (λ to. to.member < self.old.members) }
    {
        let State::Open {
            session,
            term,
            leader,
        } = self.state
        else {
            return Err(OfferFault::NotOpen);
        };
        if payload.len() > PAYLOAD_LIMIT {
            return Err(OfferFault::TooLarge {
                len: payload.len() as u64,
            });
        }
        let message = Ingress::Message {
            term,
            session,
            payload: Bytes::of(alloc, payload)?,
        };
        let bytes = encode_ingress(alloc, &message)?;
        self.sent = now;
        Ok(ToMember {
            member: leader,
            bytes,
        })
    }
}
