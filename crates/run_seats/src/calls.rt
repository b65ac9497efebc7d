// The calls of a running member.
ghost use Rattle.std.specs.Prelude.{◌≡◌, ◌≤◌, ◌^◌, IsTrue, IfOk, OnErr, OnOk};
ghost use Rattle.consensus_agent.specs.Accepted.{OnFault};
ghost use Rattle.member_asks.specs.Clauses.{ActionFailed, ActionTaken, ClientFailed};
ghost use Rattle.member_rows.specs.Calls.{PacketCut, RowCut, RowDone, duty_row};
ghost use Rattle.run_seats.specs.Asked.{Asked, Cut, Fell, Gave, Took, TookBytes, TookOrder, packets_of};
ghost use Rattle.run_seats.specs.Calls.{Called};
ghost use Rattle.run_seats.specs.Seen.{stage_of};

use crate::asking::{Asking, Call, Given};
use crate::member::Member;
use cl_base::{Disk, List, NoMemory};
use consensus_agent::{AgentFault, Delivered};
use egress::Sent;
use ingress::Outcome;
use run_outside::Outside;
use sbe_consensus::Outgoing;
use std::alloc::Global;

/// The packets of a delivery: none where its bytes are called bad.
fn packets_of(alloc: Global, delivered: Delivered) -> List<Outgoing>
    ensures { result ≡ packets_of delivered }
{
    match delivered {
        Delivered::Sent(packets) => packets,
        Delivered::Bad(_) => List::new(alloc),
    }
}

/// What a member's call gives: its packets are in flight then, and its answer is sent. Gives the outcome.
fn give(outside: &mut Outside, member: u8, given: Given) -> Result<Option<Outcome>, NoMemory>
    ensures gave { OnOk result (Gave member given outside.old outside.new) }
    ensures told { IfOk result (λ o. o ≡ given.outcome) }
    ensures printed { outside.new.printed ≡ outside.old.printed }
{
    let Given {
        packets,
        answer,
        outcome,
    } = given;
    outside.emit(member, packets)?;
    outside.answer(answer)?;
    Ok(outcome)
}

impl<D: Disk> Member<D> {
    /// Calls a member. Its packets are in flight then, its answers are sent, and what it has committed is printed. A
    /// client and an operator get an outcome.
    pub(crate) fn ask(
        &mut self,
        outside: &mut Outside,
        call: Call<'_>,
    ) -> Result<Option<Outcome>, AgentFault>
        ensures called { Called result (stage_of self.old) (stage_of self.new) }
        ensures whole { OnOk result (IsTrue self.new.whole) }
        ensures asked { IsTrue self.old.whole → IfOk result (λ o. Asked D.state D.tells D.is_honest call.entry.member call.entry.now call.entry.asking self.old.seen self.new.seen o outside.old outside.new) }
        ensures cut { IsTrue self.old.whole → OnFault result (Cut D.state D.tells D.is_honest call.entry.now call.entry.asking self.old.seen self.new.seen outside.old outside.new) }
    {
        let given = self.take(outside.alloc, call)?;
        let outcome = give(outside, call.member, given)?;
        self.print(outside)?;
        Ok(outcome)
    }

    /// Takes what a member is asked, and gives what the call gives.
    fn take(&mut self, alloc: Global, call: Call<'_>) -> Result<Given, AgentFault>
        ensures called { Called result (stage_of self.old) (stage_of self.new) }
        ensures whole { OnOk result (IsTrue self.new.whole) }
        ensures took { IsTrue self.old.whole → IfOk result (Took D.state D.tells D.is_honest call.entry.asking call.entry.now self.old.seen self.new.seen) }
        ensures fell { IsTrue self.old.whole → OnFault result (Fell D.state D.tells D.is_honest call.entry.asking call.entry.now self.old.seen self.new.seen) }
    {
        let now = call.now;
        match call.asking {
            Asking::Packet(bytes) => {
                let delivered = self.deliver(bytes, now)?;
                Ok(Given {
                    packets: packets_of(alloc, delivered),
                    answer: None,
                    outcome: None,
                })
            }
            Asking::Duty => Ok(Given {
                packets: self.duty(now)?,
                answer: None,
                outcome: None,
            }),
            Asking::Client(bytes) => {
                let (outcome, answer) = self.client(bytes, now)?;
                Ok(Given {
                    packets: List::new(alloc),
                    answer,
                    outcome: Some(outcome),
                })
            }
            Asking::Action => Ok(Given {
                packets: List::new(alloc),
                answer: None,
                outcome: Some(self.action(now)?),
            }),
        }
    }

    /// Takes the bytes of a packet, `now` in ms.
    fn deliver(&mut self, bytes: &[u8], now: u64) -> Result<Delivered, AgentFault>
        requires { now ≤ 2 ^ 60 }
        ensures called { Called result (stage_of self.old) (stage_of self.new) }
        ensures whole { OnOk result (IsTrue self.new.whole) }
        ensures took { IsTrue self.old.whole → IfOk result (TookBytes D.state D.tells D.is_honest bytes.now now self.old.seen self.new.seen) }
        ensures cut { IsTrue self.old.whole → OnErr result (PacketCut D.state D.tells D.is_honest bytes.now now self.old.seen self.new.seen) }
    {
        self.agent.deliver(bytes, now)
    }

    /// Does the duty of its state, `now` in ms.
    fn duty(&mut self, now: u64) -> Result<List<Outgoing>, AgentFault>
        requires { now ≤ 2 ^ 60 }
        ensures called { Called result (stage_of self.old) (stage_of self.new) }
        ensures whole { OnOk result (IsTrue self.new.whole) }
        ensures row { IsTrue self.old.whole → IfOk result (RowDone D.state D.tells D.is_honest (duty_row self.old.seen now) now self.old.seen self.new.seen) }
        ensures cut { IsTrue self.old.whole → OnErr result (RowCut D.state D.tells D.is_honest (duty_row self.old.seen now) self.old.seen self.new.seen) }
    {
        self.agent.duty(now)
    }

    /// Takes the bytes that a client sends, `now` in ms.
    fn client(&mut self, bytes: &[u8], now: u64) -> Result<(Outcome, Option<Sent>), AgentFault>
        requires { now ≤ 2 ^ 60 }
        ensures called { Called result (stage_of self.old) (stage_of self.new) }
        ensures whole { OnOk result (IsTrue self.new.whole) }
        ensures took { IfOk result (TookOrder D.state D.tells D.is_honest bytes.now now self.old.seen self.new.seen) }
        ensures failed { OnFault result (ClientFailed D.state D.tells D.is_honest bytes.now now self.old.seen self.new.seen) }
    {
        self.agent.client(bytes, now)
    }

    /// Takes a snapshot action, `now` in ms.
    fn action(&mut self, now: u64) -> Result<Outcome, AgentFault>
        requires { now ≤ 2 ^ 60 }
        ensures called { Called result (stage_of self.old) (stage_of self.new) }
        ensures whole { OnOk result (IsTrue self.new.whole) }
        ensures took { IfOk result (λ o. ActionTaken D.state D.tells D.is_honest now o self.old.seen self.new.seen) }
        ensures failed { OnFault result (ActionFailed D.state D.tells D.is_honest now self.old.seen self.new.seen) }
    {
        self.agent.action(now)
    }
}
