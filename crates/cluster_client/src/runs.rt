// A client over a list of calls, and what its user gets.
ghost use Rattle.std.specs.Prelude.{◌≡◌, ◌≢◌, ◌≤◌, ◌++◌, [], List as list, Ok, Err, IfOk, OnOk};
ghost use Rattle.std.specs.List.{cons_option};
ghost use Rattle.wire_prims.specs.declared.fault.DecodeFault.{DecodeFault};
ghost use Rattle.cluster_client.specs.Seen.{new_client};
ghost use Rattle.cluster_client.specs.Handed.{handed};
ghost use Rattle.cluster_client.specs.Runs.{Event, ComesTo, AllComeTo, after, got_by, got_by_answer, given};

use crate::{Client, OfferFault, Took};
use cl_base::{Bytes, List, NoMemory};
use std::alloc::Global;
use wire_prims::DecodeFault;

/// One call of a client, at a time in ms.
#[derive(Debug, Drop)]
pub enum Call {
    /// It makes a step.
    Step { now: u64 },
    /// It is given a record.
    Egress { bytes: Bytes, now: u64 },
    /// It is to send a payload.
    Offer { payload: Bytes, now: u64 },
}

/// What a client's user got.
#[derive(Debug, Drop)]
pub struct Got {
    /// The leadership term in which it was sent.
    pub term: i64,
    /// What the service said.
    pub payload: Bytes,
}

impl Call {
    // Makes the call, and gives what the client's user gets by it.
    fn make(&self, alloc: Global, client: &mut Client) -> Result<Option<Got>, NoMemory>
        ensures { IfOk result (λ got. (e : Event) → ComesTo self.now e → (got ≡ got_by e client.old) × (client.new ≡ after e client.old)) }
    {
        match self {
            Call::Step { now } => {
                client.step(alloc, *now)?;
                Ok(None)
            }
            Call::Egress { bytes, now } => give(alloc, client, bytes, *now),
            Call::Offer { payload, now } => match client.offer(alloc, payload.as_slice(), *now) {
                Err(OfferFault::NoMemory) => Err(NoMemory),
                _ => Ok(None),
            },
        }
    }
}

// Gives a client a record, and gives what its user gets by it.
fn give(
    alloc: Global,
    client: &mut Client,
    bytes: &Bytes,
    now: u64,
) -> Result<Option<Got>, NoMemory>
    ensures { IfOk result (λ got. (e : Event) → ComesTo (Call.Egress bytes.now now) e → (got ≡ got_by e client.old) × (client.new ≡ after e client.old)) }
{
    got_of(client.on_egress(alloc, bytes.as_slice(), now))
}

// What a user gets by a client's answer to a record: nothing by bytes that are no message.
fn got_of(answer: Result<Took, DecodeFault>) -> Result<Option<Got>, NoMemory>
    ensures got { IfOk result (λ got. got ≡ got_by_answer answer) }
    ensures memory { OnOk result (answer ≢ Err DecodeFault.NoMemory) }
{
    match answer {
        Ok(Took::Handed { term, payload }) => Ok(Some(Got { term, payload })),
        Ok(Took::Ignored) | Err(DecodeFault::Bad(_)) => Ok(None),
        Err(DecodeFault::NoMemory) => Err(NoMemory),
    }
}

// Puts what was got, if anything, behind the rest.
fn keep(all: &mut List<Got>, one: Option<Got>) -> Result<(), NoMemory>
    ensures { OnOk result (all.new ≡ all.old ++ cons_option one []) }
{
    if let Some(got) = one {
        all.push(got)?;
    }
    Ok(())
}

/// Makes these calls of a new client that listens on this stream, of a cluster of so many members, and gives what the
/// client's user got. Whatever the calls are, that is what `handed` says of the records that the client was given:
/// behind the OK that opened its session, and before the session's close, the session's messages of the greatest term
/// that the session knew.
pub fn run_calls(
    alloc: Global,
    stream: i32,
    members: u8,
    calls: &[Call],
) -> Result<List<Got>, NoMemory>
    requires some { 1 ≤ members }
    requires few { members ≤ 5 }
    ensures { IfOk result (λ got. (events : list Event) → AllComeTo calls.now events → got ≡ handed (given (new_client stream members) events)) }
{
    let mut client = Client::new(stream, members);
    let mut got = List::new(alloc);
    for call in calls {
        let one = call.make(alloc, &mut client)?;
        keep(&mut got, one)?;
    }
    Ok(got)
}
