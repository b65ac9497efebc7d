// A client that joined a run.
ghost use Rattle.std.specs.Prelude.{◌≡◌, ◌≤◌, ◌<◌, IfOk, OnOk, OnErr, IfErr, IfSome, Some, None, length};
ghost use Rattle.cluster_client.specs.declared.answers.OfferFault.{OfferFault};
ghost use Rattle.cluster_client.specs.Calls.{refusal, offer_sends};
ghost use Rattle.cluster_client.specs.Runs.{got_of};
ghost use Rattle.joined_clients.specs.Joined.{joins, stream_of, keeps, takes, hears, turned, turn_sends, offers};

use cl_base::{List, NoMemory};
use cluster_client::{Client, Got, OfferFault, ToMember, Took};
use egress::Sent;
use std::alloc::Global;
use std::marker::Model;
use wire_prims::DecodeFault;

/// A client that joined a run: the client, how many records of its stream it was given, and what it was handed.
#[derive(Drop)]
pub struct Joined {
    number: u64,
    client: Client,
    given: usize,
    handed: List<Got>,
}

impl Model for Joined {
    ghost use Rattle.joined_clients.specs.Joined.{JoinedSeen};

    ghost Value = { JoinedSeen };

    ghost view = { λ j. record { number = j.number; client = j.client; given = j.given; handed = j.handed } };
}

/// The stream on which the client of this number listens: the number itself, and -1 for one that no stream has.
pub fn stream_of(number: u64) -> i32
    ensures { result ≡ stream_of number }
{
    if number < 0x8000_0000 {
        number as i32
    } else {
        -1
    }
}

// What is handed out by what a client took.
fn got_of(took: Took) -> Option<Got>
    ensures { result ≡ got_of took }
{
    match took {
        Took::Handed { term, payload } => Some(Got { term, payload }),
        Took::Ignored => None,
    }
}

impl Joined {
    /// The client of this number joins a cluster of so many members, 1 to 5. It takes no memory.
    pub fn new(alloc: Global, number: u64, members: u8) -> Joined
        requires some { 1 ≤ members }
        requires few { members ≤ 5 }
        ensures { result ≡ joins number members }
    {
        Joined {
            number,
            client: Client::new(stream_of(number), members),
            given: 0,
            handed: List::new(alloc),
        }
    }

    /// Its number.
    pub fn number(&self) -> u64
        ensures { result ≡ self.now.number }
    {
        self.number
    }

    /// What it was handed so far, in order.
    pub fn handed(&self) -> &[Got]
        ensures { result.now ≡ self.now.handed }
    {
        self.handed.as_slice()
    }

    // Keeps what it was handed, if anything, behind the rest.
    fn keep(&mut self, got: Option<Got>) -> Result<(), NoMemory>
        ensures { OnOk result (self.new ≡ keeps got self.old) }
    {
        if let Some(got) = got {
            self.handed.push(got)?;
        }
        Ok(())
    }

    // Takes one record of its stream. Bytes that are no message hand out nothing.
    fn take(&mut self, alloc: Global, sent: &Sent, now: u64) -> Result<(), NoMemory>
        ensures { OnOk result (self.new ≡ takes self.old sent.now) }
    {
        match self.client.on_egress(alloc, sent.bytes.as_slice(), now) {
            Ok(took) => self.keep(got_of(took)),
            Err(DecodeFault::Bad(_)) => Ok(()),
            Err(DecodeFault::NoMemory) => Err(NoMemory),
        }
    }

    // Takes the records of its stream that it wasn't given yet.
    fn hear(&mut self, alloc: Global, stream: &[Sent], now: u64) -> Result<(), NoMemory>
        ensures { OnOk result (self.new ≡ hears stream.now self.old) }
    {
        'each: while self.given < stream.len() {
            self.take(alloc, &stream[self.given], now)?;
            self.given += 1;
        }
        Ok(())
    }

    /// Its turn at this time (ms): it takes the records of its stream that it wasn't given yet, and makes a step, which
    /// may send bytes to a member. After want of memory it is only to be given up.
    pub fn turn(
        &mut self,
        alloc: Global,
        stream: &[Sent],
        now: u64,
    ) -> Result<Option<ToMember>, NoMemory>
        ensures sends { IfOk result (λ sends. sends ≡ turn_sends stream.now now self.old) }
        ensures ok { OnOk result (self.new ≡ turned stream.now now self.old) }
    {
        self.hear(alloc, stream, now)?;
        self.client.step(alloc, now)
    }

    /// It offers a payload at this time (ms): the bytes go to its leader. NotOpen where it has no session, then TooLarge
    /// above 16,384 bytes. A refusal changes nothing, nor does want of memory.
    pub fn offer(&mut self, alloc: Global, payload: &[u8], now: u64) -> Result<ToMember, OfferFault>
        ensures sends { IfOk result (λ to. offer_sends payload.now self.old.client ≡ Some to) }
        ensures ok { OnOk result (self.new ≡ offers payload.now now self.old) }
        ensures refused { (fault : OfferFault) → refusal (length payload.now) self.old.client ≡ Some fault → result ≡ Err fault }
        ensures passed { refusal (length payload.now) self.old.client ≡ None → IfErr result (λ fault. fault ≡ OfferFault.NoMemory) }
        ensures err { OnErr result (self.new ≡ self.old) }
    {
        self.client.offer(alloc, payload, now)
    }
}
