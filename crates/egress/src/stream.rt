// The records of one stream.
ghost use Rattle.std.specs.Prelude.{◌≡◌, ◌++◌, ◌∷◌, [], OnOk, OnErr};
ghost use Rattle.egress.specs.Streams.{empty_stream, known_by, with_record};

use crate::{Known, Sent};
use cl_base::{List, NoMemory};
use std::alloc::Global;
use std::marker::Model;

/// What was sent on one stream, in order, and what its client last learnt.
#[derive(Drop)]
pub struct Stream {
    stream: i32,
    sent: List<Sent>,
    known: Known,
}

impl Model for Stream {
    ghost use Rattle.std.specs.Prelude.{◌≡◌};
    ghost use Rattle.egress.specs.Streams.{StreamSeen, known_by};

    ghost Value = { StreamSeen };

    ghost view = { λ s. record { stream = s.stream; sent = s.sent } };

    ghost invariant = { λ s. s.known ≡ known_by s.sent };
}

impl Stream {
    /// A stream on which nothing was sent. It takes no memory.
    pub(crate) fn new(alloc: Global, stream: i32) -> Stream
        ensures { result ≡ empty_stream stream }
    {
        Stream {
            stream,
            sent: List::new(alloc),
            known: Known::none(),
        }
    }

    /// Its number.
    pub fn number(&self) -> i32
        ensures { result ≡ self.now.stream }
    {
        self.stream
    }

    /// What was sent, in order.
    pub fn sent(&self) -> &[Sent]
        ensures { result.now ≡ self.now.sent }
    {
        self.sent.as_slice()
    }

    /// What its client last learnt.
    pub fn known(&self) -> Known
        ensures { result ≡ known_by self.now.sent }
    {
        self.known
    }

    /// Sends a record on it. Where there is no memory it stays as it was.
    pub(crate) fn send(&mut self, alloc: Global, s: Sent) -> Result<(), NoMemory>
        ensures ok { OnOk result (self.new ≡ with_record s self.old) }
        ensures err { OnErr result (self.new ≡ self.old) }
    {
        let known = self.known.learns(alloc, s.bytes.as_slice())?;
        self.sent.push(s)?;
        self.known = known;
        Ok(())
    }
}
