// All that was sent.
ghost use Rattle.std.specs.Prelude.{◌≡◌, ◌<◌, ◌≤◌, [], OnOk, OnErr, IfOk, IfErr, length};
ghost use Rattle.std.specs.List.{HoldsAt};
ghost use Rattle.egress.specs.Streams.{sent_on, known_by, sent_more, StreamsRise, IsBetween};

use crate::{Known, Sent, Stream};
use cl_base::NoMemory;
use std::alloc::Global;
use std::marker::Model;

/// All that was sent to clients: a list for each stream that has a record, by rising stream, found by halves.
#[derive(Drop)]
pub struct Egress {
    streams: Vec<Stream>,
}

impl Model for Egress {
    ghost use Rattle.std.specs.Prelude.{List};
    ghost use Rattle.egress.specs.Streams.{StreamSeen, StreamsRise};

    ghost Value = { List StreamSeen };

    ghost view = { λ e. e.streams.items };

    ghost invariant = { λ e. StreamsRise e.streams.items };
}

impl Egress {
    /// Nothing was sent. It takes no memory.
    pub fn new(alloc: Global) -> Egress
        ensures { result ≡ [] }
    {
        Egress {
            streams: Vec::new(alloc),
        }
    }

    // Where a stream stands, or where it would.
    fn place_of(&self, stream: i32) -> Result<usize, usize>
        ensures found { IfOk result (λ place. (place < length self.now) × HoldsAt (λ s. s.stream ≡ stream) self.now place) }
        ensures none { IfErr result (λ place. (place ≤ length self.now) × IsBetween stream place self.now) }
    {
        self.streams
            .as_slice()
            .binary_search_by_key(&stream, |s| s.number())
    }

    /// The streams that have a record, rising.
    pub fn streams(&self) -> &[Stream]
        ensures all { result.now ≡ self.now }
        ensures rise { StreamsRise self.now }
    {
        self.streams.as_slice()
    }

    /// What was sent on a stream, in order.
    pub fn list(&self, stream: i32) -> &[Sent]
        ensures { result.now ≡ sent_on stream self.now }
    {
        match self.place_of(stream) {
            Ok(place) => self.streams[place].sent(),
            Err(_) => &[],
        }
    }

    /// What the client of a stream last learnt: the session and the term of the last OK on it, and the term of a later
    /// new leader of that session.
    pub fn known(&self, stream: i32) -> Known
        ensures { result ≡ known_by (sent_on stream self.now) }
    {
        match self.place_of(stream) {
            Ok(place) => self.streams[place].known(),
            Err(_) => Known::none(),
        }
    }

    /// Sends a record on its stream. Where there is no memory nothing changes.
    pub fn send(&mut self, s: Sent) -> Result<(), NoMemory>
        ensures ok { OnOk result (self.new ≡ sent_more s self.old) }
        ensures err { OnErr result (self.new ≡ self.old) }
    {
        match self.place_of(s.stream) {
            Ok(place) => send_on(&mut self.streams, place, s),
            Err(place) => send_first(&mut self.streams, place, s),
        }
    }
}

// A record of the stream that stands at this place.
fn send_on(streams: &mut Vec<Stream>, place: usize, s: Sent) -> Result<(), NoMemory>
    requires rise { StreamsRise streams.old.items }
    requires within { place < length streams.old.items }
    requires found { HoldsAt (λ b. b.stream ≡ s.stream) streams.old.items place }
    ensures ok { OnOk result (streams.new.items ≡ sent_more s streams.old.items) }
    ensures err { OnErr result (streams.new.items ≡ streams.old.items) }
    ensures rise { StreamsRise streams.new.items }
{
    let alloc = *streams.allocator();
    streams[place].send(alloc, s)
}

// The first record of a stream, which goes to this place.
fn send_first(streams: &mut Vec<Stream>, place: usize, s: Sent) -> Result<(), NoMemory>
    requires rise { StreamsRise streams.old.items }
    requires within { place ≤ length streams.old.items }
    requires between { IsBetween s.stream place streams.old.items }
    ensures ok { OnOk result (streams.new.items ≡ sent_more s streams.old.items) }
    ensures err { OnErr result (streams.new.items ≡ streams.old.items) }
    ensures rise { StreamsRise streams.new.items }
{
    let alloc = *streams.allocator();
    let mut stream = Stream::new(alloc, s.stream);
    stream.send(alloc, s)?;
    let Ok(()) = streams.insert(place, stream) else {
        return Err(NoMemory);
    };
    Ok(())
}
