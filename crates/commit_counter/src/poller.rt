// The service's end of an image.
ghost use Rattle.std.specs.Prelude.{◌≡◌};
ghost use Rattle.commit_counter.specs.Answers.{Answers, GoesOn};

use crate::line::{LinePass, Takes};
use crate::shared::Shared;
use crate::words::{COMMIT, Looks, Moves, POSITION, WordsSeat};
use cl_base::Entry;
use std::alloc::Global;
use std::marker::Model;
use std::sync::{Arc, Wait};
use std::time::Duration;

/// What a service polls. Contracts see it as what was taken, and the commit that was seen last.
#[derive(Drop)]
pub struct Poller {
    pub(crate) image: Arc<Shared, Global>,
    pub(crate) pass: LinePass,
    pub(crate) seat: WordsSeat,
    pub(crate) seen: u64,
    pub(crate) start: u64,
    pub(crate) position: u64,
}

impl Model for Poller {
    ghost use Rattle.commit_counter.specs.Ends.{Polled};

    ghost Value = { Polled };

    ghost use Rattle.commit_counter.specs.Polling.{polled_of, IsPoller};

    ghost view = { polled_of };

    ghost invariant = { IsPoller };
}

/// What a poll answers. `seen` is the commit that this poll loaded, in entries.
#[derive(Debug, Drop)]
pub enum Poll {
    /// The entry at this index of the log was taken. It is below the commit.
    Took { index: u64, entry: Entry },
    /// All up to the commit was taken, and more may be published.
    NotYet { seen: u64 },
    /// An entry is committed, and the queue was empty at this call's step.
    Empty { seen: u64 },
    /// All up to the commit was taken, and no more will be published.
    Ended { seen: u64 },
}

impl Poller {
    /// Takes the next entry, if it is committed and there.
    pub fn poll_one<R: Wait>(&mut self, rt: &R) -> Poll
        ensures answer { Answers self.old result self.new }
        ensures goes_on { GoesOn self.old self.new }
    {
        self.seen = self
            .image
            .words
            .shared
            .load::<Looks>(&mut self.seat, COMMIT);
        let seen = self.seen / 2;
        if self.position >= seen {
            return if self.seen % 2 == 1 {
                Poll::Ended { seen }
            } else {
                Poll::NotYet { seen }
            };
        }
        let Some(entry) = self.image.queue.pop_as::<Takes, R>(rt, &mut self.pass) else {
            return Poll::Empty { seen };
        };
        let index = self.position;
        self.position += 1;
        self.image
            .words
            .shared
            .store::<Moves>(&mut self.seat, POSITION, self.position);
        Poll::Took { index, entry }
    }

    /// Waits until the driver publishes, or a millisecond.
    pub fn await_more<R: Wait>(&mut self, rt: &R)
        ensures { self.new ≡ self.old }
    {
        // A wait looks at the word's low half. It ends by itself too, since a push into an empty queue wakes nobody.
        let low_half = (self.seen % 4_294_967_296) as u32;
        self.image
            .words
            .shared
            .park_timeout(rt, COMMIT, low_half, Duration::from_millis(1));
    }
}
