// The driver's end of an image.
ghost use Rattle.std.specs.Prelude.{◌≡◌, ◌+◌, ◌^◌, ◌<◌, ◌≤◌, true, false, [], ◌∷◌, ◌++◌, length, OnOk, IfErr, OnErr};
ghost use Rattle.commit_counter.specs.Ends.{fed_to};

use crate::line::{Feeds, LinePass};
use crate::role::Role;
use crate::shared::Shared;
use crate::words::{Asks, COMMIT, POSITION, Publishes, WordsSeat};
use cl_base::Entry;
use cl_base::limits::QUEUE_ENTRIES;
use std::alloc::Global;
use std::marker::Model;
use std::sync::{Arc, Wait};

/// What the driver's thread feeds a service. Contracts see it as what was fed, what was published, and whether the
/// end was. Positions and commits count entries of the log from its first one.
#[derive(Drop)]
pub struct Feed {
    pub(crate) image: Arc<Shared, Global>,
    pub(crate) pass: LinePass,
    pub(crate) seat: WordsSeat,
    pub(crate) word: u64,
    pub(crate) start: u64,
    pub(crate) pushed: u64,
    pub(crate) role: Role,
}

impl Model for Feed {
    ghost use Rattle.commit_counter.specs.Ends.{Fed};

    ghost Value = { Fed };

    ghost use Rattle.commit_counter.specs.Feeding.{fed_of, IsFeed};

    ghost view = { fed_of };

    ghost invariant = { IsFeed };
}

impl Feed {
    /// What the member was as the phase began.
    pub fn role(&self) -> Role
        ensures { result ≡ self.now.role }
    {
        self.role
    }

    /// The index of the next entry to feed.
    pub fn pushed(&self) -> u64
        ensures { result ≡ fed_to self.now }
    {
        self.pushed
    }

    /// The published commit.
    pub fn commit(&self) -> u64
        ensures { result ≡ self.now.commit }
    {
        self.word / 2
    }

    /// Feeds an entry. It comes back only where the queue was full at this call's step, and then nothing changed.
    pub fn push<R: Wait>(&mut self, rt: &R, e: Entry) -> Result<(), Entry>
        requires { fed_to self.old < 2 ^ 62 }
        ensures fed { OnOk result (self.new ≡ record self.old { list = self.old.list ++ e ∷ [] }) }
        ensures back { IfErr result (λ x. x ≡ e) }
        ensures stays { OnErr result (self.new ≡ self.old) }
        // A full queue holds this many of the entries that were fed.
        ensures full { OnErr result (QUEUE_ENTRIES ≤ length self.old.list) }
    {
        self.image.queue.push_as::<Feeds, R>(rt, &mut self.pass, e)?;
        self.pushed += 1;
        Ok(())
    }

    /// Publishes a commit: entries below it may be taken.
    pub fn publish(&mut self, commit: u64)
        requires rises { self.old.commit ≤ commit }
        requires bound { commit < 2 ^ 62 }
        requires running { self.old.ended ≡ false }
        ensures { self.new ≡ record self.old { commit = commit } }
    {
        self.word = 2 * commit;
        self.image
            .words
            .shared
            .store::<Publishes>(&mut self.seat, COMMIT, self.word);
        self.image.words.shared.wake_one(COMMIT);
    }

    /// Publishes the end: no entry past the published commit will be taken.
    pub fn finish(&mut self)
        requires running { self.old.ended ≡ false }
        requires fed { self.old.commit ≤ fed_to self.old }
        ensures { self.new ≡ record self.old { ended = true } }
    {
        self.word += 1;
        self.image
            .words
            .shared
            .store::<Publishes>(&mut self.seat, COMMIT, self.word);
        self.image.words.shared.wake_one(COMMIT);
    }

    /// How far the service had taken, as this call's step found it. It doesn't fall from call to call.
    pub fn service_position(&mut self) -> u64
        ensures found { self.new ≡ record self.old { found = result } }
        ensures rises { self.old.found ≤ result }
        ensures begun { self.old.start ≤ result }
        ensures within { result ≤ self.old.commit }
    {
        self.image
            .words
            .shared
            .load::<Asks>(&mut self.seat, POSITION)
    }
}
