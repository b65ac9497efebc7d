// The containers of one member.
ghost use Rattle.std.specs.Prelude.{◌≡◌, ◌<◌, ◌^◌, ℕ, List as ListOf, [], ◌++◌, true, map, IfOk, OnErr};
ghost use Rattle.cl_base.specs.declared.entry.Entry.{Entry as LogEntry};
ghost use Rattle.service_phases.specs.Pairs.{Each, Each2};
ghost use Rattle.service_phases.specs.Feeds.{FeedEnds, HasCommit};
ghost use Rattle.service_phases.specs.Phases.{Began, IsReady, keeping, forgetting, containers, IsAt, IsWithin, HasAll, RanFor, OneImage, Closed, HasEndedWell};

use crate::close::close_each;
use crate::forget::forget_each;
use crate::images::images_of;
use crate::lend::lend_each;
use cl_base::{List, NoMemory};
use commit_counter::{Feed, Role};
use service_container::{Container, Served};
use std::alloc::Global;
use std::marker::Model;
use std::snapshot::Snapshot;
use std::sync::Wait;

/// The containers of one member, by service. While a phase runs they are lent, and it knows each as it was lent and
/// each feed as its image began. Contracts see it as these three lists.
#[derive(Drop)]
pub struct Services {
    alloc: Global,
    kept: Vec<Container>,
    lent: Vec<Snapshot<Container>>,
    begun: Vec<Snapshot<Feed>>,
}

impl Model for Services {
    ghost use Rattle.service_phases.specs.Phases.{Lending};

    ghost Value = { Lending };

    ghost use Rattle.service_phases.specs.Inside.{lending_of, IsServices};

    ghost view = { lending_of };

    ghost invariant = { IsServices };
}

impl Services {
    /// These containers, by service, with no phase.
    pub fn new(alloc: Global, containers: Vec<Container>) -> Services
        ensures { result ≡ record { kept = containers.items; lent = []; begun = [] } }
    {
        Services {
            alloc,
            kept: containers,
            lent: Vec::new(alloc),
            begun: Vec::new(alloc),
        }
    }

    /// The containers, by service, as far as they are not lent.
    pub fn containers(&self) -> &[Container]
        ensures { result.now ≡ self.now.kept }
    {
        self.kept.as_slice()
    }

    /// Empties the outbox of each container that is not lent.
    pub fn forget_outboxes(&mut self)
        ensures { self.new ≡ record self.old { kept = map forgetting self.old.kept } }
    {
        forget_each(self.kept.as_mut_slice());
    }

    /// Begins an image for each container, at what it consumed, and lends the containers with their pollers. A job that
    /// hasn't run yet bears the end NoMemory.
    pub fn begin(&mut self, role: Role) -> Result<(List<Feed>, List<Served>), NoMemory>
        requires ready { Each IsReady self.old.kept }
        ensures began { IfOk result (λ p. Began self.old self.new p.0 p.1) }
        ensures stays { OnErr result (self.new ≡ self.old) }
    {
        let alloc = self.alloc;
        let mut images = images_of(alloc, role, self.kept.as_slice())?;
        let mut jobs = Vec::with_capacity(alloc, self.kept.len())?;
        lend_each(&mut self.kept, &mut images.pollers, &mut jobs);
        self.lent = images.lent;
        self.begun = images.begun;
        Ok((List::from_vec(images.feeds), List::from_vec(jobs)))
    }

    /// Closes the images of the phase, and keeps the containers.
    pub fn end<R: Wait>(&mut self, rt: &R, feeds: List<Feed>, served: List<Served>)
        requires served { Each2 RanFor self.old.lent served }
        requires images { Each2 OneImage feeds served }
        requires finished { Each (λ f. f.ended ≡ true) feeds }
        ensures kept { self.new ≡ record { kept = self.old.kept ++ containers served; lent = []; begun = [] } }
        // Each service took what was published and no more, and all of it where its container ended.
        ensures closed { Each2 Closed feeds served }
        // What each service consumed is the log's, within its commit.
        ensures within { (log : ListOf LogEntry) → (commit : ℕ) → Each (IsWithin log commit) self.old.lent → Each2 (FeedEnds log commit) self.old.begun feeds → Each (IsWithin log commit) (containers served) }
        // It is all up to the commit, where that was published and each container ended.
        ensures whole { (log : ListOf LogEntry) → (commit : ℕ) → Each (IsWithin log commit) self.old.lent → Each2 (FeedEnds log commit) self.old.begun feeds → Each (HasCommit commit) feeds → Each HasEndedWell served → Each (HasAll log commit) (containers served) }
        // Each is at the commit, where that was published and each container ended.
        ensures place { (commit : ℕ) → Each (HasCommit commit) feeds → Each HasEndedWell served → Each (IsAt commit) (containers served) }
    {
        let mut feeds = feeds.into_vec();
        let mut served = served.into_vec();
        close_each(rt, &mut feeds, &mut served, &mut self.kept);
        self.lent.clear();
        self.begun.clear();
    }

    /// Closes the images of the phase, whose containers all ended, and begins new ones at what was taken. Where no memory
    /// was there the containers are kept.
    pub fn next_images<R: Wait>(
        &mut self,
        rt: &R,
        role: Role,
        feeds: List<Feed>,
        served: List<Served>,
    ) -> Result<(List<Feed>, List<Served>), NoMemory>
        requires phase { self.old.kept ≡ [] }
        requires served { Each2 RanFor self.old.lent served }
        requires images { Each2 OneImage feeds served }
        requires finished { Each (λ f. f.ended ≡ true) feeds }
        requires ended { Each HasEndedWell served }
        requires bound { Each (λ f. f.commit < 2 ^ 62) feeds }
        ensures closed { Each2 Closed feeds served }
        // What each service consumed is the log's, within its commit.
        ensures within { (log : ListOf LogEntry) → (commit : ℕ) → Each (IsWithin log commit) self.old.lent → Each2 (FeedEnds log commit) self.old.begun feeds → Each (IsWithin log commit) (containers served) }
        ensures began { IfOk result (λ p. Began (keeping served) self.new p.0 p.1) }
        ensures kept { OnErr result (self.new ≡ keeping served) }
    {
        self.end(rt, feeds, served);
        self.begin(role)
    }
}
