// The images of a phase as it begins.
ghost use Rattle.std.specs.Prelude.{◌≡◌, [], ◌∷◌, ◌++◌, IfOk, OnOk, List};
ghost use Rattle.service_container.specs.Held.{Held};
ghost use Rattle.service_phases.specs.Pairs.{Each};
ghost use Rattle.service_phases.specs.Phases.{IsReady};
ghost use Rattle.service_phases.specs.Begins.{AreImages};

use cl_base::NoMemory;
use commit_counter::{Feed, Poller, Role, image};
use service_container::Container;
use std::alloc::Global;
use std::snapshot::Snapshot;

/// The images of a phase by service, and each container and each feed as the phase begins.
#[derive(Drop)]
pub struct Images {
    pub(crate) feeds: Vec<Feed>,
    pub(crate) pollers: Vec<Poller>,
    pub(crate) begun: Vec<Snapshot<Feed>>,
    pub(crate) lent: Vec<Snapshot<Container>>,
}

impl Images {
    fn none(alloc: Global) -> Images
        ensures { AreImages [] result }
    {
        Images {
            feeds: Vec::new(alloc),
            pollers: Vec::new(alloc),
            begun: Vec::new(alloc),
            lent: Vec::new(alloc),
        }
    }

    // Adds an image for this container.
    fn add(&mut self, alloc: Global, role: Role, container: &Container) -> Result<(), NoMemory>
        requires { IsReady container.now }
        ensures { OnOk result ((cs : List Held) → AreImages cs self.old → AreImages (cs ++ container.now ∷ []) self.new) }
    {
        let (feed, poller) = image(alloc, container.consumed_to(), role)?;
        self.begun.reserve(1)?;
        self.lent.reserve(1)?;
        self.feeds.reserve(1)?;
        self.pollers.reserve(1)?;
        self.begun.push_reserved(Snapshot::of(&feed));
        self.lent.push_reserved(Snapshot::of(container));
        self.feeds.push_reserved(feed);
        self.pollers.push_reserved(poller);
        Ok(())
    }
}

/// An image for each container.
pub fn images_of(alloc: Global, role: Role, kept: &[Container]) -> Result<Images, NoMemory>
    requires { Each IsReady kept.now }
    ensures { IfOk result (AreImages kept.now) }
{
    let Some((last, front)) = kept.split_last() else {
        return Ok(Images::none(alloc));
    };
    let mut images = images_of(alloc, role, front)?;
    images.add(alloc, role, last)?;
    Ok(images)
}
