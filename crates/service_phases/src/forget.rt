// Outboxes that were read are emptied.
ghost use Rattle.std.specs.Prelude.{◌≡◌, map};
ghost use Rattle.service_phases.specs.Phases.{forgetting};

use service_container::Container;

/// Empties the outbox of each container.
pub fn forget_each(kept: &mut [Container])
    ensures { kept.new ≡ map forgetting kept.old }
{
    let Some((container, rest)) = kept.split_first_mut() else {
        return;
    };
    container.forget_outbox();
    forget_each(rest);
}
