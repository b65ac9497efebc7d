// Laws of the world that the orders of a scenario reach.
ghost use Rattle.std.specs.Prelude.{◌≡◌, List, take, length, pos, All, AllPairs};
ghost use Rattle.scenario.specs.declared.order.Order.{Order};
ghost use Rattle.echo_run.specs.Headline.{Headline, IsOwed, IsOther, IsSentByLeader, IsLedBy, no_reign, phases_of};
ghost use Rattle.echo_run.specs.World.{world_after};
ghost use Rattle.echo_run.specs.Worked.{worked_orders, worked_text};
ghost use Rattle.echo_run.specs.Reported.{run_text};

/// Whatever orders come, what the service has consumed is the front of the printed log.
pub fn consumes_a_front()
    ensures { (orders : List Order) → (world_after orders).inputs ≡ take (length (world_after orders).inputs) (world_after orders).printed }
{}

/// Each record that was sent for an entry is owed by that entry of the printed log: the same egress on the same stream.
pub fn sends_what_is_owed()
    ensures { (orders : List Order) → All (IsOwed (world_after orders).printed) (world_after orders).sent }
{}

/// No two records that were sent for entries have the same entry, service (or the module) and number.
pub fn sends_once()
    ensures { (orders : List Order) → AllPairs IsOther (world_after orders).sent }
{}

/// Each record that was sent for an entry was sent in a phase that began with the member LEADER_READY in the entry's term.
pub fn is_sent_by_the_leader()
    ensures { (orders : List Order) → All (IsSentByLeader (phases_of orders) (world_after orders).printed) (world_after orders).sent }
{}

/// Each printed entry has the term of the last new term event up to it, and that event names the member.
pub fn leads_its_log()
    ensures { (orders : List Order) → IsLedBy (pos 0) no_reign (world_after orders).printed }
{}

/// All of this, whatever orders come.
pub fn headline()
    ensures { (orders : List Order) → Headline orders }
{}

/// The run that was worked by hand: its orders write its text, byte for byte.
pub fn worked_run()
    ensures { run_text worked_orders ≡ worked_text }
{}
