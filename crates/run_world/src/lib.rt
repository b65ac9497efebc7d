//! The world of a run, with its disks, its network and its clock; and that what is safe in the protocol's steps is safe in it.
#![tactic(auto)]

ghost use Rattle.std.specs.Prelude.{◌≡◌, ◌≤◌, ℕ, Bool, true, List, length};
ghost use Rattle.service_api.specs.declared.shipped.Kind.{Kind};
ghost use Rattle.consensus_core.specs.Member.{Whole, begins_run};
ghost use Rattle.run_world.specs.Headline.{Headline};
ghost use Rattle.run_world.specs.Lawful.{Lawful};
ghost use Rattle.run_world.specs.Rounds.{Rounds};
ghost use Rattle.run_world.specs.Seat.{Fate};
ghost use Rattle.run_world.specs.RunWorld.{Act, RunWorld, Starts, after_acts, does, first_world, is_down, seat};

/// What is promised holds after every list of acts of at most five members with at most three services.
pub fn is_safe()
    ensures { (n : ℕ) (kinds : List Kind) (acts : List Act) → n ≤ 5 → length kinds ≤ 3 → Headline kinds (after_acts kinds (first_world n) acts) }
{}

/// A world that steps of the protocol explain stays so at each act and over rounds, and what is promised holds in it.
pub fn stays_lawful()
    ensures first { (n : ℕ) (kinds : List Kind) → Lawful n kinds (first_world n) }
    ensures acts { (n : ℕ) (kinds : List Kind) (w : RunWorld) (a : Act) → n ≤ 5 → length kinds ≤ 3 → Lawful n kinds w → Lawful n kinds (does kinds w a) }
    ensures rounds { (n : ℕ) (kinds : List Kind) (quiet : Bool) (count : ℕ) (w v : RunWorld) → n ≤ 5 → length kinds ≤ 3 → Lawful n kinds w → Rounds kinds quiet count w v → Lawful n kinds v }
    ensures headline { (n : ℕ) (kinds : List Kind) (w : RunWorld) → n ≤ 5 → length kinds ≤ 3 → Lawful n kinds w → Headline kinds w }
{}

/// A member that starts has what its disk kept, and each of its services the entries of its latest valid snapshot.
pub fn starts_from_its_disk()
    ensures kept { (kinds : List Kind) (w : RunWorld) (m : ℕ) (f : Fate) → is_down w m ≡ true → (seat (does kinds w (Starts m f)) m).member.durable ≡ (seat w m).member.durable }
    ensures runs { (kinds : List Kind) (w : RunWorld) (m : ℕ) (f : Fate) → is_down w m ≡ true → f.cut ≡ Whole → (seat (does kinds w (Starts m f)) m).run ≡ begins_run (length kinds) (seat w m).member.durable }
{}
