//! The world: the members of a cluster with their disks as data, every packet ever sent, and what is safe in it after any
//! list of steps.
#![tactic(auto)]

ghost use Rattle.std.specs.Prelude.{◌≡◌, ℕ, List};
ghost use Rattle.world.specs.World.{Step, run, formatted, member};
ghost use Rattle.world.specs.Example.{alone, three};
ghost use Rattle.world.specs.Safe.{TermsHold, VotesHold, ReignsHold};

/// What holds after every list of steps of any number of members.
pub fn is_safe()
    ensures terms { (n : ℕ) (steps : List Step) → TermsHold (run (formatted n) steps) }
    ensures votes { (n : ℕ) (steps : List Step) → VotesHold (run (formatted n) steps) }
    ensures reigns { (n : ℕ) (steps : List Step) → ReignsHold n (run (formatted n) steps) }
{}

/// The rows do lead to a commit: it is computed for two small runs.
pub fn commits()
    ensures one { (member (run (formatted 1) alone) 0).values.rest.commit ≡ 1 }
    ensures of_three { (member (run (formatted 3) three) 0).values.rest.commit ≡ 1 }
{}
