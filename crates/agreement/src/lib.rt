//! Committed prefixes stay, over any steps of members.
#![tactic(auto)]

ghost use Rattle.std.specs.Prelude.{◌≡◌, ℕ, ◌≤◌, ◌≤ℤ◌, true, List, take};
ghost use Rattle.entry_log.specs.Log.{IsPrefixOf};
ghost use Rattle.world.specs.World.{Step, step, run, formatted, member};
ghost use Rattle.agreement.specs.View.{View, IsMove, IsGrounded, IsAgreed, CommitsHold, CutsKeep, view_of};

/// What is agreed stays so at each step of a member.
pub fn stays_agreed()
    ensures { (m : ℕ) (v w : View) → IsMove m v w → IsGrounded v → IsGrounded w → IsAgreed v → IsAgreed w }
{}

/// What holds after every list of steps of any number of members, of their logs and of what is committed.
pub fn is_agreed()
    ensures grounded { (n : ℕ) (steps : List Step) → IsGrounded (view_of (run (formatted n) steps)) }
    ensures agreed { (n : ℕ) (steps : List Step) → IsAgreed (view_of (run (formatted n) steps)) }
    ensures commits { (n : ℕ) (steps : List Step) → CommitsHold (run (formatted n) steps) }
    ensures cuts { (n : ℕ) (steps : List Step) → CutsKeep (run (formatted n) steps) }
{}

/// What each step after any list of steps leaves of each member, stops included.
pub fn goes_on()
    ensures candidates { (n : ℕ) (steps : List Step) (s : Step) (m : ℕ) → (member (run (formatted n) steps) m).durable.candidate ≤ℤ (member (step (run (formatted n) steps) s) m).durable.candidate }
    ensures kept { (n : ℕ) (steps : List Step) (s : Step) (m : ℕ) → IsPrefixOf (take (member (run (formatted n) steps) m).values.rest.commit (member (run (formatted n) steps) m).durable.log) (member (step (run (formatted n) steps) s) m).durable.log }
    ensures commits { (n : ℕ) (steps : List Step) (s : Step) (m : ℕ) → (member (run (formatted n) steps) m).up ≡ true → (member (step (run (formatted n) steps) s) m).up ≡ true
        → (member (run (formatted n) steps) m).values.rest.commit ≤ (member (step (run (formatted n) steps) s) m).values.rest.commit }
{}
