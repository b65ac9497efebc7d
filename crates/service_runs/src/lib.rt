//! What services consume and send, over any steps of members.
#![tactic(auto)]

ghost use Rattle.std.specs.Prelude.{◌≡◌, ℕ, false, List, length, ◌<◌, ◌++◌, map, pos, [], ◌∷◌};
ghost use Rattle.cl_base.specs.declared.entry.Entry.{Entry};
ghost use Rattle.entry_log.specs.Log.{IsPrefixOf};
ghost use Rattle.world.specs.World.{Step, run, formatted, member};
ghost use Rattle.consensus_core.specs.Member.{begins_run};
ghost use Rattle.world.specs.Safe.{TermsHold, VotesHold, ReignsHold};
ghost use Rattle.agreement.specs.View.{IsGrounded, IsAgreed, CommitsHold, CutsKeep, view_of};
ghost use Rattle.service_runs.specs.Hosts.{Rules, Act, Mounts, Over, feed_of, input, act, acts_on, hosted};
ghost use Rattle.consensus_core.specs.Member.{Run};
ghost use Rattle.service_runs.specs.Example.{example, to_the_end, whole, cut_short, cut_late, again, dropped, outlived, goes_on};
ghost use Rattle.service_runs.specs.Served.{SnapsHold, InputsHold, PrintedHolds, OutputsHold};

/// What holds after every list of acts of any number of members, for any services.
pub fn is_served()
    ensures snaps { (n : ℕ) (r : Rules) (acts : List Act) → SnapsHold r (acts_on r (hosted n) acts) }
    ensures inputs { (n : ℕ) (r : Rules) (acts : List Act) → InputsHold (acts_on r (hosted n) acts) }
    ensures printed { (n : ℕ) (r : Rules) (acts : List Act) → PrintedHolds (acts_on r (hosted n) acts) }
    ensures outputs { (n : ℕ) (r : Rules) (acts : List Act) → OutputsHold r (acts_on r (hosted n) acts) }
    ensures grows { (n : ℕ) (r : Rules) (acts : List Act) (a : Act) → IsPrefixOf (acts_on r (hosted n) acts).printed (act r (acts_on r (hosted n) acts) a).printed }
    ensures starts { (n : ℕ) (r : Rules) (acts : List Act) (m : ℕ) → m < length (acts_on r (hosted n) acts).world.members → (member (acts_on r (hosted n) acts).world m).up ≡ false
        → ((act r (acts_on r (hosted n) acts) (Mounts m)).hosts m).run
        ≡ begins_run r.services (member (acts_on r (hosted n) acts).world m).durable }
{}

/// Each act is at most one step of the world, so what holds of the world's members after every list of steps holds here.
pub fn is_world()
    ensures steps { (n : ℕ) (r : Rules) (acts : List Act) → (steps : List Step) × ((acts_on r (hosted n) acts).world ≡ run (formatted n) steps) }
    ensures terms { (n : ℕ) (r : Rules) (acts : List Act) → TermsHold (acts_on r (hosted n) acts).world }
    ensures votes { (n : ℕ) (r : Rules) (acts : List Act) → VotesHold (acts_on r (hosted n) acts).world }
    ensures reigns { (n : ℕ) (r : Rules) (acts : List Act) → ReignsHold n (acts_on r (hosted n) acts).world }
    ensures grounded { (n : ℕ) (r : Rules) (acts : List Act) → IsGrounded (view_of (acts_on r (hosted n) acts).world) }
    ensures agreed { (n : ℕ) (r : Rules) (acts : List Act) → IsAgreed (view_of (acts_on r (hosted n) acts).world) }
    ensures commits { (n : ℕ) (r : Rules) (acts : List Act) → CommitsHold (acts_on r (hosted n) acts).world }
    ensures cuts { (n : ℕ) (r : Rules) (acts : List Act) → CutsKeep (acts_on r (hosted n) acts).world }
{}

/// The acts do lead to outputs, snapshots and starts from them: it is computed for small runs.
pub fn serves()
    ensures sent { length (acts_on example (hosted 1) (to_the_end ++ whole)).outputs ≡ 4 }
    ensures put { length (member (acts_on example (hosted 1) (to_the_end ++ whole)).world 0).durable.snapshots ≡ 2 }
    ensures again { ((acts_on example (hosted 1) (to_the_end ++ (whole ++ again))).hosts 0).run.first ≡ 2 }
    ensures dropped { ((acts_on example (hosted 1) (to_the_end ++ (whole ++ dropped))).hosts 0).run.first ≡ 0 }
    ensures short { ((acts_on example (hosted 1) (to_the_end ++ cut_short)).hosts 0).run.first ≡ 0 }
    ensures late { ((acts_on example (hosted 1) (to_the_end ++ cut_late)).hosts 0).run.first ≡ 2 }
    ensures unsent { length (acts_on example (hosted 1) (to_the_end ++ cut_late)).outputs ≡ 0 }
    ensures past { length ((acts_on example (hosted 1) (to_the_end ++ cut_late)).hosts 0).past ≡ 1 }
    ensures printed { length (acts_on example (hosted 1) (to_the_end ++ cut_late)).printed ≡ 2 }
    ensures over { ((acts_on example (hosted 3) outlived).hosts 0).stage ≡ Over }
    ensures stale { map (λ (e : Entry). e.term) (feed_of ((acts_on example (hosted 3) outlived).hosts 0) 0).fed ≡ pos 0 ∷ pos 0 ∷ [] }
    ensures cut { length (member (acts_on example (hosted 3) outlived).world 0).durable.log ≡ 1 }
    ensures goes_on { map (λ (e : Entry). e.term) (acts_on example (hosted 3) (outlived ++ goes_on)).printed ≡ pos 0 ∷ pos 1 ∷ [] }
    ensures taken { map (λ (e : Entry). e.term) (input ((acts_on example (hosted 3) (outlived ++ goes_on)).hosts 0) 0) ≡ pos 0 ∷ pos 1 ∷ [] }
{}
