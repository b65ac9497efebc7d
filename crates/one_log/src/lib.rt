//! One well-formed log, over any steps of members.
#![tactic(auto)]

ghost use Rattle.std.specs.Prelude.{◌≡◌, ◌≤◌, ℕ, ℤ, pos, true, List, [], ◌∷◌, ◌++◌, length};
ghost use Rattle.sbe_events.specs.declared.event.Event.{Event};
ghost use Rattle.service_api.specs.declared.shipped.Kind.{Kind};
ghost use Rattle.module_state.specs.Module.{Module};
ghost use Rattle.module_state.specs.Admitted.{IsAdmitted};
ghost use Rattle.module_state.specs.Places.{entry_of};
ghost use Rattle.module_state.specs.Entries.{events_in};
ghost use Rattle.world.specs.World.{Step, run, formatted, member, are_of};
ghost use Rattle.service_runs.specs.Hosts.{Rules, Act, acts_on, hosted};
ghost use Rattle.module_state.specs.Worked.{amount, ledger};
ghost use Rattle.sbe_events.specs.Spelling.{HasSpelling};
ghost use Rattle.module_state.specs.Logs.{MayFollowLog, due_in};
ghost use Rattle.one_log.specs.Needed.{appended, first_message, lost, of_sixth, same_message, too_late};
ghost use Rattle.one_log.specs.Opened.{TermsOpen};
ghost use Rattle.service_runs.specs.Example.{example};
ghost use Rattle.one_log.specs.Example.{opened, leading, opens};
ghost use Rattle.one_log.specs.Led.{Led, Turn, turn, turns, led, due_at, admits, is_asked};
ghost use Rattle.one_log.specs.Ruled.{rules_of, AreRecorded, StartsRestore};
ghost use Rattle.one_log.specs.Formed.{LogsFormed, ModulesKnow, EventsStand, IsDueOverEvents, LeadersNamed};

/// In every world each log's first entry of a term is the new term event of that term's reign, and names its member.
pub fn opens_its_terms()
    ensures { (n : ℕ) (steps : List Step) → TermsOpen (run (formatted n) steps) }
{}

/// After every list of turns of at most five members with at most three services each log is well formed, and what each
/// running member's module applied is its log's front.
pub fn is_one_log()
    ensures formed { (n : ℕ) (kinds : List Kind) (r : Rules) (ts : List Turn) → n ≤ 5 → length kinds ≤ 3 → LogsFormed kinds (turns kinds r (led n) ts) }
    ensures know { (n : ℕ) (kinds : List Kind) (r : Rules) (ts : List Turn) → n ≤ 5 → length kinds ≤ 3 → ModulesKnow (turns kinds r (led n) ts) }
    ensures members { (n : ℕ) (kinds : List Kind) (r : Rules) (ts : List Turn) (m : ℕ) → n ≤ 5 → length kinds ≤ 3 → EventsStand kinds (events_in (member (turns kinds r (led n) ts).hosted.world m).durable.log) }
    ensures printed { (n : ℕ) (kinds : List Kind) (r : Rules) (ts : List Turn) → n ≤ 5 → length kinds ≤ 3 → EventsStand kinds (events_in (turns kinds r (led n) ts).hosted.printed) }
{}

/// The term event in the printed log names the member that sent the outputs of its term.
pub fn is_named()
    ensures { (n : ℕ) (kinds : List Kind) (r : Rules) (ts : List Turn) → n ≤ 5 → length kinds ≤ 3 → LeadersNamed (turns kinds r (led n) ts) }
{}

/// The pieces of each valid snapshot entry are its markers and the records after the settled front of the log that it names.
pub fn is_recorded()
    ensures entries { (n : ℕ) (kinds : List Kind) (ts : List Turn) → n ≤ 5 → length kinds ≤ 3 → AreRecorded kinds (turns kinds (rules_of kinds) (led n) ts) }
    ensures starts { (n : ℕ) (kinds : List Kind) (ts : List Turn) → n ≤ 5 → length kinds ≤ 3 → StartsRestore kinds (turns kinds (rules_of kinds) (led n) ts) }
{}

/// Each turn is one act at most, so what holds after every list of acts holds here; and the world takes what is due or admitted.
pub fn is_run()
    ensures acts { (n : ℕ) (kinds : List Kind) (r : Rules) (ts : List Turn) → (as' : List Act) × ((turns kinds r (led n) ts).hosted ≡ acts_on r (hosted n) as') }
    ensures due { (kinds : List Kind) (w : Led) (m : ℕ) (alive : List (ℤ × ℕ)) (since : ℕ) → are_of (member w.hosted.world m).values.election.term (due_at kinds w m alive since) ≡ true }
    ensures over_events { (n : ℕ) (kinds : List Kind) (r : Rules) (ts : List Turn) (m : ℕ) (alive : List (ℤ × ℕ)) (since : ℕ) → n ≤ 5 → length kinds ≤ 3 → (member (turns kinds r (led n) ts).hosted.world m).up ≡ true → IsDueOverEvents kinds (turns kinds r (led n) ts) m alive since }
    ensures admits { (view : Module) (at : ℕ) (e : Event) → admits view at e ≡ true → IsAdmitted view at e }
    ensures admits_all { (view : Module) (at : ℕ) (e : Event) → IsAdmitted view at e → admits view at e ≡ true }
    ensures asked { (kinds : List Kind) (w : Led) (m : ℕ) (e : Event) → is_asked kinds w m e ≡ true → are_of (member w.hosted.world m).values.election.term (e ∷ []) ≡ true }
{}

/// The turns do lead to such logs: a member is elected, and a client's open is appended.
pub fn leads()
    ensures elected { length (member leading.hosted.world 0).durable.log ≡ 1 }
    ensures asked { is_asked ledger leading 0 opened ≡ true }
    ensures opens { length (member (turn ledger example leading opens).hosted.world 0).durable.log ≡ 2 }
{}

/// What well-formed logs need: a leader whose module applied entries that its log lost would append an offer that isn't allowed,
/// and so would one that doesn't read its log's tail; and the limits on members and time are those of the spelling.
pub fn needs()
    ensures due { due_in ledger amount [] [] (pos 0) 700 350 ≡ first_message ∷ [] }
    ensures lost { MayFollowLog ledger lost first_message → ⊥ }
    ensures again { due_in ledger amount [] [] (pos 0) 800 350 ≡ same_message ∷ [] }
    ensures twice { MayFollowLog ledger appended same_message → ⊥ }
    ensures members { HasSpelling of_sixth → ⊥ }
    ensures time { HasSpelling too_late → ⊥ }
{}
