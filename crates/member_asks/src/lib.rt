//! What clients and operators ask of a member, as acts of the world of a run.
#![tactic(auto)]

ghost use Rattle.std.specs.Prelude.{◌≡◌, ◌≤◌, ◌&&◌, ℕ, Bool, false, IsTrue, List, Option, length};
ghost use Rattle.cl_base.specs.Disk.{CrashLeaves};
ghost use Rattle.cl_base.specs.declared.disk.Choice.{Choice};
ghost use Rattle.egress.specs.Streams.{StreamSeen, sent_more};
ghost use Rattle.egress.specs.declared.sent.Sent.{Sent};
ghost use Rattle.ingress.specs.declared.outcome.Outcome.{Outcome};
ghost use Rattle.service_api.specs.declared.shipped.Kind.{Kind};
ghost use Rattle.service_runs.specs.Hosts.{Output};
ghost use Rattle.run_world.specs.Lawful.{Lawful};
ghost use Rattle.run_world.specs.RunWorld.{RunWorld, seat};
ghost use Rattle.run_world.specs.Seat.{Seat};
ghost use Rattle.consensus_agent.specs.Accepted.{IsDirect};
ghost use Rattle.run_orders.specs.Phases.{Beside};
ghost use Rattle.run_orders.specs.Rounds.{Asked};
ghost use Rattle.run_orders.specs.Stands.{AreRecords, EndedSeen, IsSeat, UpSeen};
ghost use Rattle.member_asks.specs.Clauses.{ActionFailed, ActionTaken, ClientFailed, ClientTaken};
ghost use Rattle.member_asks.specs.Made.{Falls, Makes, MakesOne};
ghost use Rattle.member_rows.specs.Places.{running_seat, stopped_seat};

use cl_base::Disk;

/// Where a member took a client's message, what it decided on is done in the world: it refused and nothing changed, a
/// session was heard of, or an event that may be asked of it stands behind its log. Where its disk failed at it, a crash
/// leaves the member before or after that event's row.
pub fn a_client_is_answered<D: Disk>()
    ensures taken { (kinds : List Kind) (u v : UpSeen D) (going : Bool) (choice : Choice) (ended : List EndedSeen) (s : Seat) (bytes : List ℕ) (now : ℕ) (o : Outcome) (answer : Option Sent)
        → IsSeat D.state kinds (running_seat choice ended u going) s → IsTrue (D.is_honest u.disk.disk) → (by : ClientTaken D.state D.tells D.is_honest bytes now o answer u v)
        → Makes D.state kinds by.took.decision now s (running_seat choice ended v going) }
    ensures failed { (kinds : List Kind) (u v : UpSeen D) (going : Bool) (choice : Choice) (ended : List EndedSeen) (s : Seat) (bytes : List ℕ) (now : ℕ) (d : D)
        → IsSeat D.state kinds (running_seat choice ended u going) s → IsTrue (D.is_honest u.disk.disk) → (by : ClientFailed D.state D.tells D.is_honest bytes now u v) → CrashLeaves choice (D.state v.disk.disk) (D.state d)
        → Falls D.state kinds now s by.tried.event (stopped_seat ended v going d) }
{}

/// The same of an action.
pub fn an_action_is_answered<D: Disk>()
    ensures taken { (kinds : List Kind) (u v : UpSeen D) (going : Bool) (choice : Choice) (ended : List EndedSeen) (s : Seat) (now : ℕ) (o : Outcome)
        → IsSeat D.state kinds (running_seat choice ended u going) s → IsTrue (D.is_honest u.disk.disk) → (by : ActionTaken D.state D.tells D.is_honest now o u v)
        → Makes D.state kinds by.took.decision now s (running_seat choice ended v going) }
    ensures failed { (kinds : List Kind) (u v : UpSeen D) (going : Bool) (choice : Choice) (ended : List EndedSeen) (s : Seat) (now : ℕ) (d : D)
        → IsSeat D.state kinds (running_seat choice ended u going) s → IsTrue (D.is_honest u.disk.disk) → (by : ActionFailed D.state D.tells D.is_honest now u v) → CrashLeaves choice (D.state v.disk.disk) (D.state d)
        → Falls D.state kinds now s by.tried.event (stopped_seat ended v going d) }
{}

/// What a member answers at once, and not by an entry, is no record of the world.
pub fn an_answer_is_no_record()
    ensures { (streams : List StreamSeen) (records : List Output) (answer : Sent) → IsDirect answer → AreRecords streams records → AreRecords (sent_more answer streams) records }
{}

/// A client's message at a member of a lawful world, in no phase that is over, is one act of that world or none.
pub fn a_client_asks<D: Disk>()
    ensures taken { (n : ℕ) (kinds : List Kind) (w : RunWorld) (m : ℕ) (u v : UpSeen D) (going : Bool) (choice : Choice) (ended : List EndedSeen) (bytes : List ℕ) (o : Outcome) (answer : Option Sent)
        → n ≤ 5 → length kinds ≤ 3 → Lawful n kinds w → (going && u.over) ≡ false
        → IsSeat D.state kinds (running_seat choice ended u going) (seat w m) → IsTrue (D.is_honest u.disk.disk) → ClientTaken D.state D.tells D.is_honest bytes w.now o answer u v
        → MakesOne D.state kinds m w (running_seat choice ended v going) }
    ensures failed { (n : ℕ) (kinds : List Kind) (w : RunWorld) (m : ℕ) (u v : UpSeen D) (going : Bool) (choice : Choice) (ended : List EndedSeen) (bytes : List ℕ) (d : D)
        → n ≤ 5 → length kinds ≤ 3 → Lawful n kinds w → (going && u.over) ≡ false
        → IsSeat D.state kinds (running_seat choice ended u going) (seat w m) → IsTrue (D.is_honest u.disk.disk) → ClientFailed D.state D.tells D.is_honest bytes w.now u v → CrashLeaves choice (D.state v.disk.disk) (D.state d)
        → MakesOne D.state kinds m w (stopped_seat ended v going d) }
{}

/// The same of an action.
pub fn an_action_asks<D: Disk>()
    ensures taken { (n : ℕ) (kinds : List Kind) (w : RunWorld) (m : ℕ) (u v : UpSeen D) (going : Bool) (choice : Choice) (ended : List EndedSeen) (o : Outcome)
        → n ≤ 5 → length kinds ≤ 3 → Lawful n kinds w → (going && u.over) ≡ false
        → IsSeat D.state kinds (running_seat choice ended u going) (seat w m) → IsTrue (D.is_honest u.disk.disk) → ActionTaken D.state D.tells D.is_honest w.now o u v
        → MakesOne D.state kinds m w (running_seat choice ended v going) }
    ensures failed { (n : ℕ) (kinds : List Kind) (w : RunWorld) (m : ℕ) (u v : UpSeen D) (going : Bool) (choice : Choice) (ended : List EndedSeen) (d : D)
        → n ≤ 5 → length kinds ≤ 3 → Lawful n kinds w → (going && u.over) ≡ false
        → IsSeat D.state kinds (running_seat choice ended u going) (seat w m) → IsTrue (D.is_honest u.disk.disk) → ActionFailed D.state D.tells D.is_honest w.now u v → CrashLeaves choice (D.state v.disk.disk) (D.state d)
        → MakesOne D.state kinds m w (stopped_seat ended v going d) }
{}

/// What is asked between phases that go on over orders, or of a member without any, is what an order may ask.
pub fn is_asked_between_phases()
    ensures { (kinds : List Kind) (free : Bool) (m : ℕ) (w u x v : RunWorld) → Beside kinds free w u → Asked kinds false m u x → Beside kinds free x v → Asked kinds free m w v }
{}
