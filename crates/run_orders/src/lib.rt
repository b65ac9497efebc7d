//! The orders of a scenario as acts of the world of a run; and that what is promised of every list of acts holds of every run of orders.
#![tactic(auto)]

ghost use Rattle.std.specs.Prelude.{◌≡◌, ◌≤◌, ◌++◌, ℕ, Bool, true, false, List, Some, length, take};
ghost use Rattle.cl_base.specs.Disk.{CrashLeaves, IsImage};
ghost use Rattle.cl_base.specs.declared.disk.Choice.{Choice};
ghost use Rattle.cl_base.specs.declared.disk.Choice.TheVariants.{Keep};
ghost use Rattle.commit_counter.specs.Ends.{Fed};
ghost use Rattle.commit_counter.specs.declared.role.Role.{Role};
ghost use Rattle.consensus_core.specs.Member.{Sent as Packet};
ghost use Rattle.entry_log.specs.Durable.{SnapshotEntry};
ghost use Rattle.entry_log.specs.Log.{Log};
ghost use Rattle.member_module.specs.Held.{Held as ModuleHeld, at_end};
ghost use Rattle.module_state.specs.Due.{due};
ghost use Rattle.recording_log.specs.declared.entry.RecEntry.{RecEntry};
ghost use Rattle.service_api.specs.declared.shipped.Kind.{Kind};
ghost use Rattle.service_phases.specs.Pairs.{Each};
ghost use Rattle.service_runs.specs.Hosts.{role_of};
ghost use Rattle.scenario.specs.declared.order.Order.{Order};
ghost use Rattle.run_world.specs.Headline.{Headline};
ghost use Rattle.run_world.specs.Lawful.{Lawful};
ghost use Rattle.run_world.specs.RunWorld.{RunWorld, committed, due_at, first_world, put, seat, view_at};
ghost use Rattle.run_world.specs.Seat.{Seat, fused, opened, rested};
ghost use Rattle.run_orders.specs.Kept.{Begins, HasBase};
ghost use Rattle.run_orders.specs.Orders.{Course, GotTo, Ran, Step};
ghost use Rattle.run_orders.specs.Phases.{Leads};
ghost use Rattle.run_orders.specs.Stands.{HasModule, IsDown, IsSeat, IsUp, RunSeen, SeatSeen, Stands, UpSeen, disk_of, seen_put, term_led, with_disk, with_phase};

use cl_base::Disk;

/// Whatever an order makes of a world, acts make of it: the clock's, the network's, a member's, its disk's and its services' threads'.
pub fn are_acts()
    ensures order { (kinds : List Kind) (c : Course) (o : Order) (w v : RunWorld) → Step kinds c o w v → Leads kinds w v }
    ensures got { (n : ℕ) (kinds : List Kind) (orders : List Order) (w : RunWorld) → GotTo n kinds orders w → Leads kinds (first_world n) w }
    ensures ran { (n : ℕ) (kinds : List Kind) (orders : List Order) (w : RunWorld) → Ran n kinds orders w → Leads kinds (first_world n) w }
{}

/// What is promised holds in every world that the orders of a scenario may come to, between two of them and at the end, whatever disks, network and threads do; of at most five members with at most three services.
pub fn is_safe_in_runs()
    ensures got { (n : ℕ) (kinds : List Kind) (orders : List Order) (w : RunWorld) → n ≤ 5 → length kinds ≤ 3 → GotTo n kinds orders w → Headline kinds w }
    ensures ran { (n : ℕ) (kinds : List Kind) (orders : List Order) (w : RunWorld) → n ≤ 5 → length kinds ≤ 3 → Ran n kinds orders w → Headline kinds w }
{}

/// What a driver has stands to a world still once a member becomes the same on both sides, sends the same packets and has what it has committed printed.
pub fn goes_on<D: Disk>()
    ensures { (kinds : List Kind) (x : RunSeen D) (w : RunWorld) (m : ℕ) (y : SeatSeen D) (s : Seat) (ps : List Packet) → Stands D.state kinds x w → IsSeat D.state kinds y s → Stands D.state kinds (seen_put m y ps (committed s.member) x) (put m s ps w) }
{}

/// A module that stands to a world sees at its log's end, and finds due, what is there and is due in that world.
pub fn sees_its_world()
    ensures view { (kinds : List Kind) (m : ModuleHeld) (s : Seat) → HasModule kinds m s → at_end m ≡ view_at kinds s }
    ensures finds { (kinds : List Kind) (m : ModuleHeld) (s : Seat) (now : ℕ) → HasModule kinds m s → due m.state (at_end m) m.ahead.events m.alive s.member.values.election.term now m.since ≡ due_at kinds s now }
{}

/// What a driver has of a member stands to a world still once its disk's fuse is set on both sides.
pub fn a_fuse_is_set<D: Disk>()
    ensures { (kinds : List Kind) (x : SeatSeen D) (s : Seat) (d : D) (calls : ℕ) (choice : Choice) → IsSeat D.state kinds x s → D.state d ≡ record (D.state (disk_of x.home)) { lets = Some calls }
        → IsSeat D.state kinds (record { home = with_disk d x.home; choice = choice; ended = x.ended }) (fused calls choice s) }
{}

/// A member that runs and stops at rest leaves a disk that stands for what it kept: one image of a disk is what a read gives of it.
pub fn a_stop_rests<D: Disk>()
    ensures { (kinds : List Kind) (u : UpSeen D) (going : Bool) (s : Seat) (own : ℕ) (d : D) → ((f : ℕ) → IsImage ((D.state u.disk.disk).files f) ((D.state u.disk.disk).files f).reads) → CrashLeaves Keep (D.state u.disk.disk) (D.state d)
        → IsUp D.state kinds u going s → IsDown D.state kinds d (rested own s) }
{}

/// What a driver has of a member stands to a world still once a phase of it begins on both sides.
pub fn a_phase_begins<D: Disk>()
    ensures { (kinds : List Kind) (u : UpSeen D) (s : Seat) (role : Role) (feeds : List Fed) → term_led role ≡ role_of s.member → IsUp D.state kinds u false s → IsUp D.state kinds (with_phase role feeds u) true (opened s) }
{}

/// The entry of a snapshot says where its term begins in a log still once entries are added, and once the log is cut behind that place; and in a lawful world the term of each snapshot begins in its member's log.
pub fn bases_stay()
    ensures added { (log more : Log) (e : RecEntry) → HasBase log e → HasBase (log ++ more) e }
    ensures cut { (log : Log) (n : ℕ) (e : RecEntry) → HasBase log e → Begins e.term (take n log) → HasBase (take n log) e }
    ensures lawful { (n : ℕ) (kinds : List Kind) (w : RunWorld) (m : ℕ) → n ≤ 5 → length kinds ≤ 3 → Lawful n kinds w → Each (λ (s : SnapshotEntry). Begins s.term (seat w m).member.durable.log) (seat w m).member.durable.snapshots }
{}
