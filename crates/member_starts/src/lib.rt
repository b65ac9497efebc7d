//! What a new disk, a stop, an invalidation and a start make of a member, tied to the world of a run.
#![tactic(auto)]

ghost use Rattle.std.specs.Prelude.{◌≡◌, ◌<◌, ℕ, Bool, IsTrue, List, [], length, Ok, Err};
ghost use Rattle.cl_base.specs.Disk.{CrashLeaves};
ghost use Rattle.cl_base.specs.declared.disk.Choice.{Choice};
ghost use Rattle.cl_base.specs.declared.disk.Choice.TheVariants.{Keep};
ghost use Rattle.cl_base.specs.declared.fault.MemberFault.{MemberFault};
ghost use Rattle.member_disk.specs.Kept.{Held};
ghost use Rattle.service_api.specs.declared.shipped.Kind.{Kind};
ghost use Rattle.member_rows.specs.Places.{stopped_seat, running_seat};
ghost use Rattle.member_rows.specs.Turns.{IsTurn};
ghost use Rattle.run_world.specs.RunWorld.{Fails, Invalidates, RunWorld, Stops, does, seat};
ghost use Rattle.run_world.specs.Seat.{Seat, first_seat, rested};
ghost use Rattle.run_orders.specs.Stands.{Down, EndedSeen, IsSeat, RunSeen, Stands, UpSeen, seen_put};
ghost use Rattle.member_starts.specs.Formats.{Formatted, IsBlank};
ghost use Rattle.member_starts.specs.Strikes.{HasStruck, Invalidated, Mounted, NotMounted, down_seat};

use cl_base::Disk;

/// A blank disk that was formatted is a member before its first start.
pub fn a_formatted_disk_is_a_first_seat<D: Disk>()
    ensures { (kinds : List Kind) (old new : D) → IsBlank (D.state old) → Formatted (D.state old) (D.state new) → IsSeat D.state kinds (record { home = Down new; choice = Keep; ended = [] }) first_seat }
{}

/// A running member that stops is one act of the run's world, whatever its crash leaves of what it wrote; and so is one that stops since its disk failed as it was read.
pub fn a_stop_is_an_act<D: Disk>()
    ensures rests { (kinds : List Kind) (u : UpSeen D) (going : Bool) (choice left : Choice) (ended : List EndedSeen) (s : Seat) (d : D) → IsTrue (D.is_honest u.disk.disk) → IsSeat D.state kinds (running_seat choice ended u going) s → CrashLeaves left (D.state u.disk.disk) (D.state d)
        → IsSeat D.state kinds (stopped_seat ended u going d) (rested s.faults.own s) }
    ensures stops { (kinds : List Kind) (x : RunSeen D) (w : RunWorld) (m : ℕ) (u : UpSeen D) (going : Bool) (choice left : Choice) (ended : List EndedSeen) (d : D) → Stands D.state kinds x w → m < length w.seats
        → IsTrue (D.is_honest u.disk.disk) → IsSeat D.state kinds (running_seat choice ended u going) (seat w m) → CrashLeaves left (D.state u.disk.disk) (D.state d)
        → Stands D.state kinds (seen_put m (stopped_seat ended u going d) [] [] x) (does kinds w (Stops m)) }
    ensures fails { (kinds : List Kind) (x : RunSeen D) (w : RunWorld) (m : ℕ) (u : UpSeen D) (going : Bool) (choice left : Choice) (ended : List EndedSeen) (e d : D) → Stands D.state kinds x w → m < length w.seats
        → IsTrue (D.is_honest u.disk.disk) → IsSeat D.state kinds (running_seat choice ended u going) (seat w m) → ((f : ℕ) → (D.state e).files f ≡ (D.state u.disk.disk).files f) → CrashLeaves left (D.state e) (D.state d)
        → Stands D.state kinds (seen_put m (stopped_seat ended u going d) [] [] x) (does kinds w (Fails m (D.state e).own_faults)) }
{}

/// What comes of a stopped member's disk whose latest valid set of snapshots is to go is one act of the run's world, a fault in it included: the set went, or there was none; the strike failed, or the mount before it, and a crash left this of the disk.
pub fn an_invalidation_is_an_act<D: Disk>()
    ensures done { (kinds : List Kind) (s : Seat) (choice : Choice) (ended : List EndedSeen) (disk : D) (h k : Held D) (found : Bool) → IsTrue (D.is_honest disk) → IsSeat D.state kinds (down_seat choice ended disk) s
        → Mounted D.state D.tells D.is_honest D.moment D.left_since (length kinds) disk h → Invalidated D.state D.tells D.is_honest D.moment D.left_since h k (Ok found) → HasStruck D.state kinds s (down_seat choice ended k.disk) }
    ensures cut { (kinds : List Kind) (s : Seat) (choice : Choice) (ended : List EndedSeen) (disk : D) (h k : Held D) (fault : MemberFault) (d : D) → IsTrue (D.is_honest disk) → IsSeat D.state kinds (down_seat choice ended disk) s
        → Mounted D.state D.tells D.is_honest D.moment D.left_since (length kinds) disk h → Invalidated D.state D.tells D.is_honest D.moment D.left_since h k (Err fault) → CrashLeaves choice (D.state k.disk) (D.state d)
        → HasStruck D.state kinds s (down_seat Keep ended d) }
    ensures unmounted { (kinds : List Kind) (s : Seat) (choice : Choice) (ended : List EndedSeen) (disk back d : D) → IsTrue (D.is_honest disk) → IsSeat D.state kinds (down_seat choice ended disk) s
        → NotMounted D.state D.tells D.is_honest D.moment D.left_since disk back → CrashLeaves choice (D.state back) (D.state d) → HasStruck D.state kinds s (down_seat Keep ended d) }
    ensures act { (kinds : List Kind) (x : RunSeen D) (w : RunWorld) (m : ℕ) (choice left : Choice) (ended : List EndedSeen) (disk d : D) → Stands D.state kinds x w → m < length w.seats → IsSeat D.state kinds (down_seat choice ended disk) (seat w m)
        → HasStruck D.state kinds (seat w m) (down_seat left ended d) → IsTurn D.state kinds (Invalidates m) m (down_seat left ended d) [] [] x w }
{}
