//! What packets and duties make of a member, tied to the world of a run.
#![tactic(auto)]

ghost use Rattle.std.specs.Prelude.{◌≡◌, ◌<◌, ◌≤◌, ◌^◌, ℕ, Bool, true, false, ◌&&◌, IsTrue, List, [], Some, None, length};
ghost use Rattle.cl_base.specs.Disk.{CrashLeaves};
ghost use Rattle.cl_base.specs.declared.disk.Choice.{Choice};
ghost use Rattle.wire_prims.specs.Fields.{IsBytes};
ghost use Rattle.wire_prims.specs.declared.fault.Bad.{Bad};
ghost use Rattle.sbe_consensus.specs.Spelling.{HasSpelling, first_fault, packet_of, spelling_of};
ghost use Rattle.sbe_consensus.specs.declared.packet.Outgoing.{Outgoing};
ghost use Rattle.sbe_consensus.specs.declared.packet.Packet.{Packet};
ghost use Rattle.service_api.specs.declared.shipped.Kind.{Kind};
ghost use Rattle.consensus_core.specs.Member.{row_of_duty, row_of_packet};
ghost use Rattle.run_world.specs.Lawful.{Lawful};
ghost use Rattle.network.specs.Net.{coming, first_of};
ghost use Rattle.run_world.specs.RunWorld.{Duty, Hands, RunWorld, does, due_at, is_free, seat};
ghost use Rattle.run_world.specs.Seat.{Fate, Seat};
ghost use Rattle.run_orders.specs.Stands.{EndedSeen, IsSeat, IsUp, RunSeen, Stands, UpSeen};
ghost use Rattle.member_rows.specs.Calls.{PacketCut, PacketDone, RowCut, RowDone, Unchanged, duty_row};
ghost use Rattle.member_rows.specs.Places.{ActedCut, ActedWhole, stopped_seat, running_seat};
ghost use Rattle.member_rows.specs.Turns.{IsTurn, committed_seen, seen_taken};

use cl_base::Disk;

/// Bytes that read as a packet are the one spelling of it; and bytes that are called bad read as none.
pub fn a_packet_is_spelled()
    ensures some { (bytes : List ℕ) (p : Packet) → IsBytes bytes → packet_of bytes ≡ Some p → HasSpelling p × (spelling_of p ≡ bytes) }
    ensures none { (bytes : List ℕ) (b : Bad) → first_fault bytes ≡ Some b → packet_of bytes ≡ None }
{}

/// Where bytes that are called bad changed nothing, a member stands to its seat as before.
pub fn bad_bytes_change_nothing<D: Disk>()
    ensures { (kinds : List Kind) (u v : UpSeen D) (going : Bool) (choice : Choice) (ended : List EndedSeen) (s : Seat) → Unchanged u v → IsSeat D.state kinds (running_seat choice ended u going) s → IsSeat D.state kinds (running_seat choice ended v going) s }
{}

/// A member that took the network's next packet stands to its seat after the packet's row, and what goes out is what the row sends.
pub fn a_packet_is_handed<D: Disk>()
    ensures { (n : ℕ) (kinds : List Kind) (w : RunWorld) (q : ℕ × Outgoing) (p : Packet) (u v : UpSeen D) (going : Bool) (choice : Choice) (ended : List EndedSeen) (out : List Outgoing) → n ≤ 5 → length kinds ≤ 3 → Lawful n kinds w
        → first_of (coming w.net) ≡ Some q → IsBytes q.1.bytes → packet_of q.1.bytes ≡ Some p → is_free w q.1.to ≡ true
        → IsTrue (D.is_honest u.disk.disk) → IsSeat D.state kinds (running_seat choice ended u going) (seat w q.1.to) → PacketDone D.state D.tells D.is_honest q.1.bytes w.now u v out
        → ActedWhole D.state kinds (row_of_packet (seat w q.1.to).member p w.now) w.now (seat w q.1.to) out (running_seat choice ended v going) }
{}

/// A member that did its duty stands to its seat after the duty's row, with what is due there, and what goes out is what the row sends.
pub fn a_duty_is_done<D: Disk>()
    ensures { (n : ℕ) (kinds : List Kind) (w : RunWorld) (m now : ℕ) (u v : UpSeen D) (going : Bool) (choice : Choice) (ended : List EndedSeen) (out : List Outgoing) → n ≤ 5 → length kinds ≤ 3 → Lawful n kinds w → now ≤ 2 ^ 60
        → IsTrue (D.is_honest u.disk.disk) → IsSeat D.state kinds (running_seat choice ended u going) (seat w m) → RowDone D.state D.tells D.is_honest (duty_row u now) now u v out
        → ActedWhole D.state kinds (row_of_duty (seat w m).member (due_at kinds (seat w m) now) now) now (seat w m) out (running_seat choice ended v going) }
{}

/// A member under which the row of the network's next packet failed stops: what a crash by its choice leaves of its disk stands to its seat after the row, cut before its change or after it.
pub fn a_packet_is_cut<D: Disk>()
    ensures { (n : ℕ) (kinds : List Kind) (w : RunWorld) (q : ℕ × Outgoing) (p : Packet) (u v : UpSeen D) (going : Bool) (choice : Choice) (ended : List EndedSeen) (d : D) → n ≤ 5 → length kinds ≤ 3 → Lawful n kinds w
        → first_of (coming w.net) ≡ Some q → IsBytes q.1.bytes → packet_of q.1.bytes ≡ Some p → is_free w q.1.to ≡ true
        → IsTrue (D.is_honest u.disk.disk) → IsSeat D.state kinds (running_seat choice ended u going) (seat w q.1.to) → PacketCut D.state D.tells D.is_honest q.1.bytes w.now u v → CrashLeaves choice (D.state v.disk.disk) (D.state d)
        → ActedCut D.state kinds (row_of_packet (seat w q.1.to).member p w.now) w.now (seat w q.1.to) (stopped_seat ended v going d) }
{}

/// A member under which a duty's row failed stops, as under a packet's.
pub fn a_duty_is_cut<D: Disk>()
    ensures { (n : ℕ) (kinds : List Kind) (w : RunWorld) (m now : ℕ) (u v : UpSeen D) (going : Bool) (choice : Choice) (ended : List EndedSeen) (d : D) → n ≤ 5 → length kinds ≤ 3 → Lawful n kinds w → now ≤ 2 ^ 60
        → IsTrue (D.is_honest u.disk.disk) → IsSeat D.state kinds (running_seat choice ended u going) (seat w m) → RowCut D.state D.tells D.is_honest (duty_row u now) u v → CrashLeaves choice (D.state v.disk.disk) (D.state d)
        → ActedCut D.state kinds (row_of_duty (seat w m).member (due_at kinds (seat w m) now) now) now (seat w m) (stopped_seat ended v going d) }
{}

/// What a running member's duty makes of a run, a fault in it included, is one act of the run's world; a member whose phase isn't over is free for it.
pub fn a_duty_is_an_act<D: Disk>()
    ensures free { (kinds : List Kind) (w : RunWorld) (m : ℕ) (u : UpSeen D) (going : Bool) → m < length w.seats → IsUp D.state kinds u going (seat w m) → (going && u.over) ≡ false → is_free w m ≡ true }
    ensures whole { (kinds : List Kind) (x : RunSeen D) (w : RunWorld) (m : ℕ) (v : UpSeen D) (going : Bool) (choice : Choice) (ended : List EndedSeen) (out : List Outgoing) → Stands D.state kinds x w → is_free w m ≡ true
        → ActedWhole D.state kinds (row_of_duty (seat w m).member (due_at kinds (seat w m) w.now) w.now) w.now (seat w m) out (running_seat choice ended v going)
        → IsTurn D.state kinds (Duty m) m (running_seat choice ended v going) (committed_seen v) out x w }
    ensures cut { (kinds : List Kind) (x : RunSeen D) (w : RunWorld) (m : ℕ) (v : UpSeen D) (going : Bool) (ended : List EndedSeen) (d : D) → Stands D.state kinds x w → is_free w m ≡ true
        → ActedCut D.state kinds (row_of_duty (seat w m).member (due_at kinds (seat w m) w.now) w.now) w.now (seat w m) (stopped_seat ended v going d)
        → IsTurn D.state kinds (Duty m) m (stopped_seat ended v going d) [] [] x w }
{}

/// What the network's next packet makes of a run is one act of the run's world: of the member that it is for, a fault in its row included; where it is no packet, or its member isn't free, nothing but that it was taken.
pub fn a_packet_is_an_act<D: Disk>()
    ensures whole { (kinds : List Kind) (x : RunSeen D) (w : RunWorld) (q : ℕ × Outgoing) (p : Packet) (v : UpSeen D) (going : Bool) (choice : Choice) (ended : List EndedSeen) (out : List Outgoing) → first_of (coming w.net) ≡ Some q → packet_of q.1.bytes ≡ Some p
        → Stands D.state kinds x w → is_free w q.1.to ≡ true → ActedWhole D.state kinds (row_of_packet (seat w q.1.to).member p w.now) w.now (seat w q.1.to) out (running_seat choice ended v going)
        → IsTurn D.state kinds Hands q.1.to (running_seat choice ended v going) (committed_seen v) out (seen_taken x) w }
    ensures cut { (kinds : List Kind) (x : RunSeen D) (w : RunWorld) (q : ℕ × Outgoing) (p : Packet) (v : UpSeen D) (going : Bool) (ended : List EndedSeen) (d : D) → first_of (coming w.net) ≡ Some q → packet_of q.1.bytes ≡ Some p
        → Stands D.state kinds x w → is_free w q.1.to ≡ true → ActedCut D.state kinds (row_of_packet (seat w q.1.to).member p w.now) w.now (seat w q.1.to) (stopped_seat ended v going d)
        → IsTurn D.state kinds Hands q.1.to (stopped_seat ended v going d) [] [] (seen_taken x) w }
    ensures none { (kinds : List Kind) (x : RunSeen D) (w : RunWorld) (q : ℕ × Outgoing) (f : Fate) → first_of (coming w.net) ≡ Some q → packet_of q.1.bytes ≡ None → Stands D.state kinds x w → Stands D.state kinds (seen_taken x) (does kinds w (Hands f)) }
    ensures lost { (kinds : List Kind) (x : RunSeen D) (w : RunWorld) (q : ℕ × Outgoing) (f : Fate) → first_of (coming w.net) ≡ Some q → is_free w q.1.to ≡ false → Stands D.state kinds x w → Stands D.state kinds (seen_taken x) (does kinds w (Hands f)) }
{}
