//! What a member gives to the outside, as what the world of a run takes; and one member alone in a run.
#![tactic(auto)]

ghost use Rattle.std.specs.Prelude.{◌≡◌, ◌<◌, ◌≤◌, ◌++◌, ℕ, Bool, false, List, Some, fold, length, map, slice_get};
ghost use Rattle.std.specs.List.{AllByRecursion};
ghost use Rattle.cl_base.specs.declared.disk.Choice.{Choice};
ghost use Rattle.entry_log.specs.Log.{Log, IsPrefixOf};
ghost use Rattle.egress.specs.Streams.{StreamSeen};
ghost use Rattle.egress.specs.declared.sent.Sent.{Sent};
ghost use Rattle.consensus_core.specs.Member.{Sent as Packet, spelled_packet};
ghost use Rattle.network.specs.Net.{NetSeen};
ghost use Rattle.service_phases.specs.Pairs.{Each2};
ghost use Rattle.service_runs.specs.Hosts.{Output, longer};
ghost use Rattle.run_outside.specs.Gives.{newly, with_packets, with_records};
ghost use Rattle.service_api.specs.declared.shipped.Kind.{Kind};
ghost use Rattle.run_world.specs.Lawful.{Lawful};
ghost use Rattle.run_world.specs.Rounds.{Phased};
ghost use Rattle.run_world.specs.Seat.{Fate, Seat};
ghost use Rattle.run_world.specs.RunWorld.{Act, RunWorld, after_acts, all_sent, committed, does, put, seat};
ghost use Rattle.run_orders.specs.Phases.{PhasesAct};
ghost use Rattle.run_orders.specs.Stands.{AreRecords, EndedSeen, IsRecord, IsSeat, IsUp, RunSeen, SeatSeen, Stands, UpSeen, more_sent};
ghost use Rattle.sbe_consensus.specs.declared.packet.Outgoing.{Outgoing};
ghost use Rattle.member_rows.specs.Places.{running_seat};
ghost use Rattle.member_rows.specs.Turns.{IsTurn, committed_seen};
ghost use Rattle.member_gives.specs.One.{OneSeen, Only, StandsFor, actor, may_print, one_of, one_put, with_one};

use cl_base::Disk;

/// Packets that a member gives, spelled, are in flight as those that it sent in the world.
pub fn packets_are_in_flight()
    ensures { (from : ℕ) (packets : List Packet) (net : NetSeen) → with_packets from (map spelled_packet packets) net ≡ all_sent from packets net }
{}

/// Records that a member gives stand on their streams in order; where they are these outputs, the outputs are the world's records from then on.
pub fn records_stand_on_their_streams()
    ensures order { (records : List Sent) (streams : List StreamSeen) → with_records records streams ≡ fold more_sent streams records }
    ensures stand { (streams : List StreamSeen) (outputs more : List Output) (records : List Sent) → AreRecords streams outputs → Each2 IsRecord more records → AreRecords (with_records records streams) (outputs ++ more) }
{}

/// What a driver prints of a running member is what the world prints: nothing more while nothing happens, and after an act of that member all that it has committed; what of it isn't printed stands ahead of its module.
pub fn what_is_printed_is_the_worlds<D: Disk>()
    ensures still { (n : ℕ) (kinds : List Kind) (w : RunWorld) (m : ℕ) (u : UpSeen D) (going : Bool) (printed : Log) → n ≤ 5 → length kinds ≤ 3 → Lawful n kinds w → IsUp D.state kinds u going (seat w m) → printed ≡ w.printed
        → printed ++ newly u.module_held.consumed u.module_held.ahead.entries u.core.values.rest.commit (length printed) ≡ longer w.printed (committed (seat w m).member) }
    ensures act { (n : ℕ) (kinds : List Kind) (w : RunWorld) (a : Act) (m : ℕ) (u : UpSeen D) (going : Bool) (printed : Log) → n ≤ 5 → length kinds ≤ 3 → Lawful n kinds w → actor w a ≡ Some m → IsUp D.state kinds u going (seat (does kinds w a) m) → printed ≡ w.printed
        → printed ++ newly u.module_held.consumed u.module_held.ahead.entries u.core.values.rest.commit (length printed) ≡ (does kinds w a).printed }
    ensures turn { (n : ℕ) (kinds : List Kind) (x : RunSeen D) (w : RunWorld) (act : Fate → Act) (m : ℕ) (u : UpSeen D) (going : Bool) (choice : Choice) (ended : List EndedSeen) (out : List Outgoing) → n ≤ 5 → length kinds ≤ 3 → Lawful n kinds w
        → ((f : Fate) → actor w (act f) ≡ Some m) → m < length w.seats → x.printed ≡ w.printed → IsTurn D.state kinds act m (running_seat choice ended u going) (committed_seen u) out x w
        → x.printed ++ newly u.module_held.consumed u.module_held.ahead.entries u.core.values.rest.commit (length x.printed) ≡ longer x.printed (committed_seen u) }
{}

/// The printed log only grows, by what a member has committed; and but for a packet's row and a duty's nothing is printed, so by no phase.
pub fn an_act_prints()
    ensures world { (n : ℕ) (kinds : List Kind) (w : RunWorld) (a : Act) (m : ℕ) → n ≤ 5 → length kinds ≤ 3 → Lawful n kinds w → actor w a ≡ Some m → (does kinds w a).printed ≡ longer w.printed (committed (seat (does kinds w a) m).member) }
    ensures grows { (n : ℕ) (kinds : List Kind) (w : RunWorld) (a : Act) → n ≤ 5 → length kinds ≤ 3 → Lawful n kinds w → IsPrefixOf w.printed (does kinds w a).printed }
    ensures nothing { (n : ℕ) (kinds : List Kind) (w : RunWorld) (a : Act) → n ≤ 5 → length kinds ≤ 3 → Lawful n kinds w → may_print a ≡ false → (does kinds w a).printed ≡ w.printed }
    ensures phase { (n : ℕ) (kinds : List Kind) (m : ℕ) (w v : RunWorld) → n ≤ 5 → length kinds ≤ 3 → Lawful n kinds w → Phased kinds m w v → v.printed ≡ w.printed }
    ensures phases { (n : ℕ) (kinds : List Kind) (w v : RunWorld) → n ≤ 5 → length kinds ≤ 3 → Lawful n kinds w → PhasesAct kinds w v → v.printed ≡ w.printed }
{}

/// What a driver has of one member, and of what all share, stands to the world; and once it stands to a further world, in which no other member is another, the whole does.
pub fn one_member_stands<D: Disk>()
    ensures there { (kinds : List Kind) (x : RunSeen D) (w : RunWorld) (m : ℕ) → Stands D.state kinds x w → m < length w.seats → (y : SeatSeen D) × (slice_get x.seats m ≡ Some y) }
    ensures alone { (kinds : List Kind) (x : RunSeen D) (w : RunWorld) (m : ℕ) (y : SeatSeen D) → Stands D.state kinds x w → slice_get x.seats m ≡ Some y → StandsFor D.state kinds m (one_of y x) w }
    ensures put { (kinds : List Kind) (w : RunWorld) (m : ℕ) (o : OneSeen D) (y : SeatSeen D) (s : Seat) (packets : List Packet) → StandsFor D.state kinds m o w → IsSeat D.state kinds y s → StandsFor D.state kinds m (one_put m y packets (committed s.member) o) (put m s packets w) }
    ensures again { (kinds : List Kind) (x : RunSeen D) (w v : RunWorld) (m : ℕ) (o : OneSeen D) → Stands D.state kinds x w → StandsFor D.state kinds m o v → Only m w v → Stands D.state kinds (with_one m o x) v }
{}

/// No act of a member makes another member another, nor do several, nor does a phase.
pub fn an_act_is_of_one_member()
    ensures act { (kinds : List Kind) (w : RunWorld) (a : Act) (m : ℕ) → actor w a ≡ Some m → Only m w (does kinds w a) }
    ensures acts { (kinds : List Kind) (w : RunWorld) (acts : List Act) (m : ℕ) → AllByRecursion (λ a. (u : RunWorld) → actor u a ≡ Some m) acts → Only m w (after_acts kinds w acts) }
    ensures phase { (kinds : List Kind) (m : ℕ) (w v : RunWorld) → Phased kinds m w v → Only m w v }
    ensures none { (m : ℕ) (w : RunWorld) → Only m w w }
    ensures then { (m : ℕ) (w u v : RunWorld) → Only m w u → Only m u v → Only m w v }
    ensures count { (m : ℕ) (w v : RunWorld) → Only m w v → length v.seats ≡ length w.seats }
{}
