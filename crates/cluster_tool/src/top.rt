// The top call.
ghost use Rattle.std.specs.Prelude.{◌≡◌, ◌≤◌, ◌<◌, ◌+◌, ◌∷◌, ◌++◌, [], ℕ, IsTrue, IsSome, Some, None, List, map, length, string_bytes, vec_len, vec_capacity};
ghost use Rattle.cl_base.specs.Counts.{Rose};
ghost use Rattle.line_text.specs.Written.{IsFront};
ghost use Rattle.cluster_tool.specs.Words.{Tool, Listing, describe, recording, verify, tool_of, TakesDisks};
ghost use Rattle.cluster_tool.specs.Status.{status_text, IsRefusal, IsOrGivesUp};
ghost use Rattle.cluster_tool.specs.Disks.{AllTell, AreSeen, AreRead, RoseAt, NoneOld, IsOldAt, NamesOld};
ghost use Rattle.cluster_tool.specs.Listed.{Runs, Answers, Lists, HoldsMore, StandBefore, services_in, listing_of};

use crate::describe::described;
use crate::look::turned_away;
use crate::recorded::recorded;
use crate::verify::verified;
use crate::{Asked, ToolStatus, asked_by};
use cl_base::{Disk, Sink};
use std::alloc::Global;

/// What is listed of one disk.
#[derive(Clone, Copy)]
pub(crate) enum Single {
    /// What its files stand for, with so many services.
    Describe(u8),
    /// The entries of its recording log.
    Recorded,
}

/// A listing of a disk, which comes back.
fn one<O: Sink, D: Disk>(alloc: Global, single: Single, sink: &mut O, disk: D) -> (D, ToolStatus)
    ensures { Runs D.tells D.is_honest D.state D.fault_count O.tells O.held O.fault_count (listing_of single) (disk ∷ []) (result.0 ∷ []) sink.old sink.new result.1 }
{
    let mut disk = disk;
    match turned_away(0, &mut disk) {
        Some(status) => (disk, status.written(alloc, sink)),
        None => match single {
            Single::Describe(services) => described(alloc, services, sink, disk),
            Single::Recorded => recorded(alloc, sink, disk),
        },
    }
}

/// The listing of two disks, which come back.
fn two<O: Sink, D: Disk>(alloc: Global, sink: &mut O, first: D, second: D) -> (D, D, ToolStatus)
    ensures { Runs D.tells D.is_honest D.state D.fault_count O.tells O.held O.fault_count verify (first ∷ second ∷ []) (result.0 ∷ result.1 ∷ []) sink.old sink.new result.2 }
{
    let (mut first, mut second) = (first, second);
    match turned_away(0, &mut first) {
        Some(status) => (first, second, status.written(alloc, sink)),
        None => match turned_away(1, &mut second) {
            Some(status) => (first, second, status.written(alloc, sink)),
            None => verified(alloc, sink, first, second),
        },
    }
}

/// Takes the last disk of a list that has one.
fn take<D>(disks: &mut Vec<D>) -> D
    requires { 0 < length disks.old.items }
    ensures items { disks.old.items ≡ disks.new.items ++ result ∷ [] }
    ensures room { vec_len disks.new + 1 ≤ vec_capacity disks.new }
    ensures capacity { vec_capacity disks.new ≡ vec_capacity disks.old }
{
    match disks.pop() {
        Some(disk) => disk,
        None => unreachable!(),
    }
}

/// Puts a disk behind the others where there is room for it.
fn put<D: Drop>(disks: &mut Vec<D>, disk: D)
    requires { vec_len disks.old < vec_capacity disks.old }
    ensures items { disks.new.items ≡ disks.old.items ++ disk ∷ [] }
    ensures room { vec_capacity disks.old ≤ vec_capacity disks.new }
{
    match disks.push(disk) {
        Ok(()) => (),
        Err(_) => unreachable!(),
    }
}

/// A listing of one disk.
fn on_one<O: Sink, D: Disk + Drop>(
    alloc: Global,
    single: Single,
    sink: &mut O,
    disks: &mut Vec<D>,
) -> ToolStatus
    requires { length disks.old.items ≡ 1 }
    ensures { Runs D.tells D.is_honest D.state D.fault_count O.tells O.held O.fault_count (listing_of single) disks.old.items disks.new.items sink.old sink.new result }
{
    let disk = take(disks);
    let (disk, status) = one(alloc, single, sink, disk);
    put(disks, disk);
    status
}

/// The listing of two disks.
fn on_two<O: Sink, D: Disk + Drop>(alloc: Global, sink: &mut O, disks: &mut Vec<D>) -> ToolStatus
    requires { length disks.old.items ≡ 2 }
    ensures { Runs D.tells D.is_honest D.state D.fault_count O.tells O.held O.fault_count verify disks.old.items disks.new.items sink.old sink.new result }
{
    let second = take(disks);
    let first = take(disks);
    let (first, second, status) = two(alloc, sink, first, second);
    put(disks, first);
    put(disks, second);
    status
}

/// What the words ask for.
fn run<O: Sink, D: Disk + Drop>(
    alloc: Global,
    words: &[String],
    sink: &mut O,
    disks: &mut Vec<D>,
) -> ToolStatus
    requires { TakesDisks (tool_of (map string_bytes words.now)) (length disks.old.items) }
    ensures { Answers D.tells D.is_honest D.state D.fault_count O.tells O.held O.fault_count (tool_of (map string_bytes words.now)) disks.old.items disks.new.items sink.old sink.new result }
{
    match asked_by(words) {
        None => ToolStatus::Usage.written(alloc, sink),
        Some(Asked::Describe(services, _)) => {
            on_one(alloc, Single::Describe(services), sink, disks)
        }
        Some(Asked::RecordingLog(_)) => on_one(alloc, Single::Recorded, sink, disks),
        Some(Asked::Verify(_, _)) => on_two(alloc, sink, disks),
    }
}

/// Looks into the files of members and writes what the words ask for, or the one line of a refusal. There is one disk
/// for each folder that the words name, in their order. File 0 of each is looked at before one is mounted, so that
/// files of version 1 stay as they are. The answers stand in `ToolStatus`.
pub fn tool_main<O: Sink, D: Disk + Drop>(
    alloc: Global,
    words: &[String],
    sink: &mut O,
    disks: &mut Vec<D>,
) -> ToolStatus
    requires { TakesDisks (tool_of (map string_bytes words.now)) (length disks.old.items) }
    ensures usage { result ≡ ToolStatus.Usage → tool_of (map string_bytes words.now) ≡ None }
    ensures usage_exactly { tool_of (map string_bytes words.now) ≡ None → IsOrGivesUp result ToolStatus.Usage }

    // The first disk of version 1 is named, before any is mounted: then no file is changed.
    ensures old { (d : ℕ) → result ≡ ToolStatus.Old d → IsOldAt D.tells D.state disks.old.items d }
    ensures old_stays { (d : ℕ) → result ≡ ToolStatus.Old d → AreSeen D.tells D.is_honest D.state D.fault_count disks.old.items disks.new.items }
    ensures old_exactly { (tool : Tool) → tool_of (map string_bytes words.now) ≡ Some tool → AllTell D.tells disks.old.items → (d : ℕ) → IsOldAt D.tells D.state disks.old.items d → NamesOld d result }

    // A disk is damaged only where none is of version 1 and those before it stand for members.
    ensures damaged { (d file place : ℕ) → result ≡ ToolStatus.Damaged d file place → NoneOld D.tells D.state disks.old.items }
    ensures damaged_first { (tool : Tool) → tool_of (map string_bytes words.now) ≡ Some tool → (d file place : ℕ) → result ≡ ToolStatus.Damaged d file place → StandBefore D.tells D.state (services_in tool.listing) disks.old.items d }
    ensures disk_fault { (d : ℕ) → result ≡ ToolStatus.DiskFault d → RoseAt D.fault_count disks.old.items disks.new.items d }
    ensures write_fault { result ≡ ToolStatus.WriteFault → Rose (O.fault_count sink.old) (O.fault_count sink.new) }

    // What a sink that tells then holds: the listing of what the disks' files stand for, the one line of a refusal, and
    // always what it held and more.
    ensures done { IsTrue (O.tells sink.old) → AllTell D.tells disks.old.items → (tool : Tool) → tool_of (map string_bytes words.now) ≡ Some tool → result ≡ ToolStatus.Done
        → HoldsMore (Lists tool.listing (map (λ d. (D.state d).files) disks.old.items)) (O.held sink.old) (O.held sink.new) }
    ensures refusal { IsTrue (O.tells sink.old) → IsRefusal result → O.held sink.new ≡ O.held sink.old ++ status_text result }
    ensures more { IsTrue (O.tells sink.old) → IsFront (O.held sink.old) (O.held sink.new) }
    ensures sink_later { O.fault_count sink.old ≤ O.fault_count sink.new }
    ensures sink_tells { O.tells sink.new ≡ O.tells sink.old }

    // The list has the same disks in the same order. Of no disk a file but that of the node state is changed, and on one
    // whose node state is of version 2 no changing call is made.
    ensures disks { AreRead D.tells D.is_honest D.state D.fault_count disks.old.items disks.new.items }
{
    run(alloc, words, sink, disks)
}
