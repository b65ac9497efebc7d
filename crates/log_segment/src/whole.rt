// Appends, as they change the whole log.
ghost use Rattle.std.specs.Prelude.{◌≡◌, ◌≢◌, ℕ, ◌+◌, ◌<◌, ◌≤◌, ◌++◌, List, length, IsTrue, OnOk};
ghost use Rattle.cl_base.specs.Counts.{HasCause};
ghost use Rattle.cl_base.specs.Disk.{OthersStay, LeavesOnly};
ghost use Rattle.cl_base.specs.Fuse.{FuseEnds};
ghost use Rattle.cl_base.specs.Runs.{EachImage};
ghost use Rattle.entry_log.specs.Log.{Log};
ghost use Rattle.log_segment.specs.Segment.{LogIs};
ghost use Rattle.log_segment.specs.Batch.{IsAppend};
ghost use Rattle.log_segment.specs.Whole.{IsApart, LogIsOne, LogLeft, IsReady, IsPadded, CanAppend, CanFill, CanPad};

use crate::append::append_inside;
use cl_base::{Disk, Trouble, write_led, write_through};

/// Appends a batch in a segment: within it, or to its end where the next one begins with a closed gate.
pub fn append_in<D: Disk>(
    disk: &mut D,
    segment: u32,
    at: u64,
    head: &[u8],
    tail: &[u8],
) -> Result<(), Trouble>
    requires segment { segment < 256 }
    requires high { at + 32 ≤ 65536 }
    requires size { length head.now ≡ 31 }
    requires room { IsTrue (D.tells disk.old) → at + 32 ≤ length ((D.state disk.old).files (2 + segment)).reads }
    ensures cause { HasCause (D.fault_count disk.old) (D.fault_count disk.new) result }
    ensures tells { D.tells disk.new ≡ D.tells disk.old }
    ensures honest { D.is_honest disk.new ≡ D.is_honest disk.old }
    ensures others { IsTrue (D.tells disk.old) → OthersStay (2 + segment) (D.state disk.old).files (D.state disk.new).files }
    ensures apart { IsTrue (D.is_honest disk.old) → LeavesOnly D.moment D.left_since disk.old disk.new (IsApart (D.state disk.old).files) }
    ensures reads { IsTrue (D.tells disk.old) → (log batch : Log) (bytes : List ℕ) → IsAppend log batch segment at bytes head.now tail.now → LogIs log (λ f. ((D.state disk.old).files f).reads) → IsReady segment at bytes (λ f. ((D.state disk.old).files f).reads) → OnOk result (LogIs (log ++ batch) (λ f. ((D.state disk.new).files f).reads)) }
    ensures done { IsTrue (D.is_honest disk.old) → (log batch : Log) (bytes : List ℕ) → CanAppend log batch segment at bytes head.now tail.now (D.state disk.old).files → OnOk result (EachImage (LogIs (log ++ batch)) (D.state disk.new).files) }
    ensures each { IsTrue (D.is_honest disk.old) → (log batch : Log) (bytes : List ℕ) → CanAppend log batch segment at bytes head.now tail.now (D.state disk.old).files → EachImage (LogIsOne log (log ++ batch)) (D.state disk.new).files }
    ensures cut_well { IsTrue (D.is_honest disk.old) → (log batch : Log) (bytes : List ℕ) → CanAppend log batch segment at bytes head.now tail.now (D.state disk.old).files → LeavesOnly D.moment D.left_since disk.old disk.new (LogIsOne log (log ++ batch)) }
    ensures fuse { IsTrue (D.is_honest disk.old) → (log batch : Log) (bytes : List ℕ) → CanAppend log batch segment at bytes head.now tail.now (D.state disk.old).files
        → FuseEnds 5 Trouble.Failed (LogLeft 4 log (log ++ batch)) (D.state disk.old) (D.state disk.new) result }
{
    append_inside(disk, segment, at, head, tail)
}

/// Appends a batch to a segment's end: first a closed gate at the front of the next one.
pub fn append_to_end<D: Disk>(
    disk: &mut D,
    segment: u32,
    at: u64,
    head: &[u8],
    tail: &[u8],
) -> Result<(), Trouble>
    requires segment { segment < 255 }
    requires high { at + 32 ≤ 65536 }
    requires size { length head.now ≡ 31 }
    requires room { IsTrue (D.tells disk.old) → at + 32 ≤ length ((D.state disk.old).files (2 + segment)).reads }
    ensures cause { HasCause (D.fault_count disk.old) (D.fault_count disk.new) result }
    ensures tells { D.tells disk.new ≡ D.tells disk.old }
    ensures honest { D.is_honest disk.new ≡ D.is_honest disk.old }
    ensures others { IsTrue (D.tells disk.old) → (g : ℕ) → g ≢ 2 + segment → g ≢ 3 + segment → (D.state disk.new).files g ≡ (D.state disk.old).files g }
    ensures apart { IsTrue (D.is_honest disk.old) → LeavesOnly D.moment D.left_since disk.old disk.new (IsApart (D.state disk.old).files) }
    ensures reads { IsTrue (D.tells disk.old) → (log batch : Log) (bytes : List ℕ) → IsAppend log batch segment at bytes head.now tail.now → LogIs log (λ f. ((D.state disk.old).files f).reads) → OnOk result (LogIs (log ++ batch) (λ f. ((D.state disk.new).files f).reads)) }
    ensures done { IsTrue (D.is_honest disk.old) → (log batch : Log) (bytes : List ℕ) → CanFill log batch segment at bytes head.now tail.now (D.state disk.old).files → OnOk result (EachImage (LogIs (log ++ batch)) (D.state disk.new).files) }
    ensures each { IsTrue (D.is_honest disk.old) → (log batch : Log) (bytes : List ℕ) → CanFill log batch segment at bytes head.now tail.now (D.state disk.old).files → EachImage (LogIsOne log (log ++ batch)) (D.state disk.new).files }
    ensures cut_well { IsTrue (D.is_honest disk.old) → (log batch : Log) (bytes : List ℕ) → CanFill log batch segment at bytes head.now tail.now (D.state disk.old).files → LeavesOnly D.moment D.left_since disk.old disk.new (LogIsOne log (log ++ batch)) }
    ensures fuse { IsTrue (D.is_honest disk.old) → (log batch : Log) (bytes : List ℕ) → CanFill log batch segment at bytes head.now tail.now (D.state disk.old).files
        → FuseEnds 7 Trouble.Failed (LogLeft 6 log (log ++ batch)) (D.state disk.old) (D.state disk.new) result }
{
    match write_through(disk, 3 + segment, 0, &[0; 32]) {
        Ok(()) => append_in(disk, segment, at, head, tail),
        Err(trouble) => Err(trouble),
    }
}

/// Appends a batch whose first entry doesn't fit in what is left of a segment: a pad fills that, and the batch begins
/// the next one. The gate that is opened last is the pad's.
pub fn append_with_pad<D: Disk>(
    disk: &mut D,
    segment: u32,
    at: u64,
    head: &[u8],
    tail: &[u8],
) -> Result<(), Trouble>
    requires segment { segment < 255 }
    requires high { at + 32 ≤ 65536 }
    requires size { length head.now ≡ 31 }
    requires room { IsTrue (D.tells disk.old) → at + 32 ≤ length ((D.state disk.old).files (2 + segment)).reads }
    ensures cause { HasCause (D.fault_count disk.old) (D.fault_count disk.new) result }
    ensures tells { D.tells disk.new ≡ D.tells disk.old }
    ensures honest { D.is_honest disk.new ≡ D.is_honest disk.old }
    ensures others { IsTrue (D.tells disk.old) → (g : ℕ) → g ≢ 2 + segment → g ≢ 3 + segment → (D.state disk.new).files g ≡ (D.state disk.old).files g }
    ensures apart { IsTrue (D.is_honest disk.old) → LeavesOnly D.moment D.left_since disk.old disk.new (IsApart (D.state disk.old).files) }
    ensures reads { IsTrue (D.tells disk.old) → (log batch : Log) (bytes : List ℕ) → IsPadded log batch segment at bytes head.now tail.now → LogIs log (λ f. ((D.state disk.old).files f).reads) → OnOk result (LogIs (log ++ batch) (λ f. ((D.state disk.new).files f).reads)) }
    ensures done { IsTrue (D.is_honest disk.old) → (log batch : Log) (bytes : List ℕ) → CanPad log batch segment at bytes head.now tail.now (D.state disk.old).files → OnOk result (EachImage (LogIs (log ++ batch)) (D.state disk.new).files) }
    ensures each { IsTrue (D.is_honest disk.old) → (log batch : Log) (bytes : List ℕ) → CanPad log batch segment at bytes head.now tail.now (D.state disk.old).files → EachImage (LogIsOne log (log ++ batch)) (D.state disk.new).files }
    ensures cut_well { IsTrue (D.is_honest disk.old) → (log batch : Log) (bytes : List ℕ) → CanPad log batch segment at bytes head.now tail.now (D.state disk.old).files → LeavesOnly D.moment D.left_since disk.old disk.new (LogIsOne log (log ++ batch)) }
    ensures fuse { IsTrue (D.is_honest disk.old) → (log batch : Log) (bytes : List ℕ) → CanPad log batch segment at bytes head.now tail.now (D.state disk.old).files
        → FuseEnds 6 Trouble.Failed (LogLeft 5 log (log ++ batch)) (D.state disk.old) (D.state disk.new) result }
{
    write_led(disk, 2 + segment, at, head, at + 31, 3 + segment, tail)
}
