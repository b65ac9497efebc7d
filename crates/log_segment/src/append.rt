// An append that stays in one segment.
ghost use Rattle.std.specs.Prelude.{◌≡◌, ℕ, ◌+◌, ◌<◌, ◌≤◌, [], ◌∷◌, ◌++◌, List, length, IsTrue, OnOk};
ghost use Rattle.cl_base.specs.Counts.{HasCause};
ghost use Rattle.cl_base.specs.Disk.{ChangesFile, OthersStay, LeavesOnly, settled_file, overwritten};
ghost use Rattle.cl_base.specs.Every.{EveryImage, FileIs};
ghost use Rattle.cl_base.specs.Fuse.{FuseEnds};
ghost use Rattle.cl_base.specs.Gated.{open_byte, shut};
ghost use Rattle.entry_log.specs.Log.{Log};
ghost use Rattle.log_segment.specs.Segment.{SegmentIs};
ghost use Rattle.log_segment.specs.Batch.{IsAppend, SegmentIsOne, AppendLeft};
ghost use Rattle.log_segment.specs.Whole.{IsApart};

use cl_base::{Disk, Trouble, write_gated};

/// The file of segment 0.
const FIRST_FILE: u32 = 2;

/// Appends a batch in a segment: its bytes before the first gate, and those behind it with 32 zeros; then the gate.
pub fn append_inside<D: Disk>(
    disk: &mut D,
    segment: u32,
    at: u64,
    head: &[u8],
    tail: &[u8],
) -> Result<(), Trouble>
    requires segment { segment < 256 }
    requires high { at + 32 ≤ 65536 }
    requires size { length head.now ≡ 31 }
    requires room { IsTrue (D.tells disk.old) → at + 32 ≤ length ((D.state disk.old).files (2 + segment)).reads }
    ensures cause { HasCause (D.fault_count disk.old) (D.fault_count disk.new) result }
    ensures tells { D.tells disk.new ≡ D.tells disk.old }
    ensures honest { D.is_honest disk.new ≡ D.is_honest disk.old }
    ensures others { IsTrue (D.tells disk.old) → OthersStay (2 + segment) (D.state disk.old).files (D.state disk.new).files }
    ensures apart { IsTrue (D.is_honest disk.old) → LeavesOnly D.moment D.left_since disk.old disk.new (IsApart (D.state disk.old).files) }
    ensures written { IsTrue (D.tells disk.old)
        → OnOk result (ChangesFile (2 + segment) (D.state disk.old).files (D.state disk.new).files (settled_file (overwritten (at + 31) (open_byte ∷ []) (shut at head.now (at + 31) tail.now ((D.state disk.old).files (2 + segment)).reads)))) }

    // After Ok each image of the segment has the log with the batch.
    ensures done { IsTrue (D.is_honest disk.old) → (log batch : Log) (bytes : List ℕ) → IsAppend log batch segment at bytes head.now tail.now → EveryImage (2 + segment) (SegmentIs segment log) (D.state disk.old).files (D.state disk.old).files
        → OnOk result (EveryImage (2 + segment) (SegmentIs segment (log ++ batch)) (D.state disk.old).files (D.state disk.new).files) }

    // After any answer, and at any moment of the call, each image has the log before it, or that with the batch.
    ensures each { IsTrue (D.is_honest disk.old) → (log batch : Log) (bytes : List ℕ) → IsAppend log batch segment at bytes head.now tail.now → EveryImage (2 + segment) (SegmentIs segment log) (D.state disk.old).files (D.state disk.old).files
        → EveryImage (2 + segment) (SegmentIsOne segment log (log ++ batch)) (D.state disk.old).files (D.state disk.new).files }
    ensures cut_well { IsTrue (D.is_honest disk.old) → (log batch : Log) (bytes : List ℕ) → IsAppend log batch segment at bytes head.now tail.now → EveryImage (2 + segment) (SegmentIs segment log) (D.state disk.old).files (D.state disk.old).files
        → LeavesOnly D.moment D.left_since disk.old disk.new (FileIs (2 + segment) (SegmentIsOne segment log (log ++ batch)) (D.state disk.old).files) }
    ensures fuse { IsTrue (D.is_honest disk.old) → (log batch : Log) (bytes : List ℕ) → IsAppend log batch segment at bytes head.now tail.now → EveryImage (2 + segment) (SegmentIs segment log) (D.state disk.old).files (D.state disk.old).files
        → FuseEnds 5 Trouble.Failed (AppendLeft segment log (log ++ batch)) (D.state disk.old) (D.state disk.new) result }
{
    write_gated(disk, FIRST_FILE + segment, at, head, at + 31, tail)
}
