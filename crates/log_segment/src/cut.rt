// A cut of the log to its first entries.
ghost use Rattle.std.specs.Prelude.{◌≡◌, ℕ, ◌+◌, ◌<◌, ◌≤◌, length, IsTrue, OnOk};
ghost use Rattle.cl_base.specs.Counts.{HasCause};
ghost use Rattle.cl_base.specs.Disk.{OthersStay, LeavesOnly};
ghost use Rattle.cl_base.specs.Fuse.{FuseEnds};
ghost use Rattle.cl_base.specs.Runs.{EachImage};
ghost use Rattle.entry_log.specs.Log.{Log};
ghost use Rattle.log_segment.specs.Segment.{LogIs};
ghost use Rattle.log_segment.specs.Whole.{IsApart, LogIsOne};
ghost use Rattle.log_segment.specs.Cuts.{IsCut, CanCut, CutLeft};

use cl_base::{Disk, Trouble, write_through};

/// Closes the gate of the first frame that goes, or of the pad before it, at this place in its segment.
pub fn shut_gate<D: Disk>(disk: &mut D, segment: u32, at: u64) -> Result<(), Trouble>
    requires segment { segment < 256 }
    requires high { at + 32 ≤ 65536 }
    requires room { IsTrue (D.tells disk.old) → at + 32 ≤ length ((D.state disk.old).files (2 + segment)).reads }
    ensures cause { HasCause (D.fault_count disk.old) (D.fault_count disk.new) result }
    ensures tells { D.tells disk.new ≡ D.tells disk.old }
    ensures honest { D.is_honest disk.new ≡ D.is_honest disk.old }
    ensures others { IsTrue (D.tells disk.old) → OthersStay (2 + segment) (D.state disk.old).files (D.state disk.new).files }
    ensures apart { IsTrue (D.is_honest disk.old) → LeavesOnly D.moment D.left_since disk.old disk.new (IsApart (D.state disk.old).files) }
    ensures reads { IsTrue (D.tells disk.old) → (log kept : Log) → IsCut log kept segment at → LogIs log (λ f. ((D.state disk.old).files f).reads) → OnOk result (LogIs kept (λ f. ((D.state disk.new).files f).reads)) }
    ensures done { IsTrue (D.is_honest disk.old) → (log kept : Log) → CanCut log kept segment at (D.state disk.old).files → OnOk result (EachImage (LogIs kept) (D.state disk.new).files) }
    ensures each { IsTrue (D.is_honest disk.old) → (log kept : Log) → CanCut log kept segment at (D.state disk.old).files → EachImage (LogIsOne log kept) (D.state disk.new).files }
    ensures cut_well { IsTrue (D.is_honest disk.old) → (log kept : Log) → CanCut log kept segment at (D.state disk.old).files → LeavesOnly D.moment D.left_since disk.old disk.new (LogIsOne log kept) }
    ensures fuse { IsTrue (D.is_honest disk.old) → (log kept : Log) → CanCut log kept segment at (D.state disk.old).files → FuseEnds 2 Trouble.Failed (CutLeft log kept) (D.state disk.old) (D.state disk.new) result }
{
    write_through(disk, 2 + segment, at + 31, &[0])
}
