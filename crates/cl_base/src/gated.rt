// A write behind a gate.
ghost use Rattle.std.specs.Prelude.{◌≡◌, ◌+◌, ◌<◌, ◌≤◌, ◌^◌, [], ◌∷◌, length, IsTrue, OnOk};
ghost use Rattle.cl_base.specs.Counts.{HasCause};
ghost use Rattle.cl_base.specs.Disk.{ChangesFile, OthersStay, LeavesOnly, settled_file, overwritten};
ghost use Rattle.cl_base.specs.Every.{EveryImage, FileIs};
ghost use Rattle.cl_base.specs.Fuse.{FuseEnds};
ghost use Rattle.cl_base.specs.Gated.{FromTwice, GatedImage, GatedLeft, shut, open_byte};

use crate::{Disk, Trouble, write_through};

/// The value of an open gate.
pub const OPEN: u8 = 0x5A;

/// Writes bytes before a gate and behind it, and syncs them.
fn write_shut<D: Disk>(
    disk: &mut D,
    file: u32,
    at: u64,
    head: &[u8],
    gate: u64,
    tail: &[u8],
) -> Result<(), Trouble>
    requires before { at + length head.now ≤ gate }
    requires high { gate < 2 ^ 63 }
    requires within { IsTrue (D.tells disk.old) → gate < length ((D.state disk.old).files file).reads }
    ensures cause { HasCause (D.fault_count disk.old) (D.fault_count disk.new) result }
    ensures tells { D.tells disk.new ≡ D.tells disk.old }
    ensures honest { D.is_honest disk.new ≡ D.is_honest disk.old }
    ensures done { IsTrue (D.tells disk.old) → OnOk result (ChangesFile file (D.state disk.old).files (D.state disk.new).files (settled_file (shut at head.now gate tail.now ((D.state disk.old).files file).reads))) }
    ensures others { IsTrue (D.tells disk.old) → OthersStay file (D.state disk.old).files (D.state disk.new).files }
    ensures images { IsTrue (D.is_honest disk.old) → EveryImage file (FromTwice at (length head.now) (gate + 1) (length tail.now) ((D.state disk.old).files file)) (D.state disk.old).files (D.state disk.new).files }
    ensures any_moment { IsTrue (D.is_honest disk.old) → LeavesOnly D.moment D.left_since disk.old disk.new (FileIs file (FromTwice at (length head.now) (gate + 1) (length tail.now) ((D.state disk.old).files file)) (D.state disk.old).files) }
    ensures fuse { IsTrue (D.tells disk.old) → FuseEnds 3 Trouble.Failed (λ _ _. Unit {0}) (D.state disk.old) (D.state disk.new) result }
{
    match disk.write_at(file, at, head) {
        Ok(()) => write_through(disk, file, gate + 1, tail),
        Err(trouble) => Err(trouble),
    }
}

/// Writes bytes before a gate and behind it, syncs them, and only then opens the gate and syncs it.
pub fn write_gated<D: Disk>(
    disk: &mut D,
    file: u32,
    at: u64,
    head: &[u8],
    gate: u64,
    tail: &[u8],
) -> Result<(), Trouble>
    requires before { at + length head.now ≤ gate }
    requires high { gate < 2 ^ 63 }
    requires within { IsTrue (D.tells disk.old) → gate < length ((D.state disk.old).files file).reads }
    ensures cause { HasCause (D.fault_count disk.old) (D.fault_count disk.new) result }
    ensures tells { D.tells disk.new ≡ D.tells disk.old }
    ensures honest { D.is_honest disk.new ≡ D.is_honest disk.old }
    ensures done { IsTrue (D.tells disk.old)
        → OnOk result (ChangesFile file (D.state disk.old).files (D.state disk.new).files (settled_file (overwritten gate (open_byte ∷ []) (shut at head.now gate tail.now ((D.state disk.old).files file).reads)))) }
    ensures others { IsTrue (D.tells disk.old) → OthersStay file (D.state disk.old).files (D.state disk.new).files }

    // Each image of the file, at any moment of the call and after it, is one from before with the bytes torn and the
    // gate as it was, or has all the bytes and a torn gate.
    ensures images { IsTrue (D.is_honest disk.old) → EveryImage file (GatedImage at head.now gate tail.now ((D.state disk.old).files file)) (D.state disk.old).files (D.state disk.new).files }
    ensures any_moment { IsTrue (D.is_honest disk.old) → LeavesOnly D.moment D.left_since disk.old disk.new (FileIs file (GatedImage at head.now gate tail.now ((D.state disk.old).files file)) (D.state disk.old).files) }
    ensures fuse { IsTrue (D.is_honest disk.old) → FuseEnds 5 Trouble.Failed (GatedLeft file at head.now gate tail.now ((D.state disk.old).files file)) (D.state disk.old) (D.state disk.new) result }
{
    match write_shut(disk, file, at, head, gate, tail) {
        Ok(()) => write_through(disk, file, gate, &[OPEN]),
        Err(trouble) => Err(trouble),
    }
}
