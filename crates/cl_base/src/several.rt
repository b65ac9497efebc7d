// Changes of whole files, and of two files at once.
ghost use Rattle.std.specs.Prelude.{◌≡◌, ◌≢◌, ◌+◌, ◌<◌, ◌≤◌, ℕ, [], ◌∷◌, length, IsTrue, OnOk};
ghost use Rattle.cl_base.specs.Gated.{LedImage, LedLeft, open_byte};
ghost use Rattle.cl_base.specs.Counts.{HasCause};
ghost use Rattle.cl_base.specs.Disk.{FileState, ChangesFile, OthersStay, LeavesOnly, settled_file, overwritten};
ghost use Rattle.cl_base.specs.Every.{FileIs};
ghost use Rattle.cl_base.specs.Fuse.{FuseEnds};
ghost use Rattle.cl_base.specs.Runs.{EachImage, ComesFrom, TornBoth};

use crate::gated::OPEN;
use crate::{Disk, Trouble, write_through};

/// Writes to two files before either is synced; then the second is synced, and then the first.
pub fn write_both<D: Disk>(
    disk: &mut D,
    first: u32,
    at: u64,
    head: &[u8],
    second: u32,
    place: u64,
    bytes: &[u8],
) -> Result<(), Trouble>
    requires apart { second ≢ first }
    requires first { IsTrue (D.tells disk.old) → at ≤ length ((D.state disk.old).files first).reads }
    requires second { IsTrue (D.tells disk.old) → place ≤ length ((D.state disk.old).files second).reads }
    ensures cause { HasCause (D.fault_count disk.old) (D.fault_count disk.new) result }
    ensures tells { D.tells disk.new ≡ D.tells disk.old }
    ensures honest { D.is_honest disk.new ≡ D.is_honest disk.old }
    ensures first { IsTrue (D.tells disk.old) → OnOk result ((D.state disk.new).files first ≡ settled_file (overwritten at head.now ((D.state disk.old).files first).reads)) }
    ensures second { IsTrue (D.tells disk.old) → OnOk result ((D.state disk.new).files second ≡ settled_file (overwritten place bytes.now ((D.state disk.old).files second).reads)) }
    ensures others { IsTrue (D.tells disk.old) → (g : ℕ) → g ≢ first → g ≢ second → (D.state disk.new).files g ≡ (D.state disk.old).files g }

    // Each image, at any moment of the call and after it, is one from before it, with a range torn in each of the two.
    ensures images { IsTrue (D.is_honest disk.old) → EachImage (ComesFrom (TornBoth first at (length head.now) second place (length bytes.now)) (D.state disk.old).files) (D.state disk.new).files }
    ensures any_moment { IsTrue (D.is_honest disk.old) → LeavesOnly D.moment D.left_since disk.old disk.new (ComesFrom (TornBoth first at (length head.now) second place (length bytes.now)) (D.state disk.old).files) }
    ensures fuse { IsTrue (D.tells disk.old) → FuseEnds 4 Trouble.Failed (λ _ _. Unit {0}) (D.state disk.old) (D.state disk.new) result }
{
    match disk.write_at(first, at, head) {
        Ok(()) => match write_through(disk, second, place, bytes) {
            Ok(()) => disk.sync(first),
            Err(trouble) => Err(trouble),
        },
        Err(trouble) => Err(trouble),
    }
}

/// Writes bytes before a gate in one file, and the front of another, syncs both, and only then opens the gate and syncs
/// it.
pub fn write_led<D: Disk>(
    disk: &mut D,
    first: u32,
    at: u64,
    head: &[u8],
    gate: u64,
    second: u32,
    bytes: &[u8],
) -> Result<(), Trouble>
    requires apart { second ≢ first }
    requires before { at + length head.now ≤ gate }
    requires within { IsTrue (D.tells disk.old) → gate < length ((D.state disk.old).files first).reads }
    ensures cause { HasCause (D.fault_count disk.old) (D.fault_count disk.new) result }
    ensures tells { D.tells disk.new ≡ D.tells disk.old }
    ensures honest { D.is_honest disk.new ≡ D.is_honest disk.old }
    ensures first { IsTrue (D.tells disk.old) → OnOk result ((D.state disk.new).files first ≡ settled_file (overwritten gate (open_byte ∷ []) (overwritten at head.now ((D.state disk.old).files first).reads))) }
    ensures second { IsTrue (D.tells disk.old) → OnOk result ((D.state disk.new).files second ≡ settled_file (overwritten 0 bytes.now ((D.state disk.old).files second).reads)) }
    ensures others { IsTrue (D.tells disk.old) → (g : ℕ) → g ≢ first → g ≢ second → (D.state disk.new).files g ≡ (D.state disk.old).files g }
    ensures images { IsTrue (D.is_honest disk.old) → EachImage (LedImage first at head.now gate second bytes.now (D.state disk.old).files) (D.state disk.new).files }
    ensures any_moment { IsTrue (D.is_honest disk.old) → LeavesOnly D.moment D.left_since disk.old disk.new (LedImage first at head.now gate second bytes.now (D.state disk.old).files) }
    ensures fuse { IsTrue (D.is_honest disk.old) → FuseEnds 6 Trouble.Failed (LedLeft first at head.now gate second bytes.now (D.state disk.old).files) (D.state disk.old) (D.state disk.new) result }
{
    match write_both(disk, first, at, head, second, 0, bytes) {
        Ok(()) => write_through(disk, first, gate, &[OPEN]),
        Err(trouble) => Err(trouble),
    }
}

/// Makes these bytes the whole of a file, and syncs it.
pub fn write_whole<D: Disk>(disk: &mut D, file: u32, bytes: &[u8]) -> Result<(), Trouble>
    ensures cause { HasCause (D.fault_count disk.old) (D.fault_count disk.new) result }
    ensures tells { D.tells disk.new ≡ D.tells disk.old }
    ensures honest { D.is_honest disk.new ≡ D.is_honest disk.old }
    ensures done { IsTrue (D.tells disk.old) → OnOk result (ChangesFile file (D.state disk.old).files (D.state disk.new).files (settled_file bytes.now)) }
    ensures others { IsTrue (D.tells disk.old) → OthersStay file (D.state disk.old).files (D.state disk.new).files }

    // At any moment of the call the file may be anything, and each other one is as a crash could leave it before.
    ensures any_moment { IsTrue (D.is_honest disk.old) → LeavesOnly D.moment D.left_since disk.old disk.new (FileIs file (λ _. Unit {0}) (D.state disk.old).files) }
    ensures fuse { IsTrue (D.tells disk.old) → FuseEnds 3 Trouble.Failed (λ _ _. Unit {0}) (D.state disk.old) (D.state disk.new) result }
{
    match disk.write_at(file, 0, bytes) {
        Ok(()) => match disk.cut(file, bytes.len() as u64) {
            Ok(()) => disk.sync(file),
            Err(trouble) => Err(trouble),
        },
        Err(trouble) => Err(trouble),
    }
}
