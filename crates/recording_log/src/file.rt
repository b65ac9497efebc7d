// The calls of the disk that change the log.
ghost use Rattle.std.specs.Prelude.{◌≡◌, ◌⊎◌, ◌+◌, ◌*◌, ◌^◌, ◌<◌, ◌≤◌, ◌==◌, ◌&&◌, not, if◌then◌else◌, ℕ, List, [], ◌∷◌, ◌++◌, length, IsTrue, Some, OnOk, slice_get};
ghost use Rattle.cl_base.specs.Counts.{HasCause};
ghost use Rattle.cl_base.specs.Disk.{ChangesFile, OthersStay, LeavesOnly, settled_file, overwritten};
ghost use Rattle.cl_base.specs.Fuse.{FuseEnds};
ghost use Rattle.cl_base.specs.declared.disk.Choice.{Choice};
ghost use Rattle.recording_log.specs.declared.entry.RecEntry.{RecEntry};
ghost use Rattle.cl_base.specs.Every.{EveryImage, FileIs, takes};
ghost use Rattle.recording_log.specs.Entries.{Holds, HoldsOne, open_gate};
ghost use Rattle.recording_log.specs.Valid.{Stands, StandsOne, valid_of};
ghost use Rattle.recording_log.specs.Sets.{IsStrike, is_struck, struck};
ghost use Rattle.recording_log.specs.Steps.{staged, added, IsAddition, AddLeft, StrikeLeft};

use cl_base::{Disk, Trouble, write_through};

/// The file of the log.
pub const FILE: u32 = 1;

/// The gate byte of an entry that counts.
pub const OPEN: u8 = 0x5A;

/// The highest byte of the kind of an entry that was made invalid.
const STRUCK: u8 = 0x80;

/// Has the bytes of an entry on the disk, behind a gate that is still closed.
fn stage<D: Disk>(disk: &mut D, at: u64, block: &[u8]) -> Result<(), Trouble>
    requires size { length block.now ≡ 63 }
    requires high { at < 2 ^ 63 }
    requires room { IsTrue (D.tells disk.old) → at + 64 ≤ length ((D.state disk.old).files 1).reads }
    ensures cause { HasCause (D.fault_count disk.old) (D.fault_count disk.new) result }
    ensures tells { D.tells disk.new ≡ D.tells disk.old }
    ensures honest { D.is_honest disk.new ≡ D.is_honest disk.old }
    ensures others { IsTrue (D.tells disk.old) → OthersStay 1 (D.state disk.old).files (D.state disk.new).files }
    ensures done { IsTrue (D.tells disk.old) → OnOk result (ChangesFile 1 (D.state disk.old).files (D.state disk.new).files (settled_file (staged at block.now ((D.state disk.old).files 1).reads))) }
    ensures each { IsTrue (D.is_honest disk.old) → (entries : List RecEntry) → at ≡ 64 * length entries → EveryImage 1 (Holds entries) (D.state disk.old).files (D.state disk.old).files
        → EveryImage 1 (Holds entries) (D.state disk.old).files (D.state disk.new).files }
    ensures cut_well { IsTrue (D.is_honest disk.old) → (entries : List RecEntry) → at ≡ 64 * length entries → EveryImage 1 (Holds entries) (D.state disk.old).files (D.state disk.old).files
        → LeavesOnly D.moment D.left_since disk.old disk.new (FileIs 1 (Holds entries) (D.state disk.old).files) }
    ensures fuse { IsTrue (D.tells disk.old) → FuseEnds 3 Trouble.Failed (λ _ _. Unit {0}) (D.state disk.old) (D.state disk.new) result }
{
    match disk.write_at(FILE, at, block) {
        Ok(()) => write_through(disk, FILE, at + 64, &[0; 64]),
        Err(trouble) => Err(trouble),
    }
}

/// Adds an entry, whose bytes before its gate these are.
pub fn add_to_file<D: Disk>(disk: &mut D, at: u64, block: &[u8]) -> Result<(), Trouble>
    requires size { length block.now ≡ 63 }
    requires high { at < 2 ^ 63 }
    requires room { IsTrue (D.tells disk.old) → at + 64 ≤ length ((D.state disk.old).files 1).reads }
    ensures cause { HasCause (D.fault_count disk.old) (D.fault_count disk.new) result }
    ensures tells { D.tells disk.new ≡ D.tells disk.old }
    ensures honest { D.is_honest disk.new ≡ D.is_honest disk.old }
    ensures others { IsTrue (D.tells disk.old) → OthersStay 1 (D.state disk.old).files (D.state disk.new).files }
    ensures done { IsTrue (D.tells disk.old) → OnOk result (ChangesFile 1 (D.state disk.old).files (D.state disk.new).files (settled_file (added at block.now ((D.state disk.old).files 1).reads))) }
    ensures each { IsTrue (D.is_honest disk.old) → (before : List RecEntry) (entry : RecEntry) → IsAddition at block.now before entry → EveryImage 1 (Holds before) (D.state disk.old).files (D.state disk.old).files
        → EveryImage 1 (HoldsOne before (before ++ entry ∷ [])) (D.state disk.old).files (D.state disk.new).files }
    ensures cut_well { IsTrue (D.is_honest disk.old) → (before : List RecEntry) (entry : RecEntry) → IsAddition at block.now before entry → EveryImage 1 (Holds before) (D.state disk.old).files (D.state disk.old).files
        → LeavesOnly D.moment D.left_since disk.old disk.new (FileIs 1 (HoldsOne before (before ++ entry ∷ [])) (D.state disk.old).files) }
    ensures fuse { IsTrue (D.is_honest disk.old) → (before : List RecEntry) (entry : RecEntry) → IsAddition at block.now before entry → EveryImage 1 (Holds before) (D.state disk.old).files (D.state disk.old).files
        → FuseEnds 5 Trouble.Failed (AddLeft before (before ++ entry ∷ [])) (D.state disk.old) (D.state disk.new) result }
{
    match stage(disk, at, block) {
        Ok(()) => write_through(disk, FILE, at + 63, &[OPEN]),
        Err(trouble) => Err(trouble),
    }
}

/// Makes an entry invalid, by the highest byte of its kind.
pub fn strike<D: Disk>(disk: &mut D, at: u64) -> Result<(), Trouble>
    requires { IsTrue (D.tells disk.old) → at < length ((D.state disk.old).files 1).reads }
    ensures cause { HasCause (D.fault_count disk.old) (D.fault_count disk.new) result }
    ensures tells { D.tells disk.new ≡ D.tells disk.old }
    ensures honest { D.is_honest disk.new ≡ D.is_honest disk.old }
    ensures others { IsTrue (D.tells disk.old) → OthersStay 1 (D.state disk.old).files (D.state disk.new).files }
    ensures done { IsTrue (D.tells disk.old) → OnOk result (ChangesFile 1 (D.state disk.old).files (D.state disk.new).files (settled_file (overwritten at (128 ∷ []) ((D.state disk.old).files 1).reads))) }
    ensures each { IsTrue (D.is_honest disk.old) → (entries : List RecEntry) (i : ℕ) (e : RecEntry) → IsStrike at i e entries → EveryImage 1 (Holds entries) (D.state disk.old).files (D.state disk.old).files
        → EveryImage 1 (StandsOne (valid_of entries) (valid_of (struck i e entries))) (D.state disk.old).files (D.state disk.new).files }
    ensures cut_well { IsTrue (D.is_honest disk.old) → (entries : List RecEntry) (i : ℕ) (e : RecEntry) → IsStrike at i e entries → EveryImage 1 (Holds entries) (D.state disk.old).files (D.state disk.old).files
        → LeavesOnly D.moment D.left_since disk.old disk.new (FileIs 1 (StandsOne (valid_of entries) (valid_of (struck i e entries))) (D.state disk.old).files) }
    ensures fuse { IsTrue (D.is_honest disk.old) → (entries : List RecEntry) (i : ℕ) (e : RecEntry) → IsStrike at i e entries → EveryImage 1 (Holds entries) (D.state disk.old).files (D.state disk.old).files
        → FuseEnds 2 Trouble.Failed (StrikeLeft entries (struck i e entries)) (D.state disk.old) (D.state disk.new) result }
{
    write_through(disk, FILE, at, &[STRUCK])
}
