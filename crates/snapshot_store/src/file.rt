// The file of a snapshot.
ghost use Rattle.std.specs.Prelude.{◌≡◌, ◌≢◌, ℕ, ◌+◌, ◌-◌, ◌<◌, ◌≤◌, ◌^◌, All, length, take, drop, IsTrue, IfOk, OnOk, Err};
ghost use Rattle.cl_base.specs.Faults.{HasDeviceCause, HasMountCause};
ghost use Rattle.cl_base.specs.Disk.{ChangesFile, OthersStay, LeavesOnly, IsImageOf, settled_file};
ghost use Rattle.cl_base.specs.Every.{FileIs};
ghost use Rattle.cl_base.specs.Fuse.{FuseEnds};
ghost use Rattle.cl_base.specs.Looks.{Looks};
ghost use Rattle.wire_prims.specs.Fields.{le32, u32_at};
ghost use Rattle.wire_prims.specs.Strict.{counted};
ghost use Rattle.snapshot_store.specs.Snapshots.{spelled, IsPiece, ArePieces, IsWrongPiece, IsWrongAt};

use crate::strict::piece_fault;
use cl_base::{Bytes, Disk, List, MemberFault, NoMemory, read_some, write_whole};
use std::alloc::Global;
use wire_prims::{get_u32, put_counted};

/// The file of the snapshot of recording 0.
const FIRST_FILE: u32 = 258;

/// Recordings of snapshots are numbered below this.
pub const RECORDINGS: u64 = 1_024;

/// The bytes before each piece: its length.
const LENGTH_BYTES: u64 = 4;

fn file_of(recording: u64) -> u32
    requires { recording < 1024 }
    ensures { result ≡ 258 + recording }
{
    FIRST_FILE + recording as u32
}

/// The bytes of the file of these pieces.
fn spell(alloc: Global, pieces: &[Bytes]) -> Result<Vec<u8>, NoMemory>
    requires { All (λ p. length p < 2 ^ 32) pieces.now }
    ensures { IfOk result (λ v. v.items ≡ spelled pieces.now) }
{
    let mut out = Vec::new(alloc);
    for piece in pieces {
        put_counted(&mut out, piece.as_slice())?;
    }
    Ok(out)
}

/// Makes these pieces the snapshot of a recording, 0 to 1,023: the file is written from its beginning, cut to its
/// length, and synced. Each piece is a strict one of fewer than 2^32 bytes.
pub fn write<D: Disk>(
    alloc: Global,
    disk: &mut D,
    recording: u64,
    pieces: &[Bytes],
) -> Result<(), MemberFault>
    requires recording { recording < 1024 }
    requires pieces { All (λ p. length p < 2 ^ 32) pieces.now }
    ensures cause { HasDeviceCause (D.fault_count disk.old) (D.fault_count disk.new) result }
    ensures tells { D.tells disk.new ≡ D.tells disk.old }
    ensures honest { D.is_honest disk.new ≡ D.is_honest disk.old }
    ensures others { IsTrue (D.tells disk.old) → OthersStay (258 + recording) (D.state disk.old).files (D.state disk.new).files }
    ensures done { IsTrue (D.tells disk.old) → OnOk result ((D.state disk.new).files (258 + recording) ≡ settled_file (spelled pieces.now)) }

    // At any moment of the call the file may be anything, and each other one is as a crash could leave it before.
    ensures any_moment { IsTrue (D.is_honest disk.old) → LeavesOnly D.moment D.left_since disk.old disk.new (FileIs (258 + recording) (λ _. Unit {0}) (D.state disk.old).files) }
    ensures fuse { IsTrue (D.tells disk.old) → FuseEnds 3 MemberFault.Device (λ _ _. Unit {0}) (D.state disk.old) (D.state disk.new) result }
{
    let Ok(bytes) = spell(alloc, pieces) else {
        return Err(MemberFault::NoMemory);
    };
    match write_whole(disk, file_of(recording), &bytes) {
        Ok(()) => Ok(()),
        Err(trouble) => Err(MemberFault::from(trouble)),
    }
}

/// Reads the pieces of the snapshot of a recording, 0 to 1,023. Damaged is at the first wrong byte: the file's end where
/// a length or a piece isn't all there, and else where a piece isn't strict.
pub fn read<D: Disk>(
    alloc: Global,
    disk: &mut D,
    recording: u64,
) -> Result<List<Bytes>, MemberFault>
    requires { recording < 1024 }
    ensures cause { HasMountCause (D.fault_count disk.old) (D.fault_count disk.new) result }
    ensures tells { D.tells disk.new ≡ D.tells disk.old }
    ensures honest { D.is_honest disk.new ≡ D.is_honest disk.old }
    ensures strict { IfOk result ArePieces }
    ensures gives { IsTrue (D.tells disk.old) → IfOk result (λ pieces. spelled pieces ≡ ((D.state disk.old).files (258 + recording)).reads) }
    ensures damaged { IsTrue (D.tells disk.old) → (file place : ℕ) → result ≡ Err (MemberFault.Damaged file place) → (file ≡ 258 + recording) × IsWrongAt ((D.state disk.old).files (258 + recording)).reads place }
    ensures looks { IsTrue (D.tells disk.old) → Looks MemberFault.Device (D.state disk.old) (D.state disk.new) result }
    ensures any_moment { IsTrue (D.is_honest disk.old) → LeavesOnly D.moment D.left_since disk.old disk.new (IsImageOf (D.state disk.old).files) }
{
    let file = file_of(recording);
    let end = length_of(disk, file)?;
    let mut pieces = List::new(alloc);
    let mut at = 0;
    while at < end {
        let piece = read_piece(alloc, disk, file, at, end)?;
        at += LENGTH_BYTES + piece.len() as u64;
        let Ok(()) = pieces.push(piece) else {
            return Err(MemberFault::NoMemory);
        };
    }
    Ok(pieces)
}

fn length_of<D: Disk>(disk: &mut D, file: u32) -> Result<u64, MemberFault>
    ensures cause { HasMountCause (D.fault_count disk.old) (D.fault_count disk.new) result }
    ensures tells { D.tells disk.new ≡ D.tells disk.old }
    ensures honest { D.is_honest disk.new ≡ D.is_honest disk.old }
    ensures gives { IsTrue (D.tells disk.old) → IfOk result (λ len. len ≡ length ((D.state disk.old).files file).reads) }
    ensures damaged { (damaged place : ℕ) → result ≢ Err (MemberFault.Damaged damaged place) }
    ensures looks { IsTrue (D.tells disk.old) → Looks MemberFault.Device (D.state disk.old) (D.state disk.new) result }
    ensures any_moment { IsTrue (D.is_honest disk.old) → LeavesOnly D.moment D.left_since disk.old disk.new (IsImageOf (D.state disk.old).files) }
{
    match disk.len(file) {
        Ok(len) => Ok(len),
        Err(trouble) => Err(MemberFault::from(trouble)),
    }
}

/// Reads bytes of a file, all of those that the buffer has room for.
fn read_all<D: Disk>(disk: &mut D, file: u32, at: u64, buf: &mut [u8]) -> Result<(), MemberFault>
    requires high { at + length buf.old < 2 ^ 64 }
    ensures cause { HasMountCause (D.fault_count disk.old) (D.fault_count disk.new) result }
    ensures tells { D.tells disk.new ≡ D.tells disk.old }
    ensures honest { D.is_honest disk.new ≡ D.is_honest disk.old }
    ensures gives { IsTrue (D.tells disk.old) → OnOk result (buf.new ≡ take (length buf.old) (drop at ((D.state disk.old).files file).reads)) }
    ensures damaged { IsTrue (D.tells disk.old) → (damaged place : ℕ) → result ≡ Err (MemberFault.Damaged damaged place) → length ((D.state disk.old).files file).reads < at + length buf.old }
    ensures looks { IsTrue (D.tells disk.old) → Looks MemberFault.Device (D.state disk.old) (D.state disk.new) result }
    ensures any_moment { IsTrue (D.is_honest disk.old) → LeavesOnly D.moment D.left_since disk.old disk.new (IsImageOf (D.state disk.old).files) }
{
    match read_some(disk, file, at, buf) {
        Ok(count) => {
            if count < buf.len() {
                return Err(MemberFault::Damaged {
                    file,
                    place: at + count as u64,
                });
            }
            Ok(())
        }
        Err(trouble) => Err(MemberFault::from(trouble)),
    }
}

/// The number that four bytes spell.
fn number_of(bytes: &[u8]) -> u32
    requires { length bytes.now ≡ 4 }
    ensures value { result ≡ u32_at 0 bytes.now }
    ensures spells { le32 result ≡ bytes.now }
{
    get_u32(bytes, 0)
}

/// Reads the length that stands at a place of a file.
fn read_length<D: Disk>(disk: &mut D, file: u32, at: u64) -> Result<u32, MemberFault>
    requires high { at + 4 < 2 ^ 64 }
    ensures cause { HasMountCause (D.fault_count disk.old) (D.fault_count disk.new) result }
    ensures tells { D.tells disk.new ≡ D.tells disk.old }
    ensures honest { D.is_honest disk.new ≡ D.is_honest disk.old }
    ensures gives { IsTrue (D.tells disk.old) → IfOk result (λ n. (le32 n ≡ take 4 (drop at ((D.state disk.old).files file).reads)) × (n ≡ u32_at at ((D.state disk.old).files file).reads)) }
    ensures damaged { IsTrue (D.tells disk.old) → (damaged place : ℕ) → result ≡ Err (MemberFault.Damaged damaged place) → length ((D.state disk.old).files file).reads < at + 4 }
    ensures looks { IsTrue (D.tells disk.old) → Looks MemberFault.Device (D.state disk.old) (D.state disk.new) result }
    ensures any_moment { IsTrue (D.is_honest disk.old) → LeavesOnly D.moment D.left_since disk.old disk.new (IsImageOf (D.state disk.old).files) }
{
    let mut length = [0; 4];
    match read_all(disk, file, at, &mut length) {
        Ok(()) => Ok(number_of(&length)),
        Err(fault) => Err(fault),
    }
}

/// Reads so many bytes of a file.
fn read_bytes<D: Disk>(
    alloc: Global,
    disk: &mut D,
    file: u32,
    at: u64,
    count: usize,
) -> Result<Vec<u8>, MemberFault>
    requires high { at + count < 2 ^ 64 }
    ensures cause { HasMountCause (D.fault_count disk.old) (D.fault_count disk.new) result }
    ensures tells { D.tells disk.new ≡ D.tells disk.old }
    ensures honest { D.is_honest disk.new ≡ D.is_honest disk.old }
    ensures count { IfOk result (λ v. length v.items ≡ count) }
    ensures gives { IsTrue (D.tells disk.old) → IfOk result (λ v. v.items ≡ take count (drop at ((D.state disk.old).files file).reads)) }
    ensures damaged { IsTrue (D.tells disk.old) → (damaged place : ℕ) → result ≡ Err (MemberFault.Damaged damaged place) → length ((D.state disk.old).files file).reads < at + count }
    ensures looks { IsTrue (D.tells disk.old) → Looks MemberFault.Device (D.state disk.old) (D.state disk.new) result }
    ensures any_moment { IsTrue (D.is_honest disk.old) → LeavesOnly D.moment D.left_since disk.old disk.new (IsImageOf (D.state disk.old).files) }
{
    let Ok(mut bytes) = vec![in alloc; 0; count] else {
        return Err(MemberFault::NoMemory);
    };
    match read_all(disk, file, at, &mut bytes) {
        Ok(()) => Ok(bytes),
        Err(fault) => Err(fault),
    }
}

/// Reads the piece whose length stands at a place of a file that ends at another place.
fn read_piece<D: Disk>(
    alloc: Global,
    disk: &mut D,
    file: u32,
    at: u64,
    end: u64,
) -> Result<Bytes, MemberFault>
    requires before { at < end }
    requires end { IsTrue (D.tells disk.old) → end ≡ length ((D.state disk.old).files file).reads }
    ensures cause { HasMountCause (D.fault_count disk.old) (D.fault_count disk.new) result }
    ensures tells { D.tells disk.new ≡ D.tells disk.old }
    ensures honest { D.is_honest disk.new ≡ D.is_honest disk.old }
    ensures within { IfOk result (λ p. at + 4 + length p ≤ end) }
    ensures strict { IfOk result IsPiece }
    ensures gives { IsTrue (D.tells disk.old) → IfOk result (λ p. take (4 + length p) (drop at ((D.state disk.old).files file).reads) ≡ counted p) }
    ensures damaged { IsTrue (D.tells disk.old) → (damaged place : ℕ) → result ≡ Err (MemberFault.Damaged damaged place) → (damaged ≡ file) × IsWrongPiece at ((D.state disk.old).files file).reads place }
    ensures looks { IsTrue (D.tells disk.old) → Looks MemberFault.Device (D.state disk.old) (D.state disk.new) result }
    ensures any_moment { IsTrue (D.is_honest disk.old) → LeavesOnly D.moment D.left_since disk.old disk.new (IsImageOf (D.state disk.old).files) }
{
    if end - at < LENGTH_BYTES {
        return Err(MemberFault::Damaged { file, place: end });
    }
    let size = read_length(disk, file, at)?;
    if end - at - LENGTH_BYTES < u64::from(size) {
        return Err(MemberFault::Damaged { file, place: end });
    }
    let bytes = read_bytes(alloc, disk, file, at + LENGTH_BYTES, size as usize)?;
    match piece_fault(&bytes) {
        Some(bad) => Err(MemberFault::Damaged {
            file,
            place: at + LENGTH_BYTES + bad.place,
        }),
        None => Ok(Bytes::from_vec(bytes)),
    }
}
