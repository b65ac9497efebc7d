// What a snapshot's file must be of.
ghost use Rattle.std.specs.Prelude.{◌≡◌, ◌≤◌, true, length, Some, OnOk, IfErr, IsOk, slice_get, option_copied};
ghost use Rattle.cl_base.specs.declared.fault.MemberFault.{MemberFault};
ghost use Rattle.snapshot_pieces.specs.Pieces.{IsOrigin, marker_of};
ghost use Rattle.snapshot_pieces.specs.Restored.{NamesFile};

use crate::origin::Origin;
use crate::write::marker;
use cl_base::{Bytes, MemberFault, NoMemory};
use sbe_local::Mark;
use std::alloc::Global;

/// A snapshot's file that was read, and what it must be of.
#[derive(Clone, Copy, Debug)]
pub struct Source {
    /// The number of the file.
    pub file: u32,
    pub origin: Origin,
    /// How many entries the log has up to the place, None where no entry ends there.
    pub entries: Option<u64>,
}

/// Where a piece's length field stands in a file of these pieces, or the file's length where there is no such piece.
pub fn place_of(pieces: &[Bytes], piece: usize) -> u64 {
    let mut place = 0u64;
    for (at, bytes) in pieces.iter().enumerate() {
        if at < piece {
            place = place.saturating_add(4).saturating_add(bytes.len() as u64);
        }
    }
    place
}

/// The piece of this number.
pub fn piece_at(pieces: &[Bytes], piece: usize) -> Option<&Bytes>
    ensures { option_copied result ≡ slice_get pieces.now piece }
{
    pieces.get(piece)
}

/// Whether the piece of this number has these bytes.
fn is_piece(pieces: &[Bytes], piece: usize, wanted: &[u8]) -> bool
    ensures yes { result ≡ true → slice_get pieces.now piece ≡ Some wanted.now }
    ensures no { slice_get pieces.now piece ≡ Some wanted.now → result ≡ true }
{
    match piece_at(pieces, piece) {
        Some(bytes) => bytes.as_slice() == wanted,
        None => false,
    }
}

impl Source {
    /// The file is first wrong at this place.
    pub fn damaged(&self, place: u64) -> MemberFault
        ensures { result ≡ MemberFault.Damaged self.now.file place }
    {
        MemberFault::Damaged {
            file: self.file,
            place,
        }
    }

    /// The piece of this number is this marker, else it is wrong at its length field.
    pub fn expect_marker(
        &self,
        alloc: Global,
        mark: Mark,
        pieces: &[Bytes],
        piece: usize,
    ) -> Result<(), MemberFault>
        requires { IsOrigin self.now.origin }
        ensures ok { OnOk result (slice_get pieces.now piece ≡ Some (marker_of self.now.origin mark)) }
        ensures err { slice_get pieces.now piece ≡ Some (marker_of self.now.origin mark) → IfErr result (λ e. e ≡ MemberFault.NoMemory) }
        ensures file { IfErr result (NamesFile self.now.file) }
    {
        let wanted = match marker(alloc, &self.origin, mark) {
            Ok(wanted) => wanted,
            Err(NoMemory) => return Err(MemberFault::NoMemory),
        };
        if is_piece(pieces, piece, wanted.as_slice()) {
            Ok(())
        } else {
            Err(self.damaged(place_of(pieces, piece)))
        }
    }

    /// No piece comes any more, else the next is wrong at its length field.
    pub fn expect_end(&self, pieces: &[Bytes], piece: usize) -> Result<(), MemberFault>
        ensures ok { OnOk result (length pieces.now ≤ piece) }
        ensures err { length pieces.now ≤ piece → IsOk result }
        ensures file { IfErr result (NamesFile self.now.file) }
    {
        if piece < pieces.len() {
            Err(self.damaged(place_of(pieces, piece)))
        } else {
            Ok(())
        }
    }
}
