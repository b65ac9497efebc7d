// The pieces of a snapshot as they are written.
ghost use Rattle.std.specs.Prelude.{◌≡◌, ◌<◌, ◌^◌, IfOk, length};
ghost use Rattle.snapshot_pieces.specs.Pieces.{IsOrigin, marker_of, between, service_pieces_of};

use crate::origin::Origin;
use cl_base::{Bytes, List, NoMemory};
use sbe_local::{Mark, Piece, encode_piece};
use std::alloc::Global;

/// The marker at one end of a snapshot.
pub fn marker(alloc: Global, origin: &Origin, mark: Mark) -> Result<Bytes, NoMemory>
    requires { IsOrigin origin.now }
    ensures { IfOk result (λ b. b ≡ marker_of origin.now mark) }
{
    let marker = Piece::Marker {
        service: origin.service as i64,
        position: origin.position as i64,
        term: origin.term,
        mark,
    };
    encode_piece(alloc, &marker)
}

/// The pieces of a service's snapshot, with its records.
pub fn service_pieces(
    alloc: Global,
    origin: &Origin,
    records: &Bytes,
) -> Result<List<Bytes>, NoMemory>
    requires origin { IsOrigin origin.now }
    requires short { length records.now < 2 ^ 31 }
    ensures { IfOk result (λ ps. ps ≡ service_pieces_of origin.now records.now) }
{
    let state = Piece::ServiceState {
        bytes: records.copy()?,
    };
    let mut pieces = List::new(alloc);
    pieces.push(marker(alloc, origin, Mark::Begin)?)?;
    pieces.push(encode_piece(alloc, &state)?)?;
    pieces.push(marker(alloc, origin, Mark::End)?)?;
    Ok(pieces)
}

/// The pieces of the module's snapshot, with its records.
pub fn module_pieces(
    alloc: Global,
    origin: &Origin,
    records: List<Bytes>,
) -> Result<List<Bytes>, NoMemory>
    requires { IsOrigin origin.now }
    ensures { IfOk result (λ ps. ps ≡ between origin.now records) }
{
    let mut pieces = List::new(alloc);
    pieces.push(marker(alloc, origin, Mark::Begin)?)?;
    for piece in records.into_vec() {
        pieces.push(piece)?;
    }
    pieces.push(marker(alloc, origin, Mark::End)?)?;
    Ok(pieces)
}
