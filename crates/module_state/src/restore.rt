// Records read as pieces, and what is first wrong with them.
ghost use Rattle.std.specs.Prelude.{◌≡◌, ◌≤◌, IfOk, length};
ghost use Rattle.std.specs.List.{AllByRecursion};
ghost use Rattle.sbe_local.specs.Pieces.{HasPieceSpelling};
ghost use Rattle.module_state.specs.Restored.{IsReadAs, front_pieces, front_fault, bytes_before, capped, first_wrong};

use cl_base::{Bytes, NoMemory};
use sbe_local::{Piece, decode_piece};
use std::alloc::Global;
use std::collections::VecDeque;
use wire_prims::{Bad, BadCause, DecodeFault};

/// The pieces that records spell up to the first record that spells none, and the fault of that one.
#[derive(Drop)]
pub struct Front {
    pub pieces: VecDeque<Piece>,
    pub fault: Option<Bad>,
}

// Reads one record.
fn read(alloc: Global, record: &[u8]) -> Result<Result<Piece, Bad>, NoMemory>
    ensures { IfOk result (λ r. IsReadAs record.now r) }
{
    match decode_piece(alloc, record) {
        Ok(piece) => Ok(Ok(piece)),
        Err(fault) => match fault {
            DecodeFault::Bad(bad) => Ok(Err(bad)),
            DecodeFault::NoMemory => Err(NoMemory),
        },
    }
}

/// Reads records as pieces, up to the first that spells none.
pub fn read_front(alloc: Global, records: &[Bytes]) -> Result<Front, NoMemory>
    ensures pieces { IfOk result (λ f. f.pieces.items ≡ front_pieces records.now) }
    ensures fault { IfOk result (λ f. f.fault ≡ front_fault records.now) }
    ensures spelled { IfOk result (λ f. AllByRecursion HasPieceSpelling f.pieces.items) }
{
    let mut pieces = VecDeque::new(alloc);
    for record in records.iter() {
        match read(alloc, record.as_slice())? {
            Ok(piece) => match pieces.push_back(piece) {
                Ok(()) => {}
                Err(_) => return Err(NoMemory),
            },
            Err(bad) => {
                return Ok(Front {
                    pieces,
                    fault: Some(bad),
                });
            }
        }
    }
    Ok(Front {
        pieces,
        fault: None,
    })
}

// How many bytes so many records in front take, each with its length of four bytes. The number stops at 2^64 - 1.
fn bytes_before(records: &[Bytes], count: usize) -> u64
    ensures { result ≡ capped (bytes_before count records.now) }
{
    let mut sum: u64 = 0;
    let mut left = count;
    for record in records.iter() {
        if left == 0 {
            return sum;
        }
        left -= 1;
        sum = sum.saturating_add(4).saturating_add(record.len() as u64);
    }
    sum
}

/// What is first wrong with records of which so many in front spell pieces, the last of these so many weren't taken, and
/// the one behind them has this fault: the first piece that wasn't taken, else the fault, else that a piece is missing.
pub fn first_wrong(records: &[Bytes], known: usize, left: usize, fault: Option<Bad>) -> Bad
    ensures { result ≡ first_wrong records.now known left fault }
{
    if left > 0 {
        return Bad {
            place: bytes_before(records, known.saturating_sub(left)),
            cause: BadCause::Value,
        };
    }
    let place = bytes_before(records, known);
    match fault {
        Some(bad) => Bad {
            place: place.saturating_add(4).saturating_add(bad.place),
            cause: bad.cause,
        },
        None => Bad {
            place,
            cause: BadCause::Short,
        },
    }
}
