// The pieces of a snapshot as they are read back.
ghost use Rattle.std.specs.Prelude.{◌≡◌, ◌<◌, ◌≤◌, ◌^◌, ℕ, List as ListOf, length, unwrap_or, Some, Ok, IfOk, IfErr, slice_get};
ghost use Rattle.module_state.specs.Module.{Module};
ghost use Rattle.module_state.specs.Restored.{restored};
ghost use Rattle.service_api.specs.declared.shipped.Shipped.{Shipped as ShippedState};
ghost use Rattle.service_api.specs.Shipped.{restored_of};
ghost use Rattle.sbe_local.specs.Pieces.{piece_spelling_of};
ghost use Rattle.service_container.specs.Held.{begun};
ghost use Rattle.snapshot_pieces.specs.Pieces.{IsOrigin, between, service_pieces_of};
ghost use Rattle.snapshot_pieces.specs.Restored.{IsModuleOf, IsServiceOf, NamesFile};

use crate::source::{Source, piece_at, place_of};
use cl_base::{Bytes, MemberFault};
use module_state::ModuleState;
use sbe_local::{Mark, Piece, decode_piece};
use service_api::Kind;
use service_container::Container;
use std::alloc::Global;
use wire_prims::{DecodeFault, read_header};

/// Where a service's bytes begin, from its piece's length field on: behind that field, the header and the length.
const STATE_BYTES: u64 = 16;

/// The template of a marker.
const MARKER: u16 = 100;

/// The bytes of the state that the second piece has.
#[tactic(auto, using(crate::proofs::Again::state_read))]
fn state_at(alloc: Global, source: &Source, pieces: &[Bytes]) -> Result<Bytes, MemberFault>
    ensures state { IfOk result (λ b. slice_get pieces.now 1 ≡ Some (piece_spelling_of (Piece.ServiceState b))) }
    // What was written there is read again, unless memory runs out.
    ensures same { (b : ListOf ℕ) → length b < 2 ^ 31 → slice_get pieces.now 1 ≡ Some (piece_spelling_of (Piece.ServiceState b)) → IfOk result (λ v. v ≡ b) }
    ensures undamaged { (b : ListOf ℕ) → length b < 2 ^ 31 → slice_get pieces.now 1 ≡ Some (piece_spelling_of (Piece.ServiceState b)) → IfErr result (λ e. e ≡ MemberFault.NoMemory) }
    ensures file { IfErr result (NamesFile source.now.file) }
{
    let Some(piece) = piece_at(pieces, 1) else {
        return Err(source.damaged(place_of(pieces, 1)));
    };
    match decode_piece(alloc, piece.as_slice()) {
        Ok(Piece::ServiceState { bytes }) => Ok(bytes),
        Err(DecodeFault::NoMemory) => Err(MemberFault::NoMemory),
        _ => Err(source.damaged(place_of(pieces, 1))),
    }
}

/// The service of this kind that its snapshot is of, which goes on behind the snapshot's entry. Damaged names the first
/// wrong place of the file: a piece that isn't the one that must come, at its length field; one that is missing, at the
/// file's end; bytes that the service refuses, at their first. The pieces are those of the file, each of its form.
#[tactic(auto, using(crate::proofs::Again::first_is, crate::proofs::Again::second_is, crate::proofs::Again::third_is, crate::proofs::Again::three_are))]
pub fn restore_service(
    alloc: Global,
    kind: Kind,
    service: u8,
    source: &Source,
    pieces: &[Bytes],
) -> Result<Container, MemberFault>
    requires { IsOrigin source.now.origin }
    ensures begun { IfOk result (λ c. c ≡ begun service (unwrap_or source.now.entries 0) c.state) }
    ensures restored { IfOk result (λ c. IsServiceOf kind source.now.origin pieces.now c.state) }
    // What was written of a service is read again as the state that its records restore, unless memory runs out.
    ensures same { (records : ListOf ℕ) (s : ShippedState) → length records < 2 ^ 31 → pieces.now ≡ service_pieces_of source.now.origin records → restored_of kind records ≡ Ok s → IfOk result (λ c. c.state ≡ s) }
    ensures undamaged { (records : ListOf ℕ) (s : ShippedState) → length records < 2 ^ 31 → pieces.now ≡ service_pieces_of source.now.origin records → restored_of kind records ≡ Ok s → IfErr result (λ e. e ≡ MemberFault.NoMemory) }
    ensures file { IfErr result (NamesFile source.now.file) }
{
    source.expect_marker(alloc, Mark::Begin, pieces, 0)?;
    let bytes = state_at(alloc, source, pieces)?;
    let base = source.entries.unwrap_or(0);
    let container = match Container::from_snapshot(alloc, kind, service, base, bytes.as_slice()) {
        Ok(container) => container,
        Err(DecodeFault::NoMemory) => return Err(MemberFault::NoMemory),
        Err(DecodeFault::Bad(_)) => {
            return Err(source.damaged(place_of(pieces, 1).saturating_add(STATE_BYTES)));
        }
    };
    source.expect_marker(alloc, Mark::End, pieces, 2)?;
    source.expect_end(pieces, 3)?;
    Ok(container)
}

/// How many pieces stand before the first marker behind the first piece.
fn count_to_marker(pieces: &[Bytes]) -> usize
    ensures within { result ≤ length pieces.now }
    ensures front { 0 < length pieces.now → 0 < result }
{
    for at in 1..pieces.len() {
        if let Ok(header) = read_header(pieces[at].as_slice())
            && header.template == MARKER
        {
            return at;
        }
    }
    pieces.len()
}

/// Whether the second piece counts as many entries as the log has up to the snapshot's place.
fn counts_entries(alloc: Global, source: &Source, pieces: &[Bytes]) -> Result<bool, MemberFault>
    ensures { IfErr result (NamesFile source.now.file) }
{
    let Some(piece) = pieces.get(1) else {
        return Ok(false);
    };
    match decode_piece(alloc, piece.as_slice()) {
        Ok(Piece::Module { entries, .. }) => Ok(source.entries == Some(entries.unsigned_abs())),
        Err(DecodeFault::NoMemory) => Err(MemberFault::NoMemory),
        _ => Ok(false),
    }
}

/// The module that its snapshot is of. Damaged names the first wrong place of the file, as for a service; the entries
/// that the module counts must be those of the log up to the snapshot's place, at which an entry must end.
pub fn restore_module(
    alloc: Global,
    services: u8,
    source: &Source,
    pieces: &[Bytes],
) -> Result<ModuleState, MemberFault>
    requires origin { IsOrigin source.now.origin }
    requires services { services ≤ 3 }
    ensures restored { IfOk result (λ m. IsModuleOf services source.now.origin pieces.now m) }
    // What was written of the module is read again as the state that its records restore.
    ensures same { (records : ListOf (ListOf ℕ)) (m : Module) → pieces.now ≡ between source.now.origin records → restored services records ≡ Ok m → IfOk result (λ n. n ≡ m) }
    ensures file { IfErr result (NamesFile source.now.file) }
{
    source.expect_marker(alloc, Mark::Begin, pieces, 0)?;
    if !counts_entries(alloc, source, pieces)? {
        return Err(source.damaged(place_of(pieces, 1)));
    }
    let end = count_to_marker(pieces);
    let module = match ModuleState::from_records(alloc, services, &pieces[1..end]) {
        Ok(module) => module,
        Err(DecodeFault::NoMemory) => return Err(MemberFault::NoMemory),
        Err(DecodeFault::Bad(bad)) => {
            return Err(source.damaged(place_of(pieces, 1).saturating_add(bad.place)));
        }
    };
    source.expect_marker(alloc, Mark::End, pieces, end)?;
    source.expect_end(pieces, end + 1)?;
    Ok(module)
}
