// Numbers in payloads and records, the lowest byte first.
ghost use Rattle.std.specs.Prelude.{◌≡◌, ◌++◌, IfOk, OnOk};
ghost use Rattle.wire_prims.specs.Fields.{le32, le64, signed64};

use cl_base::{Bytes, NoMemory};
use std::alloc::Global;

/// The eight bytes of a number.
#[tactic(auto, unfolding(wire_prims::specs::Fields::le64))]
pub fn spell_u64(alloc: Global, v: u64) -> Result<Bytes, NoMemory>
    ensures { IfOk result (λ b. b ≡ le64 v) }
{
    Bytes::of(alloc, &v.to_le_bytes())
}

/// The eight bytes of a signed number.
#[tactic(auto, unfolding(wire_prims::specs::Fields::signed64))]
pub fn spell_i64(alloc: Global, v: i64) -> Result<Bytes, NoMemory>
    ensures { IfOk result (λ b. b ≡ signed64 v) }
{
    spell_u64(alloc, v.cast_unsigned())
}

/// Puts the eight bytes of a number behind others.
#[tactic(auto, unfolding(wire_prims::specs::Fields::le64))]
pub fn add_u64(bytes: &mut Vec<u8>, v: u64) -> Result<(), NoMemory>
    ensures { OnOk result (bytes.new.items ≡ bytes.old.items ++ le64 v) }
{
    bytes.extend_from_slice(&v.to_le_bytes())?;
    Ok(())
}

/// Puts the eight bytes of a signed number behind others.
#[tactic(auto, unfolding(wire_prims::specs::Fields::signed64))]
pub fn add_i64(bytes: &mut Vec<u8>, v: i64) -> Result<(), NoMemory>
    ensures { OnOk result (bytes.new.items ≡ bytes.old.items ++ signed64 v) }
{
    add_u64(bytes, v.cast_unsigned())
}

/// Puts the four bytes of a number behind others.
#[tactic(auto, unfolding(wire_prims::specs::Fields::le32))]
pub fn add_u32(bytes: &mut Vec<u8>, v: u32) -> Result<(), NoMemory>
    ensures { OnOk result (bytes.new.items ≡ bytes.old.items ++ le32 v) }
{
    bytes.extend_from_slice(&v.to_le_bytes())?;
    Ok(())
}
