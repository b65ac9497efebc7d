// Messages as bytes.
ghost use Rattle.std.specs.Prelude.{◌≡◌, ◌<◌, ◌^◌, ◌++◌, [], OnOk, IfOk, length};
ghost use Rattle.wire_prims.specs.Fields.{le16};
ghost use Rattle.wire_prims.specs.Strict.{field_bytes, field_size, block_bytes, block_size, message, counted};

use crate::SCHEMA;
use crate::strict::Field;
use cl_base::{Bytes, NoMemory};
use std::alloc::{AllocError, Global};

impl Field {
    /// Puts the number behind the bytes. Where there is no memory, what the bytes are is left open.
    #[tactic(auto, unfolding(crate::specs::Fields::signed32, crate::specs::Fields::signed64, crate::specs::Fields::le32, crate::specs::Fields::le64))]
    fn write(self, out: &mut Vec<u8>) -> Result<(), AllocError>
        ensures { OnOk result (out.new.items ≡ out.old.items ++ field_bytes self) }
    {
        match self {
            Field::I64(value) => out.extend_from_slice(&value.to_le_bytes()),
            Field::I32(value) => out.extend_from_slice(&value.to_le_bytes()),
        }
    }

    /// How many bytes the number has.
    fn size(self) -> usize
        ensures { result ≡ field_size self }
    {
        match self {
            Field::I64(_) => 8,
            Field::I32(_) => 4,
        }
    }
}

/// Puts bytes with their number before them, in four bytes.
#[tactic(auto, unfolding(crate::specs::Fields::le32))]
pub fn put_counted(out: &mut Vec<u8>, bytes: &[u8]) -> Result<(), NoMemory>
    requires { length bytes.now < 2 ^ 32 }
    ensures { OnOk result (out.new.items ≡ out.old.items ++ counted bytes.now) }
{
    out.extend_from_slice(&(bytes.len() as u32).to_le_bytes())?;
    out.extend_from_slice(bytes)?;
    Ok(())
}

fn block_len(fields: &[Field]) -> usize
    requires { block_size fields.now < 2 ^ 16 }
    ensures { result ≡ block_size fields.now }
{
    let mut size = 0;
    for field in fields {
        size += field.size();
    }
    size
}

#[tactic(auto, unfolding(crate::specs::Fields::le16))]
fn put_header(out: &mut Vec<u8>, block: u16, template: u16) -> Result<(), AllocError>
    ensures { OnOk result (out.new.items ≡ out.old.items ++ (le16 block ++ (le16 template ++ (le16 111 ++ le16 0)))) }
{
    out.extend_from_slice(&block.to_le_bytes())?;
    out.extend_from_slice(&template.to_le_bytes())?;
    out.extend_from_slice(&SCHEMA.to_le_bytes())?;
    out.extend_from_slice(&0u16.to_le_bytes())?;
    Ok(())
}

fn put_block(out: &mut Vec<u8>, fields: &[Field]) -> Result<(), AllocError>
    ensures { OnOk result (out.new.items ≡ out.old.items ++ block_bytes fields.now) }
{
    for field in fields {
        field.write(out)?;
    }
    Ok(())
}

/// A message's header and block. What follows the block is put behind it.
#[tactic(auto, unfolding(crate::specs::Strict::message))]
pub fn message_of(alloc: Global, template: u16, fields: &[Field]) -> Result<Vec<u8>, NoMemory>
    requires { block_size fields.now < 2 ^ 16 }
    ensures { IfOk result (λ v. v.items ≡ message template fields.now) }
{
    let mut out = Vec::new(alloc);
    put_header(&mut out, block_len(fields) as u16, template)?;
    put_block(&mut out, fields)?;
    Ok(out)
}

/// A message with nothing behind its block.
pub fn bare(alloc: Global, template: u16, fields: &[Field]) -> Result<Bytes, NoMemory>
    requires { block_size fields.now < 2 ^ 16 }
    ensures { IfOk result (λ b. b ≡ message template fields.now ++ []) }
{
    let out = message_of(alloc, template, fields)?;
    Ok(Bytes::from_vec(out))
}

/// A message with these bytes behind its block.
pub fn with_rest(
    alloc: Global,
    template: u16,
    fields: &[Field],
    rest: &[u8],
) -> Result<Bytes, NoMemory>
    requires { block_size fields.now < 2 ^ 16 }
    ensures { IfOk result (λ b. b ≡ message template fields.now ++ rest.now) }
{
    let mut out = message_of(alloc, template, fields)?;
    out.extend_from_slice(rest)?;
    Ok(Bytes::from_vec(out))
}

/// A message with these bytes and their number behind its block.
pub fn with_counted(
    alloc: Global,
    template: u16,
    fields: &[Field],
    bytes: &[u8],
) -> Result<Bytes, NoMemory>
    requires size { block_size fields.now < 2 ^ 16 }
    requires count { length bytes.now < 2 ^ 32 }
    ensures { IfOk result (λ b. b ≡ message template fields.now ++ counted bytes.now) }
{
    let mut out = message_of(alloc, template, fields)?;
    put_counted(&mut out, bytes)?;
    Ok(Bytes::from_vec(out))
}
