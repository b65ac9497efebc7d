// Bytes from packets.
ghost use Rattle.std.specs.Prelude.{◌≡◌, ◌<◌, ◌^◌, ◌++◌, All, Some, OnOk, IfOk, length};
ghost use Rattle.wire_prims.specs.Strict.{block_size, message};
ghost use Rattle.snapshot_store.specs.Snapshots.{spelled as each_counted};
ghost use Rattle.cluster_backup.specs.Spelling.{HasSpelling, spelling_of, packet_of};
ghost use Rattle.cluster_backup.specs.declared.packet.BackupPacket.{BackupPacket};

use crate::packet::BackupPacket;
use cl_base::{Bytes, NoMemory};
use std::alloc::Global;
use wire_prims::{Field, message_of, put_counted};

fn put_parts(out: &mut Vec<u8>, parts: &[Bytes]) -> Result<(), NoMemory>
    requires { All (λ p. length p < 2 ^ 32) parts.now }
    ensures { OnOk result (out.new.items ≡ out.old.items ++ each_counted parts.now) }
{
    for part in parts {
        put_counted(out, part.as_slice())?;
    }
    Ok(())
}

/// A packet with its parts behind its block.
fn with_parts(
    alloc: Global,
    template: u16,
    fields: &[Field],
    parts: &[Bytes],
) -> Result<Bytes, NoMemory>
    requires size { block_size fields.now < 2 ^ 16 }
    requires parts { All (λ p. length p < 2 ^ 32) parts.now }
    ensures { IfOk result (λ b. b ≡ message template fields.now ++ each_counted parts.now) }
{
    let mut out = message_of(alloc, template, fields)?;
    put_parts(&mut out, parts)?;
    Ok(Bytes::from_vec(out))
}

/// The one spelling of a packet.
pub fn encode_backup(alloc: Global, p: &BackupPacket) -> Result<Bytes, NoMemory>
    requires { HasSpelling p.now }
    ensures spelled { IfOk result (λ b. b ≡ spelling_of p.now) }
    ensures read_again { packet_of (spelling_of p.now) ≡ Some p.now }
    // No other packet has this spelling.
    ensures alone { (other : BackupPacket) → HasSpelling other → spelling_of other ≡ spelling_of p.now → other ≡ p.now }
{
    spelled(alloc, p)
}

fn spelled(alloc: Global, p: &BackupPacket) -> Result<Bytes, NoMemory>
    requires { HasSpelling p.now }
    ensures { IfOk result (λ b. b ≡ spelling_of p.now) }
{
    match p {
        BackupPacket::Query { entries, position } => with_parts(
            alloc,
            56,
            &[Field::I64(*entries), Field::I64(*position)],
            &[],
        ),
        BackupPacket::Log { start, events } => with_parts(
            alloc,
            57,
            &[Field::I64(*start), Field::I32(events.len() as i32)],
            events.as_slice(),
        ),
        BackupPacket::Snapshot {
            recording,
            term,
            position,
            stamp,
            service,
            pieces,
        } => with_parts(
            alloc,
            58,
            &[
                Field::I64(*recording),
                Field::I64(*term),
                Field::I64(*position),
                Field::I64(*stamp),
                Field::I32(*service),
                Field::I32(pieces.len() as i32),
            ],
            pieces.as_slice(),
        ),
    }
}
