// Packets from bytes.
ghost use Rattle.std.specs.Prelude.{◌≡◌, ◌⊎◌, ◌≤◌, IfOk, IfErr, OnOk, Some, Ok, Err, None, length};
ghost use Rattle.wire_prims.specs.declared.fault.Bad.{Bad};
ghost use Rattle.wire_prims.specs.declared.fault.DecodeFault.{DecodeFault};
ghost use Rattle.cluster_backup.specs.Spelling.{HasSpelling, spelling_of, IsFault, first_fault, body_fault, value_of, packet_of};
ghost use Rattle.cluster_backup.specs.Laws.{Sound};
ghost use Rattle.cluster_backup.specs.declared.packet.BackupPacket.{BackupPacket};
ghost use Rattle.cluster_backup.specs.declared.template.Template.TheVariants as templates;

use crate::packet::BackupPacket;
use crate::part::{NUMBER, Part};
use crate::parts::{check_parts, parts_of};
use crate::template::Template;
use cl_base::NoMemory;
use std::alloc::Global;
use wire_prims::{
    Bad, BadCause, DecodeFault, Rule, Tail, get_i32, get_i64, read_header, strict_fault,
};

/// The position of a latest valid set: 0 to 2^62, or -1 where there is none.
const LATEST: Rule = Rule::Wide {
    low: -1,
    high: 1 << 62,
};

/// Finds what is first wrong with bytes whose template is known.
fn check(alloc: Global, template: Template, bytes: &[u8]) -> Result<(), DecodeFault>
    requires { 8 ≤ length bytes.now }
    ensures free { OnOk result (body_fault template bytes.now ≡ None) }
    ensures fault { IfErr result (IsFault (body_fault template bytes.now)) }
{
    match template {
        Template::Query => match strict_fault(bytes, &[NUMBER, LATEST], Tail::Nothing) {
            Some(bad) => Err(DecodeFault::Bad(bad)),
            None => Ok(()),
        },
        Template::Log => check_parts(alloc, bytes, Part::Event),
        Template::Snapshot => check_parts(alloc, bytes, Part::Piece),
    }
}

/// The template of bytes that spell a packet, or what is first wrong with them.
#[tactic(auto, unfolding(crate::specs::Spelling::first_fault), using(crate::specs::Laws::found_sound))]
fn template_in(alloc: Global, bytes: &[u8]) -> Result<Template, DecodeFault>
    ensures sound { IfOk result (λ t. Sound t bytes.now) }
    ensures fault { IfErr result (IsFault (first_fault bytes.now)) }
{
    let header = match read_header(bytes) {
        Ok(header) => header,
        Err(bad) => return Err(DecodeFault::Bad(bad)),
    };
    let Some(template) = Template::of(header.template) else {
        return Err(DecodeFault::Bad(Bad {
            place: 2,
            cause: BadCause::Template,
        }));
    };
    match check(alloc, template, bytes) {
        Ok(()) => Ok(template),
        Err(fault) => Err(fault),
    }
}

fn query_at(bytes: &[u8]) -> BackupPacket
    requires { 24 ≤ length bytes.now }
    ensures { result ≡ value_of templates.Query bytes.now }
{
    BackupPacket::Query {
        entries: get_i64(bytes, 8),
        position: get_i64(bytes, 16),
    }
}

fn log_at(alloc: Global, bytes: &[u8]) -> Result<BackupPacket, NoMemory>
    requires { Sound templates.Log bytes.now }
    ensures { IfOk result (λ p. p ≡ value_of templates.Log bytes.now) }
{
    let events = parts_of(alloc, bytes, Part::Event)?;
    Ok(BackupPacket::Log {
        start: get_i64(bytes, 8),
        events,
    })
}

fn snapshot_at(alloc: Global, bytes: &[u8]) -> Result<BackupPacket, NoMemory>
    requires { Sound templates.Snapshot bytes.now }
    ensures { IfOk result (λ p. p ≡ value_of templates.Snapshot bytes.now) }
{
    let pieces = parts_of(alloc, bytes, Part::Piece)?;
    Ok(BackupPacket::Snapshot {
        recording: get_i64(bytes, 8),
        term: get_i64(bytes, 16),
        position: get_i64(bytes, 24),
        stamp: get_i64(bytes, 32),
        service: get_i32(bytes, 40),
        pieces,
    })
}

/// What stands in bytes without a fault.
fn value_at(alloc: Global, template: Template, bytes: &[u8]) -> Result<BackupPacket, NoMemory>
    requires { Sound template bytes.now }
    ensures { IfOk result (λ p. p ≡ value_of template bytes.now) }
{
    match template {
        Template::Query => Ok(query_at(bytes)),
        Template::Log => log_at(alloc, bytes),
        Template::Snapshot => snapshot_at(alloc, bytes),
    }
}

/// The packet that the bytes spell, all of the bytes. Bad where they spell none, with what is first wrong: a fault
/// inside an event or a piece has its place counted from the packet's first byte.
pub fn decode_backup(alloc: Global, bytes: &[u8]) -> Result<BackupPacket, DecodeFault>
    // What is read has a spelling, which is these bytes.
    ensures spelled { IfOk result (λ p. HasSpelling p × (spelling_of p ≡ bytes.now)) }
    ensures found { IfOk result (λ p. packet_of bytes.now ≡ Some p) }
    // What has this spelling is read, unless memory runs out.
    ensures only { (p : BackupPacket) → HasSpelling p → spelling_of p ≡ bytes.now → (result ≡ Ok p) ⊎ (result ≡ Err DecodeFault.NoMemory) }
    // Bad is what is first wrong, and what is wrong is answered so, unless memory runs out.
    ensures bad { (b : Bad) → result ≡ Err (DecodeFault.Bad b) → first_fault bytes.now ≡ Some b }
    ensures only_bad { (b : Bad) → first_fault bytes.now ≡ Some b → (result ≡ Err (DecodeFault.Bad b)) ⊎ (result ≡ Err DecodeFault.NoMemory) }
{
    let template = template_in(alloc, bytes)?;
    Ok(value_at(alloc, template, bytes)?)
}
