// What is looked at in every message before a value is read from it.
ghost use Rattle.std.specs.Prelude.{◌≡◌, ◌≤◌, length, true, false, Some, None, IfOk, OnOk, IfErr, MatchOption};
ghost use Rattle.wire_prims.specs.Fields.{u16_at};
ghost use Rattle.sbe_client.specs.Reading.{allows, least_block, variables_of, has_variables, first_of, checks, IsWhole, HasVariable, variable_at, block_end};

use cl_base::{Bytes, NoMemory};
use std::alloc::Global;
use wire_prims::{Bad, BadCause, HEADER_BYTES, get_u16, get_u32, read_header};

/// Which way a message goes.
#[derive(Clone, Copy, Debug, PartialEq, Eq)]
pub enum Direction {
    ToCluster,
    ToClient,
}

/// The least length of a template's block, and how many variable fields follow it. None where no message that goes
/// this way has the template.
fn table_of(way: Direction, template: u16) -> Option<(u16, u8)>
    ensures { MatchOption result (allows way template ≡ false) (λ table. (allows way template ≡ true) × (table.0 ≡ least_block template) × (table.1 ≡ variables_of template)) }
{
    match (way, template) {
        (_, 1) => Some((24, 0)),
        (Direction::ToCluster, 3) => Some((16, 2)),
        (Direction::ToCluster, 4 | 5) => Some((16, 0)),
        (Direction::ToClient, 2) => Some((32, 1)),
        (Direction::ToClient, 6) => Some((20, 1)),
        _ => None,
    }
}

/// Whether so many variable fields are there from a place on, all of each.
fn has_variables(bytes: &[u8], from: usize, count: u8) -> bool
    requires { from ≤ length bytes.now }
    ensures { result ≡ has_variables count from bytes.now }
{
    let mut at = from;
    for _ in 0..count {
        if bytes.len() - at < 4 {
            return false;
        }
        let len = get_u32(bytes, at) as usize;
        if bytes.len() - at - 4 < len {
            return false;
        }
        at += 4 + len;
    }
    true
}

/// The template of a message that goes this way and is all there.
pub fn check(bytes: &[u8], way: Direction) -> Result<u16, Bad>
    ensures bad { IfErr result (λ bad. first_of (checks way bytes.now) ≡ Some bad) }
    ensures none { OnOk result (first_of (checks way bytes.now) ≡ None) }
    ensures whole { OnOk result (IsWhole way bytes.now) }
    ensures template { IfOk result (λ template. template ≡ u16_at 2 bytes.now) }
{
    let header = read_header(bytes)?;
    let Some((least, variables)) = table_of(way, header.template) else {
        return Err(Bad {
            place: 2,
            cause: BadCause::Template,
        });
    };
    if header.block < least {
        return Err(Bad {
            place: 0,
            cause: BadCause::Block,
        });
    }
    let end = HEADER_BYTES + header.block as usize;
    if bytes.len() < end || !has_variables(bytes, end, variables) {
        return Err(Bad {
            place: bytes.len() as u64,
            cause: BadCause::Short,
        });
    }
    Ok(header.template)
}

/// The place behind the block, in bytes.
pub fn block_end(bytes: &[u8]) -> usize
    requires { 8 ≤ length bytes.now }
    ensures { result ≡ block_end bytes.now }
{
    HEADER_BYTES + get_u16(bytes, 0) as usize
}

/// The variable field at a place.
pub fn variable(alloc: Global, bytes: &[u8], at: usize) -> Result<Bytes, NoMemory>
    requires { HasVariable at bytes.now }
    ensures { IfOk result (λ field. field ≡ variable_at at bytes.now) }
{
    let len = get_u32(bytes, at) as usize;
    Bytes::of(alloc, &bytes[at + 4..at + 4 + len])
}
