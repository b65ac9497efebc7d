// Members at worked moments.
ghost use Rattle.std.specs.Prelude.{IfOk};
ghost use Rattle.sbe_consensus.specs.Spelling.{HasSpelling};

mod rows;
mod seats;

use cl_base::NoMemory;
use entry_log::LogIndex;
use sbe_consensus::{Packet, decode_packet};
use std::alloc::Global;
use std::process::Abort;
use std::test::Fail;

/// Template numbers of packets.
const CANVASS: u16 = 50;

const REQUEST_VOTE: u16 = 51;

const VOTE: u16 = 52;

const NEW_TERM: u16 = 53;

const APPEND: u16 = 54;

const COMMIT: u16 = 55;

fn index_of(rt: &impl Abort, alloc: Global, entries: &[(i64, u64)]) -> Result<LogIndex, NoMemory> {
    let mut index = LogIndex::new(alloc);
    for (term, len) in entries {
        assert!(rt; index.place() <= 16_777_216 && index.last_term() <= *term && *len <= 32_768);
        index.push(*term, *len)?;
    }
    Ok(index)
}

/// A packet of these fields, in the order of its block: numbers of 8 bytes, then numbers of 4.
fn packet(alloc: Global, template: u16, longs: &[i64], ints: &[i32]) -> Result<Packet, Fail>
    ensures { IfOk result (λ p. HasSpelling p) }
{
    let mut block = Vec::new(alloc);
    for n in longs {
        block.extend_from_slice(&n.to_le_bytes())?;
    }
    for n in ints {
        block.extend_from_slice(&n.to_le_bytes())?;
    }
    let mut bytes = Vec::new(alloc);
    let len = u16::try_from(block.len()).ok().ok_or("a block")?;
    for n in [len, template, 111, 0] {
        bytes.extend_from_slice(&n.to_le_bytes())?;
    }
    bytes.extend_from_slice(&block)?;
    Ok(decode_packet(alloc, &bytes).ok().ok_or("a packet")?)
}
