// Batches of entries.
ghost use Rattle.std.specs.Prelude.{◌≡◌, ◌+◌, ◌≤◌, IfOk, IfErr, IsSome, IsTrue, None, Some, length};
ghost use Rattle.wire_prims.specs.Fields.{i64_at};
ghost use Rattle.sbe_events.specs.Spelling.{event_of};
ghost use Rattle.sbe_consensus.specs.Spelling.{count_of as named, counts as in_range, parts_there as are_there, parts_end as end_of, events_fault as first_of_events, entries_at as entries_from, lacks_entries, batch_fault as fault_of, value_of};
ghost use Rattle.sbe_consensus.specs.Laws.{Sound};
ghost use Rattle.sbe_consensus.specs.declared.template.Template.TheVariants as templates;

use crate::packet::Packet;
use crate::template::Template;
use cl_base::{Bytes, Entry, List, NoMemory};
use sbe_events::{event_fault, term_of};
use std::alloc::Global;
use wire_prims::{Bad, BadCause, Tail, get_i32, get_i64, get_u16, get_u32, strict_fault};

/// The length of a batch's block, in bytes.
const BLOCK_BYTES: u16 = 24;

/// Where a batch's entries begin, in bytes from its first.
const ENTRIES: usize = 32;

/// Whether a batch names 1 to 64 entries.
fn counts(bytes: &[u8]) -> bool
    requires { 32 ≤ length bytes.now }
    ensures { result ≡ in_range bytes.now }
{
    let count = get_i32(bytes, 28);
    1 <= count && count <= 64
}

/// How many entries a batch names.
fn count_of(bytes: &[u8]) -> u32
    requires { 32 ≤ length bytes.now }
    ensures { result ≡ named bytes.now }
{
    get_i32(bytes, 28).unsigned_abs()
}

/// Whether so many entries are all there from a place on: of each a length of four bytes and that many bytes.
fn parts_there(bytes: &[u8], from: usize, count: u32) -> bool
    requires { from ≤ length bytes.now }
    ensures { result ≡ are_there count from bytes.now }
{
    let mut at = from;
    for _ in 0..count {
        if bytes.len() - at < 4 {
            return false;
        }
        let len = get_u32(bytes, at) as usize;
        if bytes.len() - at - 4 < len {
            return false;
        }
        at += 4 + len;
    }
    true
}

/// Where so many entries end, or the first fault of their events, its place counted from the batch's first byte.
fn events_end(bytes: &[u8], from: usize, count: u32) -> Result<usize, Bad>
    requires long { from ≤ length bytes.now }
    requires there { IsTrue (are_there count from bytes.now) }
    ensures free { IfOk result (λ end. first_of_events count from bytes.now ≡ None) }
    ensures end { IfOk result (λ end. end ≡ end_of count from bytes.now) }
    ensures fault { IfErr result (λ b. first_of_events count from bytes.now ≡ Some b) }
{
    let mut at = from;
    for _ in 0..count {
        let len = get_u32(bytes, at) as usize;
        if let Some(bad) = event_fault(&bytes[at + 4..at + 4 + len]) {
            return Err(Bad {
                place: (at + 4) as u64 + bad.place,
                cause: bad.cause,
            });
        }
        at += 4 + len;
    }
    Ok(at)
}

/// Whether bytes have a batch's block, but not all the entries that it names.
fn is_cut(bytes: &[u8]) -> bool
    requires { 8 ≤ length bytes.now }
    ensures { result ≡ lacks_entries bytes.now }
{
    get_u16(bytes, 0) == BLOCK_BYTES
        && bytes.len() >= ENTRIES
        && counts(bytes)
        && !parts_there(bytes, ENTRIES, count_of(bytes))
}

/// What is first wrong with bytes whose template is a batch's.
pub fn batch_fault(bytes: &[u8]) -> Option<Bad>
    requires { 8 ≤ length bytes.now }
    ensures { result ≡ fault_of bytes.now }
{
    let len = bytes.len();
    if is_cut(bytes) {
        return Some(Bad {
            place: len as u64,
            cause: BadCause::Short,
        });
    }
    // Here all that follows the block may stand there, for the entries are looked at below.
    let rest = Tail::Rest { limit: len };
    if let Some(bad) = strict_fault(bytes, Template::LogBatch.rules(), rest) {
        return Some(bad);
    }
    match events_end(bytes, ENTRIES, count_of(bytes)) {
        Err(bad) => Some(bad),
        Ok(end) if end < len => Some(Bad {
            place: end as u64,
            cause: BadCause::Trailing,
        }),
        Ok(_) => None,
    }
}

/// The entry of bytes that spell an event.
fn entry_of(alloc: Global, bytes: &[u8]) -> Result<Entry, NoMemory>
    requires { IsSome (event_of bytes.now) }
    ensures { IfOk result (λ e. (e.term ≡ i64_at 8 bytes.now) × (e.bytes ≡ bytes.now)) }
{
    let copy = Bytes::of(alloc, bytes)?;
    Ok(Entry {
        term: term_of(bytes),
        bytes: copy,
    })
}

/// So many entries from a place on.
fn entries_at(alloc: Global, bytes: &[u8], from: usize, count: u32) -> Result<List<Entry>, NoMemory>
    requires long { from ≤ length bytes.now }
    requires there { IsTrue (are_there count from bytes.now) }
    requires free { first_of_events count from bytes.now ≡ None }
    ensures { IfOk result (λ es. es ≡ entries_from count from bytes.now) }
{
    let mut entries = List::new(alloc);
    let mut at = from;
    for _ in 0..count {
        let len = get_u32(bytes, at) as usize;
        let entry = entry_of(alloc, &bytes[at + 4..at + 4 + len])?;
        entries.push(entry)?;
        at += 4 + len;
    }
    Ok(entries)
}

/// The batch that stands in bytes without a fault.
pub fn batch_at(alloc: Global, bytes: &[u8]) -> Result<Packet, NoMemory>
    requires { Sound templates.LogBatch bytes.now }
    ensures { IfOk result (λ p. p ≡ value_of templates.LogBatch bytes.now) }
{
    let entries = entries_at(alloc, bytes, ENTRIES, count_of(bytes))?;
    Ok(Packet::LogBatch {
        term: get_i64(bytes, 8),
        start_position: get_i64(bytes, 16),
        leader: get_i32(bytes, 24),
        entries,
    })
}
