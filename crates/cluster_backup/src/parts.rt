// The parts behind the blocks of packets.
ghost use Rattle.std.specs.Prelude.{◌≡◌, ◌+◌, ◌<◌, ◌≤◌, ◌^◌, IfOk, IfErr, OnOk, IsTrue, Option, None, length};
ghost use Rattle.wire_prims.specs.declared.fault.Bad.{Bad};
ghost use Rattle.wire_prims.specs.declared.fault.DecodeFault.{DecodeFault};
ghost use Rattle.sbe_local.specs.Pieces.{first_fault_piece};
ghost use Rattle.sbe_consensus.specs.Spelling.{parts_there as are_there, parts_end as end_from, shifted};
ghost use Rattle.cluster_backup.specs.Spelling.{IsFault, part_fault as fault_of, parts_fault as first_of_parts, parts_at as parts_from, count_in, count_of as named, counts as in_range, front, lacks_parts, counted_fault};

use crate::part::Part;
use cl_base::{Bytes, List, NoMemory};
use sbe_events::event_fault;
use sbe_local::decode_piece;
use std::alloc::Global;
use wire_prims::{Bad, BadCause, DecodeFault, Tail, get_i32, get_u16, get_u32, strict_fault};

impl Part {
    /// Where the parts begin, in bytes from the packet's first.
    fn front(self) -> usize
        ensures { result ≡ front self }
    {
        8 + self.block()
    }

    /// The number of parts that a packet names.
    fn number(self, bytes: &[u8]) -> i32
        requires { front self ≤ length bytes.now }
        ensures { result ≡ count_in self bytes.now }
    {
        get_i32(bytes, 4 + self.block())
    }

    /// Whether it is in its range.
    fn counts(self, bytes: &[u8]) -> bool
        requires { front self ≤ length bytes.now }
        ensures { result ≡ in_range self bytes.now }
    {
        let count = self.number(bytes);
        self.least() <= count && count <= self.most()
    }

    /// How many parts that is.
    fn count(self, bytes: &[u8]) -> u32
        requires { front self ≤ length bytes.now }
        ensures { result ≡ named self bytes.now }
    {
        self.number(bytes).unsigned_abs()
    }

    /// Whether bytes have the block, but not all the parts that it names.
    fn is_cut(self, bytes: &[u8]) -> bool
        requires { 8 ≤ length bytes.now }
        ensures { result ≡ lacks_parts self bytes.now }
    {
        get_u16(bytes, 0) as usize == self.block()
            && bytes.len() >= self.front()
            && self.counts(bytes)
            && !parts_there(bytes, self.front(), self.count(bytes))
    }

    /// Finds what is first wrong with the bytes of one part.
    fn check(self, alloc: Global, bytes: &[u8]) -> Result<(), DecodeFault>
        ensures free { OnOk result (fault_of self bytes.now ≡ None) }
        ensures fault { IfErr result (IsFault (fault_of self bytes.now)) }
    {
        match self {
            Part::Event => match event_fault(bytes) {
                Some(bad) => Err(DecodeFault::Bad(bad)),
                None => Ok(()),
            },
            Part::Piece => check_piece(alloc, bytes),
        }
    }
}

/// Finds what is first wrong with the bytes of a piece.
fn check_piece(alloc: Global, bytes: &[u8]) -> Result<(), DecodeFault>
    ensures free { OnOk result (first_fault_piece bytes.now ≡ None) }
    ensures fault { IfErr result (IsFault (first_fault_piece bytes.now)) }
{
    match decode_piece(alloc, bytes) {
        Ok(_piece) => Ok(()),
        Err(fault) => Err(fault),
    }
}

/// Whether so many parts are all there from a place on: of each a length of four bytes and that many bytes.
fn parts_there(bytes: &[u8], from: usize, count: u32) -> bool
    requires { from ≤ length bytes.now }
    ensures { result ≡ are_there count from bytes.now }
{
    let mut at = from;
    for _ in 0..count {
        if bytes.len() - at < 4 {
            return false;
        }
        let len = get_u32(bytes, at) as usize;
        if bytes.len() - at - 4 < len {
            return false;
        }
        at += 4 + len;
    }
    true
}

/// A fault, its place counted from so many bytes before.
#[tactic(auto, using(crate::proofs::PartLists::shifted_some))]
fn counted_from(by: usize, fault: DecodeFault) -> DecodeFault
    requires { (b : Bad) → fault ≡ DecodeFault.Bad b → by + b.place < 2 ^ 64 }
    ensures { (o : Option Bad) → IsFault o fault → IsFault (shifted by o) result }
{
    match fault {
        DecodeFault::Bad(bad) => DecodeFault::Bad(Bad {
            place: by as u64 + bad.place,
            cause: bad.cause,
        }),
        DecodeFault::NoMemory => DecodeFault::NoMemory,
    }
}

/// Where so many parts end. The first fault of one has its place counted from the packet's first byte.
fn parts_end(
    alloc: Global,
    bytes: &[u8],
    part: Part,
    from: usize,
    count: u32,
) -> Result<usize, DecodeFault>
    requires long { from ≤ length bytes.now }
    requires there { IsTrue (are_there count from bytes.now) }
    ensures free { OnOk result (first_of_parts part count from bytes.now ≡ None) }
    ensures end { IfOk result (λ end. end ≡ end_from count from bytes.now) }
    ensures fault { IfErr result (IsFault (first_of_parts part count from bytes.now)) }
{
    let mut at = from;
    for _ in 0..count {
        let len = get_u32(bytes, at) as usize;
        match part.check(alloc, &bytes[at + 4..at + 4 + len]) {
            Ok(()) => (),
            Err(fault) => return Err(counted_from(at + 4, fault)),
        }
        at += 4 + len;
    }
    Ok(at)
}

/// Finds what is first wrong with bytes whose template is that of a packet with such parts.
pub fn check_parts(alloc: Global, bytes: &[u8], part: Part) -> Result<(), DecodeFault>
    requires { 8 ≤ length bytes.now }
    ensures free { OnOk result (counted_fault part bytes.now ≡ None) }
    ensures fault { IfErr result (IsFault (counted_fault part bytes.now)) }
{
    let len = bytes.len();
    if part.is_cut(bytes) {
        return Err(DecodeFault::Bad(Bad {
            place: len as u64,
            cause: BadCause::Short,
        }));
    }
    // Here all that follows the block may stand there, for the parts are looked at below.
    let rest = Tail::Rest { limit: len };
    if let Some(bad) = strict_fault(bytes, part.rules(), rest) {
        return Err(DecodeFault::Bad(bad));
    }
    match parts_end(alloc, bytes, part, part.front(), part.count(bytes)) {
        Err(fault) => Err(fault),
        Ok(end) if end < len => Err(DecodeFault::Bad(Bad {
            place: end as u64,
            cause: BadCause::Trailing,
        })),
        Ok(_) => Ok(()),
    }
}

/// So many parts from a place on.
fn parts_at(alloc: Global, bytes: &[u8], from: usize, count: u32) -> Result<List<Bytes>, NoMemory>
    requires long { from ≤ length bytes.now }
    requires there { IsTrue (are_there count from bytes.now) }
    ensures { IfOk result (λ parts. parts ≡ parts_from count from bytes.now) }
{
    let mut parts = List::new(alloc);
    let mut at = from;
    for _ in 0..count {
        let len = get_u32(bytes, at) as usize;
        let part = Bytes::of(alloc, &bytes[at + 4..at + 4 + len])?;
        parts.push(part)?;
        at += 4 + len;
    }
    Ok(parts)
}

/// The parts of a packet without a fault.
pub fn parts_of(alloc: Global, bytes: &[u8], part: Part) -> Result<List<Bytes>, NoMemory>
    requires { counted_fault part bytes.now ≡ None }
    ensures { IfOk result (λ parts. parts ≡ parts_from (named part bytes.now) (front part) bytes.now) }
{
    parts_at(alloc, bytes, part.front(), part.count(bytes))
}
