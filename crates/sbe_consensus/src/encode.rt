// Bytes from packets.
ghost use Rattle.std.specs.Prelude.{◌≡◌, ◌<◌, ◌^◌, ◌++◌, List, [], ℕ, Some, OnOk, IfOk};
ghost use Rattle.wire_prims.specs.Strict.{block_size, message};
ghost use Rattle.sbe_consensus.specs.Spelling.{HasSpelling, AreEntries, spelling_of, packet_of, entries_bytes, first_of, second_of, member_of};
ghost use Rattle.sbe_consensus.specs.declared.packet.Packet.{Packet};

use crate::packet::Packet;
use cl_base::{Bytes, Entry, NoMemory};
use std::alloc::Global;
use wire_prims::{Field, bare, message_of, put_counted};

fn put_entries(out: &mut Vec<u8>, entries: &[Entry]) -> Result<(), NoMemory>
    requires { AreEntries entries.now }
    ensures { OnOk result (out.new.items ≡ out.old.items ++ entries_bytes entries.now) }
{
    for entry in entries {
        put_counted(out, entry.bytes.as_slice())?;
    }
    Ok(())
}

/// A batch with its entries behind its block.
fn batch(alloc: Global, fields: &[Field], entries: &[Entry]) -> Result<Bytes, NoMemory>
    requires size { block_size fields.now < 2 ^ 16 }
    requires entries { AreEntries entries.now }
    ensures { IfOk result (λ b. b ≡ message 120 fields.now ++ entries_bytes entries.now) }
{
    let mut out = message_of(alloc, 120, fields)?;
    put_entries(&mut out, entries)?;
    Ok(Bytes::from_vec(out))
}

/// The one spelling of a packet.
pub fn encode_packet(alloc: Global, p: &Packet) -> Result<Bytes, NoMemory>
    requires { HasSpelling p.now }
    ensures spelled { IfOk result (λ b. b ≡ spelling_of p.now) }
    ensures read_again { packet_of (spelling_of p.now) ≡ Some p.now }
    // No other packet has this spelling.
    ensures alone { (other : Packet) → HasSpelling other → spelling_of other ≡ spelling_of p.now → other ≡ p.now }
    // Nor does another one's spelling begin with it.
    ensures prefix_free { (other : Packet) (rest : List ℕ) → HasSpelling other → spelling_of other ≡ spelling_of p.now ++ rest → rest ≡ [] }
{
    spelled(alloc, p)
}

/// The first number of a packet's block.
fn first_of(p: &Packet) -> i64
    ensures { result ≡ first_of p.now }
{
    match p {
        Packet::Canvass { log_term, .. } | Packet::RequestVote { log_term, .. } => *log_term,
        Packet::Vote { candidate_term, .. } => *candidate_term,
        Packet::NewTerm { asked_term, .. } => *asked_term,
        Packet::Append { term, .. } | Packet::Commit { term, .. } => *term,
        Packet::LogBatch { term, .. } => *term,
    }
}

/// The second number of a packet's block.
fn second_of(p: &Packet) -> i64
    ensures { result ≡ second_of p.now }
{
    match p {
        Packet::Canvass { log_position, .. } => *log_position,
        Packet::RequestVote { log_position, .. } => *log_position,
        Packet::Vote { log_term, .. } => *log_term,
        Packet::NewTerm { asked_position, .. } => *asked_position,
        Packet::Append { position, .. } | Packet::Commit { position, .. } => *position,
        Packet::LogBatch { start_position, .. } => *start_position,
    }
}

/// The first member that a packet names.
fn member_of(p: &Packet) -> i32
    ensures { result ≡ member_of p.now }
{
    match p {
        Packet::Canvass { member, .. } | Packet::Append { member, .. } => *member,
        Packet::RequestVote { candidate, .. } | Packet::Vote { candidate, .. } => *candidate,
        Packet::NewTerm { leader, .. } | Packet::Commit { leader, .. } => *leader,
        Packet::LogBatch { leader, .. } => *leader,
    }
}

fn spelled(alloc: Global, p: &Packet) -> Result<Bytes, NoMemory>
    requires { HasSpelling p.now }
    ensures { IfOk result (λ b. b ≡ spelling_of p.now) }
{
    let first = Field::I64(first_of(p));
    let second = Field::I64(second_of(p));
    let member = Field::I32(member_of(p));
    match p {
        Packet::Canvass { candidate_term, .. } => {
            let fields = [first, second, Field::I64(*candidate_term), member];
            bare(alloc, 50, &fields)
        }
        Packet::RequestVote { candidate_term, .. } => {
            let fields = [first, second, Field::I64(*candidate_term), member];
            bare(alloc, 51, &fields)
        }
        Packet::Vote {
            log_position,
            follower,
            vote,
            ..
        } => {
            let (position, follower) = (Field::I64(*log_position), Field::I32(*follower));
            let fields = [first, second, position, member, follower, Field::I32(*vote)];
            bare(alloc, 52, &fields)
        }
        Packet::NewTerm {
            keep_term,
            keep_position,
            term,
            ..
        } => {
            let (keep, position) = (Field::I64(*keep_term), Field::I64(*keep_position));
            let fields = [first, second, keep, position, Field::I64(*term), member];
            bare(alloc, 53, &fields)
        }
        Packet::Append { .. } => bare(alloc, 54, &[first, second, member]),
        Packet::Commit { .. } => bare(alloc, 55, &[first, second, member]),
        Packet::LogBatch { entries, .. } => {
            let count = Field::I32(entries.len() as i32);
            batch(alloc, &[first, second, member, count], entries.as_slice())
        }
    }
}
