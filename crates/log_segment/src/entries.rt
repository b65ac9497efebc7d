// Entries as they are read.
ghost use Rattle.std.specs.Prelude.{◌≡◌, ◌≢◌, ◌+◌, ◌-◌, ◌/◌, ◌%◌, ◌^◌, ◌<◌, ◌≤◌, ◌≤ℤ◌, ℕ, List, [], ◌∷◌, ◌++◌, IsTrue, IfOk, IfErr, IfSome, MatchOption, None, Some, Ok, length};
ghost use Rattle.entry_log.specs.Log.{Log, end_after, frames_len, place};
ghost use Rattle.cl_base.specs.declared.entry.Entry.{Entry};
ghost use Rattle.log_segment.specs.Segment.{IsAt, IsShut, EventIn, LogIs, begin_at, entry_frames, pad_frame};
ghost use Rattle.log_segment.specs.Looked.{Looked, IsOnly, IsDamage, IsNoDamage};
ghost use Rattle.log_segment.specs.Reads.{IsNextEntry};
ghost use Rattle.log_segment.specs.Held.{IsEventEntry};

use crate::read::{begin_of, read_at, read_event};
use crate::scan::{Found, ends_early, frames_size, look_at, segment_at};
use cl_base::limits::{FRAME_PAYLOAD, LOG_LIMIT, SEGMENT_BYTES};
use cl_base::{Bytes, Disk, Entry, MemberFault};
use sbe_events::event_fault;
use std::alloc::Global;
use wire_prims::get_i64;

/// The bytes of a frame's header.
const HEADER: u64 = 32;

/// The bytes of a frame that isn't its entry's last.
const FRAME: u64 = 1_408;

/// The place of an event's term among its bytes.
const TERM_PLACE: u64 = 8;

/// The byte of its file that carries the byte of an event of `len` bytes whose frames begin at a position; the end of
/// what they carry, where the event has no such byte.
fn place_in_file(position: u64, len: u64, byte: u64) -> u64
    requires { len ≤ 2 ^ 32 }
{
    let at = position % SEGMENT_BYTES;
    if byte < len {
        return at + byte / FRAME_PAYLOAD * FRAME + HEADER + byte % FRAME_PAYLOAD;
    }
    if len == 0 {
        return at + HEADER;
    }
    let last = len - 1;
    at + last / FRAME_PAYLOAD * FRAME + HEADER + last % FRAME_PAYLOAD + 1
}

/// The fault of a wrong byte of an event of `len` bytes whose frames begin at a position.
fn wrong_byte(position: u64, len: u64, byte: u64) -> MemberFault
    requires len { len ≤ 2 ^ 32 }
    requires below { position < 16777216 }
    ensures { IsDamage result }
{
    MemberFault::Damaged {
        file: 2 + (position / SEGMENT_BYTES) as u32,
        place: place_in_file(position, len, byte),
    }
}

/// An entry of these bytes, whose frames begin at a position. What is no event is Damaged at its first wrong byte.
fn entry_of(position: u64, event: Vec<u8>) -> Result<Entry, MemberFault>
    requires len { length event.items ≤ 2 ^ 32 }
    requires below { position < 16777216 }
    ensures entry { IfOk result (λ e. (e.bytes ≡ event.items) × IsEventEntry e) }
    ensures fault { IfErr result IsDamage }
    ensures exact { (e : Entry) → IsEventEntry e → e.bytes ≡ event.items → IsOnly e result }
{
    let len = event.len() as u64;
    match event_fault(&event) {
        Some(bad) => Err(wrong_byte(position, len, bad.place)),
        None => {
            let term = get_i64(&event, 8);
            Ok(Entry {
                term,
                bytes: Bytes::from_vec(event),
            })
        }
    }
}

/// Reads the entry that was written at a place, of `len` bytes and of this term. A byte that isn't of its form is
/// Damaged, and so is the term's first one where that is another.
pub fn read_known<D: Disk>(
    alloc: Global,
    disk: &mut D,
    position: u64,
    len: u64,
    term: i64,
) -> Result<Entry, MemberFault>
    requires some { 0 < len }
    requires small { len ≤ 32768 }
    requires place { position % 32 ≡ 0 }
    requires below { begin_at position len < 16777216 }
    requires fits { IsTrue (D.tells disk.old) → begin_at position len % 65536 ≤ length ((D.state disk.old).files (2 + begin_at position len / 65536)).reads }
    ensures looked { Looked D.fault_count D.tells D.is_honest D.state D.moment D.left_since disk.old disk.new result }
    ensures entry { IfOk result (λ e. IsEventEntry e × (length e.bytes ≡ len) × (e.term ≡ term)) }

    // Where the files stand for a log that has this entry there, it is what is read.
    ensures exact { IsTrue (D.tells disk.old) → (log kept : Log) (e : Entry) → IsNextEntry log kept e (D.state disk.old).files → IsEventEntry e → position ≡ place kept → len ≡ length e.bytes → term ≡ e.term → IsOnly e result }
{
    match read_at(alloc, disk, position, len as usize) {
        Ok(event) => {
            let begin = begin_of(position, len as usize);
            let entry = entry_of(begin, event)?;
            if entry.term != term {
                return Err(wrong_byte(begin, len, TERM_PLACE));
            }
            Ok(entry)
        }
        Err(fault) => Err(fault),
    }
}

/// Reads the entry of `len` bytes whose frames begin at a position, and whose term isn't below the last one.
fn read_found<D: Disk>(
    alloc: Global,
    disk: &mut D,
    position: u64,
    len: u64,
    last_term: i64,
) -> Result<Entry, MemberFault>
    requires place { position % 32 ≡ 0 }
    requires below { position < 16777216 }
    requires within { frames_len len ≤ 65536 - position % 65536 }
    requires fits { IsTrue (D.tells disk.old) → position % 65536 ≤ length ((D.state disk.old).files (2 + position / 65536)).reads }
    ensures looked { Looked D.fault_count D.tells D.is_honest D.state D.moment D.left_since disk.old disk.new result }
    ensures entry { IfOk result (λ e. IsEventEntry e × (length e.bytes ≡ len) × (last_term ≤ℤ e.term)) }
    ensures stands { IsTrue (D.tells disk.old) → IfOk result (λ e. IsAt (position % 65536) (entry_frames position e.bytes) ((D.state disk.old).files (2 + position / 65536)).reads) }
    ensures exact { IsTrue (D.tells disk.old) → (e : Entry) → IsEventEntry e → length e.bytes ≡ len → last_term ≤ℤ e.term → IsAt (position % 65536) (entry_frames position e.bytes) ((D.state disk.old).files (2 + position / 65536)).reads → IsOnly e result }
{
    if len == 0 {
        return Err(wrong_byte(position, 0, 0));
    }
    let segment = (position / SEGMENT_BYTES) as u32;
    match read_event(alloc, disk, segment, position, len as usize) {
        Ok(event) => {
            let entry = entry_of(position, event)?;
            if entry.term < last_term {
                return Err(wrong_byte(position, len, TERM_PLACE));
            }
            Ok(entry)
        }
        Err(fault) => Err(fault),
    }
}

/// Reads the entry behind a pad that begins at a place. The pad is wrong at its type where the next segment doesn't
/// begin with an entry, or with one that would have fitted in the pad's place.
fn read_padded<D: Disk>(
    alloc: Global,
    disk: &mut D,
    pad: u64,
    last_term: i64,
) -> Result<Entry, MemberFault>
    requires place { pad % 32 ≡ 0 }
    requires below { pad < 16777216 }
    requires stands { IsTrue (D.tells disk.old) → IsAt (pad % 65536) (pad_frame pad) ((D.state disk.old).files (2 + pad / 65536)).reads }
    ensures looked { Looked D.fault_count D.tells D.is_honest D.state D.moment D.left_since disk.old disk.new result }
    ensures entry { IfOk result (λ e. IsEventEntry e × (last_term ≤ℤ e.term) × (end_after pad (length e.bytes) ≤ 16777216)) }
    ensures stands { IsTrue (D.tells disk.old) → IfOk result (λ e. (s : ℕ) → s < 256 → EventIn s ((D.state disk.old).files (2 + s)).reads pad e.bytes) }
    ensures exact { IsTrue (D.tells disk.old) → (e : Entry) → IsEventEntry e → last_term ≤ℤ e.term → 65536 - pad % 65536 < frames_len (length e.bytes) → end_after pad (length e.bytes) ≤ 16777216
        → EventIn (begin_at pad (length e.bytes) / 65536) ((D.state disk.old).files (2 + begin_at pad (length e.bytes) / 65536)).reads pad e.bytes → IsOnly e result }
{
    let at = pad % SEGMENT_BYTES;
    let room = SEGMENT_BYTES - at;
    let wrong = MemberFault::Damaged {
        file: 2 + (pad / SEGMENT_BYTES) as u32,
        place: at + 6,
    };
    let position = pad + room;
    if position >= LOG_LIMIT {
        return Err(wrong);
    }
    match look_at(disk, segment_at(position), position) {
        Ok(Found::Event(len)) => {
            if frames_size(len) <= room {
                return Err(wrong);
            }
            read_found(alloc, disk, position, len, last_term)
        }
        Ok(Found::Short) => Err(wrong),
        Ok(Found::Closed) => Err(wrong),
        Ok(Found::Pad) => Err(wrong),
        Err(fault) => Err(fault),
    }
}

/// Reads the entry that stands at a place of the log, or gives None where the log ends there.
pub fn read_next<D: Disk>(
    alloc: Global,
    disk: &mut D,
    place: u64,
    last_term: i64,
) -> Result<Option<Entry>, MemberFault>
    requires place { place % 32 ≡ 0 }
    requires below { place < 16777216 }
    ensures looked { Looked D.fault_count D.tells D.is_honest D.state D.moment D.left_since disk.old disk.new result }
    ensures entry { IfOk result (λ o. IfSome o (λ e. IsEventEntry e × (last_term ≤ℤ e.term) × (end_after place (length e.bytes) ≤ 16777216))) }
    ensures stands { IsTrue (D.tells disk.old) → IfOk result (λ o. IfSome o (λ e. (s : ℕ) → s < 256 → EventIn s ((D.state disk.old).files (2 + s)).reads place e.bytes)) }

    // Where a closed gate stands, or an entry, that is what is read.
    ensures exact_end { IsTrue (D.tells disk.old) → IsShut (place % 65536) ((D.state disk.old).files (2 + place / 65536)).reads → IsOnly None result }
    ensures exact { IsTrue (D.tells disk.old) → (e : Entry) → IsEventEntry e → last_term ≤ℤ e.term → end_after place (length e.bytes) ≤ 16777216 → ((s : ℕ) → s < 256 → EventIn s ((D.state disk.old).files (2 + s)).reads place e.bytes) → IsOnly (Some e) result }
    ensures ends { IsTrue (D.tells disk.old) → result ≡ Ok None → IsShut (place % 65536) ((D.state disk.old).files (2 + place / 65536)).reads }
{
    let segment = (place / SEGMENT_BYTES) as u32;
    match look_at(disk, segment, place) {
        Ok(Found::Closed) => Ok(None),
        Ok(Found::Short) => match ends_early(disk, segment) {
            Ok(_) => Ok(None),
            Err(fault) => Err(fault),
        },
        Ok(Found::Pad) => match read_padded(alloc, disk, place, last_term) {
            Ok(entry) => Ok(Some(entry)),
            Err(fault) => Err(fault),
        },
        Ok(Found::Event(len)) => match read_found(alloc, disk, place, len, last_term) {
            Ok(entry) => Ok(Some(entry)),
            Err(fault) => Err(fault),
        },
        Err(fault) => Err(fault),
    }
}
