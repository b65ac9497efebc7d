// What stands in a segment where an entry may begin.
ghost use Rattle.std.specs.Prelude.{◌≡◌, ◌≢◌, ◌+◌, ◌-◌, ◌*◌, ◌/◌, ◌%◌, ◌<◌, ◌≤◌, ◌==◌, ◌&&◌, ◌||◌, ◌⊎◌, ℕ, List, IsTrue, IsFalse, Ok, IfOk, IfErr, IsErr, length, slice_index, true, false};
ghost use Rattle.wire_prims.specs.Header.{aligned_to};
ghost use Rattle.entry_log.specs.Log.{frames_len};
ghost use Rattle.log_segment.specs.Segment.{IsAt, IsShut, pad_frame, entry_frames, later_frames};
ghost use Rattle.log_segment.specs.Looked.{Looked, IsOnly};
ghost use Rattle.log_segment.specs.Found.{MayStand, data_header, HeadFits, HeadSeen, FoundFits, FoundSeen};

use crate::read::first_unequal;
use cl_base::limits::{FRAME_PAYLOAD, SEGMENT_BYTES};
use cl_base::{Disk, MemberFault, read_some};
use wire_prims::{
    FIRST_FLAGS, LAST_FLAGS, OPEN_GATE, WHOLE_FLAGS, aligned, get_u16, get_u32, write_frame,
};

/// The flags of a frame that is neither an entry's first nor its last.
const MIDDLE_FLAGS: u8 = 0;

/// The bytes of a frame's header.
const HEADER: u64 = 32;

/// The bytes of a frame that isn't its entry's last.
const FRAME: u64 = 1_408;

/// More frames than a segment has.
const FRAMES: u64 = 47;

/// What stands where an entry may begin.
#[derive(Clone, Copy, Debug, PartialEq, Eq)]
pub enum Found {
    /// The file has fewer than 32 bytes from there on.
    Short,
    /// A frame whose gate isn't open.
    Closed,
    /// A pad.
    Pad,
    /// Frames that carry so many bytes of an event.
    Event(u64),
}

/// What stands where a frame may begin.
#[derive(Clone, Copy, Debug, PartialEq, Eq)]
enum Head {
    Short,
    Closed,
    Pad,
    Data { flags: u8, carried: u64 },
}

/// Which of its entry's frames one is.
#[derive(Clone, Copy, Debug, PartialEq, Eq)]
enum Turn {
    First,
    Later,
}

/// Whether a frame may name this length: one that isn't its entry's last is full, and a last one isn't empty.
fn fits_length(length: u32, flags: u8, turn: Turn) -> bool
    ensures bound { IsTrue result → (32 ≤ length) × (length ≤ 1408) }
    ensures full { IsTrue result → flags ≡ 0x80 → length ≡ 1408 }
    ensures middle { IsTrue result → flags ≡ 0 → length ≡ 1408 }
    ensures last { IsTrue result → turn ≡ Turn.Later → flags ≡ 0x40 → 32 < length }
    ensures complete { (carried : ℕ) → MayStand turn flags carried → length ≡ 32 + carried → IsTrue result }
{
    let full = HEADER + FRAME_PAYLOAD;
    let length = u64::from(length);
    if length < HEADER || length > full {
        return false;
    }
    if flags == FIRST_FLAGS || flags == MIDDLE_FLAGS {
        return length == full;
    }
    turn == Turn::First || flags != LAST_FLAGS || length > HEADER
}

/// Whether a frame with these flags may stand there.
fn fits_turn(flags: u8, turn: Turn) -> bool
    ensures first { IsTrue result → turn ≡ Turn.First → (flags ≡ 0xC0) ⊎ (flags ≡ 0x80) }
    ensures later { IsTrue result → turn ≡ Turn.Later → (flags ≡ 0) ⊎ (flags ≡ 0x40) }
    ensures complete { (carried : ℕ) → MayStand turn flags carried → IsTrue result }
{
    match turn {
        Turn::First => flags == WHOLE_FLAGS || flags == FIRST_FLAGS,
        Turn::Later => flags == MIDDLE_FLAGS || flags == LAST_FLAGS,
    }
}

/// Judges the header of a pad, whose gate is open. An error is the index of its first wrong byte.
fn judge_pad(header: &[u8], position: u64) -> Result<Head, u64>
    requires size { length header.now ≡ 32 }
    requires place { position % 32 ≡ 0 }
    requires below { position < 16777216 }
    ensures pad { IfOk result (λ h. (h ≡ Head.Pad) × (header.now ≡ pad_frame position)) }
    ensures exact { header.now ≡ pad_frame position → result ≡ Ok Head.Pad }
    ensures wrong { IfErr result (λ i. i < 32) }
{
    let mut wanted = [0; 32];
    write_frame(&mut wanted, position, OPEN_GATE, WHOLE_FLAGS, true, &[]);
    let wrong = first_unequal(header, &wanted, 32);
    if wrong < 32 {
        return Err(wrong as u64);
    }
    Ok(Head::Pad)
}

/// The first index from one on at which two headers differ, 32 where there is none.
fn first_differing(one: &[u8], other: &[u8], from: usize) -> usize
    requires one { length one.now ≡ 32 }
    requires other { length other.now ≡ 32 }
    requires from { from ≤ 32 }
    ensures low { from ≤ result }
    ensures within { result ≤ 32 }
    ensures differ { result < 32 → slice_index one.now result ≢ slice_index other.now result }
{
    for i in from..32 {
        if one[i] != other[i] {
            return i;
        }
    }
    32
}

/// Judges the header of a data frame, whose gate is open. An error is the index of its first wrong byte.
fn judge_data(header: &[u8], position: u64, turn: Turn) -> Result<Head, u64>
    requires size { length header.now ≡ 32 }
    requires place { position % 32 ≡ 0 }
    requires below { position < 16777216 }
    ensures fits { IfOk result (HeadFits turn) }
    ensures data { IfOk result (λ h. (flags carried : ℕ) × (h ≡ Head.Data flags carried)) }
    ensures exact { (flags carried : ℕ) → MayStand turn flags carried → header.now ≡ data_header (32 + carried) flags position → result ≡ Ok (Head.Data flags carried) }
    ensures wrong { IfErr result (λ i. i < 32) }
{
    let length = get_u32(header, 0);
    let flags = header[5];
    if !fits_length(length, flags, turn) {
        return Err(0);
    }
    if header[4] != 0 {
        return Err(4);
    }
    if !fits_turn(flags, turn) {
        return Err(5);
    }
    let mut wanted = [0; 32];
    write_frame(&mut wanted, position, OPEN_GATE, flags, false, &[]);
    let wrong = first_differing(header, &wanted, 4);
    if wrong < 32 {
        return Err(wrong as u64);
    }
    Ok(Head::Data {
        flags,
        carried: u64::from(length) - HEADER,
    })
}

/// Judges 32 bytes, of which so many were read where a frame may begin. An error is the index of the first wrong byte.
fn judge(header: &[u8], count: usize, position: u64, turn: Turn) -> Result<Head, u64>
    requires size { length header.now ≡ 32 }
    requires place { position % 32 ≡ 0 }
    requires below { position < 16777216 }
    ensures short { result ≡ Ok Head.Short → count < 32 }
    ensures closed { result ≡ Ok Head.Closed → (32 ≤ count) × (slice_index header.now 31 ≢ 0x5A) }
    ensures pad { result ≡ Ok Head.Pad → (32 ≤ count) × (header.now ≡ pad_frame position) }
    ensures data { (flags carried : ℕ) → result ≡ Ok (Head.Data flags carried) → 32 ≤ count }
    ensures fits { IfOk result (HeadFits turn) }
    ensures wrong { IfErr result (λ i. i < 32) }

    // A closed gate, a pad's header or that of data is what it is.
    ensures is_closed { 32 ≤ count → slice_index header.now 31 ≢ 0x5A → result ≡ Ok Head.Closed }
    ensures is_pad { 32 ≤ count → header.now ≡ pad_frame position → result ≡ Ok Head.Pad }
    ensures is_data { 32 ≤ count → (flags carried : ℕ) → MayStand turn flags carried → header.now ≡ data_header (32 + carried) flags position → result ≡ Ok (Head.Data flags carried) }
{
    if count < 32 {
        return Ok(Head::Short);
    }
    if header[31] != OPEN_GATE {
        return Ok(Head::Closed);
    }
    if get_u16(header, 6) == 0 {
        judge_pad(header, position)
    } else {
        judge_data(header, position, turn)
    }
}

/// Reads the header of the frame at a position. A wrong byte is Damaged.
fn read_head<D: Disk>(
    disk: &mut D,
    segment: u32,
    position: u64,
    turn: Turn,
) -> Result<Head, MemberFault>
    requires segment { segment < 256 }
    requires place { position % 32 ≡ 0 }
    requires here { position / 65536 ≡ segment }
    ensures looked { Looked D.fault_count D.tells D.is_honest D.state D.moment D.left_since disk.old disk.new result }
    ensures fits { IfOk result (HeadFits turn) }
    ensures seen { IsTrue (D.tells disk.old) → IfOk result (HeadSeen position ((D.state disk.old).files (2 + segment)).reads) }
    ensures closed { IsTrue (D.tells disk.old) → IsShut (position % 65536) ((D.state disk.old).files (2 + segment)).reads → IsOnly Head.Closed result }
    ensures pad { IsTrue (D.tells disk.old) → IsAt (position % 65536) (pad_frame position) ((D.state disk.old).files (2 + segment)).reads → IsOnly Head.Pad result }
    ensures data { IsTrue (D.tells disk.old) → (flags carried : ℕ) → MayStand turn flags carried → IsAt (position % 65536) (data_header (32 + carried) flags position) ((D.state disk.old).files (2 + segment)).reads → IsOnly (Head.Data flags carried) result }
{
    let mut header = [0; 32];
    match read_some(disk, 2 + segment, position % SEGMENT_BYTES, &mut header) {
        Ok(count) => match judge(&header, count, position, turn) {
            Ok(head) => Ok(head),
            Err(wrong) => Err(wrong_at(segment, position, wrong)),
        },
        Err(trouble) => Err(MemberFault::from(trouble)),
    }
}

/// Where a segment ends, or its file where this comes first, is Damaged.
pub fn ends_early<D: Disk>(disk: &mut D, segment: u32) -> Result<Found, MemberFault>
    requires segment { segment < 256 }
    ensures looked { Looked D.fault_count D.tells D.is_honest D.state D.moment D.left_since disk.old disk.new result }
    ensures fault { IsErr result }
{
    match disk.len(2 + segment) {
        Ok(len) => Err(MemberFault::Damaged {
            file: 2 + segment,
            place: len.min(SEGMENT_BYTES),
        }),
        Err(trouble) => Err(MemberFault::from(trouble)),
    }
}

/// A wrong byte of the header of the frame at a position.
fn wrong_at(segment: u32, position: u64, byte: u64) -> MemberFault
    requires segment { segment < 256 }
    requires byte { byte < 32 }
    ensures { result ≡ MemberFault.Damaged (2 + segment) (position % 65536 + byte) }
{
    MemberFault::Damaged {
        file: 2 + segment,
        place: position % SEGMENT_BYTES + byte,
    }
}

/// Whether a frame at a position that carries so many bytes passes its segment's end.
fn passes_end(position: u64, carried: u64) -> bool
    requires { carried ≤ 1376 }
    ensures within { IsFalse result → position % 65536 + aligned_to (32 + carried) ≤ 65536 }
    ensures beyond { IsTrue result → 65536 < position % 65536 + aligned_to (32 + carried) }
{
    position % SEGMENT_BYTES + aligned(HEADER + carried) > SEGMENT_BYTES
}

/// The segment in which a place lies.
pub fn segment_at(place: u64) -> u32
    requires { place < 16777216 }
    ensures { result ≡ place / 65536 }
{
    (place / SEGMENT_BYTES) as u32
}

/// The bytes of the frames of an event.
pub fn frames_size(len: u64) -> u64
    requires { len ≤ 65536 }
    ensures { result ≡ frames_len len }
{
    let rest = len % FRAME_PAYLOAD;
    let whole = len / FRAME_PAYLOAD * FRAME;
    if rest == 0 {
        whole
    } else {
        whole + aligned(HEADER + rest)
    }
}

/// Looks at the frames of an entry that begins at a position, from its frame of this number on, 0 being the first; it
/// gives how many bytes all of them carry.
fn look_later<D: Disk>(
    disk: &mut D,
    segment: u32,
    first: u64,
    frame: u64,
) -> Result<Found, MemberFault>
    requires segment { segment < 256 }
    requires place { first % 32 ≡ 0 }
    requires here { first / 65536 ≡ segment }
    requires frame { frame ≤ 47 }
    ensures looked { Looked D.fault_count D.tells D.is_honest D.state D.moment D.left_since disk.old disk.new result }
    ensures fits { IfOk result (FoundFits first) }
    ensures event { IfOk result (λ f. (len : ℕ) × (f ≡ Found.Event len)) }

    // Where an event's later frames stand from there on, that is what is found.
    ensures exact { IsTrue (D.tells disk.old) → (more : ℕ) (rest : List ℕ) → 0 < length rest → length rest ≤ 1376 * (more + 1) → first % 65536 + frame * 1408 + frames_len (length rest) ≤ 65536
        → IsAt (first % 65536 + frame * 1408) (later_frames more (first + frame * 1408) rest) ((D.state disk.old).files (2 + segment)).reads → IsOnly (Found.Event (frame * 1376 + length rest)) result }
{
    let position = first + frame * FRAME;
    if frame == FRAMES {
        return ends_early(disk, segment);
    }
    if position / SEGMENT_BYTES != u64::from(segment) {
        return ends_early(disk, segment);
    }
    match read_head(disk, segment, position, Turn::Later) {
        Ok(Head::Data { flags, carried }) => {
            if passes_end(position, carried) {
                return ends_early(disk, segment);
            }
            if flags == LAST_FLAGS {
                return Ok(Found::Event(frame * FRAME_PAYLOAD + carried));
            }
            look_later(disk, segment, first, frame + 1)
        }
        Ok(Head::Short) => ends_early(disk, segment),
        Ok(Head::Closed) => Err(wrong_at(segment, position, 31)),
        Ok(Head::Pad) => Err(wrong_at(segment, position, 5)),
        Err(fault) => Err(fault),
    }
}

/// Looks at what stands at a position where an entry may begin. Of its frames the headers alone are looked at; the
/// first wrong byte of these is Damaged, and so is the end of the segment, or of its file, where a frame is missing.
pub fn look_at<D: Disk>(disk: &mut D, segment: u32, position: u64) -> Result<Found, MemberFault>
    requires segment { segment < 256 }
    requires place { position % 32 ≡ 0 }
    requires here { position / 65536 ≡ segment }
    ensures looked { Looked D.fault_count D.tells D.is_honest D.state D.moment D.left_since disk.old disk.new result }
    ensures fits { IfOk result (FoundFits position) }
    ensures seen { IsTrue (D.tells disk.old) → IfOk result (FoundSeen position ((D.state disk.old).files (2 + segment)).reads) }

    // Where a closed gate, a pad or an event's frames stand there, that is what is found.
    ensures closed { IsTrue (D.tells disk.old) → IsShut (position % 65536) ((D.state disk.old).files (2 + segment)).reads → IsOnly Found.Closed result }
    ensures pad { IsTrue (D.tells disk.old) → IsAt (position % 65536) (pad_frame position) ((D.state disk.old).files (2 + segment)).reads → IsOnly Found.Pad result }
    ensures event { IsTrue (D.tells disk.old) → (event : List ℕ) → 0 < length event → position % 65536 + frames_len (length event) ≤ 65536 → IsAt (position % 65536) (entry_frames position event) ((D.state disk.old).files (2 + segment)).reads
        → IsOnly (Found.Event (length event)) result }
{
    match read_head(disk, segment, position, Turn::First) {
        Ok(Head::Short) => Ok(Found::Short),
        Ok(Head::Closed) => Ok(Found::Closed),
        Ok(Head::Pad) => Ok(Found::Pad),
        Ok(Head::Data { flags, carried }) => {
            if passes_end(position, carried) {
                return ends_early(disk, segment);
            }
            if flags == WHOLE_FLAGS {
                return Ok(Found::Event(carried));
            }
            look_later(disk, segment, position, 1)
        }
        Err(fault) => Err(fault),
    }
}
