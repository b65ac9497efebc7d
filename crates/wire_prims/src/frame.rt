// Data frames in a segment of the log.
ghost use Rattle.std.specs.Prelude.{◌≡◌, ◌≢◌, ◌⊎◌, ◌+◌, ◌-◌, ◌*◌, ◌/◌, ◌%◌, ◌<◌, ◌≤◌, ◌^◌, ◌↔◌, List, [], ◌∷◌, ◌++◌, replicate, true, IsTrue, None, length, slice_index};
ghost use Rattle.cl_base.specs.Disk.{overwritten};
ghost use Rattle.wire_prims.specs.Header.{bad, aligned_to};
ghost use Rattle.wire_prims.specs.Frames.{frame_type, header_bytes, frame, are_flags, differs, length_fault, names_fault, flags_fit, passes_end, frame_fault, is_pad_at, frame_at};
ghost use Rattle.wire_prims.specs.declared.fault.BadCause.{BadCause};

use crate::field::{get_i32, get_u16, get_u32};
use crate::{Bad, BadCause, aligned};
use cl_base::limits::SEGMENT_BYTES;

/// The gate of a frame that is open.
pub const OPEN_GATE: u8 = 0x5A;

/// The flags of an event that stands in one frame, and of a pad.
pub const WHOLE_FLAGS: u8 = 0xC0;

/// The flags of the first frame of several.
pub const FIRST_FLAGS: u8 = 0x80;

/// The flags of the last frame of several.
pub const LAST_FLAGS: u8 = 0x40;

/// The bytes of a frame's header.
const HEADER: usize = 32;

/// More zeros than a frame ends with.
static ZEROS: [u8; 32] = [0; 32];

/// What the header of a frame says.
#[derive(Clone, Copy, Debug, PartialEq, Eq)]
pub struct FrameHead {
    /// The header and what the frame carries, in bytes; of a pad the rest of the segment.
    pub length: u32,
    /// It carries nothing and leads to the next segment.
    pub pad: bool,
    /// 0xC0, 0x80, 0 or 0x40.
    pub flags: u8,
}

fn put(out: &mut [u8], at: usize, bytes: &[u8])
    requires { at + length bytes.now ≤ length out.old }
    ensures { out.new ≡ overwritten at bytes.now out.old }
{
    out[at..at + bytes.len()].copy_from_slice(bytes);
}

/// Writes the header of a frame.
fn write_header(out: &mut [u8], named: u32, flags: u8, type_number: u16, position: u64, gate: u8)
    requires { 32 ≤ length out.old }
    ensures { out.new ≡ overwritten 0 (header_bytes named flags type_number position gate) out.old }
{
    put(out, 0, &named.to_le_bytes());
    put(out, 4, &[0, flags]);
    put(out, 6, &type_number.to_le_bytes());
    put(out, 8, &offset_of(position).to_le_bytes());
    put(out, 12, &1u32.to_le_bytes());
    put(out, 16, &100u32.to_le_bytes());
    put(out, 20, &number_at(position).to_le_bytes());
    put(out, 24, &ZEROS[..7]);
    put(out, 31, &[gate]);
}

/// Writes a frame into `out`, which is as long as the frame. A pad names the rest of the segment as its length.
pub fn write_frame(out: &mut [u8], position: u64, gate: u8, flags: u8, pad: bool, body: &[u8])
    requires flags { IsTrue (are_flags flags) }
    requires pad_flags { IsTrue pad → flags ≡ 0xC0 }
    requires len { length out.old ≡ aligned_to (32 + length body.now) }
    requires small { length out.old < 65537 }
    requires place { position % 32 ≡ 0 }
    requires below { position < 16777216 }
    requires within { position % 65536 + length out.old ≤ 65536 }
    requires pad_body { IsTrue pad → length body.now ≡ 0 }
    ensures { out.new ≡ frame position gate flags pad body.now }
{
    let end = HEADER + body.len();
    let rest = out.len() - end;
    let named = if pad {
        (SEGMENT_BYTES - position % SEGMENT_BYTES) as u32
    } else {
        end as u32
    };
    write_header(out, named, flags, type_of(pad), position, gate);
    put(out, HEADER, body);
    put(out, end, &ZEROS[..rest]);
}

/// The first place, from one on, at which other bytes stand than these.
fn first_difference(bytes: &[u8], at: usize, wanted: &[u8]) -> Option<Bad>
    requires { at + length wanted.now ≤ length bytes.now }
    ensures { result ≡ differs wanted.now at bytes.now }
{
    let mut place = at;
    for byte in wanted {
        if bytes[place] != *byte {
            return Some(wrong(place));
        }
        place += 1;
    }
    None
}

fn wrong(place: usize) -> Bad
    ensures { result ≡ bad place BadCause.Value }
{
    Bad {
        place: place as u64,
        cause: BadCause::Value,
    }
}

#[tactic(auto, unfolding(crate::specs::Fields::le32))]
fn wrong_length(segment: &[u8], at: usize, position: u64, pad: bool) -> Option<Bad>
    requires { at + 4 ≤ length segment.now }
    ensures { result ≡ length_fault pad at position segment.now }
{
    if pad {
        let rest = (SEGMENT_BYTES - position % SEGMENT_BYTES) as u32;
        return first_difference(segment, at, &rest.to_le_bytes());
    }
    if get_i32(segment, at) < 32 {
        return Some(wrong(at));
    }
    None
}

fn fits_flags(flags: u8, pad: bool) -> bool
    ensures { result ≡ flags_fit pad flags }
{
    if pad {
        flags == WHOLE_FLAGS
    } else {
        flags == WHOLE_FLAGS || flags == FIRST_FLAGS || flags == 0 || flags == LAST_FLAGS
    }
}

fn wrong_end(segment: &[u8], at: usize, pad: bool) -> Option<Bad>
    requires { at + 4 ≤ length segment.now }
    ensures { result ≡ passes_end pad at segment.now }
{
    if pad || at as u64 + aligned(u64::from(get_u32(segment, at))) <= segment.len() as u64 {
        return None;
    }
    Some(Bad {
        place: segment.len() as u64,
        cause: BadCause::Short,
    })
}

fn number_at(position: u64) -> u32
    ensures { result ≡ position / 65536 % 2 ^ 32 }
{
    (position / SEGMENT_BYTES % (1 << 32)) as u32
}

fn offset_of(position: u64) -> u32
    ensures { result ≡ position % 65536 }
{
    (position % SEGMENT_BYTES) as u32
}

fn type_of(pad: bool) -> u16
    ensures { result ≡ frame_type pad }
{
    if pad { 0 } else { 1 }
}

/// The first wrong byte of what names the frame's place and stream.
#[tactic(auto, unfolding(crate::specs::Frames::names_fault, crate::specs::Fields::le32))]
fn wrong_names(segment: &[u8], at: usize, position: u64) -> Option<Bad>
    requires { at + 32 ≤ length segment.now }
    ensures { result ≡ names_fault at position segment.now }
{
    if let Some(bad) = first_difference(segment, at + 8, &offset_of(position).to_le_bytes()) {
        return Some(bad);
    }
    if let Some(bad) = first_difference(segment, at + 12, &1u32.to_le_bytes()) {
        return Some(bad);
    }
    if let Some(bad) = first_difference(segment, at + 16, &100u32.to_le_bytes()) {
        return Some(bad);
    }
    if let Some(bad) = first_difference(segment, at + 20, &number_at(position).to_le_bytes()) {
        return Some(bad);
    }
    first_difference(segment, at + 24, &ZEROS[..7])
}

/// The first wrong byte of a frame with an open gate.
#[tactic(auto, unfolding(crate::specs::Frames::frame_fault, crate::specs::Fields::le16))]
fn fault_at(segment: &[u8], at: usize, position: u64, pad: bool) -> Option<Bad>
    requires { at + 32 ≤ length segment.now }
    ensures { result ≡ frame_fault pad at position segment.now }
{
    if let Some(bad) = wrong_length(segment, at, position, pad) {
        return Some(bad);
    }
    if segment[at + 4] != 0 {
        return Some(wrong(at + 4));
    }
    if !fits_flags(segment[at + 5], pad) {
        return Some(wrong(at + 5));
    }
    if let Some(bad) = first_difference(segment, at + 6, &type_of(pad).to_le_bytes()) {
        return Some(bad);
    }
    if let Some(bad) = wrong_names(segment, at, position) {
        return Some(bad);
    }
    wrong_end(segment, at, pad)
}

/// The header of the frame at a place of a log, in the place's segment. None exactly where fewer than 32 bytes are
/// left for it or its gate isn't open. A wrong byte is Value at its place in the segment, and data past the segment's
/// end is Short at the end.
#[tactic(auto, unfolding(crate::specs::Frames::frame_at))]
pub fn read_frame(segment: &[u8], position: u64) -> Result<Option<FrameHead>, Bad>
    ensures exact { result ≡ frame_at position segment.now }
    ensures none { (result ≡ Ok None) ↔ ((length segment.now < position % 65536 + 32) ⊎ (slice_index segment.now (position % 65536 + 31) ≢ OPEN_GATE)) }
{
    let at = (position % SEGMENT_BYTES) as usize;
    if segment.len() < at + HEADER || segment[at + 31] != OPEN_GATE {
        return Ok(None);
    }
    let pad = get_u16(segment, at + 6) == 0;
    if let Some(bad) = fault_at(segment, at, position, pad) {
        return Err(bad);
    }
    Ok(Some(FrameHead {
        length: get_u32(segment, at),
        pad,
        flags: segment[at + 5],
    }))
}
