// Frames as they are read.
ghost use Rattle.std.specs.Prelude.{◌≡◌, ◌≢◌, ℕ, ◌+◌, ◌-◌, ◌*◌, ◌/◌, ◌^◌, ◌%◌, ◌<◌, ◌≤◌, IsTrue, false, Err, OnOk, IfOk, List, length, take, drop, slice_index};
ghost use Rattle.cl_base.specs.Faults.{HasMountCause};
ghost use Rattle.cl_base.specs.Disk.{LeavesOnly, IsImageOf};
ghost use Rattle.cl_base.specs.Looks.{Looks};
ghost use Rattle.entry_log.specs.Log.{Log, place, frames_len};
ghost use Rattle.wire_prims.specs.Header.{aligned_to};
ghost use Rattle.wire_prims.specs.Frames.{frame, are_flags};
ghost use Rattle.log_segment.specs.Segment.{IsAt, begin_at, entry_frames, later_frames};
ghost use Rattle.cl_base.specs.declared.entry.Entry.{Entry};
ghost use Rattle.log_segment.specs.Looked.{Looked};
ghost use Rattle.log_segment.specs.Reads.{IsFirstWrong, IsWrongAt, Puts, IsNextEntry};

use cl_base::limits::SEGMENT_BYTES;
use cl_base::{Disk, MemberFault, read_some};
use entry_log::end_after;
use std::alloc::Global;
use wire_prims::{FIRST_FLAGS, LAST_FLAGS, OPEN_GATE, WHOLE_FLAGS, aligned, write_frame};

/// The bytes of a frame's header.
const HEADER: usize = 32;

/// The bytes of an event that one frame carries, but for the last frame of an entry.
const PAYLOAD: usize = 1_376;

/// The bytes of a frame that carries so many.
const FRAME: u64 = 1_408;

/// The first index at which two lists differ, `count` where they don't before it.
pub fn first_unequal(one: &[u8], other: &[u8], count: usize) -> usize
    requires one { count ≤ length one.now }
    requires other { count ≤ length other.now }
    ensures within { result ≤ count }
    ensures same { (j : ℕ) → j < result → slice_index one.now j ≡ slice_index other.now j }
    ensures differ { result < count → slice_index one.now result ≢ slice_index other.now result }
{
    for i in 0..count {
        if one[i] != other[i] {
            return i;
        }
    }
    count
}

/// A part of a window.
fn part(window: &[u8], from: usize, to: usize) -> &[u8]
    requires order { from ≤ to }
    requires there { to ≤ length window.now }
    ensures { result.now ≡ take (to - from) (drop from window.now) }
{
    &window[from..to]
}

/// Reads a frame that carries so many bytes, as it is to stand at a position, into a window of its size. The first
/// wrong byte is Damaged. The second list is room for the frame that is wanted.
pub fn read_into<D: Disk>(
    disk: &mut D,
    segment: u32,
    position: u64,
    flags: u8,
    carried: usize,
    window: &mut [u8],
    wanted: &mut [u8],
) -> Result<(), MemberFault>
    requires segment { segment < 256 }
    requires flags { IsTrue (are_flags flags) }
    requires body { carried ≤ 1376 }
    requires size { length window.old ≡ aligned_to (32 + carried) }
    requires room { length wanted.old ≡ aligned_to (32 + carried) }
    requires place { position % 32 ≡ 0 }
    requires below { position < 16777216 }
    requires within { position % 65536 + aligned_to (32 + carried) ≤ 65536 }
    requires fits { IsTrue (D.tells disk.old) → position % 65536 ≤ length ((D.state disk.old).files (2 + segment)).reads }
    ensures size { length window.new ≡ aligned_to (32 + carried) }
    ensures room { length wanted.new ≡ aligned_to (32 + carried) }
    ensures looked { Looked D.fault_count D.tells D.is_honest D.state D.moment D.left_since disk.old disk.new result }
    ensures cause { HasMountCause (D.fault_count disk.old) (D.fault_count disk.new) result }
    ensures tells { D.tells disk.new ≡ D.tells disk.old }
    ensures honest { D.is_honest disk.new ≡ D.is_honest disk.old }
    ensures gives { IsTrue (D.tells disk.old) → OnOk result (IsAt (position % 65536) (frame position 0x5A flags false (take carried (drop 32 window.new))) ((D.state disk.old).files (2 + segment)).reads) }
    ensures damaged { IsTrue (D.tells disk.old) → (file place : ℕ) → result ≡ Err (MemberFault.Damaged file place) → (file ≡ 2 + segment) × IsFirstWrong ((D.state disk.old).files (2 + segment)).reads position flags carried place }
    ensures looks { IsTrue (D.tells disk.old) → Looks MemberFault.Device (D.state disk.old) (D.state disk.new) result }
    ensures any_moment { IsTrue (D.is_honest disk.old) → LeavesOnly D.moment D.left_since disk.old disk.new (IsImageOf (D.state disk.old).files) }
{
    let at = position % SEGMENT_BYTES;
    match read_some(disk, 2 + segment, at, window) {
        Ok(count) => {
            write_frame(
                wanted,
                position,
                OPEN_GATE,
                flags,
                false,
                part(window, HEADER, HEADER + carried),
            );
            let wrong = first_unequal(window, wanted, count);
            if wrong < wanted.len() {
                return Err(MemberFault::Damaged {
                    file: 2 + segment,
                    place: at + wrong as u64,
                });
            }
            Ok(())
        }
        Err(trouble) => Err(MemberFault::from(trouble)),
    }
}

/// Reads a frame that carries so many bytes, and puts these behind others.
fn read_fragment<D: Disk>(
    disk: &mut D,
    segment: u32,
    position: u64,
    flags: u8,
    carried: usize,
    out: &mut Vec<u8>,
) -> Result<(), MemberFault>
    requires segment { segment < 256 }
    requires flags { IsTrue (are_flags flags) }
    requires body { carried ≤ 1376 }
    requires place { position % 32 ≡ 0 }
    requires below { position < 16777216 }
    requires within { position % 65536 + aligned_to (32 + carried) ≤ 65536 }
    requires fits { IsTrue (D.tells disk.old) → position % 65536 ≤ length ((D.state disk.old).files (2 + segment)).reads }
    ensures size { OnOk result (length out.new.items ≡ length out.old.items + carried) }
    ensures looked { Looked D.fault_count D.tells D.is_honest D.state D.moment D.left_since disk.old disk.new result }
    ensures cause { HasMountCause (D.fault_count disk.old) (D.fault_count disk.new) result }
    ensures tells { D.tells disk.new ≡ D.tells disk.old }
    ensures honest { D.is_honest disk.new ≡ D.is_honest disk.old }
    ensures gives { IsTrue (D.tells disk.old) → OnOk result (Puts (frame position 0x5A flags false) ((D.state disk.old).files (2 + segment)).reads (position % 65536) carried out.old.items out.new.items) }
    ensures damaged { IsTrue (D.tells disk.old) → (file place : ℕ) → result ≡ Err (MemberFault.Damaged file place) → (file ≡ 2 + segment) × IsFirstWrong ((D.state disk.old).files (2 + segment)).reads position flags carried place }
    ensures files { IsTrue (D.tells disk.old) → (g : ℕ) → (D.state disk.new).files g ≡ (D.state disk.old).files g }
{
    let mut window: [u8; 1408] = [0; 1408];
    let mut wanted: [u8; 1408] = [0; 1408];
    let size = aligned((HEADER + carried) as u64) as usize;
    match read_into(
        disk,
        segment,
        position,
        flags,
        carried,
        &mut window[..size],
        &mut wanted[..size],
    ) {
        Ok(()) => match out.extend_from_slice(part(&window, HEADER, HEADER + carried)) {
            Ok(()) => Ok(()),
            Err(_) => Err(MemberFault::NoMemory),
        },
        Err(fault) => Err(fault),
    }
}

/// Reads an event's frames after its first, of which there are at most `more` and one and which carry `left` bytes,
/// and puts these behind others.
fn read_later<D: Disk>(
    disk: &mut D,
    segment: u32,
    more: usize,
    position: u64,
    left: usize,
    out: &mut Vec<u8>,
) -> Result<(), MemberFault>
    requires segment { segment < 256 }
    requires some { 0 < left }
    requires few { left ≤ 1376 * (more + 1) }
    requires place { position % 32 ≡ 0 }
    requires below { position < 16777216 }
    requires within { position % 65536 + frames_len left ≤ 65536 }
    requires fits { IsTrue (D.tells disk.old) → position % 65536 ≤ length ((D.state disk.old).files (2 + segment)).reads }
    ensures size { OnOk result (length out.new.items ≡ length out.old.items + left) }
    ensures looked { Looked D.fault_count D.tells D.is_honest D.state D.moment D.left_since disk.old disk.new result }
    ensures cause { HasMountCause (D.fault_count disk.old) (D.fault_count disk.new) result }
    ensures tells { D.tells disk.new ≡ D.tells disk.old }
    ensures honest { D.is_honest disk.new ≡ D.is_honest disk.old }
    ensures gives { IsTrue (D.tells disk.old) → OnOk result (Puts (later_frames more position) ((D.state disk.old).files (2 + segment)).reads (position % 65536) left out.old.items out.new.items) }
    ensures damaged { IsTrue (D.tells disk.old) → (file place : ℕ) → result ≡ Err (MemberFault.Damaged file place) → (file ≡ 2 + segment) × IsWrongAt (later_frames more position) ((D.state disk.old).files (2 + segment)).reads (position % 65536) left (frames_len left) place }
    ensures files { IsTrue (D.tells disk.old) → (g : ℕ) → (D.state disk.new).files g ≡ (D.state disk.old).files g }
{
    if more == 0 || left <= PAYLOAD {
        return read_fragment(disk, segment, position, LAST_FLAGS, left, out);
    }
    match read_fragment(disk, segment, position, 0, PAYLOAD, out) {
        Ok(()) => read_later(
            disk,
            segment,
            more - 1,
            position + FRAME,
            left - PAYLOAD,
            out,
        ),
        Err(fault) => Err(fault),
    }
}

/// Reads the frames of an event of `len` bytes, and puts these behind others.
fn read_frames<D: Disk>(
    disk: &mut D,
    segment: u32,
    position: u64,
    len: usize,
    out: &mut Vec<u8>,
) -> Result<(), MemberFault>
    requires segment { segment < 256 }
    requires some { 0 < len }
    requires place { position % 32 ≡ 0 }
    requires below { position < 16777216 }
    requires within { position % 65536 + frames_len len ≤ 65536 }
    requires fits { IsTrue (D.tells disk.old) → position % 65536 ≤ length ((D.state disk.old).files (2 + segment)).reads }
    ensures size { OnOk result (length out.new.items ≡ length out.old.items + len) }
    ensures looked { Looked D.fault_count D.tells D.is_honest D.state D.moment D.left_since disk.old disk.new result }
    ensures cause { HasMountCause (D.fault_count disk.old) (D.fault_count disk.new) result }
    ensures tells { D.tells disk.new ≡ D.tells disk.old }
    ensures honest { D.is_honest disk.new ≡ D.is_honest disk.old }
    ensures gives { IsTrue (D.tells disk.old) → OnOk result (Puts (entry_frames position) ((D.state disk.old).files (2 + segment)).reads (position % 65536) len out.old.items out.new.items) }
    ensures damaged { IsTrue (D.tells disk.old) → (file place : ℕ) → result ≡ Err (MemberFault.Damaged file place) → (file ≡ 2 + segment) × IsWrongAt (entry_frames position) ((D.state disk.old).files (2 + segment)).reads (position % 65536) len (frames_len len) place }
    ensures files { IsTrue (D.tells disk.old) → (g : ℕ) → (D.state disk.new).files g ≡ (D.state disk.old).files g }
{
    if len <= PAYLOAD {
        return read_fragment(disk, segment, position, WHOLE_FLAGS, len, out);
    }
    match read_fragment(disk, segment, position, FIRST_FLAGS, PAYLOAD, out) {
        Ok(()) => read_later(disk, segment, len, position + FRAME, len - PAYLOAD, out),
        Err(fault) => Err(fault),
    }
}

/// Reads the event of `len` bytes whose frames begin at a position. The first byte that stands in the frames of no
/// such event is Damaged, or the file's end where bytes are missing.
pub fn read_event<D: Disk>(
    alloc: Global,
    disk: &mut D,
    segment: u32,
    position: u64,
    len: usize,
) -> Result<Vec<u8>, MemberFault>
    requires segment { segment < 256 }
    requires some { 0 < len }
    requires place { position % 32 ≡ 0 }
    requires below { position < 16777216 }
    requires within { position % 65536 + frames_len len ≤ 65536 }
    requires fits { IsTrue (D.tells disk.old) → position % 65536 ≤ length ((D.state disk.old).files (2 + segment)).reads }
    ensures size { IfOk result (λ v. length v.items ≡ len) }
    ensures looked { Looked D.fault_count D.tells D.is_honest D.state D.moment D.left_since disk.old disk.new result }
    ensures cause { HasMountCause (D.fault_count disk.old) (D.fault_count disk.new) result }
    ensures tells { D.tells disk.new ≡ D.tells disk.old }
    ensures honest { D.is_honest disk.new ≡ D.is_honest disk.old }
    ensures gives { IsTrue (D.tells disk.old) → IfOk result (λ v. (length v.items ≡ len) × IsAt (position % 65536) (entry_frames position v.items) ((D.state disk.old).files (2 + segment)).reads) }
    ensures damaged { IsTrue (D.tells disk.old) → (file place : ℕ) → result ≡ Err (MemberFault.Damaged file place) → (file ≡ 2 + segment) × IsWrongAt (entry_frames position) ((D.state disk.old).files (2 + segment)).reads (position % 65536) len (frames_len len) place }

    // Where the frames of such an event stand, it is what is read, and nothing is Damaged.
    ensures exact { IsTrue (D.tells disk.old) → (event : List ℕ) → length event ≡ len → IsAt (position % 65536) (entry_frames position event) ((D.state disk.old).files (2 + segment)).reads → IfOk result (λ v. v.items ≡ event) }
    ensures sound { IsTrue (D.tells disk.old) → (event : List ℕ) → length event ≡ len → IsAt (position % 65536) (entry_frames position event) ((D.state disk.old).files (2 + segment)).reads → (file place : ℕ) → result ≡ Err (MemberFault.Damaged file place) → ⊥ }
    ensures files { IsTrue (D.tells disk.old) → (g : ℕ) → (D.state disk.new).files g ≡ (D.state disk.old).files g }
{
    let mut out = Vec::new(alloc);
    match read_frames(disk, segment, position, len, &mut out) {
        Ok(()) => Ok(out),
        Err(fault) => Err(fault),
    }
}

/// Where the frames of an event of `len` bytes begin that is written at a place.
pub fn begin_of(place: u64, len: usize) -> u64
    requires small { len ≤ 32768 }
    requires place { place ≤ 2 ^ 62 }
    ensures { result ≡ begin_at place len }
{
    let frames = end_after(0, len as u64);
    let room = SEGMENT_BYTES - place % SEGMENT_BYTES;
    if frames <= room { place } else { place + room }
}

/// Reads the event of the entry that was written at a place, of `len` bytes.
pub fn read_at<D: Disk>(
    alloc: Global,
    disk: &mut D,
    position: u64,
    len: usize,
) -> Result<Vec<u8>, MemberFault>
    requires some { 0 < len }
    requires small { len ≤ 32768 }
    requires place { position % 32 ≡ 0 }
    requires below { begin_at position len < 16777216 }
    requires fits { IsTrue (D.tells disk.old) → begin_at position len % 65536 ≤ length ((D.state disk.old).files (2 + begin_at position len / 65536)).reads }
    ensures size { IfOk result (λ v. length v.items ≡ len) }
    ensures looked { Looked D.fault_count D.tells D.is_honest D.state D.moment D.left_since disk.old disk.new result }
    ensures cause { HasMountCause (D.fault_count disk.old) (D.fault_count disk.new) result }
    ensures tells { D.tells disk.new ≡ D.tells disk.old }
    ensures honest { D.is_honest disk.new ≡ D.is_honest disk.old }
    ensures damaged { IsTrue (D.tells disk.old) → (file at : ℕ) → result ≡ Err (MemberFault.Damaged file at)
        → (file ≡ 2 + begin_at position len / 65536) × IsWrongAt (entry_frames (begin_at position len)) ((D.state disk.old).files (2 + begin_at position len / 65536)).reads (begin_at position len % 65536) len (frames_len len) at }

    // Where the files stand for a log that has an entry of so many bytes there, it is what is read, and nothing is
    // Damaged.
    ensures exact { IsTrue (D.tells disk.old) → (log kept : Log) (e : Entry) → IsNextEntry log kept e (D.state disk.old).files → position ≡ place kept → len ≡ length e.bytes → IfOk result (λ v. v.items ≡ e.bytes) }
    ensures sound { IsTrue (D.tells disk.old) → (log kept : Log) (e : Entry) → IsNextEntry log kept e (D.state disk.old).files → position ≡ place kept → len ≡ length e.bytes → (file at : ℕ) → result ≡ Err (MemberFault.Damaged file at) → ⊥ }
    ensures files { IsTrue (D.tells disk.old) → (g : ℕ) → (D.state disk.new).files g ≡ (D.state disk.old).files g }
{
    let begin = begin_of(position, len);
    let segment = (begin / SEGMENT_BYTES) as u32;
    read_event(alloc, disk, segment, begin, len)
}
