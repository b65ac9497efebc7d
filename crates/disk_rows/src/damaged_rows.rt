// Files that were made by hand from the format, each wrong at one place, and what a mount names.
use crate::member_rows::{OPEN, TERM, append, filled, member_with, message, mounted};
use cl_base::{Disk, MemberFault};
use cl_memdisk::MemDisk;
use member_disk::MemberDisk;
use std::alloc::Global;
use std::test::Fail;

/// No candidate term in slot 0, and candidate term 0 in slot 1, which is selected, with a vote for member 0.
const NODE: [u8; 32] = [
    255, 255, 255, 255, 255, 255, 255, 255, 0, 0, 0, 0, 0, 0, 0, 0, 1, 2, 0, 0, 255, 255, 255, 255,
    0, 0, 0, 0, 0, 0, 0, 0,
];

/// The entry of term 0, those of a set at 192, of service 0 and of the module, and a closed gate.
const RECORDS: [u8; 256] = [
    0, 0, 0, 0, 0, 0, 0, 0, 0, 0, 0, 0, 0, 0, 0, 0, 0, 0, 0, 0, 0, 0, 0, 0, 255, 255, 255, 255,
    255, 255, 255, 255, 0x54, 1, 0, 0, 0, 0, 0, 0, 255, 255, 255, 255, 0, 0, 0, 0, 0, 0, 0, 0, 0,
    0, 0, 0, 0, 0, 0, 0, 0, 0, 0, 0x5a, //
    1, 0, 0, 0, 0, 0, 0, 0, 0, 0, 0, 0, 0, 0, 0, 0, 0, 0, 0, 0, 0, 0, 0, 0, 192, 0, 0, 0, 0, 0, 0,
    0, 0x90, 1, 0, 0, 0, 0, 0, 0, 0, 0, 0, 0, 1, 0, 0, 0, 0, 0, 0, 0, 0, 0, 0, 0, 0, 0, 0, 0, 0, 0,
    0, 0x5a, //
    0, 0, 0, 0, 0, 0, 0, 0, 0, 0, 0, 0, 0, 0, 0, 0, 0, 0, 0, 0, 0, 0, 0, 0, 192, 0, 0, 0, 0, 0, 0,
    0, 0x90, 1, 0, 0, 0, 0, 0, 0, 255, 255, 255, 255, 1, 0, 0, 0, 0, 0, 0, 0, 0, 0, 0, 0, 0, 0, 0,
    0, 0, 0, 0, 0x5a, //
    0, 0, 0, 0, 0, 0, 0, 0, 0, 0, 0, 0, 0, 0, 0, 0, 0, 0, 0, 0, 0, 0, 0, 0, 0, 0, 0, 0, 0, 0, 0, 0,
    0, 0, 0, 0, 0, 0, 0, 0, 0, 0, 0, 0, 0, 0, 0, 0, 0, 0, 0, 0, 0, 0, 0, 0, 0, 0, 0, 0, 0, 0, 0, 0,
];

/// Term 0 of leader 0 from 340 ms on, a snapshot action at 400 ms, and a closed gate.
const SEGMENT: [u8; 224] = [
    0x50, 0, 0, 0, 0, 0xc0, 1, 0, 0, 0, 0, 0, 1, 0, 0, 0, 0x64, 0, 0, 0, 0, 0, 0, 0, 0, 0, 0, 0, 0,
    0, 0, 0x5a, 0x28, 0, 0x18, 0, 0x6f, 0, 0, 0, 0, 0, 0, 0, 0, 0, 0, 0, 0, 0, 0, 0, 0, 0, 0, 0,
    0x54, 1, 0, 0, 0, 0, 0, 0, 0, 0, 0, 0, 0, 0, 0, 0, 0, 0, 0, 0, 1, 0, 0, 0, 0, 0, 0, 0, 0, 0, 0,
    0, 0, 0, 0, 0, 0, 0, 0, 0, //
    0x44, 0, 0, 0, 0, 0xc0, 1, 0, 0x60, 0, 0, 0, 1, 0, 0, 0, 0x64, 0, 0, 0, 0, 0, 0, 0, 0, 0, 0, 0,
    0, 0, 0, 0x5a, 0x1c, 0, 0x17, 0, 0x6f, 0, 0, 0, 0, 0, 0, 0, 0, 0, 0, 0, 0x60, 0, 0, 0, 0, 0, 0,
    0, 0x90, 1, 0, 0, 0, 0, 0, 0, 2, 0, 0, 0, 0, 0, 0, 0, 0, 0, 0, 0, 0, 0, 0, 0, 0, 0, 0, 0, 0, 0,
    0, 0, 0, 0, 0, 0, 0, 0, 0, 0, //
    0, 0, 0, 0, 0, 0, 0, 0, 0, 0, 0, 0, 0, 0, 0, 0, 0, 0, 0, 0, 0, 0, 0, 0, 0, 0, 0, 0, 0, 0, 0, 0,
];

/// One piece, a timer's, with its length.
const PIECES: [u8; 28] = [
    24, 0, 0, 0, 16, 0, 111, 0, 111, 0, 0, 0, 7, 0, 0, 0, 0, 0, 0, 0, 8, 0, 0, 0, 0, 0, 0, 0,
];

/// What is wrong with a file.
#[derive(Clone, Copy)]
enum Wrong {
    Nothing,
    /// The byte of this file at this place has this value.
    Byte(u32, usize, u8),
    /// This file has so many bytes: fewer, or more by zeros.
    Length(u32, usize),
}

/// So many bytes of a file, with zeros past its end.
fn with_length(alloc: Global, bytes: &[u8], len: usize) -> Option<Vec<u8>> {
    let mut out = Vec::new(alloc);
    for at in 0..len {
        let byte = if at < bytes.len() { bytes[at] } else { 0 };
        out.push(byte).ok()?;
    }
    Some(out)
}

impl Wrong {
    /// The bytes of a file that is so wrong.
    fn of(self, alloc: Global, file: u32, bytes: &[u8]) -> Option<Vec<u8>> {
        match self {
            Wrong::Byte(wrong, at, value) if wrong == file => {
                let mut out = bytes.to_vec(alloc).ok()?;
                if at >= out.len() {
                    return None;
                }
                out[at] = value;
                Some(out)
            }
            Wrong::Length(wrong, len) if wrong == file => with_length(alloc, bytes, len),
            _ => bytes.to_vec(alloc).ok(),
        }
    }
}

/// Writes a file that is wrong in two ways.
fn write(
    alloc: Global,
    disk: &mut MemDisk,
    file: u32,
    bytes: &[u8],
    wrongs: (Wrong, Wrong),
) -> Option<()> {
    let once = wrongs.0.of(alloc, file, bytes)?;
    let twice = wrongs.1.of(alloc, file, &once)?;
    disk.write_at(file, 0, &twice).ok()
}

/// What a mount names of the files that are wrong in two ways, None where it names nothing.
fn named(alloc: Global, wrongs: (Wrong, Wrong)) -> Option<Option<(u32, u64)>> {
    let Ok(mut disk) = MemDisk::new(alloc, Vec::new(alloc)) else {
        return None;
    };
    write(alloc, &mut disk, 0, &NODE, wrongs)?;
    write(alloc, &mut disk, 1, &RECORDS, wrongs)?;
    write(alloc, &mut disk, 2, &SEGMENT, wrongs)?;
    write(alloc, &mut disk, 258, &PIECES, wrongs)?;
    write(alloc, &mut disk, 259, &PIECES, wrongs)?;
    match MemberDisk::mount(alloc, disk, 1) {
        Ok(_) => Some(None),
        Err((_, MemberFault::Damaged { file, place })) => Some(Some((file, place))),
        Err(_) => None,
    }
}

/// What is wrong, and the file and the place that a mount names.
const ROWS: [(Wrong, u32, u64); 39] = [
    // The node state: its length, and the term in the selected slot.
    (Wrong::Length(0, 0), 0, 0),
    (Wrong::Length(0, 31), 0, 31),
    (Wrong::Length(0, 33), 0, 32),
    (Wrong::Byte(0, 15, 0x80), 0, 8),
    (Wrong::Byte(0, 15, 0x41), 0, 8),
    // The recording log doesn't end with a closed gate.
    (Wrong::Length(1, 0), 1, 0),
    (Wrong::Length(1, 63), 1, 63),
    (Wrong::Length(1, 192), 1, 192),
    (Wrong::Length(1, 255), 1, 255),
    (Wrong::Byte(1, 255, 0x5a), 1, 256),
    // A TERM entry is missing: its term, its base, its stamp, its type, its gate, or the stamp in the log.
    (Wrong::Byte(1, 8, 1), 1, 0),
    (Wrong::Byte(1, 15, 0x80), 1, 0),
    (Wrong::Byte(1, 16, 1), 1, 0),
    (Wrong::Byte(1, 32, 0x55), 1, 0),
    (Wrong::Byte(1, 44, 1), 1, 0),
    (Wrong::Byte(1, 47, 0x80), 1, 0),
    (Wrong::Byte(1, 63, 0), 1, 0),
    (Wrong::Byte(2, 56, 0x55), 1, 0),
    // The segment: its length, a gate, frames, events, terms.
    (Wrong::Length(2, 0), 2, 0),
    (Wrong::Length(2, 100), 2, 100),
    (Wrong::Length(2, 192), 2, 192),
    (Wrong::Length(2, 223), 2, 223),
    (Wrong::Byte(2, 223, 0x5a), 2, 192),
    (Wrong::Byte(2, 96, 0x45), 2, 164),
    (Wrong::Byte(2, 101, 0x80), 2, 96),
    (Wrong::Byte(2, 102, 2), 2, 102),
    (Wrong::Byte(2, 104, 0x61), 2, 104),
    (Wrong::Byte(2, 40, 1), 2, 136),
    (Wrong::Byte(2, 151, 0x80), 2, 144),
    (Wrong::Byte(2, 160, 1), 2, 160),
    (Wrong::Byte(2, 170, 1), 2, 170),
    // The snapshots: a length that isn't all there, and a piece that isn't strict.
    (Wrong::Length(258, 3), 258, 3),
    (Wrong::Length(258, 27), 258, 27),
    (Wrong::Length(258, 30), 258, 30),
    (Wrong::Byte(258, 0, 25), 258, 28),
    (Wrong::Byte(258, 0, 23), 258, 27),
    (Wrong::Byte(258, 6, 116), 258, 6),
    (Wrong::Byte(258, 8, 110), 258, 8),
    (Wrong::Byte(259, 27, 0x80), 259, 20),
];

#[test]
fn the_first_wrong_byte_is_named(rt: HostRuntime) -> Result<(), Fail> {
    let alloc = rt.alloc();
    for row in 0..ROWS.len() {
        let (wrong, file, place) = ROWS[row];
        let answer = named(alloc, (wrong, Wrong::Nothing));
        assert!(rt; answer == Some(Some((file, place))), "row {row}");
    }
    Ok(())
}

/// Bytes that mean nothing.
const SOUND: [Wrong; 9] = [
    Wrong::Nothing,
    // The other slot, and who is voted for.
    Wrong::Byte(0, 7, 0),
    Wrong::Byte(0, 24, 9),
    // Version 1.
    Wrong::Byte(0, 17, 1),
    // The recording of a TERM entry, and what stands behind the last gate.
    Wrong::Byte(1, 0, 9),
    Wrong::Byte(1, 254, 1),
    // The first gate is closed.
    Wrong::Byte(2, 31, 0),
    // No pieces at all.
    Wrong::Length(258, 0),
    // No set is valid.
    Wrong::Byte(1, 111, 0x80),
];

#[test]
fn other_bytes_are_not_named(rt: HostRuntime) -> Result<(), Fail> {
    let alloc = rt.alloc();
    for row in 0..SOUND.len() {
        let answer = named(alloc, (SOUND[row], Wrong::Nothing));
        assert!(rt; answer == Some(None), "row {row}");
    }
    // The snapshots of a set that isn't valid are not looked at.
    let unread = (Wrong::Byte(1, 111, 0x80), Wrong::Byte(259, 6, 116));
    assert!(rt; named(alloc, unread) == Some(None));
    Ok(())
}

/// Two things are wrong, of which the first one is named.
const ORDER: [(Wrong, Wrong, u32, u64); 5] = [
    (Wrong::Byte(1, 255, 0x5a), Wrong::Length(0, 31), 0, 31),
    (Wrong::Byte(2, 102, 2), Wrong::Length(1, 255), 1, 255),
    (Wrong::Byte(1, 8, 1), Wrong::Byte(2, 102, 2), 2, 102),
    (Wrong::Byte(258, 6, 116), Wrong::Byte(1, 8, 1), 1, 0),
    (
        Wrong::Byte(259, 6, 116),
        Wrong::Byte(258, 27, 0x80),
        258,
        20,
    ),
];

#[test]
fn files_are_looked_at_in_order(rt: HostRuntime) -> Result<(), Fail> {
    let alloc = rt.alloc();
    for row in 0..ORDER.len() {
        let (first, second, file, place) = ORDER[row];
        assert!(rt;
            named(alloc, (first, second)) == Some(Some((file, place))),
            "row {row}"
        );
    }
    Ok(())
}

/// The header of the first frame of an entry in several frames, at place 64,128: it ends with the segment.
const LAST_FRAME: [u8; 32] = [
    0x80, 5, 0, 0, 0, 0x80, 1, 0, 0x80, 0xfa, 0, 0, 1, 0, 0, 0, 0x64, 0, 0, 0, 0, 0, 0, 0, 0, 0, 0,
    0, 0, 0, 0, 0x5a,
];

/// A disk of a log that ends at place 64,128.
fn nearly_full(alloc: Global) -> Option<MemDisk> {
    let member = filled(alloc, 62)?;
    let short = message(alloc, 384)?;
    let member = append(alloc, member, &short).ok()?;
    if member.index().place() != 64_128 {
        return None;
    }
    Some(member.into_disk())
}

/// Writes bytes at a place of the first segment, which has that many at least.
fn write_segment<D: Disk>(disk: &mut D, at: u64, bytes: &[u8]) -> Option<()> {
    match disk.len(2) {
        Ok(len) if at <= len => disk.write_at(2, at, bytes).ok(),
        _ => None,
    }
}

#[test]
fn an_entry_does_not_pass_its_segments_end(rt: HostRuntime) -> Result<(), Fail> {
    let alloc = rt.alloc();
    let mut disk = nearly_full(alloc).ok_or("disk")?;
    let event = message(alloc, 1_344).ok_or("message")?;
    write_segment(&mut disk, 64_160, &event).ok_or("event")?;
    write_segment(&mut disk, 64_128, &LAST_FRAME).ok_or("frame")?;
    match MemberDisk::mount(alloc, disk, 1) {
        Ok(_) => return Err(Fail::from("mount")),
        Err((_, fault)) => {
            let want = MemberFault::Damaged {
                file: 2,
                place: 65_536,
            };
            assert!(rt; fault == want);
        }
    }
    Ok(())
}

/// A node state of version 1 under a member's other files: the vote is nobody's, and the file is one of version 2 then.
#[test]
fn a_node_state_of_version_1_is_migrated(rt: HostRuntime) -> Result<(), Fail> {
    let alloc = rt.alloc();
    let member = member_with(alloc, &[&TERM, &OPEN]).ok_or("member")?;
    let mut disk = member.into_disk();
    let old = Wrong::Byte(0, 17, 1).of(alloc, 0, &NODE).ok_or("old")?;
    assert!(rt; disk.write_at(0, 0, &old).is_ok());
    let member = mounted(alloc, disk).ok_or("mount")?;
    assert!(rt; member.durable().candidate_term() == 0 && member.durable().voted() == None);
    assert!(rt; member.index().entries() == 2);
    let mut disk = member.into_disk();
    let mut bytes = [0; 32];
    assert!(rt; disk.read_at(0, 0, &mut bytes) == Ok(32));
    let mut want = NODE;
    for at in 24..28usize {
        want[at] = 255;
    }
    assert!(rt; bytes == want);
    Ok(())
}
