// Appends in a segment, in several frames, behind a pad and to a segment's end.
use crate::disks::CHOICES;
use crate::member_rows::{
    Image, Log, OPEN, TERM, append_under, filled, member_with, message, mounted,
};
use cl_base::{Choice, Disk, MemberFault};
use std::alloc::Global;
use std::test::Fail;

/// Whether a crash by this choice leaves a gate open that was written and not synced.
fn takes_gate(choice: Choice) -> bool {
    choice == Choice::Keep || choice == Choice::Fill(0x5a)
}

/// Whether an append of so many calls is one change under each fuse and choice: the log after it is there where all its
/// calls were made, or all but the last and the choice takes the gate.
fn is_one_change(alloc: Global, image: &Image, event: &[u8], calls: u64, logs: (Log, Log)) -> bool {
    for choice in CHOICES {
        for fuse in 0..calls.saturating_add(1) {
            let is_done = fuse == calls;
            let is_last = fuse.saturating_add(1) == calls;
            let is_after = is_done || is_last && takes_gate(choice);
            let fault = if is_done {
                None
            } else {
                Some(MemberFault::Device)
            };
            let log = if is_after { logs.1 } else { logs.0 };
            if appended(alloc, image, event, fuse, choice) != Some((fault, log)) {
                return false;
            }
        }
    }
    true
}

/// Appends an event to the log of these files under a fuse, and crashes.
fn appended(
    alloc: Global,
    image: &Image,
    event: &[u8],
    fuse: u64,
    choice: Choice,
) -> Option<(Option<MemberFault>, Log)> {
    let member = mounted(alloc, image.disk(alloc, None)?)?;
    append_under(alloc, member, event, fuse, choice)
}

/// The letters of a message, the calls of its append, and the log after it.
type Append = (usize, u64, Log);

/// Whether the append of each of these messages is one change, behind so many messages of 960 letters.
fn are_one_change(alloc: Global, messages: u64, before: Log, appends: &[Append]) -> Option<bool> {
    let image = Image::of(alloc, filled(alloc, messages)?.into_disk())?;
    for (letters, calls, after) in appends {
        let event = message(alloc, *letters)?;
        if !is_one_change(alloc, &image, &event, *calls, (before, *after)) {
            return Some(false);
        }
    }
    Some(true)
}

#[test]
fn a_fuse_ends_an_append_in_a_segment(rt: HostRuntime) -> Result<(), Fail> {
    let alloc = rt.alloc();
    // In one frame, and in several.
    let appends = [(5, 5, (3, 288)), (4_000, 5, (3, 4_320))];
    assert!(rt; are_one_change(alloc, 0, (2, 192), &appends) == Some(true));
    // An open behind a term.
    let member = member_with(alloc, &[&TERM]).ok_or("member")?;
    let image = Image::of(alloc, member.into_disk()).ok_or("image")?;
    assert!(rt; is_one_change(alloc, &image, &OPEN, 5, ((1, 96), (2, 192))));
    Ok(())
}

#[test]
fn a_fuse_ends_an_append_behind_a_pad(rt: HostRuntime) -> Result<(), Fail> {
    let appends = [(960, 6, (66, 66_560))];
    assert!(rt; are_one_change(rt.alloc(), 63, (65, 64_704), &appends) == Some(true));
    Ok(())
}

#[test]
fn a_fuse_ends_an_append_to_a_segments_end(rt: HostRuntime) -> Result<(), Fail> {
    let appends = [(768, 7, (66, 65_536))];
    assert!(rt; are_one_change(rt.alloc(), 63, (65, 64_704), &appends) == Some(true));
    Ok(())
}

/// The first frame of a log whose first entry is that of a term.
const FRAME: [u8; 96] = [
    0x50, 0, 0, 0, 0, 0xc0, 1, 0, 0, 0, 0, 0, 1, 0, 0, 0, 0x64, 0, 0, 0, 0, 0, 0, 0, 0, 0, 0, 0, 0,
    0, 0, 0x5a, 0x28, 0, 0x18, 0, 0x6f, 0, 0, 0, 0, 0, 0, 0, 0, 0, 0, 0, 0, 0, 0, 0, 0, 0, 0, 0,
    0x54, 1, 0, 0, 0, 0, 0, 0, 0, 0, 0, 0, 0, 0, 0, 0, 0, 0, 0, 0, 1, 0, 0, 0, 0, 0, 0, 0, 0, 0, 0,
    0, 0, 0, 0, 0, 0, 0, 0, 0,
];

/// The header of the first frame of a message of 16,384 letters at place 192, and of its last one.
const LONG: [(u64, [u8; 32]); 2] = [
    (
        192,
        [
            0x80, 5, 0, 0, 0, 0x80, 1, 0, 0xc0, 0, 0, 0, 1, 0, 0, 0, 0x64, 0, 0, 0, 0, 0, 0, 0, 0,
            0, 0, 0, 0, 0, 0, 0x5a,
        ],
    ),
    (
        15_680,
        [
            0x20, 5, 0, 0, 0, 0x40, 1, 0, 0x40, 0x3d, 0, 0, 1, 0, 0, 0, 0x64, 0, 0, 0, 0, 0, 0, 0,
            0, 0, 0, 0, 0, 0, 0, 0x5a,
        ],
    ),
];

#[test]
fn entries_lie_in_frames(rt: HostRuntime) -> Result<(), Fail> {
    let alloc = rt.alloc();
    let event = message(alloc, 16_384).ok_or("message")?;
    let member = member_with(alloc, &[&TERM, &OPEN, &event]).ok_or("member")?;
    let mut disk = member.into_disk();
    let mut bytes = [0; 96];
    assert!(rt; disk.read_at(2, 0, &mut bytes) == Ok(96));
    assert!(rt; bytes == FRAME);
    for (place, want) in LONG {
        let mut header = [0; 32];
        assert!(rt; disk.read_at(2, place, &mut header) == Ok(32));
        assert!(rt; header == want, "place {place}");
    }
    Ok(())
}

#[test]
fn a_long_message_is_read_again(rt: HostRuntime) -> Result<(), Fail> {
    let alloc = rt.alloc();
    let event = message(alloc, 16_384).ok_or("message")?;
    let member = member_with(alloc, &[&TERM, &OPEN, &event]).ok_or("member")?;
    let mut disk = member.into_disk();
    disk.crash(Choice::Drop);
    let mut member = mounted(alloc, disk).ok_or("mount")?;
    assert!(rt; member.index().entries() == 3 && member.is_whole());
    let read = member.read(2).ok().ok_or("read")?;
    assert!(rt; read.term == 0 && read.bytes.as_slice() == event.as_slice());
    Ok(())
}

/// The letters of a message behind a term, and where the log then ends: a message of n letters has n + 32 bytes.
const ENDS: [(usize, u64); 7] = [
    (0, 160),
    (1, 192),
    (32, 192),
    (33, 224),
    (1_344, 1_504),
    (1_345, 1_568),
    (16_384, 16_896),
];

#[test]
fn an_entry_ends_behind_its_last_frame(rt: HostRuntime) -> Result<(), Fail> {
    let alloc = rt.alloc();
    for (letters, end) in ENDS {
        let event = message(alloc, letters).ok_or("message")?;
        let member = member_with(alloc, &[&TERM, &event]).ok_or("member")?;
        assert!(rt; member.index().place() == end, "{letters} letters");
    }
    Ok(())
}
