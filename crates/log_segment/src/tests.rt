// Frames and faults, by bytes that were made by hand from the format.
use crate::Segments;
use crate::scan::frames_size;
use crate::spell::push_event;
use cl_base::{Disk, MemberFault, NoMemory};
use cl_memdisk::MemDisk;
use std::alloc::{AllocError, Global};
use std::process::Abort;
use std::test::Fail;
use wire_prims::write_frame;

/// A leader of member 0 begins term 0 at place 0 and 340 ms.
const TERM: [u8; 48] = [
    0x28, 0, 0x18, 0, 0x6f, 0, 0, 0, 0, 0, 0, 0, 0, 0, 0, 0, 0, 0, 0, 0, 0, 0, 0, 0, 0x54, 1, 0, 0,
    0, 0, 0, 0, 0, 0, 0, 0, 0, 0, 0, 0, 0, 0, 0, 0, 1, 0, 0, 0,
];

/// What stands before the payload of a message of session 1 in term 0.
const MESSAGE: [u8; 32] = [
    0x18, 0, 1, 0, 0x6f, 0, 0, 0, 0, 0, 0, 0, 0, 0, 0, 0, 1, 0, 0, 0, 0, 0, 0, 0, 7, 0, 0, 0, 0, 0,
    0, 0,
];

/// Puts bytes behind others.
fn put(out: &mut Vec<u8>, bytes: &[u8]) -> Result<(), NoMemory> {
    match out.extend_from_slice(bytes) {
        Ok(()) => Ok(()),
        Err(_) => Err(NoMemory),
    }
}

/// The first bytes of others.
fn front<'a>(rt: &impl Abort, bytes: &'a [u8], count: usize) -> &'a [u8] {
    assert!(rt; count <= bytes.len());
    &bytes[..count]
}

/// A message of so many letters.
fn message(alloc: Global, letters: usize) -> Result<Vec<u8>, NoMemory> {
    let mut event = Vec::new(alloc);
    put(&mut event, &MESSAGE)?;
    for _ in 0..letters {
        put(&mut event, b"a")?;
    }
    Ok(event)
}

/// Puts the frames of an event, written at a place, behind others.
fn put_event(rt: &impl Abort, out: &mut Vec<u8>, at: u64, event: &[u8]) -> Result<(), NoMemory> {
    let len = event.len();
    assert!(rt; 0 < len && len <= 32_768);
    assert!(rt; at % 32 == 0 && at < 16_777_216);
    assert!(rt; at % 65_536 + frames_size(len as u64) <= 65_536);
    push_event(out, at, event)
}

/// What a mount answers where the first segments have these bytes.
fn mounted(
    alloc: Global,
    first: &[u8],
    second: &[u8],
) -> Result<Result<u64, MemberFault>, NoMemory> {
    let mut disk = MemDisk::new(alloc, Vec::new(alloc))?;
    if disk.write_at(2, 0, first).is_err() || disk.write_at(3, 0, second).is_err() {
        return Err(NoMemory);
    }
    match Segments::mount(alloc, &mut disk) {
        Ok(segments) => Ok(Ok(segments.index().entries())),
        Err(fault) => Ok(Err(fault)),
    }
}

/// A new term, a message of three frames, and a closed gate.
fn two_entries(rt: &impl Abort, alloc: Global) -> Result<Vec<u8>, NoMemory> {
    let mut file = Vec::new(alloc);
    put_event(rt, &mut file, 0, &TERM)?;
    let event = message(alloc, 2_800)?;
    put_event(rt, &mut file, 96, &event)?;
    put(&mut file, &[0; 32])?;
    Ok(file)
}

#[test]
fn frames_are_those_of_the_format(rt: HostRuntime) -> Result<(), Fail> {
    let alloc = rt.alloc();
    let mut file = Vec::new(alloc);
    put_event(&rt, &mut file, 0, &TERM)?;
    let header = [
        0x50, 0, 0, 0, 0, 0xc0, 1, 0, 0, 0, 0, 0, 1, 0, 0, 0, 0x64, 0, 0, 0, 0, 0, 0, 0, 0, 0, 0,
        0, 0, 0, 0, 0x5a,
    ];
    let mut wanted = Vec::new(alloc);
    put(&mut wanted, &header)?;
    put(&mut wanted, &TERM)?;
    put(&mut wanted, &[0; 16])?;
    assert!(rt; file.as_slice() == wanted.as_slice());
    let event = message(alloc, 16_384)?;
    let mut long = Vec::new(alloc);
    put_event(&rt, &mut long, 192, &event)?;
    assert_eq!(rt; long.len(), 16_800);
    let first = [
        0x80, 5, 0, 0, 0, 0x80, 1, 0, 0xc0, 0, 0, 0, 1, 0, 0, 0, 0x64, 0, 0, 0, 0, 0, 0, 0, 0, 0,
        0, 0, 0, 0, 0, 0x5a,
    ];
    assert!(rt; front(&rt, &long, 32) == first.as_slice());
    Ok(())
}

/// A byte, what it is changed to, and where the mount then finds the first wrong byte.
const ROWS: [(usize, u8, u64); 36] = [
    (0, 0x51, 80),
    (0, 0x1f, 0),
    (1, 0x10, 0),
    (4, 1, 4),
    (5, 0x13, 5),
    (5, 0x40, 5),
    (5, 0x80, 0),
    (6, 2, 6),
    (6, 0, 0),
    (7, 1, 7),
    (8, 1, 8),
    (12, 2, 12),
    (16, 0x65, 16),
    (20, 1, 20),
    (24, 1, 24),
    (30, 1, 30),
    (32, 41, 32),
    (34, 25, 34),
    (36, 0x6e, 36),
    (47, 0x80, 40),
    (64, 1, 64),
    (76, 2, 76),
    (85, 1, 85),
    // The message's term is below.
    (40, 1, 136),
    (101, 0xc0, 1_509),
    (1_504, 0x7f, 1_504),
    (1_509, 0x80, 1_509),
    (1_510, 0, 1_504),
    (1_535, 0, 1_535),
    (2_912, 0x20, 2_912),
    (2_917, 0, 2_912),
    (2_943, 0x5b, 2_943),
    (3_030, 1, 3_030),
    (3_071, 0x5a, 3_040),
    (98, 1, 96),
    (2_920, 0x61, 2_920),
];

#[test]
fn the_first_wrong_byte_is_named(rt: HostRuntime) -> Result<(), Fail> {
    let alloc = rt.alloc();
    for (at, value, place) in ROWS {
        let mut file = two_entries(&rt, alloc)?;
        assert!(rt; at < file.len());
        file[at] = value;
        let answer = mounted(alloc, &file, &[])?;
        assert!(rt;
            answer == Err(MemberFault::Damaged { file: 2, place }),
            "byte {at}"
        );
    }
    for len in [3_071usize, 3_040, 3_000, 2_912, 2_000, 1_504, 96, 31, 0] {
        let file = two_entries(&rt, alloc)?;
        assert!(rt; len <= file.len());
        let answer = mounted(alloc, &file[..len], &[])?;
        assert!(rt;
            answer
                == Err(MemberFault::Damaged {
                    file: 2,
                    place: len as u64
                }),
            "{len} bytes"
        );
    }
    let file = two_entries(&rt, alloc)?;
    assert!(rt; mounted(alloc, &file, &[])? == Ok(2));
    Ok(())
}

#[test]
fn a_pad_leads_to_an_entry_that_did_not_fit(rt: HostRuntime) -> Result<(), Fail> {
    let alloc = rt.alloc();
    let mut first = Vec::new(alloc);
    put_event(&rt, &mut first, 0, &TERM)?;
    let mut pad = [0; 32];
    write_frame(&mut pad, 96, 0x5a, 0xc0, true, &[]);
    put(&mut first, &pad)?;
    let mut entry = Vec::new(alloc);
    put_event(&rt, &mut entry, 65_536, &TERM)?;
    let mut other = [0; 32];
    write_frame(&mut other, 65_536, 0x5a, 0xc0, true, &[]);
    let wrong = Err(MemberFault::Damaged {
        file: 2,
        place: 102,
    });
    assert!(rt; mounted(alloc, &first, &[])? == wrong);
    assert!(rt; mounted(alloc, &first, &[0; 32])? == wrong);
    assert!(rt; mounted(alloc, &first, &other)? == wrong);
    assert!(rt; mounted(alloc, &first, &entry)? == wrong);
    Ok(())
}
