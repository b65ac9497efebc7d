use sbe_consensus::*;
use std::alloc::{AllocError, Global};
use std::test::*;
use wire_prims::{Bad, DecodeFault};

const CANVASS: &str =
    "1c00 3200 6f00 0000 0200000000000000 6000000000000000 ffffffffffffffff 04000000";

const REQUEST_VOTE: &str =
    "1c00 3300 6f00 0000 0200000000000000 c001000000000000 0300000000000000 01000000";

/// The position is 2^62.
const VOTE: &str =
    "2400 3400 6f00 0000 0300000000000000 ffffffffffffffff 0000000000000040 01000000 02000000 01000000";

const ANSWER: &str =
    "2c00 3500 6f00 0000 0400000000000000 c000000000000000 0300000000000000 6000000000000000 0500000000000000 03000000";

const ANNOUNCEMENT: &str =
    "2c00 3500 6f00 0000 feffffffffffffff 0000000000000000 ffffffffffffffff 0000000000000000 0500000000000000 03000000";

const APPEND: &str = "1400 3600 6f00 0000 0500000000000000 2001000000000000 02000000";

const COMMIT: &str = "1400 3700 6f00 0000 0500000000000000 c000000000000000 00000000";

/// A timer of 32 bytes, which begins at 36, and a message of 34 bytes, which begins at 72.
const LOG_BATCH: &str =
    "1800 7800 6f00 0000 0500000000000000 6000000000000000 03000000 02000000 20000000 1800 1400 6f00 0000 0400000000000000 f8ffffffffffffff 0900000000000000 22000000 1800 0100 6f00 0000 0500000000000000 0200000000000000 0300000000000000 6869";

fn digit(b: u8) -> u8 {
    match b {
        b'0'..=b'9' => b - b'0',
        b'a'..=b'f' => b - b'a' + 10,
        _ => 0,
    }
}

/// The bytes of digits, two for each. Spaces are skipped.
fn bytes_of(alloc: Global, text: &str) -> Result<Vec<u8>, AllocError> {
    let mut bytes = Vec::new(alloc);
    let mut high = None;
    for b in text.as_bytes() {
        if *b == b' ' {
            continue;
        }
        match high {
            None => high = Some(digit(*b)),
            Some(h) => {
                bytes.push(h << 4 | digit(*b))?;
                high = None;
            }
        }
    }
    Ok(bytes)
}

/// The bytes of digits, one of them changed.
fn changed(alloc: Global, text: &str, place: usize, value: u8) -> Result<Vec<u8>, AllocError> {
    let mut bytes = bytes_of(alloc, text)?;
    if place < bytes.len() {
        bytes[place] = value;
    }
    Ok(bytes)
}

/// What bytes are decoded to, and whether that is encoded to the same bytes.
fn text_of(alloc: Global, bytes: &[u8]) -> Result<String, Fail> {
    match decode_packet(alloc, bytes) {
        Ok(p) => {
            let again = encode_packet(alloc, &p).ok().ok_or("bytes")?;
            Ok(format!(in alloc; "{:?} {}", p, again.as_slice() == bytes)?)
        }
        Err(DecodeFault::Bad(Bad { place, cause })) => Ok(format!(in alloc; "{place} {cause:?}")?),
        Err(DecodeFault::NoMemory) => Ok(format!(in alloc; "no memory")?),
    }
}

#[test]
fn packets_go_both_ways(rt: HostRuntime) -> Result<(), Fail> {
    let alloc = rt.alloc();
    for (text, want) in [
        (
            CANVASS,
            "Canvass { log_term: 2, log_position: 96, candidate_term: -1, member: 4 } true",
        ),
        (
            REQUEST_VOTE,
            "RequestVote { log_term: 2, log_position: 448, candidate_term: 3, candidate: 1 } true",
        ),
        (
            VOTE,
            "Vote { candidate_term: 3, log_term: -1, log_position: 4611686018427387904, candidate: 1, follower: 2, vote: 1 } true",
        ),
        (
            ANSWER,
            "NewTerm { asked_term: 4, asked_position: 192, keep_term: 3, keep_position: 96, term: 5, leader: 3 } true",
        ),
        (
            ANNOUNCEMENT,
            "NewTerm { asked_term: -2, asked_position: 0, keep_term: -1, keep_position: 0, term: 5, leader: 3 } true",
        ),
        (APPEND, "Append { term: 5, position: 288, member: 2 } true"),
        (COMMIT, "Commit { term: 5, position: 192, leader: 0 } true"),
        (
            LOG_BATCH,
            "LogBatch { term: 5, start_position: 96, leader: 3, entries: List { items: [Entry { term: 4, bytes: Bytes { bytes: [24, 0, 20, 0, 111, 0, 0, 0, 4, 0, 0, 0, 0, 0, 0, 0, 248, 255, 255, 255, 255, 255, 255, 255, 9, 0, 0, 0, 0, 0, 0, 0] } }, Entry { term: 5, bytes: Bytes { bytes: [24, 0, 1, 0, 111, 0, 0, 0, 5, 0, 0, 0, 0, 0, 0, 0, 2, 0, 0, 0, 0, 0, 0, 0, 3, 0, 0, 0, 0, 0, 0, 0, 104, 105] } }] } } true",
        ),
    ] {
        let bytes = bytes_of(alloc, text)?;
        assert_eq!(rt; text_of(alloc, &bytes)?.as_str(), want);
    }
    Ok(())
}

#[test]
fn a_front_is_short_and_a_byte_too_many_trails(rt: HostRuntime) -> Result<(), Fail> {
    let alloc = rt.alloc();
    for text in [
        CANVASS,
        REQUEST_VOTE,
        VOTE,
        ANSWER,
        ANNOUNCEMENT,
        APPEND,
        COMMIT,
        LOG_BATCH,
    ] {
        let bytes = bytes_of(alloc, text)?;
        for n in 0..bytes.len() {
            let found = text_of(alloc, &bytes[..n])?;
            let short = format!(in alloc; "{n} Short")?;
            assert_eq!(rt; found.as_str(), short.as_str(), "{n} bytes of {text}");
        }
        let mut longer = bytes_of(alloc, text)?;
        longer.push(0)?;
        let trailing = format!(in alloc; "{} Trailing", bytes.len())?;
        assert_eq!(rt; text_of(alloc, &longer)?.as_str(), trailing.as_str());
        for (place, value, want) in [
            (0, 29u8, "0 Block"),
            (2, 56, "2 Template"),
            (5, 1, "4 Schema"),
            (7, 1, "6 Value"),
        ] {
            let bytes = changed(alloc, text, place, value)?;
            assert_eq!(rt; text_of(alloc, &bytes)?.as_str(), want, "at {text}");
        }
    }
    Ok(())
}

#[test]
fn a_number_out_of_range_is_named_by_its_place(rt: HostRuntime) -> Result<(), Fail> {
    let alloc = rt.alloc();
    for (text, place, value, want) in [
        (CANVASS, 15, 0x40u8, "8 Value"),
        (CANVASS, 23, 0x80, "16 Value"),
        // -2, where -1 is allowed
        (CANVASS, 24, 0xfe, "24 Value"),
        (CANVASS, 32, 5, "32 Value"),
        (CANVASS, 35, 0x80, "32 Value"),
        (REQUEST_VOTE, 15, 0x80, "8 Value"),
        (REQUEST_VOTE, 23, 0x40, "16 Value"),
        (REQUEST_VOTE, 31, 0xff, "24 Value"),
        (REQUEST_VOTE, 32, 5, "32 Value"),
        (VOTE, 15, 0x80, "8 Value"),
        (VOTE, 16, 0xfe, "16 Value"),
        // 2^62 + 1
        (VOTE, 24, 1, "24 Value"),
        (VOTE, 32, 5, "32 Value"),
        (VOTE, 36, 5, "36 Value"),
        (VOTE, 40, 2, "40 Value"),
        (VOTE, 43, 0xff, "40 Value"),
        (ANSWER, 15, 0x80, "8 Value"),
        (ANSWER, 23, 0x80, "16 Value"),
        (ANSWER, 31, 0x80, "24 Value"),
        (ANSWER, 39, 0x40, "32 Value"),
        (ANSWER, 47, 0x80, "40 Value"),
        (ANSWER, 48, 5, "48 Value"),
        // -3
        (ANNOUNCEMENT, 8, 0xfd, "8 Value"),
        (ANNOUNCEMENT, 16, 1, "16 Value"),
        (ANNOUNCEMENT, 24, 0xfe, "24 Value"),
        (ANNOUNCEMENT, 32, 1, "32 Value"),
        (ANNOUNCEMENT, 47, 0x80, "40 Value"),
        (ANNOUNCEMENT, 48, 5, "48 Value"),
        (APPEND, 15, 0x80, "8 Value"),
        (APPEND, 23, 0x40, "16 Value"),
        (APPEND, 24, 5, "24 Value"),
        (COMMIT, 15, 0x40, "8 Value"),
        (COMMIT, 23, 0x80, "16 Value"),
        (COMMIT, 27, 0x80, "24 Value"),
        (LOG_BATCH, 15, 0x80, "8 Value"),
        (LOG_BATCH, 23, 0x80, "16 Value"),
        (LOG_BATCH, 24, 5, "24 Value"),
        (LOG_BATCH, 28, 0, "28 Value"),
        (LOG_BATCH, 28, 65, "28 Value"),
        // Another number of entries, and other lengths of them.
        (LOG_BATCH, 28, 1, "68 Trailing"),
        (LOG_BATCH, 28, 3, "106 Short"),
        (LOG_BATCH, 35, 1, "106 Short"),
        (LOG_BATCH, 68, 31, "103 Short"),
        // Inside the timer.
        (LOG_BATCH, 36, 25, "36 Block"),
        (LOG_BATCH, 38, 2, "38 Template"),
        (LOG_BATCH, 67, 0x80, "60 Value"),
        // Inside the message.
        (LOG_BATCH, 76, 112, "76 Schema"),
        (LOG_BATCH, 78, 1, "78 Value"),
        (LOG_BATCH, 88, 0, "88 Value"),
    ] {
        let bytes = changed(alloc, text, place, value)?;
        assert_eq!(rt;
            text_of(alloc, &bytes)?.as_str(),
            want,
            "{value} at {place} of {text}"
        );
    }
    Ok(())
}

#[test]
fn the_first_of_two_faults_is_named(rt: HostRuntime) -> Result<(), Fail> {
    let alloc = rt.alloc();
    for (text, want) in [
        // A request for a vote in no term.
        (
            "1c00 3300 6f00 0000 0200000000000000 c001000000000000 ffffffffffffffff 01000000",
            "24 Value",
        ),
        // An announcement that names a place.
        (
            "2c00 3500 6f00 0000 feffffffffffffff c000000000000000 0300000000000000 6000000000000000 0500000000000000 03000000",
            "16 Value",
        ),
        // Another version, and an entry that is missing.
        (
            "1800 7800 6f00 0100 0500000000000000 6000000000000000 03000000 01000000",
            "32 Short",
        ),
        // Another version, and no entries.
        (
            "1800 7800 6f00 0100 0500000000000000 6000000000000000 03000000 00000000",
            "6 Value",
        ),
        // A leader out of range, and an entry that isn't an event.
        (
            "1800 7800 6f00 0000 0500000000000000 6000000000000000 05000000 01000000 01000000 00",
            "24 Value",
        ),
        // An entry that isn't an event, and a byte behind it.
        (
            "1800 7800 6f00 0000 0500000000000000 6000000000000000 03000000 01000000 01000000 00 00",
            "37 Short",
        ),
        // A timer with a byte too many, and a byte behind it.
        (
            "1800 7800 6f00 0000 0500000000000000 6000000000000000 03000000 01000000 21000000 1800 1400 6f00 0000 0400000000000000 f8ffffffffffffff 0900000000000000 00 00",
            "68 Trailing",
        ),
    ] {
        let bytes = bytes_of(alloc, text)?;
        assert_eq!(rt; text_of(alloc, &bytes)?.as_str(), want, "at {text}");
    }
    Ok(())
}
