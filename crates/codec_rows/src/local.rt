use sbe_local::*;
use std::alloc::{AllocError, Global};
use std::test::*;
use wire_prims::{Bad, BadCause, DecodeFault};

fn digit(b: u8) -> u8 {
    match b {
        b'0'..=b'9' => b - b'0',
        b'a'..=b'f' => b - b'a' + 10,
        _ => 0,
    }
}

/// The bytes of digits, two for each. Spaces are skipped.
fn bytes_of(alloc: Global, text: &str) -> Result<Vec<u8>, AllocError> {
    let mut bytes = Vec::new(alloc);
    let mut high = None;
    for b in text.as_bytes() {
        if *b == b' ' {
            continue;
        }
        match high {
            None => high = Some(digit(*b)),
            Some(h) => {
                bytes.push(h << 4 | digit(*b))?;
                high = None;
            }
        }
    }
    Ok(bytes)
}

/// What bytes are decoded to, and whether that is encoded to the same bytes.
fn command_text(alloc: Global, bytes: &[u8]) -> Result<String, Fail> {
    match decode_command(alloc, bytes) {
        Ok(c) => {
            let again = encode_command(alloc, &c).ok().ok_or("bytes")?;
            Ok(format!(in alloc; "{:?} {}", c, again.as_slice() == bytes)?)
        }
        Err(DecodeFault::Bad(Bad { place, cause })) => Ok(format!(in alloc; "{place} {cause:?}")?),
        Err(DecodeFault::NoMemory) => Ok(format!(in alloc; "no memory")?),
    }
}

fn piece_text(alloc: Global, bytes: &[u8]) -> Result<String, Fail> {
    match decode_piece(alloc, bytes) {
        Ok(p) => {
            let again = encode_piece(alloc, &p).ok().ok_or("bytes")?;
            Ok(format!(in alloc; "{:?} {}", p, again.as_slice() == bytes)?)
        }
        Err(DecodeFault::Bad(Bad { place, cause })) => Ok(format!(in alloc; "{place} {cause:?}")?),
        Err(DecodeFault::NoMemory) => Ok(format!(in alloc; "no memory")?),
    }
}

/// Whether so many bytes of a message are told to be too short.
fn is_short(alloc: Global, told: &str, bytes: usize) -> Result<bool, Fail> {
    let short = format!(in alloc; "{bytes} Short")?;
    Ok(told == short.as_str())
}

/// The length of the first front of a command that isn't told to be short; its own where all are.
fn short_commands(alloc: Global, bytes: &[u8]) -> Result<usize, Fail> {
    for n in 0..bytes.len() {
        let told = command_text(alloc, &bytes[..n])?;
        if !is_short(alloc, told.as_str(), n)? {
            return Ok(n);
        }
    }
    Ok(bytes.len())
}

/// The length of the first front of a piece that isn't told to be short; its own where all are.
fn short_pieces(alloc: Global, bytes: &[u8]) -> Result<usize, Fail> {
    for n in 0..bytes.len() {
        let told = piece_text(alloc, &bytes[..n])?;
        if !is_short(alloc, told.as_str(), n)? {
            return Ok(n);
        }
    }
    Ok(bytes.len())
}

/// Whether a byte behind a piece is told to be one too many.
fn trails(alloc: Global, text: &str) -> Result<bool, Fail> {
    let mut longer = bytes_of(alloc, text)?;
    let trailing = format!(in alloc; "{} Trailing", longer.len())?;
    longer.push(0)?;
    let told = piece_text(alloc, &longer)?;
    Ok(told.as_str() == trailing.as_str())
}

#[test]
fn commands_go_both_ways(rt: HostRuntime) -> Result<(), Fail> {
    let alloc = rt.alloc();
    for (text, want) in [
        (
            "1800 0100 6f00 0000 ffffffffffffffff fdffffffffffffff 0000000000000000",
            "Offer { service: 0, number: 2, payload: Bytes { bytes: [] } } true",
        ),
        (
            "0800 1e00 6f00 0000 0500000000000000",
            "CloseSession { session: 5 } true",
        ),
        (
            "1000 1f00 6f00 0000 0700000000000000 ffffffffffffffff",
            "Schedule { corr: 7, deadline: -1 } true",
        ),
        (
            "0800 2000 6f00 0000 0700000000000000",
            "Cancel { corr: 7 } true",
        ),
        (
            "0c00 2100 6f00 0000 8001000000000000 02000000",
            "Ack { position: 384, service: 2 } true",
        ),
    ] {
        let bytes = bytes_of(alloc, text)?;
        assert_eq!(rt; command_text(alloc, &bytes)?.as_str(), want);
        assert_eq!(rt;
            short_commands(alloc, &bytes)?,
            bytes.len(),
            "fronts of {text}"
        );
    }
    Ok(())
}

#[test]
fn commands_with_a_fault(rt: HostRuntime) -> Result<(), Fail> {
    let alloc = rt.alloc();
    for (text, want) in [
        (
            "0c00 2100 6f00 0000 8001000000000000 02000000 00",
            "20 Trailing",
        ),
        ("0c00 2100 6f00 0000 8001000000000000 03000000", "16 Value"),
        ("0c00 2100 6f00 0100 8001000000000000 02000000", "6 Value"),
        ("0d00 2100 6f00 0000 8001000000000000 02000000", "0 Block"),
        (
            "0c00 6400 6f00 0000 8001000000000000 02000000",
            "2 Template",
        ),
    ] {
        let bytes = bytes_of(alloc, text)?;
        assert_eq!(rt; command_text(alloc, &bytes)?.as_str(), want, "at {text}");
    }
    Ok(())
}

#[test]
fn pieces_go_both_ways(rt: HostRuntime) -> Result<(), Fail> {
    let alloc = rt.alloc();
    for (text, want) in [
        (
            "2000 6400 6f00 0000 ffffffffffffffff 8001000000000000 0000000000000000 00000000 02000000",
            "Marker { service: -1, position: 384, term: 0, mark: End } true",
        ),
        (
            "2000 6e00 6f00 0000 0100000000000000 0200000000000000 9a01000000000000 fdffffff 01000000 01000000 61",
            "Session { id: 1, corr: 2, stamp: 410, stream: -3, closing: true, channel: Bytes { bytes: [97] } } true",
        ),
        (
            "1000 6f00 6f00 0000 0700000000000000 dc05000000000000",
            "Timer { corr: 7, deadline: 1500 } true",
        ),
        (
            "1c00 7000 6f00 0000 0200000000000000 0100000000000000 0400000000000000 ffffffff",
            "Module { next_session: 2, actions: 1, entries: 4, leader: -1 } true",
        ),
        (
            "0c00 7100 6f00 0000 0300000000000000 01000000 02000000 6869",
            "Pending { number: 3, service: 1, payload: Bytes { bytes: [104, 105] } } true",
        ),
        (
            "0000 7200 6f00 0000 01000000 ff",
            "ServiceState { bytes: Bytes { bytes: [255] } } true",
        ),
        (
            "1400 7300 6f00 0000 0500000000000000 0400000000000000 02000000",
            "Counter { offered: 5, appended: 4, service: 2 } true",
        ),
    ] {
        let bytes = bytes_of(alloc, text)?;
        assert_eq!(rt; piece_text(alloc, &bytes)?.as_str(), want);
        assert_eq!(rt;
            short_pieces(alloc, &bytes)?,
            bytes.len(),
            "fronts of {text}"
        );
        assert!(rt; trails(alloc, text)?, "{text}");
    }
    Ok(())
}

#[test]
fn a_mark_is_0_or_2(rt: HostRuntime) -> Result<(), Fail> {
    let alloc = rt.alloc();
    let mark =
        "2000 6400 6f00 0000 ffffffffffffffff 8001000000000000 0000000000000000 00000000 01000000 00";
    assert_eq!(rt;
        piece_text(alloc, &bytes_of(alloc, mark)?)?.as_str(),
        "36 Value"
    );
    Ok(())
}
