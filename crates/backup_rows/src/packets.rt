// Packets from bytes and back.
ghost use Rattle.std.specs.Prelude.{◌≡◌, IfOk};

use cl_base::Bytes;
use cluster_backup::{decode_backup, encode_backup};
use std::alloc::Global;
use wire_prims::DecodeFault;

/// The bytes of the packet that these bytes spell: these very bytes. Bad where they spell none.
pub fn again(alloc: Global, bytes: &[u8]) -> Result<Bytes, DecodeFault>
    ensures { IfOk result (λ again. again ≡ bytes.now) }
{
    let packet = decode_backup(alloc, bytes)?;
    Ok(encode_backup(alloc, &packet)?)
}

#[cfg(test)]
pub(crate) mod tests {
    use super::*;
    use std::test::Fail;
    use wire_prims::{Bad, BadCause};

    /// Two entries are there, and no set.
    pub(crate) const QUERY: [u8; 24] = [
        16, 0, 56, 0, 111, 0, 0, 0, 2, 0, 0, 0, 0, 0, 0, 0, 255, 255, 255, 255, 255, 255, 255, 255,
    ];

    /// From entry 0 on a new term event of 48 bytes, which begins at 24, and a timer of 32 bytes, which begins at 76.
    /// Both are of term 0.
    pub(crate) const LOG: [u8; 108] = [
        12, 0, 57, 0, 111, 0, 0, 0, 0, 0, 0, 0, 0, 0, 0, 0, 2, 0, 0, 0, 48, 0, 0, 0, 40, 0, 24, 0,
        111, 0, 0, 0, 0, 0, 0, 0, 0, 0, 0, 0, 0, 0, 0, 0, 0, 0, 0, 0, 84, 1, 0, 0, 0, 0, 0, 0, 0,
        0, 0, 0, 0, 0, 0, 0, 0, 0, 0, 0, 1, 0, 0, 0, 32, 0, 0, 0, 24, 0, 20, 0, 111, 0, 0, 0, 0, 0,
        0, 0, 0, 0, 0, 0, 248, 255, 255, 255, 255, 255, 255, 255, 9, 0, 0, 0, 0, 0, 0, 0,
    ];

    /// Recording 3, of service 0, at 160, with a timer's piece of 24 bytes, which begins at 52.
    pub(crate) const SERVICE: [u8; 76] = [
        40, 0, 58, 0, 111, 0, 0, 0, 3, 0, 0, 0, 0, 0, 0, 0, 0, 0, 0, 0, 0, 0, 0, 0, 160, 0, 0, 0,
        0, 0, 0, 0, 9, 0, 0, 0, 0, 0, 0, 0, 0, 0, 0, 0, 1, 0, 0, 0, 24, 0, 0, 0, 16, 0, 111, 0,
        111, 0, 0, 0, 7, 0, 0, 0, 0, 0, 0, 0, 8, 0, 0, 0, 0, 0, 0, 0,
    ];

    /// From entry 2 on two timers of term 0, which begin at 24 and at 60.
    pub(crate) const TIMERS: [u8; 92] = [
        12, 0, 57, 0, 111, 0, 0, 0, 2, 0, 0, 0, 0, 0, 0, 0, 2, 0, 0, 0, 32, 0, 0, 0, 24, 0, 20, 0,
        111, 0, 0, 0, 0, 0, 0, 0, 0, 0, 0, 0, 5, 0, 0, 0, 0, 0, 0, 0, 9, 0, 0, 0, 0, 0, 0, 0, 32,
        0, 0, 0, 24, 0, 20, 0, 111, 0, 0, 0, 0, 0, 0, 0, 0, 0, 0, 0, 6, 0, 0, 0, 0, 0, 0, 0, 9, 0,
        0, 0, 0, 0, 0, 0,
    ];

    /// Recording 4, of the module, at 160, with no piece.
    pub(crate) const MODULE: [u8; 48] = [
        40, 0, 58, 0, 111, 0, 0, 0, 4, 0, 0, 0, 0, 0, 0, 0, 0, 0, 0, 0, 0, 0, 0, 0, 160, 0, 0, 0,
        0, 0, 0, 0, 9, 0, 0, 0, 0, 0, 0, 0, 255, 255, 255, 255, 0, 0, 0, 0,
    ];

    /// The bytes with one of them changed.
    pub(crate) fn changed(alloc: Global, bytes: &[u8], at: usize, value: u8) -> Option<Vec<u8>> {
        let mut copy = bytes.to_vec(alloc).ok()?;
        if at >= copy.len() {
            return None;
        }
        copy[at] = value;
        Some(copy)
    }

    fn comes_back(alloc: Global, bytes: &[u8]) -> bool {
        match again(alloc, bytes) {
            Ok(same) => same.as_slice() == bytes,
            Err(_) => false,
        }
    }

    /// Where bytes are first wrong, and how.
    fn wrong(alloc: Global, bytes: &[u8]) -> Option<(u64, BadCause)> {
        match again(alloc, bytes) {
            Err(DecodeFault::Bad(Bad { place, cause })) => Some((place, cause)),
            _ => None,
        }
    }

    /// A byte, what it is changed to, and where the packet is then first wrong.
    type Row = (usize, u8, u64, BadCause);

    fn are_wrong(alloc: Global, packet: &[u8], rows: &[Row]) -> bool {
        for (at, value, place, cause) in rows {
            let Some(bytes) = changed(alloc, packet, *at, *value) else {
                return false;
            };
            if wrong(alloc, &bytes) != Some((*place, *cause)) {
                return false;
            }
        }
        true
    }

    const QUERY_ROWS: [Row; 9] = [
        (0, 15, 0, BadCause::Block),
        (0, 17, 0, BadCause::Block),
        (2, 59, 2, BadCause::Template),
        (4, 112, 4, BadCause::Schema),
        (6, 1, 6, BadCause::Value),
        // More entries than 2^62, and fewer than none.
        (15, 0x40, 8, BadCause::Value),
        (15, 0x80, 8, BadCause::Value),
        // Positions below -1.
        (16, 254, 16, BadCause::Value),
        (23, 254, 16, BadCause::Value),
    ];

    const LOG_ROWS: [Row; 11] = [
        (0, 13, 0, BadCause::Block),
        (6, 1, 6, BadCause::Value),
        (15, 0x80, 8, BadCause::Value),
        // Events: none, too many, one too few, one too many.
        (16, 0, 16, BadCause::Value),
        (16, 65, 16, BadCause::Value),
        (16, 1, 72, BadCause::Trailing),
        (16, 3, 108, BadCause::Short),
        (20, 47, 108, BadCause::Short),
        // In the first event, whose base isn't its position, and in the second.
        (56, 1, 56, BadCause::Value),
        (76, 23, 76, BadCause::Block),
        (80, 110, 80, BadCause::Schema),
    ];

    const SERVICE_ROWS: [Row; 9] = [
        (2, 56, 0, BadCause::Block),
        (23, 0x80, 16, BadCause::Value),
        (31, 0x80, 24, BadCause::Value),
        (39, 0x80, 32, BadCause::Value),
        // Pieces: fewer than none, one too few, one too many.
        (47, 0x80, 44, BadCause::Value),
        (44, 0, 48, BadCause::Trailing),
        (44, 2, 76, BadCause::Short),
        // In the piece: its template, and its deadline.
        (54, 116, 54, BadCause::Template),
        (75, 0x80, 68, BadCause::Value),
    ];

    #[test]
    fn the_first_wrong_byte_is_named(rt: HostRuntime) -> Result<(), Fail> {
        let alloc = rt.alloc();
        assert!(rt; are_wrong(alloc, &QUERY, &QUERY_ROWS));
        assert!(rt; are_wrong(alloc, &LOG, &LOG_ROWS));
        assert!(rt; are_wrong(alloc, &SERVICE, &SERVICE_ROWS));
        Ok(())
    }

    #[test]
    fn packets_come_back(rt: HostRuntime) -> Result<(), Fail> {
        let alloc = rt.alloc();
        assert!(rt; comes_back(alloc, &QUERY));
        assert!(rt; comes_back(alloc, &LOG));
        assert!(rt; comes_back(alloc, &TIMERS));
        assert!(rt; comes_back(alloc, &SERVICE));
        assert!(rt; comes_back(alloc, &MODULE));
        // A recording and a service take every value.
        for (at, value) in [(8usize, 0u8), (15, 0x80), (40, 9), (43, 0x80)] {
            let bytes = changed(alloc, &SERVICE, at, value).ok_or("changed")?;
            assert!(rt; comes_back(alloc, &bytes), "byte {at}");
        }
        Ok(())
    }
}
