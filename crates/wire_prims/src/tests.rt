use super::*;
use cl_base::NoMemory;
use std::test::*;

fn bad(place: u64, cause: BadCause) -> Bad {
    Bad { place, cause }
}

#[test]
fn numbers_stand_the_lowest_byte_first(rt: HostRuntime) {
    let mut bytes = [0u8; 20];
    put_u16(&mut bytes, 0, 0x0102);
    put_u32(&mut bytes, 2, 0x0304_0506);
    put_i32(&mut bytes, 6, -2);
    put_i64(&mut bytes, 10, -3);
    assert!(rt;
        bytes.as_slice()
            == [
                2u8, 1, 6, 5, 4, 3, 254, 255, 255, 255, 253, 255, 255, 255, 255, 255, 255, 255, 0,
                0
            ]
            .as_slice()
    );
    assert_eq!(rt; get_u16(&bytes, 0), 0x0102);
    assert_eq!(rt; get_u32(&bytes, 2), 0x0304_0506);
    assert_eq!(rt; get_i32(&bytes, 6), -2);
    assert_eq!(rt; get_i64(&bytes, 10), -3);
}

#[test]
fn headers_and_their_faults(rt: HostRuntime) {
    let header = Header {
        block: 24,
        template: 1,
        schema: 111,
        version: 7,
    };
    assert!(rt; read_header(&[24, 0, 1, 0, 111, 0, 7, 0]) == Ok(header));
    assert!(rt; read_header(&[24, 0, 1, 0, 111, 0, 7]) == Err(bad(7, BadCause::Short)));
    assert!(rt; read_header(&[24, 0, 1, 0, 112, 0, 0, 0]) == Err(bad(4, BadCause::Schema)));
}

#[test]
fn lengths_are_aligned_to_32(rt: HostRuntime) {
    assert_eq!(rt; aligned(0), 0);
    assert_eq!(rt; aligned(1), 32);
    assert_eq!(rt; aligned(32), 32);
    assert_eq!(rt; aligned(80), 96);
}

/// The frame of a log's first entry, a new term event of 48 bytes.
const FRAME: [u8; 96] = [
    0x50, 0, 0, 0, 0, 0xc0, 1, 0, 0, 0, 0, 0, 1, 0, 0, 0, 0x64, 0, 0, 0, 0, 0, 0, 0, 0, 0, 0, 0, 0,
    0, 0, 0x5a, 0x28, 0, 0x18, 0, 0x6f, 0, 0, 0, 0, 0, 0, 0, 0, 0, 0, 0, 0, 0, 0, 0, 0, 0, 0, 0,
    0x54, 1, 0, 0, 0, 0, 0, 0, 0, 0, 0, 0, 0, 0, 0, 0, 0, 0, 0, 0, 1, 0, 0, 0, 0, 0, 0, 0, 0, 0, 0,
    0, 0, 0, 0, 0, 0, 0, 0, 0,
];

#[test]
fn a_frame_is_written_and_read(rt: HostRuntime) {
    let mut out = [9u8; 96];
    write_frame(&mut out, 0, OPEN_GATE, WHOLE_FLAGS, false, &FRAME[32..80]);
    assert!(rt; out.as_slice() == FRAME.as_slice());
    let head = FrameHead {
        length: 80,
        pad: false,
        flags: 0xc0,
    };
    assert!(rt; read_frame(&FRAME, 0) == Ok(Some(head)));
    assert!(rt; read_frame(&FRAME[..31], 0) == Ok(None));
    assert!(rt; read_frame(&FRAME[..95], 0) == Err(bad(95, BadCause::Short)));
    assert!(rt; read_frame(&FRAME, 65536) == Err(bad(20, BadCause::Value)));
    out[31] = 0;
    assert!(rt; read_frame(&out, 0) == Ok(None));
}

#[test]
fn a_pad_names_the_rest_of_its_segment(rt: HostRuntime) {
    let mut out = [9u8; 32];
    write_frame(&mut out, 65440, OPEN_GATE, WHOLE_FLAGS, true, &[]);
    assert!(rt;
        out.as_slice()
            == [
                0x60u8, 0, 0, 0, 0, 0xc0, 0, 0, 0xa0, 0xff, 0, 0, 1, 0, 0, 0, 0x64, 0, 0, 0, 0, 0,
                0, 0, 0, 0, 0, 0, 0, 0, 0, 0x5a
            ]
            .as_slice()
    );
}

#[test]
fn messages_are_written(rt: HostRuntime) -> Result<(), NoMemory> {
    let mut out = message_of(rt.alloc(), 21, &[Field::I64(1), Field::I32(-1)])?;
    put_counted(&mut out, b"ab")?;
    assert!(rt;
        out.as_slice()
            == [
                12u8, 0, 21, 0, 111, 0, 0, 0, 1, 0, 0, 0, 0, 0, 0, 0, 255, 255, 255, 255, 2, 0, 0,
                0, 97, 98
            ]
            .as_slice()
    );
    let rules = [Rule::Wide { low: 1, high: 2 }, Rule::AnyNarrow];
    assert!(rt; strict_fault(&out, &rules, Tail::Counted { limit: 2 }).is_none());
    assert!(rt;
        strict_fault(&out, &rules, Tail::Counted { limit: 1 }) == Some(bad(20, BadCause::Value))
    );
    assert!(rt; strict_fault(&out, &rules, Tail::Nothing) == Some(bad(20, BadCause::Trailing)));
    assert!(rt;
        strict_fault(&out[..25], &rules, Tail::Counted { limit: 2 })
            == Some(bad(25, BadCause::Short))
    );
    Ok(())
}
