// Files with one wrong byte, or more, and the place that is named.
use crate::disks::{Failing, Row, called};
use crate::files::{
    File, MODULE_SET, NO_ENTRY, NO_FRAME, NODE_0, OPENED, SERVICE_SET, TERM_0, TERM_0_AT, TERM_1,
    TERM_1_AT,
};
use cluster_tool::ToolStatus;
use std::test::Fail;

/// A node state that names its second slot, where the term is one above 2^62.
const HIGH_TERM: &str = "000000000000000001000000000000400102000000000000ffffffff00000000";

/// A node state whose first slot has the term -2.
const LOW_TERM: &str = "feffffffffffffffffffffffffffffff0002000000000000ffffffff00000000";

/// A frame of version 1.
const NEW_FRAME: &str =
    "5000000001c0010000000000010000006400000000000000000000000000005a280018006f0000000000000000000000\
    00000000000000005e010000000000000000000000000000000000000100000000000000000000000000000000000000";

/// A frame that is a last one, with none before it.
const LAST_FRAME: &str =
    "500000000040010000000000010000006400000000000000000000000000005a280018006f0000000000000000000000\
    00000000000000005e010000000000000000000000000000000000000100000000000000000000000000000000000000";

/// A frame that is a first one, with fewer bytes than a first one has.
const FIRST_FRAME: &str =
    "500000000080010000000000010000006400000000000000000000000000005a280018006f0000000000000000000000\
    00000000000000005e010000000000000000000000000000000000000100000000000000000000000000000000000000";

/// A frame with a byte behind its event that isn't zero.
const FULL_FRAME: &str =
    "5000000000c0010000000000010000006400000000000000000000000000005a280018006f0000000000000000000000\
    00000000000000005e010000000000000000000000000000000000000100000000000000000000000000000000000001";

/// The frame of a message of term 0 at 288.
const EARLIER: &str =
    "4100000000c0010020010000010000006400000000000000000000000000005a180001006f0000000000000000000000\
    0100000000000000420e0000000000006100000000000000000000000000000000000000000000000000000000000000";

/// The head of a first frame of 1,408 bytes at 96, and the head of a message of term 0.
const LONG_HEAD: &str =
    "800500000080010060000000010000006400000000000000000000000000005a180001006f0000000000000000000000\
    01000000000000008a02000000000000";

/// A piece of 8 bytes that is none: of a command's template.
const NO_PIECE: &str = "0800000008001e006f000000";

/// The files of a disk, the file that is named, and the place.
type Wrong = (&'static [File], u32, u64);

const WRONG: [Wrong; 16] = [
    // The node state has 31 bytes, 33 bytes, or a term out of range in the slot that it names.
    (
        &[(
            0,
            &["0000000000000000ffffffffffffffff0002000000000000ffffffff000000"],
        )],
        0,
        31,
    ),
    (&[(0, &[NODE_0, "00"])], 0, 32),
    (&[(0, &[HIGH_TERM])], 0, 8),
    (&[(0, &[LOW_TERM])], 0, 0),
    // The recording log isn't there, or has no closed gate at its end.
    (&[(0, &[NODE_0])], 1, 0),
    (&[(0, &[NODE_0]), (1, &[TERM_0_AT])], 1, 64),
    // The first segment isn't there, ends with its last frame, or has a frame of another version.
    (&[(0, &[NODE_0]), (1, &[TERM_0_AT, NO_ENTRY])], 2, 0),
    (
        &[(0, &[NODE_0]), (1, &[TERM_0_AT, NO_ENTRY]), (2, &[TERM_0])],
        2,
        96,
    ),
    (
        &[
            (0, &[NODE_0]),
            (1, &[TERM_0_AT, NO_ENTRY]),
            (2, &[NEW_FRAME, NO_FRAME]),
        ],
        2,
        4,
    ),
    // A last frame is the first of an entry, a first frame is too short, or bytes behind an event aren't zero.
    (
        &[
            (0, &[NODE_0]),
            (1, &[TERM_0_AT, NO_ENTRY]),
            (2, &[LAST_FRAME, NO_FRAME]),
        ],
        2,
        5,
    ),
    (
        &[
            (0, &[NODE_0]),
            (1, &[TERM_0_AT, NO_ENTRY]),
            (2, &[FIRST_FRAME, NO_FRAME]),
        ],
        2,
        0,
    ),
    (
        &[
            (0, &[NODE_0]),
            (1, &[TERM_0_AT, NO_ENTRY]),
            (2, &[FULL_FRAME, NO_FRAME]),
        ],
        2,
        95,
    ),
    // The gate is closed where an entry's next frame must follow.
    (
        &[
            (0, &[NODE_0]),
            (1, &[TERM_0_AT, NO_ENTRY]),
            (2, &[TERM_0, LONG_HEAD]),
            (2, &[NO_FRAME; 44]),
        ],
        2,
        1_535,
    ),
    // A term is below the one before.
    (
        &[
            (0, &[NODE_0]),
            (1, &[TERM_0_AT, TERM_1_AT, NO_ENTRY]),
            (2, &[TERM_0, OPENED, TERM_1, EARLIER, NO_FRAME]),
        ],
        2,
        328,
    ),
    // A term of the log has no TERM entry.
    (
        &[(0, &[NODE_0]), (1, &[NO_ENTRY]), (2, &[TERM_0, NO_FRAME])],
        1,
        0,
    ),
    // A snapshot of a valid set has a piece that is none.
    (
        &[
            (0, &[NODE_0]),
            (1, &[TERM_0_AT, MODULE_SET, SERVICE_SET, NO_ENTRY]),
            (2, &[TERM_0, NO_FRAME]),
            (258, &[NO_PIECE]),
        ],
        258,
        6,
    ),
];

#[test]
fn the_first_wrong_place_is_named(rt: HostRuntime) -> Result<(), Fail> {
    let alloc = rt.alloc();
    for (files, file, place) in WRONG {
        let text = format!(in alloc; "damaged 0 {file} {place}\n")?;
        let row = Row {
            words: &["tool", "recording-log", "m0"],
            disks: &[files],
            status: ToolStatus::Damaged {
                disk: 0,
                file,
                place,
            },
            text: "",
        };
        let (status, written) = called(alloc, &row, Failing::NOTHING)?;
        assert_eq!(rt; status, row.status);
        assert!(rt; written.as_slice() == text.as_bytes());
    }
    Ok(())
}
