// The files of members, as digits of their bytes.

/// The end of a file of a member: the file's number, and the digits of its bytes in pieces.
pub type File = (u32, &'static [&'static str]);

/// A node state of version 2 as it is formatted: no term in either slot, and nobody voted for.
pub const NO_NODE: &str = "ffffffffffffffffffffffffffffffff00020000ffffffffffffffff00000000";

/// A node state of version 2: candidate term 0, and member 0 voted for.
pub const NODE_0: &str = "0000000000000000ffffffffffffffff0002000000000000ffffffff00000000";

/// Candidate term 1, and member 1 voted for.
pub const NODE_1: &str = "0100000000000000ffffffffffffffff0002000001000000ffffffff00000000";

/// A node state of version 1.
pub const OLD_NODE: &str = "0000000000000000ffffffffffffffff0001000000000000ffffffff00000000";

/// A node state of version 3.
pub const NEW_NODE: &str = "0000000000000000ffffffffffffffff0003000000000000ffffffff00000000";

/// The TERM entry of term 0, which begins at 0.
pub const TERM_0_AT: &str =
    "000000000000000000000000000000000000000000000000ffffffffffffffff5e01000000000000ffffffff00000000\
    0000000000000000000000000000005a";

/// The TERM entry of term 1, which begins at 192.
pub const TERM_1_AT: &str =
    "00000000000000000100000000000000c000000000000000ffffffffffffffff3408000000000000ffffffff00000000\
    0000000000000000000000000000005a";

/// A SNAPSHOT entry of the module at 288.
pub const MODULE_SET: &str =
    "0000000000000000000000000000000000000000000000002001000000000000bc02000000000000ffffffff01000000\
    0000000000000000000000000000005a";

/// A SNAPSHOT entry of service 0 at 288.
pub const SERVICE_SET: &str =
    "0100000000000000000000000000000000000000000000002001000000000000bc020000000000000000000001000000\
    0000000000000000000000000000005a";

/// A SNAPSHOT entry of service 1 at 288.
pub const SERVICE_1_SET: &str =
    "0200000000000000000000000000000000000000000000002001000000000000bc020000000000000100000001000000\
    0000000000000000000000000000005a";

/// A SNAPSHOT entry of the module at 288, of term 1.
pub const LATER_MODULE_SET: &str =
    "08000000000000000100000000000000000000000000000020010000000000003408000000000000ffffffff01000000\
    0000000000000000000000000000005a";

/// A SNAPSHOT entry of service 0 at 288, of term 1.
pub const LATER_SERVICE_SET: &str =
    "090000000000000001000000000000000000000000000000200100000000000034080000000000000000000001000000\
    0000000000000000000000000000005a";

/// A SNAPSHOT entry of the module at 192.
pub const LOW_MODULE_SET: &str =
    "040000000000000000000000000000000000000000000000c0000000000000006c02000000000000ffffffff01000000\
    0000000000000000000000000000005a";

/// A SNAPSHOT entry of service 0 at 192.
pub const LOW_SERVICE_SET: &str =
    "050000000000000000000000000000000000000000000000c0000000000000006c020000000000000000000001000000\
    0000000000000000000000000000005a";

/// A SNAPSHOT entry that was made invalid.
pub const STRUCK: &str =
    "0000000000000000000000000000000000000000000000002001000000000000bc02000000000000ffffffff01000080\
    0000000000000000000000000000005a";

/// A TERM entry with the highest bit of its kind set.
pub const STRUCK_TERM: &str =
    "000000000000000001000000000000000500000000000000ffffffffffffffff0900000000000000ffffffff00000080\
    0000000000000000000000000000005a";

/// A SNAPSHOT entry with a recording above 1,023.
pub const OUT_OF_RANGE: &str =
    "d007000000000000000000000000000000000000000000002001000000000000bc02000000000000ffffffff01000000\
    0000000000000000000000000000005a";

/// An entry of kind 7.
pub const UNKNOWN: &str =
    "000000000000000003000000000000000000000000000000ffffffffffffffff0200000000000000ffffffff07000000\
    0000000000000000000000000000005a";

/// A closed gate behind the entries of a recording log.
pub const NO_ENTRY: &str =
    "000000000000000000000000000000000000000000000000000000000000000000000000000000000000000000000000\
    00000000000000000000000000000000";

/// The frame of a new term event of term 0.
pub const TERM_0: &str =
    "5000000000c0010000000000010000006400000000000000000000000000005a280018006f0000000000000000000000\
    00000000000000005e010000000000000000000000000000000000000100000000000000000000000000000000000000";

/// The frame of a session that is opened.
pub const OPENED: &str =
    "5000000000c0010060000000010000006400000000000000000000000000005a240015006f0000000000000000000000\
    010000000000000001000000000000005802000000000000000000000000000000000000000000000000000000000000";

/// The frame of a message of term 0 at 192.
pub const MESSAGE_0: &str =
    "4100000000c00100c0000000010000006400000000000000000000000000005a180001006f0000000000000000000000\
    01000000000000008a020000000000006100000000000000000000000000000000000000000000000000000000000000";

/// The frame of another message of term 0 at 192.
pub const OTHER_0: &str =
    "4100000000c00100c0000000010000006400000000000000000000000000005a180001006f0000000000000000000000\
    01000000000000008a020000000000006200000000000000000000000000000000000000000000000000000000000000";

/// The frame of a new term event of term 1 at 192.
pub const TERM_1: &str =
    "5000000000c00100c0000000010000006400000000000000000000000000005a280018006f0000000100000000000000\
    c0000000000000003408000000000000c000000000000000010000000100000000000000000000000000000000000000";

/// The frame of a message of term 1 at 288.
pub const MESSAGE_1: &str =
    "4100000000c0010020010000010000006400000000000000000000000000005a180001006f0000000100000000000000\
    0100000000000000420e0000000000006100000000000000000000000000000000000000000000000000000000000000";

/// A closed gate behind the frames of a log.
pub const NO_FRAME: &str = "0000000000000000000000000000000000000000000000000000000000000000";

/// Three entries of term 0: a new term, a session, a message.
pub const FIRST: [File; 3] = [
    (0, &[NODE_0]),
    (1, &[TERM_0_AT, NO_ENTRY]),
    (2, &[TERM_0, OPENED, MESSAGE_0, NO_FRAME]),
];

/// The same two entries, and two of term 1.
pub const SECOND: [File; 3] = [
    (0, &[NODE_1]),
    (1, &[TERM_0_AT, TERM_1_AT, NO_ENTRY]),
    (2, &[TERM_0, OPENED, TERM_1, MESSAGE_1, NO_FRAME]),
];

/// The two entries alone, with all kinds of entries in the recording log.
pub const SHORT: [File; 3] = [
    (0, &[NODE_0]),
    (
        1,
        &[
            TERM_0_AT,
            MODULE_SET,
            SERVICE_SET,
            STRUCK,
            STRUCK_TERM,
            OUT_OF_RANGE,
            UNKNOWN,
            NO_ENTRY,
        ],
    ),
    (2, &[TERM_0, OPENED, NO_FRAME]),
];

/// Another third entry than that of the first.
pub const OTHER: [File; 3] = [
    (0, &[NODE_0]),
    (1, &[TERM_0_AT, NO_ENTRY]),
    (2, &[TERM_0, OPENED, OTHER_0, NO_FRAME]),
];

/// Snapshots of one service at two places, the higher one first, where there are two terms, and of a second service at
/// one of them.
pub const SETS: [File; 3] = [
    (0, &[NODE_0]),
    (
        1,
        &[
            TERM_0_AT,
            LATER_SERVICE_SET,
            LATER_MODULE_SET,
            SERVICE_SET,
            SERVICE_1_SET,
            MODULE_SET,
            LOW_SERVICE_SET,
            LOW_MODULE_SET,
            NO_ENTRY,
        ],
    ),
    (2, &[TERM_0, OPENED, NO_FRAME]),
];

/// As it is formatted.
pub const FRESH: [File; 3] = [(0, &[NO_NODE]), (1, &[NO_ENTRY]), (2, &[NO_FRAME])];

/// One entry of the log, and 200 of the recording log, which are all the same.
pub const LONG: [File; 4] = [
    (0, &[NODE_0]),
    (1, &[TERM_0_AT; 200]),
    (1, &[NO_ENTRY]),
    (2, &[TERM_0, NO_FRAME]),
];

/// A node state of version 1, and nothing else.
pub const OLD: [File; 1] = [(0, &[OLD_NODE])];

/// A node state of version 3, and nothing else.
pub const NEW: [File; 1] = [(0, &[NEW_NODE])];

/// A node state of version 1 with one byte too many.
pub const LONG_OLD: [File; 1] = [(0, &[OLD_NODE, "00"])];

/// Nothing.
pub const EMPTY: [File; 0] = [];
