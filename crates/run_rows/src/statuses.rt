// How the top call ends, and all that it writes.
use crate::tables::{Ended, ends};
use run_start::Status;
use scenario::Cause;
use std::test::Fail;

const USAGE: &str =
    "usage: clusterd run [--dir D] | check | make N [--dir D] | tool describe S DIR | tool recording-log DIR | tool verify DIR DIR";

const ECHO: &str =
    "members 1 / service echo / rounds 40 / connect 0 0 / rounds 1 / send 0 0 hi / rounds 1";

const ECHOED: &str =
    "order 4 accepted 1 / order 6 accepted 2 / log 3 / entry 0 0 term leader 0 base 0 ts 340 / entry 1 0 open 1 stream 0 corr 1 ts 400 channel - / entry 2 0 message 1 ts 410 6869 / service 0 0 run 1 from 0 count 3 / in 0 0 term leader 0 base 0 ts 340 / in 1 0 open 1 stream 0 corr 1 ts 400 channel - / in 2 0 message 1 ts 410 6869 / stream 0 egress 2 / out 1 module 200002006f000000010000000000000001000000000000000000000000000000000000000000000000000000 / out 2 service 0 0 180001006f000000000000000000000001000000000000009a010000000000006869 / member 0 up candidate 0 entries 3 same 3 commit 3 snapshots 0 / done";

/// A run of no scenario on one disk, where nothing fails.
const RUN: Ended = Ended {
    words: &["run"],
    scenario: "",
    disks: 1,
    used: None,
    fails: (0, 0),
    read: 0,
    write: 0,
    status: Status::Refused {
        line: 1,
        cause: Cause::Header,
    },
    code: 3,
    text: "refused line 1: header",
};

/// Words that are no command.
const NO_COMMAND: [&[&str]; 8] = [
    &[],
    &["run", "x"],
    &["run", "--dir"],
    &["run", "--dir", "-d"],
    &["make", "0"],
    &["make", "20001"],
    &["check", "x"],
    &["help"],
];

/// A scenario, its first faulty line, the cause, and what is written.
const FAULTY: [(&str, u64, Cause, &str); 14] = [
    ("", 1, Cause::Header, "refused line 1: header"),
    ("members 1", 2, Cause::Header, "refused line 2: header"),
    (
        "members 1 / rounds 5",
        2,
        Cause::Header,
        "refused line 2: header",
    ),
    (
        "members 1 / Service echo",
        2,
        Cause::UnknownOrder,
        "refused line 2: unknown order",
    ),
    (
        "members 1 / service  echo",
        2,
        Cause::Arguments,
        "refused line 2: arguments",
    ),
    ("members 6", 1, Cause::Range, "refused line 1: range"),
    (
        "members 1 / \tservice echo",
        2,
        Cause::Byte,
        "refused line 2: byte",
    ),
    (
        "members 1 / service echo / rounds 100000 / rounds 1",
        4,
        Cause::Rounds,
        "refused line 4: rounds",
    ),
    // 1,048,576 bytes, which are not too many.
    ("@1048575", 1, Cause::LongLine, "refused line 1: long line"),
    // A client joins once, and isn't driven by hand; only one that joined is to offer.
    (
        "members 1 / service echo / join 0 / join 0",
        4,
        Cause::Joined,
        "refused line 4: joined",
    ),
    (
        "members 1 / service echo / join 0 / send 0 0 x",
        4,
        Cause::Joined,
        "refused line 4: joined",
    ),
    (
        "members 1 / service echo / connect 0 0 / join 0",
        4,
        Cause::Joined,
        "refused line 4: joined",
    ),
    (
        "members 1 / service echo / offer 0 x",
        3,
        Cause::NotJoined,
        "refused line 3: not joined",
    ),
    (
        "members 1 / service echo / offer 0 x / join 0",
        3,
        Cause::NotJoined,
        "refused line 3: not joined",
    ),
];

#[test]
fn words_and_scenarios_that_are_refused(rt: HostRuntime) -> Result<(), Fail> {
    for words in NO_COMMAND {
        let row = Ended {
            words,
            status: Status::Usage,
            code: 2,
            text: USAGE,
            ..RUN
        };
        assert!(rt; ends(&rt, rt.alloc(), &row)?);
    }
    for (scenario, line, cause, text) in FAULTY {
        let row = Ended {
            scenario,
            status: Status::Refused { line, cause },
            text,
            ..RUN
        };
        assert!(rt; ends(&rt, rt.alloc(), &row)?, "{scenario}");
    }
    Ok(())
}

const ENDED: [Ended; 17] = [
    Ended {
        scenario: ECHO,
        status: Status::Done,
        code: 0,
        text: ECHOED,
        ..RUN
    },
    Ended {
        scenario: "@1048576",
        status: Status::TooLong,
        code: 4,
        text: "scenario longer than 1048576 bytes",
        ..RUN
    },
    // There is a disk for each member, and one for the backup.
    Ended {
        scenario: "members 3 / service echo",
        status: Status::FewDisks {
            members: 3,
            disks: 1,
        },
        code: 5,
        text: "members 3, disks 1",
        ..RUN
    },
    Ended {
        scenario: "members 1 / service echo",
        disks: 0,
        status: Status::FewDisks {
            members: 1,
            disks: 0,
        },
        code: 5,
        text: "members 1, disks 0",
        ..RUN
    },
    Ended {
        scenario: "members 1 / service echo / backup 0",
        status: Status::FewDisks {
            members: 1,
            disks: 1,
        },
        code: 5,
        text: "members 1, disks 1",
        ..RUN
    },
    Ended {
        words: &["make", "1"],
        disks: 2,
        status: Status::FewDisks {
            members: 3,
            disks: 2,
        },
        code: 5,
        text: "members 3, disks 2",
        ..RUN
    },
    // They are empty.
    Ended {
        scenario: ECHO,
        used: Some((0, 2)),
        status: Status::Used { member: 0, file: 2 },
        code: 6,
        text: "disk 0: file 2 is not empty",
        ..RUN
    },
    Ended {
        scenario: "members 1 / service echo / backup 0",
        disks: 2,
        used: Some((1, 1_281)),
        status: Status::Used {
            member: 1,
            file: 1_281,
        },
        code: 6,
        text: "disk 1: file 1281 is not empty",
        ..RUN
    },
    // A source, a sink or a disk fails.
    Ended {
        scenario: ECHO,
        read: 1,
        status: Status::ReadFault,
        code: 7,
        text: "read fault",
        ..RUN
    },
    Ended {
        scenario: ECHO,
        write: 1,
        status: Status::WriteFault,
        code: 8,
        text: "",
        ..RUN
    },
    Ended {
        write: 1,
        status: Status::WriteFault,
        code: 8,
        text: "",
        ..RUN
    },
    Ended {
        scenario: ECHO,
        fails: (0, 1),
        status: Status::DiskFault { member: 0 },
        code: 9,
        text: "disk 0: fault",
        ..RUN
    },
    Ended {
        scenario: "members 1 / service echo / backup 0",
        disks: 2,
        fails: (1, 1),
        status: Status::DiskFault { member: 1 },
        code: 9,
        text: "disk 1: fault",
        ..RUN
    },
    // The orders are written, without the comment.
    Ended {
        words: &["check"],
        scenario: "# a comment / members 1 / service echo / rounds 40 / connect 0 0 / rounds 1 / send 0 0 hi / rounds 1",
        disks: 0,
        status: Status::Done,
        code: 0,
        text: ECHO,
        ..RUN
    },
    Ended {
        words: &["check"],
        disks: 0,
        ..RUN
    },
    // Generated scenarios.
    Ended {
        words: &["make", "1"],
        disks: 3,
        status: Status::Done,
        code: 0,
        text: "made 1 / entries 8 / place 768 / terms 2 / refused 0 / egress 11 / inputs 60 / done",
        ..RUN
    },
    Ended {
        words: &["make", "2000"],
        disks: 3,
        status: Status::Done,
        code: 0,
        text: "made 2000 / entries 2007 / place 192800 / terms 2 / refused 0 / egress 2010 / inputs 14054 / done",
        ..RUN
    },
];

#[test]
fn how_a_call_ends(rt: HostRuntime) -> Result<(), Fail> {
    for row in &ENDED {
        assert!(rt; ends(&rt, rt.alloc(), row)?, "{}", row.text);
    }
    Ok(())
}
