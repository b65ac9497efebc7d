// Listings, and disks and sinks that fail under one.
use crate::disks::{Failing, Row, called, ends, tells_each_fault};
use crate::files::{FIRST, FRESH, LONG, OTHER, SECOND, SETS, SHORT};
use cluster_tool::ToolStatus;
use std::test::Fail;

const DESCRIBED: Row<'static> = Row {
    words: &["tool", "describe", "1", "m0"],
    disks: &[&FIRST],
    status: ToolStatus::Done,
    text: "candidate 0\nentries 3\nplace 288\nterms 1\nsnapshots 0\ndone\n",
};

const RECORDED: Row<'static> = Row {
    words: &["tool", "recording-log", "m1"],
    disks: &[&SECOND],
    status: ToolStatus::Done,
    text: "term 0 base 0 ts 350\nterm 1 base 192 ts 2100\ndone\n",
};

const VERIFIED: Row<'static> = Row {
    words: &["tool", "verify", "m0", "m1"],
    disks: &[&FIRST, &SECOND],
    status: ToolStatus::Done,
    text: "common 2\ndiffer at 2 terms 0 1\ndone\n",
};

const LISTINGS: [Row<'static>; 16] = [
    DESCRIBED,
    RECORDED,
    VERIFIED,
    Row {
        words: &["tool", "describe", "1", "m0"],
        disks: &[&FRESH],
        status: ToolStatus::Done,
        text: "candidate -1\nentries 0\nplace 0\nterms 0\nsnapshots 0\ndone\n",
    },
    Row {
        words: &["tool", "describe", "1", "m1"],
        disks: &[&SECOND],
        status: ToolStatus::Done,
        text: "candidate 1\nentries 4\nplace 384\nterms 2\nsnapshots 0\ndone\n",
    },
    Row {
        words: &["tool", "describe", "1", "m0"],
        disks: &[&SHORT],
        status: ToolStatus::Done,
        text: "candidate 0\nentries 2\nplace 192\nterms 1\nsnapshots 1\nsnapshot 288 0\ndone\n",
    },
    // A set has a snapshot of each service, and sets rise by place, then by term.
    Row {
        words: &["tool", "describe", "1", "m0"],
        disks: &[&SETS],
        status: ToolStatus::Done,
        text: "candidate 0
entries 2
place 192
terms 1
snapshots 3
snapshot 192 0
snapshot 288 0
snapshot 288 1
done
",
    },
    Row {
        words: &["tool", "describe", "2", "m0"],
        disks: &[&SETS],
        status: ToolStatus::Done,
        text: "candidate 0\nentries 2\nplace 192\nterms 1\nsnapshots 1\nsnapshot 288 0\ndone\n",
    },
    Row {
        words: &["tool", "describe", "3", "m0"],
        disks: &[&SETS],
        status: ToolStatus::Done,
        text: "candidate 0\nentries 2\nplace 192\nterms 1\nsnapshots 0\ndone\n",
    },
    Row {
        words: &["tool", "recording-log", "m0"],
        disks: &[&FRESH],
        status: ToolStatus::Done,
        text: "done\n",
    },
    Row {
        words: &["tool", "recording-log", "m1"],
        disks: &[&SHORT],
        status: ToolStatus::Done,
        text: "term 0 base 0 ts 350
snapshot 0 term 0 base 0 position 288 ts 700 service -1
snapshot 1 term 0 base 0 position 288 ts 700 service 0
snapshot 0 term 0 base 0 position 288 ts 700 service -1 invalid
term 1 base 5 ts 9 invalid
snapshot 2000 term 0 base 0 position 288 ts 700 service -1 invalid
other invalid
done
",
    },
    Row {
        words: &["tool", "verify", "m0", "m0"],
        disks: &[&FIRST, &FIRST],
        status: ToolStatus::Done,
        text: "common 3\nequal\ndone\n",
    },
    Row {
        words: &["tool", "verify", "m0", "m1"],
        disks: &[&FRESH, &FRESH],
        status: ToolStatus::Done,
        text: "common 0\nequal\ndone\n",
    },
    // Of one term, and not the same.
    Row {
        words: &["tool", "verify", "m0", "m1"],
        disks: &[&FIRST, &OTHER],
        status: ToolStatus::Done,
        text: "common 2\ndiffer at 2 terms 0 0\ndone\n",
    },
    Row {
        words: &["tool", "verify", "m0", "m1"],
        disks: &[&SECOND, &SHORT],
        status: ToolStatus::Done,
        text: "common 2\nfirst longer\ndone\n",
    },
    Row {
        words: &["tool", "verify", "m0", "m1"],
        disks: &[&FRESH, &FIRST],
        status: ToolStatus::Done,
        text: "common 0\nsecond longer\ndone\n",
    },
];

#[test]
fn each_listing(rt: HostRuntime) -> Result<(), Fail> {
    for row in &LISTINGS {
        assert!(rt; ends(rt.alloc(), row)?, "{}", row.text);
    }
    Ok(())
}

#[test]
fn each_read_may_fail(rt: HostRuntime) -> Result<(), Fail> {
    for row in [DESCRIBED, RECORDED, VERIFIED] {
        for disk in 0..row.disks.len() {
            assert!(rt;
                tells_each_fault(rt.alloc(), &row, disk)?,
                "disk {disk} of {}",
                row.text
            );
        }
    }
    Ok(())
}

/// A listing of more than one write: each write fails in turn, and the sink holds a front of the text.
#[test]
fn each_write_may_fail(rt: HostRuntime) -> Result<(), Fail> {
    let alloc = rt.alloc();
    let mut whole = Vec::new(alloc);
    for _ in 0..200u8 {
        whole.extend_from_slice(b"term 0 base 0 ts 350\n")?;
    }
    whole.extend_from_slice(b"done\n")?;
    let row = Row {
        words: &["tool", "recording-log", "m0"],
        disks: &[&LONG],
        status: ToolStatus::Done,
        text: "",
    };
    let (status, text) = called(alloc, &row, Failing::NOTHING)?;
    assert_eq!(rt; status, ToolStatus::Done);
    assert!(rt; text.as_slice() == whole.as_slice());
    for write in 1..3 {
        let (status, text) = called(alloc, &row, Failing::write(write))?;
        assert_eq!(rt; status, ToolStatus::WriteFault);
        assert!(rt; whole.as_slice().starts_with(text.as_slice()));
        assert_eq!(rt; text.is_empty(), write == 1);
    }
    Ok(())
}
