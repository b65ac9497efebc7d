// Scenarios, and texts that aren't: what the language's rules say of each.
use cl_base::NoMemory;
use scenario::*;
use std::alloc::Global;
use std::test::*;

/// The first faulty line of a text.
fn fault_of(alloc: Global, text: &[u8]) -> Result<Option<Refusal>, NoMemory> {
    let Reading { orders, fault } = read(alloc, text)?;
    let _ = orders;
    Ok(fault)
}

/// The first faulty line of a text behind a header of three members.
fn fault_behind(alloc: Global, front: &[u8], line: &[u8]) -> Result<Option<Refusal>, Fail> {
    let mut text = Vec::from_slice(alloc, front)?;
    text.extend_from_slice(line)?;
    Ok(fault_of(alloc, text.as_slice())?)
}

fn at(line: u64, cause: Cause) -> Option<Refusal> {
    Some(Refusal { line, cause })
}

const HEADER: &str = "members 3\nservice echo\n";

#[test]
fn headers(rt: HostRuntime) -> Result<(), Fail> {
    let table = [
        ("", at(1, Cause::Header)),
        ("members 1\nrounds 5", at(2, Cause::Header)),
        ("members 1\nService echo", at(2, Cause::UnknownOrder)),
        ("members 1\nservice  echo", at(2, Cause::Arguments)),
        ("members 6", at(1, Cause::Range)),
        ("members 1\n\t", at(2, Cause::Byte)),
        ("members 1", at(2, Cause::Header)),
        ("members 1\n", at(2, Cause::Header)),
        ("members 1\nservice echo", None),
        (
            "members 5\nservice echo\nservice ledger\nservice ticker\n",
            None,
        ),
        ("members 0", at(1, Cause::Range)),
        ("service echo", at(1, Cause::Header)),
        ("members 1\nmembers 1", at(2, Cause::Header)),
        (
            "# two\n\nmembers 1\nservice echo\nfree on\nservice echo",
            at(6, Cause::Header),
        ),
    ];
    for (text, want) in &table {
        assert_eq!(rt; fault_of(rt.alloc(), text.as_bytes())?, *want, "{text:?}");
    }
    Ok(())
}

#[test]
fn rounds_add_up(rt: HostRuntime) -> Result<(), Fail> {
    let table = [
        (
            "members 1\nservice echo\nrounds 100000\nrounds 1",
            at(4, Cause::Rounds),
        ),
        ("members 1\nservice echo\nrounds 100000", None),
        ("members 1\nservice echo\nrounds 99999\nquiet 1", None),
        (
            "members 1\nservice echo\nquiet 99999\nrounds 2",
            at(4, Cause::Rounds),
        ),
    ];
    for (text, want) in &table {
        assert_eq!(rt; fault_of(rt.alloc(), text.as_bytes())?, *want, "{text:?}");
    }
    Ok(())
}

#[test]
fn a_client_is_joined_or_ordered(rt: HostRuntime) -> Result<(), Fail> {
    let table = [
        ("join 0\njoin 0", at(4, Cause::Joined)),
        ("join 0\nconnect 0 0", at(4, Cause::Joined)),
        ("join 0\nsend 0 0 x", at(4, Cause::Joined)),
        ("join 0\nsendhex 0 0 -", at(4, Cause::Joined)),
        ("join 0\nclose 0 0", at(4, Cause::Joined)),
        ("join 0\nkeepalive 0 0", at(4, Cause::Joined)),
        ("join 0\nbytes 0 0 00", at(4, Cause::Joined)),
        ("connect 0 0\njoin 0", at(4, Cause::Joined)),
        ("send 0 0 x\njoin 0", at(4, Cause::Joined)),
        ("sendhex 0 0 -\njoin 0", at(4, Cause::Joined)),
        ("close 0 0\njoin 0", at(4, Cause::Joined)),
        ("keepalive 0 0\njoin 0", at(4, Cause::Joined)),
        ("bytes 0 0 -\njoin 0", at(4, Cause::Joined)),
        ("offer 0 x", at(3, Cause::NotJoined)),
        ("connect 0 0\noffer 0 x", at(4, Cause::NotJoined)),
        ("join 1\noffer 0 x", at(4, Cause::NotJoined)),
        ("join 64", at(3, Cause::Range)),
        ("join 0\nconnect 1 0\njoin 63\noffer 63 x\noffer 0 x", None),
    ];
    for (lines, want) in &table {
        let fault = fault_behind(rt.alloc(), HEADER.as_bytes(), lines.as_bytes())?;
        assert_eq!(rt; fault, *want, "{lines:?}");
    }
    Ok(())
}

#[test]
fn ends_of_ranges(rt: HostRuntime) -> Result<(), Fail> {
    let good = [
        "rounds 1",
        "rounds 100000",
        "quiet 1",
        "quiet 100000",
        "connect 0 0",
        "connect 63 2",
        "send 63 2 x",
        "sendhex 0 0 -",
        "close 63 2",
        "keepalive 63 2",
        "bytes 63 2 00ff",
        "action 2",
        "stop 2",
        "start 2",
        "invalidate 2",
        "fuse 2 0 drop",
        "fuse 0 1000 keep",
        "fuse 0 1 a7",
        "cut 0 2",
        "heal 2 0",
        "lose 1 2",
        "replay 0 1 1",
        "replay 0 1 256",
        "free on",
        "free off",
        "join 63",
        "backup 2",
        "backup off",
        "backup lose",
    ];
    for line in &good {
        let fault = fault_behind(rt.alloc(), HEADER.as_bytes(), line.as_bytes())?;
        assert_eq!(rt; fault, None, "{line}");
    }
    let bad = [
        "rounds 0",
        "rounds 100001",
        "quiet 0",
        "quiet 100001",
        "connect 64 0",
        "connect 0 3",
        "send 64 0 x",
        "send 0 3 x",
        "sendhex 64 0 -",
        "sendhex 0 3 -",
        "close 64 0",
        "close 0 3",
        "keepalive 64 0",
        "keepalive 0 3",
        "bytes 64 0 00",
        "bytes 0 3 00",
        "action 3",
        "stop 3",
        "start 3",
        "invalidate 3",
        "fuse 3 0 drop",
        "fuse 0 1001 drop",
        "cut 0 3",
        "cut 3 0",
        "cut 1 1",
        "heal 1 1",
        "heal 0 3",
        "lose 2 2",
        "lose 3 0",
        "replay 0 0 1",
        "replay 0 3 1",
        "replay 0 1 0",
        "replay 0 1 257",
        "members 6",
        "rounds 999999999999999999999999999999999999999999999999999999999999999999",
        "connect 0 340282366920938463463374607431768211456",
        "action 18446744073709551616",
        "join 64",
        "offer 64 x",
        "backup 3",
    ];
    for line in &bad {
        let fault = fault_behind(rt.alloc(), HEADER.as_bytes(), line.as_bytes())?;
        assert_eq!(rt; fault, at(3, Cause::Range), "{line}");
    }
    Ok(())
}

#[test]
fn spellings(rt: HostRuntime) -> Result<(), Fail> {
    let bad = [
        "rounds",
        "rounds ",
        "rounds 05",
        "rounds +5",
        "rounds -5",
        "rounds 5 ",
        "rounds  5",
        "rounds 5 5",
        "rounds x",
        "connect 0",
        "connect 0 ",
        "connect 00 0",
        "send 0 0",
        "send 0 0 ",
        "send 0  0 x",
        "sendhex 0 0 ",
        "sendhex 0 0 A0",
        "sendhex 0 0 abc",
        "sendhex 0 0 --",
        "sendhex 0 0 a g",
        "bytes 0 0 0",
        "fuse 0 1 Drop",
        "fuse 0 1 0",
        "fuse 0 1 000",
        "fuse 0 1",
        "cut 0",
        "replay 0 1",
        "free",
        "free ON",
        "free on ",
        "service echo ",
        "service Echo",
        "members",
        "members x",
        "stop 99999999999999999999x",
        "join",
        "join 0 0",
        "offer 0",
        "offer 0 ",
        "backup",
        "backup on",
        "backup 0 0",
        "backup lose ",
    ];
    for line in &bad {
        let fault = fault_behind(rt.alloc(), HEADER.as_bytes(), line.as_bytes())?;
        assert_eq!(rt; fault, at(3, Cause::Arguments), "{line}");
    }
    for line in &[
        " rounds 5",
        "round 5",
        "Rounds 5",
        "rounds5",
        "free-on",
        " ",
    ] {
        let fault = fault_behind(rt.alloc(), HEADER.as_bytes(), line.as_bytes())?;
        assert_eq!(rt; fault, at(3, Cause::UnknownOrder), "{line}");
    }
    for line in &[
        "rounds 5\r\r\n",
        "rounds 5\r",
        "send 0 0 \u{e4}",
        "x\ty",
        "stop\r 0\n",
        "\u{7f}",
    ] {
        let fault = fault_behind(rt.alloc(), HEADER.as_bytes(), line.as_bytes())?;
        assert_eq!(rt; fault, at(3, Cause::Byte), "{line:?}");
    }
    for line in &[
        "rounds 5\r\n",
        "\r\n",
        "#\t\u{e4}\r",
        "# x\r\n\n\nstop 0",
        "send 0 0  x y ",
    ] {
        let fault = fault_behind(rt.alloc(), HEADER.as_bytes(), line.as_bytes())?;
        assert_eq!(rt; fault, None, "{line:?}");
    }
    Ok(())
}

/// `send 0 0 ` and so many bytes behind it.
fn long_line(alloc: Global, bytes: usize, end: &[u8]) -> Result<Vec<u8>, Fail> {
    let mut text = Vec::from_slice(alloc, HEADER.as_bytes())?;
    text.extend_from_slice(b"send 0 0 ")?;
    for _ in 0..bytes {
        text.push(b'a')?;
    }
    text.extend_from_slice(end)?;
    Ok(text)
}

#[test]
fn long_lines(rt: HostRuntime) -> Result<(), Fail> {
    let whole = long_line(rt.alloc(), 39_991, b"\r\n")?;
    assert_eq!(rt; fault_of(rt.alloc(), whole.as_slice())?, None);
    let long = long_line(rt.alloc(), 39_992, b"")?;
    assert_eq!(rt;
        fault_of(rt.alloc(), long.as_slice())?,
        at(3, Cause::LongLine)
    );
    let wrong = long_line(rt.alloc(), 39_992, b"\t")?;
    assert_eq!(rt; fault_of(rt.alloc(), wrong.as_slice())?, at(3, Cause::Byte));
    let mut comment = Vec::from_slice(rt.alloc(), b"#")?;
    for _ in 0..1_000_000 {
        comment.push(0xff)?;
    }
    comment.extend_from_slice(b"\nmembers 1")?;
    assert_eq!(rt;
        fault_of(rt.alloc(), comment.as_slice())?,
        at(3, Cause::Header)
    );
    Ok(())
}

#[test]
fn orders_come_before_the_first_fault(rt: HostRuntime) -> Result<(), Fail> {
    let text = "members 3\nservice echo\n#\nsend 0 2 hi\nfuse 1 2 a7\nstop 3\nstop 0\n";
    let Reading { orders, fault } = read(rt.alloc(), text.as_bytes())?;
    assert_eq!(rt; fault, at(6, Cause::Range));
    let want = "members 3\nservice echo\nsend 0 2 hi\nfuse 1 2 a7\n";
    let printed = print(rt.alloc(), orders.as_slice())?;
    assert_eq!(rt; printed.as_slice(), want.as_bytes());
    Ok(())
}

#[test]
fn a_text_is_parsed_or_refused(rt: HostRuntime) -> Result<(), Fail> {
    let orders = parse(rt.alloc(), HEADER.as_bytes())
        .ok()
        .ok_or("this is a scenario")?;
    assert_eq!(rt; orders.len(), 2);
    let fault = match parse(rt.alloc(), b"members 3\nservice x") {
        Ok(_) => None,
        Err(fault) => Some(fault),
    };
    let cause = Cause::Arguments;
    assert_eq!(rt; fault, Some(ParseFault::Refused { line: 2, cause }));
    Ok(())
}

#[test]
fn every_order_is_printed(rt: HostRuntime) -> Result<(), Fail> {
    let text = "members 4\nservice ledger\nservice ticker\nservice echo\nrounds 40\nquiet 1\n\
        connect 63 3\nsend 0 1  a b \nsendhex 0 0 -\nsendhex 5 2 00ff9a\nclose 1 0\nkeepalive 10 0\n\
        bytes 0 0 7f\naction 0\nstop 1\nstart 1\ninvalidate 2\nfuse 0 0 drop\nfuse 1 1000 keep\n\
        fuse 2 7 0a\ncut 0 1\nheal 1 2\nlose 3 0\nreplay 0 1 256\nfree on\nfree off\njoin 2\noffer 2  a b \nbackup 0\n\
        backup off\nbackup lose\n";
    let Reading { orders, fault } = read(rt.alloc(), text.as_bytes())?;
    assert_eq!(rt; fault, None);
    assert_eq!(rt; orders.len(), 31);
    let printed = print(rt.alloc(), orders.as_slice())?;
    assert_eq!(rt; printed.as_slice(), text.as_bytes());
    Ok(())
}

#[test]
fn the_generated_scenario(rt: HostRuntime) -> Result<(), Fail> {
    let want = "members 3\nservice echo\nservice ledger\nrounds 60\nconnect 0 0\nconnect 1 0\n\
        connect 2 0\nconnect 3 0\nconnect 4 0\nrounds 5\nrounds 5\nstop 0\nrounds 300\nstart 0\n\
        rounds 100\nsend 0 1 m0\nrounds 3\nrounds 10\n";
    let one = make(rt.alloc(), 1)?;
    assert_eq!(rt; one.as_slice(), want.as_bytes());
    for n in [2, 11, 20_000] {
        let text = make(rt.alloc(), n)?;
        assert_eq!(rt; fault_of(rt.alloc(), text.as_slice())?, None, "{n}");
    }
    Ok(())
}

#[test]
fn causes_are_spelled(rt: HostRuntime) {
    let table = [
        (Cause::Byte, "byte"),
        (Cause::LongLine, "long line"),
        (Cause::UnknownOrder, "unknown order"),
        (Cause::Arguments, "arguments"),
        (Cause::Range, "range"),
        (Cause::Header, "header"),
        (Cause::Rounds, "rounds"),
        (Cause::Joined, "joined"),
        (Cause::NotJoined, "not joined"),
        (Cause::NotBuilt, "not built"),
    ];
    for (cause, text) in table {
        assert_eq!(rt; cause.text(), text);
    }
}
