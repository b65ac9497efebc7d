ghost use Rattle.std.specs.Prelude.{◌≤◌, length, IfOk};
ghost use Rattle.sbe_events.specs.Spelling.{HasSpelling, IsClient};

use cl_base::{Bytes, NoMemory};
use sbe_events::Event;
use sbe_local::Command;
use service_api::{Kind, Output, Outputs, Shipped};
use std::alloc::Global;
use std::test::Fail;
use wire_prims::{Bad, BadCause, DecodeFault};

// What a message of a session with this payload brings out. Its stamp is 410 ms.
fn send_as(
    alloc: Global,
    service: &mut Shipped,
    session: i64,
    payload: &[u8],
) -> Result<Outputs, NoMemory>
    requires session { IsClient session }
    requires short { length payload.now ≤ 16384 }
{
    let e = Event::Message {
        term: 0,
        session,
        stamp: 410,
        payload: Bytes::of(alloc, payload)?,
    };
    let mut out = Outputs::new(alloc);
    service.apply(2, &e, &mut out)?;
    Ok(out)
}

// What a message of session 1 with this payload brings out.
fn send(alloc: Global, service: &mut Shipped, payload: &[u8]) -> Result<Outputs, NoMemory>
    requires { length payload.now ≤ 16384 }
{
    send_as(alloc, service, 1, payload)
}

// A session is closed.
fn close(alloc: Global, service: &mut Shipped, session: i64) -> Result<Outputs, NoMemory>
    requires { IsClient session }
{
    let e = Event::Closed {
        term: 0,
        session,
        stamp: 600,
        reason: 0,
    };
    let mut out = Outputs::new(alloc);
    service.apply(5, &e, &mut out)?;
    Ok(out)
}

// What a service message with this payload brings out.
fn offered(alloc: Global, service: &mut Shipped, payload: &[u8]) -> Result<Outputs, NoMemory>
    requires { length payload.now ≤ 16384 }
{
    let e = Event::ServiceMessage {
        term: 0,
        service: 2,
        number: 1,
        stamp: 420,
        payload: Bytes::of(alloc, payload)?,
    };
    let mut out = Outputs::new(alloc);
    service.apply(3, &e, &mut out)?;
    Ok(out)
}

// The only output, or the first of two, goes to this session with this payload.
fn tells(out: &Outputs, to: i64, payload: &[u8]) -> bool {
    match out.as_slice().first() {
        Some(
            Output::Egress {
                session,
                payload: given,
            },
        ) => *session == to && given.as_slice() == payload,
        _ => false,
    }
}

// The same for session 1.
fn answers(out: &Outputs, payload: &[u8]) -> bool {
    tells(out, 1, payload)
}

fn offers(out: &Outputs, payload: &[u8]) -> bool {
    match out.as_slice().get(1) {
        Some(Output::Command(Command::Offer { payload: given, .. })) => given.as_slice() == payload,
        _ => false,
    }
}

fn is_bad(read: Result<Shipped, DecodeFault>, at: usize, why: BadCause) -> bool {
    match read {
        Err(DecodeFault::Bad(Bad { place, cause })) => place == at as u64 && cause == why,
        _ => false,
    }
}

#[test]
fn an_echo_gives_each_message_back(rt: HostRuntime) -> Result<(), Fail> {
    let alloc = rt.alloc();
    let mut echo = Shipped::fresh(alloc, Kind::Echo)?;
    assert_eq!(rt; echo.kind(), Kind::Echo);
    let out = send(alloc, &mut echo, b"hi")?;
    assert_eq!(rt; out.len(), 1);
    assert!(rt; answers(&out, b"hi"));
    assert_eq!(rt; offered(alloc, &mut echo, b"hi")?.len(), 0);
    let records = echo.records()?;
    assert_eq!(rt; records.len(), 0);
    assert!(rt; Shipped::of_records(alloc, Kind::Echo, records.as_slice()).is_ok());
    assert!(rt;
        is_bad(
            Shipped::of_records(alloc, Kind::Echo, b"x"),
            0,
            BadCause::Trailing
        )
    );
    Ok(())
}

#[test]
fn a_ledger_tells_totals_and_offers_from_1000(rt: HostRuntime) -> Result<(), Fail> {
    let alloc = rt.alloc();
    let mut ledger = Shipped::fresh(alloc, Kind::Ledger)?;
    let out = send(alloc, &mut ledger, &[5, 0, 0, 0, 0, 0, 0, 0])?;
    assert_eq!(rt; out.len(), 1);
    assert!(rt; answers(&out, &[5, 0, 0, 0, 0, 0, 0, 0]));
    // The amount is 1,000, and the new total 1,005.
    let out = send(alloc, &mut ledger, &[0xe8, 3, 0, 0, 0, 0, 0, 0])?;
    assert_eq!(rt; out.len(), 2);
    assert!(rt; answers(&out, &[0xed, 3, 0, 0, 0, 0, 0, 0]));
    assert!(rt; offers(&out, &[0xed, 3, 0, 0, 0, 0, 0, 0]));
    // 999 is not offered.
    let out = send(alloc, &mut ledger, &[0xe7, 3, 0, 0, 0, 0, 0, 0])?;
    assert_eq!(rt; out.len(), 1);
    assert!(rt; answers(&out, &[0xd4, 7, 0, 0, 0, 0, 0, 0]));
    // The total would pass what 64 bits hold.
    let out = send(alloc, &mut ledger, &[0xff; 8])?;
    assert_eq!(rt; out.len(), 1);
    assert!(rt; answers(&out, &[]));
    assert_eq!(rt; send(alloc, &mut ledger, &[1, 2, 3])?.len(), 0);
    assert_eq!(rt;
        offered(alloc, &mut ledger, &[0xed, 3, 0, 0, 0, 0, 0, 0])?.len(),
        0
    );
    assert_eq!(rt; offered(alloc, &mut ledger, &[1])?.len(), 0);
    let records = ledger.records()?;
    let wanted = [0xd4, 7, 0, 0, 0, 0, 0, 0, 1, 0, 0, 0, 0, 0, 0, 0];
    assert!(rt; records.as_slice() == wanted.as_slice());
    Ok(())
}

#[test]
fn records_of_a_ledger_have_exactly_16_bytes(rt: HostRuntime) -> Result<(), Fail> {
    let alloc = rt.alloc();
    let bytes = [0xff; 17];
    for n in 0..16usize {
        let read = Shipped::of_records(alloc, Kind::Ledger, &bytes[..n]);
        assert!(rt; is_bad(read, n, BadCause::Short));
    }
    let mut full = Shipped::of_records(alloc, Kind::Ledger, &bytes[..16])?;
    assert!(rt;
        is_bad(
            Shipped::of_records(alloc, Kind::Ledger, &bytes),
            16,
            BadCause::Trailing
        )
    );
    // Audits stay at the greatest number of 64 bits, and an amount of nothing still fits.
    offered(alloc, &mut full, &[0; 8])?;
    assert!(rt; answers(&send(alloc, &mut full, &[0; 8])?, &[0xff; 8]));
    assert!(rt; full.records()?.as_slice() == &bytes[..16]);
    Ok(())
}

// The only output schedules that timer.
fn schedules(out: &Outputs, id: i64, due: i64) -> bool {
    match out.as_slice().first() {
        Some(Output::Command(Command::Schedule { corr, deadline })) => {
            *corr == id && *deadline == due
        }
        _ => false,
    }
}

// A timer is due.
fn ring(alloc: Global, service: &mut Shipped, corr: i64) -> Result<Outputs, NoMemory> {
    let e = Event::Timer {
        term: 0,
        corr,
        stamp: 510,
    };
    let mut out = Outputs::new(alloc);
    service.apply(4, &e, &mut out)?;
    Ok(out)
}

#[test]
fn a_ticker_schedules_rings_and_forgets(rt: HostRuntime) -> Result<(), Fail> {
    let alloc = rt.alloc();
    let mut ticker = Shipped::fresh(alloc, Kind::Ticker)?;
    let seven = [7, 0, 0, 0, 0, 0, 0, 0];
    // The stamp is 410 ms, and the delay 100 ms.
    let out = send(
        alloc,
        &mut ticker,
        &[7, 0, 0, 0, 0, 0, 0, 0, 100, 0, 0, 0, 0, 0, 0, 0],
    )?;
    assert_eq!(rt; out.len(), 1);
    assert!(rt; schedules(&out, 7, 510));
    // A delay of 2^32 ms is too long.
    let long = [8, 0, 0, 0, 0, 0, 0, 0, 0, 0, 0, 0, 1, 0, 0, 0];
    assert_eq!(rt; send(alloc, &mut ticker, &long)?.len(), 0);
    assert!(rt; answers(&ring(alloc, &mut ticker, 7)?, &seven));
    assert_eq!(rt; ring(alloc, &mut ticker, 8)?.len(), 0);
    let out = send(alloc, &mut ticker, &seven)?;
    assert!(rt;
        matches!(
            out.as_slice().first(),
            Some(Output::Command(Command::Cancel { corr: 7 }))
        )
    );
    let out = send(alloc, &mut ticker, b"x")?;
    assert!(rt;
        matches!(
            out.as_slice().first(),
            Some(Output::Command(Command::CloseSession { session: 1 }))
        )
    );
    let records = ticker.records()?;
    let wanted = [1, 0, 0, 0, 7, 0, 0, 0, 0, 0, 0, 0, 1, 0, 0, 0, 0, 0, 0, 0];
    assert!(rt; records.as_slice() == wanted.as_slice());
    assert_eq!(rt; close(alloc, &mut ticker, 1)?.len(), 0);
    assert_eq!(rt; ring(alloc, &mut ticker, 7)?.len(), 0);
    assert!(rt; ticker.records()?.as_slice() == [0, 0, 0, 0].as_slice());
    Ok(())
}

// The payload that sets the timer of an id 100 ms on.
fn timer(id: u16) -> [u8; 16] {
    let [low, high] = id.to_le_bytes();
    [low, high, 0, 0, 0, 0, 0, 0, 100, 0, 0, 0, 0, 0, 0, 0]
}

#[test]
fn a_full_ticker_takes_no_further_id(rt: HostRuntime) -> Result<(), Fail> {
    let alloc = rt.alloc();
    let mut ticker = Shipped::fresh(alloc, Kind::Ticker)?;
    for id in 0..4096u16 {
        let out = send(alloc, &mut ticker, &timer(id))?;
        assert!(rt; schedules(&out, id as i64, 510));
    }
    // One id more is neither scheduled nor mapped.
    assert_eq!(rt; send(alloc, &mut ticker, &timer(4096))?.len(), 0);
    assert_eq!(rt; ring(alloc, &mut ticker, 4096)?.len(), 0);
    // An id that is there still is, and now belongs to the session that asked last.
    let out = send_as(alloc, &mut ticker, 2, &timer(4095))?;
    assert_eq!(rt; out.len(), 1);
    assert!(rt; schedules(&out, 4095, 510));
    let last = [0xff, 15, 0, 0, 0, 0, 0, 0];
    assert!(rt; tells(&ring(alloc, &mut ticker, 4095)?, 2, &last));
    let records = ticker.records()?;
    assert_eq!(rt; records.len(), 65_540);
    assert!(rt; Shipped::of_records(alloc, Kind::Ticker, records.as_slice()).is_ok());
    // A close removes the ids of its session, and no other one. Then there is room again.
    close(alloc, &mut ticker, 1)?;
    assert_eq!(rt; ring(alloc, &mut ticker, 4094)?.len(), 0);
    let wanted = [
        1, 0, 0, 0, 0xff, 15, 0, 0, 0, 0, 0, 0, 2, 0, 0, 0, 0, 0, 0, 0,
    ];
    assert!(rt; ticker.records()?.as_slice() == wanted.as_slice());
    let out = send(alloc, &mut ticker, &timer(4096))?;
    assert!(rt; schedules(&out, 4096, 510));
    Ok(())
}

#[test]
fn records_of_a_ticker_are_read_up_to_their_first_fault(rt: HostRuntime) -> Result<(), Fail> {
    let alloc = rt.alloc();
    let mut bytes = [0; 37];
    bytes[0] = 2;
    bytes[4] = 7;
    bytes[20] = 9;
    for n in 0..36usize {
        let read = Shipped::of_records(alloc, Kind::Ticker, &bytes[..n]);
        assert!(rt; is_bad(read, n, BadCause::Short));
    }
    assert!(rt; Shipped::of_records(alloc, Kind::Ticker, &bytes[..36]).is_ok());
    assert!(rt;
        is_bad(
            Shipped::of_records(alloc, Kind::Ticker, &bytes),
            36,
            BadCause::Trailing
        )
    );
    // The second id is 7, 6 and 5 behind a 7: it isn't above the first one. Its session need not be there.
    for (id, end) in [(7, 37), (6, 36), (5, 28)] {
        bytes[20] = id;
        let read = Shipped::of_records(alloc, Kind::Ticker, &bytes[..end]);
        assert!(rt; is_bad(read, 20, BadCause::Value));
    }
    // The second id is -1.
    bytes[20..28].fill(0xff);
    assert!(rt;
        is_bad(
            Shipped::of_records(alloc, Kind::Ticker, &bytes),
            20,
            BadCause::Value
        )
    );
    // 4,097 ids.
    bytes[0] = 1;
    bytes[1] = 16;
    assert!(rt;
        is_bad(
            Shipped::of_records(alloc, Kind::Ticker, &bytes),
            0,
            BadCause::Value
        )
    );
    Ok(())
}
