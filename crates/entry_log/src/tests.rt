// Places and index, at values that were computed by hand from the format.
use crate::{LogIndex, better, end_after, place};
use cl_base::{Bytes, Entry, NoMemory};
use std::alloc::Global;
use std::process::Abort;
use std::test::Fail;

#[test]
fn entries_end_at_the_places_of_the_format(rt: HostRuntime) {
    for (at, len, want) in [
        (0, 16_416, 16_800),
        (0, 1_376, 1_408),
        (0, 1_377, 1_472),
        (65_440, 1_408, 67_008),
        // A new term event, an open with a channel of 16 bytes, a timer, a close.
        (0, 48, 96),
        (0, 64, 96),
        (0, 32, 64),
        (0, 36, 96),
        // Messages of 0, 1, 960 and 1,344 bytes.
        (0, 32, 64),
        (0, 33, 96),
        (0, 992, 1_024),
        (0, 1_376, 1_408),
        // The last 96 bytes of a segment, and one frame too many for them.
        (65_440, 48, 65_536),
        (65_440, 65, 65_664),
    ] {
        assert!(rt; at <= 65_536 && len <= 32_768);
        assert_eq!(rt; end_after(at, len), want, "at {at} for {len}");
    }
}

#[test]
fn the_better_log_has_the_later_term_and_then_the_higher_place(rt: HostRuntime) {
    for (t1, p1, t2, p2, want) in [
        (1, 0, 0, 960, true),
        (0, 960, 1, 0, false),
        (2, 192, 2, 96, true),
        (2, 96, 2, 96, false),
        (0, 96, -1, 0, true),
    ] {
        assert_eq!(rt; better(t1, p1, t2, p2), want, "{t1} {p1} against {t2} {p2}");
    }
}

fn entry(alloc: Global, term: i64, bytes: &[u8]) -> Result<Entry, NoMemory> {
    let bytes = Bytes::of(alloc, bytes)?;
    Ok(Entry { term, bytes })
}

fn place_of(rt: &impl Abort, log: &[Entry]) -> u64 {
    let short = log.iter().all(|e| e.bytes.len() <= 32_768);
    assert!(rt; short && log.len() < 100);
    place(log)
}

#[test]
fn a_log_of_a_term_an_open_and_a_message_ends_at_288(rt: HostRuntime) -> Result<(), Fail> {
    let alloc = rt.alloc();
    let log = [
        entry(alloc, 0, &[1; 48])?,
        entry(alloc, 0, &[2; 48])?,
        entry(alloc, 0, &[3; 33])?,
    ];
    assert_eq!(rt; place_of(&rt, &log), 288);
    Ok(())
}

fn push(rt: &impl Abort, index: &mut LogIndex, term: i64, len: u64) -> Result<(), NoMemory> {
    assert!(rt; index.place() <= 16_777_216 && index.last_term() <= term && len <= 32_768);
    index.push(term, len)
}

#[test]
fn an_index_answers_of_terms_1_2_2_4(rt: HostRuntime) -> Result<(), Fail> {
    let mut index = LogIndex::new(rt.alloc());
    assert_eq!(rt;
        (index.entries(), index.place(), index.last_term()),
        (0, 0, -1)
    );
    assert_eq!(rt;
        (
            index.end_of_term(-1),
            index.entries_to(500),
            index.entries_through(9)
        ),
        (0, 0, 0)
    );
    for (term, len) in [(1, 48), (2, 48), (2, 33), (4, 1_377)] {
        push(&rt, &mut index, term, len)?;
    }
    assert_eq!(rt;
        (index.entries(), index.place(), index.last_term()),
        (4, 1_760, 4)
    );
    for (n, end, term) in [
        (0, 0, -1),
        (1, 96, 1),
        (2, 192, 2),
        (3, 288, 2),
        (4, 1_760, 4),
    ] {
        assert!(rt; n <= index.entries());
        assert_eq!(rt;
            (index.end_at(n), index.term_at(n)),
            (end, term),
            "{n} entries"
        );
    }
    for (at, want) in [
        (0, 0),
        (95, 0),
        (96, 1),
        (191, 1),
        (288, 3),
        (1_759, 3),
        (1_760, 4),
        (9_999, 4),
    ] {
        assert_eq!(rt; index.entries_to(at), want, "to {at}");
    }
    for (term, entries, end) in [
        (0, 0, 0),
        (1, 1, 96),
        (2, 3, 288),
        (3, 3, 0),
        (4, 4, 1_760),
        (5, 4, 0),
    ] {
        assert_eq!(rt;
            (index.entries_through(term), index.end_of_term(term)),
            (entries, end),
            "term {term}"
        );
    }
    assert!(rt; 2 < index.entries());
    assert_eq!(rt; index.event_len(2), 33);
    index.cut(2);
    assert_eq!(rt;
        (index.entries(), index.place(), index.last_term()),
        (2, 192, 2)
    );
    push(&rt, &mut index, 3, 48)?;
    assert_eq!(rt;
        (index.entries(), index.place(), index.end_of_term(3)),
        (3, 288, 288)
    );
    Ok(())
}
