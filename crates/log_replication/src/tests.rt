// Answers, cuts, commits and batches at worked values.
use crate::{answer_canvass, batch_len, commit_after, keep_for, quorum_position};
use cl_base::NoMemory;
use entry_log::LogIndex;
use std::alloc::Global;
use std::process::Abort;
use std::test::Fail;

fn index_of(rt: &impl Abort, alloc: Global, entries: &[(i64, u64)]) -> Result<LogIndex, NoMemory> {
    let mut index = LogIndex::new(alloc);
    for (term, len) in entries {
        assert!(rt; index.place() <= 16_777_216 && index.last_term() <= *term && *len <= 32_768);
        index.push(*term, *len)?;
    }
    Ok(index)
}

#[test]
fn a_follower_of_terms_1_2_4_comes_to_a_leader_of_1_3_by_two_answers(
    rt: HostRuntime,
) -> Result<(), Fail> {
    let leader = index_of(&rt, rt.alloc(), &[(1, 48), (3, 48)])?;
    let mut follower = index_of(&rt, rt.alloc(), &[(1, 48), (2, 48), (4, 48)])?;
    assert_eq!(rt; answer_canvass(&leader, 4), (3, 192));
    assert_eq!(rt; keep_for(&follower, 3, 192), (2, false));
    assert!(rt; 2 <= follower.entries());
    follower.cut(2);
    assert_eq!(rt; answer_canvass(&leader, 2), (1, 96));
    assert_eq!(rt; keep_for(&follower, 1, 96), (1, true));
    assert_eq!(rt; answer_canvass(&leader, 0), (-1, 0));
    assert_eq!(rt; keep_for(&follower, -1, 0), (0, true));
    Ok(())
}

#[test]
fn a_quorum_reaches_the_middle_of_the_reports(rt: HostRuntime) {
    let cases: [(&[u64], u64); 16] = [
        (&[7], 7),
        (&[0], 0),
        (&[5, 9], 5),
        (&[9, 5], 5),
        (&[4, 4], 4),
        (&[1, 2, 3], 2),
        (&[3, 1, 2], 2),
        (&[0, 0, 9], 0),
        (&[5, 5, 1], 5),
        (&[1, 2, 3, 4], 2),
        (&[4, 4, 4, 0], 4),
        (&[9, 0, 0, 9], 0),
        (&[1, 2, 3, 4, 5], 3),
        (&[480, 288, 288, 96, 96], 288),
        (&[480, 480, 480, 96, 96], 480),
        (&[7, 7, 7, 7, 7], 7),
    ];
    for (reports, want) in cases {
        assert!(rt; 0 < reports.len() && reports.len() <= 5);
        assert_eq!(rt; quorum_position(reports), want, "of {reports:?}");
    }
}

#[test]
fn entries_of_older_terms_wait_for_one_of_the_leaders_own(rt: HostRuntime) {
    for (commit, own_end, q, want) in [
        (96, 480, 288, 96),
        (96, 480, 480, 480),
        (480, 480, 480, 480),
        (96, 96, 480, 480),
    ] {
        assert_eq!(rt;
            commit_after(commit, own_end, q),
            want,
            "{commit} {own_end} {q}"
        );
    }
}

#[test]
fn a_batch_ends_at_64_entries_8192_bytes_or_its_segment(rt: HostRuntime) -> Result<(), Fail> {
    let mut index = index_of(&rt, rt.alloc(), &[(0, 16_416), (0, 16_416), (0, 16_416)])?;
    // 157 entries of 96 bytes fill the first segment but for 64 bytes.
    for _ in 0..240 {
        assert!(rt; index.place() <= 16_777_216 && index.last_term() <= 0);
        index.push(0, 48)?;
    }
    for (from, want) in [
        (0, 1),
        (2, 1),
        (3, 64),
        (153, 7),
        (160, 64),
        (240, 3),
        (243, 0),
    ] {
        assert!(rt; from <= index.entries());
        assert_eq!(rt; batch_len(&index, from), want, "from {from}");
    }
    let large = index_of(
        &rt,
        rt.alloc(),
        &[(0, 4_000), (0, 4_192), (0, 1), (0, 8_192), (0, 1)],
    )?;
    for (from, want) in [(0, 2), (1, 2), (2, 1), (3, 1), (4, 1)] {
        assert!(rt; from <= large.entries());
        assert_eq!(rt; batch_len(&large, from), want, "from {from}");
    }
    Ok(())
}
