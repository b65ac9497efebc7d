// The rows at worked moments.
ghost use Rattle.sbe_consensus.specs.Spelling.{HasSpelling};

use super::{APPEND, CANVASS, COMMIT, NEW_TERM, REQUEST_VOTE, VOTE, index_of, packet};
use crate::change::Change;
use crate::row::Row;
use crate::sends::{Send, sends_of};
use crate::values::Values;
use election::{Election, State};
use entry_log::LogIndex;
use sbe_consensus::Packet;
use std::alloc::Global;
use std::process::Abort;
use std::test::Fail;

/// Member 1 of three in a state, with its candidate term, its term, deadline (ms) and next (ms).
fn seated(state: State, candidate: i64, term: i64, deadline: u64, next: u64) -> Values {
    let mut election = Election::new(1, 3, candidate, None);
    election.state = state;
    election.term = term;
    election.leader = Some(0);
    election.deadline = deadline;
    election.next = next;
    let rest = crate::rest::reigning(0, 0, 0);
    Values { election, rest }
}

fn put_change(text: &mut String, change: &Change) -> Result<(), Fail> {
    match change {
        Change::Nothing => {}
        Change::Raise { term, voted } => write!(text, " raise {term} {voted:?}")?,
        Change::Append(entries) => write!(text, " append {}", entries.len())?,
        Change::Cut(entries) => write!(text, " cut {entries}")?,
    }
    Ok(())
}

fn put_sends(text: &mut String, sends: &[Send]) -> Result<(), Fail> {
    for send in sends {
        match send {
            Send::Says { to, word } => write!(text, " {to}:{word:?}")?,
            Send::Hands {
                to,
                start,
                from,
                count,
            } => write!(text, " {to}:batch {start} {from} {count}")?,
        }
    }
    Ok(())
}

/// What a row gives, in a line: state, candidate term, term, deadline, next, the change and what is sent.
fn told(rt: &impl Abort, alloc: Global, row: &Row, index: &LogIndex) -> Result<String, Fail> {
    let e = &row.values.election;
    let mut text = format!(in alloc;
        "{:?} {} {} {} {}",
        e.state, e.candidate, e.term, e.deadline, e.next
    )?;
    put_change(&mut text, &row.change)?;
    assert!(rt; row.values.election.members <= 5);
    let sends = sends_of(alloc, row.plan, &row.values, index)?;
    put_sends(&mut text, sends.as_slice())?;
    Ok(text)
}

fn does(
    rt: &impl Abort,
    alloc: Global,
    values: Values,
    index: &LogIndex,
    now: u64,
) -> Result<String, Fail> {
    assert!(rt;
        now <= 1 << 60
            && values.election.members <= 5
            && values.election.id < values.election.members
    );
    assert!(rt; values.election.candidate >= 0 && values.election.candidate <= 1 << 62);
    assert!(rt; values.election.term >= 0 && values.election.term <= 1 << 62);
    assert!(rt; values.rest.commit <= index.entries() && index.place() <= 16_777_216);
    let row = values.does_duty(alloc, index, &[], now)?;
    told(rt, alloc, &row, index)
}

#[test]
fn a_duty_runs_the_row_of_its_state_at_its_deadlines(rt: HostRuntime) -> Result<(), Fail> {
    let alloc = rt.alloc();
    let index = index_of(&rt, alloc, &[(0, 48)])?;
    // State, deadline, next, now: P2, P3, P4, P5, P8, P9, P10, P18.
    for (state, deadline, next, now, want) in [
        (State::Init, 0, 0, 40, "Canvass 2 -1 440 40"),
        (State::Canvass, 440, 999, 439, "Canvass 2 2 440 999"),
        (State::Canvass, 440, 100, 440, "Canvass 2 2 840 100"),
        (State::Canvass, 440, 100, 441, "Canvass 2 2 841 100"),
        (State::Canvass, 440, 120, 119, "Canvass 2 2 440 120"),
        (
            State::Canvass,
            440,
            120,
            120,
            "Canvass 2 2 440 220 0:Canvass 2:Canvass",
        ),
        (
            State::Canvass,
            440,
            120,
            121,
            "Canvass 2 2 440 221 0:Canvass 2:Canvass",
        ),
        (
            State::Nominate,
            0,
            0,
            50,
            "CandidateBallot 3 2 550 0 raise 3 Some(1) 0:RequestVote 2:RequestVote",
        ),
        (
            State::CandidateBallot,
            550,
            0,
            549,
            "CandidateBallot 2 2 550 0",
        ),
        (State::CandidateBallot, 550, 0, 550, "Canvass 2 -1 950 550"),
        (
            State::FollowerBallot,
            550,
            0,
            549,
            "FollowerBallot 2 2 550 0",
        ),
        (State::FollowerBallot, 550, 0, 550, "Canvass 2 -1 950 550"),
        (State::FollowerBallot, 550, 0, 551, "Canvass 2 -1 951 551"),
        (
            State::LeaderInit,
            0,
            0,
            350,
            "LeaderReady 2 2 0 450 append 1 0:Announcement 2:Announcement",
        ),
        (
            State::FollowerReady,
            1_000,
            500,
            499,
            "FollowerReady 2 2 1000 500",
        ),
        (
            State::FollowerReady,
            1_000,
            500,
            500,
            "FollowerReady 2 2 1000 600 0:Report",
        ),
        (
            State::FollowerReady,
            1_000,
            500,
            999,
            "FollowerReady 2 2 1000 1099 0:Report",
        ),
        (
            State::FollowerReady,
            1_000,
            500,
            1_000,
            "Canvass 2 -1 1400 1000",
        ),
        (
            State::FollowerLogReplication,
            1_000,
            500,
            500,
            "FollowerLogReplication 2 2 1000 600 0:Canvass",
        ),
        (
            State::FollowerLogReplication,
            1_000,
            500,
            1_001,
            "Canvass 2 -1 1401 1001",
        ),
        (State::Closed, 0, 0, 10, "Closed 2 2 0 0"),
    ] {
        let values = seated(state, 2, 2, deadline, next);
        let text = does(&rt, alloc, values, &index, now)?;
        assert_eq!(rt; text.as_str(), want, "{state:?} at {now}");
    }
    Ok(())
}

fn gets(
    rt: &impl Abort,
    alloc: Global,
    values: Values,
    index: &LogIndex,
    packet: &Packet,
    now: u64,
) -> Result<String, Fail>
    requires { HasSpelling packet.now }
{
    assert!(rt; now <= 1 << 60 && values.election.id < 5);
    let row = values.receives(alloc, index, packet, now)?;
    told(rt, alloc, &row, index)
}

#[test]
fn a_packet_runs_the_row_of_its_kind(rt: HostRuntime) -> Result<(), Fail> {
    let alloc = rt.alloc();
    // Terms 1, 2 and 4, as new term events of 96 bytes.
    let index = index_of(&rt, alloc, &[(1, 48), (2, 48), (4, 48)])?;
    let announced: [&[i64]; 3] = [&[-2, 0, -1, 0, 4], &[-2, 0, -1, 0, 5], &[-2, 0, -1, 0, 6]];
    let cases: [(State, i64, u16, &[i64], &[i32], &str); 29] = [
        // P6: below the candidate term, equal without a vote, a worse log, one no worse.
        (
            State::FollowerReady,
            5,
            REQUEST_VOTE,
            &[9, 999, 4],
            &[2],
            "FollowerReady 5 5 700 70 2:Vote { asker: 2, term: 4, granted: false }",
        ),
        (
            State::FollowerReady,
            5,
            REQUEST_VOTE,
            &[9, 999, 5],
            &[2],
            "FollowerReady 5 5 700 70 2:Vote { asker: 2, term: 5, granted: false }",
        ),
        (
            State::FollowerReady,
            5,
            REQUEST_VOTE,
            &[4, 192, 6],
            &[2],
            "Canvass 6 -1 1000 600 raise 6 None 2:Vote { asker: 2, term: 6, granted: false }",
        ),
        (
            State::LeaderReady,
            5,
            REQUEST_VOTE,
            &[4, 288, 6],
            &[2],
            "FollowerBallot 6 -1 1100 70 raise 6 Some(2) 2:Vote { asker: 2, term: 6, granted: true }",
        ),
        // P11: an older term, its own in each state, a newer one.
        (
            State::Canvass,
            5,
            NEW_TERM,
            announced[0],
            &[2],
            "Canvass 5 5 700 70",
        ),
        (
            State::Canvass,
            5,
            NEW_TERM,
            announced[1],
            &[2],
            "FollowerLogReplication 5 5 1600 700 2:Canvass",
        ),
        (
            State::FollowerReady,
            5,
            NEW_TERM,
            announced[1],
            &[2],
            "FollowerReady 5 5 1600 70",
        ),
        (
            State::FollowerLogReplication,
            5,
            NEW_TERM,
            announced[1],
            &[2],
            "FollowerLogReplication 5 5 1600 700 2:Canvass",
        ),
        (
            State::LeaderInit,
            5,
            NEW_TERM,
            announced[1],
            &[2],
            "LeaderInit 5 5 700 70",
        ),
        (
            State::LeaderReady,
            5,
            NEW_TERM,
            announced[1],
            &[2],
            "LeaderReady 5 5 700 70",
        ),
        (
            State::LeaderReady,
            5,
            NEW_TERM,
            announced[2],
            &[2],
            "FollowerLogReplication 6 6 1600 700 raise 6 None 2:Canvass",
        ),
        (
            State::FollowerReady,
            5,
            NEW_TERM,
            announced[2],
            &[2],
            "FollowerLogReplication 6 6 1600 700 raise 6 None 2:Canvass",
        ),
        // P12: to another log than this, a cut that doesn't match yet, one that does, none to cut.
        (
            State::FollowerLogReplication,
            5,
            NEW_TERM,
            &[4, 192, 3, 192, 5],
            &[2],
            "FollowerLogReplication 5 5 1600 70 2:Canvass",
        ),
        (
            State::FollowerLogReplication,
            5,
            NEW_TERM,
            &[4, 288, 3, 192, 5],
            &[2],
            "FollowerLogReplication 5 5 1600 70 cut 2 2:Canvass",
        ),
        (
            State::FollowerLogReplication,
            5,
            NEW_TERM,
            &[4, 288, 2, 192, 5],
            &[2],
            "FollowerReady 5 5 1600 70 cut 2 2:Report",
        ),
        (
            State::FollowerLogReplication,
            5,
            NEW_TERM,
            &[4, 288, 1, 96, 5],
            &[2],
            "FollowerReady 5 5 1600 70 cut 1 2:Report",
        ),
        (
            State::FollowerLogReplication,
            5,
            NEW_TERM,
            &[4, 288, 4, 480, 5],
            &[2],
            "FollowerReady 5 5 1600 70 2:Report",
        ),
        (
            State::FollowerLogReplication,
            5,
            NEW_TERM,
            &[4, 288, -1, 0, 5],
            &[2],
            "FollowerReady 5 5 1600 70 cut 0 2:Report",
        ),
        // P13: a leader answers, or hears of a later candidate term; nobody else answers.
        (
            State::LeaderReady,
            5,
            CANVASS,
            &[3, 192, 5],
            &[2],
            "LeaderReady 5 5 700 70 2:Answer { asked: LogName { term: 3, place: 192 } }",
        ),
        (
            State::LeaderReady,
            5,
            CANVASS,
            &[3, 192, 6],
            &[2],
            "Canvass 5 -1 1000 600",
        ),
        (
            State::FollowerReady,
            5,
            CANVASS,
            &[3, 192, 6],
            &[2],
            "FollowerReady 5 5 700 70",
        ),
        // P17: of its own term, of another.
        (
            State::FollowerReady,
            5,
            COMMIT,
            &[5, 192],
            &[2],
            "FollowerReady 5 5 1600 70",
        ),
        (
            State::FollowerReady,
            5,
            COMMIT,
            &[4, 192],
            &[2],
            "FollowerReady 5 5 700 70",
        ),
        (
            State::FollowerLogReplication,
            5,
            COMMIT,
            &[5, 192],
            &[2],
            "FollowerLogReplication 5 5 700 70",
        ),
        // No member can have sent these: its own number, a number past the cluster, a place inside an entry.
        (
            State::FollowerReady,
            5,
            COMMIT,
            &[5, 192],
            &[1],
            "FollowerReady 5 5 700 70",
        ),
        (
            State::FollowerReady,
            5,
            COMMIT,
            &[5, 192],
            &[3],
            "FollowerReady 5 5 700 70",
        ),
        (
            State::FollowerReady,
            5,
            NEW_TERM,
            announced[2],
            &[4],
            "FollowerReady 5 5 700 70",
        ),
        (
            State::Canvass,
            5,
            APPEND,
            &[5, 100],
            &[2],
            "Canvass 5 5 700 70",
        ),
        (
            State::Canvass,
            5,
            VOTE,
            &[5, 4, 288],
            &[1, 2, 1],
            "Canvass 5 5 700 70",
        ),
    ];
    for (state, candidate, template, longs, ints, want) in cases {
        let values = seated(state, candidate, 5, 700, 70);
        let packet = packet(alloc, template, longs, ints)?;
        let text = gets(&rt, alloc, values, &index, &packet, 600)?;
        assert_eq!(rt; text.as_str(), want, "{state:?} {packet:?}");
    }
    Ok(())
}
