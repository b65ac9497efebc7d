// Elections at the times and votes of the protocol's table.
use crate::{Decision, Election, ElectionEvent, Heard, State};
use entry_log::LogName;
use std::process::Abort;

const EMPTY: LogName = LogName { term: -1, place: 0 };

fn duty(rt: &impl Abort, member: &mut Election, own: LogName, now: u64) -> Decision {
    assert!(rt; member.id < 5 && now <= 1_000_000);
    member.step(ElectionEvent::Duty { own }, now)
}

fn asks(rt: &impl Abort, member: &mut Election, from: u8, term: i64, named: LogName) -> Decision {
    assert!(rt; member.id < 5 && from < 5);
    let event = ElectionEvent::RequestVote {
        from,
        term,
        named,
        own: LogName {
            term: 0,
            place: 288,
        },
    };
    member.step(event, 700)
}

#[test]
fn member_0_of_three_is_elected_by_one_other_vote(rt: HostRuntime) {
    let mut member = Election::new(0, 3, -1, None);
    assert_eq!(rt; member.state, State::Init);
    assert_eq!(rt; duty(&rt, &mut member, EMPTY, 10), Decision::EnterCanvass);
    assert_eq!(rt;
        (member.state, member.deadline, member.next),
        (State::Canvass, 310, 10)
    );
    assert_eq!(rt; duty(&rt, &mut member, EMPTY, 20), Decision::Canvass);
    assert_eq!(rt;
        (duty(&rt, &mut member, EMPTY, 30), member.next),
        (Decision::Nothing, 120)
    );
    // Nobody was heard: no quorum.
    assert_eq!(rt;
        (duty(&rt, &mut member, EMPTY, 310), member.deadline),
        (Decision::CanvassAgain, 610)
    );
    member.heard[2] = Some(Heard {
        term: -1,
        place: 0,
        candidate: 4,
    });
    assert_eq!(rt; duty(&rt, &mut member, EMPTY, 610), Decision::Nominate);
    assert_eq!(rt;
        duty(&rt, &mut member, EMPTY, 620),
        Decision::Request { term: 5 }
    );
    assert_eq!(rt;
        (member.candidate, member.voted, member.deadline),
        (5, Some(0), 1_120)
    );
    assert_eq!(rt; duty(&rt, &mut member, EMPTY, 630), Decision::Nothing);
    for (term, granted, want) in [
        (4, true, Decision::Nothing),
        (5, false, Decision::Nothing),
        (5, true, Decision::CountVote),
    ] {
        assert!(rt; member.id < 5);
        let vote = ElectionEvent::Vote {
            from: 1,
            term,
            granted,
        };
        assert_eq!(rt; member.step(vote, 640), want, "a vote of {term}");
    }
    assert_eq!(rt; duty(&rt, &mut member, EMPTY, 650), Decision::Lead);
    assert_eq!(rt;
        (member.state, member.term, member.leader),
        (State::LeaderInit, 5, Some(0))
    );
}

#[test]
fn a_vote_that_the_disk_kept_is_given_again_to_the_same_member_alone(rt: HostRuntime) {
    let mut member = Election::new(2, 3, 0, Some(1));
    let named = LogName {
        term: 0,
        place: 288,
    };
    assert_eq!(rt;
        asks(&rt, &mut member, 1, 0, named),
        Decision::Repeat { to: 1, term: 0 }
    );
    assert_eq!(rt;
        asks(&rt, &mut member, 0, 0, named),
        Decision::Refuse { to: 0, term: 0 }
    );
    assert_eq!(rt;
        (member.candidate, member.voted, member.state),
        (0, Some(1), State::Init)
    );
}

#[test]
fn a_vote_of_a_new_term_goes_to_a_log_that_is_no_worse(rt: HostRuntime) {
    for (term, named_term, named_place, want) in [
        (2, 0, 288, Decision::Refuse { to: 1, term: 2 }),
        (3, 0, 288, Decision::Refuse { to: 1, term: 3 }),
        (4, 0, 192, Decision::RaiseAndRefuse { to: 1, term: 4 }),
        (4, 0, 288, Decision::Grant { to: 1, term: 4 }),
        (4, 1, 96, Decision::Grant { to: 1, term: 4 }),
    ] {
        let mut member = Election::new(2, 3, 3, None);
        let named = LogName {
            term: named_term,
            place: named_place,
        };
        assert_eq!(rt;
            asks(&rt, &mut member, 1, term, named),
            want,
            "{term} {named_term} {named_place}"
        );
    }
    let mut closed = Election::new(2, 3, 3, None);
    closed.state = State::Closed;
    assert_eq!(rt; asks(&rt, &mut closed, 1, 4, EMPTY), Decision::Nothing);
}

#[test]
fn no_term_above_the_last_is_asked_for(rt: HostRuntime) {
    let mut member = Election::new(0, 1, 1 << 62, None);
    member.state = State::Nominate;
    assert_eq!(rt; duty(&rt, &mut member, EMPTY, 50), Decision::EnterCanvass);
    let mut follower = Election::new(4, 5, 3, Some(1));
    follower.state = State::FollowerBallot;
    follower.deadline = 500;
    assert_eq!(rt; duty(&rt, &mut follower, EMPTY, 499), Decision::Nothing);
    assert_eq!(rt;
        (duty(&rt, &mut follower, EMPTY, 500), follower.deadline),
        (Decision::EnterCanvass, 1_200)
    );
}
