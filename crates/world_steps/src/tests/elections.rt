// Who is elected, and what a restart keeps.
use super::*;
use sbe_consensus::Packet;
use std::test::Fail;

#[test]
fn member_0_of_three_begins_to_lead_at_350_ms(rt: HostRuntime) -> Result<(), Fail> {
    let alloc = rt.alloc();
    let mut run = Run::of(alloc, 3)?;
    run.rounds(alloc, 34, &[0, 1, 2], Filter::All)?;
    assert!(rt; !run.leads(0) && run.world.now() == 340);
    run.rounds(alloc, 1, &[0, 1, 2], Filter::All)?;
    assert!(rt; run.leads(0) && run.world.now() == 350);
    assert_eq!(rt; run.world.reigns().len(), 1);
    Ok(())
}

/// Whether a packet is the vote of member 2 in term 0, and for whom.
fn vote_of_2(sent: &Sent) -> Option<(u8, i32)> {
    match sent.packet {
        Packet::Vote {
            candidate_term: 0,
            follower: 2,
            vote,
            ..
        } => Some((sent.to, vote)),
        _ => None,
    }
}

#[test]
fn a_kept_vote_is_given_again_after_a_restart(rt: HostRuntime) -> Result<(), Fail> {
    let alloc = rt.alloc();
    let mut run = Run::of(alloc, 3)?;
    // Member 0 asks for votes at 320 ms; the request comes to member 2 at 330 ms.
    run.rounds(alloc, 33, &[0, 1, 2], Filter::All)?;
    let voted = run.world.sent().iter().filter_map(vote_of_2).count();
    assert_eq!(rt; voted, 1);
    run.stop(2)?;
    run.start(2)?;
    // Every packet comes once more.
    run.seen = 0;
    run.deliver(&[2], Filter::All)?;
    for vote in run.world.sent().iter().filter_map(vote_of_2) {
        assert_eq!(rt; vote, (0, 1));
    }
    let again = run.world.sent().iter().filter_map(vote_of_2).count();
    assert_eq!(rt; again, 2);
    Ok(())
}
