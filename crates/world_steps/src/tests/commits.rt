// What is committed, and what is overwritten.
ghost use Rattle.std.specs.Prelude.{IfOk, OnOk};
ghost use Rattle.world_steps.specs.Steps.{IsReached};

use super::*;
use cl_base::Entry;
use entry_log::LogIndex;
use sbe_events::Event;
use std::process::Abort;
use std::test::Fail;

/// Where a log ends, in bytes.
fn place_of(rt: &impl Abort, alloc: Global, log: &[Entry]) -> Result<u64, NoMemory> {
    let mut index = LogIndex::new(alloc);
    for entry in log {
        let len = entry.bytes.len() as u64;
        assert!(rt;
            len <= 32_768 && index.place() <= 16_777_216 && index.last_term() <= entry.term
        );
        index.push(entry.term, len)?;
    }
    Ok(index.place())
}

/// Member 0 leads, and appends so many actions.
fn acts(rt: &impl Abort, alloc: Global, run: &mut Run, count: u64) -> Result<(), NoMemory>
    requires { IsReached run.old.world }
    ensures { OnOk result (IsReached run.new.world) }
{
    for _ in 0..count {
        let (term, place) = match run.world.members().get(0) {
            Some(leader) => (leader.term(), place_of(rt, alloc, leader.kept().entries())?),
            None => (0, 0),
        };
        let now = run.world.now();
        assert!(rt; 0 <= term && term <= 1 << 60 && place <= 1 << 60 && now <= 1 << 60);
        let event = Event::Snapshot {
            term,
            position: place as i64,
            stamp: now as i64,
        };
        let cut = Cut::Whole;
        let member = 0;
        world_step(&mut run.world, &Step::Client { member, event, cut })?;
    }
    Ok(())
}

/// Five members of which 0, 1 and 3 have 64 old entries, of term 0. Member 2 alone has an entry of term 1, and doesn't run.
/// Member 0 leads in term 2, and its entry of that term is on itself alone.
fn old_entries_on_three(rt: &impl Abort, alloc: Global) -> Result<Run, NoMemory>
    ensures { IfOk result (λ r. IsReached r.world) }
{
    let mut run = Run::of(alloc, 5)?;
    run.rounds(alloc, 60, &[0, 1, 2, 3, 4], Filter::All)?;
    run.lose();
    assert!(rt; run.leads(0) && run.commit(0) == 1 && run.commit(4) == 1);
    acts(rt, alloc, &mut run, 64)?;
    run.rounds(alloc, 5, &[0, 1], Filter::All)?;
    assert!(rt; run.count(0, 0) == 65 && run.count(1, 0) == 65 && run.commit(0) == 1);
    run.stop(0)?;
    run.lose();
    run.until_leads(alloc, 2, &[2, 3, 4])?;
    run.stop(2)?;
    run.lose();
    assert!(rt; run.count(2, 1) == 1 && run.count(3, 1) == 0 && run.count(4, 1) == 0);
    run.start(0)?;
    run.until_leads(alloc, 0, &[0, 1, 3, 4])?;
    run.rounds(alloc, 20, &[0, 1, 3], Filter::FullTo3)?;
    assert!(rt; run.leads(0) && run.count(0, 2) == 1 && run.count(3, 2) == 0);
    assert!(rt; run.count(0, 0) == 65 && run.count(1, 0) == 65 && run.count(3, 0) == 65);
    Ok(run)
}

/// A restarted leader has committed nothing until an entry of its own term is on a quorum. A leader of a later term, whose log
/// is better, overwrites the old entries of those that have more entries, others, or fewer.
#[test]
fn an_old_entry_on_three_is_not_committed_and_is_overwritten(rt: HostRuntime) -> Result<(), Fail> {
    let alloc = rt.alloc();
    let mut run = old_entries_on_three(&rt, alloc)?;
    assert!(rt; run.commit(0) == 0 && run.world.printed().len() == 1);
    run.stop(0)?;
    run.lose();
    run.start(2)?;
    run.until_leads(alloc, 2, &[2, 3, 4])?;
    run.start(0)?;
    run.rounds(alloc, 100, &[0, 1, 2, 3, 4], Filter::All)?;
    for member in 0..5 {
        assert_eq!(rt; run.count(member, 0), 1, "member {member}");
        assert_eq!(rt; run.count(member, 1), 1, "member {member}");
        assert_eq!(rt; run.count(member, 2), 0, "member {member}");
    }
    assert_eq!(rt; run.world.printed().len(), 3);
    Ok(())
}

/// The old entries are committed with the entry of the leader's own term, and the logs of those that have others become its.
#[test]
fn an_old_entry_on_three_is_committed_with_one_of_the_leaders_term(
    rt: HostRuntime,
) -> Result<(), Fail> {
    let alloc = rt.alloc();
    let mut run = old_entries_on_three(&rt, alloc)?;
    run.lose();
    run.rounds(alloc, 20, &[0, 1, 3], Filter::All)?;
    assert!(rt; run.commit(0) == 66 && run.world.printed().len() == 66);
    run.start(2)?;
    run.rounds(alloc, 100, &[0, 1, 2, 3, 4], Filter::All)?;
    for member in 0..5 {
        assert_eq!(rt; run.count(member, 0), 65, "member {member}");
        assert_eq!(rt; run.count(member, 1), 0, "member {member}");
        assert_eq!(rt; run.count(member, 2), 1, "member {member}");
    }
    assert_eq!(rt; run.world.printed().len(), 66);
    Ok(())
}
