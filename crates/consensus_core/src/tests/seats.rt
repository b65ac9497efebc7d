// Whole members, with the index of their log.
ghost use Rattle.sbe_consensus.specs.Spelling.{HasSpelling};

use super::{APPEND, CANVASS, REQUEST_VOTE, VOTE, index_of, packet};
use crate::{Change, Core};
use cl_base::{List, NoMemory};
use election::State;
use entry_log::LogIndex;
use sbe_consensus::{Outgoing, Packet, decode_packet};
use std::alloc::Global;
use std::process::Abort;
use std::test::Fail;

#[derive(Drop)]
struct Seat {
    core: Core,
    index: LogIndex,
}

/// The change comes on the disk.
fn settle(rt: &impl Abort, index: &mut LogIndex, change: &Change) -> Result<(), NoMemory> {
    match change {
        Change::Nothing | Change::Raise { .. } => {}
        Change::Append(entries) => {
            for entry in entries.as_slice() {
                let len = entry.bytes.len() as u64;
                assert!(rt;
                    len <= 32_768 && index.place() <= 16_777_216 && index.last_term() <= entry.term
                );
                index.push(entry.term, len)?;
            }
        }
        Change::Cut(entries) => {
            assert!(rt; *entries <= index.entries());
            index.cut(*entries);
        }
    }
    Ok(())
}

impl Seat {
    fn turns(&mut self, rt: &impl Abort, now: u64) -> Result<(), Fail> {
        assert!(rt;
            now <= 1 << 60
                && self.index.place() <= 16_777_216
                && self.core.commit() <= self.index.entries()
        );
        let change = self.core.on_duty(&self.index, &[], now)?;
        Ok(settle(rt, &mut self.index, &change)?)
    }

    fn hears(&mut self, rt: &impl Abort, packet: &Packet, now: u64) -> Result<Change, Fail>
        requires { HasSpelling packet.now }
    {
        assert!(rt; now <= 1 << 60);
        let change = self.core.on_packet(&self.index, packet, now)?;
        settle(rt, &mut self.index, &change)?;
        Ok(change)
    }

    #[tactic(auto, using(crate::proofs::Spoken::none_wanted))]
    /// What the row just run sends, which has no batch.
    fn says(&mut self, rt: &impl Abort) -> Result<List<Outgoing>, Fail> {
        assert!(rt; self.index.place() <= 16_777_216 && self.index.last_term() <= 1 << 62);
        assert!(rt; self.core.commit() <= self.index.entries());
        let ranges = self.core.wanted(&self.index)?;
        if ranges.is_empty() {
            Ok(self.core.on_durable(&self.index, &[])?)
        } else {
            Err("a batch".into())
        }
    }
}

/// A member that has just begun to lead in the term after `candidate`, at 350 ms: all others were heard of, and voted.
fn leading(
    rt: &impl Abort,
    alloc: Global,
    members: u8,
    candidate: i64,
    index: LogIndex,
) -> Result<Seat, Fail> {
    assert!(rt; 0 < members && members <= 5 && 0 <= candidate && candidate < 100);
    let core = Core::new(alloc, 0, members, candidate, None, 1);
    let mut seat = Seat { core, index };
    seat.turns(rt, 10)?;
    for other in 1..members {
        let canvass = packet(alloc, CANVASS, &[-1, 0, -1], &[other as i32])?;
        let _change = seat.hears(rt, &canvass, 20)?;
    }
    seat.turns(rt, 310)?;
    seat.turns(rt, 320)?;
    for other in 1..members {
        let vote = packet(alloc, VOTE, &[candidate + 1, -1, 0], &[0, other as i32, 1])?;
        let _change = seat.hears(rt, &vote, 325)?;
    }
    seat.turns(rt, 330)?;
    seat.turns(rt, 340)?;
    assert_eq!(rt;
        (seat.core.state(), seat.core.term()),
        (State::LeaderReady, candidate + 1)
    );
    Ok(seat)
}

#[test]
fn an_old_entry_on_three_of_five_is_committed_with_one_of_the_leaders_own(
    rt: HostRuntime,
) -> Result<(), Fail> {
    let alloc = rt.alloc();
    let index = index_of(&rt, alloc, &[(1, 48), (2, 48), (2, 48), (3, 48)])?;
    let mut leader = leading(&rt, alloc, 5, 4, index)?;
    for (reports, now, want) in [
        ([288, 288, 96, 96], 350, 1),
        ([480, 384, 96, 96], 360, 1),
        ([480, 480, 96, 96], 370, 5),
        ([288, 288, 96, 96], 380, 5),
    ] {
        for (i, place) in reports.iter().enumerate() {
            let report = packet(alloc, APPEND, &[5, *place], &[i as i32 + 1])?;
            let _change = leader.hears(&rt, &report, now)?;
        }
        leader.turns(&rt, now)?;
        assert_eq!(rt; leader.core.commit(), want, "at {now}");
    }
    // To 3 and 4 from their place on; the log ends at 480.
    let ranges = leader.core.wanted(&leader.index)?;
    assert_eq!(rt; ranges.as_slice(), [(1, 4), (1, 4)].as_slice());
    Ok(())
}

#[test]
fn a_leader_answers_with_its_greatest_term_no_later_than_the_one_asked_for(
    rt: HostRuntime,
) -> Result<(), Fail> {
    let alloc = rt.alloc();
    let index = index_of(&rt, alloc, &[(1, 48), (3, 48)])?;
    let mut leader = leading(&rt, alloc, 3, 4, index)?;
    for (asked_term, asked_place, want) in [
        (
            4,
            288,
            "NewTerm { asked_term: 4, asked_position: 288, keep_term: 3, keep_position: 192, term: 5, leader: 0 }",
        ),
        (
            2,
            192,
            "NewTerm { asked_term: 2, asked_position: 192, keep_term: 1, keep_position: 96, term: 5, leader: 0 }",
        ),
        (
            0,
            96,
            "NewTerm { asked_term: 0, asked_position: 96, keep_term: -1, keep_position: 0, term: 5, leader: 0 }",
        ),
    ] {
        let canvass = packet(alloc, CANVASS, &[asked_term, asked_place, 5], &[2])?;
        let _change = leader.hears(&rt, &canvass, 350)?;
        let packets = leader.says(&rt)?;
        assert_eq!(rt; packets.len(), 1);
        let answer = decode_packet(alloc, packets.as_slice()[0].bytes.as_slice())
            .ok()
            .ok_or("a packet")?;
        let text = format!(in alloc; "{answer:?}")?;
        assert_eq!(rt; text.as_str(), want);
    }
    Ok(())
}

#[test]
fn a_vote_kept_on_disk_is_given_again_to_the_same_member_alone(
    rt: HostRuntime,
) -> Result<(), Fail> {
    let alloc = rt.alloc();
    for (asker, want) in [(1, 1), (0, 0)] {
        let index = index_of(&rt, alloc, &[(0, 48)])?;
        let core = Core::new(alloc, 2, 3, 0, Some(1), 0);
        let mut voter = Seat { core, index };
        let request = packet(alloc, REQUEST_VOTE, &[0, 96, 0], &[asker])?;
        let change = voter.hears(&rt, &request, 50)?;
        assert!(rt; matches!(change, Change::Nothing) && voter.core.state() == State::Init);
        let packets = voter.says(&rt)?;
        assert_eq!(rt; packets.len(), 1);
        let vote = decode_packet(alloc, packets.as_slice()[0].bytes.as_slice())
            .ok()
            .ok_or("a packet")?;
        let given = matches!(
            vote,
            Packet::Vote {
                candidate_term: 0,
                vote: 1,
                ..
            }
        );
        assert_eq!(rt; given, want == 1, "to {asker}");
    }
    Ok(())
}

#[test]
fn member_0_of_three_begins_to_lead_at_350_ms(rt: HostRuntime) -> Result<(), Fail> {
    let alloc = rt.alloc();
    let mut seats = Vec::new(alloc);
    for id in 0..3 {
        let core = Core::new(alloc, id, 3, -1, None, 0);
        let index = LogIndex::new(alloc);
        seats.push(Seat { core, index })?;
    }
    let mut flying: List<Outgoing> = List::new(alloc);
    for round in 1..36 {
        let now = 10 * round;
        let mut sent = List::new(alloc);
        for o in flying.as_slice() {
            let to = o.to as usize;
            assert!(rt; to < seats.len());
            let packet = decode_packet(alloc, o.bytes.as_slice())
                .ok()
                .ok_or("a packet")?;
            let _change = seats[to].hears(&rt, &packet, now)?;
            send(&mut sent, seats[to].says(&rt)?)?;
        }
        for seat in seats.iter_mut() {
            seat.turns(&rt, now)?;
            send(&mut sent, seat.says(&rt)?)?;
        }
        flying = sent;
        assert!(rt; 0 < seats.len());
        let leads = seats[0].core.state() == State::LeaderReady;
        assert_eq!(rt; leads, now == 350, "at {now}");
    }
    assert!(rt; 0 < seats.len());
    assert_eq!(rt; (seats[0].core.term(), seats[0].index.place()), (0, 96));
    Ok(())
}

fn send(sent: &mut List<Outgoing>, more: List<Outgoing>) -> Result<(), NoMemory> {
    for o in more.into_vec() {
        sent.push(o)?;
    }
    Ok(())
}
