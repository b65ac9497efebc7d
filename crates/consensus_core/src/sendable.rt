// Which packets a member can have sent.
ghost use Rattle.std.specs.Prelude.{◌≡◌, ◌&&◌, ◌≤◌, ◌<◌, All, length, unsigned_abs, IsTrue};
ghost use Rattle.sbe_consensus.specs.Spelling.{HasSpelling, IsMember, AreEntries};
ghost use Rattle.consensus_core.specs.Rows.{name_of_shape, is_in};
ghost use Rattle.consensus_core.specs.Sendable.{sender_of as sender, is_other, is_end, is_replicating, is_sendable, is_sendable_batch, cuts_committed, passes};

use crate::elections::name_of;
use crate::following::{is_in, kept_count, same_name};
use crate::measures::{are_rising, count_to, is_end_from};
use crate::values::Values;
use cl_base::Entry;
use election::{Election, State};
use entry_log::{LogIndex, LogName, end_within, is_one_batch};
use sbe_consensus::Packet;

/// A packet's member number as ours.
fn member_of(member: i32) -> u8
    requires { IsMember member }
    ensures value { result ≡ unsigned_abs member }
    ensures member { result < 5 }
{
    member.unsigned_abs() as u8
}

/// The member that sent a packet.
pub fn sender_of(packet: &Packet) -> u8
    requires { HasSpelling packet.now }
    ensures value { result ≡ sender packet.now }
    ensures member { result < 5 }
{
    match packet {
        Packet::Canvass { member, .. } => member_of(*member),
        Packet::RequestVote { candidate, .. } => member_of(*candidate),
        Packet::Vote { follower, .. } => member_of(*follower),
        Packet::NewTerm { leader, .. } => member_of(*leader),
        Packet::Append { member, .. } => member_of(*member),
        Packet::Commit { leader, .. } => member_of(*leader),
        Packet::LogBatch { leader, .. } => member_of(*leader),
    }
}

fn is_other(election: &Election, from: u8) -> bool
    ensures { result ≡ is_other election.now from }
{
    from < election.members && from != election.id
}

/// Whether an entry of the log ends at this place, or the log begins there.
fn is_end(index: &LogIndex, place: u64) -> bool
    ensures { result ≡ is_end place index.now }
{
    index.end_at(index.entries_to(place)) == place
}

#[tactic(auto, using(entry_log::specs::Places::place_from_grows))]
/// Whether a leader of the term can have sent a batch to a member with a log of this name.
fn is_sendable_batch(term: i64, start: u64, entries: &[Entry], own: LogName) -> bool
    requires { All (λ e. length e.bytes ≤ 32768) entries.now }
    ensures { result ≡ is_sendable_batch term start entries.now own }
{
    let Some(end) = end_within(start, entries) else {
        return false;
    };
    if !is_one_batch(start, entries) {
        return false;
    }
    let old = count_to(start, own.place, entries);
    are_rising(-1, term, entries)
        && are_rising(own.term, term, &entries[old..])
        && (own.place <= start || end <= own.place || is_end_from(start, own.place, entries))
}

impl Values {
    /// Whether the member would cut entries that are committed, on this answer.
    fn cuts_committed(&self, index: &LogIndex, term: i64, asked: LogName, keep: LogName) -> bool
        ensures { result ≡ cuts_committed self.now.election self.now.rest index.now term asked keep }
    {
        self.is_replicating(term)
            && same_name(asked, name_of(index))
            && kept_count(index, keep) < self.rest.commit
    }

    /// Whether the member replicates in this term.
    fn is_replicating(&self, term: i64) -> bool
        ensures { result ≡ is_replicating self.now.election.state && is_in self.now.election term }
    {
        match self.election.state {
            State::FollowerLogReplication => is_in(&self.election, term),
            _ => false,
        }
    }

    /// Whether the rest of a packet from another member is one that it can have sent.
    fn passes(&self, index: &LogIndex, packet: &Packet) -> bool
        requires { HasSpelling packet.now }
        ensures { result ≡ passes self.now index.now packet.now }
    {
        match packet {
            Packet::NewTerm {
                asked_term,
                asked_position,
                keep_term,
                keep_position,
                term,
                ..
            } => {
                let asked = LogName {
                    term: *asked_term,
                    place: asked_position.unsigned_abs(),
                };
                let keep = LogName {
                    term: *keep_term,
                    place: keep_position.unsigned_abs(),
                };
                !self.cuts_committed(index, *term, asked, keep)
            }
            Packet::Append { position, .. } => is_end(index, position.unsigned_abs()),
            Packet::LogBatch {
                term,
                start_position,
                entries,
                ..
            } => {
                let own = name_of(index);
                is_sendable_batch(
                    *term,
                    start_position.unsigned_abs(),
                    entries.as_slice(),
                    own,
                )
            }
            _ => true,
        }
    }

    /// Whether another member can have sent this packet to this one.
    pub fn is_sendable(&self, index: &LogIndex, packet: &Packet) -> bool
        requires { HasSpelling packet.now }
        ensures { result ≡ is_sendable self.now index.now packet.now }
    {
        is_other(&self.election, sender_of(packet)) && self.passes(index, packet)
    }
}
