// Packets and their spellings.
ghost use Rattle.std.specs.Prelude.{◌≡◌, ◌≤◌, ◌<◌, ◌^◌, ◌++◌, [], ◌∷◌, IfOk, length, take, drop, pos};
ghost use Rattle.entry_log.specs.Shape.{end_of};
ghost use Rattle.sbe_consensus.specs.Spelling.{HasSpelling, spelling_of};
ghost use Rattle.consensus_core.specs.Sends.{packet_of as packet_in, batch_of, CanSpell, spelled as all_spelled};
ghost use Rattle.consensus_core.specs.declared.plan.Word.TheVariants as words;

use crate::batches::copies;
use crate::plan::Word;
use crate::sends::Send;
use crate::values::Values;
use cl_base::{Entry, List, NoMemory};
use entry_log::{LogIndex, LogName};
use sbe_consensus::{Outgoing, Packet, encode_packet};
use std::alloc::Global;

/// A place (bytes) as packets have it.
fn position(place: u64) -> i64
    requires { place ≤ 2 ^ 62 }
    ensures { result ≡ pos place }
{
    place as i64
}

fn canvass_of(values: &Values, index: &LogIndex) -> Packet
    requires { end_of index.now ≤ 16777216 }
    ensures { result ≡ packet_in words.Canvass values.now index.now }
{
    Packet::Canvass {
        log_term: index.last_term(),
        log_position: position(index.place()),
        candidate_term: values.election.candidate,
        member: values.election.id as i32,
    }
}

fn request_of(values: &Values, index: &LogIndex) -> Packet
    requires { end_of index.now ≤ 16777216 }
    ensures { result ≡ packet_in words.RequestVote values.now index.now }
{
    Packet::RequestVote {
        log_term: index.last_term(),
        log_position: position(index.place()),
        candidate_term: values.election.candidate,
        candidate: values.election.id as i32,
    }
}

fn vote_of(values: &Values, index: &LogIndex, asker: u8, term: i64, granted: bool) -> Packet
    requires { end_of index.now ≤ 16777216 }
    ensures { result ≡ packet_in (words.Vote asker term granted) values.now index.now }
{
    Packet::Vote {
        candidate_term: term,
        log_term: index.last_term(),
        log_position: position(index.place()),
        candidate: asker as i32,
        follower: values.election.id as i32,
        vote: if granted { 1 } else { 0 },
    }
}

fn announcement_of(values: &Values, index: &LogIndex) -> Packet
    ensures { result ≡ packet_in words.Announcement values.now index.now }
{
    let _index = index;
    Packet::NewTerm {
        asked_term: -2,
        asked_position: 0,
        keep_term: -1,
        keep_position: 0,
        term: values.election.term,
        leader: values.election.id as i32,
    }
}

#[tactic(auto, using(crate::proofs::Admitted::end_from_part))]
/// Row P13: the greatest term at most that of the log asked for, and where it ends.
fn answer_of(values: &Values, index: &LogIndex, asked: LogName) -> Packet
    requires place { end_of index.now ≤ 16777216 }
    requires asked { asked.place ≤ 2 ^ 62 }
    ensures { result ≡ packet_in (words.Answer asked) values.now index.now }
{
    let entries = index.entries_through(asked.term);
    Packet::NewTerm {
        asked_term: asked.term,
        asked_position: position(asked.place),
        keep_term: index.term_at(entries),
        keep_position: position(index.end_at(entries)),
        term: values.election.term,
        leader: values.election.id as i32,
    }
}

fn report_of(values: &Values, index: &LogIndex) -> Packet
    requires { end_of index.now ≤ 16777216 }
    ensures { result ≡ packet_in words.Report values.now index.now }
{
    let stored = index.place();
    Packet::Append {
        term: values.election.term,
        position: position(stored),
        member: values.election.id as i32,
    }
}

#[tactic(auto, using(crate::proofs::Admitted::end_from_part))]
fn commit_of(values: &Values, index: &LogIndex) -> Packet
    requires place { end_of index.now ≤ 16777216 }
    requires commit { values.now.rest.commit ≤ length index.now }
    ensures { result ≡ packet_in words.Commit values.now index.now }
{
    Packet::Commit {
        term: values.election.term,
        position: position(index.end_at(values.rest.commit)),
        leader: values.election.id as i32,
    }
}

/// The packet of a word.
fn packet_of(word: Word, values: &Values, index: &LogIndex) -> Packet
    requires place { end_of index.now ≤ 16777216 }
    requires commit { values.now.rest.commit ≤ length index.now }
    requires spelled { HasSpelling (packet_in word values.now index.now) }
    ensures { result ≡ packet_in word values.now index.now }
{
    match word {
        Word::Canvass => canvass_of(values, index),
        Word::RequestVote => request_of(values, index),
        Word::Vote {
            asker,
            term,
            granted,
        } => vote_of(values, index, asker, term, granted),
        Word::Announcement => announcement_of(values, index),
        Word::Answer { asked } => answer_of(values, index, asked),
        Word::Report => report_of(values, index),
        Word::Commit => commit_of(values, index),
    }
}

/// A LogBatch with these entries.
fn batch_of(
    alloc: Global,
    values: &Values,
    start: u64,
    entries: &[Entry],
) -> Result<Packet, NoMemory>
    requires { HasSpelling (batch_of values.now start entries.now) }
    ensures { IfOk result (λ p. p ≡ batch_of values.now start entries.now) }
{
    let entries = copies(alloc, entries)?;
    Ok(Packet::LogBatch {
        term: values.election.term,
        start_position: position(start),
        leader: values.election.id as i32,
        entries,
    })
}

fn outgoing(alloc: Global, to: u8, packet: &Packet) -> Result<Outgoing, NoMemory>
    requires { HasSpelling packet.now }
    ensures { IfOk result (λ o. o ≡ record { to = to; bytes = spelling_of packet.now }) }
{
    let bytes = encode_packet(alloc, packet)?;
    Ok(Outgoing { to, bytes })
}

/// The packets of all that is sent, spelled. The entries of the LogBatches stand one range after the other.
pub fn spelled(
    alloc: Global,
    sends: &[Send],
    values: &Values,
    index: &LogIndex,
    batches: &[Entry],
) -> Result<List<Outgoing>, NoMemory>
    requires place { end_of index.now ≤ 16777216 }
    requires commit { values.now.rest.commit ≤ length index.now }
    requires spelled { CanSpell sends.now values.now index.now batches.now }
    ensures { IfOk result (λ out. out ≡ all_spelled sends.now values.now index.now batches.now) }
{
    let mut out = List::new(alloc);
    let mut used = 0;
    for send in sends {
        match *send {
            Send::Says { to, word } => {
                let packet = packet_of(word, values, index);
                out.push(outgoing(alloc, to, &packet)?)?;
            }
            Send::Hands {
                to,
                start,
                count,
                ..
            } => {
                let end = used + count as usize;
                let packet = batch_of(alloc, values, start, &batches[used..end])?;
                out.push(outgoing(alloc, to, &packet)?)?;
                used = end;
            }
        }
    }
    Ok(out)
}
