// What the members of a run give to the outside.
ghost use Rattle.std.specs.Prelude.{◌≡◌, ◌++◌, [], length, OnOk, IfOk, MatchOption};
ghost use Rattle.network.specs.Net.{quiet_net};
ghost use Rattle.egress.specs.Streams.{sent_more};
ghost use Rattle.run_outside.specs.Gives.{newly, with_packets, with_records};

use cl_base::{Entry, List, NoMemory};
use egress::{Egress, Sent};
use network::Net;
use sbe_consensus::Outgoing;
use std::alloc::Global;

/// What the members of a run give to the outside: packets, records to clients, and the log that is printed.
#[derive(Drop)]
pub struct Outside {
    /// The allocator of the run.
    pub alloc: Global,
    /// The packets in flight, and the links.
    pub net: Net,
    /// What was sent to clients, by stream.
    pub egress: Egress,
    /// The longest log at which a member's commit stood.
    pub printed: List<Entry>,
}

impl Outside {
    /// Nothing given yet, by so many members, 1 to 5. Every link is open.
    pub fn new(alloc: Global, members: u8) -> Result<Outside, NoMemory>
        ensures net { IfOk result (λ outside. outside.net ≡ quiet_net members) }
        ensures egress { IfOk result (λ outside. outside.egress ≡ []) }
        ensures printed { IfOk result (λ outside. outside.printed ≡ []) }
    {
        Ok(Outside {
            alloc,
            net: Net::new(alloc, members)?,
            egress: Egress::new(alloc),
            printed: List::new(alloc),
        })
    }

    /// A member's packets are in flight, in order. After NoMemory the run is given up.
    pub fn emit(&mut self, from: u8, packets: List<Outgoing>) -> Result<(), NoMemory>
        ensures net { OnOk result (self.new.net ≡ with_packets from packets self.old.net) }
        ensures egress { self.new.egress ≡ self.old.egress }
        ensures printed { self.new.printed ≡ self.old.printed }
    {
        for packet in packets.into_vec() {
            self.net.send(from, packet)?;
        }
        Ok(())
    }

    /// Records go to their streams, in order. After NoMemory the run is given up.
    pub fn send(&mut self, records: List<Sent>) -> Result<(), NoMemory>
        ensures egress { OnOk result (self.new.egress ≡ with_records records self.old.egress) }
        ensures net { self.new.net ≡ self.old.net }
        ensures printed { self.new.printed ≡ self.old.printed }
    {
        for sent in records.into_vec() {
            self.egress.send(sent)?;
        }
        Ok(())
    }

    /// What a client gets that no entry owes goes to its stream, if there is something. After NoMemory the run is given up.
    pub fn answer(&mut self, answer: Option<Sent>) -> Result<(), NoMemory>
        ensures egress { OnOk result (MatchOption answer (self.new.egress ≡ self.old.egress) (λ sent. self.new.egress ≡ sent_more sent self.old.egress)) }
        ensures net { self.new.net ≡ self.old.net }
        ensures printed { self.new.printed ≡ self.old.printed }
    {
        match answer {
            Some(sent) => self.egress.send(sent),
            None => Ok(()),
        }
    }

    /// What a member has committed is printed: so many entries of its log, of which those from `from` on stand in `ahead`.
    /// Where some of the entries that are missing aren't there, nothing is printed. After NoMemory the run is given up.
    pub fn print(&mut self, from: u64, ahead: &[Entry], commit: u64) -> Result<(), NoMemory>
        ensures printed { OnOk result (self.new.printed ≡ self.old.printed ++ newly from ahead.now commit (length self.old.printed)) }
        ensures net { self.new.net ≡ self.old.net }
        ensures egress { self.new.egress ≡ self.old.egress }
    {
        let missing = newly(from, ahead, commit, self.printed.len() as u64);
        for entry in missing {
            self.printed.push(entry.copy()?)?;
        }
        Ok(())
    }
}

/// What a member has committed and isn't printed yet, where so many entries are printed. Those of its log from `from` on
/// stand in `ahead`.
fn newly(from: u64, ahead: &[Entry], commit: u64, printed: u64) -> &[Entry]
    ensures { result.now ≡ newly from ahead.now commit printed }
{
    if printed < from {
        return &[];
    }
    let first = ((printed - from) as usize).min(ahead.len());
    let rest = &ahead[first..];
    let count = (commit.saturating_sub(printed) as usize).min(rest.len());
    &rest[..count]
}
