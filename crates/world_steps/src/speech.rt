// What a member says once a row's change is on its disk.
ghost use Rattle.std.specs.Prelude.{◌≡◌, ◌≤◌, length, IfOk, OnOk};
ghost use Rattle.consensus_core.specs.Member.{Member, after, sent_by, speaks, stopped, changed_log};
ghost use Rattle.world_steps.specs.Fit.{AreSpelled, Speaks};
ghost use Rattle.world_steps.specs.Members.{cut_of, member_of, read_all, row_run};

use crate::cut::Cut;
use crate::history::Sent;
use crate::kept::Kept;
use crate::log::{entries_in, index_of};
use cl_base::{Entry, List, NoMemory};
use consensus_core::{Change, Core};
use sbe_consensus::{Outgoing, decode_packet};
use std::alloc::Global;
use wire_prims::DecodeFault;

/// The packets that these bytes spell.
fn read_all(alloc: Global, packets: &[Outgoing]) -> Result<List<Sent>, NoMemory>
    requires { AreSpelled packets.now }
    ensures { IfOk result (λ ps. ps ≡ read_all packets.now) }
{
    let mut found = List::new(alloc);
    for outgoing in packets {
        match decode_packet(alloc, outgoing.bytes.as_slice()) {
            Ok(packet) => found.push(Sent {
                to: outgoing.to,
                packet,
            })?,
            Err(DecodeFault::NoMemory) => return Err(NoMemory),
            Err(DecodeFault::Bad(_)) => unreachable!(),
        }
    }
    Ok(found)
}

#[tactic(auto, using(crate::proofs::Spoken::wanted_for, crate::proofs::Spoken::spelled_for, crate::proofs::Spoken::read_for))]
/// The packets of the row just run, of a member whose log is now this one.
fn speak(alloc: Global, core: &mut Core, log: &[Entry]) -> Result<List<Sent>, NoMemory>
    requires { Speaks core.old.values core.old.plan log.now }
    ensures packets { IfOk result (λ ps. ps ≡ speaks core.old.plan core.old.values log.now) }
    ensures values { OnOk result (core.new.values ≡ core.old.values) }
{
    let index = index_of(alloc, log)?;
    let ranges = core.wanted(&index)?;
    let batches = entries_in(alloc, ranges.as_slice(), log)?;
    let packets = core.on_durable(&index, batches.as_slice())?;
    read_all(alloc, packets.as_slice())
}

/// The row just run goes on: its change is made, and then its packets go out, unless a stop cuts it.
pub fn finish(
    core: Core,
    kept: &mut Kept,
    change: Change,
    cut: Cut,
) -> Result<(Option<Core>, List<Sent>), NoMemory>
    requires { cut ≡ Cut.Whole → Speaks core.values core.plan (changed_log change kept.old.log) }
    ensures member { IfOk result (λ r. member_of r.0 kept.new ≡ after (row_run core change) (cut_of cut) (stopped kept.old)) }
    ensures sent { IfOk result (λ r. r.1 ≡ sent_by (row_run core change) (cut_of cut) (stopped kept.old)) }
{
    let alloc = kept.alloc();
    match cut {
        Cut::Before => Ok((None, List::new(alloc))),
        Cut::After => {
            kept.make(change)?;
            Ok((None, List::new(alloc)))
        }
        Cut::Whole => {
            kept.make(change)?;
            let mut core = core;
            let sent = speak(alloc, &mut core, kept.entries())?;
            Ok((Some(core), sent))
        }
    }
}
