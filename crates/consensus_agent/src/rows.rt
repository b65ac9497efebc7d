// What a member does with a packet, and at a duty.
ghost use Rattle.std.specs.Prelude.{◌≡◌, ◌≤◌, ◌<◌, ◌^◌, ◌++◌, true, false, not, ◌&&◌, ◌||◌, All, IsTrue, IfOk, OnErr, OnOk, length, pos, ◌≤ℤ◌};
ghost use Rattle.sbe_events.specs.Spelling.{HasSpelling as IsEvent, term_of};
ghost use Rattle.sbe_consensus.specs.Spelling.{HasSpelling, spelling_of};
ghost use Rattle.sbe_consensus.specs.declared.packet.Packet.{Packet};
ghost use Rattle.entry_log.specs.Shape.{end_of, last_term_of, shape_of};
ghost use Rattle.consensus_core.specs.Whole.{packets_sent, wanted};
ghost use Rattle.consensus_agent.specs.Reads.{AreRead};
ghost use Rattle.consensus_core.specs.declared.change.Change.TheVariants as Change;
ghost use Rattle.consensus_core.specs.Reign.{does_duty};
ghost use Rattle.consensus_core.specs.Sendable.{receives};
ghost use Rattle.consensus_core.specs.Member.{is_ready as leads};
ghost use Rattle.consensus_core.specs.Standing.{CanFollow, Standing};
ghost use Rattle.consensus_agent.specs.Rows.{CutRow, IsSpoken, Made, RowRan, due_to};
ghost use Rattle.consensus_agent.specs.Delivered.{OnBad, RanPacket, TellsBad};
ghost use Rattle.cl_base.specs.Looks.{Same};
ghost use Rattle.consensus_agent.specs.Disks.{Done, Looked, Went};
ghost use Rattle.consensus_agent.specs.Taken.{HasTaken, IsTaken, RowTaken, begins_reign};
ghost use Rattle.module_state.specs.Entries.{events_in};
ghost use Rattle.consensus_agent.specs.Sound.{CanChange, CanRun, HasAhead, ends_phase, is_cut};

use crate::agent::Agent;
use crate::changes::{append, cut, raise};
use crate::fault::AgentFault;
use crate::reads::read_ranges;
use cl_base::{Disk, Entry, List, NoMemory};
use consensus_core::{Change, Core};
use entry_log::LogIndex;
use member_module::MemberModule;
use sbe_consensus::{Outgoing, Packet, decode_packet};
use sbe_events::Event;
use wire_prims::{Bad, DecodeFault};

/// What became of a packet.
#[derive(Debug, Drop)]
pub enum Delivered {
    /// It was taken, and these packets go out.
    Sent(List<Outgoing>),
    /// The bytes are no packet, and nothing changed.
    Bad(Bad),
}

/// The packets of the row just run, whose change is on the disk, with the entries of these ranges.
fn speak(
    core: &mut Core,
    index: &LogIndex,
    ranges: &[(u64, u64)],
    batches: &[Entry],
) -> Result<List<Outgoing>, NoMemory>
    requires place { end_of index.now ≤ 16777216 }
    requires commit { core.old.values.rest.commit ≤ length index.now }
    requires term { last_term_of index.now ≤ℤ pos (2 ^ 62) }
    requires ranges { ranges.now ≡ wanted core.old index.now }
    requires read { AreRead ranges.now batches.now }
    ensures packets { IfOk result (λ out. out ≡ packets_sent core.old index.now batches.now) }
    ensures values { core.new.values ≡ core.old.values }
{
    let _ranges = ranges.len();
    core.on_durable(index, batches)
}

/// The module has these entries ahead.
#[tactic(auto, using(crate::proofs::Taking::events_push))]
fn take_all(module: &mut MemberModule, entries: List<Entry>) -> Result<(), NoMemory>
    ensures consumed { module.new.consumed ≡ module.old.consumed }
    ensures entries { OnOk result (module.new.ahead.entries ≡ module.old.ahead.entries ++ entries) }
    ensures events { OnOk result (module.new.ahead.events ≡ module.old.ahead.events ++ events_in entries) }
    ensures rest { module.new ≡ record module.old { ahead = module.new.ahead; latest = module.new.latest } }
{
    for entry in entries.into_vec() {
        module.append(entry)?;
    }
    Ok(())
}

impl<D: Disk> Agent<D> {
    /// Makes a row's change on the disk, and of what is kept of the log.
    #[tactic(auto, using(crate::proofs::Ahead::ahead_grown, crate::proofs::Ahead::ahead_cut, crate::proofs::Taking::took_nothing, crate::proofs::Taking::took_raise, crate::proofs::Taking::took_cut, crate::proofs::Disking::went_none, crate::proofs::Disking::done_none))]
    fn make(&mut self, change: Change) -> Result<(), AgentFault>
        requires open { self.old.is_whole ≡ false }
        requires whole { IsTrue self.old.disk.whole }
        requires can { CanChange change self.old.module.consumed self.old.disk.kept }
        requires ahead { HasAhead self.old.module self.old.disk.kept.log }
        ensures made { OnOk result (Made change self.old.disk.kept self.new.disk.kept) }
        ensures cut { OnErr result (CutRow change self.old.disk.kept self.new.disk.kept) }
        ensures core { self.new.core ≡ self.old.core }
        ensures services { self.new.services ≡ self.old.services }
        ensures base { self.new.base ≡ self.old.base }
        ensures role { self.new.role ≡ self.old.role }
        ensures consumed { self.new.module.consumed ≡ self.old.module.consumed }
        ensures open { self.new.is_whole ≡ false }
        ensures whole { OnOk result (IsTrue self.new.disk.whole) }
        ensures ahead { OnOk result (HasAhead self.new.module self.new.disk.kept.log) }
        ensures over { OnOk result (self.new.over ≡ (self.old.over || is_cut change)) }
        ensures taken { OnOk result (HasTaken change false 0 self.old.module self.new.module) }
        ensures went { Went D.state D.tells D.is_honest change self.old.disk self.new.disk }
        ensures done { OnOk result (Done D.state D.tells D.is_honest change self.old.disk self.new.disk) }
    {
        match change {
            Change::Nothing => Ok(()),
            Change::Raise { term, voted } => raise(&mut self.disk, term, voted),
            Change::Append(entries) => self.append_all(entries),
            Change::Cut(entries) => {
                cut(&mut self.disk, entries)?;
                self.module.cut(entries);
                self.over = true;
                Ok(())
            }
        }
    }

    #[tactic(auto, using(crate::proofs::Ahead::ahead_grown, crate::proofs::Taking::took_entries))]
    fn append_all(&mut self, entries: List<Entry>) -> Result<(), AgentFault>
        requires open { self.old.is_whole ≡ false }
        requires whole { IsTrue self.old.disk.whole }
        requires can { CanFollow (shape_of self.old.disk.kept.log) entries }
        requires ahead { HasAhead self.old.module self.old.disk.kept.log }
        ensures made { OnOk result (Made (Change.Append entries) self.old.disk.kept self.new.disk.kept) }
        ensures cut { OnErr result (CutRow (Change.Append entries) self.old.disk.kept self.new.disk.kept) }
        ensures core { self.new.core ≡ self.old.core }
        ensures services { self.new.services ≡ self.old.services }
        ensures base { self.new.base ≡ self.old.base }
        ensures role { self.new.role ≡ self.old.role }
        ensures consumed { self.new.module.consumed ≡ self.old.module.consumed }
        ensures open { self.new.is_whole ≡ false }
        ensures whole { OnOk result (IsTrue self.new.disk.whole) }
        ensures ahead { OnOk result (HasAhead self.new.module self.new.disk.kept.log) }
        ensures over { self.new.over ≡ self.old.over }
        ensures taken { OnOk result (HasTaken (Change.Append entries) false 0 self.old.module self.new.module) }
        ensures went { Went D.state D.tells D.is_honest (Change.Append entries) self.old.disk self.new.disk }
        ensures done { OnOk result (Done D.state D.tells D.is_honest (Change.Append entries) self.old.disk self.new.disk) }
    {
        append(&mut self.disk, entries.as_slice())?;
        take_all(&mut self.module, entries)?;
        Ok(())
    }

    /// The packets of the row just run, whose change is on the disk.
    #[tactic(auto, using(crate::proofs::Sounding::term_low, crate::proofs::Sounding::bound_of, crate::proofs::Disking::looked_none))]
    fn send(&mut self) -> Result<List<Outgoing>, AgentFault>
        requires open { self.old.is_whole ≡ false }
        requires whole { IsTrue self.old.disk.whole }
        requires stands { Standing self.old.core.values (shape_of self.old.disk.kept.log) }
        ensures sent { IfOk result (IsSpoken (D.tells self.old.disk.disk) self.old.core self.old.disk.kept.log) }
        ensures values { OnOk result (self.new.core.values ≡ self.old.core.values) }
        ensures disk { self.new.disk.kept ≡ self.old.disk.kept }
        ensures looked { Looked D.state D.tells D.is_honest self.old.disk self.new.disk }
        ensures same { IsTrue (D.tells self.old.disk.disk) → OnOk result (Same (D.state self.old.disk.disk) (D.state self.new.disk.disk)) }
        ensures services { self.new.services ≡ self.old.services }
        ensures base { self.new.base ≡ self.old.base }
        ensures role { self.new.role ≡ self.old.role }
        ensures module { self.new.module ≡ self.old.module }
        ensures over { self.new.over ≡ self.old.over }
        ensures open { self.new.is_whole ≡ false }
        ensures whole { IsTrue self.new.disk.whole }
        ensures bound { self.old.core.values.rest.commit ≤ 16777216 }
    {
        let ranges = self.core.wanted(self.disk.index())?;
        let batches = read_ranges(self.alloc, &mut self.disk, ranges.as_slice())?;
        let packets = speak(
            &mut self.core,
            self.disk.index(),
            ranges.as_slice(),
            batches.as_slice(),
        )?;
        Ok(packets)
    }

    /// What becoming ready to lead, or no longer leading, means for the module and the phase.
    #[tactic(auto, using(crate::proofs::Taking::took_rest, crate::proofs::Taking::took_on, crate::proofs::Taking::took_reign))]
    fn settle(&mut self, was_ready: bool, now: u64)
        requires open { self.old.is_whole ≡ false }
        ensures core { self.new.core ≡ self.old.core }
        ensures disk { self.new.disk ≡ self.old.disk }
        ensures services { self.new.services ≡ self.old.services }
        ensures base { self.new.base ≡ self.old.base }
        ensures role { self.new.role ≡ self.old.role }
        ensures consumed { self.new.module.consumed ≡ self.old.module.consumed }
        ensures ahead { self.new.module.ahead ≡ self.old.module.ahead }
        ensures over { self.new.over ≡ (self.old.over || (leads self.old.core.values.election.state && not was_ready)) }
        ensures open { self.new.is_whole ≡ false }
        ensures taken { HasTaken Change.Nothing (begins_reign was_ready (leads self.old.core.values.election.state)) now self.old.module self.new.module }
    {
        if !self.is_ready() {
            self.module.rest();
        } else if !was_ready {
            self.module.reign(now);
            self.over = true;
        }
    }

    /// Makes the change of the row that the core just ran, which the disk can make, and gives the row's packets.
    #[tactic(auto, using(crate::proofs::Sounding::stands_again, crate::proofs::Sounding::made_stands, crate::proofs::Sounding::over_of))]
    fn finish(
        &mut self,
        change: Change,
        was_ready: bool,
        now: u64,
    ) -> Result<List<Outgoing>, AgentFault>
        requires open { self.old.is_whole ≡ false }
        requires whole { IsTrue self.old.disk.whole }
        requires can { CanRun change self.old.core.values self.old.disk.kept self.old.module.consumed }
        requires ahead { HasAhead self.old.module self.old.disk.kept.log }
        ensures made { OnOk result (Made change self.old.disk.kept self.new.disk.kept) }
        ensures cut { OnErr result (CutRow change self.old.disk.kept self.new.disk.kept) }
        ensures values { OnOk result (self.new.core.values ≡ self.old.core.values) }
        ensures sent { IfOk result (IsSpoken (D.tells self.old.disk.disk) self.old.core self.new.disk.kept.log) }
        ensures services { self.new.services ≡ self.old.services }
        ensures base { self.new.base ≡ self.old.base }
        ensures role { self.new.role ≡ self.old.role }
        ensures consumed { self.new.module.consumed ≡ self.old.module.consumed }
        ensures over { OnOk result (self.new.over ≡ (self.old.over || ends_phase was_ready change self.old.core.values.election.state)) }
        ensures whole { OnOk result (IsTrue self.new.is_whole) }
        ensures bound { OnOk result (self.old.core.values.rest.commit ≤ 16777216) }
        ensures went { Went D.state D.tells D.is_honest change self.old.disk self.new.disk }
        ensures done { OnOk result (Done D.state D.tells D.is_honest change self.old.disk self.new.disk) }
        ensures taken { OnOk result (IsTaken change was_ready self.old.core.values now self.old.module self.new.module self.old.over self.new.over) }
    {
        self.make(change)?;
        self.settle(was_ready, now);
        let packets = self.send()?;
        self.is_whole = true;
        Ok(packets)
    }

    /// Takes a packet: its row's change, and then its packets.
    #[tactic(auto, using(crate::proofs::Sounding::packet_runs, crate::proofs::Disking::went_none))]
    fn take_packet(&mut self, packet: &Packet, now: u64) -> Result<List<Outgoing>, AgentFault>
        requires whole { IsTrue self.old.is_whole }
        requires now { now ≤ 2 ^ 60 }
        requires spelled { HasSpelling packet.now }
        ensures row { IfOk result (RowRan (D.tells self.old.disk.disk) (receives self.old.core.values (shape_of self.old.disk.kept.log) packet.now now) self.old.disk.kept self.new.disk.kept self.new.core.values) }
        ensures cut { OnErr result (CutRow (receives self.old.core.values (shape_of self.old.disk.kept.log) packet.now now).change self.old.disk.kept self.new.disk.kept) }
        ensures services { self.new.services ≡ self.old.services }
        ensures base { self.new.base ≡ self.old.base }
        ensures role { self.new.role ≡ self.old.role }
        ensures consumed { self.new.module.consumed ≡ self.old.module.consumed }
        ensures rises { OnOk result (self.old.core.values.rest.commit ≤ self.new.core.values.rest.commit) }
        ensures bound { OnOk result (self.new.core.values.rest.commit ≤ 16777216) }
        ensures over { OnOk result (self.new.over ≡ true → self.old.over ≡ false → self.new.core.values.rest.commit ≡ self.old.core.values.rest.commit) }
        ensures whole { OnOk result (IsTrue self.new.is_whole) }
        ensures went { Went D.state D.tells D.is_honest (receives self.old.core.values (shape_of self.old.disk.kept.log) packet.now now).change self.old.disk self.new.disk }
        ensures done { OnOk result (Done D.state D.tells D.is_honest (receives self.old.core.values (shape_of self.old.disk.kept.log) packet.now now).change self.old.disk self.new.disk) }
        ensures taken { OnOk result (RowTaken (receives self.old.core.values (shape_of self.old.disk.kept.log) packet.now now) self.old.core.values now self.old.module self.new.module self.old.over self.new.over) }
    {
        let was_ready = self.is_ready();
        let change = self.core.on_packet(self.disk.index(), packet, now)?;
        self.is_whole = false;
        self.finish(change, was_ready, now)
    }

    /// Takes a packet at `now` (ms, at most 2^60): its row's change, and then its packets. Bytes that are no packet
    /// change nothing.
    #[tactic(auto, using(crate::proofs::Sounding::sound_bound, crate::proofs::Disking::went_none))]
    pub fn deliver(&mut self, bytes: &[u8], now: u64) -> Result<Delivered, AgentFault>
        requires { now ≤ 2 ^ 60 }
        ensures row { (p : Packet) → HasSpelling p → spelling_of p ≡ bytes.now → IfOk result (RanPacket (D.tells self.old.disk.disk) (receives self.old.core.values (shape_of self.old.disk.kept.log) p now) self.old.disk.kept self.new.disk.kept self.new.core.values) }
        ensures cut { (p : Packet) → HasSpelling p → spelling_of p ≡ bytes.now → OnErr result (CutRow (receives self.old.core.values (shape_of self.old.disk.kept.log) p now).change self.old.disk.kept self.new.disk.kept) }
        ensures went { (p : Packet) → HasSpelling p → spelling_of p ≡ bytes.now → Went D.state D.tells D.is_honest (receives self.old.core.values (shape_of self.old.disk.kept.log) p now).change self.old.disk self.new.disk }
        ensures done { (p : Packet) → HasSpelling p → spelling_of p ≡ bytes.now → OnOk result (Done D.state D.tells D.is_honest (receives self.old.core.values (shape_of self.old.disk.kept.log) p now).change self.old.disk self.new.disk) }
        ensures taken { (p : Packet) → HasSpelling p → spelling_of p ≡ bytes.now → OnOk result (RowTaken (receives self.old.core.values (shape_of self.old.disk.kept.log) p now) self.old.core.values now self.old.module self.new.module self.old.over self.new.over) }
        ensures services { self.new.services ≡ self.old.services }
        ensures base { self.new.base ≡ self.old.base }
        ensures role { self.new.role ≡ self.old.role }
        ensures consumed { self.new.module.consumed ≡ self.old.module.consumed }
        ensures rises { OnOk result (self.old.core.values.rest.commit ≤ self.new.core.values.rest.commit) }
        ensures bound { self.old.core.values.rest.commit < 2 ^ 62 → OnOk result (self.new.core.values.rest.commit < 2 ^ 62) }
        ensures over { OnOk result (self.new.over ≡ true → self.old.over ≡ false → self.new.core.values.rest.commit ≡ self.old.core.values.rest.commit) }
        ensures whole { OnOk result (IsTrue self.new.is_whole) }
        ensures bad { IfOk result (TellsBad bytes.now) }
        ensures stays { IfOk result (λ d. OnBad d ((self.new.core ≡ self.old.core) × (self.new.disk ≡ self.old.disk) × (self.new.module ≡ self.old.module) × (self.new.over ≡ self.old.over))) }
    {
        if !self.is_whole {
            return Err(AgentFault::NoMemory);
        }
        let _entries = self.disk.index().entries();
        let packet = match decode_packet(self.alloc, bytes) {
            Ok(packet) => packet,
            Err(DecodeFault::Bad(bad)) => return Ok(Delivered::Bad(bad)),
            Err(DecodeFault::NoMemory) => return Err(AgentFault::NoMemory),
        };
        Ok(Delivered::Sent(self.take_packet(&packet, now)?))
    }

    /// What is due at `now` (ms) to a member that is ready to lead.
    #[tactic(auto, using(crate::proofs::Sounding::kept_sound, crate::proofs::Due::due_of_term))]
    fn due(&mut self, now: u64) -> Result<List<Event>, AgentFault>
        requires whole { IsTrue self.old.is_whole }
        requires now { now ≤ 2 ^ 60 }
        ensures core { self.new.core ≡ self.old.core }
        ensures disk { self.new.disk ≡ self.old.disk }
        ensures services { self.new.services ≡ self.old.services }
        ensures base { self.new.base ≡ self.old.base }
        ensures role { self.new.role ≡ self.old.role }
        ensures consumed { self.new.module.consumed ≡ self.old.module.consumed }
        ensures due { IfOk result (λ es. leads self.old.core.values.election.state ≡ true → es ≡ due_to self.old.module self.old.core.values.election.term now) }
        ensures spelled { IfOk result (λ es. All IsEvent es) }
        ensures term { IfOk result (λ es. All (λ e. term_of e ≡ self.old.core.values.election.term) es) }
        ensures over { self.new.over ≡ self.old.over }
        ensures whole { self.new.is_whole ≡ self.old.is_whole }
        ensures module { self.new.module ≡ record self.old.module { latest = self.new.module.latest } }
    {
        let term = self.core.term();
        if !self.is_ready() {
            return Ok(List::new(self.alloc));
        }
        Ok(self.module.due(term, now)?)
    }

    /// The duty of its state, with these due events.
    #[tactic(auto, using(crate::proofs::Sounding::duty_runs, crate::proofs::Disking::went_none))]
    fn do_duty(&mut self, due: &[Event], now: u64) -> Result<List<Outgoing>, AgentFault>
        requires whole { IsTrue self.old.is_whole }
        requires now { now ≤ 2 ^ 60 }
        requires due { All IsEvent due.now }
        requires term { All (λ e. term_of e ≡ self.old.core.values.election.term) due.now }
        ensures row { IfOk result (RowRan (D.tells self.old.disk.disk) (does_duty self.old.core.values (shape_of self.old.disk.kept.log) due.now now) self.old.disk.kept self.new.disk.kept self.new.core.values) }
        ensures cut { OnErr result (CutRow (does_duty self.old.core.values (shape_of self.old.disk.kept.log) due.now now).change self.old.disk.kept self.new.disk.kept) }
        ensures services { self.new.services ≡ self.old.services }
        ensures base { self.new.base ≡ self.old.base }
        ensures role { self.new.role ≡ self.old.role }
        ensures consumed { self.new.module.consumed ≡ self.old.module.consumed }
        ensures rises { OnOk result (self.old.core.values.rest.commit ≤ self.new.core.values.rest.commit) }
        ensures bound { OnOk result (self.new.core.values.rest.commit ≤ 16777216) }
        ensures over { OnOk result (self.new.over ≡ true → self.old.over ≡ false → self.new.core.values.rest.commit ≡ self.old.core.values.rest.commit) }
        ensures whole { OnOk result (IsTrue self.new.is_whole) }
        ensures went { Went D.state D.tells D.is_honest (does_duty self.old.core.values (shape_of self.old.disk.kept.log) due.now now).change self.old.disk self.new.disk }
        ensures done { OnOk result (Done D.state D.tells D.is_honest (does_duty self.old.core.values (shape_of self.old.disk.kept.log) due.now now).change self.old.disk self.new.disk) }
        ensures taken { OnOk result (RowTaken (does_duty self.old.core.values (shape_of self.old.disk.kept.log) due.now now) self.old.core.values now self.old.module self.new.module self.old.over self.new.over) }
    {
        let was_ready = self.is_ready();
        let change = self.core.on_duty(self.disk.index(), due, now)?;
        self.is_whole = false;
        self.finish(change, was_ready, now)
    }

    /// The duty of its state, at `now` (ms, at most 2^60), with what is due where it is ready to lead: its row's change, and
    /// then its packets.
    #[tactic(auto, using(crate::proofs::Due::cut_none, crate::proofs::Disking::went_none))]
    pub fn duty(&mut self, now: u64) -> Result<List<Outgoing>, AgentFault>
        requires { now ≤ 2 ^ 60 }
        ensures row { IfOk result (RowRan (D.tells self.old.disk.disk) (does_duty self.old.core.values (shape_of self.old.disk.kept.log) (due_to self.old.module self.old.core.values.election.term now) now) self.old.disk.kept self.new.disk.kept self.new.core.values) }
        ensures cut { OnErr result (CutRow (does_duty self.old.core.values (shape_of self.old.disk.kept.log) (due_to self.old.module self.old.core.values.election.term now) now).change self.old.disk.kept self.new.disk.kept) }
        ensures went { Went D.state D.tells D.is_honest (does_duty self.old.core.values (shape_of self.old.disk.kept.log) (due_to self.old.module self.old.core.values.election.term now) now).change self.old.disk self.new.disk }
        ensures done { OnOk result (Done D.state D.tells D.is_honest (does_duty self.old.core.values (shape_of self.old.disk.kept.log) (due_to self.old.module self.old.core.values.election.term now) now).change self.old.disk self.new.disk) }
        ensures taken { OnOk result (RowTaken (does_duty self.old.core.values (shape_of self.old.disk.kept.log) (due_to self.old.module self.old.core.values.election.term now) now) self.old.core.values now self.old.module self.new.module self.old.over self.new.over) }
        ensures services { self.new.services ≡ self.old.services }
        ensures base { self.new.base ≡ self.old.base }
        ensures role { self.new.role ≡ self.old.role }
        ensures consumed { self.new.module.consumed ≡ self.old.module.consumed }
        ensures rises { OnOk result (self.old.core.values.rest.commit ≤ self.new.core.values.rest.commit) }
        ensures bound { self.old.core.values.rest.commit < 2 ^ 62 → OnOk result (self.new.core.values.rest.commit < 2 ^ 62) }
        ensures over { OnOk result (self.new.over ≡ true → self.old.over ≡ false → self.new.core.values.rest.commit ≡ self.old.core.values.rest.commit) }
        ensures whole { OnOk result (IsTrue self.new.is_whole) }
    {
        if !self.is_whole {
            return Err(AgentFault::NoMemory);
        }
        let due = self.due(now)?;
        self.do_duty(due.as_slice(), now)
    }
}
