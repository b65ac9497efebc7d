// What a member's files stand for.
ghost use Rattle.std.specs.Prelude.{◌≡◌, ◌<◌, ◌≤◌, ◌++◌, [], ◌∷◌, ℕ, List, length, slice_index_or, IsTrue, IfOk};
ghost use Rattle.cl_base.specs.declared.entry.Entry.{Entry as OneEntry};
ghost use Rattle.entry_log.specs.Log.{place};
ghost use Rattle.log_segment.specs.Held.{new_terms};
ghost use Rattle.line_text.specs.Written.{Adds};
ghost use Rattle.run_report.specs.Text.{set_lines};
ghost use Rattle.cluster_tool.specs.Words.{describe};
ghost use Rattle.cluster_tool.specs.Text.{line_text, begun, summary_with, describe_with, describe_text};
ghost use Rattle.cluster_tool.specs.Sets.{sets_of};
ghost use Rattle.cluster_tool.specs.Disks.{Reads, IsStill, EndsFor};
ghost use Rattle.cluster_tool.specs.Listed.{Ends, Leaves, HoldsMore};

use crate::ToolStatus;
use crate::line::{Line, Summary};
use crate::mount::mounted;
use crate::page::Page;
use crate::read::entry_at;
use cl_base::{Disk, Entry, MemberFault, Sink, Trouble};
use log_segment::NewTerm;
use member_disk::{Durable, MemberDisk};
use recording_log::SnapshotAt;
use std::alloc::Global;

/// How many leadership terms begin by the entry at an index: one or none.
fn terms_at<D: Disk>(member: &mut MemberDisk<D>, index: u64) -> Result<u64, MemberFault>
    requires whole { IsTrue member.old.whole }
    requires index { index < length member.old.kept.log }
    ensures reads { Reads D.tells D.is_honest D.state D.fault_count member.old member.new result }
    ensures few { IfOk result (λ n. n ≤ 1) }
    ensures begun { IsTrue (D.tells member.old.disk) → (d : OneEntry) → IfOk result (λ n. n ≡ begun (slice_index_or member.old.kept.log index d).bytes) }
{
    match entry_at(member, index) {
        Ok(entry) => Ok(begun(&entry)),
        Err(fault) => Err(fault),
    }
}

fn begun(entry: &Entry) -> u64
    ensures few { result ≤ 1 }
    ensures value { result ≡ begun entry.now.bytes }
{
    if NewTerm::of(0, entry.bytes.as_slice()).is_some() {
        1
    } else {
        0
    }
}

/// How many entries of the log begin a leadership term. Each entry is read.
fn count_terms<D: Disk>(member: &mut MemberDisk<D>) -> Result<u64, MemberFault>
    requires { IsTrue member.old.whole }
    ensures reads { Reads D.tells D.is_honest D.state D.fault_count member.old member.new result }
    ensures count { IsTrue (D.tells member.old.disk) → IfOk result (λ n. n ≡ length (new_terms 0 member.old.kept.log)) }
{
    let entries = member.index().entries();
    let mut terms = 0;
    for index in 0..entries {
        match terms_at(member, index) {
            Ok(more) => terms += more,
            Err(fault) => return Err(fault),
        }
    }
    Ok(terms)
}

fn summary_of(durable: &Durable, terms: u64, sets: u64) -> Summary
    ensures { result ≡ summary_with durable.now terms sets }
{
    let index = durable.index();
    let candidate = durable.candidate_term();
    let entries = index.entries();
    let place = index.place();
    Summary {
        candidate,
        entries,
        place,
        terms,
        sets,
    }
}

fn write<O: Sink>(
    alloc: Global,
    sink: &mut O,
    summary: Summary,
    sets: &[SnapshotAt],
) -> Result<(), Trouble>
    ensures { Adds O.tells O.held O.fault_count sink.old sink.new [] [] (line_text (Line.Summary summary) ++ set_lines sets.now ++ line_text Line.Done) result }
{
    let mut page = Page::new(alloc);
    page.line(sink, &Line::Summary(summary))?;
    page.sets(sink, sets)?;
    page.done(sink)
}

/// Writes the listing of what is kept, with so many entries that begin a leadership term.
fn tell<O: Sink>(alloc: Global, sink: &mut O, durable: &Durable, terms: u64) -> Result<(), Trouble>
    ensures { Adds O.tells O.held O.fault_count sink.old sink.new [] [] (describe_with durable.now terms (sets_of durable.now.services durable.now.entries)) result }
{
    let sets = durable.sets();
    let summary = summary_of(durable, terms, sets.len() as u64);
    write(alloc, sink, summary, sets)
}

/// The listing of a mounted disk.
fn describe<O: Sink, D: Disk>(alloc: Global, sink: &mut O, member: &mut MemberDisk<D>) -> ToolStatus
    requires { IsTrue member.old.whole }
    ensures still { IsStill D.tells D.is_honest D.state D.fault_count member.old member.new }
    ensures ends { EndsFor D.tells D.fault_count 0 member.old.disk member.new.disk result }
    ensures done { IsTrue (O.tells sink.old) → IsTrue (D.tells member.old.disk) → result ≡ ToolStatus.Done → HoldsMore (λ text. text ≡ describe_text member.old.kept) (O.held sink.old) (O.held sink.new) }
    ensures sink { Leaves O.tells O.held O.fault_count sink.old sink.new result }
{
    match count_terms(member) {
        Ok(terms) => ToolStatus::Done.after(tell(alloc, sink, member.durable(), terms)),
        Err(fault) => ToolStatus::of(0, fault).written(alloc, sink),
    }
}

/// The listing of a disk with so many services, which comes back.
pub(crate) fn described<O: Sink, D: Disk>(
    alloc: Global,
    services: u8,
    sink: &mut O,
    disk: D,
) -> (D, ToolStatus)
    ensures { Ends D.tells D.is_honest D.state D.fault_count O.tells O.held O.fault_count (describe services) (disk ∷ []) (result.0 ∷ []) sink.old sink.new result.1 }
{
    match mounted(alloc, 0, disk, services) {
        Ok(member) => {
            let mut member = member;
            let status = describe(alloc, sink, &mut member);
            (member.into_disk(), status)
        }
        Err((disk, status)) => (disk, status.written(alloc, sink)),
    }
}
