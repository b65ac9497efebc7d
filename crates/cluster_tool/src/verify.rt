// How far the logs of two members' disks are the same.
ghost use Rattle.std.specs.Prelude.{◌≡◌, ◌∷◌, ◌++◌, [], IsTrue};
ghost use Rattle.line_text.specs.Written.{Adds};
ghost use Rattle.cluster_tool.specs.Words.{verify};
ghost use Rattle.cluster_tool.specs.Text.{line_text, verify_text};
ghost use Rattle.cluster_tool.specs.Disks.{IsStill, EndsBoth};
ghost use Rattle.cluster_tool.specs.Listed.{Ends, EndsWith, Leaves, HoldsMore};

use crate::ToolStatus;
use crate::compare::{Comparison, compared};
use crate::line::Line;
use crate::mount::mounted;
use crate::page::Page;
use cl_base::{Disk, Sink, Trouble};
use member_disk::MemberDisk;
use std::alloc::Global;

fn write<O: Sink>(alloc: Global, sink: &mut O, comparison: Comparison) -> Result<(), Trouble>
    ensures { Adds O.tells O.held O.fault_count sink.old sink.new [] [] (line_text (Line.Compared comparison) ++ line_text Line.Done) result }
{
    let mut page = Page::new(alloc);
    page.line(sink, &Line::Compared(comparison))?;
    page.done(sink)
}

/// The listing of two mounted disks.
fn verify<O: Sink, D: Disk>(
    alloc: Global,
    sink: &mut O,
    first: &mut MemberDisk<D>,
    second: &mut MemberDisk<D>,
) -> ToolStatus
    requires first_whole { IsTrue first.old.whole }
    requires second_whole { IsTrue second.old.whole }
    ensures first { IsStill D.tells D.is_honest D.state D.fault_count first.old first.new }
    ensures second { IsStill D.tells D.is_honest D.state D.fault_count second.old second.new }
    ensures ends { EndsBoth D.tells D.fault_count first.old.disk first.new.disk second.old.disk second.new.disk result }
    ensures done { IsTrue (O.tells sink.old) → IsTrue (D.tells first.old.disk) → IsTrue (D.tells second.old.disk) → result ≡ ToolStatus.Done → HoldsMore (λ text. text ≡ verify_text first.old.kept.log second.old.kept.log) (O.held sink.old) (O.held sink.new) }
    ensures sink { Leaves O.tells O.held O.fault_count sink.old sink.new result }
{
    match compared(first, second) {
        Ok(comparison) => ToolStatus::Done.after(write(alloc, sink, comparison)),
        Err(status) => status.written(alloc, sink),
    }
}

/// The listing of two disks, of which the first is mounted. Both come back.
fn verified_with<O: Sink, D: Disk>(
    alloc: Global,
    sink: &mut O,
    first: MemberDisk<D>,
    second: D,
) -> (D, D, ToolStatus)
    requires { IsTrue first.whole }
    ensures { EndsWith D.tells D.is_honest D.state D.fault_count O.tells O.held O.fault_count first second result.0 result.1 sink.old sink.new result.2 }
{
    let mut first = first;
    match mounted(alloc, 1, second, 1) {
        Ok(second) => {
            let mut second = second;
            let status = verify(alloc, sink, &mut first, &mut second);
            (first.into_disk(), second.into_disk(), status)
        }
        Err((second, status)) => (first.into_disk(), second, status.written(alloc, sink)),
    }
}

/// The listing of two disks, which come back.
pub(crate) fn verified<O: Sink, D: Disk>(
    alloc: Global,
    sink: &mut O,
    first: D,
    second: D,
) -> (D, D, ToolStatus)
    ensures { Ends D.tells D.is_honest D.state D.fault_count O.tells O.held O.fault_count verify (first ∷ second ∷ []) (result.0 ∷ result.1 ∷ []) sink.old sink.new result.2 }
{
    match mounted(alloc, 0, first, 1) {
        Ok(first) => verified_with(alloc, sink, first, second),
        Err((first, status)) => (first, second, status.written(alloc, sink)),
    }
}
