// The entries of a recording log.
ghost use Rattle.std.specs.Prelude.{◌≡◌, ◌∷◌, [], List, IsTrue};
ghost use Rattle.line_text.specs.Written.{Adds};
ghost use Rattle.cluster_tool.specs.Words.{recording};
ghost use Rattle.cluster_tool.specs.Text.{recording_text};
ghost use Rattle.cluster_tool.specs.Disks.{IsSeen, EndsFor};
ghost use Rattle.cluster_tool.specs.Listed.{Ends, Leaves, HoldsMore, IsRecording};
ghost use Rattle.recording_log.specs.Entries.{Holds};
ghost use Rattle.recording_log.specs.declared.entry.RecEntry.{RecEntry as OneEntry};

use crate::ToolStatus;
use crate::mount::mounted;
use crate::page::Page;
use cl_base::{Disk, Sink, Trouble};
use recording_log::{RecEntry, RecordingLog};
use std::alloc::Global;

fn write<O: Sink>(alloc: Global, sink: &mut O, entries: &[RecEntry]) -> Result<(), Trouble>
    ensures { Adds O.tells O.held O.fault_count sink.old sink.new [] [] (recording_text entries.now) result }
{
    let mut page = Page::new(alloc);
    page.entries(sink, entries)?;
    page.done(sink)
}

/// The listing of the recording log of a disk whose file of it is whole.
fn list<O: Sink, D: Disk>(alloc: Global, sink: &mut O, disk: &mut D) -> ToolStatus
    requires { IsTrue (D.tells disk.old) → (entries : List OneEntry) × Holds entries ((D.state disk.old).files 1).reads }
    ensures seen { IsSeen D.tells D.is_honest D.state D.fault_count disk.old disk.new }
    ensures ends { EndsFor D.tells D.fault_count 0 disk.old disk.new result }
    ensures done { IsTrue (O.tells sink.old) → IsTrue (D.tells disk.old) → result ≡ ToolStatus.Done → HoldsMore (IsRecording (D.state disk.old).files) (O.held sink.old) (O.held sink.new) }
    ensures sink { Leaves O.tells O.held O.fault_count sink.old sink.new result }
{
    match RecordingLog::mount(alloc, disk) {
        Ok(log) => ToolStatus::Done.after(write(alloc, sink, log.entries())),
        Err(fault) => ToolStatus::of(0, fault).written(alloc, sink),
    }
}

/// The listing of the recording log of a disk, which comes back.
pub(crate) fn recorded<O: Sink, D: Disk>(alloc: Global, sink: &mut O, disk: D) -> (D, ToolStatus)
    ensures { Ends D.tells D.is_honest D.state D.fault_count O.tells O.held O.fault_count recording (disk ∷ []) (result.0 ∷ []) sink.old sink.new result.1 }
{
    match mounted(alloc, 0, disk, 1) {
        Ok(member) => {
            let mut disk = member.into_disk();
            let status = list(alloc, sink, &mut disk);
            (disk, status)
        }
        Err((disk, status)) => (disk, status.written(alloc, sink)),
    }
}
