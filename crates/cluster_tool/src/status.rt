// How a call of the tool ends.
ghost use Rattle.std.specs.Prelude.{◌≡◌, ◌++◌, OnOk, codes, string_bytes};
ghost use Rattle.cluster_tool.specs.Status.{exit_code, status_text, ended, status_of};
ghost use Rattle.line_text.specs.Pieces.{count};
ghost use Rattle.cluster_tool.specs.Told.{Told, NoWriteFault};

use cl_base::{MemberFault, NoMemory, Sink, Trouble};
use line_text::{give, put, put_count};
use std::alloc::Global;

/// How a call of the tool ends. Disks are counted from 0, in the order of the folders among the words.
#[derive(Clone, Copy, Debug, PartialEq, Eq)]
pub enum ToolStatus {
    /// The listing is written.
    Done,
    /// The words aren't those of a listing.
    Usage,
    /// This disk is the first whose node state is of version 1: the file has 32 bytes, and its version isn't 2.
    Old { disk: u64 },
    /// This disk is the first whose files don't stand for a member: its file of this number is first wrong at this place
    /// (bytes).
    Damaged { disk: u64, file: u32, place: u64 },
    /// This disk failed.
    DiskFault { disk: u64 },
    /// The sink failed, and holds a part of the text's front.
    WriteFault,
    /// No memory was there. The sink holds a part of the text's front.
    NoMemory,
}

fn put_disk(page: &mut String, disk: u64, words: &str) -> Result<(), NoMemory>
    ensures { OnOk result (string_bytes page.new ≡ string_bytes page.old ++ (count (codes "disk ") disk ++ words.now)) }
{
    put_count(page, "disk ", disk)?;
    put(page, words)
}

fn put_damaged(page: &mut String, disk: u64, file: u32, place: u64) -> Result<(), NoMemory>
    ensures { OnOk result (string_bytes page.new ≡ string_bytes page.old ++ status_text (ToolStatus.Damaged disk file place)) }
{
    put_count(page, "damaged ", disk)?;
    put_count(page, " ", file as u64)?;
    put_count(page, " ", place)?;
    put(page, "\n")
}

impl ToolStatus {
    /// The exit status of the program.
    pub fn code(self) -> u8
        ensures { result ≡ exit_code self }
    {
        match self {
            ToolStatus::Done => 0,
            ToolStatus::Usage => 2,
            ToolStatus::WriteFault => 8,
            ToolStatus::DiskFault { .. } => 9,
            ToolStatus::NoMemory => 10,
            ToolStatus::Damaged { .. } => 11,
            ToolStatus::Old { .. } => 12,
        }
    }

    /// What a fault of a disk's files means. A mount and a read answer no LogFull.
    pub(crate) fn of(disk: u64, fault: MemberFault) -> ToolStatus
        ensures { result ≡ status_of disk fault }
    {
        match fault {
            MemberFault::Device => ToolStatus::DiskFault { disk },
            MemberFault::Damaged { file, place } => ToolStatus::Damaged { disk, file, place },
            MemberFault::NoMemory | MemberFault::LogFull { .. } => ToolStatus::NoMemory,
        }
    }

    /// Puts what is written where the call ends so without a listing: one line for a refusal, else nothing.
    fn put(self, page: &mut String) -> Result<(), NoMemory>
        ensures { OnOk result (string_bytes page.new ≡ string_bytes page.old ++ status_text self) }
    {
        match self {
            ToolStatus::Usage => put(
                page,
                "usage: clusterd run [--dir D] | check | make N [--dir D] | tool describe S DIR | tool recording-log DIR | tool verify DIR DIR\n",
            ),
            ToolStatus::Old { disk } => put_disk(page, disk, ": version 1\n"),
            ToolStatus::DiskFault { disk } => put_disk(page, disk, ": fault\n"),
            ToolStatus::Damaged { disk, file, place } => put_damaged(page, disk, file, place),
            ToolStatus::Done | ToolStatus::WriteFault | ToolStatus::NoMemory => Ok(()),
        }
    }

    /// Writes a refusal's line, and says how the call ends: so, or as the sink or want of memory has it.
    pub(crate) fn written<O: Sink>(self, alloc: Global, sink: &mut O) -> ToolStatus
        requires { NoWriteFault self }
        ensures { Told O.tells O.held O.fault_count sink.old sink.new self (status_text self) result }
    {
        let mut page = String::new(alloc);
        match self.put(&mut page) {
            Ok(()) => self.after(give(sink, page.as_bytes())),
            Err(NoMemory) => ToolStatus::NoMemory,
        }
    }

    /// How the call ends where it means this answer, after a text was written or not.
    pub(crate) fn after(self, written: Result<(), Trouble>) -> ToolStatus
        ensures { result ≡ ended self written }
    {
        match written {
            Ok(()) => self,
            Err(Trouble::Failed) => ToolStatus::WriteFault,
            Err(Trouble::NoMemory) => ToolStatus::NoMemory,
        }
    }
}
