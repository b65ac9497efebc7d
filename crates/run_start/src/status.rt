// How a call of the program ends.
ghost use Rattle.std.specs.Prelude.{◌≡◌, ◌≤◌, ◌++◌, ◌⊎◌, OnOk, IsTrue, string_bytes};
ghost use Rattle.run_start.specs.Status.{exit_code, status_text, ended, IsOrGivesUp, Leaves};
ghost use Rattle.line_text.specs.Written.{IsFront};
ghost use Rattle.cl_base.specs.Counts.{Rose};
ghost use Rattle.scenario.specs.Causes.{cause_text};

use cl_base::{NoMemory, Sink, Trouble};
use line_text::{give, put, put_count};
use scenario::Cause;
use std::alloc::Global;

/// How a call of the program ends.
#[derive(Clone, Copy, Debug, PartialEq, Eq)]
pub enum Status {
    /// The run went to the scenario's end, and its text is written.
    Done,
    /// The words aren't those of a command.
    Usage,
    /// This line of the scenario, counted from 1, is the first that is faulty.
    Refused { line: u64, cause: Cause },
    /// The source has more than 1,048,576 bytes.
    TooLong,
    /// There are fewer disks than the run needs: one for each member, and one for the backup where an order is of it.
    FewDisks { members: u64, disks: u64 },
    /// This file of this member's disk is the first that isn't empty. The backup's disk has the number of members.
    Used { member: u64, file: u32 },
    /// The source failed.
    ReadFault,
    /// The sink failed, and holds a part of the text's front.
    WriteFault,
    /// This member's disk failed before the run, or the backup's, which has the number of members.
    DiskFault { member: u64 },
    /// No memory was there. The sink holds a part of the text's front.
    NoMemory,
}

fn put_cause(page: &mut String, cause: Cause) -> Result<(), NoMemory>
    ensures { OnOk result (string_bytes page.new ≡ string_bytes page.old ++ cause_text cause) }
{
    put(page, cause.text())
}

fn put_refused(page: &mut String, line: u64, cause: Cause) -> Result<(), NoMemory>
    ensures { OnOk result (string_bytes page.new ≡ string_bytes page.old ++ status_text (Status.Refused line cause)) }
{
    put_count(page, "refused line ", line)?;
    put(page, ": ")?;
    put_cause(page, cause)?;
    put(page, "\n")
}

fn put_few(page: &mut String, members: u64, disks: u64) -> Result<(), NoMemory>
    ensures { OnOk result (string_bytes page.new ≡ string_bytes page.old ++ status_text (Status.FewDisks members disks)) }
{
    write!(page, "members {members}, disks {disks}\n")?;
    Ok(())
}

fn put_used(page: &mut String, member: u64, file: u32) -> Result<(), NoMemory>
    ensures { OnOk result (string_bytes page.new ≡ string_bytes page.old ++ status_text (Status.Used member file)) }
{
    put_count(page, "disk ", member)?;
    put_count(page, ": file ", file as u64)?;
    put(page, " is not empty\n")
}

fn put_disk_fault(page: &mut String, member: u64) -> Result<(), NoMemory>
    ensures { OnOk result (string_bytes page.new ≡ string_bytes page.old ++ status_text (Status.DiskFault member)) }
{
    write!(page, "disk {member}: fault\n")?;
    Ok(())
}

impl Status {
    /// The exit status of the program.
    pub fn code(self) -> u8
        ensures { result ≡ exit_code self }
    {
        match self {
            Status::Done => 0,
            Status::Usage => 2,
            Status::Refused { .. } => 3,
            Status::TooLong => 4,
            Status::FewDisks { .. } => 5,
            Status::Used { .. } => 6,
            Status::ReadFault => 7,
            Status::WriteFault => 8,
            Status::DiskFault { .. } => 9,
            Status::NoMemory => 10,
        }
    }

    /// Puts what is written where the call ends so without a run: one line for a refusal, else nothing.
    fn put(self, page: &mut String) -> Result<(), NoMemory>
        ensures { OnOk result (string_bytes page.new ≡ string_bytes page.old ++ status_text self) }
    {
        match self {
            Status::Usage => put(
                page,
                "usage: clusterd run [--dir D] | check | make N [--dir D] | tool describe S DIR | tool recording-log DIR | tool verify DIR DIR\n",
            ),
            Status::Refused { line, cause } => put_refused(page, line, cause),
            Status::TooLong => put(page, "scenario longer than 1048576 bytes\n"),
            Status::FewDisks { members, disks } => put_few(page, members, disks),
            Status::Used { member, file } => put_used(page, member, file),
            Status::ReadFault => put(page, "read fault\n"),
            Status::DiskFault { member } => put_disk_fault(page, member),
            Status::Done | Status::WriteFault | Status::NoMemory => Ok(()),
        }
    }

    /// Writes a refusal's line, and says how the call ends: so, or as the sink or want of memory has it.
    pub fn written<O: Sink>(self, alloc: Global, sink: &mut O) -> Status
        ensures gives_up { IsOrGivesUp result self }
        ensures later { O.fault_count sink.old ≤ O.fault_count sink.new }
        ensures tells { O.tells sink.new ≡ O.tells sink.old }
        ensures fault { result ≡ Status.WriteFault → self ≡ Status.WriteFault ⊎ Rose (O.fault_count sink.old) (O.fault_count sink.new) }
        ensures text { IsTrue (O.tells sink.old) → result ≡ self → O.held sink.new ≡ O.held sink.old ++ status_text self }
        ensures grows { IsTrue (O.tells sink.old) → IsFront (O.held sink.old) (O.held sink.new) }
        ensures leaves { (self ≡ Status.WriteFault → ⊥) → Leaves O.tells O.held O.fault_count sink.old sink.new result }
    {
        let mut page = String::new(alloc);
        match self.put(&mut page) {
            Ok(()) => self.after(give(sink, page.as_bytes())),
            Err(NoMemory) => Status::NoMemory,
        }
    }

    /// Writes all of a text, and says how a call ends that is done with it.
    pub fn given<O: Sink>(sink: &mut O, text: &[u8]) -> Status
        ensures answer { IsOrGivesUp result Status.Done }
        ensures leaves { Leaves O.tells O.held O.fault_count sink.old sink.new result }
        ensures whole { IsTrue (O.tells sink.old) → result ≡ Status.Done → O.held sink.new ≡ O.held sink.old ++ text.now }
    {
        Status::Done.after(give(sink, text))
    }

    /// How the call ends where it means this answer, after a text was written or not.
    pub fn after(self, written: Result<(), Trouble>) -> Status
        ensures { result ≡ ended self written }
    {
        match written {
            Ok(()) => self,
            Err(Trouble::Failed) => Status::WriteFault,
            Err(Trouble::NoMemory) => Status::NoMemory,
        }
    }
}
