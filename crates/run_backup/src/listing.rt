// The backup's lines of the report.
ghost use Rattle.run_listing.specs.Sinks.{Writes};

use crate::copying::Copying;
use crate::node::BackupNode;
use cl_base::{Disk, Entry, MemberFault, Sink, Trouble};
use entry_log::LogIndex;
use run_report::{BackupAt, Page};
use run_seats::Site;

/// How many entries of a log, from its front, have the terms and the lengths of those of another one.
fn alike(index: &LogIndex, printed: &[Entry]) -> u64 {
    let count = index.entries().min(printed.len() as u64);
    for at in 0..count {
        let entry = &printed[at as usize];
        if index.term_at(at + 1) != entry.term || index.event_len(at) != entry.bytes.len() as u64 {
            return at;
        }
    }
    count
}

/// How many entries of a log on a disk, from its front, are those of another one.
fn read_same<D: Disk>(copying: &mut Copying<D>, printed: &[Entry]) -> Result<u64, MemberFault> {
    let count = copying.entries().min(printed.len() as u64);
    for at in 0..count {
        let entry = copying.read(at)?;
        let other = &printed[at as usize];
        if entry.term != other.term || entry.bytes.as_slice() != other.bytes.as_slice() {
            return Ok(at);
        }
    }
    Ok(count)
}

/// The lines of a backup, of which so many entries are those of the printed log.
fn put_at<D: Disk, O: Sink>(
    page: &mut Page,
    sink: &mut O,
    copying: &Copying<D>,
    same: u64,
) -> Result<(), Trouble>
    ensures { Writes O.tells O.held O.fault_count sink.old sink.new result }
{
    let at = BackupAt {
        entries: copying.entries(),
        same,
    };
    page.backup(sink, at, copying.sets())
}

/// The line of a stopped backup whose disk can't be read.
fn put_fault<O: Sink>(page: &mut Page, sink: &mut O, fault: MemberFault) -> Result<(), Trouble>
    ensures { Writes O.tells O.held O.fault_count sink.old sink.new result }
{
    match fault {
        MemberFault::NoMemory => Err(Trouble::NoMemory),
        MemberFault::Damaged { file, place } => page.backup_damaged(sink, file, place),
        MemberFault::Device | MemberFault::LogFull { .. } => page.backup_unread(sink),
    }
}

/// The lines of a stopped backup, whose disk is mounted for them.
fn put_down<D: Disk, O: Sink>(
    page: &mut Page,
    sink: &mut O,
    copying: &mut Copying<D>,
    printed: &[Entry],
) -> Result<(), Trouble>
    ensures { Writes O.tells O.held O.fault_count sink.old sink.new result }
{
    match read_same(copying, printed) {
        Ok(same) => put_at(page, sink, copying, same),
        Err(fault) => put_fault(page, sink, fault),
    }
}

/// The lines of a backup: how many entries its log has, how many of them are those of the printed log, and its snapshots.
/// Of a backup that runs the terms and the lengths of the entries are compared; the disk of a stopped one is read. Each
/// error has its cause, and what the sink held it still holds.
pub fn report_backup<D: Disk + Drop, O: Sink>(
    node: &mut BackupNode<D>,
    site: &Site,
    page: &mut Page,
    sink: &mut O,
    printed: &[Entry],
) -> Result<(), Trouble>
    ensures { Writes O.tells O.held O.fault_count sink.old sink.new result }
{
    if let Some(copying) = node.running() {
        let same = alike(copying.index(), printed);
        return put_at(page, sink, copying, same);
    }
    match node.mount(site.services()) {
        Some(Ok(copying)) => {
            let mut copying = copying;
            let written = put_down(page, sink, &mut copying, printed);
            node.unmount(copying);
            written
        }
        Some(Err(fault)) => put_fault(page, sink, fault),
        None => Ok(()),
    }
}
