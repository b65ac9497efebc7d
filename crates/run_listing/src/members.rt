// The lines of the members.
ghost use Rattle.std.specs.Prelude.{◌<◌, ◌+◌, ◌^◌, IfOk, length};
ghost use Rattle.run_listing.specs.Sinks.{Writes};

use crate::beside::{Beside, common, read_beside};
use cl_base::{Disk, Entry, MemberFault, Sink, Trouble};
use run_report::{MemberAt, Page};
use run_seats::{Mounted, Seat, Shown, Site, first_number};

/// The line of a running member, its own entries and its snapshots.
fn put_up<O: Sink>(
    page: &mut Page,
    sink: &mut O,
    member: u8,
    shown: Shown<'_>,
    printed: &[Entry],
) -> Result<(), Trouble>
    ensures { Writes O.tells O.held O.fault_count sink.old sink.new result }
{
    let ahead = shown.ahead;
    let begin = (shown.consumed as usize).min(printed.len());
    let end = ahead.len();
    let count = common(ahead, &printed[begin..]);
    let at = MemberAt {
        member,
        commit: Some(shown.commit),
        candidate: shown.candidate,
        entries: shown.entries,
        same: first_number(begin.saturating_add(count) as u64, end - count),
    };
    page.member(sink, at, &ahead[count..end], shown.sets)
}

/// A stopped member whose disk couldn't be read.
fn put_fault<O: Sink>(
    page: &mut Page,
    sink: &mut O,
    member: u8,
    fault: MemberFault,
) -> Result<(), Trouble>
    ensures { Writes O.tells O.held O.fault_count sink.old sink.new result }
{
    match fault {
        MemberFault::NoMemory => Err(Trouble::NoMemory),
        MemberFault::Damaged { file, place } => page.damaged(sink, member, file, place),
        MemberFault::Device | MemberFault::LogFull { .. } => page.unread(sink, member),
    }
}

/// The line of a stopped member, its own entries and its snapshots.
fn put_down<D: Disk, O: Sink>(
    page: &mut Page,
    sink: &mut O,
    member: u8,
    read: Result<Beside, MemberFault>,
    mounted: &Mounted<D>,
) -> Result<(), Trouble>
    requires { IfOk read (λ b. b.same + length b.own < 2 ^ 64) }
    ensures { Writes O.tells O.held O.fault_count sink.old sink.new result }
{
    match read {
        Ok(Beside { same, own }) => {
            let at = MemberAt {
                member,
                commit: None,
                candidate: mounted.candidate_term(),
                entries: mounted.entries(),
                same,
            };
            page.member(sink, at, own.as_slice(), mounted.sets())
        }
        Err(fault) => put_fault(page, sink, member, fault),
    }
}

/// The lines of a stopped member, whose disk is read for them.
fn report_down<D: Disk + Drop, O: Sink>(
    seat: &mut Seat<D>,
    site: &Site,
    page: &mut Page,
    sink: &mut O,
    printed: &[Entry],
) -> Result<(), Trouble>
    ensures { Writes O.tells O.held O.fault_count sink.old sink.new result }
{
    let member = seat.member();
    match seat.mount(site) {
        Some(Ok(mounted)) => {
            let mut mounted = mounted;
            let read = read_beside(site.alloc, printed, &mut mounted);
            let written = put_down(page, sink, member, read, &mounted);
            seat.unmount(mounted);
            written
        }
        Some(Err(fault)) => put_fault(page, sink, member, fault),
        None => Ok(()),
    }
}

/// The lines of a member.
fn report_member<D: Disk + Drop, O: Sink>(
    seat: &mut Seat<D>,
    site: &Site,
    page: &mut Page,
    sink: &mut O,
    printed: &[Entry],
) -> Result<(), Trouble>
    ensures { Writes O.tells O.held O.fault_count sink.old sink.new result }
{
    let member = seat.member();
    if let Some(running) = seat.running() {
        return put_up(page, sink, member, running.shown(), printed);
    }
    report_down(seat, site, page, sink, printed)
}

/// The lines of each member: its commit where it runs, its candidate term, the entries of its log that are not those of
/// the printed one, and its snapshots. The disk of a stopped member is read for them. Each error has its cause, and what
/// the sink held it still holds.
pub fn report_members<D: Disk + Drop, O: Sink>(
    seats: &mut [Seat<D>],
    site: &Site,
    page: &mut Page,
    sink: &mut O,
    printed: &[Entry],
) -> Result<(), Trouble>
    ensures { Writes O.tells O.held O.fault_count sink.old sink.new result }
{
    'each: for seat in seats.iter_mut() {
        report_member(seat, site, page, sink, printed)?;
    }
    Ok(())
}
