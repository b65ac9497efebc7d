// What the services of the members consumed.
ghost use Rattle.run_listing.specs.Sinks.{Writes};

use cl_base::{Disk, Sink, Trouble};
use run_report::{Page, RunAt};
use run_seats::{Running, Seat, ServiceRun, first_number};

/// What the services of a running member consumed.
fn put_running<D: Disk, O: Sink>(
    page: &mut Page,
    sink: &mut O,
    member: u8,
    run: u64,
    running: &Running<D>,
) -> Result<(), Trouble>
    ensures { Writes O.tells O.held O.fault_count sink.old sink.new result }
{
    'each: for service in 0..running.services() {
        let inputs = running.inputs(service);
        let at = RunAt {
            member,
            service,
            run,
            from: first_number(running.base(), inputs.len()),
        };
        page.run(sink, at, inputs)?;
    }
    Ok(())
}

/// What the services of ended runs consumed.
fn put_ended<O: Sink>(
    page: &mut Page,
    sink: &mut O,
    member: u8,
    runs: &[ServiceRun],
) -> Result<(), Trouble>
    ensures { Writes O.tells O.held O.fault_count sink.old sink.new result }
{
    'each: for ended in runs {
        let at = RunAt {
            member,
            service: ended.service,
            run: ended.run,
            from: ended.from,
        };
        page.run(sink, at, ended.inputs.as_slice())?;
    }
    Ok(())
}

/// What each run of each service of a member consumed.
fn put_services<D: Disk + Drop, O: Sink>(
    seat: &Seat<D>,
    page: &mut Page,
    sink: &mut O,
) -> Result<(), Trouble>
    ensures { Writes O.tells O.held O.fault_count sink.old sink.new result }
{
    put_ended(page, sink, seat.member(), seat.ended())?;
    match seat.running() {
        Some(running) => put_running(page, sink, seat.member(), seat.run(), running),
        None => Ok(()),
    }
}

/// What each run of each service consumed, member by member. Each error has its cause, and what the sink held it still
/// holds.
pub fn report_services<D: Disk + Drop, O: Sink>(
    seats: &[Seat<D>],
    page: &mut Page,
    sink: &mut O,
) -> Result<(), Trouble>
    ensures { Writes O.tells O.held O.fault_count sink.old sink.new result }
{
    'each: for seat in seats {
        put_services(seat, page, sink)?;
    }
    Ok(())
}

/// How many entries all runs of all services of a member consumed, at most 2^64 - 1.
pub fn inputs_of<D: Disk + Drop>(seat: &Seat<D>) -> u64 {
    let mut count = 0u64;
    for ended in seat.ended() {
        count = count.saturating_add(ended.inputs.len() as u64);
    }
    if let Some(running) = seat.running() {
        for service in 0..running.services() {
            count = count.saturating_add(running.inputs(service).len() as u64);
        }
    }
    count
}
