// What an event, and a command of a service, makes of each part of the module.
ghost use Rattle.std.specs.Prelude.{◌≡◌, ◌<◌, OnOk, OnErr, length};
ghost use Rattle.pending_messages.specs.Pending.{at_service, offered};
ghost use Rattle.module_state.specs.Ranges.{AskFits};
ghost use Rattle.module_state.specs.Dispatch.{timers_after, pending_after, sessions_asked, timers_asked, pending_asked};

use cl_base::limits::PAYLOAD_LIMIT;
use cl_base::{Bytes, NoMemory};
use pending_messages::Pending;
use sbe_events::Event;
use sbe_local::Command;
use session_manager::Sessions;
use timer_service::Timers;

pub fn timers_take(timers: &mut Timers, e: &Event)
    ensures { timers.new ≡ timers_after timers.old e.now }
{
    match e {
        Event::Timer { corr, stamp, .. } => {
            timers.fire(*corr, *stamp);
        }
        _ => {}
    }
}

pub fn pending_take(pending: &mut Pending, e: &Event)
    ensures { pending.new ≡ pending_after pending.old e.now }
{
    match e {
        Event::ServiceMessage { service, .. } => {
            if (*service as usize) < pending.len() {
                pending.appended(*service);
            }
        }
        _ => {}
    }
}

pub fn sessions_ask(sessions: &mut Sessions, service: u8, c: &Command)
    ensures { sessions.new.table ≡ sessions_asked sessions.old.table service c.now }
{
    match c {
        Command::CloseSession { session } => {
            sessions.mark(*session);
        }
        _ => {}
    }
}

pub fn timers_ask(timers: &mut Timers, service: u8, c: &Command) -> Result<(), NoMemory>
    ensures ok { OnOk result (timers.new ≡ timers_asked timers.old service c.now) }
    ensures fits { AskFits c.now }
    ensures err { OnErr result (timers.new ≡ timers.old) }
{
    match c {
        Command::Schedule { corr, deadline } => {
            timers.schedule(*corr, *deadline)?;
            Ok(())
        }
        Command::Cancel { corr } => {
            timers.cancel(*corr);
            Ok(())
        }
        _ => Ok(()),
    }
}

pub fn pending_ask(pending: &mut Pending, service: u8, c: &Command) -> Result<(), NoMemory>
    ensures ok { OnOk result (pending.new ≡ pending_asked pending.old service c.now) }
    ensures err { OnErr result (pending.new ≡ pending.old) }
{
    match c {
        Command::Offer { payload, .. } => {
            if (service as usize) < pending.len() {
                offer(pending, service, payload)
            } else {
                Ok(())
            }
        }
        _ => Ok(()),
    }
}

// An offer above the limit, or past 2^47, counts as not made.
fn offer(pending: &mut Pending, service: u8, payload: &Bytes) -> Result<(), NoMemory>
    requires { service < length pending.old }
    ensures ok { OnOk result (pending.new ≡ at_service service (λ o. offered o payload.now) pending.old) }
    ensures err { OnErr result (pending.new ≡ pending.old) }
{
    if payload.len() > PAYLOAD_LIMIT {
        return Ok(());
    }
    if !pending.has_room(service) {
        return Ok(());
    }
    let payload = payload.copy()?;
    pending.offered(service, payload)?;
    Ok(())
}
