// The text of an entry's event.
ghost use Rattle.std.specs.Prelude.{◌≡◌, ◌++◌, OnOk, string_bytes};
ghost use Rattle.line_text.specs.Events.{term_text, open_front, open_text, message_text, service_text, timer_text, close_text, snapshot_text, event_text, bytes_text};

use crate::pieces::{put, put_hex, put_value, put_value32};
use cl_base::NoMemory;
use sbe_events::{Event, decode_event};
use wire_prims::DecodeFault;

fn put_term(page: &mut String, leader: i32, base: i64, stamp: i64) -> Result<(), NoMemory>
    ensures { OnOk result (string_bytes page.new ≡ string_bytes page.old ++ term_text leader base stamp) }
{
    put_value32(page, "term leader ", leader)?;
    put_value(page, " base ", base)?;
    put_value(page, " ts ", stamp)
}

fn put_open_front(page: &mut String, session: i64, stream: i32, corr: i64) -> Result<(), NoMemory>
    ensures { OnOk result (string_bytes page.new ≡ string_bytes page.old ++ open_front session stream corr) }
{
    put_value(page, "open ", session)?;
    put_value32(page, " stream ", stream)?;
    put_value(page, " corr ", corr)
}

fn put_open(
    page: &mut String,
    session: i64,
    stream: i32,
    corr: i64,
    stamp: i64,
    channel: &[u8],
) -> Result<(), NoMemory>
    ensures { OnOk result (string_bytes page.new ≡ string_bytes page.old ++ open_text session stream corr stamp channel.now) }
{
    put_open_front(page, session, stream, corr)?;
    put_value(page, " ts ", stamp)?;
    put(page, " channel ")?;
    put_hex(page, channel)
}

fn put_message(page: &mut String, session: i64, stamp: i64, payload: &[u8]) -> Result<(), NoMemory>
    ensures { OnOk result (string_bytes page.new ≡ string_bytes page.old ++ message_text session stamp payload.now) }
{
    write!(page, "message {session} ts {stamp} ")?;
    put_hex(page, payload)
}

fn put_service(
    page: &mut String,
    service: u8,
    number: i64,
    stamp: i64,
    payload: &[u8],
) -> Result<(), NoMemory>
    ensures { OnOk result (string_bytes page.new ≡ string_bytes page.old ++ service_text service number stamp payload.now) }
{
    write!(page, "service {service} {number} ts {stamp} ")?;
    put_hex(page, payload)
}

fn put_timer(page: &mut String, corr: i64, stamp: i64) -> Result<(), NoMemory>
    ensures { OnOk result (string_bytes page.new ≡ string_bytes page.old ++ timer_text corr stamp) }
{
    write!(page, "timer {corr} ts {stamp}")?;
    Ok(())
}

fn put_close(page: &mut String, session: i64, reason: u8, stamp: i64) -> Result<(), NoMemory>
    ensures { OnOk result (string_bytes page.new ≡ string_bytes page.old ++ close_text session reason stamp) }
{
    write!(page, "close {session} reason {reason} ts {stamp}")?;
    Ok(())
}

fn put_snapshot_event(page: &mut String, stamp: i64) -> Result<(), NoMemory>
    ensures { OnOk result (string_bytes page.new ≡ string_bytes page.old ++ snapshot_text stamp) }
{
    write!(page, "snapshot ts {stamp}")?;
    Ok(())
}

/// An event, without its term.
pub fn put_event(page: &mut String, event: &Event) -> Result<(), NoMemory>
    ensures { OnOk result (string_bytes page.new ≡ string_bytes page.old ++ event_text event.now) }
{
    match event {
        Event::Term {
            stamp,
            base,
            leader,
            ..
        } => put_term(page, *leader, *base, *stamp),
        Event::Opened {
            corr,
            session,
            stamp,
            stream,
            channel,
            ..
        } => put_open(page, *session, *stream, *corr, *stamp, channel.as_slice()),
        Event::Message {
            session,
            stamp,
            payload,
            ..
        } => put_message(page, *session, *stamp, payload.as_slice()),
        Event::ServiceMessage {
            service,
            number,
            stamp,
            payload,
            ..
        } => put_service(page, *service, *number, *stamp, payload.as_slice()),
        Event::Timer { corr, stamp, .. } => put_timer(page, *corr, *stamp),
        Event::Closed {
            session,
            stamp,
            reason,
            ..
        } => put_close(page, *session, *reason, *stamp),
        Event::Snapshot { stamp, .. } => put_snapshot_event(page, *stamp),
    }
}

/// The event that bytes spell. Bytes that spell none, which no log has, have no text.
#[tactic(auto, unfolding(sbe_events::specs::Spelling::event_of))]
pub fn put_bytes(page: &mut String, bytes: &[u8]) -> Result<(), NoMemory>
    ensures { OnOk result (string_bytes page.new ≡ string_bytes page.old ++ bytes_text bytes.now) }
{
    match decode_event(*page.allocator(), bytes) {
        Ok(event) => put_event(page, &event),
        Err(DecodeFault::Bad(_)) => Ok(()),
        Err(DecodeFault::NoMemory) => Err(NoMemory),
    }
}
