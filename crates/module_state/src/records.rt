// The pieces of a module's snapshot, between its markers.
ghost use Rattle.std.specs.Prelude.{◌≡◌, ℤ, pos, ◌≤◌, ◌<◌, ◌^◌, [], ◌∷◌, ◌++◌, OnOk, IfSome, length, map, option_copied};
ghost use Rattle.std.specs.List.{AllByRecursion};
ghost use Rattle.wire_prims.specs.StrictLaws.{Between};
ghost use Rattle.sbe_local.specs.declared.piece.Piece.TheVariants as pieces;
ghost use Rattle.sbe_local.specs.Pieces.{HasPieceSpelling, piece_spelling_of};
ghost use Rattle.pending_messages.specs.Pending.{offers_at};
ghost use Rattle.module_state.specs.Ranges.{CountsFit, OffersFit, SessionFits, TimerFits};
ghost use Rattle.module_state.specs.Recorded.{counter_of, counters, waiting_pieces, pending_pieces, session_pieces, timer_pieces};
ghost use Rattle.module_state.specs.Restored.{session_record};

use crate::counts::Counted;
use cl_base::{Bytes, List, NoMemory};
use pending_messages::Pending;
use sbe_local::{Piece, encode_piece};
use session_manager::{Session, Sessions};
use std::alloc::Global;
use timer_service::Timers;

// Adds a piece.
fn add(alloc: Global, found: &mut List<Bytes>, piece: &Piece) -> Result<(), NoMemory>
    requires { HasPieceSpelling piece.now }
    ensures { OnOk result (found.new ≡ found.old ++ piece_spelling_of piece.now ∷ []) }
{
    let record = encode_piece(alloc, piece)?;
    found.push(record)
}

/// Adds the piece of the next session's id and of the counts.
pub fn add_head(
    alloc: Global,
    found: &mut List<Bytes>,
    next_session: i64,
    counts: &Counted,
) -> Result<(), NoMemory>
    requires next { Between (pos 1) (pos (2 ^ 62)) next_session }
    requires counts { CountsFit counts.now }
    ensures { OnOk result (found.new ≡ found.old ++ piece_spelling_of (pieces.Module next_session (pos counts.now.actions) (pos counts.now.entries) counts.now.leader) ∷ []) }
{
    let piece = Piece::Module {
        next_session,
        actions: counts.actions() as i64,
        entries: counts.entries() as i64,
        leader: counts.leader(),
    };
    add(alloc, found, &piece)
}

// Adds the Counter of a service.
fn add_counter(
    alloc: Global,
    found: &mut List<Bytes>,
    pending: &Pending,
    service: u8,
) -> Result<(), NoMemory>
    requires service { service < length pending.now }
    requires few { service ≤ 2 }
    requires fit { OffersFit (offers_at service pending.now) }
    ensures { OnOk result (found.new ≡ found.old ++ piece_spelling_of (counter_of service (offers_at service pending.now)) ∷ []) }
{
    let appended = pending.appended_count(service);
    let waiting = pending.waiting(service).len() as u64;
    let piece = Piece::Counter {
        offered: (appended + waiting) as i64,
        appended: appended as i64,
        service,
    };
    add(alloc, found, &piece)
}

/// Adds one Counter for each service.
pub fn add_counters(
    alloc: Global,
    found: &mut List<Bytes>,
    pending: &Pending,
) -> Result<(), NoMemory>
    requires few { length pending.now ≤ 3 }
    requires fit { AllByRecursion OffersFit pending.now }
    ensures { OnOk result (found.new ≡ found.old ++ map piece_spelling_of (counters 0 pending.now)) }
{
    for service in 0..pending.len() {
        add_counter(alloc, found, pending, service as u8)?;
    }
    Ok(())
}

// Adds the messages of a service that wait.
fn add_waiting(
    alloc: Global,
    found: &mut List<Bytes>,
    pending: &Pending,
    service: u8,
) -> Result<(), NoMemory>
    requires service { service < length pending.now }
    requires few { service ≤ 2 }
    requires fit { OffersFit (offers_at service pending.now) }
    ensures { OnOk result (found.new ≡ found.old ++ map piece_spelling_of (waiting_pieces service (offers_at service pending.now).appended (offers_at service pending.now).waiting)) }
{
    let mut number = pending.appended_count(service);
    for payload in pending.waiting(service).iter() {
        number += 1;
        let piece = Piece::Pending {
            number: number as i64,
            service,
            payload: payload.copy()?,
        };
        add(alloc, found, &piece)?;
    }
    Ok(())
}

/// Adds the messages that wait, by service and number.
pub fn add_pending(
    alloc: Global,
    found: &mut List<Bytes>,
    pending: &Pending,
) -> Result<(), NoMemory>
    requires few { length pending.now ≤ 3 }
    requires fit { AllByRecursion OffersFit pending.now }
    ensures { OnOk result (found.new ≡ found.old ++ map piece_spelling_of (pending_pieces 0 pending.now)) }
{
    for service in 0..pending.len() {
        add_waiting(alloc, found, pending, service as u8)?;
    }
    Ok(())
}

// Adds a session that is there.
fn add_session(
    alloc: Global,
    found: &mut List<Bytes>,
    session: Option<&Session>,
) -> Result<(), NoMemory>
    requires { IfSome (option_copied session) SessionFits }
    ensures { OnOk result (found.new ≡ found.old ++ session_record (option_copied session.entry)) }
{
    let Some(session) = session else {
        return Ok(());
    };
    let piece = Piece::Session {
        id: session.id,
        corr: session.corr,
        stamp: session.stamp,
        stream: session.stream,
        closing: session.closing,
        channel: session.channel.copy()?,
    };
    add(alloc, found, &piece)
}

/// Adds the open sessions, by rising id.
pub fn add_sessions(
    alloc: Global,
    found: &mut List<Bytes>,
    sessions: &Sessions,
) -> Result<(), NoMemory>
    requires { AllByRecursion SessionFits sessions.now.table.listed }
    ensures { OnOk result (found.new ≡ found.old ++ map piece_spelling_of (session_pieces sessions.now.table.listed)) }
{
    let count = sessions.open_count();
    for place in 0..count {
        add_session(alloc, found, sessions.at(place))?;
    }
    Ok(())
}

/// Adds the armed timers, by rising name.
pub fn add_timers(alloc: Global, found: &mut List<Bytes>, timers: &Timers) -> Result<(), NoMemory>
    requires { AllByRecursion TimerFits timers.now }
    ensures { OnOk result (found.new ≡ found.old ++ map piece_spelling_of (timer_pieces timers.now)) }
{
    let listed = timers.listed()?;
    for timer in listed.as_slice().iter() {
        let piece = Piece::Timer {
            corr: timer.0,
            deadline: timer.1,
        };
        add(alloc, found, &piece)?;
    }
    Ok(())
}
