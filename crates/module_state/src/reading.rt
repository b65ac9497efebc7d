// The parts of a module's state, taken from the front of a queue of pieces. Each call takes the pieces that it reads, and
// leaves the first that mustn't come in front.
ghost use Rattle.std.specs.Prelude.{◌≡◌, ◌≤◌, ◌+◌, ◌^◌, [], None, length, IfOk, option_copied, option_map};
ghost use Rattle.std.specs.List.{AllByRecursion};
ghost use Rattle.sbe_local.specs.Pieces.{HasPieceSpelling};
ghost use Rattle.module_state.specs.Recorded.{take_counters, take_pending, take_sessions, take_timers, take_waiting, is_above, IsCount};
ghost use Rattle.module_state.specs.Reading.{Reads, first_piece, left_by, head_in, count_in, passes, is_message, payload_in, message_in, is_session, session_value, session_in, timer_in};

use crate::counts::Counted;
use crate::head::Head;
use cl_base::limits::{SESSIONS_LIMIT, TIMERS_LIMIT};
use cl_base::{Bytes, NoMemory};
use pending_messages::Pending;
use sbe_local::Piece;
use session_manager::{Session, Sessions};
use std::alloc::Global;
use std::collections::VecDeque;
use timer_service::Timers;

// The piece in front.
fn front(pieces: &VecDeque<Piece>) -> Option<&Piece>
    ensures { option_copied result ≡ first_piece pieces.now.items }
{
    pieces.front()
}

fn head_of(piece: Option<&Piece>) -> Option<Head>
    ensures { result ≡ head_in (option_copied piece.entry) }
{
    match piece {
        Some(
            Piece::Module {
                next_session,
                actions,
                entries,
                leader,
            },
        ) => Some(Head {
            next_id: *next_session,
            counts: Counted::of(actions.unsigned_abs(), entries.unsigned_abs(), *leader),
        }),
        _ => None,
    }
}

/// Takes the first piece. None where it isn't in front.
pub fn take_head(pieces: &mut VecDeque<Piece>) -> Option<Head>
    ensures head { result ≡ head_in (first_piece pieces.old.items) }
    ensures left { pieces.new.items ≡ left_by result pieces.old.items }
{
    let head = head_of(front(pieces))?;
    pieces.pop_front();
    Some(head)
}

// What the Counter of a service says: how many were appended, and how many of those offered weren't.
fn count_of(piece: Option<&Piece>, service: u8) -> Option<(u64, u64)>
    ensures { result ≡ count_in service (option_copied piece.entry) }
{
    match piece {
        Some(
            Piece::Counter {
                offered,
                appended,
                service: of,
            },
        ) if *of == service && *appended <= *offered => {
            let done = appended.unsigned_abs();
            Some((done, offered.unsigned_abs().saturating_sub(done)))
        }
        _ => None,
    }
}

// Takes the Counter of a service. None where it isn't in front.
fn take_count(pieces: &mut VecDeque<Piece>, service: u8) -> Option<(u64, u64)>
    ensures count { result ≡ count_in service (first_piece pieces.old.items) }
    ensures left { pieces.new.items ≡ left_by result pieces.old.items }
{
    let count = count_of(front(pieces), service)?;
    pieces.pop_front();
    Some(count)
}

/// Takes the Counters of so many services. None where one isn't in front.
pub fn take_counters(
    alloc: Global,
    services: u8,
    pieces: &mut VecDeque<Piece>,
) -> Result<Option<Vec<(u64, u64)>>, NoMemory>
    ensures { IfOk result (λ counts. Reads (option_map (λ v. v.items) counts) pieces.new.items (take_counters services 0 pieces.old.items)) }
{
    let mut counts = Vec::new(alloc);
    for service in 0..services {
        let Some(count) = take_count(pieces, service) else {
            return Ok(None);
        };
        match counts.push(count) {
            Ok(()) => {}
            Err(_) => return Err(NoMemory),
        }
    }
    Ok(Some(counts))
}

// A piece is the Pending of a service with this number.
fn is_message(piece: Option<&Piece>, service: u8, number: u64) -> bool
    requires { number ≤ 2 ^ 47 }
    ensures { result ≡ passes (is_message service number) (option_copied piece.entry) }
{
    match piece {
        Some(
            Piece::Pending {
                number: n,
                service: of,
                ..
            },
        ) => *of == service && *n == number as i64,
        _ => false,
    }
}

fn payload_of(piece: Piece) -> Option<Bytes>
    ensures { result ≡ payload_in piece }
{
    match piece {
        Piece::Pending { payload, .. } => Some(payload),
        _ => None,
    }
}

// Takes the payload of the Pending of a service with this number. None where it isn't in front.
fn take_message(pieces: &mut VecDeque<Piece>, service: u8, number: u64) -> Option<Bytes>
    requires { number ≤ 2 ^ 47 }
    ensures payload { result ≡ message_in service number (first_piece pieces.old.items) }
    ensures left { pieces.new.items ≡ left_by result pieces.old.items }
{
    if !is_message(front(pieces), service, number) {
        return None;
    }
    payload_of(pieces.pop_front()?)
}

// Takes the payloads of a service that wait, so many above those appended. None where one isn't in front.
fn take_waiting(
    alloc: Global,
    pieces: &mut VecDeque<Piece>,
    service: u8,
    appended: u64,
    count: u64,
) -> Result<Option<VecDeque<Bytes>>, NoMemory>
    requires { appended + count ≤ 2 ^ 47 }
    ensures { IfOk result (λ waiting. Reads (option_map (λ q. q.items) waiting) pieces.new.items (take_waiting count service appended pieces.old.items)) }
{
    let mut waiting = VecDeque::new(alloc);
    for before in 0..count {
        let Some(payload) = take_message(pieces, service, appended + before + 1) else {
            return Ok(None);
        };
        match waiting.push_back(payload) {
            Ok(()) => {}
            Err(_) => return Err(NoMemory),
        }
    }
    Ok(Some(waiting))
}

/// Takes the messages that wait, by the counts of the services. None where one isn't in front.
pub fn take_pending(
    alloc: Global,
    pieces: &mut VecDeque<Piece>,
    counts: &[(u64, u64)],
) -> Result<Option<Pending>, NoMemory>
    requires few { length counts.now ≤ 3 }
    requires counts { AllByRecursion IsCount counts.now }
    ensures { IfOk result (λ pending. Reads pending pieces.new.items (take_pending 0 counts.now pieces.old.items)) }
{
    let mut pending = Pending::new(alloc, 0)?;
    let mut service = 0;
    for count in counts.iter() {
        let Some(waiting) = take_waiting(alloc, pieces, service, count.0, count.1)? else {
            return Ok(None);
        };
        pending.restore(count.0, waiting)?;
        service += 1;
    }
    Ok(Some(pending))
}

// A name is above the last one, where there is one.
fn is_above(last: Option<i64>, name: i64) -> bool
    ensures { result ≡ is_above last name }
{
    match last {
        Some(last) => last < name,
        None => true,
    }
}

// A piece is a Session above the last one, below the next id.
fn is_session(piece: Option<&Piece>, next_id: i64, last: Option<i64>) -> bool
    ensures { result ≡ passes (is_session next_id last) (option_copied piece.entry) }
{
    match piece {
        Some(Piece::Session { id, .. }) => is_above(last, *id) && *id < next_id,
        _ => false,
    }
}

fn session_of(piece: Piece) -> Option<Session>
    ensures { result ≡ session_value piece }
{
    match piece {
        Piece::Session {
            id,
            corr,
            stamp,
            stream,
            closing,
            channel,
        } => Some(Session {
            id,
            corr,
            stamp,
            stream,
            closing,
            channel,
        }),
        _ => None,
    }
}

// Takes the session in front, where it is above the last one and below the next id.
fn take_session(pieces: &mut VecDeque<Piece>, next_id: i64, last: Option<i64>) -> Option<Session>
    ensures session { result ≡ session_in next_id last (first_piece pieces.old.items) }
    ensures left { pieces.new.items ≡ left_by result pieces.old.items }
{
    if !is_session(front(pieces), next_id, last) {
        return None;
    }
    session_of(pieces.pop_front()?)
}

/// Takes the sessions in front, as long as they come by rising id below the next one, and are at most 1,024.
pub fn take_sessions(
    alloc: Global,
    pieces: &mut VecDeque<Piece>,
    next_id: i64,
) -> Result<Sessions, NoMemory>
    ensures taken { IfOk result (λ s. take_sessions next_id None 1024 pieces.old.items ≡ (s.table.listed, pieces.new.items)) }
    ensures next { IfOk result (λ s. s.table.next_id ≡ next_id) }
{
    let mut sessions = Sessions::before(alloc, next_id);
    let mut last = None;
    for _ in 0..SESSIONS_LIMIT {
        let Some(session) = take_session(pieces, next_id, last) else {
            return Ok(sessions);
        };
        last = Some(session.id);
        sessions.restore(session)?;
    }
    Ok(sessions)
}

// The Timer in front, where its name is above the last one.
fn timer_of(piece: Option<&Piece>, last: Option<i64>) -> Option<(i64, i64)>
    ensures { result ≡ timer_in last (option_copied piece.entry) }
{
    match piece {
        Some(Piece::Timer { corr, deadline }) if is_above(last, *corr) => Some((*corr, *deadline)),
        _ => None,
    }
}

// Takes the Timer in front, where its name is above the last one.
fn take_timer(pieces: &mut VecDeque<Piece>, last: Option<i64>) -> Option<(i64, i64)>
    ensures timer { result ≡ timer_in last (first_piece pieces.old.items) }
    ensures left { pieces.new.items ≡ left_by result pieces.old.items }
{
    let timer = timer_of(front(pieces), last)?;
    pieces.pop_front();
    Some(timer)
}

/// Takes the timers in front, as long as they come by rising name, and are at most 4,096.
pub fn take_timers(alloc: Global, pieces: &mut VecDeque<Piece>) -> Result<Timers, NoMemory>
    requires { AllByRecursion HasPieceSpelling pieces.old.items }
    ensures { IfOk result (λ t. take_timers None 4096 pieces.old.items ≡ (t, pieces.new.items)) }
{
    let mut timers = Timers::new(alloc);
    let mut last = None;
    for _ in 0..TIMERS_LIMIT {
        let Some((corr, deadline)) = take_timer(pieces, last) else {
            return Ok(timers);
        };
        timers.schedule(corr, deadline)?;
        last = Some(corr);
    }
    Ok(timers)
}
