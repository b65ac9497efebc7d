// What the cluster sends to clients.
ghost use Rattle.std.specs.Prelude.{◌≡◌, ◌↔◌, ◌⊎◌, true, false, Some, None, Ok, Err, IfOk, MatchResult};
ghost use Rattle.wire_prims.specs.Fields.{u16_at, i32_at};
ghost use Rattle.wire_prims.specs.Header.{bad as fault};
ghost use Rattle.wire_prims.specs.declared.fault.Bad.{Bad};
ghost use Rattle.wire_prims.specs.declared.fault.DecodeFault.{DecodeFault};
ghost use Rattle.sbe_client.specs.Reading.{ReadsEgress, first_fault_egress, IsWhole, is_code};
ghost use Rattle.sbe_client.specs.Spelling.{egress_spelling_of, HasEgressSpelling};

use crate::check::{Direction, block_end, check};
use cl_base::{Bytes, NoMemory};
use std::alloc::Global;
use wire_prims::{Bad, BadCause, DecodeFault, Field, get_i32, get_i64, message_of, put_counted};

/// A message of the cluster to a client.
#[derive(Debug, Drop)]
pub enum Egress {
    /// What became of a session, or of a connect.
    SessionEvent {
        /// The session, or -1 where there is none.
        session: i64,
        /// The number by which the client knows its connect.
        corr: i64,
        /// The leadership term that the member knows, or -1.
        term: i64,
        /// The leader that the member knows, or -1.
        leader: i32,
        /// 0 it is open, 1 an error, 2 another member leads, 3 it may not, 4 it is closed.
        code: u8,
    },
    /// Something that a service sends to a session.
    Message {
        term: i64,
        session: i64,
        /// The time of the entry that it answers, in ms.
        stamp: i64,
        payload: Bytes,
    },
    /// A member leads from here on.
    NewLeader {
        term: i64,
        session: i64,
        leader: i32,
    },
}

/// The bytes of a message: the text of a session event and the addresses of a new leader are empty.
#[tactic(auto, unfolding(crate::specs::Spelling::egress_spelling_of))]
pub fn encode_egress(alloc: Global, m: &Egress) -> Result<Bytes, NoMemory>
    requires { HasEgressSpelling m.now }
    ensures { IfOk result (λ bytes. bytes ≡ egress_spelling_of m.now) }
{
    match m {
        Egress::SessionEvent {
            session,
            corr,
            term,
            leader,
            code,
        } => {
            let fields = [
                Field::I64(*session),
                Field::I64(*corr),
                Field::I64(*term),
                Field::I32(*leader),
                Field::I32(*code as i32),
            ];
            let mut out = message_of(alloc, 2, &fields)?;
            put_counted(&mut out, &[])?;
            Ok(Bytes::from_vec(out))
        }
        Egress::Message {
            term,
            session,
            stamp,
            payload,
        } => {
            let fields = [Field::I64(*term), Field::I64(*session), Field::I64(*stamp)];
            let mut out = message_of(alloc, 1, &fields)?;
            out.extend_from_slice(payload.as_slice())?;
            Ok(Bytes::from_vec(out))
        }
        Egress::NewLeader {
            term,
            session,
            leader,
        } => {
            let fields = [Field::I64(*term), Field::I64(*session), Field::I32(*leader)];
            let mut out = message_of(alloc, 6, &fields)?;
            put_counted(&mut out, &[])?;
            Ok(Bytes::from_vec(out))
        }
    }
}

/// The message that the bytes read as. A newer schema's surplus is skipped, and so are the text of a session event and
/// the addresses of a new leader.
#[tactic(auto, unfolding(crate::specs::Reading::first_fault_egress))]
pub fn decode_egress(alloc: Global, bytes: &[u8]) -> Result<Egress, DecodeFault>
    ensures read { IfOk result (λ m. ReadsEgress bytes.now m) }
    ensures only { (m : Egress) → ReadsEgress bytes.now m → (result ≡ Ok m) ⊎ (result ≡ Err DecodeFault.NoMemory) }
    ensures bad { (bad : Bad) → (result ≡ Err (DecodeFault.Bad bad)) ↔ (first_fault_egress bytes.now ≡ Some bad) }
{
    match check(bytes, Direction::ToClient)? {
        1 => Ok(message(alloc, bytes)?),
        2 => Ok(session_event(bytes)?),
        _ => Ok(new_leader(bytes)),
    }
}

fn message(alloc: Global, bytes: &[u8]) -> Result<Egress, NoMemory>
    requires template { u16_at 2 bytes.now ≡ 1 }
    requires whole { IsWhole Direction.ToClient bytes.now }
    ensures { IfOk result (λ m. ReadsEgress bytes.now m) }
{
    let payload = Bytes::of(alloc, &bytes[block_end(bytes)..])?;
    Ok(Egress::Message {
        term: get_i64(bytes, 8),
        session: get_i64(bytes, 16),
        stamp: get_i64(bytes, 24),
        payload,
    })
}

fn session_event(bytes: &[u8]) -> Result<Egress, Bad>
    requires template { u16_at 2 bytes.now ≡ 2 }
    requires whole { IsWhole Direction.ToClient bytes.now }
    ensures { MatchResult result (λ m. ReadsEgress bytes.now m) (λ bad. (is_code (i32_at 36 bytes.now) ≡ false) × (bad ≡ fault 36 BadCause.Value)) }
{
    let code = get_i32(bytes, 36);
    if !(0..=4).contains(&code) {
        return Err(Bad {
            place: 36,
            cause: BadCause::Value,
        });
    }
    Ok(Egress::SessionEvent {
        session: get_i64(bytes, 8),
        corr: get_i64(bytes, 16),
        term: get_i64(bytes, 24),
        leader: get_i32(bytes, 32),
        code: code as u8,
    })
}

fn new_leader(bytes: &[u8]) -> Egress
    requires template { u16_at 2 bytes.now ≡ 6 }
    requires whole { IsWhole Direction.ToClient bytes.now }
    ensures { ReadsEgress bytes.now result }
{
    Egress::NewLeader {
        term: get_i64(bytes, 8),
        session: get_i64(bytes, 16),
        leader: get_i32(bytes, 24),
    }
}
