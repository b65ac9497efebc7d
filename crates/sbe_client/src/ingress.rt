// What clients send to the cluster.
ghost use Rattle.std.specs.Prelude.{◌≡◌, ◌↔◌, ◌⊎◌, Some, None, Ok, Err, IfOk};
ghost use Rattle.wire_prims.specs.Fields.{u16_at};
ghost use Rattle.wire_prims.specs.declared.fault.Bad.{Bad};
ghost use Rattle.wire_prims.specs.declared.fault.DecodeFault.{DecodeFault};
ghost use Rattle.sbe_client.specs.Reading.{ReadsIngress, first_fault_ingress, IsWhole};
ghost use Rattle.sbe_client.specs.Spelling.{ingress_spelling_of, HasIngressSpelling, session_spelling};

use crate::check::{Direction, block_end, check, variable};
use cl_base::{Bytes, NoMemory};
use std::alloc::Global;
use wire_prims::{DecodeFault, Field, get_i32, get_i64, message_of, put_counted};

/// A message of a client to the cluster.
#[derive(Debug, Drop)]
pub enum Ingress {
    /// Asks for a session.
    Connect {
        /// The number by which the client knows this connect.
        corr: i64,
        /// The stream on which the client listens.
        stream: i32,
        /// The channel on which the client listens. It has a spelling below 2^32 bytes.
        channel: Bytes,
    },
    /// Something for the services.
    Message {
        /// The leadership term that the client knows.
        term: i64,
        session: i64,
        payload: Bytes,
    },
    /// Ends a session.
    Close {
        term: i64,
        session: i64,
    },
    /// Keeps a session from ending by silence.
    KeepAlive {
        term: i64,
        session: i64,
    },
}

/// The bytes of a message: its stamp and its version are 0, its credentials are empty.
#[tactic(auto, unfolding(crate::specs::Spelling::ingress_spelling_of))]
pub fn encode_ingress(alloc: Global, m: &Ingress) -> Result<Bytes, NoMemory>
    requires { HasIngressSpelling m.now }
    ensures { IfOk result (λ bytes. bytes ≡ ingress_spelling_of m.now) }
{
    match m {
        Ingress::Connect {
            corr,
            stream,
            channel,
        } => {
            let fields = [Field::I64(*corr), Field::I32(*stream), Field::I32(0)];
            let mut out = message_of(alloc, 3, &fields)?;
            put_counted(&mut out, channel.as_slice())?;
            put_counted(&mut out, &[])?;
            Ok(Bytes::from_vec(out))
        }
        Ingress::Message {
            term,
            session,
            payload,
        } => {
            let fields = [Field::I64(*term), Field::I64(*session), Field::I64(0)];
            let mut out = message_of(alloc, 1, &fields)?;
            out.extend_from_slice(payload.as_slice())?;
            Ok(Bytes::from_vec(out))
        }
        Ingress::Close { term, session } => of_session(alloc, 4, *term, *session),
        Ingress::KeepAlive { term, session } => of_session(alloc, 5, *term, *session),
    }
}

/// A message that names a session and nothing else.
fn of_session(alloc: Global, template: u16, term: i64, session: i64) -> Result<Bytes, NoMemory>
    ensures { IfOk result (λ bytes. bytes ≡ session_spelling template term session) }
{
    let fields = [Field::I64(term), Field::I64(session)];
    Ok(Bytes::from_vec(message_of(alloc, template, &fields)?))
}

/// The message that the bytes read as. A newer schema's surplus is skipped, and so are the stamp of a message and the
/// version and the credentials of a connect.
#[tactic(auto, unfolding(crate::specs::Reading::first_fault_ingress))]
pub fn decode_ingress(alloc: Global, bytes: &[u8]) -> Result<Ingress, DecodeFault>
    ensures read { IfOk result (λ m. ReadsIngress bytes.now m) }
    ensures only { (m : Ingress) → ReadsIngress bytes.now m → (result ≡ Ok m) ⊎ (result ≡ Err DecodeFault.NoMemory) }
    ensures bad { (bad : Bad) → (result ≡ Err (DecodeFault.Bad bad)) ↔ (first_fault_ingress bytes.now ≡ Some bad) }
{
    let template = check(bytes, Direction::ToCluster)?;
    Ok(read_ingress(alloc, bytes, template)?)
}

/// What a message that is all there says.
fn read_ingress(alloc: Global, bytes: &[u8], template: u16) -> Result<Ingress, NoMemory>
    requires template { template ≡ u16_at 2 bytes.now }
    requires whole { IsWhole Direction.ToCluster bytes.now }
    ensures { IfOk result (λ m. ReadsIngress bytes.now m) }
{
    let end = block_end(bytes);
    match template {
        1 => Ok(Ingress::Message {
            term: get_i64(bytes, 8),
            session: get_i64(bytes, 16),
            payload: Bytes::of(alloc, &bytes[end..])?,
        }),
        3 => Ok(Ingress::Connect {
            corr: get_i64(bytes, 8),
            stream: get_i32(bytes, 16),
            channel: variable(alloc, bytes, end)?,
        }),
        4 => Ok(Ingress::Close {
            term: get_i64(bytes, 8),
            session: get_i64(bytes, 16),
        }),
        _ => Ok(Ingress::KeepAlive {
            term: get_i64(bytes, 8),
            session: get_i64(bytes, 16),
        }),
    }
}
