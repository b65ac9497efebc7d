// What a service asks of the module.
ghost use Rattle.std.specs.Prelude.{◌≡◌, ◌↔◌, ◌⊎◌, ◌≤◌, ◌<◌, ◌^◌, ◌++◌, List, [], ℕ, pos, Some, Ok, Err, IfOk, length};
ghost use Rattle.wire_prims.specs.Fields.{u16_at};
ghost use Rattle.wire_prims.specs.Strict.{message, block_size};
ghost use Rattle.wire_prims.specs.declared.fault.Bad.{Bad};
ghost use Rattle.wire_prims.specs.declared.fault.DecodeFault.{DecodeFault};
ghost use Rattle.sbe_local.specs.Messages.{Decodes};
ghost use Rattle.sbe_local.specs.Commands.{HasCommandSpelling, command_spelling_of, command_fault, first_fault_command, command_value, IsOffer};
ghost use Rattle.sbe_local.specs.declared.command.Command.{Command};

use crate::strict::{NUMBER, SERVICE, strict};
use cl_base::limits::PAYLOAD_LIMIT;
use cl_base::{Bytes, NoMemory};
use std::alloc::Global;
use wire_prims::{
    Bad, BadCause, DecodeFault, Field, Rule, Tail, bare, get_i32, get_i64, read_header, sender_of,
    session_of, with_rest,
};

/// One output of a service that asks something of the module.
#[derive(Debug, Drop)]
pub enum Command {
    /// Close a session.
    CloseSession {
        /// The session's id. It may be one that isn't open.
        session: i64,
    },
    /// Arm a timer, or move it where it is armed.
    Schedule {
        /// The timer's name.
        corr: i64,
        /// When it is due, in ms.
        deadline: i64,
    },
    /// Disarm a timer.
    Cancel {
        /// The timer's name.
        corr: i64,
    },
    /// Append a message of the service to the log.
    Offer {
        /// The service that offers, 0 to 2.
        service: u8,
        /// The message's number among those of its service, 1 to 2^47.
        number: i64,
        /// At most `PAYLOAD_LIMIT` bytes.
        payload: Bytes,
    },
    /// A snapshot of the service was taken.
    Ack {
        /// The place in the log at which it was taken, 0 to 2^62, in bytes.
        position: i64,
        /// The service, 0 to 2.
        service: i32,
    },
}

/// The command that the bytes spell, all of the bytes. Bad exactly where they spell none, with what is first wrong.
pub fn decode_command(alloc: Global, bytes: &[u8]) -> Result<Command, DecodeFault>
    // What is read has a spelling, which is these bytes.
    ensures spelled { IfOk result (λ c. HasCommandSpelling c × (command_spelling_of c ≡ bytes.now)) }
    // What has this spelling is read, unless memory runs out.
    ensures only { (c : Command) → HasCommandSpelling c → command_spelling_of c ≡ bytes.now → (result ≡ Ok c) ⊎ (result ≡ Err DecodeFault.NoMemory) }
    ensures bad { (b : Bad) → (result ≡ Err (DecodeFault.Bad b)) ↔ (first_fault_command bytes.now ≡ Some b) }
{
    read_command(alloc, bytes)
}

#[tactic(auto, unfolding(crate::specs::Commands::first_fault_command))]
fn read_command(alloc: Global, bytes: &[u8]) -> Result<Command, DecodeFault>
    ensures { Decodes result (first_fault_command bytes.now) (command_value (u16_at 2 bytes.now) bytes.now) }
{
    let header = read_header(bytes)?;
    match header.template {
        1 => offer(alloc, bytes),
        30 => close_session(bytes),
        31 => schedule(bytes),
        32 => cancel(bytes),
        33 => ack(bytes),
        _ => Err(DecodeFault::Bad(Bad {
            place: 2,
            cause: BadCause::Template,
        })),
    }
}

fn offer(alloc: Global, bytes: &[u8]) -> Result<Command, DecodeFault>
    requires { 8 ≤ length bytes.now }
    ensures { Decodes result (command_fault 1 bytes.now) (command_value 1 bytes.now) }
{
    let rules = [
        Rule::Wide { low: -1, high: -1 },
        Rule::Service,
        Rule::Wide { low: 0, high: 0 },
    ];
    let tail = Tail::Rest {
        limit: PAYLOAD_LIMIT,
    };
    strict(bytes, &rules, tail)?;
    let (service, number) = sender_of(get_i64(bytes, 16));
    Ok(Command::Offer {
        service,
        number,
        payload: Bytes::of(alloc, &bytes[32..])?,
    })
}

fn close_session(bytes: &[u8]) -> Result<Command, DecodeFault>
    requires { 8 ≤ length bytes.now }
    ensures { Decodes result (command_fault 30 bytes.now) (command_value 30 bytes.now) }
{
    strict(bytes, &[Rule::AnyWide], Tail::Nothing)?;
    Ok(Command::CloseSession {
        session: get_i64(bytes, 8),
    })
}

fn schedule(bytes: &[u8]) -> Result<Command, DecodeFault>
    requires { 8 ≤ length bytes.now }
    ensures { Decodes result (command_fault 31 bytes.now) (command_value 31 bytes.now) }
{
    strict(bytes, &[Rule::AnyWide, Rule::AnyWide], Tail::Nothing)?;
    Ok(Command::Schedule {
        corr: get_i64(bytes, 8),
        deadline: get_i64(bytes, 16),
    })
}

fn cancel(bytes: &[u8]) -> Result<Command, DecodeFault>
    requires { 8 ≤ length bytes.now }
    ensures { Decodes result (command_fault 32 bytes.now) (command_value 32 bytes.now) }
{
    strict(bytes, &[Rule::AnyWide], Tail::Nothing)?;
    Ok(Command::Cancel {
        corr: get_i64(bytes, 8),
    })
}

fn ack(bytes: &[u8]) -> Result<Command, DecodeFault>
    requires { 8 ≤ length bytes.now }
    ensures { Decodes result (command_fault 33 bytes.now) (command_value 33 bytes.now) }
{
    strict(bytes, &[NUMBER, SERVICE], Tail::Nothing)?;
    Ok(Command::Ack {
        position: get_i64(bytes, 8),
        service: get_i32(bytes, 16),
    })
}

/// The one spelling of a command.
pub fn encode_command(alloc: Global, c: &Command) -> Result<Bytes, NoMemory>
    requires { HasCommandSpelling c.now }
    ensures spelled { IfOk result (λ bytes. bytes ≡ command_spelling_of c.now) }
    // No other command has this spelling.
    ensures alone { (other : Command) → HasCommandSpelling other → command_spelling_of other ≡ command_spelling_of c.now → other ≡ c.now }
    // Nor does another one's spelling begin with it, unless it is that of an offer.
    ensures prefix_free { (other : Command) (rest : List ℕ) → HasCommandSpelling other → command_spelling_of other ≡ command_spelling_of c.now ++ rest → (rest ≡ []) ⊎ IsOffer c.now }
{
    spell(alloc, c)
}

#[tactic(auto, unfolding(crate::specs::Commands::command_spelling_of))]
fn spell(alloc: Global, c: &Command) -> Result<Bytes, NoMemory>
    requires { HasCommandSpelling c.now }
    ensures { IfOk result (λ bytes. bytes ≡ command_spelling_of c.now) }
{
    match c {
        Command::CloseSession { session } => bare(alloc, 30, &[Field::I64(*session)]),
        Command::Schedule { corr, deadline } => {
            bare(alloc, 31, &[Field::I64(*corr), Field::I64(*deadline)])
        }
        Command::Cancel { corr } => bare(alloc, 32, &[Field::I64(*corr)]),
        Command::Offer {
            service,
            number,
            payload,
        } => {
            let session = session_of(*service, *number);
            let fields = [Field::I64(-1), Field::I64(session), Field::I64(0)];
            with_rest(alloc, 1, &fields, payload.as_slice())
        }
        Command::Ack { position, service } => {
            bare(alloc, 33, &[Field::I64(*position), Field::I32(*service)])
        }
    }
}
