// The pieces of a snapshot.
ghost use Rattle.std.specs.Prelude.{◌≡◌, ◌↔◌, ◌⊎◌, ◌<◌, ◌≤◌, ◌^◌, ◌++◌, ◌∷◌, List, [], ℕ, pos, Some, Ok, Err, IfOk, length};
ghost use Rattle.wire_prims.specs.Fields.{u16_at, u32_at};
ghost use Rattle.wire_prims.specs.Strict.{message, counted};
ghost use Rattle.wire_prims.specs.declared.fault.Bad.{Bad};
ghost use Rattle.wire_prims.specs.declared.fault.DecodeFault.{DecodeFault};
ghost use Rattle.sbe_local.specs.Messages.{Decodes};
ghost use Rattle.sbe_local.specs.Pieces.{HasPieceSpelling, piece_spelling_of, piece_fault, first_fault_piece, piece_value, mark_of, mark_number, flag_number};
ghost use Rattle.wire_prims.specs.declared.strict.Field.TheVariants.{I64, I32};
ghost use Rattle.sbe_local.specs.declared.piece.Piece.{Piece};

use crate::strict::{MESSAGES, NUMBER, SERVICE, counted_at, strict};
use cl_base::limits::{CHANNEL_LIMIT, NUMBER_LIMIT, PAYLOAD_LIMIT};
use cl_base::{Bytes, NoMemory};
use std::alloc::Global;
use wire_prims::{
    Bad, BadCause, DecodeFault, Field, Rule, Tail, bare, get_i32, get_i64, read_header,
    with_counted,
};

/// Which end of a snapshot a marker stands at.
#[derive(Clone, Copy, Debug, PartialEq, Eq)]
pub enum Mark {
    /// Before all other pieces.
    Begin,
    /// Behind all other pieces.
    End,
}

/// One piece of a snapshot.
#[derive(Debug, Drop)]
pub enum Piece {
    /// The first and the last piece of a snapshot.
    Marker {
        /// The service, 0 to 2, or -1 for the module.
        service: i64,
        /// The place in the log at which the snapshot was taken, 0 to 2^62, in bytes.
        position: i64,
        /// The term of the snapshot's entry, 0 to 2^62.
        term: i64,
        mark: Mark,
    },
    /// An open session.
    Session {
        /// At least 1.
        id: i64,
        /// The correlation id of the connect that opened it.
        corr: i64,
        /// When it was last active, 0 to 2^62, in ms.
        stamp: i64,
        /// The stream to which its egress goes.
        stream: i32,
        /// A service asked to close it.
        closing: bool,
        /// At most `CHANNEL_LIMIT` bytes.
        channel: Bytes,
    },
    /// An armed timer.
    Timer {
        /// The timer's name.
        corr: i64,
        /// When it is due, 0 to 2^62, in ms.
        deadline: i64,
    },
    /// What the module counts.
    Module {
        /// The id of the session that is opened next, 1 to 2^62.
        next_session: i64,
        /// The snapshot actions so far, 0 to 2^62.
        actions: i64,
        /// The entries so far, 0 to 2^62.
        entries: i64,
        /// The leader that the last new term event names, 0 to 4, or -1 where there was none.
        leader: i32,
    },
    /// A message of a service that the log doesn't hold yet.
    Pending {
        /// The message's number among those of its service, 1 to 2^47.
        number: i64,
        /// The service, 0 to 2.
        service: u8,
        /// At most `PAYLOAD_LIMIT` bytes.
        payload: Bytes,
    },
    /// The state of a service, as it writes it.
    ServiceState {
        /// Fewer than 2^32 bytes.
        bytes: Bytes,
    },
    /// How many messages a service has offered.
    Counter {
        /// The messages that it offered, 0 to 2^47.
        offered: i64,
        /// Those of them that the log holds, 0 to 2^47.
        appended: i64,
        /// The service, 0 to 2.
        service: u8,
    },
}

/// The piece that the bytes spell, all of the bytes. Bad exactly where they spell none, with what is first wrong.
pub fn decode_piece(alloc: Global, bytes: &[u8]) -> Result<Piece, DecodeFault>
    // What is read has a spelling, which is these bytes.
    ensures spelled { IfOk result (λ p. HasPieceSpelling p × (piece_spelling_of p ≡ bytes.now)) }
    // What has this spelling is read, unless memory runs out.
    ensures only { (p : Piece) → HasPieceSpelling p → piece_spelling_of p ≡ bytes.now → (result ≡ Ok p) ⊎ (result ≡ Err DecodeFault.NoMemory) }
    ensures bad { (b : Bad) → (result ≡ Err (DecodeFault.Bad b)) ↔ (first_fault_piece bytes.now ≡ Some b) }
{
    read_piece(alloc, bytes)
}

#[tactic(auto, unfolding(crate::specs::Pieces::first_fault_piece))]
fn read_piece(alloc: Global, bytes: &[u8]) -> Result<Piece, DecodeFault>
    ensures { Decodes result (first_fault_piece bytes.now) (piece_value (u16_at 2 bytes.now) bytes.now) }
{
    let header = read_header(bytes)?;
    match header.template {
        100 => marker(bytes),
        110 => session(alloc, bytes),
        111 => timer(bytes),
        112 => module(bytes),
        113 => pending(alloc, bytes),
        114 => service_state(alloc, bytes),
        115 => counter(bytes),
        _ => Err(DecodeFault::Bad(Bad {
            place: 2,
            cause: BadCause::Template,
        })),
    }
}

/// The mark that a marker must have: the end's where it stands there, else the beginning's.
fn mark_in(bytes: &[u8]) -> i32
    ensures { result ≡ mark_of bytes.now }
{
    if bytes.len() >= 40 && get_i32(bytes, 36) == 2 {
        2
    } else {
        0
    }
}

fn marker(bytes: &[u8]) -> Result<Piece, DecodeFault>
    requires { 8 ≤ length bytes.now }
    ensures { Decodes result (piece_fault 100 bytes.now) (piece_value 100 bytes.now) }
{
    let mark = mark_in(bytes);
    let rules = [
        Rule::Wide { low: -1, high: 2 },
        NUMBER,
        NUMBER,
        Rule::Narrow { low: 0, high: 0 },
        Rule::Narrow {
            low: mark,
            high: mark,
        },
    ];
    strict(bytes, &rules, Tail::Nothing)?;
    let mark = match get_i32(bytes, 36) {
        2 => Mark::End,
        _ => Mark::Begin,
    };
    Ok(Piece::Marker {
        service: get_i64(bytes, 8),
        position: get_i64(bytes, 16),
        term: get_i64(bytes, 24),
        mark,
    })
}

fn session(alloc: Global, bytes: &[u8]) -> Result<Piece, DecodeFault>
    requires { 8 ≤ length bytes.now }
    ensures { Decodes result (piece_fault 110 bytes.now) (piece_value 110 bytes.now) }
{
    let rules = [
        Rule::Wide {
            low: 1,
            high: i64::MAX,
        },
        Rule::AnyWide,
        NUMBER,
        Rule::AnyNarrow,
        Rule::Narrow { low: 0, high: 1 },
    ];
    let tail = Tail::Counted {
        limit: CHANNEL_LIMIT,
    };
    strict(bytes, &rules, tail)?;
    Ok(Piece::Session {
        id: get_i64(bytes, 8),
        corr: get_i64(bytes, 16),
        stamp: get_i64(bytes, 24),
        stream: get_i32(bytes, 32),
        closing: get_i32(bytes, 36) == 1,
        channel: counted_at(alloc, bytes, 40)?,
    })
}

fn timer(bytes: &[u8]) -> Result<Piece, DecodeFault>
    requires { 8 ≤ length bytes.now }
    ensures { Decodes result (piece_fault 111 bytes.now) (piece_value 111 bytes.now) }
{
    strict(bytes, &[Rule::AnyWide, NUMBER], Tail::Nothing)?;
    Ok(Piece::Timer {
        corr: get_i64(bytes, 8),
        deadline: get_i64(bytes, 16),
    })
}

fn module(bytes: &[u8]) -> Result<Piece, DecodeFault>
    requires { 8 ≤ length bytes.now }
    ensures { Decodes result (piece_fault 112 bytes.now) (piece_value 112 bytes.now) }
{
    let rules = [
        Rule::Wide {
            low: 1,
            high: NUMBER_LIMIT as i64,
        },
        NUMBER,
        NUMBER,
        Rule::Narrow { low: -1, high: 4 },
    ];
    strict(bytes, &rules, Tail::Nothing)?;
    Ok(Piece::Module {
        next_session: get_i64(bytes, 8),
        actions: get_i64(bytes, 16),
        entries: get_i64(bytes, 24),
        leader: get_i32(bytes, 32),
    })
}

fn pending(alloc: Global, bytes: &[u8]) -> Result<Piece, DecodeFault>
    requires { 8 ≤ length bytes.now }
    ensures { Decodes result (piece_fault 113 bytes.now) (piece_value 113 bytes.now) }
{
    let rules = [
        Rule::Wide {
            low: 1,
            high: 1 << 47,
        },
        SERVICE,
    ];
    let tail = Tail::Counted {
        limit: PAYLOAD_LIMIT,
    };
    strict(bytes, &rules, tail)?;
    Ok(Piece::Pending {
        number: get_i64(bytes, 8),
        service: get_i32(bytes, 16) as u8,
        payload: counted_at(alloc, bytes, 20)?,
    })
}

fn service_state(alloc: Global, bytes: &[u8]) -> Result<Piece, DecodeFault>
    requires { 8 ≤ length bytes.now }
    ensures { Decodes result (piece_fault 114 bytes.now) (piece_value 114 bytes.now) }
{
    let tail = Tail::Counted {
        limit: u32::MAX as usize,
    };
    strict(bytes, &[], tail)?;
    Ok(Piece::ServiceState {
        bytes: counted_at(alloc, bytes, 8)?,
    })
}

fn counter(bytes: &[u8]) -> Result<Piece, DecodeFault>
    requires { 8 ≤ length bytes.now }
    ensures { Decodes result (piece_fault 115 bytes.now) (piece_value 115 bytes.now) }
{
    strict(bytes, &[MESSAGES, MESSAGES, SERVICE], Tail::Nothing)?;
    Ok(Piece::Counter {
        offered: get_i64(bytes, 8),
        appended: get_i64(bytes, 16),
        service: get_i32(bytes, 24) as u8,
    })
}

/// The one spelling of a piece.
pub fn encode_piece(alloc: Global, p: &Piece) -> Result<Bytes, NoMemory>
    requires { HasPieceSpelling p.now }
    ensures spelled { IfOk result (λ bytes. bytes ≡ piece_spelling_of p.now) }
    // No other piece has this spelling.
    ensures alone { (other : Piece) → HasPieceSpelling other → piece_spelling_of other ≡ piece_spelling_of p.now → other ≡ p.now }
    // Nor does another one's spelling begin with it.
    ensures prefix_free { (other : Piece) (rest : List ℕ) → HasPieceSpelling other → piece_spelling_of other ≡ piece_spelling_of p.now ++ rest → rest ≡ [] }
{
    spell(alloc, p)
}

#[tactic(auto, unfolding(crate::specs::Pieces::piece_spelling_of))]
fn spell(alloc: Global, p: &Piece) -> Result<Bytes, NoMemory>
    requires { HasPieceSpelling p.now }
    ensures { IfOk result (λ bytes. bytes ≡ piece_spelling_of p.now) }
{
    match p {
        Piece::Marker {
            service,
            position,
            term,
            mark,
        } => marker_bytes(alloc, *service, *position, *term, *mark),
        Piece::Session {
            id,
            corr,
            stamp,
            stream,
            closing,
            channel,
        } => {
            let fields = session_fields(*id, *corr, *stamp, *stream, *closing);
            with_counted(alloc, 110, &fields, channel.as_slice())
        }
        Piece::Timer { corr, deadline } => bare(alloc, 111, &timer_fields(*corr, *deadline)),
        Piece::Module {
            next_session,
            actions,
            entries,
            leader,
        } => module_bytes(alloc, *next_session, *actions, *entries, *leader),
        Piece::Pending {
            number,
            service,
            payload,
        } => pending_bytes(alloc, *number, *service, payload.as_slice()),
        Piece::ServiceState { bytes } => with_counted(alloc, 114, &[], bytes.as_slice()),
        Piece::Counter {
            offered,
            appended,
            service,
        } => bare(alloc, 115, &counter_fields(*offered, *appended, *service)),
    }
}

fn marker_bytes(
    alloc: Global,
    service: i64,
    position: i64,
    term: i64,
    mark: Mark,
) -> Result<Bytes, NoMemory>
    ensures { IfOk result (λ bytes. bytes ≡ message 100 (I64 service ∷ I64 position ∷ I64 term ∷ I32 (pos 0) ∷ I32 (mark_number mark) ∷ []) ++ []) }
{
    let (first, second) = (Field::I64(service), Field::I64(position));
    let fields = [
        first,
        second,
        Field::I64(term),
        Field::I32(0),
        mark_field(mark),
    ];
    bare(alloc, 100, &fields)
}

fn session_fields(id: i64, corr: i64, stamp: i64, stream: i32, closing: bool) -> [Field; 5]
    ensures { result ≡ I64 id ∷ I64 corr ∷ I64 stamp ∷ I32 stream ∷ I32 (flag_number closing) ∷ [] }
{
    let (first, second) = (Field::I64(id), Field::I64(corr));
    [
        first,
        second,
        Field::I64(stamp),
        Field::I32(stream),
        flag_field(closing),
    ]
}

fn timer_fields(corr: i64, deadline: i64) -> [Field; 2]
    ensures { result ≡ I64 corr ∷ I64 deadline ∷ [] }
{
    [Field::I64(corr), Field::I64(deadline)]
}

fn module_bytes(
    alloc: Global,
    next_session: i64,
    actions: i64,
    entries: i64,
    leader: i32,
) -> Result<Bytes, NoMemory>
    ensures { IfOk result (λ bytes. bytes ≡ message 112 (I64 next_session ∷ I64 actions ∷ I64 entries ∷ I32 leader ∷ []) ++ []) }
{
    let (first, second) = (Field::I64(next_session), Field::I64(actions));
    bare(
        alloc,
        112,
        &[first, second, Field::I64(entries), Field::I32(leader)],
    )
}

fn pending_bytes(alloc: Global, number: i64, service: u8, payload: &[u8]) -> Result<Bytes, NoMemory>
    requires { length payload.now < 2 ^ 32 }
    ensures { IfOk result (λ bytes. bytes ≡ message 113 (I64 number ∷ I32 (pos service) ∷ []) ++ counted payload.now) }
{
    let fields = [Field::I64(number), Field::I32(service as i32)];
    with_counted(alloc, 113, &fields, payload)
}

fn counter_fields(offered: i64, appended: i64, service: u8) -> [Field; 3]
    ensures { result ≡ I64 offered ∷ I64 appended ∷ I32 (pos service) ∷ [] }
{
    [
        Field::I64(offered),
        Field::I64(appended),
        Field::I32(service as i32),
    ]
}

fn mark_field(mark: Mark) -> Field
    ensures { result ≡ I32 (mark_number mark) }
{
    match mark {
        Mark::Begin => Field::I32(0),
        Mark::End => Field::I32(2),
    }
}

fn flag_field(flag: bool) -> Field
    ensures { result ≡ I32 (flag_number flag) }
{
    Field::I32(if flag { 1 } else { 0 })
}
