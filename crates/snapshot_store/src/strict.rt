// What is first wrong with bytes that are to spell a piece.
ghost use Rattle.std.specs.Prelude.{◌≡◌, ◌≤◌, length, IfSome};
ghost use Rattle.sbe_local.specs.Pieces.{first_fault_piece, piece_fault as fault_of, mark_of};
ghost use Rattle.wire_prims.specs.Fields.{u16_at};

use cl_base::limits::{CHANNEL_LIMIT, NUMBER_LIMIT, PAYLOAD_LIMIT};
use wire_prims::{Bad, BadCause, Rule, Tail, get_i32, read_header, strict_fault};

/// A term, a position, a time or a count: 0 to 2^62.
const NUMBER: Rule = Rule::Wide {
    low: 0,
    high: NUMBER_LIMIT as i64,
};

/// How many messages of a service: 0 to 2^47.
const MESSAGES: Rule = Rule::Wide {
    low: 0,
    high: 1 << 47,
};

/// A service.
const SERVICE: Rule = Rule::Narrow { low: 0, high: 2 };

/// What is first wrong with bytes that spell no piece of a snapshot, None where they spell one. It takes no memory.
#[tactic(auto, unfolding(sbe_local::specs::Pieces::first_fault_piece))]
pub fn piece_fault(bytes: &[u8]) -> Option<Bad>
    ensures fault { result ≡ first_fault_piece bytes.now }
    ensures within { IfSome result (λ b. b.place ≤ length bytes.now) }
{
    match read_header(bytes) {
        Ok(header) => fault_past_header(bytes, header.template),
        Err(bad) => Some(bad),
    }
}

/// What is first wrong past the header of a piece of this template.
fn fault_past_header(bytes: &[u8], template: u16) -> Option<Bad>
    requires { 8 ≤ length bytes.now }
    ensures { result ≡ fault_of template bytes.now }
{
    match template {
        100 => marker_fault(bytes),
        110 => session_fault(bytes),
        111 => strict_fault(bytes, &[Rule::AnyWide, NUMBER], Tail::Nothing),
        112 => module_fault(bytes),
        113 => pending_fault(bytes),
        114 => {
            let limit = u32::MAX as usize;
            strict_fault(bytes, &[], Tail::Counted { limit })
        }
        115 => strict_fault(bytes, &[MESSAGES, MESSAGES, SERVICE], Tail::Nothing),
        _ => Some(Bad {
            place: 2,
            cause: BadCause::Template,
        }),
    }
}

/// The mark that a marker must have: the end's where it stands there, else the beginning's.
fn mark_in(bytes: &[u8]) -> i32
    ensures { result ≡ mark_of bytes.now }
{
    if bytes.len() >= 40 && get_i32(bytes, 36) == 2 {
        2
    } else {
        0
    }
}

fn marker_fault(bytes: &[u8]) -> Option<Bad>
    requires { 8 ≤ length bytes.now }
    ensures { result ≡ fault_of 100 bytes.now }
{
    let mark = mark_in(bytes);
    let rules = [
        Rule::Wide { low: -1, high: 2 },
        NUMBER,
        NUMBER,
        Rule::Narrow { low: 0, high: 0 },
        Rule::Narrow {
            low: mark,
            high: mark,
        },
    ];
    strict_fault(bytes, &rules, Tail::Nothing)
}

fn session_fault(bytes: &[u8]) -> Option<Bad>
    requires { 8 ≤ length bytes.now }
    ensures { result ≡ fault_of 110 bytes.now }
{
    let rules = [
        Rule::Wide {
            low: 1,
            high: i64::MAX,
        },
        Rule::AnyWide,
        NUMBER,
        Rule::AnyNarrow,
        Rule::Narrow { low: 0, high: 1 },
    ];
    let limit = CHANNEL_LIMIT;
    strict_fault(bytes, &rules, Tail::Counted { limit })
}

fn module_fault(bytes: &[u8]) -> Option<Bad>
    requires { 8 ≤ length bytes.now }
    ensures { result ≡ fault_of 112 bytes.now }
{
    let rules = [
        Rule::Wide {
            low: 1,
            high: NUMBER_LIMIT as i64,
        },
        NUMBER,
        NUMBER,
        Rule::Narrow { low: -1, high: 4 },
    ];
    strict_fault(bytes, &rules, Tail::Nothing)
}

fn pending_fault(bytes: &[u8]) -> Option<Bad>
    requires { 8 ≤ length bytes.now }
    ensures { result ≡ fault_of 113 bytes.now }
{
    let rules = [
        Rule::Wide {
            low: 1,
            high: 1 << 47,
        },
        SERVICE,
    ];
    let limit = PAYLOAD_LIMIT;
    strict_fault(bytes, &rules, Tail::Counted { limit })
}
