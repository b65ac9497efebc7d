// Strict messages: a table says which numbers a block has, in which ranges they are, and what follows the block.
ghost use Rattle.std.specs.Prelude.{◌≡◌, ◌+◌, ◌-◌, ◌*◌, ◌/◌, ◌%◌, ◌<◌, ◌≤◌, ◌^◌, ◌↔◌, IsTrue, pos, ◌≤ℤ◌, length};
ghost use Rattle.wire_prims.specs.Strict.{rule_size, rules_size, passes, rules_fault as first_wrong, tail_there, tail_fault as tail_wrong, strict_fault as fault_of, is_service_session, service_session, service_of, number_of};

use crate::field::{get_i32, get_i64, get_u16, get_u32};
use crate::{Bad, BadCause};

/// How many numbers a service's messages may have.
const NUMBERS: u64 = 1 << 48;

/// The greatest number of a service's message: 2^47.
const MESSAGES_LIMIT: u64 = 1 << 47;

/// One number of a message's block, as it is written.
#[derive(Clone, Copy, Debug, PartialEq, Eq)]
pub enum Field {
    /// Eight bytes.
    I64(i64),
    /// Four bytes.
    I32(i32),
}

/// Which values one number of a block may have.
#[derive(Clone, Copy, Debug, PartialEq, Eq)]
pub enum Rule {
    /// Eight bytes, from `low` up to `high`.
    Wide { low: i64, high: i64 },
    /// Four bytes, from `low` up to `high`.
    Narrow { low: i32, high: i32 },
    /// Eight bytes, any value.
    AnyWide,
    /// Four bytes, any value.
    AnyNarrow,
    /// Eight bytes, the same value as so many bytes before.
    Repeat { back: usize },
    /// Eight bytes: the session of a message, a client's, which is at least 1, or that of a service message.
    Sender,
    /// Eight bytes: the session of a service message.
    Service,
}

/// What follows the block.
#[derive(Clone, Copy, Debug, PartialEq, Eq)]
pub enum Tail {
    /// Nothing.
    Nothing,
    /// All bytes up to the end, at most so many.
    Rest { limit: usize },
    /// A length of four bytes and that many bytes, at most so many.
    Counted { limit: usize },
}

impl Rule {
    /// How many bytes the number has.
    fn size(&self) -> usize
        ensures { result ≡ rule_size self.now }
    {
        match self {
            Rule::Narrow { .. } | Rule::AnyNarrow => 4,
            _ => 8,
        }
    }

    /// Whether the number at a place has a value that the rule allows.
    fn allows(&self, bytes: &[u8], at: usize) -> bool
        requires { at + rule_size self.now ≤ length bytes.now }
        ensures { result ≡ passes self.now at bytes.now }
    {
        match *self {
            Rule::Wide { low, high } => {
                let value = get_i64(bytes, at);
                low <= value && value <= high
            }
            Rule::Narrow { low, high } => {
                let value = get_i32(bytes, at);
                low <= value && value <= high
            }
            Rule::AnyWide | Rule::AnyNarrow => true,
            Rule::Repeat { back } => get_i64(bytes, at) == get_i64(bytes, at.saturating_sub(back)),
            Rule::Sender => {
                let session = get_i64(bytes, at);
                1 <= session || names_service(session)
            }
            Rule::Service => names_service(get_i64(bytes, at)),
        }
    }
}

/// Whether a session is that of a service message: a service 0 to 2 and a number 1 to 2^47.
fn names_service(session: i64) -> bool
    ensures { result ≡ is_service_session session }
{
    if session >= 0 {
        return false;
    }
    let n = (-1 - session).cast_unsigned();
    let number = n % NUMBERS;
    n / NUMBERS <= 2 && 1 <= number && number <= MESSAGES_LIMIT
}

fn rules_bytes(rules: &[Rule]) -> usize
    requires { rules_size rules.now < 2 ^ 16 }
    ensures { result ≡ rules_size rules.now }
{
    let mut size = 0;
    for rule in rules {
        size += rule.size();
    }
    size
}

/// The first number of a block, from a place on, whose value its rule doesn't allow.
fn rules_fault(bytes: &[u8], at: usize, rules: &[Rule]) -> Option<Bad>
    requires { at + rules_size rules.now ≤ length bytes.now }
    ensures { result ≡ first_wrong rules.now at bytes.now }
{
    let mut place = at;
    for rule in rules {
        if !rule.allows(bytes, place) {
            return Some(Bad {
                place: place as u64,
                cause: BadCause::Value,
            });
        }
        place += rule.size();
    }
    None
}

/// Whether what follows the block is all there.
fn has_tail(bytes: &[u8], at: usize, tail: Tail) -> bool
    requires { at ≤ length bytes.now }
    ensures { result ≡ tail_there tail at bytes.now }
{
    match tail {
        Tail::Nothing | Tail::Rest { .. } => true,
        Tail::Counted { .. } => {
            bytes.len() - at >= 4 && bytes.len() - at - 4 >= get_u32(bytes, at) as usize
        }
    }
}

/// Whether too many bytes follow the block.
fn tail_fault(bytes: &[u8], at: usize, tail: Tail) -> Option<Bad>
    requires within { at ≤ length bytes.now }
    requires there { IsTrue (tail_there tail at bytes.now) }
    ensures { result ≡ tail_wrong tail at bytes.now }
{
    match tail {
        Tail::Nothing => {
            if bytes.len() > at {
                return Some(Bad {
                    place: at as u64,
                    cause: BadCause::Trailing,
                });
            }
        }
        Tail::Rest { limit } => {
            if bytes.len() - at > limit {
                return Some(Bad {
                    place: at as u64,
                    cause: BadCause::Value,
                });
            }
        }
        Tail::Counted { limit } => {
            let count = get_u32(bytes, at) as usize;
            if count > limit {
                return Some(Bad {
                    place: at as u64,
                    cause: BadCause::Value,
                });
            }
            if bytes.len() > at + 4 + count {
                return Some(Bad {
                    place: (at + 4 + count) as u64,
                    cause: BadCause::Trailing,
                });
            }
        }
    }
    None
}

/// The first fault of bytes whose schema and template are known, None where they are a strict message with these
/// rules and this tail.
#[tactic(auto, unfolding(crate::specs::Strict::strict_fault))]
pub fn strict_fault(bytes: &[u8], rules: &[Rule], tail: Tail) -> Option<Bad>
    requires header { 8 ≤ length bytes.now }
    requires size { rules_size rules.now < 2 ^ 16 }
    ensures { result ≡ fault_of rules.now tail bytes.now }
{
    let size = rules_bytes(rules);
    if get_u16(bytes, 0) as usize != size {
        return Some(Bad {
            place: 0,
            cause: BadCause::Block,
        });
    }
    if bytes.len() < 8 + size || !has_tail(bytes, 8 + size, tail) {
        return Some(Bad {
            place: bytes.len() as u64,
            cause: BadCause::Short,
        });
    }
    if get_u16(bytes, 6) != 0 {
        return Some(Bad {
            place: 6,
            cause: BadCause::Value,
        });
    }
    match rules_fault(bytes, 8, rules) {
        Some(bad) => Some(bad),
        None => tail_fault(bytes, 8 + size, tail),
    }
}

/// The session under which a service's message stands in the log.
pub fn session_of(service: u8, number: i64) -> i64
    requires service { service ≤ 2 }
    requires low { pos 1 ≤ℤ number }
    requires high { number ≤ℤ pos (2 ^ 47) }
    ensures { result ≡ service_session service number }
{
    -1 - ((service as i64) * (1 << 48) + number)
}

/// The service and the number that the session of a service's message names.
pub fn sender_of(session: i64) -> (u8, i64)
    requires { IsTrue (is_service_session session) }
    ensures service { result.0 ≡ service_of session }
    ensures number { result.1 ≡ number_of session }
{
    let n = (-1 - session).cast_unsigned();
    ((n >> 48) as u8, (n % (1 << 48)) as i64)
}
