// What is looked at in a message before a value is read from it.
ghost use Rattle.std.specs.Prelude.{◌≡◌, ◌<◌, ◌≤◌, ◌^◌, ◌+◌, Some, None, length, take, drop, IfOk, OnOk, IfErr};
ghost use Rattle.wire_prims.specs.Fields.{u32_at};
ghost use Rattle.wire_prims.specs.Strict.{rules_size, strict_fault as fault_of};
ghost use Rattle.wire_prims.specs.StrictLaws.{IsStrict};

use cl_base::limits::NUMBER_LIMIT;
use cl_base::{Bytes, NoMemory};
use std::alloc::Global;
use wire_prims::{Bad, Rule, Tail, get_u32, strict_fault};

/// A term, a position, a time or a count: 0 to 2^62.
pub const NUMBER: Rule = Rule::Wide {
    low: 0,
    high: NUMBER_LIMIT as i64,
};

/// How many messages of a service: 0 to 2^47.
pub const MESSAGES: Rule = Rule::Wide {
    low: 0,
    high: 1 << 47,
};

/// A service.
pub const SERVICE: Rule = Rule::Narrow { low: 0, high: 2 };

/// Looks at a message whose schema and template are known.
#[tactic(auto, using(wire_prims::specs::StrictLaws::strict_none))]
pub fn strict(bytes: &[u8], rules: &[Rule], tail: Tail) -> Result<(), Bad>
    requires header { 8 ≤ length bytes.now }
    requires size { rules_size rules.now < 2 ^ 16 }
    ensures bad { IfErr result (λ bad. fault_of rules.now tail bytes.now ≡ Some bad) }
    ensures none { OnOk result (fault_of rules.now tail bytes.now ≡ None) }
    ensures sound { OnOk result (IsStrict rules.now tail bytes.now) }
{
    match strict_fault(bytes, rules, tail) {
        Some(bad) => Err(bad),
        None => Ok(()),
    }
}

/// The bytes at a place that have their number before them.
pub fn counted_at(alloc: Global, bytes: &[u8], at: usize) -> Result<Bytes, NoMemory>
    requires length_there { at + 4 ≤ length bytes.now }
    requires all_there { at + 4 + u32_at at bytes.now ≤ length bytes.now }
    ensures { IfOk result (λ b. b ≡ take (u32_at at bytes.now) (drop (at + 4) bytes.now)) }
{
    let len = get_u32(bytes, at) as usize;
    Bytes::of(alloc, &bytes[at + 4..at + 4 + len])
}
