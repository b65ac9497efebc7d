// A text, read line by line.
ghost use Rattle.std.specs.Prelude.{◌≡◌, ◌<◌, ◌≤◌, ◌+◌, ◌^◌, ◌++◌, ◌∷◌, [], length, IfOk, IfErr, OnOk, OnErr, None, Ok};
ghost use Rattle.scenario.specs.Result.{Gives, Fails};
ghost use Rattle.std.specs.List.{list_all};
ghost use Rattle.scenario.specs.Lines.{is_plain as plain};
ghost use Rattle.scenario.specs.Orders.{judged_and_told, told_by, orders_after, reading_of, orders_of, first_fault, Refuses};

use crate::fault::{Cause, LineFault, ParseFault, Reading, Refusal};
use crate::lines::{first_line, is_skipped};
use crate::order::Order;
use crate::spelling::spelled;
use crate::told::Told;
use cl_base::limits::LINE_LIMIT;
use cl_base::{List, NoMemory};
use std::alloc::Global;

/// Whether each byte is one that a line may have.
fn is_plain(text: &[u8]) -> bool
    ensures { result ≡ list_all plain text.now }
{
    text.iter().all(|b| 0x20 <= *b && *b <= 0x7e)
}

/// The order of a line behind others and what is told then, or the first cause that applies.
#[tactic(auto, unfolding(crate::specs::Orders::judged))]
fn judge(alloc: Global, told: Told, line: u64, text: &[u8]) -> Result<(Order, Told), LineFault>
    requires orders { told.orders + 1 < 2 ^ 64 }
    requires services { told.services ≤ told.orders }
    ensures { Gives result (judged_and_told told line text.now) }
{
    if !is_plain(text) {
        return Err(LineFault::Faulty(Cause::Byte));
    }
    if text.len() > LINE_LIMIT {
        return Err(LineFault::Faulty(Cause::LongLine));
    }
    let order = spelled(alloc, line, text)?;
    match told.admit(&order) {
        Ok(next) => Ok((order, next)),
        Err(cause) => Err(LineFault::Faulty(cause)),
    }
}

/// Puts the order of a line, if it has one, behind the others.
#[tactic(auto, unfolding(crate::specs::Orders::orders_after))]
fn take_line(
    alloc: Global,
    orders: &mut List<Order>,
    told: Told,
    line: u64,
    text: &[u8],
) -> Result<Told, LineFault>
    requires told { told ≡ told_by orders.old }
    requires room { length orders.old + 1 < 2 ^ 64 }
    ensures orders { OnOk result (orders_after orders.old line text.now ≡ Ok orders.new) }
    ensures told { IfOk result (λ t. t ≡ told_by orders.new) }
    ensures count { length orders.new ≤ length orders.old + 1 }
    ensures fault { IfErr result (λ e. Fails e (orders_after orders.old line text.now)) }
    ensures kept { OnErr result (orders.new ≡ orders.old) }
{
    if is_skipped(text) {
        return Ok(told);
    }
    let (order, next) = judge(alloc, told, line, text)?;
    orders.push(order)?;
    Ok(next)
}

/// Reads a text (bytes of any length, at most one MiB in a run): the orders before its first faulty line, and that
/// line's number and cause, or None where the text is a scenario.
#[tactic(auto, unfolding(crate::specs::Orders::reading_of))]
pub fn read(alloc: Global, bytes: &[u8]) -> Result<Reading, NoMemory>
    ensures { IfOk result (λ r. r ≡ reading_of bytes.now) }
{
    let mut orders = List::new(alloc);
    let mut told = Told::start();
    let mut line = 1u64;
    let mut rest = bytes;
    while !rest.is_empty() {
        let (text, behind) = first_line(rest);
        told = match take_line(alloc, &mut orders, told, line, text) {
            Ok(next) => next,
            Err(LineFault::Faulty(cause)) => {
                let fault = Some(Refusal { line, cause });
                return Ok(Reading { orders, fault });
            }
            Err(LineFault::NoMemory) => return Err(NoMemory),
        };
        line += 1;
        rest = behind;
    }
    let fault = told.at_end(line);
    Ok(Reading { orders, fault })
}

/// The orders of a scenario. Any other text is refused with its first faulty line and the cause.
pub fn parse(alloc: Global, bytes: &[u8]) -> Result<List<Order>, ParseFault>
    ensures orders { IfOk result (λ orders. (first_fault bytes.now ≡ None) × (orders ≡ orders_of bytes.now)) }
    ensures refused { IfErr result (λ e. Refuses e bytes.now) }
{
    let Reading { orders, fault } = read(alloc, bytes)?;
    match fault {
        None => Ok(orders),
        Some(Refusal { line, cause }) => Err(ParseFault::Refused { line, cause }),
    }
}
