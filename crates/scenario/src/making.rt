// The generated scenario.
ghost use Rattle.std.specs.Prelude.{◌≡◌, ◌<◌, ◌≤◌, ◌^◌, ◌++◌, None, IfOk, OnOk};
ghost use Rattle.scenario.specs.Made.{message_text, pause, message_step, half, made};
ghost use Rattle.scenario.specs.MadeOrders.{made_orders};
ghost use Rattle.scenario.specs.Numbered.{numbered};
ghost use Rattle.scenario.specs.Orders.{reading_of};

use crate::printing::put_number;
use cl_base::{Bytes, NoMemory};
use std::alloc::{AllocError, Global};

/// Three members and five clients.
const HEAD: &str =
    "members 3\nservice echo\nservice ledger\nrounds 60\nconnect 0 0\nconnect 1 0\nconnect 2 0\nconnect 3 0\nconnect 4 0\nrounds 5\n";

/// The loss of the leader, and its return.
const MIDDLE: &str = "rounds 5\nstop 0\nrounds 300\nstart 0\nrounds 100\n";

/// Puts message `number`, to a member.
fn put_message(out: &mut Vec<u8>, member: u64, number: u64) -> Result<(), AllocError>
    ensures { OnOk result (out.new.items ≡ out.old.items ++ message_text member number) }
{
    out.extend_from_slice(b"send ")?;
    put_number(out, number % 5)?;
    out.push(b' ')?;
    put_number(out, member)?;
    out.extend_from_slice(b" m")?;
    put_number(out, number)?;
    out.push(b'\n')?;
    Ok(())
}

/// Puts three rounds after a fifth message, and after the last before `end`.
fn put_pause(out: &mut Vec<u8>, end: u64, number: u64) -> Result<(), AllocError>
    requires { number < end }
    ensures { OnOk result (out.new.items ≡ out.old.items ++ pause end number) }
{
    if (number + 1) % 5 == 0 || number + 1 == end {
        return out.extend_from_slice(b"rounds 3\n");
    }
    Ok(())
}

/// Puts a message and the rounds after it.
fn put_step(out: &mut Vec<u8>, member: u64, end: u64, number: u64) -> Result<(), AllocError>
    requires { number < end }
    ensures { OnOk result (out.new.items ≡ out.old.items ++ message_step member end number) }
{
    put_message(out, member, number)?;
    put_pause(out, end, number)
}

/// Puts the messages from a number up to an end.
fn put_half(out: &mut Vec<u8>, member: u64, from: u64, end: u64) -> Result<(), AllocError>
    requires { from ≤ end }
    ensures { OnOk result (out.new.items ≡ out.old.items ++ half member from end) }
{
    for number in from..end {
        put_step(out, member, end, number)?;
    }
    Ok(())
}

/// The generated scenario of `n` messages, 1 to 20,000. It is read without a fault, as its orders, one on each line.
#[tactic(auto, unfolding(crate::specs::Made::made))]
pub fn make(alloc: Global, n: u64) -> Result<Bytes, NoMemory>
    requires low { 1 ≤ n }
    requires high { n ≤ 20000 }
    ensures text { IfOk result (λ text. text ≡ made n) }
    ensures parses { IfOk result (λ text. reading_of text ≡ record { orders = numbered 1 (made_orders n); fault = None }) }
{
    let mut out = Vec::from_slice(alloc, HEAD.as_bytes())?;
    put_half(&mut out, 0, 0, n / 2)?;
    out.extend_from_slice(MIDDLE.as_bytes())?;
    put_half(&mut out, 1, n / 2, n)?;
    out.extend_from_slice(b"rounds 10\n")?;
    Ok(Bytes::from_vec(out))
}
