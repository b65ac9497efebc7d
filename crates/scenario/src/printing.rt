// Orders as text.
ghost use Rattle.std.specs.Prelude.{◌≡◌, ◌<◌, ◌++◌, ◌∷◌, [], IfOk, OnOk, decimal, flat_map};
ghost use Rattle.scenario.specs.Printing.{glyph as glyph_of_digit, byte_text, hex_text, choice_text, name_text, two_text, keyword_for, numbers_text, rest_text, args_text, order_text, printed};

use crate::keyword::{Double, Keyword, Single};
use crate::order::{Named, Order};
use cl_base::{Bytes, Choice, NoMemory};
use std::alloc::{AllocError, Global};

/// Puts a number, in decimal.
pub fn put_number(out: &mut Vec<u8>, number: u64) -> Result<(), AllocError>
    ensures { OnOk result (out.new.items ≡ out.old.items ++ decimal number) }
{
    let text = number.to_string(*out.allocator())?;
    out.extend_from_slice(text.as_bytes())
}

/// Puts two numbers, a space between them.
fn put_two(out: &mut Vec<u8>, first: u64, second: u64) -> Result<(), AllocError>
    ensures { OnOk result (out.new.items ≡ out.old.items ++ two_text first second) }
{
    put_number(out, first)?;
    out.push(b' ')?;
    put_number(out, second)
}

/// The hexadecimal digit of a number below 16.
fn glyph(digit: u8) -> u8
    requires { digit < 16 }
    ensures { result ≡ glyph_of_digit digit }
{
    if digit < 10 {
        b'0' + digit
    } else {
        b'a' + (digit - 10)
    }
}

/// Puts the two digits of a byte.
fn put_byte(out: &mut Vec<u8>, byte: u8) -> Result<(), AllocError>
    ensures { OnOk result (out.new.items ≡ out.old.items ++ byte_text byte) }
{
    out.push(glyph(byte / 16))?;
    out.push(glyph(byte % 16))?;
    Ok(())
}

/// Puts two digits for each byte.
fn put_bytes(out: &mut Vec<u8>, bytes: &[u8]) -> Result<(), AllocError>
    ensures { OnOk result (out.new.items ≡ out.old.items ++ flat_map byte_text bytes.now) }
{
    for byte in bytes {
        put_byte(out, *byte)?;
    }
    Ok(())
}

/// Puts bytes in hexadecimal, or a dash for none.
fn put_hex(out: &mut Vec<u8>, bytes: &[u8]) -> Result<(), AllocError>
    ensures { OnOk result (out.new.items ≡ out.old.items ++ hex_text bytes.now) }
{
    match bytes {
        [] => out.extend_from_slice(b"-"),
        [_, ..] => put_bytes(out, bytes),
    }
}

/// Puts what a crash leaves.
fn put_choice(out: &mut Vec<u8>, choice: Choice) -> Result<(), AllocError>
    ensures { OnOk result (out.new.items ≡ out.old.items ++ choice_text choice) }
{
    match choice {
        Choice::Drop => out.extend_from_slice(b"drop"),
        Choice::Keep => out.extend_from_slice(b"keep"),
        Choice::Fill(byte) => put_byte(out, byte),
    }
}

/// Puts a service's name.
fn put_name(out: &mut Vec<u8>, name: Named) -> Result<(), AllocError>
    ensures { OnOk result (out.new.items ≡ out.old.items ++ name_text name) }
{
    match name {
        Named::Echo => out.extend_from_slice(b"echo"),
        Named::Ledger => out.extend_from_slice(b"ledger"),
        Named::Ticker => out.extend_from_slice(b"ticker"),
    }
}

/// The first word of an order.
fn keyword_of(order: &Order) -> Keyword
    ensures { result ≡ keyword_for order.now }
{
    match order {
        Order::Members { .. } => Keyword::One(Single::Members),
        Order::Service { .. } => Keyword::Service,
        Order::Rounds { .. } => Keyword::One(Single::Rounds),
        Order::Quiet { .. } => Keyword::One(Single::Quiet),
        Order::Connect { .. } => Keyword::Two(Double::Connect),
        Order::Send { .. } => Keyword::Send,
        Order::SendHex { .. } => Keyword::SendHex,
        Order::Close { .. } => Keyword::Two(Double::Close),
        Order::KeepAlive { .. } => Keyword::Two(Double::KeepAlive),
        Order::Raw { .. } => Keyword::Raw,
        Order::Action { .. } => Keyword::One(Single::Action),
        Order::Stop { .. } => Keyword::One(Single::Stop),
        Order::Start { .. } => Keyword::One(Single::Start),
        Order::Invalidate { .. } => Keyword::One(Single::Invalidate),
        Order::Fuse { .. } => Keyword::Fuse,
        Order::Cut { .. } => Keyword::Two(Double::Cut),
        Order::Heal { .. } => Keyword::Two(Double::Heal),
        Order::Lose { .. } => Keyword::Two(Double::Lose),
        Order::Replay { .. } => Keyword::Replay,
        Order::FreeOn { .. } | Order::FreeOff { .. } => Keyword::Free,
        Order::Join { .. } => Keyword::One(Single::Join),
        Order::Offer { .. } => Keyword::Offer,
        Order::Backup { .. } | Order::BackupOff { .. } | Order::BackupLose { .. } =>
            Keyword::Backup,
    }
}

/// Puts the numbers of an order, a space between them.
fn put_numbers(out: &mut Vec<u8>, order: &Order) -> Result<(), AllocError>
    ensures { OnOk result (out.new.items ≡ out.old.items ++ numbers_text order.now) }
{
    match order {
        Order::Members { members: n, .. }
        | Order::Rounds { rounds: n, .. }
        | Order::Quiet { rounds: n, .. }
        | Order::Action { member: n, .. }
        | Order::Stop { member: n, .. }
        | Order::Start { member: n, .. }
        | Order::Invalidate { member: n, .. }
        | Order::Join { client: n, .. }
        | Order::Offer { client: n, .. }
        | Order::Backup { member: n, .. } => put_number(out, *n),
        Order::Connect { client, member, .. }
        | Order::Send { client, member, .. }
        | Order::SendHex { client, member, .. }
        | Order::Close { client, member, .. }
        | Order::KeepAlive { client, member, .. }
        | Order::Raw { client, member, .. } => put_two(out, *client, *member),
        Order::Fuse { member, calls, .. } => put_two(out, *member, *calls),
        Order::Cut { from, to, .. }
        | Order::Heal { from, to, .. }
        | Order::Lose { from, to, .. }
        | Order::Replay { from, to, .. } => put_two(out, *from, *to),
        _ => Ok(()),
    }
}

/// Puts what stands behind the numbers of an order.
fn put_rest(out: &mut Vec<u8>, order: &Order) -> Result<(), AllocError>
    ensures { OnOk result (out.new.items ≡ out.old.items ++ rest_text order.now) }
{
    match order {
        Order::Service { name, .. } => put_name(out, *name),
        Order::FreeOn { .. } => out.extend_from_slice(b"on"),
        Order::FreeOff { .. } | Order::BackupOff { .. } => out.extend_from_slice(b"off"),
        Order::BackupLose { .. } => out.extend_from_slice(b"lose"),
        Order::Send { text, .. } | Order::Offer { text, .. } => {
            out.push(b' ')?;
            out.extend_from_slice(text.as_slice())
        }
        Order::SendHex { payload: bytes, .. } | Order::Raw { bytes, .. } => {
            out.push(b' ')?;
            put_hex(out, bytes.as_slice())
        }
        Order::Fuse { choice, .. } => {
            out.push(b' ')?;
            put_choice(out, *choice)
        }
        Order::Replay { latest, .. } => {
            out.push(b' ')?;
            put_number(out, *latest)
        }
        _ => Ok(()),
    }
}

/// Puts what stands behind the first word and its space.
#[tactic(auto, using(crate::proofs::PrintedParts::parts_text))]
fn put_args(out: &mut Vec<u8>, order: &Order) -> Result<(), AllocError>
    ensures { OnOk result (out.new.items ≡ out.old.items ++ args_text order.now) }
{
    put_numbers(out, order)?;
    put_rest(out, order)
}

/// Puts an order as a line, with its line feed.
#[tactic(auto, unfolding(crate::specs::Printing::order_text))]
fn put_order(out: &mut Vec<u8>, order: &Order) -> Result<(), AllocError>
    ensures { OnOk result (out.new.items ≡ out.old.items ++ (order_text order.now ++ 10 ∷ [])) }
{
    out.extend_from_slice(keyword_of(order).text().as_bytes())?;
    out.push(b' ')?;
    put_args(out, order)?;
    out.push(b'\n')?;
    Ok(())
}

/// The orders as text, one line for each, each ended by a line feed. A scenario's orders, printed, are a scenario of the
/// same orders.
pub fn print(alloc: Global, orders: &[Order]) -> Result<Bytes, NoMemory>
    ensures { IfOk result (λ text. text ≡ printed orders.now) }
{
    let mut out = Vec::new(alloc);
    for order in orders {
        put_order(&mut out, order)?;
    }
    Ok(Bytes::from_vec(out))
}
