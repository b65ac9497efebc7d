// Bytes as hexadecimal digits.
ghost use Rattle.std.specs.Prelude.{◌≡◌, ◌<◌, IfOk};
ghost use Rattle.scenario.specs.Result.{Gives};
ghost use Rattle.scenario.specs.Words.{hex, hex_pairs, hex_digit, hex_byte, choice};

use crate::fault::{Cause, LineFault};
use cl_base::{Bytes, Choice};
use std::alloc::Global;

/// The value of a digit, a letter being a small one.
#[tactic(auto, unfolding(crate::specs::Words::hex_digit))]
fn digit_of(b: u8) -> Result<u8, LineFault>
    ensures value { Gives result (hex_digit b) }
    ensures small { IfOk result (λ n. n < 16) }
{
    match b {
        b'0'..=b'9' => Ok(b - b'0'),
        b'a'..=b'f' => Ok(b - b'a' + 10),
        _ => Err(LineFault::Faulty(Cause::Arguments)),
    }
}

/// The byte of two digits.
#[tactic(auto, unfolding(crate::specs::Words::hex_byte))]
fn byte_of(a: u8, b: u8) -> Result<u8, LineFault>
    ensures { Gives result (hex_byte a b) }
{
    let high = digit_of(a)?;
    let low = digit_of(b)?;
    Ok(16 * high + low)
}

/// A byte for each two digits.
fn pairs_of(alloc: Global, text: &[u8]) -> Result<Bytes, LineFault>
    ensures { Gives result (hex_pairs text.now) }
{
    let mut bytes = Vec::new(alloc);
    let mut rest = text;
    while let [a, b, after @ ..] = rest {
        bytes.push(byte_of(*a, *b)?)?;
        rest = after;
    }
    if !rest.is_empty() {
        return Err(LineFault::Faulty(Cause::Arguments));
    }
    Ok(Bytes::from_vec(bytes))
}

/// The bytes that a text spells: none by a dash, else pairs of digits.
#[tactic(auto, unfolding(crate::specs::Words::hex))]
pub fn bytes_of(alloc: Global, text: &[u8]) -> Result<Bytes, LineFault>
    ensures { Gives result (hex text.now) }
{
    if text.is_empty() {
        return Err(LineFault::Faulty(Cause::Arguments));
    }
    if text == b"-".as_slice() {
        return Ok(Bytes::from_vec(Vec::new(alloc)));
    }
    pairs_of(alloc, text)
}

/// What a crash leaves.
#[tactic(auto, unfolding(crate::specs::Words::choice))]
pub fn choice_of(text: &[u8]) -> Result<Choice, LineFault>
    ensures { Gives result (choice text.now) }
{
    if text == b"drop".as_slice() {
        return Ok(Choice::Drop);
    }
    if text == b"keep".as_slice() {
        return Ok(Choice::Keep);
    }
    if text.len() != 2 {
        return Err(LineFault::Faulty(Cause::Arguments));
    }
    Ok(Choice::Fill(byte_of(text[0], text[1])?))
}
