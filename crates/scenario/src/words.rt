// Words, and what a word spells.
ghost use Rattle.std.specs.Prelude.{◌≡◌, ◌<◌, ◌+◌, ◌==◌, IfSome, IsTrue, ◌↔◌, Option, length, position, take, drop, option_map};
ghost use Rattle.std.specs.Prelude.{true};
ghost use Rattle.std.specs.List.{list_all};
ghost use Rattle.std.specs.Char.{is_ascii_digit, digit_value};
ghost use Rattle.scenario.specs.Result.{Gives, GivesBy};
ghost use Rattle.scenario.specs.Words.{cut_word, is_numeral, number, word_and_rest, number_and_rest, two_numbers, two_and_rest, hex, hex_pairs, hex_digit, hex_byte, choice, named};

use crate::fault::{Cause, LineFault};
use crate::order::Named;

/// The place of the first byte that is this one.
pub fn place_of(text: &[u8], byte: u8) -> Option<usize>
    ensures place { result ≡ position (λ b. b == byte) text.now }
    ensures within { IfSome result (λ at. at < length text.now) }
{
    text.iter().position(|b| *b == byte)
}

/// What stands before a place, and behind the byte there.
pub fn around(text: &[u8], at: usize) -> (&[u8], &[u8])
    requires { at < length text.now }
    ensures before { result.0.now ≡ take at text.now }
    ensures behind { result.1.now ≡ drop (at + 1) text.now }
{
    (&text[..at], &text[at + 1..])
}

/// The text before its first space and the text behind it, where it has one.
#[tactic(auto, unfolding(crate::specs::Words::cut_word))]
pub fn cut(text: &[u8]) -> Option<(&[u8], &[u8])>
    ensures { cut_word text.now ≡ option_map (λ p. (p.0.now, p.1.now)) result }
{
    match place_of(text, b' ') {
        Some(at) => Some(around(text, at)),
        None => None,
    }
}

fn is_all_digits(word: &[u8]) -> bool
    ensures { result ≡ list_all is_ascii_digit word.now }
{
    word.iter().all(|b| b.is_ascii_digit())
}

/// Digits, of which the first is 0 only where there is no other.
fn is_number(word: &[u8]) -> bool
    ensures { result ≡ is_numeral word.now }
{
    if word.is_empty() {
        return false;
    }
    if word.len() > 1 && word[0] == b'0' {
        return false;
    }
    is_all_digits(word)
}

fn value_of(digit: u8) -> u64
    requires { is_ascii_digit digit ≡ true }
    ensures { result ≡ digit_value digit }
{
    u64::from(digit - b'0')
}

/// The number that a word spells. One of more than 64 bits counts as the greatest of 64 bits.
#[tactic(auto, unfolding(crate::specs::Words::number))]
pub fn number_of(word: &[u8]) -> Result<u64, LineFault>
    ensures { Gives result (number word.now) }
{
    if !is_number(word) {
        return Err(LineFault::Faulty(Cause::Arguments));
    }
    let mut value = 0u64;
    for digit in word {
        value = value.saturating_mul(10).saturating_add(value_of(*digit));
    }
    Ok(value)
}

/// The word that must come, and the text behind its space.
#[tactic(auto, unfolding(crate::specs::Words::word_and_rest))]
fn word_of(text: &[u8]) -> Result<(&[u8], &[u8]), LineFault>
    ensures { GivesBy (λ p. (p.0.now, p.1.now)) result (word_and_rest text.now) }
{
    match cut(text) {
        Some(parts) => Ok(parts),
        None => Err(LineFault::Faulty(Cause::Arguments)),
    }
}

/// A number that must come, and the text behind its space.
#[tactic(auto, unfolding(crate::specs::Words::number_and_rest))]
pub fn first_number(text: &[u8]) -> Result<(u64, &[u8]), LineFault>
    ensures { GivesBy (λ p. (p.0, p.1.now)) result (number_and_rest text.now) }
{
    let (word, rest) = word_of(text)?;
    Ok((number_of(word)?, rest))
}

/// Two numbers and nothing else.
#[tactic(auto, unfolding(crate::specs::Words::two_numbers))]
pub fn two_of(text: &[u8]) -> Result<(u64, u64), LineFault>
    ensures { Gives result (two_numbers text.now) }
{
    let (first, rest) = first_number(text)?;
    Ok((first, number_of(rest)?))
}

/// Two numbers, and the text behind the space of the second.
#[tactic(auto, unfolding(crate::specs::Words::two_and_rest))]
pub fn two_first(text: &[u8]) -> Result<(u64, u64, &[u8]), LineFault>
    ensures { GivesBy (λ p. (p.0, p.1, p.2.now)) result (two_and_rest text.now) }
{
    let (first, rest) = first_number(text)?;
    let (second, rest) = first_number(rest)?;
    Ok((first, second, rest))
}

/// A shipped service.
#[tactic(auto, unfolding(crate::specs::Words::named))]
pub fn named_of(text: &[u8]) -> Result<Named, LineFault>
    ensures { Gives result (named text.now) }
{
    if text == b"echo".as_slice() {
        Ok(Named::Echo)
    } else if text == b"ledger".as_slice() {
        Ok(Named::Ledger)
    } else if text == b"ticker".as_slice() {
        Ok(Named::Ticker)
    } else {
        Err(LineFault::Faulty(Cause::Arguments))
    }
}
