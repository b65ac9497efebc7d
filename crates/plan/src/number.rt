// A number among the words.
ghost use Rattle.std.specs.Prelude.{◌≡◌, ◌-◌, ◌^◌, min, true};
ghost use Rattle.std.specs.Char.{is_ascii_digit, digit_value};
ghost use Rattle.std.specs.List.{list_all};
ghost use Rattle.std.specs.Str.Parse.{digits_value};
ghost use Rattle.plan.specs.Words.{is_numeral, number_of};

/// The most messages of a generated scenario.
const MESSAGES_LIMIT: u64 = 20_000;

fn is_all_digits(word: &[u8]) -> bool
    ensures { result ≡ list_all is_ascii_digit word.now }
{
    word.iter().all(|b| b.is_ascii_digit())
}

/// Digits, the first of which isn't 0.
fn is_numeral(word: &[u8]) -> bool
    ensures { result ≡ is_numeral word.now }
{
    if word.is_empty() || word[0] == b'0' {
        return false;
    }
    is_all_digits(word)
}

fn value_of(digit: u8) -> u64
    requires { is_ascii_digit digit ≡ true }
    ensures { result ≡ digit_value digit }
{
    u64::from(digit - b'0')
}

/// The number that digits spell. One of more than 64 bits counts as the greatest of 64 bits.
fn digits_value(word: &[u8]) -> u64
    requires { list_all is_ascii_digit word.now ≡ true }
    ensures { result ≡ min (digits_value 10 word.now) (2 ^ 64 - 1) }
{
    let mut value = 0u64;
    for digit in word {
        value = value.saturating_mul(10).saturating_add(value_of(*digit));
    }
    value
}

#[tactic(auto, unfolding(crate::specs::Words::number_of))]
/// The number of messages that a word spells: 1 to 20,000, without a sign and without a leading zero.
pub fn number_of(word: &str) -> Option<u64>
    ensures { result ≡ number_of word.now }
{
    let word = word.as_bytes();
    if !is_numeral(word) {
        return None;
    }
    let value = digits_value(word);
    if value == 0 || value > MESSAGES_LIMIT {
        return None;
    }
    Some(value)
}
