//! Numbers as decimal words.

ghost use Rattle.std.specs.Prelude.{◌≡◌, ◌^◌, ◌≤◌, ◌<◌, IfOk, IsTrue};
ghost use Rattle.std.specs.List.{list_all};
ghost use Rattle.line_fields.specs.Numbers.{is_digit, is_numeral, numeral_of, number_in_word};

use crate::fault::LineReason;
use std::str;

fn is_digit(octet: u8) -> bool
    ensures { result ≡ is_digit octet }
{
    octet >= b'0' && octet <= b'9'
}

fn all_digits(word: &[u8]) -> bool
    ensures { result ≡ list_all is_digit word.now }
{
    word.iter().all(|octet| is_digit(*octet))
}

/// Whether the word is decimal digits without a leading zero.
fn is_numeral(word: &[u8]) -> bool
    ensures { result ≡ is_numeral word.now }
{
    if !all_digits(word) {
        return false;
    }
    match word {
        [] => false,
        [_] => true,
        [first, ..] => *first != b'0',
    }
}

/// The number that the word spells.
fn numeral(word: &[u8]) -> Option<u64>
    ensures { result ≡ numeral_of word.now }
{
    if !is_numeral(word) {
        return None;
    }
    let Ok(text) = str::from_utf8(word) else {
        return None;
    };
    text.parse::<u64>().ok()
}

/// A number from `least` on, and below a limit.
pub fn number_word(word: &[u8], least: u64, limit: u64) -> Result<u64, LineReason>
    ensures value { result ≡ number_in_word least limit word.now }
    ensures within { IfOk result (λ number. (least ≤ number) × (number < limit)) }
{
    match numeral(word) {
        Some(number) if number >= least && number < limit => Ok(number),
        _ => Err(LineReason::Number),
    }
}

/// A number below 2^32, from `least` on.
pub fn short_word(word: &[u8], least: u64) -> Result<u32, LineReason>
    ensures { result ≡ number_in_word least (2 ^ 32) word.now }
{
    let number = number_word(word, least, 1 << 32)?;
    Ok(number as u32)
}
