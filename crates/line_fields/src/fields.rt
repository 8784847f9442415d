//! The fields of a line, one reader for each kind. Each takes a word. An error is the fault at the
//! word's column: what is wrong with the word, or that none is left.

ghost use Rattle.std.specs.Prelude.{◌≡◌, ◌≤◌, ◌<◌, ◌^◌, length, IfOk};
ghost use Rattle.line_fields.specs.Numbers.{number_in_word};
ghost use Rattle.line_fields.specs.Octets.{esp_spi_of, octet_of, sized, spi_in_word};
ghost use Rattle.line_fields.specs.Identities.{domain_name_of, identity_of};
ghost use Rattle.line_fields.specs.Fields.{Reads, field, key_size_of};

use crate::fault::{LineFault, LineReason, at};
use crate::identities::{domain_name_word, identity_word};
use crate::numbers::{number_word, short_word};
use crate::octet_words::{array_word, esp_spi_word, list_word, octet_word, spi_word};
use crate::words::Words;
use ha_base::{Identity, KeySize, OctetList};

/// A decimal number below a limit.
#[tactic(auto, unfolding(crate::specs::Fields::field))]
pub fn number(words: &mut Words<'_>, limit: u64) -> Result<u64, LineFault>
    ensures value { Reads (λ x. x) result words.new (field (number_in_word 0 limit) words.old) }
    ensures below { IfOk result (λ number. number < limit) }
{
    let column = words.column();
    let word = words.word()?;
    at(column, number_word(word, 0, limit))
}

/// A decimal number below 2^32, from `least` on.
#[tactic(auto, unfolding(crate::specs::Fields::field))]
pub fn short_number(words: &mut Words<'_>, least: u64) -> Result<u32, LineFault>
    ensures { Reads (λ x. x) result words.new (field (number_in_word least (2 ^ 32)) words.old) }
{
    let column = words.column();
    let word = words.word()?;
    at(column, short_word(word, least))
}

/// An SPI of the IKE header (RFC 7296, section 3.1), in 16 digits.
#[tactic(auto, unfolding(crate::specs::Fields::field))]
pub fn spi(words: &mut Words<'_>) -> Result<u64, LineFault>
    ensures { Reads (λ x. x) result words.new (field spi_in_word words.old) }
{
    let column = words.column();
    let word = words.word()?;
    at(column, spi_word(word))
}

/// An SPI of ESP (RFC 4303, section 2.1), in 8 digits.
#[tactic(auto, unfolding(crate::specs::Fields::field))]
pub fn esp_spi(words: &mut Words<'_>) -> Result<u32, LineFault>
    ensures { Reads (λ x. x) result words.new (field esp_spi_of words.old) }
{
    let column = words.column();
    let word = words.word()?;
    at(column, esp_spi_word(word))
}

/// Octets of one number.
#[tactic(auto, unfolding(crate::specs::Fields::field))]
pub fn octets<const N: usize>(words: &mut Words<'_>) -> Result<[u8; N], LineFault>
    ensures { Reads (λ x. x) result words.new (field (sized N N) words.old) }
{
    let column = words.column();
    let word = words.word()?;
    at(column, array_word(word))
}

/// One octet.
#[tactic(auto, unfolding(crate::specs::Fields::field))]
pub fn octet(words: &mut Words<'_>) -> Result<u8, LineFault>
    ensures { Reads (λ x. x) result words.new (field octet_of words.old) }
{
    let column = words.column();
    let word = words.word()?;
    at(column, octet_word(word))
}

fn size_word(word: &[u8]) -> Result<KeySize, LineReason>
    ensures { result ≡ key_size_of word.now }
{
    if word == b"128".as_slice() {
        return Ok(KeySize::Bits128);
    }
    if word == b"256".as_slice() {
        return Ok(KeySize::Bits256);
    }
    Err(LineReason::Word)
}

/// The size of an AES key, in bits.
#[tactic(auto, unfolding(crate::specs::Fields::field))]
pub fn key_size(words: &mut Words<'_>) -> Result<KeySize, LineFault>
    ensures { Reads (λ x. x) result words.new (field key_size_of words.old) }
{
    let column = words.column();
    let word = words.word()?;
    at(column, size_word(word))
}

/// Octets of a number from `least` to `most`.
#[tactic(auto, unfolding(crate::specs::Fields::field))]
pub fn octet_list<const N: usize>(
    words: &mut Words<'_>,
    least: usize,
    most: usize,
) -> Result<OctetList<N>, LineFault>
    requires { most ≤ N }
    ensures value { Reads (λ x. x) result words.new (field (sized least most) words.old) }
    ensures within { IfOk result (λ list. (least ≤ length list) × (length list ≤ most)) }
{
    let column = words.column();
    let word = words.word()?;
    at(column, list_word(word, least, most))
}

/// An identity: the prefix of its type (RFC 7296, section 3.5), and octets.
#[tactic(auto, unfolding(crate::specs::Fields::field))]
pub fn identity(words: &mut Words<'_>) -> Result<Identity, LineFault>
    ensures { Reads (λ x. x) result words.new (field identity_of words.old) }
{
    let column = words.column();
    let word = words.word()?;
    at(column, identity_word(word))
}

/// An identity that is a fully-qualified domain name.
#[tactic(auto, unfolding(crate::specs::Fields::field))]
pub fn domain_name(words: &mut Words<'_>) -> Result<Identity, LineFault>
    ensures { Reads (λ x. x) result words.new (field domain_name_of words.old) }
{
    let column = words.column();
    let word = words.word()?;
    at(column, domain_name_word(word))
}
