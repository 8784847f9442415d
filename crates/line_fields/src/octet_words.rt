//! Octets and SPIs as hexadecimal words.

ghost use Rattle.std.specs.Prelude.{◌≡◌, ◌≤◌, ◌/◌, true, length, IfOk, OnOk};
ghost use Rattle.std.specs.List.{list_all};
ghost use Rattle.line_fields.specs.Octets.{decoded, esp_spi_of, is_hex, is_lower, octet_of, spells_octets, size_of, sized, spi_in_word};

use crate::fault::LineReason;
use ha_base::{OctetArray, OctetList};

fn is_lower(octet: u8) -> bool
    ensures { result ≡ is_lower octet }
{
    (octet >= b'0' && octet <= b'9') || (octet >= b'a' && octet <= b'f')
}

fn all_lower(word: &[u8]) -> bool
    ensures { result ≡ list_all is_lower word.now }
{
    let mut lower = true;
    for i in 0..word.len() {
        lower &= is_lower(word[i]);
    }
    lower
}

/// Whether the word is whole octets in lower-case hexadecimal, at least one.
pub fn is_hex(word: &[u8]) -> bool
    ensures { result ≡ is_hex word.now }
{
    all_lower(word) && !word.is_empty() && word.len() % 2 == 0
}

/// Writes the octets that a word of lower-case hexadecimal spells over `out`, which has room for
/// just these.
#[tactic(auto, using(crate::proofs::OctetLaws::hex_sized))]
pub fn fill_hex(word: &[u8], out: &mut [u8])
    requires hex { is_hex word.now ≡ true }
    requires long { length word.now / 2 ≡ length out.old }
    ensures { out.new ≡ decoded word.now }
{
    if hex::decode_to_slice(word, out).is_err() {
        unreachable!();
    }
}

/// Writes the octets of a word over `out`, which has room for just these.
#[tactic(auto, using(crate::proofs::OctetLaws::dash_fills))]
pub fn fill(word: &[u8], out: &mut [u8])
    requires octets { spells_octets word.now ≡ true }
    requires long { length word.now / 2 ≡ length out.old }
    ensures { out.new ≡ decoded word.now }
{
    if word == b"-".as_slice() {
        return;
    }
    fill_hex(word, out);
}

/// How many octets the word has, which is from `least` to `most`. `-` is no octets.
pub fn size_word(word: &[u8], least: usize, most: usize) -> Result<usize, LineReason>
    ensures value { result ≡ size_of least most word.now }
    ensures octets { OnOk result (spells_octets word.now ≡ true) }
    ensures size { IfOk result (λ size. size ≡ length word.now / 2) }
    ensures within { IfOk result (λ size. (least ≤ size) × (size ≤ most)) }
{
    if word != b"-".as_slice() && !is_hex(word) {
        return Err(LineReason::Hex);
    }
    let size = word.len() / 2;
    if size < least || size > most {
        return Err(LineReason::Size);
    }
    Ok(size)
}

/// Octets of one number.
pub(crate) fn array_word<const N: usize>(word: &[u8]) -> Result<[u8; N], LineReason>
    ensures { result ≡ sized N N word.now }
{
    size_word(word, N, N)?;
    let mut octets = [0; N];
    fill(word, &mut octets);
    Ok(octets)
}

/// One octet.
pub(crate) fn octet_word(word: &[u8]) -> Result<u8, LineReason>
    ensures { result ≡ octet_of word.now }
{
    let [octet]: [u8; 1] = array_word(word)?;
    Ok(octet)
}

/// Octets of a number from `least` to `most`.
pub fn list_word<const N: usize>(
    word: &[u8],
    least: usize,
    most: usize,
) -> Result<OctetList<N>, LineReason>
    requires { most ≤ N }
    ensures value { result ≡ sized least most word.now }
    ensures within { IfOk result (λ list. (least ≤ length list) × (length list ≤ most)) }
{
    let size = size_word(word, least, most)?;
    let mut kept = [0; N];
    fill(word, &mut kept[..size]);
    Ok(OctetList::from_slice(&kept[..size]))
}

/// The same, in a list that is copied.
pub(crate) fn copied_word<const N: usize>(
    word: &[u8],
    least: usize,
    most: usize,
) -> Result<OctetArray<N>, LineReason>
    requires { most ≤ N }
    ensures { result ≡ sized least most word.now }
{
    let size = size_word(word, least, most)?;
    let mut kept = [0; N];
    fill(word, &mut kept[..size]);
    Ok(OctetArray::from_slice(&kept[..size]))
}

/// An SPI of the IKE header, in 16 digits.
pub(crate) fn spi_word(word: &[u8]) -> Result<u64, LineReason>
    ensures { result ≡ spi_in_word word.now }
{
    if !is_hex(word) {
        return Err(LineReason::Hex);
    }
    if word.len() / 2 != 8 {
        return Err(LineReason::Size);
    }
    let mut octets = [0; 8];
    fill_hex(word, &mut octets);
    Ok(u64::from_be_bytes(octets))
}

/// An SPI of ESP, in 8 digits.
pub(crate) fn esp_spi_word(word: &[u8]) -> Result<u32, LineReason>
    ensures { result ≡ esp_spi_of word.now }
{
    if !is_hex(word) {
        return Err(LineReason::Hex);
    }
    if word.len() / 2 != 4 {
        return Err(LineReason::Size);
    }
    let mut octets = [0; 4];
    fill_hex(word, &mut octets);
    Ok(u32::from_be_bytes(octets))
}
