//! Octets and SPIs as lower-case hexadecimal words.

ghost use Rattle.std.specs.Prelude.{◌≡◌, [], ◌∷◌, ◌++◌, IfOk, OnOk, string_bytes};
ghost use Rattle.hex.specs.Hex.{encode_lower};
ghost use Rattle.line_fields.specs.Octets.{esp_spi_text, octets_text, spi_text};

use crate::words::put_word;
use ha_base::{Memory, Octets};
use std::alloc::Global;

fn hex_text(alloc: Global, octets: &[u8]) -> Result<String, Memory>
    ensures { IfOk result (λ text. string_bytes text ≡ encode_lower octets.now) }
{
    match hex::encode(alloc, octets) {
        Ok(text) => Ok(text),
        Err(_) => Err(Memory),
    }
}

/// Appends two digits for each octet, or `-` where there are none, and no space before them. An
/// error is want of memory.
pub fn put_bare_octets(alloc: Global, out: &mut Octets, octets: &[u8]) -> Result<(), Memory>
    ensures { OnOk result (out.new.octets ≡ out.old.octets ++ octets_text octets.now) }
{
    if octets.is_empty() {
        return out.extend(b"-");
    }
    let text = hex_text(alloc, octets)?;
    out.extend(text.as_bytes())
}

/// Appends a space, and two digits for each octet, or `-` where there are none. An error is want of
/// memory.
pub fn put_octets(alloc: Global, out: &mut Octets, octets: &[u8]) -> Result<(), Memory>
    ensures { OnOk result (out.new.octets ≡ out.old.octets ++ (32 ∷ octets_text octets.now)) }
{
    out.push(b' ')?;
    put_bare_octets(alloc, out, octets)
}

/// Appends a space, and an octet in two digits. An error is want of memory.
pub fn put_digits(alloc: Global, out: &mut Octets, octet: u8) -> Result<(), Memory>
    ensures { OnOk result (out.new.octets ≡ out.old.octets ++ (32 ∷ encode_lower (octet ∷ []))) }
{
    let text = hex_text(alloc, &[octet])?;
    put_word(out, text.as_bytes())
}

/// Appends an SPI of the IKE header (RFC 7296, section 3.1) in 16 digits, and no space before it.
/// An error is want of memory.
pub fn put_bare_spi(alloc: Global, out: &mut Octets, spi: u64) -> Result<(), Memory>
    ensures { OnOk result (out.new.octets ≡ out.old.octets ++ spi_text spi) }
{
    let text = hex_text(alloc, &spi.to_be_bytes())?;
    out.extend(text.as_bytes())
}

/// Appends a space, and an SPI of the IKE header (RFC 7296, section 3.1) in 16 digits. An error is
/// want of memory.
pub fn put_spi(alloc: Global, out: &mut Octets, spi: u64) -> Result<(), Memory>
    ensures { OnOk result (out.new.octets ≡ out.old.octets ++ (32 ∷ spi_text spi)) }
{
    out.push(b' ')?;
    put_bare_spi(alloc, out, spi)
}

/// Appends a space, and an SPI of ESP (RFC 4303, section 2.1) in 8 digits. An error is want of
/// memory.
pub fn put_esp_spi(alloc: Global, out: &mut Octets, spi: u32) -> Result<(), Memory>
    ensures { OnOk result (out.new.octets ≡ out.old.octets ++ (32 ∷ esp_spi_text spi)) }
{
    let text = hex_text(alloc, &spi.to_be_bytes())?;
    put_word(out, text.as_bytes())
}
