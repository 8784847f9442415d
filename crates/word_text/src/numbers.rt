//! Numbers as decimal words.

ghost use Rattle.std.specs.Prelude.{◌≡◌, ◌∷◌, ◌++◌, IfOk, OnOk, string_bytes};
ghost use Rattle.std.specs.Fmt.{decimal};

use crate::words::put_word;
use ha_base::{Memory, Octets};
use std::alloc::Global;

fn number_text(alloc: Global, number: u64) -> Result<String, Memory>
    ensures { IfOk result (λ text. string_bytes text ≡ decimal number) }
{
    match number.to_string(alloc) {
        Ok(text) => Ok(text),
        Err(_) => Err(Memory),
    }
}

/// Appends the number in decimal digits without leading zeros, and no space before it. An error is
/// want of memory.
pub fn put_bare_number(alloc: Global, out: &mut Octets, number: u64) -> Result<(), Memory>
    ensures { OnOk result (out.new.octets ≡ out.old.octets ++ decimal number) }
{
    let text = number_text(alloc, number)?;
    out.extend(text.as_bytes())
}

/// Appends a space and the number in decimal digits without leading zeros. An error is want of
/// memory.
pub fn put_number(alloc: Global, out: &mut Octets, number: u64) -> Result<(), Memory>
    ensures { OnOk result (out.new.octets ≡ out.old.octets ++ (32 ∷ decimal number)) }
{
    let text = number_text(alloc, number)?;
    put_word(out, text.as_bytes())
}
