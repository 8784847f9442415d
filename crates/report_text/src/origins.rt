//! What the key of a seal belongs to, in one word.

ghost use Rattle.std.specs.Prelude.{◌≡◌, ◌∷◌, ◌++◌, OnOk};
ghost use Rattle.report_text.specs.Spelling.{derivation_text, origin_text};

use crate::line::KeyOrigin;
use ha_base::{Derivation, Memory, Octets};
use std::alloc::Global;
use word_text::{put_bare_number, put_bare_octets, put_bare_spi, put_word};

#[tactic(auto, unfolding(crate::specs::Spelling::derivation_text))]
fn put_derivation(alloc: Global, out: &mut Octets, origin: &Derivation) -> Result<(), Memory>
    ensures { OnOk result (out.new.octets ≡ out.old.octets ++ derivation_text origin.now) }
{
    put_bare_spi(alloc, out, origin.old_spir)?;
    out.push(b'.')?;
    put_bare_octets(alloc, out, &origin.ni)?;
    out.push(b'.')?;
    put_bare_octets(alloc, out, &origin.nr)?;
    out.push(b'.')?;
    put_bare_spi(alloc, out, origin.spii)?;
    out.push(b'.')?;
    put_bare_spi(alloc, out, origin.spir)
}

pub(crate) fn put_origin(alloc: Global, out: &mut Octets, origin: &KeyOrigin) -> Result<(), Memory>
    ensures { OnOk result (out.new.octets ≡ out.old.octets ++ (32 ∷ origin_text origin.now)) }
{
    match origin {
        KeyOrigin::Imported(spir) => {
            put_word(out, b"i")?;
            put_bare_spi(alloc, out, *spir)
        }
        KeyOrigin::Resumed(derivation) => {
            put_word(out, b"r")?;
            put_derivation(alloc, out, derivation)
        }
        KeyOrigin::TicketKey(generation) => {
            put_word(out, b"t")?;
            put_bare_number(alloc, out, u64::from(*generation))
        }
    }
}
