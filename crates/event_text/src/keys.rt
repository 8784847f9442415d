//! Sealing keys as fields of a line.

ghost use Rattle.std.specs.Prelude.{◌≡◌, ◌≤◌, length, IfOk};
ghost use Rattle.ha_base.specs.KeySizes.{sealing_octets};
ghost use Rattle.line_fields.specs.Octets.{sized};
ghost use Rattle.line_fields.specs.Fields.{Reads, field};

use ha_base::{KeySize, OctetList};
use line_fields::{LineFault, Words, octet_list};

/// The octets of a sealing key: an AES key and four of salt (RFC 5282, section 7.1).
fn key_octets(size: KeySize) -> usize
    ensures value { result ≡ sealing_octets size }
    ensures within { result ≤ 36 }
{
    match size {
        KeySize::Bits128 => 20,
        KeySize::Bits256 => 36,
    }
}

/// A sealing key.
pub(crate) fn sealing_key(words: &mut Words<'_>, size: KeySize) -> Result<OctetList<36>, LineFault>
    ensures value { Reads (λ x. x) result words.new
        (field (sized (sealing_octets size) (sealing_octets size)) words.old) }
    ensures long { IfOk result (λ key. length key ≡ sealing_octets size) }
{
    let octets = key_octets(size);
    octet_list(words, octets, octets)
}
