//! The ID types of identities and of gateways, each with its word in a line and the octets that it
//! may have.

ghost use Rattle.std.specs.Prelude.{◌≡◌, ◌↔◌, IsTrue};
ghost use Rattle.ha_base.specs.IdForms.{HasSize, fqdn, gateway_forms, identity_forms, word_by};

use std::marker::Model;

/// An ID type: its number, the word that a line has for it, and how many octets an identity of it
/// has.
#[derive(Drop)]
pub struct IdForm {
    pub kind: u8,
    pub word: &'static [u8],
    pub least: usize,
    pub most: usize,
}

impl Model for IdForm {
    ghost use Rattle.ha_base.specs.IdForms.{Form};

    ghost Value = { Form };

    ghost view = { λ form. record {
      kind = form.kind;
      word = form.word.now;
      least = form.least;
      most = form.most;
    } };
}

/// A fully-qualified domain name (RFC 7296, section 3.5).
pub fn fqdn() -> IdForm
    ensures { result ≡ fqdn }
{
    IdForm {
        kind: 2,
        word: b"fqdn:",
        least: 1,
        most: 64,
    }
}

/// The ID types of identities (RFC 7296, section 3.5) that a run takes.
pub fn identity_forms() -> [IdForm; 5]
    ensures { result ≡ identity_forms }
{
    [
        IdForm {
            kind: 1,
            word: b"ipv4:",
            least: 4,
            most: 4,
        },
        IdForm {
            kind: 5,
            word: b"ipv6:",
            least: 16,
            most: 16,
        },
        fqdn(),
        IdForm {
            kind: 3,
            word: b"mail:",
            least: 1,
            most: 64,
        },
        IdForm {
            kind: 11,
            word: b"key:",
            least: 1,
            most: 64,
        },
    ]
}

/// The ID types of gateways (RFC 5685, section 9.2).
pub fn gateway_forms() -> [IdForm; 3]
    ensures { result ≡ gateway_forms }
{
    [
        IdForm {
            kind: 1,
            word: b"ipv4:",
            least: 4,
            most: 4,
        },
        IdForm {
            kind: 2,
            word: b"ipv6:",
            least: 16,
            most: 16,
        },
        IdForm {
            kind: 3,
            word: b"fqdn:",
            least: 1,
            most: 255,
        },
    ]
}

/// Whether one of the forms has this ID type, and may have so many octets.
pub fn has_size(forms: &[IdForm], kind: u8, size: usize) -> bool
    ensures { IsTrue result ↔ HasSize forms.now kind size }
{
    match forms {
        [] => false,
        [form, others @ ..] => {
            form.kind == kind && form.least <= size && size <= form.most
                || has_size(others, kind, size)
        }
    }
}

/// The word that stands before the octets of an identity of this ID type, or none.
pub fn word_by(forms: &[IdForm], kind: u8) -> &'static [u8]
    ensures { result.now ≡ word_by forms.now kind }
{
    match forms {
        [] => b"",
        [form, others @ ..] => {
            if form.kind == kind {
                form.word
            } else {
                word_by(others, kind)
            }
        }
    }
}
