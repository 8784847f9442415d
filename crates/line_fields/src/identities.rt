//! Identities as words: the word of an ID type, and octets.

ghost use Rattle.std.specs.Prelude.{◌≡◌, ◌≤◌, ◌∷◌, []};
ghost use Rattle.std.specs.Option.{option_copied};
ghost use Rattle.ha_base.specs.IdForms.{fqdn};
ghost use Rattle.line_fields.specs.Octets.{sized};
ghost use Rattle.line_fields.specs.Identities.{AreAtMost, behind_prefix, domain_name_of, id_of, identity_of, with_kind};

use crate::fault::LineReason;
use crate::octet_words::copied_word;
use ha_base::{IdForm, Identity, OctetArray, fqdn, identity_forms};

/// What stands behind a prefix.
#[tactic(auto, using(crate::proofs::IdentityLaws::prefix_found))]
fn behind<'a>(prefix: &[u8], word: &'a [u8]) -> Option<&'a [u8]>
    ensures { option_copied result ≡ behind_prefix prefix.now word.now }
{
    word.strip_prefix(prefix)
}

fn with_octets(form: &IdForm, octets: &[u8]) -> Result<(u8, OctetArray<64>), LineReason>
    requires { form.now.most ≤ 64 }
    ensures { result ≡ with_kind form.now.kind (sized form.now.least form.now.most octets.now) }
{
    let octets = copied_word(octets, form.least, form.most)?;
    Ok((form.kind, octets))
}

/// The ID type and the octets that a word spells, by a table.
fn id_word(forms: &[IdForm], word: &[u8]) -> Result<(u8, OctetArray<64>), LineReason>
    requires { AreAtMost 64 forms.now }
    ensures { result ≡ id_of forms.now word.now }
{
    let [form, others @ ..] = forms else {
        return Err(LineReason::Hex);
    };
    match behind(form.word, word) {
        Some(octets) => with_octets(form, octets),
        None => id_word(others, word),
    }
}

/// An identity of one of the ID types of the table.
pub(crate) fn identity_word(word: &[u8]) -> Result<Identity, LineReason>
    ensures { result ≡ identity_of word.now }
{
    let (kind, octets) = id_word(&identity_forms(), word)?;
    Ok(Identity { kind, octets })
}

/// An identity that is a domain name.
pub(crate) fn domain_name_word(word: &[u8]) -> Result<Identity, LineReason>
    ensures { result ≡ domain_name_of word.now }
{
    let (kind, octets) = id_word(&[fqdn()], word)?;
    Ok(Identity { kind, octets })
}
