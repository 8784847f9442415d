//! A payload's line.

ghost use Rattle.std.specs.Prelude.{◌≡◌, [], ◌∷◌, ◌++◌, OnOk, IfOk, codes};
ghost use Rattle.std.specs.Fmt.{decimal};
ghost use Rattle.line_fields.specs.Octets.{octets_text};
ghost use Rattle.line_fields.specs.Writing.{line_text};
ghost use Rattle.line_fields.specs.Writing.{with_words};
ghost use Rattle.ike_values.specs.PayloadView.{notify_value, payload_value, sk_value};
ghost use Rattle.ike_values.specs.Values.{sk};
ghost use Rattle.ike_values.specs.Writing.{body_written};
ghost use Rattle.ike_values.specs.Validity.{FitsBody};
ghost use Rattle.message_text.specs.Shown.{body_words, notify_words, payload_text, sk_words};

use ha_base::{Memory, Octets};
use ike_encoding::{encode_body, type_of};
use ike_values::{NotifyBody, Payload};
use std::alloc::Global;
use word_text::{put_number, put_octets};

#[tactic(auto, unfolding(crate::specs::Shown::notify_words))]
fn put_notify_words(alloc: Global, out: &mut Octets, notify: &NotifyBody) -> Result<(), Memory>
    ensures { OnOk result (out.new.octets ≡ with_words out.old.octets
        (notify_words (notify_value notify.now))) }
{
    put_number(alloc, out, u64::from(notify.protocol))?;
    put_octets(alloc, out, notify.spi.as_slice())?;
    put_number(alloc, out, u64::from(notify.kind))?;
    put_octets(alloc, out, notify.content.as_slice())
}

#[tactic(auto, using(line_fields::proofs::WritingLaws::line_put))]
fn put_notify(alloc: Global, out: &mut Octets, notify: &NotifyBody) -> Result<(), Memory>
    ensures { OnOk result (out.new.octets ≡ out.old.octets
        ++ line_text (codes "notify" ∷ notify_words (notify_value notify.now))) }
{
    out.extend(b"notify")?;
    put_notify_words(alloc, out, notify)?;
    out.push(b'\n')
}

fn body_of(alloc: Global, payload: &Payload) -> Result<Octets, Memory>
    requires { FitsBody (payload_value payload.now) }
    ensures { IfOk result (λ body. body.octets ≡ body_written (payload_value payload.now)) }
{
    let mut body = Octets::new(alloc);
    encode_body(payload, &mut body)?;
    Ok(body)
}

// A number, and the body.
fn put_body(alloc: Global, out: &mut Octets, number: u8, payload: &Payload) -> Result<(), Memory>
    requires { FitsBody (payload_value payload.now) }
    ensures { OnOk result (out.new.octets ≡ with_words out.old.octets
        (decimal number ∷ octets_text (body_written (payload_value payload.now)) ∷ [])) }
{
    let body = body_of(alloc, payload)?;
    put_number(alloc, out, u64::from(number))?;
    put_octets(alloc, out, body.as_slice())
}

#[tactic(auto, unfolding(crate::specs::Shown::body_words, crate::specs::Shown::sk_words), using(line_fields::proofs::WritingLaws::line_put))]
fn put_other(
    alloc: Global,
    out: &mut Octets,
    word: &[u8],
    number: u8,
    payload: &Payload,
) -> Result<(), Memory>
    requires { FitsBody (payload_value payload.now) }
    ensures { OnOk result (out.new.octets ≡ out.old.octets
        ++ line_text (word.now ∷ decimal number
        ∷ octets_text (body_written (payload_value payload.now)) ∷ [])) }
{
    out.extend(word)?;
    put_body(alloc, out, number, payload)?;
    out.push(b'\n')
}

/// A payload's line.
#[tactic(auto, unfolding(crate::specs::Shown::body_words, crate::specs::Shown::sk_words))]
pub(crate) fn put_payload(alloc: Global, out: &mut Octets, payload: &Payload) -> Result<(), Memory>
    requires { FitsBody (payload_value payload.now) }
    ensures { OnOk result (out.new.octets ≡ out.old.octets
        ++ payload_text (payload_value payload.now)) }
{
    match payload {
        Payload::Notify(notify) => put_notify(alloc, out, notify),
        Payload::Sk(sk) => put_other(alloc, out, b"sk", sk.first, payload),
        _ => put_other(alloc, out, b"payload", type_of(payload), payload),
    }
}
