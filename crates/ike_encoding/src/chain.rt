//! Chains of payloads.

ghost use Rattle.std.specs.Prelude.{◌≡◌, ◌+◌, ◌++◌, ◌∷◌, false, true, length, map, IfOk, OnOk};
ghost use Rattle.ike_values.specs.PayloadView.{payload_value};
ghost use Rattle.ike_values.specs.Spelling.{two, type_of};
ghost use Rattle.ike_values.specs.Writing.{first_type_of, next_type_of, body_written, chain_written};
ghost use Rattle.ike_values.specs.Validity.{FitsPayload, AreValid};
ghost use Rattle.ike_values.specs.Chains.{HasSpelling, Spells};

use crate::bodies::encode_body;
use crate::octets::put_two;
use ha_base::{Memory, Octets};
use ike_values::{Payload, Payloads, body_len, payload_types};

/// Appends the spelling of the payloads with reserved bits 0, and answers the type of the first
/// one, 0 where there is none (RFC 7296, section 3.2). The payloads have a spelling
/// (`Payloads::is_valid`). An error is want of memory; a part of the spelling may then stand in
/// `out`.
pub fn encode_chain(payloads: &Payloads, out: &mut Octets) -> Result<u8, Memory>
    requires { HasSpelling payloads.now }
    ensures first { IfOk result (λ first. first ≡ first_type_of payloads.now) }
    ensures written { OnOk result (out.new.octets ≡ out.old.octets ++ chain_written payloads.now) }
    // What is appended is a spelling, and one of an inner chain where SK is not among the payloads.
    ensures spells { IfOk result
        (λ first. Spells payloads.now first false (chain_written payloads.now)) }
    ensures spells_inside { AreValid true payloads.now → IfOk result
        (λ first. Spells payloads.now first true (chain_written payloads.now)) }
{
    put_chain(payloads.as_slice(), out)
}

fn put_chain(payloads: &[Payload], out: &mut Octets) -> Result<u8, Memory>
    requires { AreValid false (map payload_value payloads.now) }
    ensures first { IfOk result (λ first. first ≡ first_type_of (map payload_value payloads.now)) }
    ensures written { OnOk result (out.new.octets ≡ out.old.octets
        ++ chain_written (map payload_value payloads.now)) }
{
    put_payloads(out, payloads)?;
    Ok(first_of(payloads))
}

fn put_payloads(out: &mut Octets, payloads: &[Payload]) -> Result<(), Memory>
    requires { AreValid false (map payload_value payloads.now) }
    ensures { OnOk result (out.new.octets ≡ out.old.octets
        ++ chain_written (map payload_value payloads.now)) }
{
    let mut rest = payloads;
    while let [first, others @ ..] = rest {
        put_payload(out, next_of(first, others), first)?;
        rest = others;
    }
    Ok(())
}

fn put_payload(out: &mut Octets, next: u8, payload: &Payload) -> Result<(), Memory>
    requires { FitsPayload (payload_value payload.now) }
    ensures { OnOk result (out.new.octets ≡ out.old.octets
        ++ (next ∷ 0 ∷ two (4 + length (body_written (payload_value payload.now)))
        ++ body_written (payload_value payload.now))) }
{
    out.extend(&[next, 0])?;
    put_two(out, 4 + body_len(payload) as u16)?;
    encode_body(payload, out)
}

fn next_of(payload: &Payload, others: &[Payload]) -> u8
    ensures { result ≡ next_type_of (payload_value payload.now) (map payload_value others.now) }
{
    match payload {
        Payload::Sk(sk) => sk.first,
        _ => first_of(others),
    }
}

fn first_of(payloads: &[Payload]) -> u8
    ensures { result ≡ first_type_of (map payload_value payloads.now) }
{
    match payloads {
        [] => 0,
        [first, ..] => type_of(first),
    }
}

/// The type of a payload (RFC 7296, section 3.2).
pub fn type_of(payload: &Payload) -> u8
    ensures { result ≡ type_of (payload_value payload.now) }
{
    match payload {
        Payload::Sa(_) => payload_types::SA,
        Payload::Ke(_) => payload_types::KE,
        Payload::IdI(_) => payload_types::IDI,
        Payload::IdR(_) => payload_types::IDR,
        Payload::Cert(_) => payload_types::CERT,
        Payload::CertReq(_) => payload_types::CERTREQ,
        Payload::Auth(_) => payload_types::AUTH,
        Payload::Nonce(_) => payload_types::NONCE,
        Payload::Notify(_) => payload_types::NOTIFY,
        Payload::Delete(_) => payload_types::DELETE,
        Payload::Vendor(_) => payload_types::VENDOR,
        Payload::TsI(_) => payload_types::TSI,
        Payload::TsR(_) => payload_types::TSR,
        Payload::Sk(_) => payload_types::SK,
        Payload::Cp(_) => payload_types::CP,
        Payload::Eap(_) => payload_types::EAP,
        Payload::Other(other) => other.kind,
    }
}
