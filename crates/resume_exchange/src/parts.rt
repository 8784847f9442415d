ghost use Rattle.std.specs.Prelude.{◌≡◌, ℕ, List, None, Some, MatchOption, map};
ghost use Rattle.ike_values.specs.Values.{IdValue, ProposalValue};
ghost use Rattle.ike_values.specs.PayloadView.{auth_value, id_value, payload_value};
ghost use Rattle.resume_exchange.specs.Parts.{HasParts, auth_data, first_of, idi_data, sa_data};
ghost use Rattle.resume_exchange.specs.Parts.{tsi_data, tsr_data};

use ike_values::{AuthBody, IdBody, Payload, Payloads, Proposals, Selectors};

/// The method of an AUTH code that is made with a shared key (RFC 7296, section 3.8).
pub const SHARED_KEY: u8 = 2;

/// The identity, the AUTH code and the proposals of an IKE_AUTH, where it has them and the
/// selectors of both ends.
pub fn parts_of(payloads: &Payloads) -> Option<(&IdBody, &[u8], &Proposals)>
    ensures { MatchOption result
        ((identity : IdValue) (code : List ℕ) (proposals : List ProposalValue) →
        ¬ HasParts payloads.now identity code proposals)
        (λ parts. HasParts payloads.now (id_value parts.0.now) parts.1.now parts.2.now) }
{
    let items = payloads.as_slice();
    let identity = first_identity(items)?;
    let auth = first_auth(items)?;
    if auth.method != SHARED_KEY {
        return None;
    }
    let proposals = first_proposals(items)?;
    let _ = first_initiator_selectors(items)?;
    let _ = first_responder_selectors(items)?;
    Some((identity, auth.content.as_slice(), proposals))
}

/// The first identity of the initiator.
fn first_identity(payloads: &[Payload]) -> Option<&IdBody>
    ensures { MatchOption result
        (first_of idi_data (map payload_value payloads.now) ≡ None)
        (λ found. first_of idi_data (map payload_value payloads.now) ≡ Some (id_value found.now)) }
{
    let mut rest = payloads;
    while let [payload, others @ ..] = rest {
        if let Payload::IdI(found) = payload {
            return Some(found);
        }
        rest = others;
    }
    None
}

/// The first authentication data.
pub fn first_auth(payloads: &[Payload]) -> Option<&AuthBody>
    ensures { MatchOption result
        (first_of auth_data (map payload_value payloads.now) ≡ None)
        (λ found.
        first_of auth_data (map payload_value payloads.now) ≡ Some (auth_value found.now)) }
{
    let mut rest = payloads;
    while let [payload, others @ ..] = rest {
        if let Payload::Auth(found) = payload {
            return Some(found);
        }
        rest = others;
    }
    None
}

/// The proposals of the first security association.
pub fn first_proposals(payloads: &[Payload]) -> Option<&Proposals>
    ensures { MatchOption result
        (first_of sa_data (map payload_value payloads.now) ≡ None)
        (λ found. first_of sa_data (map payload_value payloads.now) ≡ Some found.now) }
{
    let mut rest = payloads;
    while let [payload, others @ ..] = rest {
        if let Payload::Sa(found) = payload {
            return Some(found);
        }
        rest = others;
    }
    None
}

/// The first traffic selectors of the initiator.
pub fn first_initiator_selectors(payloads: &[Payload]) -> Option<&Selectors>
    ensures { MatchOption result
        (first_of tsi_data (map payload_value payloads.now) ≡ None)
        (λ found. first_of tsi_data (map payload_value payloads.now) ≡ Some found.now) }
{
    let mut rest = payloads;
    while let [payload, others @ ..] = rest {
        if let Payload::TsI(found) = payload {
            return Some(found);
        }
        rest = others;
    }
    None
}

/// The first traffic selectors of the responder.
pub fn first_responder_selectors(payloads: &[Payload]) -> Option<&Selectors>
    ensures { MatchOption result
        (first_of tsr_data (map payload_value payloads.now) ≡ None)
        (λ found. first_of tsr_data (map payload_value payloads.now) ≡ Some found.now) }
{
    let mut rest = payloads;
    while let [payload, others @ ..] = rest {
        if let Payload::TsR(found) = payload {
            return Some(found);
        }
        rest = others;
    }
    None
}
