ghost use Rattle.std.specs.Prelude.{◌≡◌, ◌+◌, ◌*◌, ◌<◌, ◌^◌, ◌≤◌, ◌↔◌, false, IsTrue, length, map, min};
ghost use Rattle.std.specs.List.{AllByRecursion};
ghost use Rattle.ike_values.specs.AttributeView.{attribute_value};
ghost use Rattle.ike_values.specs.TransformView.{transform_value};
ghost use Rattle.ike_values.specs.ProposalView.{proposal_value};
ghost use Rattle.ike_values.specs.SelectorView.{selector_value};
ghost use Rattle.ike_values.specs.PayloadView.{payload_value, sk_value};
ghost use Rattle.ike_values.specs.Spelling.{attribute_spelling, attributes_spelling, selectors_spelling};
ghost use Rattle.ike_values.specs.Writing.{transforms_written, proposals_written, body_written};
ghost use Rattle.ike_values.specs.Validity.{FitsAttribute, FitsSelector, is_unknown, FitsTransform, FitsProposal, FitsSelectors, FitsSk, FitsPayload, FitsBody, MayStand, AreValid};

use crate::attribute::Attribute;
use crate::lengths::{LENGTH_END, attributes_len, body_len, capped, sk_len, transforms_len};
use crate::payload::{Payload, SkBody};
use crate::proposal::Proposal;
use crate::selector::{IPV4_RANGE, IPV6_RANGE, Selector};
use crate::transform::Transform;

/// The octets of an SK body with a ciphertext of one octet.
const SHORTEST_SK: usize = 25;

/// Whether payloads, those behind each of them and all that they hold have a spelling.
pub(crate) fn fits_chain(payloads: &[Payload]) -> bool
    ensures { IsTrue result ↔ AreValid false (map payload_value payloads.now) }
{
    let mut rest = payloads;
    while let [first, others @ ..] = rest {
        if !fits_payload(first) || !may_stand_before(first, others) {
            return false;
        }
        rest = others;
    }
    true
}

fn may_stand_before(payload: &Payload, others: &[Payload]) -> bool
    ensures { IsTrue result ↔ MayStand (payload_value payload.now) false
        (map payload_value others.now) }
{
    match payload {
        Payload::Sk(_) => others.is_empty(),
        _ => true,
    }
}

fn fits_payload(payload: &Payload) -> bool
    ensures { IsTrue result ↔ FitsPayload (payload_value payload.now) }
{
    fits_body(payload) && 4 + body_len(payload) < LENGTH_END
}

fn fits_body(payload: &Payload) -> bool
    ensures { IsTrue result ↔ FitsBody (payload_value payload.now) }
{
    match payload {
        Payload::Sa(proposals) => fits_proposals(proposals.as_slice()),
        Payload::Nonce(octets) => is_nonce_len(octets.as_slice().len()),
        Payload::Notify(notify) => notify.spi.as_slice().len() < 256,
        Payload::Delete(delete) => {
            delete.spis.as_slice().len() == delete.size as usize * delete.number as usize
        }
        Payload::TsI(selectors) | Payload::TsR(selectors) => fits_selectors(selectors.as_slice()),
        Payload::Sk(sk) => fits_sk(sk),
        Payload::Other(other) => is_unknown_type(other.kind),
        _ => true,
    }
}

fn is_nonce_len(len: usize) -> bool
    ensures { IsTrue result ↔ ((16 ≤ len) × (len ≤ 256)) }
{
    16 <= len && len <= 256
}

fn is_unknown_type(kind: u8) -> bool
    ensures { result ≡ is_unknown kind }
{
    kind > 0 && (kind < 33 || kind > 48)
}

fn fits_sk(sk: &SkBody) -> bool
    ensures { IsTrue result ↔ FitsSk (sk_value sk.now) }
{
    sk_len(sk) >= SHORTEST_SK
}

fn fits_proposals(proposals: &[Proposal]) -> bool
    ensures { IsTrue result ↔ ((0 < length (map proposal_value proposals.now))
        × AllByRecursion FitsProposal (map proposal_value proposals.now)) }
{
    !proposals.is_empty() && all_proposals_fit(proposals)
}

fn all_proposals_fit(proposals: &[Proposal]) -> bool
    ensures { IsTrue result ↔ AllByRecursion FitsProposal (map proposal_value proposals.now) }
{
    let mut rest = proposals;
    while let [first, others @ ..] = rest {
        if !fits_proposal(first) {
            return false;
        }
        rest = others;
    }
    true
}

fn fits_proposal(proposal: &Proposal) -> bool
    ensures { IsTrue result ↔ FitsProposal (proposal_value proposal.now) }
{
    let spi = capped(proposal.spi.as_slice().len());
    let transforms = proposal.transforms.as_slice();
    spi < 256
        && transforms.len() < 256
        && all_transforms_fit(transforms)
        && 8 + spi + transforms_len(transforms) < LENGTH_END
}

fn all_transforms_fit(transforms: &[Transform]) -> bool
    ensures { IsTrue result ↔ AllByRecursion FitsTransform (map transform_value transforms.now) }
{
    let mut rest = transforms;
    while let [first, others @ ..] = rest {
        if !fits_transform(first) {
            return false;
        }
        rest = others;
    }
    true
}

fn fits_transform(transform: &Transform) -> bool
    ensures { IsTrue result ↔ FitsTransform (transform_value transform.now) }
{
    let attributes = transform.attributes.as_slice();
    all_attributes_fit(attributes) && 8 + attributes_len(attributes) < LENGTH_END
}

fn all_attributes_fit(attributes: &[Attribute]) -> bool
    ensures { IsTrue result ↔ AllByRecursion FitsAttribute (map attribute_value attributes.now) }
{
    let mut rest = attributes;
    while let [first, others @ ..] = rest {
        if !fits_attribute(first) {
            return false;
        }
        rest = others;
    }
    true
}

fn fits_attribute(attribute: &Attribute) -> bool
    ensures { IsTrue result ↔ FitsAttribute (attribute_value attribute.now) }
{
    match attribute {
        Attribute::Fixed { kind, .. } => *kind < 32768,
        Attribute::Free { kind, value } => *kind < 32768 && value.as_slice().len() < LENGTH_END,
    }
}

fn fits_selectors(selectors: &[Selector]) -> bool
    ensures { IsTrue result ↔ FitsSelectors (map selector_value selectors.now) }
{
    !selectors.is_empty() && selectors.len() < 256 && all_selectors_fit(selectors)
}

fn all_selectors_fit(selectors: &[Selector]) -> bool
    ensures { IsTrue result ↔ AllByRecursion FitsSelector (map selector_value selectors.now) }
{
    let mut rest = selectors;
    while let [first, others @ ..] = rest {
        if !fits_selector(first) {
            return false;
        }
        rest = others;
    }
    true
}

fn fits_selector(selector: &Selector) -> bool
    ensures { IsTrue result ↔ FitsSelector (selector_value selector.now) }
{
    let len = if selector.kind == IPV4_RANGE { 4 } else { 16 };
    (selector.kind == IPV4_RANGE || selector.kind == IPV6_RANGE)
        && selector.start.as_slice().len() == len
        && selector.end.as_slice().len() == len
}
