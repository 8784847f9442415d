//! How many octets values have on the wire. A count stops at 65,536, which no length field of two
//! octets holds.

ghost use Rattle.std.specs.Prelude.{◌≡◌, ◌+◌, ◌<◌, ◌^◌, length, map, min};
ghost use Rattle.ike_values.specs.AttributeView.{attribute_value};
ghost use Rattle.ike_values.specs.TransformView.{transform_value};
ghost use Rattle.ike_values.specs.ProposalView.{proposal_value};
ghost use Rattle.ike_values.specs.SelectorView.{selector_value};
ghost use Rattle.ike_values.specs.PayloadView.{payload_value};
ghost use Rattle.ike_values.specs.Spelling.{attribute_spelling, attributes_spelling, selectors_spelling};
ghost use Rattle.ike_values.specs.Writing.{transforms_written, proposals_written, body_written};
ghost use Rattle.ike_values.specs.declared.lengths.TheConstants.{LENGTH_END};

use crate::attribute::Attribute;
use crate::payload::{Payload, SkBody};
use crate::proposal::Proposal;
use crate::selector::Selector;
use crate::transform::Transform;

/// Every length that a field of two octets holds is below this (RFC 7296, section 3.2).
pub const LENGTH_END: usize = 65_536;

/// The octets of a payload's body, or 65,536 where there are more.
pub fn body_len(payload: &Payload) -> usize
    ensures { result ≡ min LENGTH_END (length (body_written (payload_value payload.now))) }
{
    match payload {
        Payload::Sa(proposals) => proposals_len(proposals.as_slice()),
        Payload::Ke(octets)
        | Payload::Cert(octets)
        | Payload::CertReq(octets)
        | Payload::Nonce(octets)
        | Payload::Vendor(octets)
        | Payload::Cp(octets)
        | Payload::Eap(octets) => capped(octets.as_slice().len()),
        Payload::IdI(id) | Payload::IdR(id) => capped(4 + id.content.as_slice().len()),
        Payload::Auth(auth) => capped(4 + auth.content.as_slice().len()),
        Payload::Notify(notify) => {
            let spi = capped(notify.spi.as_slice().len());
            capped(4 + spi + notify.content.as_slice().len())
        }
        Payload::Delete(delete) => capped(4 + delete.spis.as_slice().len()),
        Payload::TsI(selectors) | Payload::TsR(selectors) => {
            capped(4 + selectors_len(selectors.as_slice()))
        }
        Payload::Sk(sk) => capped(sk_len(sk)),
        Payload::Other(other) => capped(other.body.as_slice().len()),
    }
}

// What the types of an SK body say of it: an IV of 8 octets, and a check value of 16.
pub(crate) fn sk_len(sk: &SkBody) -> usize
    ensures len { result ≡ 24 + length sk.now.ciphertext.octets }
    ensures iv { sk.now.iv < 2 ^ 64 }
    ensures icv { length sk.now.icv ≡ 16 }
{
    sk.iv.to_be_bytes().len() + sk.ciphertext.as_slice().len() + code_len(&sk.icv)
}

fn code_len(icv: &[u8; 16]) -> usize
    ensures len { result ≡ 16 }
    ensures icv { length icv.now ≡ 16 }
{
    icv.len()
}

pub(crate) fn capped(len: usize) -> usize
    ensures { result ≡ min LENGTH_END len }
{
    len.min(LENGTH_END)
}

pub(crate) fn proposals_len(proposals: &[Proposal]) -> usize
    ensures { result ≡ min LENGTH_END (length (proposals_written
        (map proposal_value proposals.now))) }
{
    let mut len = 0;
    let mut rest = proposals;
    while let [first, others @ ..] = rest {
        len = capped(len + proposal_len(first));
        rest = others;
    }
    len
}

/// The octets of a proposal, or 65,536 where there are more.
pub fn proposal_len(proposal: &Proposal) -> usize
    ensures { result ≡ min LENGTH_END (8 + (length (proposal_value proposal.now).spi
        + length (transforms_written (proposal_value proposal.now).transforms))) }
{
    let spi = capped(proposal.spi.as_slice().len());
    capped(8 + spi + transforms_len(proposal.transforms.as_slice()))
}

pub(crate) fn transforms_len(transforms: &[Transform]) -> usize
    ensures { result ≡ min LENGTH_END (length (transforms_written
        (map transform_value transforms.now))) }
{
    let mut len = 0;
    let mut rest = transforms;
    while let [first, others @ ..] = rest {
        len = capped(len + 8 + attributes_len(first.attributes.as_slice()));
        rest = others;
    }
    len
}

/// The octets of attributes, or 65,536 where there are more.
pub fn attributes_len(attributes: &[Attribute]) -> usize
    ensures { result ≡ min LENGTH_END (length (attributes_spelling
        (map attribute_value attributes.now))) }
{
    let mut len = 0;
    let mut rest = attributes;
    while let [first, others @ ..] = rest {
        len = capped(len + attribute_len(first));
        rest = others;
    }
    len
}

fn attribute_len(attribute: &Attribute) -> usize
    ensures { result ≡ min LENGTH_END (length (attribute_spelling
        (attribute_value attribute.now))) }
{
    match attribute {
        Attribute::Fixed { .. } => 4,
        Attribute::Free { value, .. } => capped(4 + value.as_slice().len()),
    }
}

fn selectors_len(selectors: &[Selector]) -> usize
    ensures { result ≡ min LENGTH_END (length (selectors_spelling
        (map selector_value selectors.now))) }
{
    let mut len = 0;
    let mut rest = selectors;
    while let [first, others @ ..] = rest {
        len = capped(len + 8 + first.start.as_slice().len() + first.end.as_slice().len());
        rest = others;
    }
    len
}
