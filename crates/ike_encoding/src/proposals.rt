//! Proposals, their transforms, and the attributes of these.

ghost use Rattle.std.specs.Prelude.{◌≡◌, ◌+◌, ◌++◌, ◌≤◌, length, map, IsOk, OnOk};
ghost use Rattle.std.specs.List.{AllByRecursion};
ghost use Rattle.ike_values.specs.AttributeView.{attribute_value};
ghost use Rattle.ike_values.specs.TransformView.{transform_value};
ghost use Rattle.ike_values.specs.ProposalView.{proposal_value};
ghost use Rattle.ike_values.specs.Spelling.{last_mark, attribute_spelling, attributes_spelling};
ghost use Rattle.ike_values.specs.Writing.{transform_written, transforms_written, proposal_written, proposals_written};
ghost use Rattle.ike_values.specs.Validity.{FitsAttribute, FitsTransform, FitsProposal};

use crate::octets::put_two;
use ha_base::{Memory, Octets};
use ike_values::{Attribute, Proposal, Transform, attributes_len, proposal_len};

pub(crate) fn put_proposals(out: &mut Octets, proposals: &[Proposal]) -> Result<(), Memory>
    requires { AllByRecursion FitsProposal (map proposal_value proposals.now) }
    ensures written { OnOk result (out.new.octets ≡ out.old.octets
        ++ proposals_written (map proposal_value proposals.now)) }
    ensures spare { OnOk result (out.old.spare ≤ out.new.spare
        + length (proposals_written (map proposal_value proposals.now))) }
    ensures room { length (proposals_written (map proposal_value proposals.now)) ≤ out.old.spare →
        IsOk result }
{
    let mut rest = proposals;
    while let [first, others @ ..] = rest {
        put_proposal(out, others.is_empty(), first)?;
        rest = others;
    }
    Ok(())
}

fn put_proposal(out: &mut Octets, last: bool, proposal: &Proposal) -> Result<(), Memory>
    requires { FitsProposal (proposal_value proposal.now) }
    ensures written { OnOk result (out.new.octets ≡ out.old.octets
        ++ proposal_written (proposal_value proposal.now) last) }
    ensures spare { OnOk result (out.old.spare ≤ out.new.spare
        + length (proposal_written (proposal_value proposal.now) last)) }
    ensures room { length (proposal_written (proposal_value proposal.now) last) ≤ out.old.spare →
        IsOk result }
{
    let spi = proposal.spi.as_slice();
    let transforms = proposal.transforms.as_slice();
    out.extend(&[last_mark(2, last), 0])?;
    put_two(out, proposal_len(proposal) as u16)?;
    out.extend(&[
        proposal.number,
        proposal.protocol,
        spi.len() as u8,
        transforms.len() as u8,
    ])?;
    out.extend(spi)?;
    put_transforms(out, transforms)
}

/// The first octet of a proposal or a transform: 0 for the last of its list, and `more` for the
/// others, which is 2 for proposals and 3 for transforms (RFC 7296, sections 3.3.1 and 3.3.2).
pub fn last_mark(more: u8, last: bool) -> u8
    ensures { result ≡ last_mark more last }
{
    if last { 0 } else { more }
}

fn put_transforms(out: &mut Octets, transforms: &[Transform]) -> Result<(), Memory>
    requires { AllByRecursion FitsTransform (map transform_value transforms.now) }
    ensures written { OnOk result (out.new.octets ≡ out.old.octets
        ++ transforms_written (map transform_value transforms.now)) }
    ensures spare { OnOk result (out.old.spare ≤ out.new.spare
        + length (transforms_written (map transform_value transforms.now))) }
    ensures room { length (transforms_written (map transform_value transforms.now)) ≤ out.old.spare
        → IsOk result }
{
    let mut rest = transforms;
    while let [first, others @ ..] = rest {
        put_transform(out, others.is_empty(), first)?;
        rest = others;
    }
    Ok(())
}

fn put_transform(out: &mut Octets, last: bool, transform: &Transform) -> Result<(), Memory>
    requires { FitsTransform (transform_value transform.now) }
    ensures written { OnOk result (out.new.octets ≡ out.old.octets
        ++ transform_written (transform_value transform.now) last) }
    ensures spare { OnOk result (out.old.spare ≤ out.new.spare
        + length (transform_written (transform_value transform.now) last)) }
    ensures room { length (transform_written (transform_value transform.now) last) ≤ out.old.spare
        → IsOk result }
{
    let attributes = transform.attributes.as_slice();
    out.extend(&[last_mark(3, last), 0])?;
    put_two(out, 8 + attributes_len(attributes) as u16)?;
    out.extend(&[transform.kind, 0])?;
    put_two(out, transform.id)?;
    put_attributes(out, attributes)
}

fn put_attributes(out: &mut Octets, attributes: &[Attribute]) -> Result<(), Memory>
    requires { AllByRecursion FitsAttribute (map attribute_value attributes.now) }
    ensures written { OnOk result (out.new.octets ≡ out.old.octets
        ++ attributes_spelling (map attribute_value attributes.now)) }
    ensures spare { OnOk result (out.old.spare ≤ out.new.spare
        + length (attributes_spelling (map attribute_value attributes.now))) }
    ensures room { length (attributes_spelling (map attribute_value attributes.now)) ≤ out.old.spare
        → IsOk result }
{
    let mut rest = attributes;
    while let [first, others @ ..] = rest {
        put_attribute(out, first)?;
        rest = others;
    }
    Ok(())
}

fn put_attribute(out: &mut Octets, attribute: &Attribute) -> Result<(), Memory>
    requires { FitsAttribute (attribute_value attribute.now) }
    ensures written { OnOk result (out.new.octets ≡ out.old.octets
        ++ attribute_spelling (attribute_value attribute.now)) }
    ensures spare { OnOk result (out.old.spare ≤ out.new.spare
        + length (attribute_spelling (attribute_value attribute.now))) }
    ensures room { length (attribute_spelling (attribute_value attribute.now)) ≤ out.old.spare →
        IsOk result }
{
    match attribute {
        Attribute::Fixed { kind, value } => {
            put_two(out, 32768 + *kind)?;
            put_two(out, *value)
        }
        Attribute::Free { kind, value } => {
            put_two(out, *kind)?;
            put_two(out, value.as_slice().len() as u16)?;
            out.extend(value.as_slice())
        }
    }
}
