//! Proposals, their transforms, and the attributes of these.

ghost use Rattle.std.specs.Prelude.{◌≡◌, ◌+◌, ◌-◌, ◌<◌, ◌≤◌, length, IfOk, Ok};
ghost use Rattle.ike_values.specs.AttributeView.{attribute_value};
ghost use Rattle.ike_values.specs.TransformView.{transform_value};
ghost use Rattle.ike_values.specs.ProposalView.{proposal_value};
ghost use Rattle.ike_grammar.specs.Faults.{Gives, many, two_at, unless};
ghost use Rattle.ike_grammar.specs.declared.proposals.TheConstants.{FIXED};
ghost use Rattle.ike_grammar.specs.Proposals.{attribute_at, fixed_read, free_read, free_tests, transform_at, transforms_at, proposal_at, proposals_at};

use crate::fault::{Unread, bad_at};
use crate::octets::{octets_of, place, two};
use ike_encoding::last_mark;
use ike_values::{Attribute, Attributes, Proposal, Proposals, Reason, Transform, Transforms};
use std::alloc::Global;

/// The first bit of an attribute: its value has two octets.
const FIXED: u16 = 32768;

#[tactic(auto, unfolding(crate::specs::Proposals::proposals_at))]
pub(crate) fn proposals_of(alloc: Global, end: usize, body: &[u8]) -> Result<Proposals, Unread>
    requires { length body.now ≤ end }
    ensures { Gives (λ x. x) result (proposals_at end body.now) }
{
    if body.is_empty() {
        return Err(bad_at(place(end, body), Reason::Short));
    }
    all_proposals(alloc, end, body)
}

fn all_proposals(alloc: Global, end: usize, body: &[u8]) -> Result<Proposals, Unread>
    requires { length body.now ≤ end }
    ensures { Gives (λ x. x) result (many (proposal_at end) body.now) }
{
    let mut proposals = Proposals::new(alloc);
    let mut rest = body;
    while !rest.is_empty() {
        let (proposal, behind) = proposal_of(alloc, end, rest)?;
        proposals.push(proposal)?;
        rest = behind;
    }
    Ok(proposals)
}

#[tactic(auto, unfolding(crate::specs::Proposals::proposal_at))]
fn proposal_of(alloc: Global, end: usize, bytes: &[u8]) -> Result<(Proposal, &[u8]), Unread>
    requires { length bytes.now ≤ end }
    ensures { Gives (λ x. (proposal_value x.0, x.1.now)) result (proposal_at end bytes.now) }
{
    if bytes.len() < 8 {
        return Err(bad_at(place(end, bytes), Reason::Short));
    }
    if bytes[0] != 0 && bytes[0] != 2 {
        return Err(bad_at(place(end, bytes), Reason::Field));
    }
    let len = two(bytes, 2) as usize;
    let size = bytes[6] as usize;
    if len < 8 + size || bytes.len() < len {
        return Err(bad_at(place(end, bytes) + 2, Reason::Length));
    }
    let (item, behind) = bytes.split_at(len);
    if bytes[0] != last_mark(2, behind.is_empty()) {
        return Err(bad_at(place(end, bytes), Reason::Field));
    }
    let (_, inside) = item.split_at(8);
    let (spi, inside) = inside.split_at(size);
    let end = place(end, behind);
    let (transforms, left) = transforms_of(alloc, end, bytes[7], inside)?;
    if !left.is_empty() {
        return Err(bad_at(place(end, left), Reason::Trailing));
    }
    let proposal = Proposal {
        number: bytes[4],
        protocol: bytes[5],
        spi: octets_of(alloc, spi)?,
        transforms,
    };
    Ok((proposal, behind))
}

fn transforms_of(
    alloc: Global,
    end: usize,
    count: u8,
    bytes: &[u8],
) -> Result<(Transforms, &[u8]), Unread>
    requires { length bytes.now ≤ end }
    ensures given { Gives (λ x. (x.0, x.1.now)) result (transforms_at end count bytes.now) }
    ensures within { IfOk result (λ x. length x.1.now ≤ length bytes.now) }
{
    let mut transforms = Transforms::new(alloc);
    let mut rest = bytes;
    for index in 0..count {
        let (transform, behind) = transform_of(alloc, end, count - index == 1, rest)?;
        transforms.push(transform)?;
        rest = behind;
    }
    Ok((transforms, rest))
}

#[tactic(auto, unfolding(crate::specs::Proposals::transform_at))]
fn transform_of(
    alloc: Global,
    end: usize,
    last: bool,
    bytes: &[u8],
) -> Result<(Transform, &[u8]), Unread>
    requires { length bytes.now ≤ end }
    ensures { Gives (λ x. (transform_value x.0, x.1.now)) result (transform_at end last bytes.now) }
{
    if bytes.len() < 8 {
        return Err(bad_at(place(end, bytes), Reason::Short));
    }
    if bytes[0] != 0 && bytes[0] != 3 {
        return Err(bad_at(place(end, bytes), Reason::Field));
    }
    let len = two(bytes, 2) as usize;
    if len < 8 || bytes.len() < len {
        return Err(bad_at(place(end, bytes) + 2, Reason::Length));
    }
    if bytes[0] != last_mark(3, last) {
        return Err(bad_at(place(end, bytes), Reason::Field));
    }
    let (item, behind) = bytes.split_at(len);
    let (_, inside) = item.split_at(8);
    let transform = Transform {
        kind: bytes[4],
        id: two(bytes, 6),
        attributes: attributes_of(alloc, place(end, behind), inside)?,
    };
    Ok((transform, behind))
}

fn attributes_of(alloc: Global, end: usize, bytes: &[u8]) -> Result<Attributes, Unread>
    requires { length bytes.now ≤ end }
    ensures { Gives (λ x. x) result (many (attribute_at end) bytes.now) }
{
    let mut attributes = Attributes::new(alloc);
    let mut rest = bytes;
    while !rest.is_empty() {
        let (attribute, behind) = attribute_of(alloc, end, rest)?;
        attributes.push(attribute)?;
        rest = behind;
    }
    Ok(attributes)
}

#[tactic(auto, unfolding(crate::specs::Proposals::attribute_at))]
fn attribute_of(alloc: Global, end: usize, bytes: &[u8]) -> Result<(Attribute, &[u8]), Unread>
    requires { length bytes.now ≤ end }
    ensures { Gives (λ x. (attribute_value x.0, x.1.now)) result (attribute_at end bytes.now) }
{
    if bytes.len() < 4 {
        return Err(bad_at(place(end, bytes), Reason::Short));
    }
    if two(bytes, 0) >= FIXED {
        return Ok(fixed_of(bytes));
    }
    free_of(alloc, end, bytes)
}

/// An attribute whose value has two octets.
fn fixed_of(bytes: &[u8]) -> (Attribute, &[u8])
    requires long { 4 ≤ length bytes.now }
    requires fixed { FIXED ≤ two_at bytes.now 0 }
    ensures { (attribute_value result.0, result.1.now) ≡ fixed_read bytes.now }
{
    let (_, behind) = bytes.split_at(4);
    let attribute = Attribute::Fixed {
        kind: two(bytes, 0) - FIXED,
        value: two(bytes, 2),
    };
    (attribute, behind)
}

/// An attribute whose value has as many octets as its length says.
fn free_of(alloc: Global, end: usize, bytes: &[u8]) -> Result<(Attribute, &[u8]), Unread>
    requires within { length bytes.now ≤ end }
    requires long { 4 ≤ length bytes.now }
    ensures { Gives (λ x. (attribute_value x.0, x.1.now)) result
        (unless (free_tests end bytes.now) (Ok (free_read bytes.now))) }
{
    let (_, rest) = bytes.split_at(4);
    let len = two(bytes, 2) as usize;
    if rest.len() < len {
        return Err(bad_at(place(end, bytes) + 2, Reason::Length));
    }
    let (value, behind) = rest.split_at(len);
    let kind = two(bytes, 0);
    let value = octets_of(alloc, value)?;
    Ok((Attribute::Free { kind, value }, behind))
}
