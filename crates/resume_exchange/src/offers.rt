ghost use Rattle.std.specs.Prelude.{◌≡◌, None, Some, MatchOption, map};
ghost use Rattle.std.specs.List.{list_any};
ghost use Rattle.ike_values.specs.AttributeView.{attribute_value};
ghost use Rattle.ike_values.specs.ProposalView.{proposal_value};
ghost use Rattle.ike_values.specs.TransformView.{transform_value};
ghost use Rattle.resume_exchange.specs.Offers.{first_fit, fits, has_type, is_child_spi, is_cipher};
ghost use Rattle.resume_exchange.specs.Offers.{is_transform, key_bits, key_length, leaves_out};

use ha_base::{KeySize, read_u32};
use ike_values::{Attribute, Proposal, Proposals, Transform};

/// The protocol of a Child SA here (RFC 7296, section 3.3.1).
pub const ESP: u8 = 3;

/// The type of a transform that encrypts (RFC 7296, section 3.3.2).
pub const ENCR: u8 = 1;

/// The type of a transform that keeps integrity (RFC 7296, section 3.3.2).
pub const INTEG: u8 = 3;

/// The type of a transform that exchanges keys (RFC 7296, section 3.3.2).
pub const DH: u8 = 4;

/// The type of a transform that says whether sequence numbers are extended (RFC 7296, section
/// 3.3.2).
pub const ESN: u8 = 5;

/// AES-GCM with a check value of sixteen octets (RFC 4106, section 8.4).
pub const AES_GCM_16: u16 = 20;

/// Sequence numbers are extended (RFC 7296, section 3.3.2).
pub const EXTENDED: u16 = 1;

/// No integrity algorithm, or no key exchange (RFC 7296, section 3.3.2).
pub const NONE: u16 = 0;

/// The type of the attribute that tells the bits of a key (RFC 7296, section 3.3.5).
pub const KEY_LENGTH: u16 = 14;

/// The least SPI of a Child SA: those below are reserved (RFC 4303, section 2.1).
pub const LEAST_CHILD_SPI: u32 = 256;

/// The first proposal that a member takes for the Child SA of a resumed association whose keys
/// have this size.
///
/// It is for ESP with an SPI of four octets from 256 on, it offers AES-GCM with a key of this size
/// and extended sequence numbers, and it offers to do without an integrity algorithm and without a
/// key exchange where it names any.
pub fn first_fit(proposals: &Proposals, size: KeySize) -> Option<&Proposal>
    ensures { MatchOption result
        (first_fit size proposals.now ≡ None)
        (λ proposal. first_fit size proposals.now ≡ Some (proposal_value proposal.now)) }
{
    let mut rest = proposals.as_slice();
    while let [proposal, others @ ..] = rest {
        if fits(proposal, size) {
            return Some(proposal);
        }
        rest = others;
    }
    None
}

/// Whether the proposal fits.
fn fits(proposal: &Proposal, size: KeySize) -> bool
    ensures { result ≡ fits size (proposal_value proposal.now) }
{
    let transforms = proposal.transforms.as_slice();
    proposal.protocol == ESP
        && is_child_spi(proposal.spi.as_slice())
        && has_cipher(transforms, size)
        && offers(transforms, ESN, EXTENDED)
        && leaves_out(transforms, INTEG)
        && leaves_out(transforms, DH)
}

/// Whether the octets are an SPI of a Child SA that is not reserved.
fn is_child_spi(spi: &[u8]) -> bool
    ensures { result ≡ is_child_spi spi.now }
{
    spi.len() == 4 && LEAST_CHILD_SPI <= read_u32(spi)
}

/// The bits of an AES key of this size.
pub(crate) fn key_bits(size: KeySize) -> u16
    ensures { result ≡ key_bits size }
{
    match size {
        KeySize::Bits128 => 128,
        KeySize::Bits256 => 256,
    }
}

/// Whether the transform is AES-GCM with a key of this size.
fn is_cipher(transform: &Transform, size: KeySize) -> bool
    ensures { result ≡ is_cipher size (transform_value transform.now) }
{
    transform.kind == ENCR
        && transform.id == AES_GCM_16
        && key_length(transform.attributes.as_slice()) == Some(key_bits(size))
}

/// Whether AES-GCM with a key of this size is offered.
fn has_cipher(transforms: &[Transform], size: KeySize) -> bool
    ensures { result ≡ list_any (is_cipher size) (map transform_value transforms.now) }
{
    let mut rest = transforms;
    while let [transform, others @ ..] = rest {
        if is_cipher(transform, size) {
            return true;
        }
        rest = others;
    }
    false
}

/// Whether a transform of this type and ID is offered.
fn offers(transforms: &[Transform], kind: u8, id: u16) -> bool
    ensures { result ≡ list_any (is_transform kind id) (map transform_value transforms.now) }
{
    let mut rest = transforms;
    while let [transform, others @ ..] = rest {
        if transform.kind == kind && transform.id == id {
            return true;
        }
        rest = others;
    }
    false
}

/// Whether a transform of this type is named.
fn names(transforms: &[Transform], kind: u8) -> bool
    ensures { result ≡ list_any (has_type kind) (map transform_value transforms.now) }
{
    let mut rest = transforms;
    while let [transform, others @ ..] = rest {
        if transform.kind == kind {
            return true;
        }
        rest = others;
    }
    false
}

/// Whether no transform of this type is named, or none is offered.
fn leaves_out(transforms: &[Transform], kind: u8) -> bool
    ensures { result ≡ leaves_out kind (map transform_value transforms.now) }
{
    !names(transforms, kind) || offers(transforms, kind, NONE)
}

/// The bits of a key that the first such attribute tells.
fn key_length(attributes: &[Attribute]) -> Option<u16>
    ensures { result ≡ key_length (map attribute_value attributes.now) }
{
    let mut rest = attributes;
    while let [attribute, others @ ..] = rest {
        if let Attribute::Fixed {
            kind: KEY_LENGTH,
            value,
        } = attribute
        {
            return Some(*value);
        }
        rest = others;
    }
    None
}
