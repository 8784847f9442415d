ghost use Rattle.std.specs.Prelude.{◌≡◌, ◌+◌, ◌≤◌, [], ◌∷◌, ◌++◌, length, IfOk, OnOk};
ghost use Rattle.std.specs.Int.{w32, to_be_bytes};
ghost use Rattle.ike_values.specs.Notifications.{notify_of};
ghost use Rattle.ike_values.specs.SelectorView.{selector_value};
ghost use Rattle.ike_values.specs.Validity.{FitsSelector};
ghost use Rattle.ike_values.specs.Values.{auth, sa, tsi, tsr};
ghost use Rattle.resume_exchange.specs.AuthMessages.{all_addresses, auth_header, auth_payloads};
ghost use Rattle.resume_exchange.specs.AuthMessages.{identity_payload, offered};
ghost use Rattle.resume_exchange.specs.AuthMessages.{offered_transforms};
ghost use Rattle.resume_exchange.specs.Offers.{key_bits};

use crate::offers::{AES_GCM_16, ENCR, ESN, ESP, EXTENDED, KEY_LENGTH, key_bits};
use crate::parts::SHARED_KEY;
use ha_base::{Derivation, End, Identity, KeySize, Memory, OctetList, Octets};
use ike_sas::IKE_AUTH;
use ike_values::notify_types::SET_WINDOW_SIZE;
use ike_values::{
    Attribute, Attributes, AuthBody, Header, IPV4_RANGE, IdBody, Payload, Proposal, Proposals,
    Selector, Selectors, Transform, Transforms,
};
use sk_payload::Frame;
use std::alloc::Global;

/// How many requests of an end may be outstanding.
pub const REQUEST_WINDOW: u32 = 8;

/// The header of an end's message.
pub fn auth_header(end: End, from: &Derivation) -> Header
    ensures { result ≡ auth_header end from.now }
{
    Header {
        spii: from.spii,
        spir: from.spir,
        exchange: IKE_AUTH,
        initiator: end == End::Peer,
        response: end == End::Cluster,
        id: 1,
    }
}

/// A copy of octets. An error is want of memory.
pub fn copy_of(alloc: Global, octets: &[u8]) -> Result<Octets, Memory>
    ensures { IfOk result (λ copy. copy.octets ≡ octets.now) }
{
    let mut copy = Octets::with_room(alloc, octets.len())?;
    copy.extend(octets).unwrap();
    Ok(copy)
}

/// Appends the identity of an end.
fn put_identity(
    alloc: Global,
    frame: &mut Frame,
    end: End,
    identity: &Identity,
) -> Result<(), Memory>
    requires room { 72 ≤ frame.old.room }
    ensures payloads { OnOk result (frame.new.payloads
        ≡ frame.old.payloads ++ identity_payload end identity.now ∷ []) }
    ensures room { OnOk result (frame.old.room ≤ frame.new.room + 72) }
{
    let body = IdBody {
        kind: identity.kind,
        content: copy_of(alloc, identity.octets.as_slice())?,
    };
    let payload = match end {
        End::Peer => Payload::IdI(body),
        End::Cluster => Payload::IdR(body),
    };
    frame.put(&payload);
    Ok(())
}

/// Appends the AUTH code of an end.
fn put_code(alloc: Global, frame: &mut Frame, code: &[u8; 32]) -> Result<(), Memory>
    requires room { 40 ≤ frame.old.room }
    ensures payloads { OnOk result (frame.new.payloads ≡ frame.old.payloads
        ++ auth (record { method = SHARED_KEY; content = code.now }) ∷ []) }
    ensures room { OnOk result (frame.old.room ≤ frame.new.room + 40) }
{
    let payload = Payload::Auth(AuthBody {
        method: SHARED_KEY,
        content: copy_of(alloc, code)?,
    });
    frame.put(&payload);
    Ok(())
}

/// AES-GCM with a key of this size, and extended sequence numbers.
fn offered_transforms(alloc: Global, size: KeySize) -> Result<Transforms, Memory>
    ensures { IfOk result (λ transforms. transforms ≡ offered_transforms size) }
{
    let mut attributes = Attributes::new(alloc);
    attributes.push(Attribute::Fixed {
        kind: KEY_LENGTH,
        value: key_bits(size),
    })?;
    let mut transforms = Transforms::new(alloc);
    transforms.push(Transform {
        kind: ENCR,
        id: AES_GCM_16,
        attributes,
    })?;
    transforms.push(Transform {
        kind: ESN,
        id: EXTENDED,
        attributes: Attributes::new(alloc),
    })?;
    Ok(transforms)
}

/// Appends the one proposal of an end.
fn put_offer(
    alloc: Global,
    frame: &mut Frame,
    number: u8,
    spi: u32,
    size: KeySize,
) -> Result<(), Memory>
    requires room { 36 ≤ frame.old.room }
    ensures payloads { OnOk result (frame.new.payloads
        ≡ frame.old.payloads ++ sa (offered number spi size ∷ []) ∷ []) }
    ensures room { OnOk result (frame.old.room ≤ frame.new.room + 36) }
{
    let mut proposals = Proposals::new(alloc);
    proposals.push(Proposal {
        number,
        protocol: ESP,
        spi: copy_of(alloc, &spi.to_be_bytes())?,
        transforms: offered_transforms(alloc, size)?,
    })?;
    frame.put(&Payload::Sa(proposals));
    Ok(())
}

/// All addresses of IPv4, with all ports and protocols.
pub fn all_addresses() -> Selector
    ensures { selector_value result ≡ all_addresses }
{
    Selector {
        kind: IPV4_RANGE,
        protocol: 0,
        start_port: 0,
        end_port: u16::MAX,
        start: OctetList::from_slice(&[0, 0, 0, 0]),
        end: OctetList::from_slice(&[255, 255, 255, 255]),
    }
}

/// A list of this one selector.
fn one_selector(alloc: Global, selector: &Selector) -> Result<Selectors, Memory>
    ensures { IfOk result (λ selectors. selectors ≡ selector_value selector.now ∷ []) }
{
    let mut selectors = Selectors::new(alloc);
    selectors.push(Selector {
        kind: selector.kind,
        protocol: selector.protocol,
        start_port: selector.start_port,
        end_port: selector.end_port,
        start: OctetList::from_slice(selector.start.as_slice()),
        end: OctetList::from_slice(selector.end.as_slice()),
    })?;
    Ok(selectors)
}

/// Appends a traffic selector of each end.
fn put_selectors(
    alloc: Global,
    frame: &mut Frame,
    initiator: &Selector,
    responder: &Selector,
) -> Result<(), Memory>
    requires initiator { FitsSelector (selector_value initiator.now) }
    requires responder { FitsSelector (selector_value responder.now) }
    requires room { 96 ≤ frame.old.room }
    ensures payloads { OnOk result (frame.new.payloads ≡ frame.old.payloads
        ++ tsi (selector_value initiator.now ∷ []) ∷ tsr (selector_value responder.now ∷ []) ∷ []) }
    ensures room { OnOk result (frame.old.room ≤ frame.new.room + 96) }
{
    let initiators = one_selector(alloc, initiator)?;
    let responders = one_selector(alloc, responder)?;
    frame.put(&Payload::TsI(initiators));
    frame.put(&Payload::TsR(responders));
    Ok(())
}

/// What an end offers for the Child SA: the number of its proposal, the SPI at which it receives,
/// and the size of the keys.
#[derive(Clone, Copy)]
pub struct Offer {
    pub number: u8,
    pub spi: u32,
    pub size: KeySize,
}

/// The inner payloads of an IKE_AUTH of an end, which take at most 352 octets. An error is want of
/// memory.
pub fn auth_frame(
    alloc: Global,
    end: End,
    identity: &Identity,
    code: &[u8; 32],
    offer: Offer,
    initiator: &Selector,
    responder: &Selector,
) -> Result<Frame, Memory>
    requires initiator { FitsSelector (selector_value initiator.now) }
    requires responder { FitsSelector (selector_value responder.now) }
    ensures { IfOk result (λ frame. frame.payloads ≡ auth_payloads
        (identity_payload end identity.now) code.now (offered offer.number offer.spi offer.size)
        (selector_value initiator.now) (selector_value responder.now)) }
{
    let mut frame = Frame::new(alloc)?;
    put_identity(alloc, &mut frame, end, identity)?;
    put_code(alloc, &mut frame, code)?;
    put_offer(alloc, &mut frame, offer.number, offer.spi, offer.size)?;
    put_selectors(alloc, &mut frame, initiator, responder)?;
    frame.put_notify(SET_WINDOW_SIZE, &REQUEST_WINDOW.to_be_bytes());
    Ok(frame)
}
