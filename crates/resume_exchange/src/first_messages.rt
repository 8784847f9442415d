ghost use Rattle.std.specs.Prelude.{◌≡◌, ◌+◌, ◌≤◌, ◌<◌, ◌∷◌, ◌++◌, length, IfOk};
ghost use Rattle.ike_encoding.specs.Messages.{message_written};
ghost use Rattle.ike_values.specs.Notifications.{notify_of};
ghost use Rattle.ike_values.specs.Spelling.{two};
ghost use Rattle.ike_values.specs.Values.{nonce};
ghost use Rattle.resume_exchange.specs.FirstMessages.{gateway_data, numbered_nonce};
ghost use Rattle.resume_exchange.specs.FirstMessages.{payload_written, resume_header};
ghost use Rattle.resume_exchange.specs.FirstMessages.{resume_request};

use crate::request::NONCE_OCTETS;
use ha_base::{GatewayId, Memory, Octets};
use ike_encoding::header_octets;
use ike_sas::IKE_SESSION_RESUME;
use ike_values::notify_types::{REDIRECT_SUPPORTED, REDIRECTED_FROM, TICKET_OPAQUE};
use ike_values::payload_types::{NONCE, NOTIFY};
use ike_values::{HEADER_OCTETS, Header, LENGTH_END};
use std::alloc::Global;

/// How many octets a ticket has at most that a peer keeps.
pub const LONGEST_KEPT_TICKET: usize = 512;

/// How many octets of a resumption's nonce are handed in; the others are a number.
pub const FRESH_OCTETS: usize = 24;

/// How many octets the header of a payload has.
const PAYLOAD_HEADER: usize = 4;

/// How many octets a notification has before its data, with the header of its payload.
pub const NOTIFY_FRONT: usize = 8;

/// How many octets a payload with a nonce has.
pub const NONCE_PAYLOAD: usize = PAYLOAD_HEADER + NONCE_OCTETS;

/// Fresh octets, and a number that is drawn once.
pub fn numbered_nonce(fresh: &[u8; FRESH_OCTETS], number: u64) -> [u8; NONCE_OCTETS]
    ensures { result ≡ numbered_nonce fresh.now number }
{
    let counted = number.to_be_bytes();
    let mut octets = [0; NONCE_OCTETS];
    join(fresh, &counted, &mut octets);
    octets
}

/// Fills a list with two others, one behind the other.
fn join(first: &[u8], second: &[u8], out: &mut [u8])
    requires { length first.now + length second.now ≡ length out.old }
    ensures { out.new ≡ first.now ++ second.now }
{
    let middle = first.len();
    out[..middle].copy_from_slice(first);
    out[middle..].copy_from_slice(second);
}

/// Appends the header of a payload whose body has so many octets, and the type of the next one.
fn put_payload_header(out: &mut Octets, next: u8, body: usize)
    requires small { 4 + body < LENGTH_END }
    requires room { PAYLOAD_HEADER ≤ out.old.spare }
    ensures octets { out.new.octets ≡ out.old.octets ++ (next ∷ 0 ∷ two (4 + body)) }
    ensures spare { out.old.spare ≤ out.new.spare + PAYLOAD_HEADER }
{
    let length = PAYLOAD_HEADER + body;
    let header = [next, 0, (length / 256) as u8, (length % 256) as u8];
    out.extend(&header).unwrap();
}

/// Appends a nonce. There is room for it.
pub fn put_nonce(out: &mut Octets, next: u8, octets: &[u8; NONCE_OCTETS])
    requires room { NONCE_PAYLOAD ≤ out.old.spare }
    ensures octets { out.new.octets
        ≡ out.old.octets ++ payload_written next (nonce octets.now) }
    ensures spare { out.old.spare ≤ out.new.spare + NONCE_PAYLOAD }
{
    put_payload_header(out, next, NONCE_OCTETS);
    out.extend(octets).unwrap();
}

/// Appends what a notification of this type has before its data, of which there are so many octets.
fn put_notify_front(out: &mut Octets, next: u8, kind: u16, size: usize)
    requires small { 8 + size < LENGTH_END }
    requires room { NOTIFY_FRONT ≤ out.old.spare }
    ensures octets { out.new.octets
        ≡ out.old.octets ++ (next ∷ 0 ∷ two (8 + size) ++ 0 ∷ 0 ∷ two kind) }
    ensures spare { out.old.spare ≤ out.new.spare + NOTIFY_FRONT }
{
    put_payload_header(out, next, 4 + size);
    out.extend(&[0, 0, (kind / 256) as u8, (kind % 256) as u8])
        .unwrap();
}

/// Appends a notification of this type with these data, protocol 0 and no SPI. There is room for
/// it.
pub fn put_notify(out: &mut Octets, next: u8, kind: u16, content: &[u8])
    requires small { 8 + length content.now < LENGTH_END }
    requires room { 8 + length content.now ≤ out.old.spare }
    ensures octets { out.new.octets
        ≡ out.old.octets ++ payload_written next (notify_of kind content.now) }
    ensures spare { out.old.spare ≤ out.new.spare + 8 + length content.now }
{
    put_notify_front(out, next, kind, content.len());
    out.extend(content).unwrap();
}

/// Appends a notification of this type that names a gateway, with a nonce behind it. There is room
/// for it.
pub fn put_gateway(out: &mut Octets, next: u8, kind: u16, gateway: &GatewayId, behind: &[u8])
    requires small { length behind.now ≤ NONCE_OCTETS }
    requires room { 10 + length gateway.now.octets + length behind.now ≤ out.old.spare }
    ensures octets { out.new.octets
        ≡ out.old.octets ++ payload_written next (notify_of kind (gateway_data gateway.now behind.now)) }
    ensures spare { out.old.spare
        ≤ out.new.spare + 10 + length gateway.now.octets + length behind.now }
{
    let identity = gateway.octets.as_slice();
    put_notify_front(out, next, kind, 2 + identity.len() + behind.len());
    out.extend(&[gateway.kind, identity.len() as u8]).unwrap();
    out.extend(identity).unwrap();
    out.extend(behind).unwrap();
}

/// The header of a peer's request.
fn resume_header(spii: u64) -> Header
    ensures { result ≡ resume_header spii }
{
    Header {
        spii,
        spir: 0,
        exchange: IKE_SESSION_RESUME,
        initiator: true,
        response: false,
        id: 0,
    }
}

/// A peer's request to resume: its nonce, its ticket and the gateway that redirected it, or that it
/// follows redirects (RFC 5723, section 4.3.2; RFC 5685, section 3). An error is want of memory.
pub(crate) fn request_octets(
    alloc: Global,
    spii: u64,
    ni: &[u8; NONCE_OCTETS],
    ticket: &[u8],
    left: &Option<GatewayId>,
) -> Result<Octets, Memory>
    requires { length ticket.now ≤ LONGEST_KEPT_TICKET }
    ensures { IfOk result (λ out.
        out.octets ≡ message_written (resume_request spii ni.now ticket.now left.now)) }
{
    let behind = match left {
        Some(gateway) => 2 + gateway.octets.as_slice().len(),
        None => 0,
    };
    let length = HEADER_OCTETS + NONCE_PAYLOAD + 2 * NOTIFY_FRONT + ticket.len() + behind;
    let mut out = Octets::with_room(alloc, length)?;
    let header = header_octets(&resume_header(spii), NONCE, length as u32);
    out.extend(&header).unwrap();
    put_nonce(&mut out, NOTIFY, ni);
    put_notify(&mut out, NOTIFY, TICKET_OPAQUE, ticket);
    match left {
        Some(gateway) => put_gateway(&mut out, 0, REDIRECTED_FROM, gateway, &[]),
        None => put_notify(&mut out, 0, REDIRECT_SUPPORTED, &[]),
    }
    Ok(out)
}
