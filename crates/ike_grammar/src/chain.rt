//! Chains of payloads.

ghost use Rattle.std.specs.Prelude.{◌≡◌, ◌+◌, ◌-◌, ◌≤◌, length};
ghost use Rattle.ike_values.specs.PayloadView.{payload_value};
ghost use Rattle.ike_grammar.specs.Faults.{Gives};
ghost use Rattle.ike_grammar.specs.Chain.{body_at, leads_to, payload_at, chain_at};

use crate::bodies::{auth_of, delete_of, id_of, nonce_of, notify_of, sk_of};
use crate::fault::{Unread, bad_at};
use crate::kind::{Kind, is_other, is_sk, kind_of};
use crate::octets::{octets_of, place, two};
use crate::proposals::proposals_of;
use crate::selectors::traffic_of;
use ike_values::{OtherBody, Payload, Payloads, Reason};
use std::alloc::Global;

#[tactic(auto, unfolding(crate::specs::Chain::chain_by))]
pub(crate) fn chain_of(
    alloc: Global,
    end: usize,
    inner: bool,
    first: u8,
    bytes: &[u8],
) -> Result<Payloads, Unread>
    requires { length bytes.now ≤ end }
    ensures { Gives (λ x. x) result (chain_at end inner first bytes.now) }
{
    let mut payloads = Payloads::new(alloc);
    let mut number = first;
    let mut rest = bytes;
    while number != 0 {
        let (payload, next, behind) = payload_of(alloc, end, number, inner, rest)?;
        payloads.push(payload)?;
        number = next;
        rest = behind;
    }
    if !rest.is_empty() {
        return Err(bad_at(place(end, rest), Reason::Trailing));
    }
    Ok(payloads)
}

#[tactic(auto, unfolding(crate::specs::Chain::payload_at))]
fn payload_of(
    alloc: Global,
    end: usize,
    number: u8,
    inner: bool,
    bytes: &[u8],
) -> Result<(Payload, u8, &[u8]), Unread>
    requires { length bytes.now ≤ end }
    ensures { Gives (λ x. (payload_value x.0, x.1, x.2.now)) result
        (payload_at end number inner bytes.now) }
{
    let kind = kind_of(number);
    if bytes.len() < 4 {
        return Err(bad_at(place(end, bytes), Reason::Short));
    }
    let len = two(bytes, 2) as usize;
    if len < 4 || bytes.len() < len {
        return Err(bad_at(place(end, bytes) + 2, Reason::Length));
    }
    if is_other(kind) && bytes[1] >= CRITICAL {
        return Err(bad_at(place(end, bytes), Reason::UnknownCritical(number)));
    }
    if is_sk(kind) && inner {
        return Err(bad_at(place(end, bytes), Reason::Field));
    }
    let next = bytes[0];
    let (whole, behind) = bytes.split_at(len);
    let (_, body) = whole.split_at(4);
    let payload = body_of(alloc, kind, place(end, behind), number, next, body)?;
    leading(kind, end, next, behind, payload)
}

/// The critical bit (RFC 7296, section 3.2).
const CRITICAL: u8 = 128;

#[tactic(auto, unfolding(crate::specs::Chain::body_at))]
fn body_of(
    alloc: Global,
    kind: Kind,
    end: usize,
    number: u8,
    next: u8,
    body: &[u8],
) -> Result<Payload, Unread>
    requires { length body.now + 4 ≤ end }
    ensures { Gives payload_value result (body_at kind end number next body.now) }
{
    match kind {
        Kind::Sa => Ok(Payload::Sa(proposals_of(alloc, end, body)?)),
        Kind::Ke => Ok(Payload::Ke(octets_of(alloc, body)?)),
        Kind::IdI => Ok(Payload::IdI(id_of(alloc, end, body)?)),
        Kind::IdR => Ok(Payload::IdR(id_of(alloc, end, body)?)),
        Kind::Cert => Ok(Payload::Cert(octets_of(alloc, body)?)),
        Kind::CertReq => Ok(Payload::CertReq(octets_of(alloc, body)?)),
        Kind::Auth => Ok(Payload::Auth(auth_of(alloc, end, body)?)),
        Kind::Nonce => Ok(Payload::Nonce(nonce_of(alloc, end, body)?)),
        Kind::Notify => Ok(Payload::Notify(notify_of(alloc, end, body)?)),
        Kind::Delete => Ok(Payload::Delete(delete_of(alloc, end, body)?)),
        Kind::Vendor => Ok(Payload::Vendor(octets_of(alloc, body)?)),
        Kind::TsI => Ok(Payload::TsI(traffic_of(alloc, end, body)?)),
        Kind::TsR => Ok(Payload::TsR(traffic_of(alloc, end, body)?)),
        Kind::Sk => Ok(Payload::Sk(sk_of(alloc, end, next, body)?)),
        Kind::Cp => Ok(Payload::Cp(octets_of(alloc, body)?)),
        Kind::Eap => Ok(Payload::Eap(octets_of(alloc, body)?)),
        Kind::Other => Ok(Payload::Other(OtherBody {
            kind: number,
            body: octets_of(alloc, body)?,
        })),
    }
}

// Behind SK stands nothing, and its next payload is the first inner one.
fn leading(
    kind: Kind,
    end: usize,
    next: u8,
    behind: &[u8],
    payload: Payload,
) -> Result<(Payload, u8, &[u8]), Unread>
    requires { length behind.now ≤ end }
    ensures { Gives (λ x. (payload_value x.0, x.1, x.2.now)) result
        (leads_to kind end next behind.now (payload_value payload)) }
{
    match kind {
        Kind::Sk if !behind.is_empty() => Err(bad_at(place(end, behind), Reason::SkNotLast)),
        Kind::Sk => Ok((payload, 0, behind)),
        _ => Ok((payload, next, behind)),
    }
}
