ghost use Rattle.std.specs.Prelude.{◌≡◌};
ghost use Rattle.ike_values.specs.Writing.{numbered_written};
ghost use Rattle.resume_exchange.specs.Auth.{IsAuthJudged, right_code};

use crate::half_opens::HalfOpen;
use crate::offers::first_fit;
use crate::parts::parts_of;
use crate::sealing::sa_keys;
use ha_base::{Identity, Moment, OctetList};
use ike_values::Payloads;
use key_schedule::{auth_code, equal_codes};

/// How many octets the body of an ID payload has at most: its type, three reserved octets and the
/// longest identity.
pub const ID_BODY_OCTETS: usize = 4 + 64;

/// What a member makes of the payloads of an IKE_AUTH for a half-open association, before it asks
/// the keeper.
#[derive(Clone, Copy, Debug, PartialEq)]
pub enum AuthJudged {
    /// A payload is missing: IDi, AUTH by the shared key, SA, TSi or TSr.
    Payload,
    /// The peer names another identity than the ticket.
    Identity,
    /// The AUTH code is not that of the resumed keys.
    Code,
    /// No proposal fits.
    NoProposal,
    /// The ticket has expired since.
    Expired,
    /// All is as it has to be. The number is that of the first proposal that fits.
    Correct(u8),
}

/// What a member makes of the payloads of an IKE_AUTH: the first of [`AuthJudged`] that applies
/// (RFC 5723, section 4.3.3).
///
/// Of several payloads of one type the first counts. It takes no memory.
pub fn judge_auth(half_open: &HalfOpen, now: Moment, payloads: &Payloads) -> AuthJudged
    ensures { IsAuthJudged half_open.now now.0 payloads.now result }
{
    let Some((identity, code, proposals)) = parts_of(payloads) else {
        return AuthJudged::Payload;
    };
    let named = &half_open.content.identity;
    if identity.kind != named.kind || identity.content.as_slice() != named.octets.as_slice() {
        return AuthJudged::Identity;
    }
    if !equal_codes(code, &right_code(half_open)) {
        return AuthJudged::Code;
    }
    let Some(proposal) = first_fit(proposals, half_open.content.size) else {
        return AuthJudged::NoProposal;
    };
    if half_open.content.expiry <= now.0 {
        return AuthJudged::Expired;
    }
    AuthJudged::Correct(proposal.number)
}

/// The AUTH code of the peer that the ticket names (RFC 5723, section 5.1; RFC 7296, section
/// 2.15).
fn right_code(half_open: &HalfOpen) -> [u8; 32]
    ensures { result ≡ right_code half_open.now }
{
    let derivation = &half_open.derivation;
    let keys = sa_keys(&half_open.content.sk_d, half_open.content.size, derivation);
    let body = id_body(&half_open.content.identity);
    auth_code(
        &keys.sk_pi,
        half_open.request.as_slice(),
        &derivation.nr,
        body.as_slice(),
    )
}

/// The body of the ID payload of an identity: its type, three reserved octets and its data (RFC
/// 7296, section 3.5).
pub fn id_body(identity: &Identity) -> OctetList<ID_BODY_OCTETS>
    ensures { result ≡ numbered_written identity.now.kind identity.now.octets }
{
    let mut body = OctetList::from_slice(&[identity.kind, 0, 0, 0]);
    for octet in identity.octets.as_slice() {
        body.push(*octet);
    }
    body
}
