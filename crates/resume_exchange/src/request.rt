ghost use Rattle.std.specs.Prelude.{◌≡◌, None, Some, List, ℕ, MatchOption, map};
ghost use Rattle.ike_values.specs.PayloadView.{payload_value};
ghost use Rattle.resume_exchange.specs.Requests.{IsPresented, first_nonce, nonce_data};

use ike_values::notify_types::TICKET_OPAQUE;
use ike_values::{Header, Payload, Payloads};

/// How many octets the nonce of a resumption has here.
pub const NONCE_OCTETS: usize = 32;

/// The nonce and the ticket that a request to resume presents (RFC 5723, section 4.3.2).
///
/// None comes exactly where the Message ID or the responder's SPI is not 0, where the first nonce
/// has not 32 octets or there is none, or where there is no TICKET_OPAQUE. Of several the first
/// counts.
pub fn presented<'a>(header: &Header, payloads: &'a Payloads) -> Option<(&'a [u8], &'a [u8])>
    ensures { MatchOption result
        ((nonce ticket : List ℕ) → ¬ IsPresented header.now payloads.now nonce ticket)
        (λ parts. IsPresented header.now payloads.now parts.0.now parts.1.now) }
{
    if header.id != 0 || header.spir != 0 {
        return None;
    }
    let nonce = first_nonce(payloads.as_slice())?;
    if nonce.len() != NONCE_OCTETS {
        return None;
    }
    let ticket = payloads.first_notify(TICKET_OPAQUE)?;
    Some((nonce, ticket))
}

/// The octets of the first nonce.
pub(crate) fn first_nonce(payloads: &[Payload]) -> Option<&[u8]>
    ensures { MatchOption result
        (first_nonce (map payload_value payloads.now) ≡ None)
        (λ octets. first_nonce (map payload_value payloads.now) ≡ Some octets.now) }
{
    let mut rest = payloads;
    while let [payload, others @ ..] = rest {
        if let Payload::Nonce(octets) = payload {
            return Some(octets.as_slice());
        }
        rest = others;
    }
    None
}
