ghost use Rattle.std.specs.Prelude.{◌≡◌, ◌≤◌, ◌<◌, length, IfOk};
ghost use Rattle.resume_exchange.specs.Attempts.{Begins, SendsAuth, peer_code};
ghost use Rattle.resume_exchange.specs.declared.attempts.TheConstants.{ATTEMPTS_END};

use crate::attempts::{Attempt, OldKeys};
use crate::auth::id_body;
use crate::auth_messages::{Offer, all_addresses, auth_frame, auth_header, copy_of};
use crate::first_messages::{FRESH_OCTETS, LONGEST_KEPT_TICKET, numbered_nonce, request_octets};
use crate::offers::LEAST_CHILD_SPI;
use crate::request::NONCE_OCTETS;
use crate::sealing::{Ready, sa_keys, sealing_key};
use ha_base::{Derivation, End, GatewayId, Memory, Octets};
use ike_sas::SentMessage;
use key_schedule::auth_code;
use std::alloc::Global;

impl Attempt {
    /// Begins an attempt, and gives its request: the nonce of 24 fresh octets and the attempt's
    /// number, the ticket of at most 512 octets, and REDIRECTED_FROM with the gateway that the peer
    /// was redirected from, or else REDIRECT_SUPPORTED (RFC 5723, section 4.3.2; RFC 5685, section
    /// 3). The number is from 1 to 65,279. An error is want of memory.
    pub fn begin(
        alloc: Global,
        number: u64,
        fresh: &[u8; FRESH_OCTETS],
        ticket: &[u8],
        keys: &OldKeys,
        left: &Option<GatewayId>,
    ) -> Result<(Attempt, Octets), Memory>
        requires number { number < ATTEMPTS_END }
        requires ticket { length ticket.now ≤ LONGEST_KEPT_TICKET }
        ensures { IfOk result (λ begun.
            Begins number fresh.now ticket.now keys.now left.now begun.0 begun.1) }
    {
        let ni = numbered_nonce(fresh, number);
        let sent = request_octets(alloc, number, &ni, ticket, left)?;
        let attempt = Attempt {
            number,
            ni,
            keys: *keys,
            request: copy_of(alloc, sent.as_slice())?,
            awaited: None,
        };
        Ok((attempt, sent))
    }
}

/// The AUTH code of the peer.
fn peer_code(old: &OldKeys, from: &Derivation, request: &[u8]) -> [u8; 32]
    ensures { result ≡ peer_code old.now from.now request.now }
{
    let keys = sa_keys(&old.sk_d, old.size, from);
    let body = id_body(&old.identity);
    auth_code(&keys.sk_pi, request, &from.nr, body.as_slice())
}

/// Seals the peer's IKE_AUTH, after a request of these octets (RFC 5723, section 4.3.3). An error
/// is want of memory.
pub(crate) fn seal_auth(
    alloc: Global,
    old: &OldKeys,
    from: &Derivation,
    request: &[u8],
) -> Result<SentMessage, Memory>
    requires { from.now.spii < ATTEMPTS_END }
    ensures { IfOk result (SendsAuth old.now from.now request.now) }
{
    let code = peer_code(old, from, request);
    let offer = Offer {
        number: 1,
        spi: LEAST_CHILD_SPI + from.spii as u32,
        size: old.size,
    };
    let all = all_addresses();
    let frame = auth_frame(alloc, End::Peer, &old.identity, &code, offer, &all, &all)?;
    let ready = Ready::new(alloc, frame)?;
    let key = sealing_key(&old.sk_d, old.size, from, End::Peer);
    Ok(ready.seal(&key, &auth_header(End::Peer, from)))
}
