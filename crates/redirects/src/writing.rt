ghost use Rattle.std.specs.Prelude.{◌≡◌, ◌+◌, ◌++◌, ◌≤◌, ◌↔◌, length, IsTrue};
ghost use Rattle.redirects.specs.Notifications.{IsGateway, SpellsRedirect};

use crate::limits::{MAX_NONCE, MAX_REDIRECT};
use crate::reading::is_size;
use ha_base::{GatewayId, OctetList};

/// Whether the identity of a gateway has the octets that its type says: then a notification can
/// name it.
pub fn is_gateway(gateway: &GatewayId) -> bool
    ensures { IsTrue result ↔ IsGateway gateway.now }
{
    is_size(gateway.kind, gateway.octets.as_slice().len() as u8)
}

/// The data of a REDIRECT notification with this nonce, or without one, and those of a
/// REDIRECTED_FROM notification, which has none (RFC 5685, sections 9.2 and 9.3). It takes no
/// memory.
pub fn redirect_octets(gateway: &GatewayId, nonce: &[u8]) -> OctetList<MAX_REDIRECT>
    requires gateway { IsGateway gateway.now }
    requires nonce { length nonce.now ≤ MAX_NONCE }
    ensures { SpellsRedirect gateway.now nonce.now result }
{
    let identity = gateway.octets.as_slice();
    let mut octets = OctetList::from_slice(&[gateway.kind, identity.len() as u8]);
    append(&mut octets, identity);
    append(&mut octets, nonce);
    octets
}

fn append(octets: &mut OctetList<MAX_REDIRECT>, more: &[u8])
    requires { length octets.old + length more.now ≤ MAX_REDIRECT }
    ensures { octets.new ≡ octets.old ++ more.now }
{
    for octet in more {
        octets.push(*octet);
    }
}
