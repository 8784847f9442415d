ghost use Rattle.std.specs.Prelude.{◌≡◌, ◌↔◌, ◌≤◌, length, IfOk, IfSome, IfNone, IsTrue, MatchOption, OnErr};
ghost use Rattle.ha_base.specs.IdForms.{HasSize, gateway_forms};
ghost use Rattle.redirects.specs.Notifications.{HasRedirect, SpellsRedirect};

use ha_base::{GatewayId, Memory, OctetArray, Octets, gateway_forms, has_size};
use std::alloc::Global;

/// The gateway that the data of a REDIRECT notification name, and the nonce behind it (RFC 5685,
/// section 9.2).
///
/// None comes exactly where the data are no identity of a gateway with its length: IPv4 has 4
/// octets, IPv6 16, and FQDN 1 to 255. The nonce is all that follows, of any length. An error is
/// want of memory for it.
pub fn redirect_of(alloc: Global, octets: &[u8]) -> Result<Option<(GatewayId, Octets)>, Memory>
    ensures redirect { IfOk result (λ read. IfSome read
        (λ redirect. SpellsRedirect redirect.0 redirect.1.octets octets.now)) }
    ensures none { IfOk result (λ read. IfNone read (¬ HasRedirect octets.now)) }
    ensures memory { OnErr result (HasRedirect octets.now) }
{
    let Some((gateway, nonce)) = parts_of(octets) else {
        return Ok(None);
    };
    let mut kept = Octets::new(alloc);
    kept.extend(nonce)?;
    Ok(Some((gateway, kept)))
}

/// The gateway and the nonce that the octets spell.
fn parts_of(octets: &[u8]) -> Option<(GatewayId, &[u8])>
    ensures { MatchOption result (¬ HasRedirect octets.now)
        (λ parts. SpellsRedirect parts.0 parts.1.now octets.now) }
{
    let (kind, behind) = octets.split_first()?;
    let (len, behind) = behind.split_first()?;
    let (name, nonce) = behind.split_at_checked(usize::from(*len))?;
    if !is_size(*kind, *len) {
        return None;
    }
    let gateway = GatewayId {
        kind: *kind,
        octets: OctetArray::from_slice(name),
    };
    Some((gateway, nonce))
}

/// So many octets name a gateway of this ID type.
pub(crate) fn is_size(kind: u8, size: u8) -> bool
    ensures { IsTrue result ↔ HasSize gateway_forms kind size }
{
    has_size(&gateway_forms(), kind, usize::from(size))
}
