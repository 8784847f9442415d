ghost use Rattle.std.specs.Prelude.{◌≡◌, length};
ghost use Rattle.ha_base.specs.KeySizes.{sealing_octets};
ghost use Rattle.resume_exchange.specs.ResumedKeys.{resumed_child_keys};
ghost use Rattle.resume_exchange.specs.ResumedRecords.{IsRecordResumed, starts_resumed};

use crate::sealing::sa_keys;
use ha_base::{ChildKeys, Derivation, Identity, KeySize, Origin};
use keeper_book::{Five, Record};
use key_schedule::child_keys;

/// The keys of the Child SA.
fn resumed_child_keys(sk_d: &[u8; 32], size: KeySize, from: &Derivation) -> ChildKeys
    ensures keys { result ≡ resumed_child_keys sk_d.now size from.now }
    ensures to_cluster_size { length result.to_cluster ≡ sealing_octets size }
    ensures to_peer_size { length result.to_peer ≡ sealing_octets size }
{
    let keys = sa_keys(sk_d, size, from);
    child_keys(&keys.sk_d, size, &from.ni, &from.nr)
}

/// The record of a resumed association, from the SK_d of the old one, the size of the keys, the
/// peer's identity, and the SPIs at which the cluster and the peer receive in the Child SA.
pub fn resumed_record(
    sk_d: &[u8; 32],
    size: KeySize,
    identity: Identity,
    from: &Derivation,
    spi_in: u32,
    spi_out: u32,
) -> Record
    ensures { IsRecordResumed sk_d.now size identity from.now spi_in spi_out result }
{
    Record {
        origin: Origin::Resumed(*from),
        spii: from.spii,
        spir: from.spir,
        size,
        identity,
        keys: sa_keys(sk_d, size, from),
        spi_in,
        spi_out,
        child: resumed_child_keys(sk_d, size, from),
        starts: Five {
            esp_out: 1,
            esp_in: 1,
            iv: 1,
            ask: 0,
            answer: 1,
        },
    }
}
