ghost use Rattle.std.specs.Prelude.{◌≡◌, ◌+◌, ◌*◌, ◌≤◌, ◌++◌, length};
ghost use Rattle.std.specs.Int.{w64, to_be_bytes};
ghost use Rattle.ha_base.specs.KeySizes.{sealing_octets};
ghost use Rattle.key_schedule.specs.Keys.{skeyseed, nonces_and_spis, sa_stream, sa_keys, keymat, keys_of_child};

use crate::expansion::prf_plus;
use crate::mac::hmac_of_parts;
use ha_base::{ChildKeys, KeySize, OctetList, SaKeys};

fn key_of(octets: &[u8]) -> [u8; 32]
    requires { length octets.now ≡ 32 }
    ensures { result ≡ octets.now }
{
    let mut key = [0; 32];
    key.copy_from_slice(octets);
    key
}

fn join(first: &[u8], second: &[u8], out: &mut [u8])
    requires { length first.now + length second.now ≡ length out.old }
    ensures { out.new ≡ first.now ++ second.now }
{
    let middle = first.len();
    out[..middle].copy_from_slice(first);
    out[middle..].copy_from_slice(second);
}

fn joined_nonces(ni: &[u8; 32], nr: &[u8; 32]) -> [u8; 64]
    ensures { result ≡ ni.now ++ nr.now }
{
    let mut nonces = [0; 64];
    join(ni, nr, &mut nonces);
    nonces
}

fn joined_spis(spii: u64, spir: u64) -> [u8; 16]
    ensures { result ≡ to_be_bytes w64 spii ++ to_be_bytes w64 spir }
{
    let initiator = spii.to_be_bytes();
    let responder = spir.to_be_bytes();
    let mut spis = [0; 16];
    join(&initiator, &responder, &mut spis);
    spis
}

fn joined_seed(ni: &[u8; 32], nr: &[u8; 32], spii: u64, spir: u64) -> [u8; 80]
    ensures { result ≡ nonces_and_spis ni.now nr.now spii spir }
{
    let nonces = joined_nonces(ni, nr);
    let spis = joined_spis(spii, spir);
    let mut seed = [0; 80];
    join(&nonces, &spis, &mut seed);
    seed
}

fn split_sa_keys(stream: &[u8], key_octets: usize) -> SaKeys
    requires within { key_octets ≤ 36 }
    requires whole { length stream.now ≡ 96 + 2 * key_octets }
    ensures keys { result ≡ sa_keys key_octets stream.now }
    ensures stream { result.sk_d ++ result.sk_ei ++ result.sk_er ++ result.sk_pi
        ++ result.sk_pr ≡ stream.now }
    ensures initiator_size { length result.sk_ei ≡ key_octets }
    ensures responder_size { length result.sk_er ≡ key_octets }
{
    SaKeys {
        sk_d: key_of(&stream[..32]),
        sk_ei: OctetList::from_slice(&stream[32..32 + key_octets]),
        sk_er: OctetList::from_slice(&stream[32 + key_octets..32 + 2 * key_octets]),
        sk_pi: key_of(&stream[32 + 2 * key_octets..64 + 2 * key_octets]),
        sk_pr: key_of(&stream[64 + 2 * key_octets..96 + 2 * key_octets]),
    }
}

fn split_child_keys(stream: &[u8], key_octets: usize) -> ChildKeys
    requires within { key_octets ≤ 36 }
    requires whole { length stream.now ≡ 2 * key_octets }
    ensures keys { result ≡ keys_of_child key_octets stream.now }
    ensures stream { result.to_cluster ++ result.to_peer ≡ stream.now }
    ensures to_cluster_size { length result.to_cluster ≡ key_octets }
    ensures to_peer_size { length result.to_peer ≡ key_octets }
{
    ChildKeys {
        to_cluster: OctetList::from_slice(&stream[..key_octets]),
        to_peer: OctetList::from_slice(&stream[key_octets..2 * key_octets]),
    }
}

/// The keys of a resumed IKE SA (RFC 5723, section 5.1), from the SK_d of the old one, the new
/// nonces and the new SPIs.
pub fn resumed_keys(
    old_sk_d: &[u8; 32],
    size: KeySize,
    ni: &[u8; 32],
    nr: &[u8; 32],
    spii: u64,
    spir: u64,
) -> SaKeys
    ensures keys { let key_octets = sealing_octets size in
        result ≡ sa_keys key_octets (sa_stream key_octets old_sk_d.now ni.now nr.now spii spir) }

    // The keys are the stream, one after the other.
    ensures stream { result.sk_d ++ result.sk_ei ++ result.sk_er ++ result.sk_pi ++ result.sk_pr
        ≡ sa_stream (sealing_octets size) old_sk_d.now ni.now nr.now spii spir }
    ensures initiator_size { length result.sk_ei ≡ sealing_octets size }
    ensures responder_size { length result.sk_er ≡ sealing_octets size }
{
    let key_octets = size.sealing_octets();
    let secret = hmac_of_parts(old_sk_d, b"Resumption", ni, nr);
    let seed = joined_seed(ni, nr, spii, spir);
    let mut space = [0; 168];
    let stream = &mut space[..96 + 2 * key_octets];
    prf_plus(&secret, &seed, stream);
    split_sa_keys(stream, key_octets)
}

/// The keys of the Child SA that is made with an IKE SA, without a key exchange of its own (RFC
/// 7296, section 2.17). The peer is the initiator.
pub fn child_keys(sk_d: &[u8; 32], size: KeySize, ni: &[u8; 32], nr: &[u8; 32]) -> ChildKeys
    ensures keys { let key_octets = sealing_octets size in
        result ≡ keys_of_child key_octets (keymat key_octets sk_d.now ni.now nr.now) }

    // The keys are the key material, one after the other.
    ensures stream { result.to_cluster ++ result.to_peer
        ≡ keymat (sealing_octets size) sk_d.now ni.now nr.now }
    ensures to_cluster_size { length result.to_cluster ≡ sealing_octets size }
    ensures to_peer_size { length result.to_peer ≡ sealing_octets size }
{
    let key_octets = size.sealing_octets();
    let seed = joined_nonces(ni, nr);
    let mut space = [0; 72];
    let stream = &mut space[..2 * key_octets];
    prf_plus(sk_d, &seed, stream);
    split_child_keys(stream, key_octets)
}
