ghost use Rattle.std.specs.Prelude.{◌<◌};
ghost use Rattle.resume_exchange.specs.declared.attempts.TheConstants.{ATTEMPTS_END};

use ha_base::{Derivation, Identity, KeySize, Octets};

/// No number of an attempt reaches this one: 256 more than it is the SPI at which the peer receives
/// in the Child SA.
pub const ATTEMPTS_END: u64 = 65_280;

/// What a peer keeps of the association that its ticket was issued in.
#[derive(Clone, Copy)]
pub struct OldKeys {
    /// The responder's SPI.
    pub spir: u64,
    /// The key from which the keys of a resumed association are derived.
    pub sk_d: [u8; 32],
    /// The size of the keys that are derived.
    pub size: KeySize,
    /// Who the peer is.
    pub identity: Identity,
}

/// What a peer holds once it sent its IKE_AUTH.
#[derive(Drop)]
pub struct Awaited {
    /// What the keys are derived from.
    pub from: Derivation,
    /// The member's answer to the request, which its AUTH code signs.
    pub response: Octets,
}

/// A resumption that a peer began (RFC 5723, section 4.3).
#[derive(Drop)]
pub struct Attempt {
    /// Its number, from 1 on, which is also the initiator's SPI.
    pub number: u64,
    /// The peer's nonce.
    pub ni: [u8; 32],
    /// What the association was.
    pub keys: OldKeys,
    /// The last request that was sent, which the peer's AUTH code signs.
    pub request: Octets,
    /// What is awaited, once the IKE_AUTH was sent.
    pub awaited: Option<Awaited>,
    pub ghost number_within: { number < ATTEMPTS_END },
}
