ghost use Rattle.std.specs.Prelude.{◌≡◌};
ghost use Rattle.ha_base.specs.KeySizes.{sealing_octets};

use crate::short_lists::OctetList;
use std::fmt;

/// The size of an AES key.
#[derive(Clone, Copy, Debug, PartialEq, Eq)]
pub enum KeySize {
    Bits128,
    Bits256,
}

impl KeySize {
    /// How many octets a sealing key of this size has: those of the AES key and 4 of salt (RFC
    /// 4106, section 8.1).
    pub fn sealing_octets(self) -> usize
        ensures { result ≡ sealing_octets self }
    {
        match self {
            KeySize::Bits128 => 20,
            KeySize::Bits256 => 36,
        }
    }
}

/// The keys of an IKE SA (RFC 7296, section 2.14; RFC 5282, section 7.1): a sealing key is 16 or 32
/// octets of AES key and 4 of salt. `Debug` writes no key.
#[derive(Clone, PartialEq, Eq, Drop)]
pub struct SaKeys {
    /// From which the keys of Child SAs, and of a resumed IKE SA, are derived.
    pub sk_d: [u8; 32],
    /// Seals what the initiator sends, which is the peer.
    pub sk_ei: OctetList<36>,
    /// Seals what the responder sends, which is the cluster.
    pub sk_er: OctetList<36>,
    /// Makes the AUTH code of the initiator.
    pub sk_pi: [u8; 32],
    /// Makes the AUTH code of the responder.
    pub sk_pr: [u8; 32],
}

/// The keys of the Child SA (RFC 7296, section 2.17), of the same form as the sealing keys. `Debug`
/// writes no key.
#[derive(Clone, PartialEq, Eq, Drop)]
pub struct ChildKeys {
    /// Seals the packets that the cluster receives.
    pub to_cluster: OctetList<36>,
    /// Seals the packets that the peer receives.
    pub to_peer: OctetList<36>,
}

impl SaKeys {
    /// The same keys once more. It takes no memory.
    pub fn copied(&self) -> SaKeys
        ensures { result ≡ self.now }
    {
        match self.clone() {
            Ok(keys) => keys,
            Err(_) => unreachable!(),
        }
    }
}

impl ChildKeys {
    /// The same keys once more. It takes no memory.
    pub fn copied(&self) -> ChildKeys
        ensures { result ≡ self.now }
    {
        match self.clone() {
            Ok(keys) => keys,
            Err(_) => unreachable!(),
        }
    }
}

impl fmt::Debug for SaKeys {
    fn fmt<W: fmt::Write>(&self, f: &mut fmt::Formatter<W>) -> fmt::Result {
        f.write_str("SaKeys")
    }
}

impl fmt::Debug for ChildKeys {
    fn fmt<W: fmt::Write>(&self, f: &mut fmt::Formatter<W>) -> fmt::Result {
        f.write_str("ChildKeys")
    }
}
