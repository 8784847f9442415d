use ha_base::{Identity, KeySize};

/// The state of an IKE SA that a ticket carries (RFC 5723, section 6.1).
#[derive(Clone, Copy, Debug, PartialEq)]
pub struct Content {
    /// The SPIs of the association that the ticket was issued in.
    pub spii: u64,
    pub spir: u64,
    /// The key from which the keys of a resumed association are derived.
    pub sk_d: [u8; 32],
    /// The size of the keys that are derived.
    pub size: KeySize,
    /// When the ticket was issued, in seconds.
    pub issued: u64,
    /// From when on it is not taken any more, in seconds.
    pub expiry: u64,
    /// Who the peer is.
    pub identity: Identity,
}
