use aes_gcm::Key;
use ha_base::End;

/// What the IKE messages of an association are found by, sealed with and opened with at an end.
#[derive(Drop)]
pub struct IkeKeys {
    /// The end that holds this. The peer is the initiator, and its messages have the Initiator
    /// flag (RFC 7296, section 3.1).
    pub end: End,
    /// The initiator's SPI.
    pub spii: u64,
    /// The responder's SPI.
    pub spir: u64,
    /// Seals what this end sends: SK_ei at the peer and SK_er at the cluster (RFC 7296, section
    /// 2.14). Its name is that of the counter of the IVs.
    pub sending: Key,
    /// Opens what the other end sends.
    pub receiving: Key,
}
