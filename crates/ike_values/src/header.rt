use crate::payload::Payloads;

/// The header of a message (RFC 7296, section 3.1), without what its spelling gives: the next
/// payload, the version and the length.
#[derive(Clone, Copy, Debug, PartialEq, Eq)]
pub struct Header {
    /// The initiator's SPI.
    pub spii: u64,
    /// The responder's SPI.
    pub spir: u64,
    /// The exchange type.
    pub exchange: u8,
    /// The Initiator flag.
    pub initiator: bool,
    /// The Response flag.
    pub response: bool,
    /// The Message ID.
    pub id: u32,
}

/// A message: a header and its chain of payloads.
#[derive(Debug, Drop)]
pub struct Message {
    pub header: Header,
    pub payloads: Payloads,
}

/// How many octets a header has (RFC 7296, section 3.1).
pub const HEADER_OCTETS: usize = 28;

/// Major version 2 and minor version 0, in the octet of a header that has the version.
pub const VERSION: u8 = 0x20;

/// The Initiator flag.
pub const INITIATOR: u8 = 8;

/// The Response flag.
pub const RESPONSE: u8 = 32;
