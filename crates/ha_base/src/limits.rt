//! The limits of a run and of what it reads, each with its name.

/// How many octets the payload of an ESP packet may have.
pub const PAYLOAD_OCTETS: usize = 1_400;

/// How many octets a datagram may have.
pub const DATAGRAM_OCTETS: usize = 2_048;

/// How many datagrams a run may have.
pub const MAX_DATAGRAMS: usize = 65_536;

/// How many octets a line of an input may have, without its line feed.
pub const LINE_OCTETS: usize = 16_384;

/// How many octets an input may have.
pub const INPUT_OCTETS: usize = 67_108_864;

/// How many octets of an input are read at once, at most.
pub const PIECE_OCTETS: usize = 65_536;

/// Every moment, and every number of a member, is below this.
pub const NUMBER_END: u64 = 1 << 63;

/// Every sequence number of ESP is below this, where numbers are extended. RFC 4303, section 2.2.1,
/// has 64 bits for them.
pub const SEQUENCE_END: u64 = 1 << 63;

/// Every initialization vector of a key is below this.
pub const IV_END: u64 = 1 << 63;

/// Every Message ID of a request is below this (RFC 7296, section 2.2).
pub const MESSAGE_ID_END: u64 = 0xffff_ffff;

/// The least SPI of an IKE SA that is imported.
pub const LEAST_SPI: u64 = 1 << 48;

/// The least SPI of a Child SA that is imported.
pub const LEAST_ESP_SPI: u32 = 65_536;

/// Every list has fewer octets than this.
pub const ALLOCATION_END: usize = 1 << 63;
