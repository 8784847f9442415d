//! ESP packets under AES-GCM with extended sequence numbers (RFC 4303, RFC 4106).
//!
//! A packet is the SPI, the low half of the sequence number, the IV, the ciphertext and an
//! integrity check value of sixteen octets. The writer's IV is the sequence number. No call takes
//! memory.
#![tactic(auto)]

mod laws;
mod open;
mod packet;
mod plain;
mod seal;

pub use ha_base::{EspDrop, EspOpened};
pub use laws::{padding_is_shortest, sealed_packets_open};
pub use open::{open_packet, packet_spi};
pub use packet::{LONGEST_PACKET, SHORTEST_PACKET};
pub use plain::PACKET_OVERHEAD;
pub use seal::{seal_packet, spell_plain};
