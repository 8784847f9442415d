//! Writing IKEv2 messages (RFC 7296, section 3): the spelling of a value with reserved bits 0.
#![tactic(auto)]

mod bodies;
mod chain;
mod length;
mod message;
mod octets;
mod proposals;
mod selectors;

pub use bodies::encode_body;
pub use chain::{encode_chain, type_of};
pub use length::fits_message;
pub use message::{encode_message, flags_of, header_octets};
pub use proposals::last_mark;
