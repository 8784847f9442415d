//! The grammar of IKEv2 messages (RFC 7296, section 3) both ways: octets are one value, or one
//! fault at one place; and a value that has a spelling is written and read again.
#![tactic(auto)]

mod bodies;
mod chain;
mod decode;
mod encode;
mod fault;
mod kind;
mod laws;
mod messages;
mod octets;
mod proposals;
mod selectors;

pub use decode::{decode_chain, decode_header, decode_message};
pub use encode::encode_message;
pub use fault::Unread;
pub use ike_encoding::{encode_body, encode_chain, fits_message};
pub use ike_values::{Bad, Reason};
pub use laws::{first_fault, first_fault_of_message, one_message, one_reading};
