//! The text of an IKE message: what its octets are, or where and why they are refused, and a line
//! for each payload.
#![tactic(auto)]

mod message;
mod payload;

pub use message::write_message;
