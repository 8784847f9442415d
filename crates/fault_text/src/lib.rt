//! The fault of the octets of an IKE message in words.
#![tactic(auto)]

mod faults;

pub use faults::put_fault;
