//! What the fault of an event file means, apart from how the file is read. Nothing here runs: each
//! law is the contract of a function that does nothing.
#![tactic(auto)]

mod laws;

pub use laws::events_before_faults;
