//! The ends of a run: the members of a cluster and the peer, and what they do at an event.
#![tactic(auto)]

mod arrivals;
mod deliveries;
mod ends;
mod members;
mod parties;
mod performers;
mod refusals;
mod settings;

pub use ends::Ends;
pub use refusals::named_in;
