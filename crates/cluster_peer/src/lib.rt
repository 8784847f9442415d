//! The peer of a cluster, at the other end of every association.
#![tactic(auto)]

mod association;
mod kept_tickets;
mod messages;
mod names;
mod peer;
mod slots;
mod synchronising;

pub use peer::Peer;
