//! A run: the members of a cluster, the peer, and the trace of what they did; and the top call that
//! plays an event file.
#![tactic(auto)]

mod play;
mod services;
pub mod top;
mod world;

pub use world::World;
