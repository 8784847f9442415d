//! The turns of a run, and the datagrams that they gave.
#![tactic(auto)]

mod kept_turn;
mod trace;

pub use trace::Trace;
