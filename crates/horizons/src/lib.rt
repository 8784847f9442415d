//! Counters whose numbers are used only below what the keeper acknowledged.
//!
//! A horizon stands in front of one counter of one association, in one epoch. Its high is what the
//! keeper's book has recorded for it: a number at or above the high is used only after the keeper
//! acknowledged a cover beyond it.
//!
//! No call takes memory.
#![tactic(auto)]

mod horizon;
mod stop;

pub use horizon::Horizon;
pub use stop::Stop;
