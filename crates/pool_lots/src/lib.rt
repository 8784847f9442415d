//! Numbers of the pools that all members share, which a member draws from ranges that it leases.
#![tactic(auto)]

mod lots;

pub use lots::{LEASED_NUMBERS, draw_pooled};
