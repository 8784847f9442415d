//! The receive window of ESP with extended sequence numbers (RFC 4303, section 3.4.3 and Appendix
//! A).
//!
//! A [`ReplaySet`] knows which of the newest numbers were received, so that no packet is taken
//! twice. It says which 64-bit number a packet means, of which only the low 32 bits are sent.
#![tactic(auto)]

mod judgement;
mod laws;
mod ring;
mod set;

pub use judgement::Judgement;
pub use laws::{
    judging_by_numbers, meaning_is_unique, noting_adds_the_number, top_is_the_greatest,
};
pub use set::ReplaySet;
