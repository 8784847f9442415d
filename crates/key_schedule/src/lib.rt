//! The key schedule of a resumed association: HMAC with SHA-256 (RFC 2104), prf+ (RFC 7296,
//! section 2.13), the keys of a resumption (RFC 5723, section 5.1) and of its Child SA (RFC 7296,
//! section 2.17), and the codes that are made with them.
//!
//! No call takes memory.
#![tactic(auto)]

mod codes;
mod derivation;
mod expansion;
pub mod known_answers;
mod mac;

pub use codes::{auth_code, cookie, equal_codes};
pub use derivation::{child_keys, resumed_keys};
pub use expansion::prf_plus;
pub use ha_base::{ChildKeys, KeySize, SaKeys};
pub use mac::hmac;
