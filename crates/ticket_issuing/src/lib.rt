//! What a member says of a ticket in its answer to a request for one (RFC 5723, sections 4.1 and
//! 4.2).
//!
//! An [`Issuer`] holds the key, for how many seconds tickets are taken, and the numbers that the
//! member leased and that are left. [`Issuer::tell`] issues a ticket under the next one, and leases
//! sixteen more where none is left. All memory is taken before: [`Issuer::room`] takes it.
#![tactic(auto)]

mod issuer;
mod issuing;

pub use issuer::Issuer;
pub use issuing::{TicketRoom, issue_ticket};
