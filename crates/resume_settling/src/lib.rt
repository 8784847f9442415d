//! What a member answers to the IKE_AUTH of a peer that resumes an IKE SA with a ticket (RFC 5723,
//! section 4.3.3), with the keeper's call that it takes.
//!
//! [`on_auth`] finds the half-open association that the message is for, opens the message and
//! judges it. Where all is as it has to be the ticket is settled at the keeper, which spends it and
//! puts the resumed association in place of the old one.
#![tactic(auto)]

mod answers;
mod choosing;
mod finding;
mod opening;
mod receiving;
mod replies;
mod settling;

pub use answers::{MemberAuth, Why};
pub use receiving::on_auth;

#[cfg(test)]
mod tests;
