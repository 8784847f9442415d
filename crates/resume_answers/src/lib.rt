//! What a member answers to a peer that resumes an IKE SA with a ticket (RFC 5723, section 4.3),
//! with the keeper's calls that it takes.
//!
//! What the member makes of a request by itself stands in `resume_exchange`. Here the keeper is
//! asked. [`draw_unless_spent`] gives a number for a ticket that was not spent, and
//! [`Resumptions::on_resume`] answers a request: by a nonce, where the association is half open
//! then, by TICKET_NACK, or by a redirect.
#![tactic(auto)]

mod answering;
mod octets;
mod parts;
mod unspent;

pub use octets::{LONGEST_ANSWER, NONCE_ANSWER};
pub use parts::{MemberAnswer, OwnParts, Presented, Resumptions};
pub use unspent::draw_unless_spent;
