//! Tickets by value: the state of an IKE SA, sealed by the cluster and kept by the peer (RFC 5723,
//! section 6.1).
//!
//! A ticket is a version, the number that it was sealed with, the ciphertext of its content and an
//! integrity check value of sixteen octets. [`issue`] seals a content, [`spell_content`] writes
//! the plaintext, and [`open_ticket`] tells the number and the content of a ticket, or the first
//! check that it fails. What is issued is opened again, unless memory runs out.
#![tactic(auto)]

mod bad_ticket;
mod content;
mod form;
mod issuing;
mod laws;
mod opening;
mod reading;

pub use bad_ticket::BadTicket;
pub use content::Content;
pub use form::{LONGEST_TICKET, SHORTEST_TICKET, TICKET_VERSION};
pub use issuing::{issue, spell_content};
pub use laws::issued_tickets_open;
pub use opening::open_ticket;
