//! What an end does with the IKE messages of the associations that it holds (RFC 7296, sections
//! 2.1 to 2.3 and 3.14), by values alone: it asks no keeper, and draws no number itself.
//!
//! [`receive`] tells what octets that came are to an end, and changes nothing. [`IkeSa`] is what an
//! end holds of one association: its keys, the requests that wait for their responses, and the
//! responses that may be asked for again. What is sent is put together in a [`Draft`], which takes
//! all the memory that its sealing, its copies and its storing will need.
#![tactic(auto)]

mod answers;
mod arrival;
mod draft;
mod errors;
mod exchanges;
mod keys;
mod laws;
mod receiving;
mod requests;
mod responses;
mod sa;
mod synchronisation;
mod synchronising;
mod ticket_messages;

pub use answers::{ANSWER_OCTETS, LONGEST_REPLY, RequestError, data_of, error_of, execute};
pub use arrival::Arrival;
pub use draft::{Draft, SentMessage};
pub use errors::{FIRST_STATUS, first_error};
pub use events::IkeDrop;
pub use exchanges::{CREATE_CHILD_SA, IKE_AUTH, IKE_SESSION_RESUME, INFORMATIONAL};
pub use keys::IkeKeys;
pub use laws::{ticket_answers_are_read, ticket_answers_fit};
pub use receiving::{Associations, receive};
pub use sa::IkeSa;
pub use synchronising::{AcceptedSync, SYNC_DELTA, SYNC_RESPONSE_OCTETS};
pub use ticket_messages::{
    GivenTicket, LIFETIME_OCTETS, LONGEST_KEPT_TICKET, TICKET_ANSWER_OCTETS, TicketAnswer,
    TicketReply, is_ticket_due, ticket_reply,
};
