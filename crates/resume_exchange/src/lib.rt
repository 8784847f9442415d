//! How a peer resumes an IKE SA with a ticket, at a member that may never have seen it (RFC 5723).
//!
//! A peer begins an [`Attempt`]: [`Attempt::begin`] gives its request, [`Attempt::on_answer`] takes
//! the member's answer and gives the IKE_AUTH, and [`Attempt::on_auth`] takes the response to it.
//!
//! Of the member stands here what it makes of what the peer sends, before it asks the keeper.
//! [`HalfOpens::judge`] looks at a request to resume: [`presented`] reads its nonce and its
//! ticket, and [`usable_ticket`] opens a ticket that has not expired. [`judge_auth`] looks at the
//! payloads of the IKE_AUTH that follows, of whose proposals [`first_fit`] is taken. The keeper
//! then says whether the ticket was spent, and records the association.
#![tactic(auto)]

mod attempts;
mod auth;
mod auth_messages;
mod beginning;
mod drops;
mod first_messages;
mod half_opens;
mod judging;
mod offers;
mod parts;
mod peer_answers;
mod peer_auth;
mod records;
mod request;
mod sealing;
mod usable;

pub use attempts::{ATTEMPTS_END, Attempt, Awaited, OldKeys};
pub use auth::{AuthJudged, ID_BODY_OCTETS, id_body, judge_auth};
pub use auth_messages::{Offer, REQUEST_WINDOW, auth_frame, auth_header, copy_of};
pub use drops::ResumeDrop;
pub use first_messages::{
    FRESH_OCTETS, LONGEST_KEPT_TICKET, NONCE_PAYLOAD, NOTIFY_FRONT, numbered_nonce, put_gateway,
    put_nonce, put_notify,
};
pub use half_opens::{HALF_OPEN_AGE, HalfOpen, HalfOpens, MAX_HALF_OPENS};
pub use judging::Judged;
pub use offers::{ESP, LEAST_CHILD_SPI, first_fit};
pub use parts::{
    SHARED_KEY, first_initiator_selectors, first_proposals, first_responder_selectors,
};
pub use peer_answers::PeerAnswer;
pub use peer_auth::PeerAuth;
pub use records::resumed_record;
pub use request::{NONCE_OCTETS, presented};
pub use sealing::{FIRST_IV, Ready, sa_keys, sealing_key};
pub use usable::usable_ticket;
