//! The windows of IKE requests (RFC 7296, sections 2.1 to 2.3).
//!
//! [`Asking`] keeps the requests of an end that wait for their responses, so that the same octets
//! can be sent again. [`Answering`] judges the requests that come to an end, and keeps the
//! responses that may be asked for again. The window is eight at both, and no call takes memory.
//! Octets are kept as they are handed in, with their room, so lists are handed in that were made
//! for just these octets.
#![tactic(auto)]

mod answering;
mod asking;
mod judged;
mod laws;
mod message;
mod ring;

pub use answering::Answering;
pub use asking::Asking;
pub use judged::Judged;
pub use laws::{
    answered_are_stored, answered_have_a_response, jumping_raises_the_floor, jumps_are_raised,
    new_are_from_the_floor_on, new_have_no_response, nothing_is_stored,
    raising_by_no_more_keeps_all, raising_gives_one_window, repeats_are_the_responses,
    responses_give_one_window, responses_have_a_window, storing_adds_the_response,
};

/// How many requests an end may send before the least of them is answered (RFC 7296, section 2.3).
pub const WINDOW: u32 = 8;

/// Slots for the requests of one window.
const ASKED: usize = 8;

/// Slots for the responses of two windows: those below the least request that was not answered, and
/// those from it on.
const ANSWERED: usize = 16;

/// The last Message ID, which no request has: Message IDs don't wrap (RFC 7296, section 2.2).
pub const LAST_ID: u32 = u32::MAX;
