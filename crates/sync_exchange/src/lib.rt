//! How a cluster member that took over an IKE SA and its peer agree on Message IDs and ESP sequence
//! numbers again (RFC 6311).
//!
//! [`MessageIds::octets`] and [`delta_octets`] write the notifications. [`request_of`] reads the
//! member's request, [`peer_accepts`] is the peer's answer to it, and [`member_accepts`] what the
//! member makes of the peer's response. Each end takes the greater of two Message IDs, so that none
//! is used twice. No call takes memory.
#![tactic(auto)]

mod laws;
mod member;
mod message_ids;
mod peer;
mod replay_counter;
mod request;
mod sync_drop;

pub use laws::{
    answers_are_unique, both_ends_agree, counters_never_fall, requests_are_accepted_once,
    written_requests_are_read, written_responses_are_read,
};
pub use member::member_accepts;
pub use message_ids::{MESSAGE_IDS_OCTETS, MessageIds};
pub use peer::{Accepted, PeerState, peer_accepts};
pub use replay_counter::{DELTA_OCTETS, delta_octets};
pub use request::{SyncRequest, request_of};
pub use sync_drop::SyncDrop;
