ghost use Rattle.sync_exchange.specs.Answers.{IsRequestAnswer};

use crate::message_ids::message_ids;
use crate::replay_counter::{replay_counter, replay_delta, replay_size};
use crate::sync_drop::SyncDrop;
use ike_values::Payloads;

/// What a member that took over asks of its peer (RFC 6311, sections 6.3 and 6.4).
#[derive(Clone, Copy, Debug, PartialEq)]
pub struct SyncRequest {
    /// The same in the response, by which the member knows the response to its last request.
    pub nonce: u32,
    /// The Message ID of the member's next request.
    pub m1: u32,
    /// The Message ID of the next request that the member expects.
    pub p1: u32,
    /// How many octets the replay counter notification has, 2^32 - 1 at most, and 0 where there is
    /// none.
    pub size: u32,
    /// By how much the peer's outgoing ESP sequence number is to rise. It counts only where the
    /// size is eight.
    pub delta: u64,
}

/// Reads the request to synchronise from the payloads of a message (RFC 6311, section 6).
///
/// Of each type the first notification counts. The error is `NotSync`, and comes exactly where the
/// first IKEV2_MESSAGE_ID_SYNC has not twelve octets or there is none.
pub fn request_of(payloads: &Payloads) -> Result<SyncRequest, SyncDrop>
    ensures { IsRequestAnswer payloads.now result }
{
    let ids = message_ids(payloads).ok_or(SyncDrop::NotSync)?;
    let counter = replay_counter(payloads);
    Ok(SyncRequest {
        nonce: ids.nonce,
        m1: ids.send,
        p1: ids.receive,
        size: replay_size(counter),
        delta: replay_delta(counter),
    })
}
