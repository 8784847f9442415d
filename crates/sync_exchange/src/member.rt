ghost use Rattle.sync_exchange.specs.Answers.{IsMemberAnswer};

use crate::message_ids::message_ids;
use crate::sync_drop::SyncDrop;
use ike_values::Payloads;

/// What a member that waits to be synchronised makes of the payloads of a response (RFC 6311,
/// section 5.1).
///
/// `next` is the Message ID of its own next request, `floor` that of the next request that it
/// expects, and `nonce` that of its last request to synchronise. Gives the two Message IDs that
/// hold from then on: the greater of its own and the peer's. The error is `NotSync` where the first
/// IKEV2_MESSAGE_ID_SYNC has not twelve octets or there is none, and `Nonce` where its nonce is
/// another one.
pub fn member_accepts(
    next: u32,
    floor: u32,
    nonce: u32,
    payloads: &Payloads,
) -> Result<(u32, u32), SyncDrop>
    ensures { IsMemberAnswer next floor nonce payloads.now result }
{
    let ids = message_ids(payloads).ok_or(SyncDrop::NotSync)?;
    if ids.nonce != nonce {
        return Err(SyncDrop::Nonce);
    }
    Ok((next.max(ids.receive), floor.max(ids.send)))
}
