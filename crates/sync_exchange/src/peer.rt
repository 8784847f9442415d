ghost use Rattle.std.specs.Prelude.{◌≡◌, ◌+◌, MatchOption};
ghost use Rattle.sync_exchange.specs.Answers.{IsPeerAnswer, IsLeastAnswer};
ghost use Rattle.sync_exchange.specs.Counters.{CanRise, CannotRise, rise_of};

use crate::replay_counter::DELTA_OCTETS;
use crate::request::SyncRequest;
use crate::sync_drop::SyncDrop;
use ha_base::SEQUENCE_END;

/// What the peer knows of an IKE SA when a synchronisation comes.
#[derive(Clone, Copy)]
pub struct PeerState {
    /// The highest Message ID that the cluster used in a request or announced in a synchronisation
    /// that was accepted; else the one before the first that the association was imported with; and
    /// none where there is no such.
    pub highest: Option<u32>,
    /// The Message ID of the peer's own next request.
    pub next_ask: u32,
    /// The peer's next outgoing ESP sequence number.
    pub next_esp: u64,
}

/// What holds at the peer after a synchronisation that it accepts.
#[derive(Clone, Copy, Debug, PartialEq)]
pub struct Accepted {
    /// The Message ID of the peer's own next request.
    pub p2: u32,
    /// The Message ID of the next request that the peer expects.
    pub m2: u32,
    /// The peer's next outgoing ESP sequence number, `SEQUENCE_END` at most.
    pub next_esp: u64,
}

/// The peer's answer to a request to synchronise (RFC 6311, section 5).
///
/// The error is `NotAbove` with the highest Message ID that the cluster used, where the request's
/// is not above it. Else it is `Delta` where the replay counter notification has neither no octets
/// nor eight, or where the sequence number would pass its end. A notification without octets, or
/// none, is a delta of 0.
pub fn peer_accepts(state: &PeerState, request: &SyncRequest) -> Result<Accepted, SyncDrop>
    ensures { IsPeerAnswer state.now request.now result }
{
    let least = least_above(state.highest, request.m1)?;
    let next_esp = risen(DELTA_OCTETS as u32, SEQUENCE_END, state.next_esp, request).ok_or(
        SyncDrop::Delta,
    )?;
    Ok(Accepted {
        p2: request.p1.max(state.next_ask),
        m2: request.m1.max(least),
        next_esp,
    })
}

/// The least Message ID above the highest, where this one is above it.
fn least_above(highest: Option<u32>, id: u32) -> Result<u32, SyncDrop>
    ensures { IsLeastAnswer highest id result }
{
    match highest {
        Some(highest) if id <= highest => Err(SyncDrop::NotAbove(highest)),
        Some(highest) => Ok(highest + 1),
        None => Ok(0),
    }
}

/// The sequence number after the rise that is asked for, where a delta of this size can be added
/// below this end.
fn risen(size: u32, end: u64, next_esp: u64, request: &SyncRequest) -> Option<u64>
    ensures { MatchOption result
        (CannotRise size end next_esp request.now)
        (λ risen. CanRise size end next_esp request.now
        × (risen ≡ next_esp + rise_of size request.now)) }
{
    if request.size != 0 && request.size != size {
        return None;
    }
    let rise = if request.size == size {
        request.delta
    } else {
        0
    };
    next_esp.checked_add(rise).filter(|risen| *risen <= end)
}
