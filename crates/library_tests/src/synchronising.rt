use ha_base::{Octets, SEQUENCE_END};
use ike_values::notify_types::{IKEV2_MESSAGE_ID_SYNC, IPSEC_REPLAY_COUNTER_SYNC, REQUEST_DATA};
use ike_values::{NotifyBody, Payload, Payloads};
use std::alloc::Global;
use std::test::*;
use sync_exchange::{
    Accepted, MessageIds, PeerState, SyncDrop, SyncRequest, delta_octets, member_accepts,
    peer_accepts, request_of,
};

/// Notifications of a message: their types and their octets.
type Notifies = &'static [(u16, &'static [u8])];

/// Nonce 02020212, then 16 and 16.
const IDS: &[u8] = &[2, 2, 2, 18, 0, 0, 0, 16, 0, 0, 0, 16];

/// Nonce 00000001, then 258 and 16909060.
const OTHER_IDS: &[u8] = &[0, 0, 0, 1, 0, 0, 1, 2, 1, 2, 3, 4];

/// 1024 in eight octets.
const DELTA: &[u8] = &[0, 0, 0, 0, 0, 0, 4, 0];

fn payloads_of(alloc: Global, notifies: Notifies) -> Result<Payloads, Fail> {
    let mut payloads = Payloads::new(alloc);
    for (kind, octets) in notifies {
        let mut content = Octets::new(alloc);
        content.extend(octets)?;
        payloads.push(Payload::Notify(NotifyBody {
            protocol: 0,
            spi: Octets::new(alloc),
            kind: *kind,
            content,
        }))?;
    }
    Ok(payloads)
}

fn request(nonce: u32, m1: u32, p1: u32, size: u32, delta: u64) -> SyncRequest {
    SyncRequest {
        nonce,
        m1,
        p1,
        size,
        delta,
    }
}

#[test]
fn requests_are_the_first_notifications(rt: HostRuntime) -> Result<(), Fail> {
    let messages: [(Notifies, Result<SyncRequest, SyncDrop>); 5] = [
        (
            &[
                (IPSEC_REPLAY_COUNTER_SYNC, DELTA),
                (IKEV2_MESSAGE_ID_SYNC, IDS),
                (IKEV2_MESSAGE_ID_SYNC, OTHER_IDS),
            ],
            Ok(request(0x0202_0212, 16, 16, 8, 1024)),
        ),
        (
            &[
                (REQUEST_DATA, IDS),
                (IKEV2_MESSAGE_ID_SYNC, OTHER_IDS),
                (IPSEC_REPLAY_COUNTER_SYNC, &[]),
                (IPSEC_REPLAY_COUNTER_SYNC, DELTA),
            ],
            Ok(request(1, 258, 16_909_060, 0, 0)),
        ),
        (
            &[
                (IKEV2_MESSAGE_ID_SYNC, IDS),
                (IPSEC_REPLAY_COUNTER_SYNC, &[0, 0, 4, 0]),
            ],
            Ok(request(0x0202_0212, 16, 16, 4, 0)),
        ),
        (
            &[(IKEV2_MESSAGE_ID_SYNC, DELTA), (IKEV2_MESSAGE_ID_SYNC, IDS)],
            Err(SyncDrop::NotSync),
        ),
        (
            &[(IPSEC_REPLAY_COUNTER_SYNC, DELTA)],
            Err(SyncDrop::NotSync),
        ),
    ];
    for (notifies, request) in messages {
        let payloads = payloads_of(rt.alloc(), notifies)?;
        assert_eq!(rt; request_of(&payloads), request, "{notifies:?}");
    }
    Ok(())
}

#[test]
fn notifications_are_written(rt: HostRuntime) {
    let ids = MessageIds {
        nonce: 1,
        send: 258,
        receive: 16_909_060,
    };
    assert_eq!(rt; ids.octets().as_slice(), OTHER_IDS);
    assert_eq!(rt; delta_octets(1024).as_slice(), DELTA);
}

#[test]
fn members_take_the_greater_of_each_pair(rt: HostRuntime) -> Result<(), Fail> {
    let payloads = payloads_of(rt.alloc(), &[(IKEV2_MESSAGE_ID_SYNC, OTHER_IDS)])?;
    let greater = [
        (3, 2, 1, Ok((16_909_060, 258))),
        (16_909_061, 259, 1, Ok((16_909_061, 259))),
        (3, 2, 2, Err(SyncDrop::Nonce)),
    ];
    for (next, floor, nonce, answer) in greater {
        assert_eq!(rt; member_accepts(next, floor, nonce, &payloads), answer);
    }
    Ok(())
}

fn accepted(next_esp: u64) -> Result<Accepted, SyncDrop> {
    Ok(Accepted {
        p2: 40,
        m2: 17,
        next_esp,
    })
}

#[test]
fn peers_accept_what_is_above_the_highest(rt: HostRuntime) {
    let state = PeerState {
        highest: Some(16),
        next_ask: 40,
        next_esp: SEQUENCE_END - 1024,
    };
    let answers = [
        (17, 8, 1024, accepted(SEQUENCE_END)),
        (17, 8, 1025, Err(SyncDrop::Delta)),
        (17, 0, 1025, accepted(SEQUENCE_END - 1024)),
        (17, 4, 0, Err(SyncDrop::Delta)),
        (16, 4, 0, Err(SyncDrop::NotAbove(16))),
    ];
    for (m1, size, delta, answer) in answers {
        let request = request(1, m1, 16, size, delta);
        assert_eq!(rt;
            peer_accepts(&state, &request),
            answer,
            "{m1} {size} {delta}"
        );
    }
}
