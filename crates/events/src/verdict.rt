//! How an event came out.

use crate::ike_outcomes::{IkeDrop, Kept, Mark};
use ha_base::{CounterName, EspDrop, EspOpened, NumberList, Octets};
use keeper_book::Five;

/// How an event came out.
#[derive(Drop)]
pub enum Verdict {
    /// The ends are configured.
    Configured,
    /// An association was entered, at the keeper and at the peer.
    Entered,
    /// A member ended.
    Down,
    /// The peer closed its end of an association, and told nobody.
    Forgotten,
    /// The number of the member that joined.
    Member(u32),
    /// A member took over: the epoch that began, and its bases.
    Owned {
        epoch: u64,
        bases: Five,
    },
    /// The number that was drawn.
    Number(u64),
    /// The ESP number under which a payload was sent.
    Sent(u64),
    /// An ESP packet was accepted: the counter that received it, its number, its next header and
    /// its payload.
    Accepted {
        counter: CounterName,
        number: u64,
        next_header: u8,
        payload: Octets,
    },
    /// A request was sent: its Message ID (RFC 7296, section 2.2).
    Asked(u32),
    /// A request was sent again, with the same octets: its Message ID.
    Resent(u32),
    /// A service executed a new request: the counter of the requests that this end answers, its
    /// Message ID, and what the response tells besides the reply.
    Executed {
        counter: CounterName,
        id: u32,
        mark: Mark,
    },
    /// A request came once more, and its response was sent again, with the same octets: its Message
    /// ID (RFC 7296, section 2.1).
    Repeated(u32),
    /// A new request was answered with an error: the counter of the requests that this end answers,
    /// its Message ID, and the notify type of the error (RFC 7296, section 3.10.1).
    Refusing {
        counter: CounterName,
        id: u32,
        notify: u16,
    },
    /// The response to a request came: the counter of the requests that this end asks, their Message
    /// ID, the service's reply, what was kept of it besides, and the notify type of the first error
    /// in it, if there is one.
    Reply {
        counter: CounterName,
        id: u32,
        reply: Octets,
        kept: Kept,
        error: Option<u16>,
    },
    /// A member asked the peer to synchronise: the Message ID of its next request, and that of the
    /// next request that it expects (RFC 6311, section 5.1).
    Syncing {
        m1: u32,
        p1: u32,
    },
    /// The peer accepted a synchronisation: the counter of the requests that it answers, the Message
    /// ID of its own next request, that of the next request that it expects, by how much its ESP
    /// sequence number rose, and the Message IDs of its requests whose outcome stays unknown.
    SyncAccepted {
        counter: CounterName,
        p2: u32,
        m2: u32,
        delta: u64,
        unknown: NumberList<8>,
    },
    /// A member is synchronised: the counter of the requests that it answers, the Message ID of its
    /// next request, and that of the next request that it expects.
    Synced {
        counter: CounterName,
        next_ask: u32,
        floor: u32,
    },
    /// An IKE message was dropped.
    DroppedIke(IkeDrop),
    /// An ESP packet was dropped.
    DroppedEsp(EspDrop),
    /// Nothing was done, but for what the keeper recorded.
    Refused(Refusal),
}

/// What an end does with an ESP packet.
#[derive(Clone, Copy, Debug, PartialEq, Eq)]
pub enum EspVerdict {
    /// It is accepted: the counter that received it, and where its payload lies.
    Accepted {
        counter: CounterName,
        packet: EspOpened,
    },
    Dropped(EspDrop),
    /// Its number may not be taken.
    Refused(Refusal),
}

/// Why an event was refused.
#[derive(Clone, Copy, Debug, PartialEq, Eq)]
pub enum Refusal {
    /// The member does not hold the association.
    NotOwner,
    /// A later epoch began: the epoch in the keeper's book.
    Replaced(u64),
    /// The member has yet to synchronise its Message IDs with the peer (RFC 6311, section 5.1).
    NotSynced,
    /// The next Message ID lies beyond the other end's window (RFC 7296, section 2.3): the least one
    /// that is outstanding.
    WindowFull(u32),
    /// The counter is at its end.
    Exhausted,
    /// A call of the keeper failed, or its answer did not arrive.
    KeeperFault,
    /// No request of this Message ID is outstanding.
    NotOutstanding(u32),
    /// The member has nothing to synchronise.
    NoSync,
    /// The association is closed.
    Closed,
    /// There is no such association.
    Unknown,
    /// A limit of the keeper is reached: the limit.
    Full(u64),
    /// An association has the SPI already.
    SpiInUse,
    /// There is no such member.
    NoMember,
    /// The member has ended.
    Down,
    /// There is no such datagram.
    NoDatagram,
    /// The datagram has no such octet.
    NoOctet,
    /// There are as many datagrams as a run has room for.
    DatagramsFull,
    /// As many members joined as a run has room for: their number.
    NoRoom(u32),
    /// The configuration does not come first.
    Late,
    /// An SPI of the IKE header is below 2^48, one of ESP is below 65,536, or ESP numbers or IVs
    /// would start at 0.
    SpiRange,
}
