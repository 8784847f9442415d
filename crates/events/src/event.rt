//! What a line of an event file asks for.

use crate::turn::Medium;
use ha_base::{Identity, OctetList, Octets};
use keeper_book::Record;

/// An end of a run. Members are counted from 1, in the order in which they joined.
#[derive(Clone, Copy)]
pub enum Party {
    Peer,
    Member(u64),
}

/// Which datagram is meant: they are counted from 1, in the order in which they were given.
#[derive(Clone, Copy)]
pub enum Which {
    Number(u32),
    /// The newest.
    Last,
}

/// An event, with the fields of its line.
#[derive(Drop)]
pub enum Event {
    /// How the ends are configured: the cluster's identity, the lifetime of tickets in seconds, the
    /// receive window of ESP, and the ticket key with its salt, of no octets where there is none.
    Cluster {
        identity: Identity,
        lifetime: u32,
        window: u32,
        ticket_key: OctetList<36>,
    },
    /// An association that both ends have from the beginning: imported, with its own SPIr.
    Import {
        sa: Record,
    },
    /// A member joins, with fresh octets of its own.
    Join {
        fresh: [u8; 24],
    },
    /// A member takes over the association with this SPIr. Members are counted from 1.
    Own {
        member: u64,
        spir: u64,
    },
    /// A member draws an ESP number of the association with this SPIr.
    Draw {
        member: u64,
        spir: u64,
    },
    /// A member ends. Its number does not return.
    Crash {
        member: u64,
    },
    /// An end sends a payload in an ESP packet of the association with this SPIr.
    Send {
        from: Party,
        spir: u64,
        payload: Octets,
    },
    /// An end sends a request with data of its own, of at most 256 octets, in an IKE message of the
    /// association with this SPIr (RFC 7296, section 1.4).
    Ask {
        from: Party,
        spir: u64,
        request: Octets,
    },
    /// An end sends again, with the same octets, the request of this Message ID whose response did
    /// not come yet (RFC 7296, section 2.1).
    Again {
        from: Party,
        spir: u64,
        id: u32,
    },
    /// A member asks the peer to synchronise the Message IDs and the ESP sequence number of the
    /// association with this SPIr (RFC 6311, section 5).
    Sync {
        member: u64,
        spir: u64,
    },
    /// The peer sends a request that asks for a ticket, in an IKE message of the association with
    /// this SPIr (RFC 5723, section 4.1).
    Ticket {
        spir: u64,
    },
    /// The peer closes its end of the association with this SPIr, and sends nothing that tells it.
    /// It keeps the ticket.
    Forget {
        spir: u64,
    },
    /// A datagram is delivered to an end.
    Deliver {
        which: Which,
        to: Party,
    },
    /// A datagram is delivered whose octet at this place, counted from 0, was changed by an
    /// exclusive or.
    Alter {
        which: Which,
        to: Party,
        place: u32,
        octet: u8,
    },
    /// The first `keep` octets of a datagram are delivered.
    Cut {
        which: Which,
        to: Party,
        keep: u32,
    },
    /// Octets are delivered that no end sent.
    Inject {
        to: Party,
        medium: Medium,
        octets: Octets,
    },
}
