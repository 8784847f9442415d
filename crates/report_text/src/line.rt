//! The lines of a report as data.

use events::{Event, Medium, Verdict};
use ha_base::{Derivation, Moment};
use keeper_book::{Counter, Five, Pool};

/// What was sealed, and by which end.
#[derive(Clone, Copy)]
pub enum Part {
    /// An IKE message of the cluster (RFC 7296, section 3.14).
    IkeC,
    /// An IKE message of the peer.
    IkeP,
    /// An ESP packet of the cluster (RFC 4303, section 2).
    EspC,
    /// An ESP packet of the peer.
    EspP,
    /// A ticket (RFC 5723, section 4.1).
    Ticket,
}

/// What the key of a seal belongs to.
#[derive(Clone, Copy)]
pub enum KeyOrigin {
    /// An association that was imported, by its responder's SPI.
    Imported(u64),
    /// An association that was resumed.
    Resumed(Derivation),
    /// The cluster's ticket key, by its generation.
    TicketKey(u32),
}

/// What a keeper was asked, by the fields of its line alone.
#[derive(Clone, Copy)]
pub enum PlainAsk {
    /// To add the association with this responder's SPI.
    Enter {
        spir: u64,
    },
    /// To begin an epoch for a member; members are counted from 1.
    TakeOver {
        spir: u64,
        member: u32,
    },
    /// To raise the high of a counter in an epoch up to this number.
    Cover {
        spir: u64,
        counter: Counter,
        child: u32,
        epoch: u64,
        upto: u64,
    },
    /// For so many numbers of a pool.
    Lease {
        pool: Pool,
        count: u64,
    },
    /// To spend a ticket, and to add the association with the new responder's SPI in place of the
    /// one with the old SPI, for a member.
    Settle {
        ticket: u64,
        old_spir: u64,
        spir: u64,
        member: u32,
    },
    /// Whether a ticket is spent.
    Look {
        ticket: u64,
    },
}

/// What a keeper answered, by the fields of its line alone.
#[derive(Clone, Copy)]
pub enum PlainAnswer {
    /// An association was added, a high raised, or a ticket spent.
    Done,
    /// An epoch began, with its bases.
    Taken { epoch: u64, bases: Five },
    /// The first number of a range that was leased; or 1 where a ticket is spent, and 0 where it is
    /// not.
    Number(u64),
    /// The call failed.
    Failed,
    /// Another epoch had begun: the epoch in the book.
    Replaced(u64),
    Unknown,
    Closed,
    Spent,
    /// A limit is reached: the limit.
    Full(u64),
    SpiInUse,
}

/// A line of a report.
#[derive(Clone, Copy)]
pub enum Line<'a> {
    /// A turn's own line: its number, from 1, and the line of its event.
    Turn {
        number: u64,
        moment: Moment,
        event: &'a Event,
    },
    /// A call of the keeper. It is lost where its answer was hidden from the caller.
    Keep {
        ask: PlainAsk,
        lost: bool,
        answer: PlainAnswer,
    },
    /// A request that a service executed, and its reply.
    Serve {
        request: &'a [u8],
        reply: &'a [u8],
    },
    /// A sealing. The child is 1 for ESP, and 0 for all else.
    Seal {
        origin: KeyOrigin,
        part: Part,
        child: u32,
        iv: u64,
        plain: &'a [u8],
        sealed: &'a [u8],
    },
    /// A datagram that was sent, by its number, from 1.
    Gives {
        number: u64,
        medium: Medium,
        octets: &'a [u8],
    },
    /// How the event came out.
    Out(&'a Verdict),
    /// The last line: the number of turns.
    End(u64),
}
