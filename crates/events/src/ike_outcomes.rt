//! What comes of IKE messages.

use ha_base::Octets;
use ike_values::Bad;

/// What the response to a request that was executed tells besides the service's reply.
#[derive(Clone, Copy)]
pub enum Mark {
    /// Nothing.
    Plain,
    /// It holds a ticket: the number under which the ticket was sealed, which is its IV (RFC 5723,
    /// section 4.1).
    Ticket(u64),
    /// It says that the request for a ticket was declined (RFC 5723, section 4.1).
    Nack,
}

/// What an end kept of a response besides the reply in it.
#[derive(Drop)]
pub enum Kept {
    /// Nothing.
    Plain,
    /// A ticket, and its lifetime in seconds (RFC 5723, section 7.2).
    Ticket { lifetime: u32, ticket: Octets },
    /// Nothing: the request for a ticket was declined.
    Nack,
}

/// Why an IKE message was dropped, in the order of the checks.
#[derive(Clone, Copy, Debug, PartialEq, Eq)]
pub enum IkeDrop {
    /// The octets spell no message, or the inner payloads of a response are faulty: where, counted
    /// in octets from 0, of the message or of the plaintext, and why.
    Bad(Bad),
    /// The Initiator flag is that of this end.
    Direction,
    /// Messages of this exchange type are not taken, or SK is not the only payload.
    Exchange(u8),
    /// No association has these SPIs.
    UnknownSpi,
    /// The integrity check value does not hold.
    NotOpened,
    /// A request whose Message ID lies below the floor, or too far below the window.
    Old(u32),
    /// A request whose Message ID lies above the window.
    Ahead(u32),
    /// A request at an end that has yet to synchronise (RFC 6311, section 5.1).
    NotSynced(u32),
    /// A response to a request that is not outstanding.
    NotAsked,
    /// A request to synchronise whose Message ID is not above the highest that the cluster used: the
    /// highest (RFC 6311, section 5.1).
    SyncOld(u32),
    /// The response to a request to synchronise before the last one.
    Nonce,
    /// A request to synchronise whose replay counter notification has neither no octets nor eight,
    /// or by which the ESP sequence number would pass its end (RFC 6311, section 6.4).
    Delta,
}
