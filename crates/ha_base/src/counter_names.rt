/// One of the two ends of an IKE SA.
#[derive(Clone, Copy, Debug, PartialEq, Eq)]
pub enum End {
    Cluster,
    Peer,
}

/// What a counter counts.
#[derive(Clone, Copy, Debug, PartialEq, Eq)]
pub enum Kind {
    /// Sequence numbers of the ESP packets that the end sends (RFC 4303, section 3.3.3).
    EspOut,
    /// Sequence numbers of the ESP packets that the end receives (RFC 4303, section 3.4.3).
    EspIn,
    /// Explicit IVs of IKE messages (RFC 5282, section 3.1).
    Iv,
    /// Message IDs of an end's own requests (RFC 7296, section 2.2).
    Ask,
    /// Message IDs of the requests that an end answers.
    Answer,
    /// IVs under a ticket key.
    TicketIv,
    /// Numbers in the nonces of a resumption (RFC 5723, section 4.3).
    Nonce,
}

/// What the keys of a resumed association were derived from (RFC 5723, section 5.1).
#[derive(Clone, Copy, Debug, PartialEq, Eq)]
pub struct Derivation {
    /// The responder's SPI of the association that the ticket was issued in.
    pub old_spir: u64,
    /// The nonces of the initiator and of the responder.
    pub ni: [u8; 32],
    pub nr: [u8; 32],
    /// The SPIs of the resumed association.
    pub spii: u64,
    pub spir: u64,
}

/// What a counter, and the key whose IVs it counts, belongs to.
#[derive(Clone, Copy, Debug, PartialEq, Eq)]
pub enum Origin {
    /// An association that was imported, by its responder's SPI.
    Imported(u64),
    /// An association that was resumed.
    Resumed(Derivation),
    /// The cluster's ticket key, by its generation.
    TicketKey(u32),
    /// Numbers that the members draw from a pool.
    Pool,
}

/// The name of a counter, and of the key whose IVs it counts.
#[derive(Clone, Copy, Debug, PartialEq, Eq)]
pub struct CounterName {
    pub origin: Origin,
    pub kind: Kind,
    /// 1 for ESP kinds, and 0 for all others.
    pub child: u32,
    pub end: End,
}
