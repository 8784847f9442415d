/// Where the payload of an ESP packet lies in its octets, once it was opened.
#[derive(Clone, Copy, Debug, PartialEq, Eq)]
pub struct EspOpened {
    /// The 64-bit sequence number (RFC 4303, section 2.2.1).
    pub number: u64,
    /// The protocol of the payload, 4 for an IPv4 packet (RFC 4303, section 2.6).
    pub next_header: u8,
    /// The payload's place in the octets of the packet, counted from 0, and how many octets it has.
    pub start: usize,
    pub length: usize,
}

/// Why an ESP packet was dropped, in the order of the checks.
#[derive(Clone, Copy, Debug, PartialEq, Eq)]
pub enum EspDrop {
    /// Fewer octets than the shortest packet has, which is 34.
    Short,
    /// No Child SA receives at this SPI.
    WrongSpi,
    /// The number lies below the window or below the base, or its low half stands for none below
    /// the counter's end.
    Stale,
    /// The number was accepted before.
    Seen,
    /// The integrity check value does not hold (RFC 4106, section 6).
    NotOpened,
    /// The pad length does not fit the plaintext.
    Padding,
}
