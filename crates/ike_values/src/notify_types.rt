//! The types of notifications (RFC 7296, section 3.10.1, and the standards that are named).

/// A payload of an unknown type is critical (RFC 7296, section 2.5).
pub const UNSUPPORTED_CRITICAL_PAYLOAD: u16 = 1;

/// A message has a fault (RFC 7296, section 2.21).
pub const INVALID_SYNTAX: u16 = 7;

/// No proposal fits (RFC 7296, section 2.7).
pub const NO_PROPOSAL_CHOSEN: u16 = 14;

/// The other end is not authenticated (RFC 7296, section 2.21.2).
pub const AUTHENTICATION_FAILED: u16 = 24;

/// How many requests may be outstanding (RFC 7296, section 2.3).
pub const SET_WINDOW_SIZE: u16 = 16385;

/// The octets that a request is to be repeated with (RFC 7296, section 2.6).
pub const COOKIE: u16 = 16390;

/// An end follows redirects (RFC 5685, section 9.1).
pub const REDIRECT_SUPPORTED: u16 = 16406;

/// The gateway to use in place of this one (RFC 5685, section 9.2).
pub const REDIRECT: u16 = 16407;

/// The gateway that an end was redirected from (RFC 5685, section 9.3).
pub const REDIRECTED_FROM: u16 = 16408;

/// A ticket and its lifetime (RFC 5723, section 7.1).
pub const TICKET_LT_OPAQUE: u16 = 16409;

/// An end asks for a ticket (RFC 5723, section 7.2).
pub const TICKET_REQUEST: u16 = 16410;

/// A ticket comes later (RFC 5723, section 7.2).
pub const TICKET_ACK: u16 = 16411;

/// No ticket is given, or one is not taken (RFC 5723, section 7.2).
pub const TICKET_NACK: u16 = 16412;

/// A ticket (RFC 5723, section 7.3).
pub const TICKET_OPAQUE: u16 = 16413;

/// The Message IDs that hold from now on (RFC 6311, section 6.3).
pub const IKEV2_MESSAGE_ID_SYNC: u16 = 16422;

/// By how much sequence numbers are to rise (RFC 6311, section 6.4).
pub const IPSEC_REPLAY_COUNTER_SYNC: u16 = 16423;

/// The data of a request to a service: this project's own, of the types for private use.
pub const REQUEST_DATA: u16 = 40960;

/// The data of a service's reply: this project's own.
pub const REPLY_DATA: u16 = 40961;
