//! The types of payloads (RFC 7296, section 3.2).

/// A security association.
pub const SA: u8 = 33;

/// A key exchange.
pub const KE: u8 = 34;

/// An initiator's identity.
pub const IDI: u8 = 35;

/// The responder's identity.
pub const IDR: u8 = 36;

/// A certificate.
pub const CERT: u8 = 37;

/// A certificate request.
pub const CERTREQ: u8 = 38;

/// An authentication.
pub const AUTH: u8 = 39;

/// A nonce.
pub const NONCE: u8 = 40;

/// A notification.
pub const NOTIFY: u8 = 41;

/// A deletion.
pub const DELETE: u8 = 42;

/// A vendor ID.
pub const VENDOR: u8 = 43;

/// An initiator's traffic selectors.
pub const TSI: u8 = 44;

/// The responder's traffic selectors.
pub const TSR: u8 = 45;

/// An encrypted and authenticated payload.
pub const SK: u8 = 46;

/// A configuration.
pub const CP: u8 = 47;

/// An extensible authentication.
pub const EAP: u8 = 48;
