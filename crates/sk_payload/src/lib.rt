//! IKE messages whose only payload is SK, under AES-GCM (RFC 7296, section 3.14; RFC 5282).
//!
//! The body of the SK payload is an IV of eight octets, the ciphertext and an integrity check value
//! of sixteen. The plaintext is the inner payloads, padding and a pad length; the writer pads with
//! nothing, the reader takes any padding.
#![tactic(auto)]

mod chain;
mod frame;
mod front;
mod laws;
mod not_read;
mod open;
mod seal;

pub use frame::{Frame, INNER_OCTETS};
pub use front::MESSAGE_OVERHEAD;
pub use laws::sealed_messages_open;
pub use not_read::{NotRead, OpenFault};
pub use open::{Opened, open_decoded, open_message};
pub use seal::seal_message;
