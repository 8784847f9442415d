//! The values that IKEv2 messages carry (RFC 7296, section 3): headers, payloads and the lists
//! inside them.
#![tactic(auto)]

mod attribute;
mod fault;
mod header;
mod lengths;
mod notifications;
pub mod notify_types;
mod payload;
pub mod payload_types;
mod proposal;
mod selector;
mod transform;
mod validity;

pub use attribute::{Attribute, Attributes};
pub use fault::{Bad, Reason};
pub use ha_base::{GatewayId, Identity};
pub use header::{HEADER_OCTETS, Header, INITIATOR, Message, RESPONSE, VERSION};
pub use lengths::{LENGTH_END, attributes_len, body_len, proposal_len};
pub use payload::{AuthBody, DeleteBody, IdBody, NotifyBody, OtherBody, Payload, Payloads, SkBody};
pub use proposal::{Proposal, Proposals};
pub use selector::{IPV4_RANGE, IPV6_RANGE, Selector, Selectors};
pub use transform::{Transform, Transforms};
