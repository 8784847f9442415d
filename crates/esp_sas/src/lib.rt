//! The two simplex associations of ESP that an end has with the other one (RFC 4303; RFC 4301,
//! section 4.1): one that sends, and one that receives.
#![tactic(auto)]

mod inbound;
mod outbound;
mod room;

pub use inbound::InboundSa;
pub use outbound::OutboundSa;
pub use room::Room;
