//! A member of a cluster: what it holds of each association, and what it does with it.
#![tactic(auto)]

mod answering;
mod asking;
mod config;
mod holding;
mod holdings;
mod member;
mod messages;
mod ready;
mod refusals;
mod rooms;
mod synchronising;

pub use config::Config;
pub use member::Member;
pub use refusals::of_import;
