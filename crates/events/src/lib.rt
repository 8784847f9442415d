//! Events and turns: what the ends of a run are asked for, and all that came of it.
#![tactic(auto)]

mod event;
mod ike_outcomes;
mod seals;
mod turn;
mod verdict;

pub use event::{Event, Party, Which};
pub use ike_outcomes::{IkeDrop, Kept, Mark};
pub use seals::{Seal, Seals};
pub use turn::{Datagram, Medium, Served, Step, Turn};
pub use verdict::{EspVerdict, Refusal, Verdict};
