//! The messages of an input, one a line in hexadecimal, and their text.
#![tactic(auto)]

mod laws;
mod lines;
mod text;

pub use laws::front_tells_messages;
pub use lines::Place;
pub use text::show;
