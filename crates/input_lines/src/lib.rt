//! The lines of an input: the first of them, those that are too long, those that are passed over, a
//! reader that takes them one by one, and the first fault of an input.
#![tactic(auto)]

mod fault;
mod front;
mod limits;
mod pieces;
mod reader;
mod taking;

pub use fault::{InputFault, write_fault};
pub use front::{Front, front_of, is_passed};
pub use limits::overlong;
pub use reader::{LineReader, Took};
pub use taking::Limits;
