//! A run over an event file that comes in pieces: what it makes of the file, wherever it breaks
//! off, and the writing of its report turn by turn.
#![tactic(auto)]

mod writing;

pub use writing::{put_head, put_turn};
