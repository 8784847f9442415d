//! How a call of the program ends: its statuses, what each of them says of the input, the output
//! and the error output, and what is written last.
#![tactic(auto)]

mod closing;
mod status;
mod streaming;
mod writing;

pub use closing::{complain, name_line};
pub use status::Status;
pub use streaming::{Stop, say_end};
pub use writing::{put_end, put_text};
