//! The text of reports: the lines of a turn as data, and the spelling of each.
#![tactic(auto)]

mod call_words;
mod esp_verdicts;
mod event;
mod laws;
mod line;
mod named;
mod origins;
mod ranges;
mod refusals;
mod request_verdicts;
mod spelling;
mod sync_verdicts;
mod turn;
mod turn_lines;
mod verdicts;

pub use laws::{reports_are_lines, turns_repeat_their_lines, words_tell_their_line};
pub use line::{KeyOrigin, Line, Part, PlainAnswer, PlainAsk};
pub use ranges::turn_lines_fit;
pub use turn::{write_head, write_turn};
