//! Event files: the events that the lines of a file spell.
#![tactic(auto)]

mod event_fields;
mod input;
mod keys;
mod laws;
mod lines;
mod place;
mod read_fault;
mod reading;

pub use events::{
    Datagram, EspVerdict, Event, IkeDrop, Kept, Mark, Medium, Party, Refusal, Seal, Seals, Served,
    Step, Turn, Verdict, Which,
};
pub use ha_base::EspDrop;
pub use input::EventReader;
pub use input_lines::InputFault;
pub use laws::{front_tells_contents, inputs_are_texts, pieces_tell_contents};
pub use line_fields::{LineFault, LineReason};
pub use lines::{EventLines, Line};
pub use place::Place;
pub use read_fault::{EventFault, ReadFault, TakeFault};
pub use reading::read_line;
