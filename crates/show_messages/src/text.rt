//! The text of messages that come in pieces: each is written before the next line is taken.

ghost use Rattle.ha_base.specs.declared.limits.TheConstants.{LINE_OCTETS};
ghost use Rattle.std.specs.Prelude.{◌≡◌, ◌≤◌, ◌++◌, true, length, OnOk};
ghost use Rattle.call_ends.specs.Outside.{Stream, sink_told, streams_told};
ghost use Rattle.call_ends.specs.Streaming.{Streams};
ghost use Rattle.call_ends.specs.Writes.{Writes};
ghost use Rattle.line_fields.specs.Octets.{decoded, is_hex};
ghost use Rattle.message_text.specs.Shown.{shown};
ghost use Rattle.show_messages.specs.Showing.{showing};

use crate::lines::{Line, MessageLines, TakeFault};
use call_ends::{Stop, put_end, put_text};
use ha_base::{LINE_OCTETS, Octets, Sink, Source};
use input_lines::InputFault;
use line_fields::fill_hex;
use message_text::write_message;
use std::alloc::Global;

/// How many octets a message may have, whose digits are one line.
const MESSAGE_OCTETS: usize = LINE_OCTETS / 2;

// Writes the text of the message of some digits.
fn show_message<O: Sink>(alloc: Global, digits: &[u8], out: &mut O) -> Result<(), Stop>
    requires hex { is_hex digits.now ≡ true }
    requires short { length digits.now ≤ LINE_OCTETS }
    ensures { Writes result (shown (decoded digits.now)) (sink_told O.Sink out.old)
        (sink_told O.Sink out.new) }
{
    let mut octets = [0; MESSAGE_OCTETS];
    let message = &mut octets[..digits.len() / 2];
    fill_hex(digits, message);
    let mut text = Octets::new(alloc);
    write_message(alloc, message, &mut text)?;
    put_text(out, &text)
}

/// Reads messages, one a line in hexadecimal, and writes the text of each before it takes the next
/// line, and last the line of their number. It ends at the end of the input, or at its first fault,
/// which is answered.
pub fn show<S: Source, O: Sink>(
    alloc: Global,
    source: &mut S,
    out: &mut O,
) -> Result<Option<InputFault>, Stop>
    ensures { (errors now_errors : Stream) → Streams showing
        (streams_told S.Source O.Sink source.old out.old errors)
        (streams_told S.Source O.Sink source.new out.new now_errors) result }
{
    let mut reader = MessageLines::new(alloc)?;
    'lines: loop {
        match reader.next_line(source) {
            Ok(Line::End) => return put_end(alloc, u64::from(reader.count()), None, out),
            Ok(Line::Passed) => {}
            Ok(Line::Message) => show_message(alloc, reader.text(), out)?,
            Err(TakeFault::Input(fault)) => {
                return put_end(alloc, u64::from(reader.count()), Some(fault), out);
            }
            Err(TakeFault::Source) => return Err(Stop::ReadFault),
        }
    }
}
