//! A text on its way to the output.

ghost use Rattle.std.specs.Prelude.{◌≡◌, IfOk};
ghost use Rattle.call_ends.specs.Outside.{sink_told};
ghost use Rattle.call_ends.specs.Writes.{Writes};
ghost use Rattle.word_text.specs.Ends.{end_line};

use crate::streaming::Stop;
use ha_base::{Octets, Sink, write_all};
use input_lines::InputFault;
use std::alloc::Global;
use word_text::write_end;

/// Writes a text, or a front of it before a fault of the output.
pub fn put_text<O: Sink>(out: &mut O, text: &Octets) -> Result<(), Stop>
    ensures { Writes result text.now.octets (sink_told O.Sink out.old) (sink_told O.Sink out.new) }
{
    Ok(write_all(out, text.as_slice())?)
}

/// Writes the last line of an output, which says how many turns or messages it has, and answers the
/// fault of its input.
pub fn put_end<O: Sink>(
    alloc: Global,
    count: u64,
    fault: Option<InputFault>,
    out: &mut O,
) -> Result<Option<InputFault>, Stop>
    ensures writes { Writes result (end_line count) (sink_told O.Sink out.old)
        (sink_told O.Sink out.new) }
    ensures fault { IfOk result (λ found. found ≡ fault) }
{
    let mut text = Octets::new(alloc);
    write_end(alloc, count, &mut text)?;
    put_text(out, &text)?;
    Ok(fault)
}
