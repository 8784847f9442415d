//! The text of a report on its way to the output.

ghost use Rattle.call_ends.specs.Outside.{sink_told};
ghost use Rattle.report_text.specs.Report.{report_head, turn_text};
ghost use Rattle.call_ends.specs.Writes.{Writes};

use call_ends::{Stop, put_text};
use events::Turn;
use ha_base::{Octets, Sink};
use report_text::{write_head, write_turn};
use std::alloc::Global;

/// Writes the first line of a report.
pub fn put_head<O: Sink>(alloc: Global, out: &mut O) -> Result<(), Stop>
    ensures { Writes result report_head (sink_told O.Sink out.old) (sink_told O.Sink out.new) }
{
    let mut text = Octets::new(alloc);
    write_head(&mut text)?;
    put_text(out, &text)
}

/// Writes the text of a turn. `number` is the turn's number, from 1, and `datagram` that of the
/// datagram that it gives, if it gives one.
pub fn put_turn<O: Sink>(
    alloc: Global,
    number: u64,
    datagram: u64,
    turn: &Turn,
    out: &mut O,
) -> Result<(), Stop>
    ensures { Writes result (turn_text number datagram turn.now) (sink_told O.Sink out.old)
        (sink_told O.Sink out.new) }
{
    let mut text = Octets::new(alloc);
    write_turn(alloc, number, datagram, turn, &mut text)?;
    put_text(out, &text)
}
