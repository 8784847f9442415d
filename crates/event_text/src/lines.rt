//! An event file that is read in pieces, line by line.

ghost use Rattle.ha_base.specs.declared.limits.TheConstants.{INPUT_OCTETS, LINE_OCTETS, NUMBER_END};
ghost use Rattle.std.specs.Prelude.{◌≡◌, ◌≢◌, ◌≤◌, ◌+◌, ◌<◌, [], length, false, IfErr, IfOk, IfSome, OnErr, OnOk, OnSome, MatchResult, Some, Ok, Err};
ghost use Rattle.events.specs.Events.{plain};
ghost use Rattle.events.specs.Ranges.{Fits};
ghost use Rattle.event_text.specs.Input.{events_counted, moment_behind, plain_event_of};
ghost use Rattle.event_text.specs.InMemory.{FailsInLine};
ghost use Rattle.event_text.specs.Pieces.{FailsAt, IsFresh, IsNew, Takes, event_from, event_of, fits_in, moment_in};
ghost use Rattle.event_text.specs.declared.lines.Line.TheVariants as taken;
ghost use Rattle.event_text.specs.declared.input.TheConstants.{MAX_EVENTS};

use crate::input::{MAX_EVENTS, in_line};
use crate::read_fault::{ReadFault, TakeFault};
use crate::reading::read_line;
use events::Event;
use ha_base::{LINE_OCTETS, Memory, Moment, Source};
use input_lines::{InputFault, LineReader, Took, is_passed};
use line_fields::{LineFault, LineReason};
use std::alloc::Global;
use std::marker::Model;

/// What a line gives.
#[derive(Drop)]
pub enum Line {
    /// There is no more line.
    End,
    /// The line is the version line, or is passed over: an empty line, or a comment.
    Passed,
    /// An event at a moment.
    Said(Moment, Event),
}

// The event of a line, if it is not the version line or passed over.
fn event_from(
    alloc: Global,
    number: u32,
    count: u32,
    last: Moment,
    line: &[u8],
) -> Result<Option<(Moment, Event)>, ReadFault>
    requires short { length line.now ≤ LINE_OCTETS }
    ensures value { MatchResult result (λ event. event_from number count last line.now
        ≡ Ok (plain_event_of event))
        (λ e. FailsInLine e (event_from number count last line.now)) }
    ensures few { IfOk result (λ event. OnSome event (count ≢ MAX_EVENTS)) }
    ensures moment { IfOk result (λ event. IfSome event (λ x. x.0.0 < NUMBER_END)) }
    ensures fits { IfOk result (λ event. IfSome event (λ x. Fits (plain x.1))) }
{
    if number == 1 {
        if line != b"ha 1".as_slice() {
            return Err(ReadFault::Line(LineFault {
                column: 1,
                reason: LineReason::Word,
            }));
        }
        return Ok(None);
    }
    if is_passed(line) {
        return Ok(None);
    }
    if count == MAX_EVENTS {
        return Err(ReadFault::Line(LineFault {
            column: 1,
            reason: LineReason::TooMany,
        }));
    }
    let (moment, event) = read_line(alloc, line, last)?;
    Ok(Some((moment, event)))
}

// How many lines and events stand before the next line, and the moment of the last event.
#[derive(Clone, Copy)]
struct Counted {
    line: u32,
    count: u32,
    last: Moment,
}

// Reads the line that was taken, and counts it.
fn count_line(alloc: Global, counted: &mut Counted, text: &[u8]) -> Result<Line, TakeFault>
    requires short { length text.now ≤ LINE_OCTETS }
    requires lines { counted.old.line ≤ INPUT_OCTETS + 1 }
    requires events { counted.old.count ≤ MAX_EVENTS }
    ensures value { IfOk result (λ said. event_from counted.old.line counted.old.count
        counted.old.last text.now ≡ Ok (event_of said)) }
    ensures some { IfOk result (λ said. said ≢ taken.End) }
    ensures moment { IfOk result moment_in }
    ensures fits { IfOk result fits_in }
    ensures line { OnOk result (counted.new.line ≡ counted.old.line + 1) }
    ensures count { IfOk result (λ said. counted.new.count
        ≡ events_counted counted.old.count (event_of said)) }
    ensures last { IfOk result (λ said. counted.new.last
        ≡ moment_behind counted.old.last (event_of said)) }
    ensures most { counted.new.count ≤ MAX_EVENTS }
    ensures err { OnErr result (counted.new ≡ counted.old) }
    ensures fault { IfErr result (λ e. FailsAt e counted.old.line
        (event_from counted.old.line counted.old.count counted.old.last text.now)) }
{
    let said = match event_from(alloc, counted.line, counted.count, counted.last, text) {
        Ok(said) => said,
        Err(ReadFault::Memory) => return Err(TakeFault::Memory),
        Err(ReadFault::Line(fault)) => {
            return Err(TakeFault::Input(in_line(counted.line, fault)));
        }
    };
    counted.line += 1;
    let Some((moment, event)) = said else {
        return Ok(Line::Passed);
    };
    counted.count += 1;
    counted.last = moment;
    Ok(Line::Said(moment, event))
}

/// What was read of an event file, and where its next line stands.
#[derive(Drop)]
pub struct EventLines {
    lines: LineReader,
    counted: Counted,
}

impl Model for EventLines {
    ghost use Rattle.std.specs.Prelude.{◌≡◌, ◌+◌, ◌<◌, ◌≤◌};
    ghost use Rattle.ha_base.specs.declared.limits.TheConstants.{INPUT_OCTETS, LINE_OCTETS};
    ghost use Rattle.event_text.specs.Pieces.{Reading};
    ghost use Rattle.event_text.specs.declared.input.TheConstants.{MAX_EVENTS};

    ghost Value = { Reading };

    ghost view = { λ r. record {
      kept = r.lines.kept;
      unfed = r.lines.unfed;
      place = record {
        line = r.counted.line;
        before = r.lines.before;
        count = r.counted.count;
        last = r.counted.last;
      };
    } };

    ghost invariant = { λ r. (0 < r.counted.line) × (r.counted.line ≤ r.lines.before + 1)
        × (r.lines.before ≤ INPUT_OCTETS) × (r.counted.count ≤ MAX_EVENTS)
        × (r.lines.limits ≡ record { line = LINE_OCTETS; file = INPUT_OCTETS }) };
}

impl EventLines {
    /// A reader of an event file of which nothing was read. An error is want of memory.
    pub fn new(alloc: Global) -> Result<EventLines, Memory>
        ensures new { IfOk result IsNew }
    {
        let lines = LineReader::new(alloc)?;
        Ok(EventLines {
            lines,
            counted: Counted {
                line: 1,
                count: 0,
                last: Moment(0),
            },
        })
    }

    /// Takes the next line, and reads for it what is needed. It is not to be called after the end
    /// or after an error: the first fault of the file, one of the source, or want of memory.
    pub fn next_line<S: Source>(&mut self, alloc: Global, source: &mut S) -> Result<Line, TakeFault>
        requires first { IsFresh self.old }
        ensures takes { Takes result self.old self.new (S.left source.old) (S.left source.new)
            (S.faults source.old) (S.faults source.new) }
        ensures moment { IfOk result moment_in }
        ensures fits { IfOk result fits_in }
    {
        let fault = match self.lines.take(source) {
            Took::Line => return count_line(alloc, &mut self.counted, self.lines.line()),
            Took::End if self.counted.line != 1 => return Ok(Line::End),
            Took::Failed => return Err(TakeFault::Source),
            Took::End => LineFault {
                column: 1,
                reason: LineReason::Missing,
            },
            Took::LineTooLong => LineFault {
                column: LINE_OCTETS as u32 + 1,
                reason: LineReason::LineTooLong,
            },
            Took::FileTooLong => LineFault {
                column: self.lines.line().len() as u32 + 1,
                reason: LineReason::FileTooLong,
            },
        };
        Err(TakeFault::Input(in_line(self.counted.line, fault)))
    }
}
