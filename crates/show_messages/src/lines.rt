//! Messages that come in pieces, line by line.

ghost use Rattle.ha_base.specs.declared.limits.TheConstants.{INPUT_OCTETS, LINE_OCTETS};
ghost use Rattle.std.specs.Prelude.{◌≡◌, ◌≢◌, ◌≤◌, ◌+◌, ◌<◌, [], length, true, false, IfErr, IfOk, IfSome, OnErr, OnOk, MatchResult, Some, Ok, Err};
ghost use Rattle.line_fields.specs.Octets.{is_hex};
ghost use Rattle.show_messages.specs.Messages.{message_behind};
ghost use Rattle.show_messages.specs.Pieces.{FailsAt, IsNew, Takes, message_of, messages_counted};
ghost use Rattle.show_messages.specs.declared.lines.Line.TheVariants as taken;

use ha_base::{LINE_OCTETS, Memory, Source};
use input_lines::{InputFault, LineReader, Took, is_passed};
use line_fields::{LineFault, LineReason, is_hex};
use std::alloc::Global;
use std::marker::Model;

/// How many messages an input may have.
const MESSAGES: u32 = 100_000;

/// Where the next line stands.
#[derive(Clone, Copy, Debug, PartialEq, Eq)]
pub struct Place {
    /// The line, counted from 1.
    pub line: u32,
    /// How many octets stand before it.
    pub before: usize,
    /// How many messages stand before it.
    pub count: u32,
}

/// What a line gives.
#[derive(Clone, Copy, Debug, PartialEq, Eq)]
pub(crate) enum Line {
    /// There is no more line.
    End,
    /// The line is passed over: it is empty, or a comment.
    Passed,
    /// The digits of a message.
    Message,
}

/// Why no line was taken.
#[derive(Clone, Copy)]
pub(crate) enum TakeFault {
    /// The input is faulty there.
    Input(InputFault),
    /// The source of the input failed.
    Source,
}

// What a line gives, behind as many messages.
fn kind_of(count: u32, line: &[u8]) -> Result<Line, LineFault>
    requires short { length line.now ≤ LINE_OCTETS }
    ensures value { MatchResult result
        (λ said. message_behind count line.now ≡ Ok (message_of said line.now))
        (λ f. message_behind count line.now ≡ Err f) }
    ensures some { IfOk result (λ said. said ≢ taken.End) }
    ensures hex { result ≡ Ok taken.Message → is_hex line.now ≡ true }
    ensures few { result ≡ Ok taken.Message → count ≢ 100000 }
{
    if is_passed(line) {
        return Ok(Line::Passed);
    }
    if count == MESSAGES {
        return Err(LineFault {
            column: 1,
            reason: LineReason::TooMany,
        });
    }
    if !is_hex(line) {
        return Err(LineFault {
            column: 1,
            reason: LineReason::Hex,
        });
    }
    Ok(Line::Message)
}

fn in_line(line: u32, fault: LineFault) -> InputFault
    ensures { result ≡ record { line = line; column = fault.column; reason = fault.reason } }
{
    InputFault {
        line,
        column: fault.column,
        reason: fault.reason,
    }
}

// How many lines and messages stand before the next line.
#[derive(Clone, Copy)]
struct Counted {
    line: u32,
    count: u32,
}

// Tells what the line that was taken gives, and counts it.
fn count_line(counted: &mut Counted, text: &[u8]) -> Result<Line, TakeFault>
    requires short { length text.now ≤ LINE_OCTETS }
    requires lines { counted.old.line ≤ INPUT_OCTETS + 1 }
    requires messages { counted.old.count ≤ 100000 }
    ensures value { IfOk result (λ said. message_behind counted.old.count text.now
        ≡ Ok (message_of said text.now)) }
    ensures some { IfOk result (λ said. said ≢ taken.End) }
    ensures hex { result ≡ Ok taken.Message → is_hex text.now ≡ true }
    ensures line { OnOk result (counted.new.line ≡ counted.old.line + 1) }
    ensures count { IfOk result (λ said. counted.new.count
        ≡ messages_counted counted.old.count said) }
    ensures most { counted.new.count ≤ 100000 }
    ensures err { OnErr result (counted.new ≡ counted.old) }
    ensures fault { IfErr result (λ e. FailsAt e counted.old.line
        (message_behind counted.old.count text.now)) }
{
    match kind_of(counted.count, text) {
        Ok(said) => {
            counted.line += 1;
            if let Line::Message = said {
                counted.count += 1;
            }
            Ok(said)
        }
        Err(fault) => Err(TakeFault::Input(in_line(counted.line, fault))),
    }
}

/// What was read of an input, and where its next line stands.
#[derive(Drop)]
pub(crate) struct MessageLines {
    lines: LineReader,
    counted: Counted,
}

impl Model for MessageLines {
    ghost use Rattle.std.specs.Prelude.{◌≡◌, ◌+◌, ◌<◌, ◌≤◌};
    ghost use Rattle.ha_base.specs.declared.limits.TheConstants.{INPUT_OCTETS, LINE_OCTETS};
    ghost use Rattle.show_messages.specs.Pieces.{Reading};

    ghost Value = { Reading };

    ghost view = { λ r. record {
      text = r.lines.line;
      kept = r.lines.kept;
      unfed = r.lines.unfed;
      place = record { line = r.counted.line; before = r.lines.before; count = r.counted.count };
    } };

    ghost invariant = { λ r. (0 < r.counted.line) × (r.counted.line ≤ r.lines.before + 1)
        × (r.lines.before ≤ INPUT_OCTETS) × (r.counted.count ≤ 100000)
        × (r.lines.limits ≡ record { line = LINE_OCTETS; file = INPUT_OCTETS }) };
}

impl MessageLines {
    /// A reader of an input of which nothing was read. An error is want of memory.
    pub(crate) fn new(alloc: Global) -> Result<MessageLines, Memory>
        ensures new { IfOk result IsNew }
    {
        let lines = LineReader::new(alloc)?;
        Ok(MessageLines {
            lines,
            counted: Counted { line: 1, count: 0 },
        })
    }

    /// Takes the next line, and reads for it what is needed. It is not to be called after the end
    /// or after an error: the first fault of the input, or one of the source.
    pub(crate) fn next_line<S: Source>(&mut self, source: &mut S) -> Result<Line, TakeFault>
        ensures takes { Takes result self.old self.new (S.left source.old) (S.left source.new)
            (S.faults source.old) (S.faults source.new) }
        ensures counted { MatchResult result
            (λ said. self.new.place.count ≡ messages_counted self.old.place.count said)
            (λ _. self.new.place.count ≡ self.old.place.count) }
        ensures hex { result ≡ Ok taken.Message → is_hex self.new.text ≡ true }
        ensures short { result ≡ Ok taken.Message → length self.new.text ≤ LINE_OCTETS }
    {
        let fault = match self.lines.take(source) {
            Took::Line => return count_line(&mut self.counted, self.lines.line()),
            Took::End => return Ok(Line::End),
            Took::Failed => return Err(TakeFault::Source),
            Took::LineTooLong => LineFault {
                column: LINE_OCTETS as u32 + 1,
                reason: LineReason::LineTooLong,
            },
            Took::FileTooLong => LineFault {
                column: self.lines.line().len() as u32 + 1,
                reason: LineReason::FileTooLong,
            },
        };
        Err(TakeFault::Input(in_line(self.counted.line, fault)))
    }

    /// The line that was taken last.
    pub(crate) fn text(&self) -> &[u8]
        ensures { result.now ≡ self.now.text }
    {
        self.lines.line()
    }

    /// How many messages were taken.
    pub(crate) fn count(&self) -> u32
        ensures { result ≡ self.now.place.count }
    {
        self.counted.count
    }
}
