//! A whole input, line by line.

ghost use Rattle.std.specs.Prelude.{◌≡◌, ◌≢◌, ◌≤◌, ◌<◌, ◌+◌, ◌^◌, [], ◌∷◌, length, take, IfErr, IfNone, IfOk, IfSome, OnErr, OnOk, OnSome, MatchResult, None, Some, Ok, Err};
ghost use Rattle.events.specs.Events.{plain};
ghost use Rattle.events.specs.Ranges.{Fits};
ghost use Rattle.event_text.specs.Input.{contents_of, event_in, faulty_contents, left_contents, plain_event_of, version_in, with_event};
ghost use Rattle.event_text.specs.InMemory.{EndsAtFault, FailsInLine};
ghost use Rattle.event_text.specs.declared.input.TheConstants.{MAX_EVENTS};
ghost use Rattle.ha_base.specs.declared.limits.TheConstants.{ALLOCATION_END, INPUT_OCTETS};
ghost use Rattle.line_fields.specs.Fields.{fault_at};

use crate::place::Place;
use crate::read_fault::{EventFault, ReadFault};
use crate::reading::read_line;
use events::Event;
use ha_base::Moment;
use input_lines::{InputFault, front_of, is_passed, overlong};
use line_fields::{LineFault, LineReason};
use std::alloc::Global;
use std::marker::Model;

/// How many events an input may have.
pub const MAX_EVENTS: u32 = 100_000;

/// What a line gives.
#[derive(Drop)]
enum Line {
    /// There is no more line.
    End,
    /// The line is passed over.
    Passed,
    Said(Moment, Event),
}

#[tactic(auto, unfolding(crate::specs::Input::version_in))]
fn version(octets: usize, line: &[u8]) -> Result<(), LineFault>
    requires { octets < ALLOCATION_END }
    ensures value { result ≡ version_in octets line.now }
    ensures within { OnOk result (octets ≤ INPUT_OCTETS) }
{
    if let Some(fault) = overlong(0, octets, line.len()) {
        return Err(fault);
    }
    if line != b"ha 1".as_slice() {
        return Err(LineFault {
            column: 1,
            reason: LineReason::Word,
        });
    }
    Ok(())
}

/// The event of a line at a place, if the line is not passed over.
#[tactic(auto, unfolding(crate::specs::Input::event_in))]
fn event(
    alloc: Global,
    place: Place,
    octets: usize,
    line: &[u8],
) -> Result<Option<(Moment, Event)>, ReadFault>
    requires file { place.before ≤ INPUT_OCTETS }
    requires line { octets < ALLOCATION_END }
    ensures value { MatchResult result (λ event. event_in place octets line.now
        ≡ Ok (plain_event_of event))
        (λ e. FailsInLine e (event_in place octets line.now)) }
    ensures within { IfOk result (λ _. place.before + octets ≤ INPUT_OCTETS) }
    ensures few { IfOk result (λ event. OnSome event (place.count ≢ MAX_EVENTS)) }
    ensures fits { IfOk result (λ event. IfSome event (λ x. Fits (plain x.1))) }
{
    if let Some(fault) = overlong(place.before, octets, line.len()) {
        return Err(ReadFault::Line(fault));
    }
    if is_passed(line) {
        return Ok(None);
    }
    if place.count == MAX_EVENTS {
        return Err(ReadFault::Line(LineFault {
            column: 1,
            reason: LineReason::TooMany,
        }));
    }
    match read_line(alloc, line, place.last) {
        Ok((moment, event)) => Ok(Some((moment, event))),
        Err(fault) => Err(fault),
    }
}

pub(crate) fn in_line(line: u32, fault: LineFault) -> InputFault
    ensures { result ≡ record { line = line; column = fault.column; reason = fault.reason } }
{
    InputFault {
        line,
        column: fault.column,
        reason: fault.reason,
    }
}

/// What is left of an input, behind its first line.
#[derive(Drop)]
pub struct EventReader<'a> {
    rest: &'a [u8],
    place: Place,
}

impl<'a> Model for EventReader<'a> {
    ghost use Rattle.std.specs.Prelude.{◌+◌, ◌≤◌};
    ghost use Rattle.input_lines.specs.Lines.{lines_of};
    ghost use Rattle.input_lines.specs.Limits.{Left};
    ghost use Rattle.event_text.specs.declared.place.Place.{Place};
    ghost use Rattle.event_text.specs.declared.input.TheConstants.{MAX_EVENTS};
    ghost use Rattle.ha_base.specs.declared.limits.TheConstants.{INPUT_OCTETS};

    ghost Value = { Left Place };

    ghost view = { λ reader. record { lines = lines_of reader.rest.now; place = reader.place } };

    ghost invariant = { λ reader. (reader.place.before ≤ INPUT_OCTETS)
        × (reader.place.line ≤ reader.place.before + 1) × (reader.place.count ≤ MAX_EVENTS) };
}

impl<'a> EventReader<'a> {
    /// Reads the version line. An error is the first fault of the input.
    pub fn new(input: &'a [u8]) -> Result<EventReader<'a>, InputFault>
        ensures { MatchResult result (λ reader. contents_of input.now ≡ left_contents reader)
            (λ f. contents_of input.now ≡ record { events = []; fault = Some f }) }
    {
        if input.is_empty() {
            return Err(InputFault {
                line: 1,
                column: 1,
                reason: LineReason::Missing,
            });
        }
        let front = front_of(input);
        match version(front.octets, front.line) {
            Ok(()) => Ok(EventReader {
                rest: front.rest,
                place: Place {
                    line: 2,
                    before: front.octets,
                    count: 0,
                    last: Moment(0),
                },
            }),
            Err(fault) => Err(in_line(1, fault)),
        }
    }

    /// Takes the next line. An error leaves the reader as it was.
    #[tactic(auto, unfolding(crate::specs::Input::contents_at))]
    fn take_line(&mut self, alloc: Global) -> Result<Line, EventFault>
        ensures end { IfOk result (λ line. line ≡ Line.End
            → left_contents self.old ≡ record { events = []; fault = None }) }
        ensures passed { IfOk result (λ line. line ≡ Line.Passed
            → left_contents self.old ≡ left_contents self.new) }
        ensures event { IfOk result (λ line. (x : Moment × Event) → line ≡ Line.Said x.0 x.1
            → left_contents self.old ≡ with_event (x.0, plain x.1) (left_contents self.new)) }
        ensures fits { IfOk result (λ line. (x : Moment × Event) → line ≡ Line.Said x.0 x.1
            → Fits (plain x.1)) }
        ensures fewer { IfOk result (λ line. line ≢ Line.End
            → length self.new.lines < length self.old.lines) }
        ensures fault { IfErr result (λ e. EndsAtFault e (left_contents self.old)) }
    {
        if self.rest.is_empty() {
            return Ok(Line::End);
        }
        let front = front_of(self.rest);
        let said = match event(alloc, self.place, front.octets, front.line) {
            Ok(said) => said,
            Err(ReadFault::Memory) => return Err(EventFault::Memory),
            Err(ReadFault::Line(fault)) => {
                return Err(EventFault::Input(in_line(self.place.line, fault)));
            }
        };
        self.rest = front.rest;
        self.place.line += 1;
        self.place.before += front.octets;
        let Some((moment, event)) = said else {
            return Ok(Line::Passed);
        };
        self.place.count += 1;
        self.place.last = moment;
        Ok(Line::Said(moment, event))
    }

    /// Takes lines up to the next event.
    fn take_event(&mut self, alloc: Global) -> Result<Option<(Moment, Event)>, EventFault>
        ensures event { IfOk result (λ next. IfSome next (λ x.
            left_contents self.old ≡ with_event (x.0, plain x.1) (left_contents self.new))) }
        ensures fits { IfOk result (λ next. IfSome next (λ x. Fits (plain x.1))) }
        ensures fewer { IfOk result (λ next. OnSome next
            (length self.new.lines < length self.old.lines)) }
        ensures end { IfOk result (λ next. IfNone next
            (left_contents self.old ≡ record { events = []; fault = None })) }
        ensures fault { IfErr result (λ e. EndsAtFault e (left_contents self.old)) }
    {
        'lines: loop {
            match self.take_line(alloc)? {
                Line::End => return Ok(None),
                Line::Passed => {}
                Line::Said(moment, event) => return Ok(Some((moment, event))),
            }
        }
    }

    /// The next event, with its moment, or `None` at the end of the input. Empty lines and comments
    /// are passed over. An error is the first fault of the input, or want of memory, and leaves the
    /// reader as it was.
    pub fn next_event(&mut self, alloc: Global) -> Result<Option<(Moment, Event)>, EventFault>
        ensures event { IfOk result (λ next. IfSome next (λ x.
            left_contents self.old ≡ with_event (x.0, plain x.1) (left_contents self.new))) }
        ensures fits { IfOk result (λ next. IfSome next (λ x. Fits (plain x.1))) }
        ensures fewer { IfOk result (λ next. OnSome next
            (length self.new.lines < length self.old.lines)) }
        ensures end { IfOk result (λ next. IfNone next
            (left_contents self.old ≡ record { events = []; fault = None })) }
        ensures fault { IfErr result (λ e. EndsAtFault e (left_contents self.old)) }
        ensures err { OnErr result (self.new ≡ self.old) }
    {
        let mut ahead = EventReader {
            rest: self.rest,
            place: self.place,
        };
        let next = ahead.take_event(alloc)?;
        *self = ahead;
        Ok(next)
    }
}
