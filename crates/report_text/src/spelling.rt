//! The spelling of a line.

ghost use Rattle.std.specs.Prelude.{◌≡◌, ◌∷◌, ◌++◌, OnOk};
ghost use Rattle.line_fields.specs.Writing.{with_words};
ghost use Rattle.report_text.specs.Lines.{plain_line};
ghost use Rattle.report_text.specs.Spelling.{field_words, kind_word, part_word, report_line_text};

use crate::call_words::put_call;
use crate::event::{medium_word, put_event};
use crate::line::{Line, Part};
use crate::origins::put_origin;
use crate::verdicts::put_verdict;
use ha_base::{Memory, Octets};
use std::alloc::Global;
use word_text::{put_number, put_octets, put_word};

fn kind_word(line: &Line) -> &'static [u8]
    ensures { result.now ≡ kind_word (plain_line line.now) }
{
    match line {
        Line::Turn { .. } => b"turn",
        Line::Keep { .. } => b"keep",
        Line::Serve { .. } => b"serve",
        Line::Seal { .. } => b"seal",
        Line::Gives { .. } => b"gives",
        Line::Out(_) => b"out",
        Line::End(_) => b"end",
    }
}

fn part_word(part: Part) -> &'static [u8]
    ensures { result.now ≡ part_word part }
{
    match part {
        Part::IkeC => b"ike-c",
        Part::IkeP => b"ike-p",
        Part::EspC => b"esp-c",
        Part::EspP => b"esp-p",
        Part::Ticket => b"ticket",
    }
}

fn put_fields(alloc: Global, out: &mut Octets, line: &Line) -> Result<(), Memory>
    ensures { OnOk result (out.new.octets
        ≡ with_words out.old.octets (field_words (plain_line line.now))) }
{
    match line {
        Line::Turn {
            number,
            moment,
            event,
        } => {
            put_number(alloc, out, *number)?;
            put_number(alloc, out, moment.0)?;
            put_event(alloc, out, event)
        }
        Line::Keep { ask, lost, answer } => put_call(alloc, out, ask, *lost, answer),
        Line::Serve { request, reply } => {
            put_octets(alloc, out, request)?;
            put_octets(alloc, out, reply)
        }
        Line::Seal {
            origin,
            part,
            child,
            iv,
            plain,
            sealed,
        } => {
            put_origin(alloc, out, origin)?;
            put_word(out, part_word(*part))?;
            put_number(alloc, out, u64::from(*child))?;
            put_number(alloc, out, *iv)?;
            put_octets(alloc, out, plain)?;
            put_octets(alloc, out, sealed)
        }
        Line::Gives {
            number,
            medium,
            octets,
        } => {
            put_number(alloc, out, *number)?;
            put_word(out, medium_word(*medium))?;
            put_octets(alloc, out, octets)
        }
        Line::Out(verdict) => put_verdict(alloc, out, verdict),
        Line::End(turns) => put_number(alloc, out, *turns),
    }
}

/// Appends a line, with its line feed.
#[tactic(auto, using(line_fields::proofs::WritingLaws::line_put))]
pub(crate) fn put_line(alloc: Global, out: &mut Octets, line: &Line) -> Result<(), Memory>
    ensures { OnOk result (out.new.octets
        ≡ out.old.octets ++ report_line_text (plain_line line.now)) }
{
    out.extend(kind_word(line))?;
    put_fields(alloc, out, line)?;
    out.push(b'\n')
}
