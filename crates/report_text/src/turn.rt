//! A turn's text.

ghost use Rattle.std.specs.Prelude.{◌≡◌, ◌∷◌, ◌++◌, OnOk, OnErr, IfOk, option_to_list};
ghost use Rattle.std.specs.Option.{option_map};
ghost use Rattle.std.specs.List.{flat_map};
ghost use Rattle.report_text.specs.Lines.{plain_line};
ghost use Rattle.report_text.specs.Report.{keep_text, report_head, seal_text, turn_text};
ghost use Rattle.report_text.specs.Spelling.{report_lines_text};
ghost use Rattle.report_text.specs.TurnLines.{gives_line, serve_line};

use crate::line::Line;
use crate::spelling::put_line;
use crate::turn_lines::{keep_line, seal_line};
use events::{Datagram, Seal, Seals, Served, Turn};
use ha_base::{Memory, Octets};
use keeper_book::{Call, Calls};
use std::alloc::Global;

#[tactic(auto, using(crate::proofs::WritingLaws::line_alone))]
fn put_line_if_any(alloc: Global, out: &mut Octets, line: &Option<Line>) -> Result<(), Memory>
    ensures { OnOk result (out.new.octets
        ≡ out.old.octets ++ report_lines_text (option_to_list (option_map plain_line line.now))) }
{
    match line {
        Some(line) => put_line(alloc, out, line),
        None => Ok(()),
    }
}

#[tactic(auto, unfolding(crate::specs::Report::keep_text))]
fn put_keep(alloc: Global, out: &mut Octets, call: &Call) -> Result<(), Memory>
    ensures { OnOk result (out.new.octets ≡ out.old.octets ++ keep_text call.now) }
{
    put_line_if_any(alloc, out, &keep_line(call))
}

// A line for each call, in order.
#[tactic(auto, using(crate::proofs::WritingLaws::one_more, crate::proofs::WritingLaws::item_there))]
fn put_calls(alloc: Global, out: &mut Octets, calls: &Calls) -> Result<(), Memory>
    ensures { OnOk result (out.new.octets ≡ out.old.octets ++ flat_map keep_text calls.now) }
{
    for at in 0..calls.len() {
        if let Some(call) = calls.get(at) {
            put_keep(alloc, out, call)?;
        }
    }
    Ok(())
}

#[tactic(auto, using(crate::proofs::WritingLaws::line_alone))]
fn put_served(alloc: Global, out: &mut Octets, served: &Option<Served>) -> Result<(), Memory>
    ensures { OnOk result (out.new.octets
        ≡ out.old.octets ++ report_lines_text (option_to_list (option_map serve_line served.now))) }
{
    let Some(served) = served else { return Ok(()) };
    let line = Line::Serve {
        request: served.request.as_slice(),
        reply: served.reply.as_slice(),
    };
    put_line(alloc, out, &line)
}

#[tactic(auto, unfolding(crate::specs::Report::seal_text))]
fn put_seal(alloc: Global, out: &mut Octets, seal: &Seal) -> Result<(), Memory>
    ensures { OnOk result (out.new.octets ≡ out.old.octets ++ seal_text seal.now) }
{
    put_line_if_any(alloc, out, &seal_line(seal))
}

// A line for each seal, in order.
#[tactic(auto, using(crate::proofs::WritingLaws::one_more, crate::proofs::WritingLaws::item_there))]
fn put_seals(alloc: Global, out: &mut Octets, seals: &Seals) -> Result<(), Memory>
    ensures { OnOk result (out.new.octets ≡ out.old.octets ++ flat_map seal_text seals.now) }
{
    for at in 0..seals.len() {
        if let Some(seal) = seals.get(at) {
            put_seal(alloc, out, seal)?;
        }
    }
    Ok(())
}

#[tactic(auto, using(crate::proofs::WritingLaws::line_alone))]
fn put_given(
    alloc: Global,
    out: &mut Octets,
    number: u64,
    gives: &Option<Datagram>,
) -> Result<(), Memory>
    ensures { OnOk result (out.new.octets
        ≡ out.old.octets
        ++ report_lines_text (option_to_list (option_map (gives_line number) gives.now))) }
{
    let Some(datagram) = gives else { return Ok(()) };
    let line = Line::Gives {
        number,
        medium: datagram.medium,
        octets: datagram.octets.as_slice(),
    };
    put_line(alloc, out, &line)
}

fn text_of(alloc: Global, number: u64, datagram: u64, turn: &Turn) -> Result<Octets, Memory>
    ensures { IfOk result (λ text. text.octets ≡ turn_text number datagram turn.now) }
{
    let title = Line::Turn {
        number,
        moment: turn.moment,
        event: &turn.event,
    };
    let mut text = Octets::new(alloc);
    put_line(alloc, &mut text, &title)?;
    put_calls(alloc, &mut text, &turn.calls)?;
    put_served(alloc, &mut text, &turn.step.served)?;
    put_seals(alloc, &mut text, &turn.step.seals)?;
    put_given(alloc, &mut text, datagram, &turn.step.gives)?;
    put_line(alloc, &mut text, &Line::Out(&turn.step.verdict))?;
    Ok(text)
}

/// Appends a turn's text. `number` is the turn's number, from 1, and `datagram` that of the
/// datagram that it gives, if it gives one. An error is want of memory.
pub fn write_turn(
    alloc: Global,
    number: u64,
    datagram: u64,
    turn: &Turn,
    out: &mut Octets,
) -> Result<(), Memory>
    ensures ok { OnOk result (out.new.octets
        ≡ out.old.octets ++ turn_text number datagram turn.now) }
    ensures err { OnErr result (out.new.octets ≡ out.old.octets) }
{
    let text = text_of(alloc, number, datagram, turn)?;
    out.extend(text.as_slice())
}

/// Appends a report's first line. An error is want of memory.
pub fn write_head(out: &mut Octets) -> Result<(), Memory>
    ensures ok { OnOk result (out.new.octets ≡ out.old.octets ++ report_head) }
    ensures err { OnErr result (out.new.octets ≡ out.old.octets) }
{
    out.extend(b"ha-report 1\n")
}
