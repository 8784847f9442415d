//! An event from its line.

ghost use Rattle.std.specs.Prelude.{◌≡◌, drop, length, IfOk, MatchResult, Ok, Err};
ghost use Rattle.keeper_book.specs.Counters.{AreWithinEnds};
ghost use Rattle.ha_base.specs.KeySizes.{sealing_octets};
ghost use Rattle.events.specs.Events.{PlainEvent, plain};
ghost use Rattle.event_text.specs.Grammar.{EventLine};
ghost use Rattle.events.specs.Ranges.{Fits};
ghost use Rattle.ha_base.specs.declared.outside.Moment.{Moment};
ghost use Rattle.line_fields.specs.Fields.{Reads};
ghost use Rattle.event_text.specs.InMemory.{FailsInLine, GivesInLine};
ghost use Rattle.events.specs.KeyFields.{sa_keys_at, child_keys_at, starts_at};
ghost use Rattle.events.specs.EventTable.{again_row, alter_row, ask_row, cluster_row, crash_row, cut_row, deliver_row, draw_row, event_table, forget_row, import_row, inject_row, join_row, own_row, read_fields, read_row, send_row, sync_row, ticket_row};
ghost use Rattle.event_text.specs.Reading.{event_at, line_at, moment_at, moment_and_event_at};

use crate::event_fields::{medium, octets_in_memory, party, ticket_key, which, window};
use crate::keys::sealing_key;
use crate::read_fault::ReadFault;
use events::Event;
use ha_base::{
    ChildKeys, DATAGRAM_OCTETS, IV_END, KeySize, LINE_OCTETS, LONGEST_REQUEST, MESSAGE_ID_END,
    Moment, NUMBER_END, Origin, PAYLOAD_OCTETS, SEQUENCE_END, SaKeys,
};
use keeper_book::{Five, Record};
use line_fields::{
    LineFault, LineReason, Words, domain_name, esp_spi, identity, key_size, number, octet, octets,
    short_number, spi,
};
use std::alloc::Global;

#[tactic(auto, unfolding(events::specs::KeyFields::sa_keys_at))]
fn sa_keys(words: &mut Words<'_>, size: KeySize) -> Result<SaKeys, LineFault>
    ensures value { Reads (λ x. x) result words.new (sa_keys_at size words.old) }
    ensures initiator { IfOk result (λ keys. length keys.sk_ei ≡ sealing_octets size) }
    ensures responder { IfOk result (λ keys. length keys.sk_er ≡ sealing_octets size) }
{
    let sk_d = octets(words)?;
    let sk_ei = sealing_key(words, size)?;
    let sk_er = sealing_key(words, size)?;
    let sk_pi = octets(words)?;
    let sk_pr = octets(words)?;
    Ok(SaKeys {
        sk_d,
        sk_ei,
        sk_er,
        sk_pi,
        sk_pr,
    })
}

#[tactic(auto, unfolding(events::specs::KeyFields::child_keys_at))]
fn child_keys(words: &mut Words<'_>, size: KeySize) -> Result<ChildKeys, LineFault>
    ensures value { Reads (λ x. x) result words.new (child_keys_at size words.old) }
    ensures cluster { IfOk result (λ keys. length keys.to_cluster ≡ sealing_octets size) }
    ensures peer { IfOk result (λ keys. length keys.to_peer ≡ sealing_octets size) }
{
    let to_cluster = sealing_key(words, size)?;
    let to_peer = sealing_key(words, size)?;
    Ok(ChildKeys {
        to_cluster,
        to_peer,
    })
}

#[tactic(auto, unfolding(events::specs::KeyFields::starts_at))]
fn starts(words: &mut Words<'_>) -> Result<Five, LineFault>
    ensures value { Reads (λ x. x) result words.new (starts_at words.old) }
    ensures within { IfOk result AreWithinEnds }
{
    let esp_out = number(words, SEQUENCE_END)?;
    let esp_in = number(words, SEQUENCE_END)?;
    let iv = number(words, IV_END)?;
    let ask = number(words, MESSAGE_ID_END)?;
    let answer = number(words, MESSAGE_ID_END)?;
    Ok(Five {
        esp_out,
        esp_in,
        iv,
        ask,
        answer,
    })
}

fn import(words: &mut Words<'_>) -> Result<Event, LineFault>
    ensures { Reads plain result words.new (read_fields import_row.fields words.old) }
{
    let spii = spi(words)?;
    let spir = spi(words)?;
    let size = key_size(words)?;
    let identity = identity(words)?;
    let keys = sa_keys(words, size)?;
    let spi_in = esp_spi(words)?;
    let spi_out = esp_spi(words)?;
    let child = child_keys(words, size)?;
    let starts = starts(words)?;
    Ok(Event::Import {
        sa: Record {
            origin: Origin::Imported(spir),
            spii,
            spir,
            size,
            identity,
            keys,
            spi_in,
            spi_out,
            child,
            starts,
        },
    })
}

fn join(words: &mut Words<'_>) -> Result<Event, LineFault>
    ensures { Reads plain result words.new (read_fields join_row.fields words.old) }
{
    let fresh = octets(words)?;
    Ok(Event::Join { fresh })
}

fn own(words: &mut Words<'_>) -> Result<Event, LineFault>
    ensures { Reads plain result words.new (read_fields own_row.fields words.old) }
{
    let member = number(words, NUMBER_END)?;
    let spir = spi(words)?;
    Ok(Event::Own { member, spir })
}

fn draw(words: &mut Words<'_>) -> Result<Event, LineFault>
    ensures { Reads plain result words.new (read_fields draw_row.fields words.old) }
{
    let member = number(words, NUMBER_END)?;
    let spir = spi(words)?;
    Ok(Event::Draw { member, spir })
}

fn crash(words: &mut Words<'_>) -> Result<Event, LineFault>
    ensures { Reads plain result words.new (read_fields crash_row.fields words.old) }
{
    let member = number(words, NUMBER_END)?;
    Ok(Event::Crash { member })
}

fn cluster(words: &mut Words<'_>) -> Result<Event, LineFault>
    ensures { Reads plain result words.new (read_fields cluster_row.fields words.old) }
{
    let identity = domain_name(words)?;
    let lifetime = short_number(words, 1)?;
    let window = window(words)?;
    let ticket_key = ticket_key(words)?;
    Ok(Event::Cluster {
        identity,
        lifetime,
        window,
        ticket_key,
    })
}

fn send(alloc: Global, words: &mut Words<'_>) -> Result<Event, ReadFault>
    ensures { GivesInLine plain result words.new (read_fields send_row.fields words.old) }
{
    let from = party(words)?;
    let spir = spi(words)?;
    let payload = octets_in_memory(alloc, words, PAYLOAD_OCTETS)?;
    Ok(Event::Send {
        from,
        spir,
        payload,
    })
}

fn ask(alloc: Global, words: &mut Words<'_>) -> Result<Event, ReadFault>
    ensures { GivesInLine plain result words.new (read_fields ask_row.fields words.old) }
{
    let from = party(words)?;
    let spir = spi(words)?;
    let request = octets_in_memory(alloc, words, LONGEST_REQUEST)?;
    Ok(Event::Ask {
        from,
        spir,
        request,
    })
}

fn again(words: &mut Words<'_>) -> Result<Event, LineFault>
    ensures { Reads plain result words.new (read_fields again_row.fields words.old) }
{
    let from = party(words)?;
    let spir = spi(words)?;
    let id = short_number(words, 0)?;
    Ok(Event::Again { from, spir, id })
}

fn sync(words: &mut Words<'_>) -> Result<Event, LineFault>
    ensures { Reads plain result words.new (read_fields sync_row.fields words.old) }
{
    let member = number(words, NUMBER_END)?;
    let spir = spi(words)?;
    Ok(Event::Sync { member, spir })
}

fn ticket(words: &mut Words<'_>) -> Result<Event, LineFault>
    ensures { Reads plain result words.new (read_fields ticket_row.fields words.old) }
{
    let spir = spi(words)?;
    Ok(Event::Ticket { spir })
}

fn forget(words: &mut Words<'_>) -> Result<Event, LineFault>
    ensures { Reads plain result words.new (read_fields forget_row.fields words.old) }
{
    let spir = spi(words)?;
    Ok(Event::Forget { spir })
}

fn deliver(words: &mut Words<'_>) -> Result<Event, LineFault>
    ensures { Reads plain result words.new (read_fields deliver_row.fields words.old) }
{
    let which = which(words)?;
    let to = party(words)?;
    Ok(Event::Deliver { which, to })
}

fn alter(words: &mut Words<'_>) -> Result<Event, LineFault>
    ensures { Reads plain result words.new (read_fields alter_row.fields words.old) }
{
    let which = which(words)?;
    let to = party(words)?;
    let place = short_number(words, 0)?;
    let octet = octet(words)?;
    Ok(Event::Alter {
        which,
        to,
        place,
        octet,
    })
}

fn cut(words: &mut Words<'_>) -> Result<Event, LineFault>
    ensures { Reads plain result words.new (read_fields cut_row.fields words.old) }
{
    let which = which(words)?;
    let to = party(words)?;
    let keep = short_number(words, 0)?;
    Ok(Event::Cut { which, to, keep })
}

fn inject(alloc: Global, words: &mut Words<'_>) -> Result<Event, ReadFault>
    ensures { GivesInLine plain result words.new (read_fields inject_row.fields words.old) }
{
    let to = party(words)?;
    let medium = medium(words)?;
    let octets = octets_in_memory(alloc, words, DATAGRAM_OCTETS)?;
    Ok(Event::Inject { to, medium, octets })
}

/// An event whose fields take no memory, by its word.
fn short_event(column: u32, word: &[u8], words: &mut Words<'_>) -> Result<Event, LineFault>
    ensures { Reads plain result words.new (read_row
        (drop 3 event_table) column word.now words.old) }
{
    if word == b"cluster".as_slice() {
        return cluster(words);
    }
    if word == b"import".as_slice() {
        return import(words);
    }
    if word == b"join".as_slice() {
        return join(words);
    }
    if word == b"own".as_slice() {
        return own(words);
    }
    if word == b"draw".as_slice() {
        return draw(words);
    }
    if word == b"crash".as_slice() {
        return crash(words);
    }
    if word == b"again".as_slice() {
        return again(words);
    }
    if word == b"sync".as_slice() {
        return sync(words);
    }
    if word == b"ticket".as_slice() {
        return ticket(words);
    }
    if word == b"forget".as_slice() {
        return forget(words);
    }
    if word == b"deliver".as_slice() {
        return deliver(words);
    }
    if word == b"alter".as_slice() {
        return alter(words);
    }
    if word == b"cut".as_slice() {
        return cut(words);
    }
    Err(LineFault {
        column,
        reason: LineReason::Word,
    })
}

#[tactic(auto, unfolding(crate::specs::Reading::event_at))]
fn event(alloc: Global, words: &mut Words<'_>) -> Result<Event, ReadFault>
    ensures { GivesInLine plain result words.new (event_at words.old) }
{
    let column = words.column();
    let word = words.word()?;
    if word == b"send".as_slice() {
        return send(alloc, words);
    }
    if word == b"ask".as_slice() {
        return ask(alloc, words);
    }
    if word == b"inject".as_slice() {
        return inject(alloc, words);
    }
    Ok(short_event(column, word, words)?)
}

#[tactic(auto, unfolding(crate::specs::Reading::moment_at))]
fn moment(words: &mut Words<'_>, last: Moment) -> Result<u64, LineFault>
    ensures { Reads (λ x. x) result words.new (moment_at last.0 words.old) }
{
    let column = words.column();
    let seconds = number(words, NUMBER_END)?;
    if seconds < last.0 {
        return Err(LineFault {
            column,
            reason: LineReason::ClockBack,
        });
    }
    Ok(seconds)
}

#[tactic(auto, unfolding(crate::specs::Reading::line_at, crate::specs::Reading::moment_and_event_at))]
fn line_event(alloc: Global, line: &[u8], last: Moment) -> Result<(Moment, Event), ReadFault>
    ensures { MatchResult result (λ x. line_at last.0 line.now ≡ Ok (x.0, plain x.1))
        (λ e. FailsInLine e (line_at last.0 line.now)) }
{
    if line.len() > LINE_OCTETS {
        return Err(ReadFault::Line(LineFault {
            column: LINE_OCTETS as u32 + 1,
            reason: LineReason::LineTooLong,
        }));
    }
    let mut words = Words::new(line);
    let seconds = moment(&mut words, last)?;
    let event = event(alloc, &mut words)?;
    words.end()?;
    Ok((Moment(seconds), event))
}

/// The event that a line spells, with its moment, in seconds. `last` is the moment of the event
/// before, or 0.
///
/// An error is the first fault of the line from left to right, or want of memory.
pub fn read_line(alloc: Global, line: &[u8], last: Moment) -> Result<(Moment, Event), ReadFault>
    // Which event it is, and else which fault.
    ensures exact { MatchResult result (λ x. line_at last.0 line.now ≡ Ok (x.0, plain x.1))
        (λ e. FailsInLine e (line_at last.0 line.now)) }

    // What is read is spelled so.
    ensures found { IfOk result (λ x. EventLine last.0 line.now x.0 (plain x.1)) }

    // Its fields are in their ranges.
    ensures fits { IfOk result (λ x. Fits (plain x.1)) }

    // What is spelled so is read, unless memory runs out.
    ensures only { (m : Moment) (e : PlainEvent) → EventLine last.0 line.now m e
        → MatchResult result (λ x. (x.0 ≡ m) × (plain x.1 ≡ e)) (λ e. e ≡ ReadFault.Memory) }
{
    match line_event(alloc, line, last) {
        Ok(read) => Ok(read),
        Err(ReadFault::Line(fault)) => Err(ReadFault::Line(fault)),
        Err(ReadFault::Memory) => Err(ReadFault::Memory),
    }
}
