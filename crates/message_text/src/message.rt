//! A message's text.

ghost use Rattle.std.specs.Prelude.{◌≡◌, ℕ, ◌∷◌, ◌++◌, OnOk, OnErr, IfOk, codes, false, map};
ghost use Rattle.std.specs.List.{flat_map};
ghost use Rattle.line_fields.specs.Writing.{line_text};
ghost use Rattle.line_fields.specs.Writing.{with_words};
ghost use Rattle.ike_values.specs.Headers.{IsMessage};
ghost use Rattle.ike_values.specs.PayloadView.{payload_value};
ghost use Rattle.ike_values.specs.Validity.{AreValid};
ghost use Rattle.ike_values.specs.declared.header.Message.{Message};
ghost use Rattle.ike_values.specs.declared.fault.Reason.{Reason};
ghost use Rattle.ike_grammar.specs.Messages.{MessageRefused};
ghost use Rattle.message_text.specs.Shown.{bad_text, header_words, message_text, payload_text, shown};

use crate::payload::put_payload;
use fault_text::put_fault;
use ha_base::{Memory, Octets};
use ike_encoding::flags_of;
use ike_grammar::{Unread, decode_message};
use ike_values::{Bad, Header, Message, Payload};
use std::alloc::Global;
use word_text::{put_digits, put_number, put_spi, put_word};

#[tactic(auto, unfolding(crate::specs::Shown::header_words))]
fn put_header_words(alloc: Global, out: &mut Octets, header: &Header) -> Result<(), Memory>
    ensures { OnOk result (out.new.octets ≡ with_words out.old.octets (header_words header.now)) }
{
    put_spi(alloc, out, header.spii)?;
    put_spi(alloc, out, header.spir)?;
    put_number(alloc, out, u64::from(header.exchange))?;
    put_digits(alloc, out, flags_of(header))?;
    put_number(alloc, out, u64::from(header.id))
}

#[tactic(auto, using(line_fields::proofs::WritingLaws::line_put))]
fn put_header(alloc: Global, out: &mut Octets, header: &Header) -> Result<(), Memory>
    ensures { OnOk result (out.new.octets ≡ out.old.octets
        ++ line_text (codes "ok" ∷ header_words header.now)) }
{
    out.extend(b"ok")?;
    put_header_words(alloc, out, header)?;
    out.push(b'\n')
}

fn put_payloads(alloc: Global, out: &mut Octets, payloads: &[Payload]) -> Result<(), Memory>
    requires { AreValid false (map payload_value payloads.now) }
    ensures { OnOk result (out.new.octets ≡ out.old.octets
        ++ flat_map payload_text (map payload_value payloads.now)) }
{
    let mut rest = payloads;
    while let [first, others @ ..] = rest {
        put_payload(alloc, out, first)?;
        rest = others;
    }
    Ok(())
}

#[tactic(auto, unfolding(crate::specs::Shown::message_text))]
fn message_text(alloc: Global, message: &Message) -> Result<Octets, Memory>
    requires { AreValid false message.now.payloads }
    ensures { IfOk result (λ text. text.octets ≡ message_text message.now) }
{
    let mut text = Octets::new(alloc);
    put_header(alloc, &mut text, &message.header)?;
    put_payloads(alloc, &mut text, message.payloads.as_slice())?;
    Ok(text)
}

#[tactic(auto, using(line_fields::proofs::WritingLaws::line_put))]
fn bad_text(alloc: Global, bad: Bad) -> Result<Octets, Memory>
    ensures { IfOk result (λ text. text.octets ≡ bad_text bad.place bad.reason) }
{
    let mut text = Octets::new(alloc);
    text.extend(b"bad")?;
    put_fault(alloc, &mut text, bad)?;
    text.push(b'\n')?;
    Ok(text)
}

fn text_of(alloc: Global, octets: &[u8]) -> Result<Octets, Memory>
    ensures { IfOk result (λ text. text.octets ≡ shown octets.now) }
{
    match decode_message(alloc, octets) {
        Ok(message) => message_text(alloc, &message),
        Err(Unread::Bad(bad)) => bad_text(alloc, bad),
        Err(Unread::Memory(memory)) => Err(memory),
    }
}

fn put_message(alloc: Global, out: &mut Octets, octets: &[u8]) -> Result<(), Memory>
    ensures shown { OnOk result (out.new.octets ≡ out.old.octets ++ shown octets.now) }
    ensures err { OnErr result (out.new.octets ≡ out.old.octets) }
{
    let text = text_of(alloc, octets)?;
    out.extend(text.as_slice())
}

/// Appends the text of the message that the octets spell (RFC 7296, section 3): a line for its
/// header and one for each payload, or one line for the first fault. An error is want of memory.
pub fn write_message(alloc: Global, octets: &[u8], out: &mut Octets) -> Result<(), Memory>
    // The text is that of the one message that the octets spell.
    ensures ok { (message : Message) → IsMessage message octets.now
        → OnOk result (out.new.octets ≡ out.old.octets ++ message_text message) }
    // It is that of the one place and reason at which they are refused.
    ensures bad { (place : ℕ) (reason : Reason) → MessageRefused octets.now place reason
        → OnOk result (out.new.octets ≡ out.old.octets ++ bad_text place reason) }
    // They are one of the two.
    ensures shown { OnOk result (out.new.octets ≡ out.old.octets ++ shown octets.now) }
    ensures err { OnErr result (out.new.octets ≡ out.old.octets) }
{
    put_message(alloc, out, octets)
}
