//! The fields that only events have.

ghost use Rattle.std.specs.Prelude.{◌≡◌, ◌≤◌, IfOk, length};
ghost use Rattle.ha_base.specs.declared.limits.TheConstants.{DATAGRAM_OCTETS};
ghost use Rattle.line_fields.specs.Octets.{sized};
ghost use Rattle.line_fields.specs.Fields.{Reads, field};
ghost use Rattle.event_text.specs.InMemory.{GivesInLine};
ghost use Rattle.events.specs.EventFields.{is_ticket_key_size, is_window_size, medium_of, party_of, ticket_key_of, which_of, window_in_word};

use crate::read_fault::ReadFault;
use events::{Medium, Party, Which};
use ha_base::{Memory, NUMBER_END, OctetList, Octets};
use line_fields::{
    LineFault, LineReason, Words, at, fill, list_word, number_word, short_word, size_word,
};
use std::alloc::Global;

fn party_word(word: &[u8]) -> Result<Party, LineReason>
    ensures { result ≡ party_of word.now }
{
    if word == b"peer".as_slice() {
        return Ok(Party::Peer);
    }
    let number = number_word(word, 0, NUMBER_END)?;
    Ok(Party::Member(number))
}

/// An end.
#[tactic(auto, unfolding(line_fields::specs::Fields::field))]
pub(crate) fn party(words: &mut Words<'_>) -> Result<Party, LineFault>
    ensures { Reads (λ x. x) result words.new (field party_of words.old) }
{
    let column = words.column();
    let word = words.word()?;
    at(column, party_word(word))
}

fn which_word(word: &[u8]) -> Result<Which, LineReason>
    ensures { result ≡ which_of word.now }
{
    if word == b"last".as_slice() {
        return Ok(Which::Last);
    }
    let number = short_word(word, 1)?;
    Ok(Which::Number(number))
}

/// A datagram.
#[tactic(auto, unfolding(line_fields::specs::Fields::field))]
pub(crate) fn which(words: &mut Words<'_>) -> Result<Which, LineFault>
    ensures { Reads (λ x. x) result words.new (field which_of words.old) }
{
    let column = words.column();
    let word = words.word()?;
    at(column, which_word(word))
}

fn medium_word(word: &[u8]) -> Result<Medium, LineReason>
    ensures { result ≡ medium_of word.now }
{
    if word == b"ike".as_slice() {
        return Ok(Medium::Ike);
    }
    if word == b"esp".as_slice() {
        return Ok(Medium::Esp);
    }
    Err(LineReason::Word)
}

/// What a datagram carries.
#[tactic(auto, unfolding(line_fields::specs::Fields::field))]
pub(crate) fn medium(words: &mut Words<'_>) -> Result<Medium, LineFault>
    ensures { Reads (λ x. x) result words.new (field medium_of words.old) }
{
    let column = words.column();
    let word = words.word()?;
    at(column, medium_word(word))
}

fn is_window_size(size: u32) -> bool
    ensures { result ≡ is_window_size size }
{
    size == 64 || size == 128 || size == 256 || size == 512 || size == 1024
}

fn window_word(word: &[u8]) -> Result<u32, LineReason>
    ensures { result ≡ window_in_word word.now }
{
    let size = short_word(word, 0)?;
    if !is_window_size(size) {
        return Err(LineReason::Number);
    }
    Ok(size)
}

/// The size of a receive window.
#[tactic(auto, unfolding(line_fields::specs::Fields::field))]
pub(crate) fn window(words: &mut Words<'_>) -> Result<u32, LineFault>
    ensures { Reads (λ x. x) result words.new (field window_in_word words.old) }
{
    let column = words.column();
    let word = words.word()?;
    at(column, window_word(word))
}

fn is_ticket_key_size(octets: usize) -> bool
    ensures { result ≡ is_ticket_key_size octets }
{
    octets == 0 || octets == 20 || octets == 36
}

fn ticket_key_word(word: &[u8]) -> Result<OctetList<36>, LineReason>
    ensures { result ≡ ticket_key_of word.now }
{
    let key: OctetList<36> = list_word(word, 0, 36)?;
    if !is_ticket_key_size(key.as_slice().len()) {
        return Err(LineReason::Size);
    }
    Ok(key)
}

/// A ticket key with its salt, or none.
#[tactic(auto, unfolding(line_fields::specs::Fields::field))]
pub(crate) fn ticket_key(words: &mut Words<'_>) -> Result<OctetList<36>, LineFault>
    ensures { Reads (λ x. x) result words.new (field ticket_key_of words.old) }
{
    let column = words.column();
    let word = words.word()?;
    at(column, ticket_key_word(word))
}

fn zeros(alloc: Global, size: usize) -> Result<Vec<u8>, Memory>
    ensures { IfOk result (λ octets. length octets.items ≡ size) }
{
    match vec![in alloc; 0u8; size] {
        Ok(octets) => Ok(octets),
        Err(_) => Err(Memory),
    }
}

/// Octets of at most `most`, in memory.
#[tactic(auto, unfolding(line_fields::specs::Fields::field))]
pub(crate) fn octets_in_memory(
    alloc: Global,
    words: &mut Words<'_>,
    most: usize,
) -> Result<Octets, ReadFault>
    requires { most ≤ DATAGRAM_OCTETS }
    ensures { GivesInLine (λ x. x.octets) result words.new (field (sized 0 most) words.old) }
{
    let column = words.column();
    let word = words.word()?;
    let size = at(column, size_word(word, 0, most))?;
    let mut octets = zeros(alloc, size)?;
    fill(word, octets.as_mut_slice());
    Ok(Octets::of(octets))
}
