//! Whole messages.

ghost use Rattle.std.specs.Prelude.{◌≡◌, ◌+◌, ◌<◌, ◌^◌, length, IfOk, OnOk};
ghost use Rattle.ike_values.specs.Writing.{chain_written};
ghost use Rattle.ike_values.specs.Chains.{HasSpelling};
ghost use Rattle.ike_values.specs.Headers.{FitsHeader, IsMessage};
ghost use Rattle.ike_encoding.specs.Messages.{flags_of, header_written, message_written};

use crate::chain::encode_chain;
use ha_base::{Memory, Octets};
use ike_values::{HEADER_OCTETS, Header, INITIATOR, Message, RESPONSE, VERSION};
use std::alloc::Global;

/// The spelling of a message with reserved bits 0 (RFC 7296, section 3). Its payloads have a
/// spelling (`Payloads::is_valid`), which with the header is below 2^32 octets long. An error is
/// want of memory.
pub fn encode_message(alloc: Global, message: &Message) -> Result<Octets, Memory>
    requires valid { HasSpelling message.now.payloads }
    requires fits { 28 + length (chain_written message.now.payloads) < 2 ^ 32 }
    ensures written { IfOk result (λ out. out.octets ≡ message_written message.now) }
    // What is written is a spelling.
    ensures spells { IfOk result (λ out. IsMessage message.now out.octets) }
{
    put_message(alloc, message)
}

fn put_message(alloc: Global, message: &Message) -> Result<Octets, Memory>
    requires valid { HasSpelling message.now.payloads }
    requires fits { 28 + length (chain_written message.now.payloads) < 2 ^ 32 }
    ensures written { IfOk result (λ out. out.octets ≡ message_written message.now) }
    ensures header { OnOk result (FitsHeader message.now.header) }
{
    let mut chain = Octets::new(alloc);
    let first = encode_chain(&message.payloads, &mut chain)?;
    let payloads = chain.as_slice();
    let length = HEADER_OCTETS + payloads.len();
    let mut out = Octets::with_room(alloc, length)?;
    out.extend(&header_octets(&message.header, first, length as u32))?;
    out.extend(payloads)?;
    Ok(out)
}

/// The spelling of a header with reserved bits 0 and the minor version 0 (RFC 7296, section 3.1),
/// where the first payload has this type and the message this length.
pub fn header_octets(header: &Header, first: u8, length: u32) -> [u8; HEADER_OCTETS]
    ensures octets { result ≡ header_written header.now first length }
    ensures fits { FitsHeader header.now }
{
    let Header {
        spii,
        spir,
        exchange,
        id,
        ..
    } = *header;
    let mut octets = [0; HEADER_OCTETS];
    octets[..8].copy_from_slice(&spii.to_be_bytes());
    octets[8..16].copy_from_slice(&spir.to_be_bytes());
    octets[16..20].copy_from_slice(&[first, VERSION, exchange, flags_of(header)]);
    octets[20..24].copy_from_slice(&id.to_be_bytes());
    octets[24..].copy_from_slice(&length.to_be_bytes());
    octets
}

/// The flags of a header: Initiator and Response, and no other (RFC 7296, section 3.1).
pub fn flags_of(header: &Header) -> u8
    ensures { result ≡ flags_of header.now }
{
    let initiator = if header.initiator { INITIATOR } else { 0 };
    let response = if header.response { RESPONSE } else { 0 };
    initiator + response
}
