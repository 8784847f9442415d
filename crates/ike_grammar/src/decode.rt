ghost use Rattle.std.specs.Prelude.{◌≡◌, List, IfOk, IfErr, Ok};
ghost use Rattle.ike_values.specs.Values.{PayloadValue};
ghost use Rattle.ike_values.specs.Chains.{Spells};
ghost use Rattle.ike_values.specs.Headers.{IsHeader, IsMessage};
ghost use Rattle.ike_values.specs.declared.header.Header.{Header};
ghost use Rattle.ike_values.specs.declared.header.Message.{Message};
ghost use Rattle.ike_grammar.specs.Faults.{Gives, IsFaultAt};
ghost use Rattle.ike_grammar.specs.Chain.{Refused};
ghost use Rattle.ike_grammar.specs.Messages.{header_at, MessageRefused};

use crate::chain::chain_of;
use crate::fault::Unread;
use crate::messages::{header_of, message_of};
use ike_values::{Bad, Header, Message, Payloads};
use std::alloc::Global;

/// The header of a message, all of whose octets these are (RFC 7296, section 3.1). An error is the
/// first fault: fewer than 28 octets, a major version other than 2, or a length field that is not
/// the number of octets.
pub fn decode_header(bytes: &[u8]) -> Result<Header, Bad>
    // What is read is spelled so.
    ensures found { IfOk result (λ header. IsHeader header bytes.now) }
    // What is spelled so is read.
    ensures only { (header : Header) → IsHeader header bytes.now → result ≡ Ok header }
    // Its fault is the first one.
    ensures exact { result ≡ header_at bytes.now }
{
    header_of(bytes)
}

/// The payloads that the octets spell, where `first` is the type of the first one, 0 for none (RFC
/// 7296, section 3.2). An inner chain is the content of an SK payload, and has no SK itself. `Bad`
/// is the first fault from the left, its place counted from the first of these octets; `Memory` is
/// want of memory.
pub fn decode_chain(alloc: Global, first: u8, bytes: &[u8], inner: bool) -> Result<Payloads, Unread>
    // What is read is spelled so.
    ensures found { IfOk result (λ payloads. Spells payloads first inner bytes.now) }
    // What is spelled so is read, unless memory runs out.
    ensures only { (payloads : List PayloadValue) → Spells payloads first inner bytes.now → Gives
        (λ x. x) result (Ok payloads) }
    // A fault is the first one: its place and its reason are what the law `first_fault` says.
    ensures refused { IfErr result (IsFaultAt (Refused first inner bytes.now)) }
{
    chain_of(alloc, bytes.len(), inner, first, bytes)
}

/// The message that the octets spell (RFC 7296, section 3). `Bad` is the first fault from the left,
/// its place counted from the first octet of the message; `Memory` is want of memory.
pub fn decode_message(alloc: Global, bytes: &[u8]) -> Result<Message, Unread>
    // What is read is spelled so.
    ensures found { IfOk result (λ message. IsMessage message bytes.now) }
    // What is spelled so is read, unless memory runs out.
    ensures only { (message : Message) → IsMessage message bytes.now → Gives
        (λ x. x) result (Ok message) }
    // A fault is the first one: its place and its reason are what `first_fault_of_message` says.
    ensures refused { IfErr result (IsFaultAt (MessageRefused bytes.now)) }
{
    message_of(alloc, bytes)
}
