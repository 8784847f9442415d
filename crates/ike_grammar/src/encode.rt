ghost use Rattle.std.specs.Prelude.{◌≡◌, ◌+◌, ◌<◌, ◌^◌, length, IfOk, Ok};
ghost use Rattle.ike_values.specs.Writing.{chain_written};
ghost use Rattle.ike_values.specs.Chains.{HasSpelling};
ghost use Rattle.ike_values.specs.Headers.{IsMessage};
ghost use Rattle.ike_encoding.specs.Messages.{message_written};
ghost use Rattle.ike_grammar.specs.Messages.{message_at};

use ha_base::{Memory, Octets};
use ike_values::Message;
use std::alloc::Global;

/// The spelling of a message with reserved bits 0 (RFC 7296, section 3). Its payloads have a
/// spelling (`Payloads::is_valid`), which with the header is below 2^32 octets long
/// (`fits_message`). An error is want of memory.
pub fn encode_message(alloc: Global, message: &Message) -> Result<Octets, Memory>
    requires valid { HasSpelling message.now.payloads }
    requires fits { 28 + length (chain_written message.now.payloads) < 2 ^ 32 }
    ensures written { IfOk result (λ out. out.octets ≡ message_written message.now) }
    ensures spells { IfOk result (λ out. IsMessage message.now out.octets) }
    // What is written is read again: this is what `decode_message` gives.
    ensures again { IfOk result (λ out. message_at out.octets ≡ Ok message.now) }
{
    ike_encoding::encode_message(alloc, message)
}
