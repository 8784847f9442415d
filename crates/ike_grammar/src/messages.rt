//! Headers and whole messages.

ghost use Rattle.std.specs.Prelude.{◌≡◌, ◌≤◌, length, IsOk};
ghost use Rattle.ike_values.specs.Headers.{has_flag};
ghost use Rattle.ike_grammar.specs.Faults.{Gives};
ghost use Rattle.ike_grammar.specs.Messages.{header_at, message_at};

use crate::chain::chain_of;
use crate::fault::Unread;
use ha_base::{read_u32, read_u64};
use ike_values::{Bad, HEADER_OCTETS, Header, INITIATOR, Message, RESPONSE, Reason};
use std::alloc::Global;

#[tactic(auto, unfolding(crate::specs::Messages::header_at))]
pub(crate) fn header_of(bytes: &[u8]) -> Result<Header, Bad>
    ensures read { result ≡ header_at bytes.now }
    ensures long { IsOk result → HEADER_OCTETS ≤ length bytes.now }
{
    if bytes.len() < HEADER_OCTETS {
        return Err(Bad {
            place: 0,
            reason: Reason::Short,
        });
    }
    if bytes[17] / 16 != 2 {
        return Err(Bad {
            place: 17,
            reason: Reason::Version,
        });
    }
    if read_u32(&bytes[24..28]) as usize != bytes.len() {
        return Err(Bad {
            place: 24,
            reason: Reason::Length,
        });
    }
    Ok(Header {
        spii: read_u64(&bytes[..8]),
        spir: read_u64(&bytes[8..16]),
        exchange: bytes[18],
        initiator: has_flag(bytes[19], INITIATOR),
        response: has_flag(bytes[19], RESPONSE),
        id: read_u32(&bytes[20..24]),
    })
}

fn has_flag(flags: u8, flag: u8) -> bool
    ensures { result ≡ has_flag flags flag }
{
    flags & flag != 0
}

#[tactic(auto, unfolding(crate::specs::Messages::message_at))]
pub(crate) fn message_of(alloc: Global, bytes: &[u8]) -> Result<Message, Unread>
    ensures { Gives (λ x. x) result (message_at bytes.now) }
{
    let header = match header_of(bytes) {
        Ok(header) => header,
        Err(bad) => return Err(Unread::Bad(bad)),
    };
    let (_, chain) = bytes.split_at(HEADER_OCTETS);
    let payloads = chain_of(alloc, bytes.len(), false, bytes[16], chain)?;
    Ok(Message { header, payloads })
}
