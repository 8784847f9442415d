ghost use Rattle.std.specs.Prelude.{◌≡◌, ◌+◌, ◌<◌, ◌≤◌, false, length, IfOk, None};
ghost use Rattle.ha_base.specs.declared.services.TheConstants.{LONGEST_REQUEST};
ghost use Rattle.ike_sas.specs.Answers.{request_payloads};
ghost use Rattle.ike_sas.specs.TicketMessages.{ticket_request_payloads};
ghost use Rattle.ike_window.specs.Asking.{FitsBeside};
ghost use Rattle.ike_window.specs.declared.TheConstants.{LAST_ID};
ghost use Rattle.turn_rules.specs.IkeState.{kept_under, outstanding_after};
ghost use Rattle.turn_rules.specs.Messages.{Resends, SendsRequest};

use crate::steps::{given_again, sent_step};
use events::{Refusal, Step, Verdict};
use ha_base::Memory;
use ike_sas::{Draft, IkeSa};
use spend_once::Number;
use std::alloc::Global;
use std::marker::Model;

/// Room for all that the sending of a request writes.
///
/// Contracts see the inner payloads of the request.
#[derive(Drop)]
pub struct RequestRoom {
    draft: Draft,
}

impl Model for RequestRoom {
    ghost use Rattle.std.specs.Prelude.{List};
    ghost use Rattle.ike_values.specs.Values.{PayloadValue};

    ghost Value = { List PayloadValue };

    ghost view = { λ room. room.draft.payloads };
}

impl RequestRoom {
    /// Makes the room for a request that asks for the execution of these data, of at most 256
    /// octets. An error is want of memory.
    pub fn new(alloc: Global, request: &[u8]) -> Result<RequestRoom, Memory>
        requires { length request.now ≤ LONGEST_REQUEST }
        ensures { IfOk result (λ room. room ≡ request_payloads request.now) }
    {
        Ok(RequestRoom {
            draft: Draft::of_request(alloc, request)?,
        })
    }

    /// Makes the room for a request that asks for a ticket (RFC 5723, section 4.1). An error is want
    /// of memory.
    pub fn for_ticket(alloc: Global) -> Result<RequestRoom, Memory>
        ensures { IfOk result (λ room. room ≡ ticket_request_payloads) }
    {
        Ok(RequestRoom {
            draft: Draft::of_ticket_request(alloc)?,
        })
    }
}

/// Sends a request under this Message ID, sealed with the number as its IV (RFC 7296, sections 2.2
/// and 2.3). The number is spent, and the octets are kept as outstanding. No memory is taken.
pub fn ask(sa: &mut IkeSa, room: RequestRoom, id: u32, iv: Number) -> Step
    requires named { iv.name ≡ sa.old.keys.sending.name }
    requires fits { FitsBeside id sa.old.asked }
    requires next { sa.old.next ≤ id }
    requires below_the_end { id < LAST_ID }
    ensures sends { SendsRequest sa.old id iv.value room result }
    ensures held { sa.new ≡ record sa.old {
      asked = outstanding_after false (kept_under id result.gives) None sa.old.asked;
      next = id + 1;
    } }
{
    let sent = sa.ask(room.draft, id, iv);
    sent_step(Verdict::Asked(id), None, sent)
}

/// Sends an outstanding request again, with the same octets (RFC 7296, section 2.1). Nothing
/// changes. An error is want of memory.
pub fn resend(alloc: Global, sa: &IkeSa, id: u32) -> Result<Step, Memory>
    ensures { IfOk result (Resends id sa.now) }
{
    Ok(match sa.again(alloc, id)? {
        Some(datagram) => given_again(Verdict::Resent(id), datagram),
        None => Step::quiet(Verdict::Refused(Refusal::NotOutstanding(id))),
    })
}
