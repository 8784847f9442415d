ghost use Rattle.std.specs.Prelude.{◌≡◌, IfOk, OnErr, IsOk};
ghost use Rattle.ike_sas.specs.Held.{without_asked};
ghost use Rattle.turn_rules.specs.MemberMessages.{KeepsNothing};
ghost use Rattle.turn_rules.specs.Messages.{TakesInner, TakesReply, reply_in};
ghost use Rattle.turn_rules.specs.PeerMessages.{KeepsTicket};

use events::{Kept, Step, Verdict};
use ha_base::{CounterName, Memory, Octets};
use ike_sas::{GivenTicket, IkeSa, TicketReply, first_error, ticket_reply};
use ike_values::Payloads;
use ike_values::notify_types::REPLY_DATA;
use sk_payload::Opened;
use std::alloc::Global;

/// A copy of the data of the reply, and of none where there is no reply.
fn reply_in(alloc: Global, payloads: &Payloads) -> Result<Octets, Memory>
    ensures { IfOk result (λ reply. reply.octets ≡ reply_in payloads.now) }
{
    let octets = payloads.first_notify(REPLY_DATA).unwrap_or(&[]);
    let mut reply = Octets::with_room(alloc, octets.len())?;
    reply.extend(octets).unwrap();
    Ok(reply)
}

/// The step in which the response with these payloads ended its request, and this was kept of it.
fn replied(
    alloc: Global,
    sa: &mut IkeSa,
    name: CounterName,
    id: u32,
    payloads: &Payloads,
    kept: Kept,
) -> Result<Step, Memory>
    ensures takes { IfOk result (TakesReply kept name id payloads.now) }
    ensures held { IfOk result (λ _. sa.new ≡ without_asked id sa.old) }
    ensures err { OnErr result (sa.new ≡ sa.old) }
{
    let reply = reply_in(alloc, payloads)?;
    sa.end_request(id);
    Ok(Step::quiet(Verdict::Reply {
        counter: name,
        id,
        reply,
        kept,
        error: first_error(payloads.as_slice()),
    }))
}

/// The response to an outstanding request came, which ends by it (RFC 7296, section 2.1). `name` is
/// the counter of the requests that this end asks. An error is want of memory, and nothing has
/// changed then.
pub fn take_reply(
    alloc: Global,
    sa: &mut IkeSa,
    name: CounterName,
    response: &Opened,
) -> Result<Step, Memory>
    requires good { IsOk response.now.inner }
    ensures takes { IfOk result
        (TakesInner KeepsNothing name response.now.header.id response.now.inner) }
    ensures held { IfOk result (λ _. sa.new ≡ without_asked response.now.header.id sa.old) }
    ensures err { OnErr result (sa.new ≡ sa.old) }
{
    let Ok(payloads) = &response.inner else {
        unreachable!()
    };
    replied(alloc, sa, name, response.header.id, payloads, Kept::Plain)
}

/// The same at the peer, which keeps the ticket that the response gives, or sees that none is given
/// (RFC 5723, section 4.2).
pub fn take_reply_with_ticket(
    alloc: Global,
    sa: &mut IkeSa,
    name: CounterName,
    response: &Opened,
) -> Result<Step, Memory>
    requires good { IsOk response.now.inner }
    ensures takes { IfOk result
        (TakesInner KeepsTicket name response.now.header.id response.now.inner) }
    ensures held { IfOk result (λ _. sa.new ≡ without_asked response.now.header.id sa.old) }
    ensures err { OnErr result (sa.new ≡ sa.old) }
{
    let Ok(payloads) = &response.inner else {
        unreachable!()
    };
    let kept = kept_of(alloc, payloads)?;
    replied(alloc, sa, name, response.header.id, payloads, kept)
}

/// What the peer keeps of a response with these payloads. An error is want of memory.
fn kept_of(alloc: Global, payloads: &Payloads) -> Result<Kept, Memory>
    ensures { IfOk result (KeepsTicket payloads.now) }
{
    Ok(match ticket_reply(alloc, payloads)? {
        TicketReply::Given(GivenTicket { lifetime, octets }) => Kept::Ticket {
            lifetime,
            ticket: octets,
        },
        TicketReply::Declined => Kept::Nack,
        TicketReply::Nothing => Kept::Plain,
    })
}
