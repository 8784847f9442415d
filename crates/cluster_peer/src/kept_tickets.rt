//! Tickets that the peer keeps (RFC 5723, section 4.1).

ghost use Rattle.std.specs.Prelude.{◌≡◌, IfOk};
ghost use Rattle.cluster_peer.specs.KeptTickets.{ticket_inside};

use ha_base::{Memory, Moment, Octets};
use ike_sas::{GivenTicket, TicketReply, ticket_reply};
use sk_payload::Opened;
use std::alloc::Global;
use std::marker::Model;

/// A ticket that the peer keeps: its octets, for how many seconds it is taken, and when it came.
#[derive(Drop)]
pub struct Ticket {
    octets: Octets,
    lifetime: u32,
    received: Moment,
}

impl Model for Ticket {
    ghost use Rattle.turn_rules.specs.PeerTickets.{KeptTicket};

    ghost Value = { KeptTicket };

    ghost view = { λ t. record {
      octets = t.octets.octets;
      lifetime = t.lifetime;
      received = t.received;
    } };
}

/// The ticket that a response gives, if it gives one, as it is kept where it comes at this moment.
/// An error is want of memory.
pub(crate) fn given_ticket(
    alloc: Global,
    now: Moment,
    response: &Opened,
) -> Result<Option<Ticket>, Memory>
    ensures { IfOk result (λ ticket. ticket ≡ ticket_inside now response.now.inner) }
{
    let Ok(payloads) = &response.inner else {
        return Ok(None);
    };
    Ok(match ticket_reply(alloc, payloads)? {
        TicketReply::Given(GivenTicket { lifetime, octets }) => Some(Ticket {
            octets,
            lifetime,
            received: now,
        }),
        TicketReply::Declined | TicketReply::Nothing => None,
    })
}
