ghost use Rattle.std.specs.Prelude.{IfOk};
ghost use Rattle.cluster_member.specs.Answering.{AreRoomsFor};

use ha_base::Memory;
use ike_sas::is_ticket_due;
use request_exchange::AnswerRoom;
use sk_payload::Opened;
use std::alloc::Global;
use ticket_issuing::{Issuer, TicketRoom};

/// Room for all that the answer to a request writes.
#[derive(Drop)]
pub(crate) struct AnswerRooms {
    pub(crate) answer: AnswerRoom,
    pub(crate) ticket: Option<TicketRoom>,
}

impl AnswerRooms {
    /// Makes the room. An error is want of memory.
    pub(crate) fn new(
        alloc: Global,
        issuer: &Issuer,
        request: &Opened,
    ) -> Result<AnswerRooms, Memory>
        ensures { IfOk result (AreRoomsFor issuer.now.key request.now) }
    {
        let answer = if is_ticket_due(request) {
            AnswerRoom::with_ticket(alloc)?
        } else {
            AnswerRoom::new(alloc)?
        };
        let ticket = issuer.room(alloc, request)?;
        Ok(AnswerRooms { answer, ticket })
    }
}
