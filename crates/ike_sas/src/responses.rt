ghost use Rattle.std.specs.Prelude.{◌≡◌, ◌≤◌, [], length};
ghost use Rattle.ike_sas.specs.Answers.{answer_payloads};
ghost use Rattle.ike_sas.specs.Held.{response_header, with_answered};
ghost use Rattle.ike_sas.specs.Sending.{SendsIke};
ghost use Rattle.ike_sas.specs.TicketMessages.{IsShortTicket, payloads_with_ticket};
ghost use Rattle.ike_sas.specs.declared.answers.TheConstants.{ANSWER_OCTETS, LONGEST_REPLY};
ghost use Rattle.ike_sas.specs.declared.ticket_messages.TheConstants.{TICKET_ANSWER_OCTETS};
ghost use Rattle.ike_window.specs.Requests.{IsNewRequest};
ghost use Rattle.ike_window.specs.Windows.{IsAnswered};

use crate::draft::{Draft, Sealed, SentMessage};
use crate::keys::IkeKeys;
use crate::sa::IkeSa;
use crate::ticket_messages::TicketAnswer;
use ha_base::End;
use ike_values::Header;
use sk_payload::Opened;
use spend_once::Number;

impl IkeKeys {
    /// The header of the response to a request.
    pub(crate) fn response_header(&self, request: &Header) -> Header
        ensures { result ≡ response_header self.now request.now }
    {
        Header {
            spii: self.spii,
            spir: self.spir,
            exchange: request.exchange,
            initiator: self.end == End::Peer,
            response: true,
            id: request.id,
        }
    }
}

impl IkeSa {
    /// Responds to a new request, whose header this is, with the payloads of the draft, sealed with
    /// the number as the IV. The number is spent, and the response is stored under the Message ID
    /// of the request. No memory is taken.
    pub fn respond(&mut self, draft: Draft, request: &Header, number: Number) -> SentMessage
        requires named { number.name ≡ self.old.keys.sending.name }
        requires new { IsNewRequest self.old.answered.low (IsAnswered self.old.answered)
            request.now.id }
        ensures sends { SendsIke self.old.keys.sending number.value
            (response_header self.old.keys request.now) draft.payloads result }
        ensures held { self.new
            ≡ with_answered request.now.id result.datagram.octets.octets self.old }
    {
        let header = self.keys.response_header(request);
        let Sealed { sent, kept } = draft.seal(&self.keys.sending, number, &header);
        self.answering.store(request.id, kept);
        sent
    }

    /// Answers a new request: with the error that refuses it, or else with the reply of the service
    /// that executed it. The draft is empty. The rest is as with `respond`.
    pub fn answer(
        &mut self,
        mut draft: Draft,
        request: &Opened,
        reply: &[u8],
        number: Number,
    ) -> SentMessage
        requires named { number.name ≡ self.old.keys.sending.name }
        requires new { IsNewRequest self.old.answered.low (IsAnswered self.old.answered)
            request.now.header.id }
        requires empty { draft.payloads ≡ [] }
        requires room { ANSWER_OCTETS ≤ draft.room }
        requires short { length reply.now ≤ LONGEST_REPLY }
        ensures sends { SendsIke self.old.keys.sending number.value
            (response_header self.old.keys request.now.header)
            (answer_payloads request.now reply.now) result }
        ensures held { self.new
            ≡ with_answered request.now.header.id result.datagram.octets.octets self.old }
    {
        draft.put_answer(request, reply);
        self.respond(draft, &request.header, number)
    }

    /// Answers a new request that asks for a ticket and was executed: with the reply of the service,
    /// and behind it what is said of the ticket. The rest is as with `answer`.
    pub fn answer_with_ticket(
        &mut self,
        mut draft: Draft,
        request: &Opened,
        reply: &[u8],
        ticket: &TicketAnswer,
        number: Number,
    ) -> SentMessage
        requires named { number.name ≡ self.old.keys.sending.name }
        requires new { IsNewRequest self.old.answered.low (IsAnswered self.old.answered)
            request.now.header.id }
        requires empty { draft.payloads ≡ [] }
        requires room { TICKET_ANSWER_OCTETS ≤ draft.room }
        requires short { length reply.now ≤ LONGEST_REPLY }
        requires short_ticket { IsShortTicket ticket.now }
        ensures sends { SendsIke self.old.keys.sending number.value
            (response_header self.old.keys request.now.header)
            (payloads_with_ticket request.now reply.now ticket.now) result }
        ensures held { self.new
            ≡ with_answered request.now.header.id result.datagram.octets.octets self.old }
    {
        draft.put_answer(request, reply);
        draft.put_ticket_answer(ticket);
        self.respond(draft, &request.header, number)
    }
}
