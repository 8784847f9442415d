ghost use Rattle.std.specs.Prelude.{◌≡◌, ◌<◌, ◌≤◌, [], None, Some, length, IfOk, IfSome};
ghost use Rattle.ha_base.specs.declared.services.TheConstants.{LONGEST_REQUEST, MOST_REQUESTS};
ghost use Rattle.ike_sas.specs.Answers.{answer_payloads, data_of, error_of};
ghost use Rattle.ike_sas.specs.Held.{response_header, with_answered};
ghost use Rattle.ike_sas.specs.Sending.{SendsIke};
ghost use Rattle.ike_sas.specs.TicketMessages.{IsShortTicket};
ghost use Rattle.ike_sas.specs.declared.answers.TheConstants.{ANSWER_OCTETS, LONGEST_REPLY};
ghost use Rattle.ike_sas.specs.declared.ticket_messages.TheConstants.{TICKET_ANSWER_OCTETS};
ghost use Rattle.ike_window.specs.Requests.{IsNewRequest};
ghost use Rattle.ike_window.specs.Windows.{IsAnswered};
ghost use Rattle.turn_rules.specs.IkeState.{with_taken, kept_under};
ghost use Rattle.turn_rules.specs.Messages.{AnswersRequest, ExecutesRequest, RefusesRequest, mark_of, seals_of, with_ticket};
ghost use Rattle.turn_rules.specs.Services.{Executes, Serves};

use crate::steps::sent_step;
use events::{Mark, Seals, Served, Step, Verdict};
use ha_base::{CounterName, LONGEST_REQUEST, Memory, Octets, Service};
use ike_sas::{
    ANSWER_OCTETS, Draft, IkeSa, LONGEST_REPLY, RequestError, SentMessage, TICKET_ANSWER_OCTETS,
    TicketAnswer, data_of, error_of, execute,
};
use sk_payload::Opened;
use spend_once::Number;
use std::alloc::Global;
use std::marker::Model;

/// Room for all that the answer to any request writes: the response, and copies of the request's
/// data and of the reply, which are noted.
///
/// Contracts see how many octets of inner payloads the response may have.
#[derive(Drop)]
pub struct AnswerRoom {
    draft: Draft,
    request: Octets,
    reply: Octets,
}

impl Model for AnswerRoom {
    ghost use Rattle.std.specs.Prelude.{ℕ};
    ghost use Rattle.request_exchange.specs.Rooms.{IsAnswerRoom};

    ghost Value = { ℕ };

    ghost view = { λ room. room.draft.room };

    ghost invariant = { λ room. IsAnswerRoom room.draft room.request room.reply };
}

impl AnswerRoom {
    /// Makes the room. An error is want of memory.
    pub fn new(alloc: Global) -> Result<AnswerRoom, Memory> {
        AnswerRoom::of_size(alloc, ANSWER_OCTETS)
    }

    /// Makes the room for an answer in which a ticket is due. An error is want of memory.
    pub fn with_ticket(alloc: Global) -> Result<AnswerRoom, Memory>
        ensures { IfOk result (λ room. room ≡ TICKET_ANSWER_OCTETS) }
    {
        AnswerRoom::of_size(alloc, TICKET_ANSWER_OCTETS)
    }

    // Makes the room for a response with so many octets of inner payloads.
    fn of_size(alloc: Global, octets: usize) -> Result<AnswerRoom, Memory>
        requires from { ANSWER_OCTETS ≤ octets }
        requires within { octets ≤ TICKET_ANSWER_OCTETS }
        ensures { IfOk result (λ room. room ≡ octets) }
    {
        Ok(AnswerRoom {
            draft: Draft::new(alloc, octets)?,
            request: Octets::with_room(alloc, LONGEST_REQUEST)?,
            reply: Octets::with_room(alloc, LONGEST_REPLY)?,
        })
    }
}

/// Answers a new request: it is executed once by the service and has its reply, or it is refused
/// with an error and not executed (RFC 7296, sections 1.4 and 2.21). Where a ticket is due, it stands
/// behind the reply, or that none is given (RFC 5723, section 4.2). The response is sealed with the
/// number as its IV, which is spent, and kept under the Message ID of the request. `name` is the
/// counter of the requests that this end answers. No memory is taken.
pub fn answer(
    sa: &mut IkeSa,
    room: AnswerRoom,
    name: CounterName,
    request: &Opened,
    service: &mut Box<dyn Service>,
    ticket: Option<TicketAnswer>,
    iv: Number,
) -> Step
    requires named { iv.name ≡ sa.old.keys.sending.name }
    requires new { IsNewRequest sa.old.answered.low (IsAnswered sa.old.answered)
        request.now.header.id }
    requires room { count service.old < MOST_REQUESTS }
    requires ticket_fits { IfSome ticket (λ _. TICKET_ANSWER_OCTETS ≤ room) }
    requires short { IfSome ticket IsShortTicket }
    ensures answers { AnswersRequest name sa.old iv.value request.now ticket result }
    ensures held { sa.new ≡ record sa.old {
      answered = with_taken (kept_under request.now.header.id result.gives) sa.old.answered;
    } }
    ensures serves { Serves count last gives service.old result.served service.new }
{
    let AnswerRoom {
        draft,
        request: asked,
        reply,
    } = room;
    match error_of(request) {
        Some(error) => refused(sa, draft, name, request, error, iv),
        None => {
            let served = serve(asked, reply, request, service);
            executed(sa, draft, name, request, served, ticket, iv)
        }
    }
}

/// The service executes a new request, and what it did is noted in the lists, which have room.
fn serve(
    mut asked: Octets,
    mut replied: Octets,
    request: &Opened,
    service: &mut Box<dyn Service>,
) -> Served
    requires good { error_of request.now ≡ None }
    requires room { count service.old < MOST_REQUESTS }
    requires no_request { asked.octets ≡ [] }
    requires request_fits { LONGEST_REQUEST ≤ asked.spare }
    requires no_reply { replied.octets ≡ [] }
    requires reply_fits { LONGEST_REPLY ≤ replied.spare }
    ensures executes { Executes count last gives service.old result service.new }
    ensures asked { result.request.octets ≡ data_of request.now.inner }
    ensures short { length result.reply.octets ≤ LONGEST_REPLY }
{
    let Some(reply) = execute(request, service) else {
        unreachable!()
    };
    asked.extend(data_of(request)).unwrap();
    replied.extend(reply.octets.as_slice()).unwrap();
    Served {
        request: asked,
        reply: replied,
    }
}

/// The step of a new request that a service executed.
fn executed(
    sa: &mut IkeSa,
    draft: Draft,
    name: CounterName,
    request: &Opened,
    served: Served,
    ticket: Option<TicketAnswer>,
    iv: Number,
) -> Step
    requires named { iv.name ≡ sa.old.keys.sending.name }
    requires new { IsNewRequest sa.old.answered.low (IsAnswered sa.old.answered)
        request.now.header.id }
    requires empty { draft.payloads ≡ [] }
    requires fits { ANSWER_OCTETS ≤ draft.room }
    requires ticket_fits { IfSome ticket (λ _. TICKET_ANSWER_OCTETS ≤ draft.room) }
    requires short_ticket { IfSome ticket IsShortTicket }
    requires asked { served.request.octets ≡ data_of request.now.inner }
    requires short { length served.reply.octets ≤ LONGEST_REPLY }
    ensures executes { ExecutesRequest name sa.old iv.value request.now ticket result }
    ensures served { result.served ≡ Some served }
    ensures held { sa.new ≡ record sa.old {
      answered = with_taken (kept_under request.now.header.id result.gives) sa.old.answered;
    } }
{
    let mark = mark_of(&ticket);
    let sent = seal_answer(sa, draft, request, served.reply.as_slice(), &ticket, iv);
    let verdict = Verdict::Executed {
        counter: name,
        id: request.header.id,
        mark,
    };
    let SentMessage { seal, datagram } = sent;
    let mut seals = seals_of(ticket);
    seals.push(seal);
    Step {
        verdict,
        served: Some(served),
        seals,
        gives: Some(datagram),
    }
}

/// The response to a request that was executed is sealed, with what is said of a ticket.
fn seal_answer(
    sa: &mut IkeSa,
    draft: Draft,
    request: &Opened,
    reply: &[u8],
    ticket: &Option<TicketAnswer>,
    iv: Number,
) -> SentMessage
    requires named { iv.name ≡ sa.old.keys.sending.name }
    requires new { IsNewRequest sa.old.answered.low (IsAnswered sa.old.answered)
        request.now.header.id }
    requires empty { draft.payloads ≡ [] }
    requires fits { ANSWER_OCTETS ≤ draft.room }
    requires ticket_fits { IfSome ticket.now (λ _. TICKET_ANSWER_OCTETS ≤ draft.room) }
    requires short_ticket { IfSome ticket.now IsShortTicket }
    requires short { length reply.now ≤ LONGEST_REPLY }
    ensures sends { SendsIke sa.old.keys.sending iv.value
        (response_header sa.old.keys request.now.header)
        (with_ticket (answer_payloads request.now reply.now) ticket.now) result }
    ensures held { sa.new
        ≡ with_answered request.now.header.id result.datagram.octets.octets sa.old }
{
    match ticket {
        Some(ticket) => sa.answer_with_ticket(draft, request, reply, ticket, iv),
        None => sa.answer(draft, request, reply, iv),
    }
}

/// What the report of the request tells of a ticket.
fn mark_of(ticket: &Option<TicketAnswer>) -> Mark
    ensures { result ≡ mark_of ticket.now }
{
    match ticket {
        Some(TicketAnswer::Issued { seal, .. }) => Mark::Ticket(seal.iv),
        Some(TicketAnswer::Declined) => Mark::Nack,
        None => Mark::Plain,
    }
}

/// What was sealed for a ticket.
fn seals_of(ticket: Option<TicketAnswer>) -> Seals
    ensures seals { result ≡ seals_of ticket }
    ensures few { length result ≤ 1 }
{
    let mut seals = Seals::none();
    if let Some(TicketAnswer::Issued { seal, .. }) = ticket {
        seals.push(seal);
    }
    seals
}

/// The step of a new request that is refused with this error.
fn refused(
    sa: &mut IkeSa,
    draft: Draft,
    name: CounterName,
    request: &Opened,
    error: RequestError,
    iv: Number,
) -> Step
    requires named { iv.name ≡ sa.old.keys.sending.name }
    requires new { IsNewRequest sa.old.answered.low (IsAnswered sa.old.answered)
        request.now.header.id }
    requires empty { draft.payloads ≡ [] }
    requires fits { ANSWER_OCTETS ≤ draft.room }
    ensures refuses { RefusesRequest name sa.old iv.value request.now error result }
    ensures held { sa.new ≡ record sa.old {
      answered = with_taken (kept_under request.now.header.id result.gives) sa.old.answered;
    } }
{
    let sent = sa.answer(draft, request, &[], iv);
    let verdict = Verdict::Refusing {
        counter: name,
        id: request.header.id,
        notify: error.notify_type(),
    };
    sent_step(verdict, None, sent)
}
