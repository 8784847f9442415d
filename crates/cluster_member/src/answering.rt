ghost use Rattle.std.specs.Prelude.{◌≡◌, ◌≢◌, ◌<◌, ◌≤◌, [], IfOk, IfSome, IsOk, MatchOption, OnErr};
ghost use Rattle.cluster_member.specs.Advances.{Advances};
ghost use Rattle.cluster_member.specs.Answering.{AnswersHeld, AnswersReady, AnswersWith, AreRoomsFor, ReadiesAnswer, answered_with};
ghost use Rattle.ha_base.specs.declared.limits.TheConstants.{NUMBER_END};
ghost use Rattle.ha_base.specs.declared.services.TheConstants.{MOST_REQUESTS};
ghost use Rattle.ike_sas.specs.TicketMessages.{IsShortTicket};
ghost use Rattle.ike_sas.specs.declared.ticket_messages.TheConstants.{TICKET_ANSWER_OCTETS};
ghost use Rattle.ike_window.specs.Requests.{IsNewRequest};
ghost use Rattle.ike_window.specs.Windows.{IsAnswered};
ghost use Rattle.keeper_book.specs.Asks.{AsksFor};
ghost use Rattle.keeper_book.specs.declared.counters.Counter.TheVariants as counter;
ghost use Rattle.turn_rules.specs.Draws.{counter_name};
ghost use Rattle.turn_rules.specs.MemberMessages.{KeepsNothing, held_ike};
ghost use Rattle.turn_rules.specs.Messages.{TakesInner};
ghost use Rattle.turn_rules.specs.Services.{Serves};
ghost use Rattle.turn_rules.specs.Tasks as task;

use crate::holding::{Holding, name_of};
use crate::ready::ready_both;
use crate::refusals;
use crate::rooms::AnswerRooms;
use events::{Step, Verdict};
use ha_base::{Memory, Moment, Service};
use horizons::Stop;
use ike_sas::{IkeSa, TicketAnswer};
use keeper_book::Keeper;
use request_exchange::{AnswerRoom, answer, take_reply};
use sk_payload::Opened;
use spend_once::Kind;
use std::alloc::Global;
use ticket_issuing::Issuer;

impl Holding {
    /// What is held of IKE messages, where the association has this initiator's SPI.
    pub fn ike_of(&self, spii: u64) -> Option<&IkeSa>
        ensures { MatchOption result (self.now.sa.spii ≢ spii)
            (λ ike. (self.now.sa.spii ≡ spii) × (ike.now ≡ held_ike self.now)) }
    {
        if self.ike.spii() == spii {
            Some(&self.ike)
        } else {
            None
        }
    }

    // Makes ready what the answer to a request takes: its Message ID, and the next IV.
    fn ready_to_answer<K: Keeper>(&mut self, keeper: &mut K, id: u64) -> Result<(), Stop>
        requires from { self.old.answered.low ≤ id }
        ensures calls { AsksFor K.Keeper keeper.old keeper.new
            (λ calls. ReadiesAnswer self.old id calls result self.new) }
        ensures ready { IfOk result (λ _. self.new.nexts.iv < self.new.highs.iv) }
        ensures sa { self.new.sa ≡ self.old.sa }
        ensures answered { self.new.answered ≡ self.old.answered }
    {
        ready_both(keeper, &mut self.answer, id, &mut self.iv)
    }

    // Answers a new request under the next IV, which is ready.
    fn respond(
        &mut self,
        service: &mut Box<dyn Service>,
        room: AnswerRoom,
        request: &Opened,
        ticket: Option<TicketAnswer>,
    ) -> Step
        requires new { IsNewRequest self.old.answered.low (IsAnswered self.old.answered)
            request.now.header.id }
        requires ready { self.old.nexts.iv < self.old.highs.iv }
        requires room { count service.old < MOST_REQUESTS }
        requires ticket_fits { IfSome ticket (λ _. TICKET_ANSWER_OCTETS ≤ room) }
        requires short { IfSome ticket IsShortTicket }
        ensures answers { AnswersHeld self.old request.now result ticket }
        ensures after { self.new ≡ answered_with request.now.header.id result self.old }
        ensures serves { Serves count last gives service.old result.served service.new }
    {
        let name = name_of(&self.sa, Kind::Answer, 0);
        match self.iv.draw() {
            Some(iv) => {
                return answer(&mut self.ike, room, name, request, service, ticket, iv);
            }
            None => unreachable!(),
        }
    }

    // Answers a new request whose numbers are ready, once it is known what is said of a ticket.
    // Where a keeper's call fails, the request is refused, and nothing is executed.
    fn answer_ready<K: Keeper>(
        &mut self,
        keeper: &mut K,
        service: &mut Box<dyn Service>,
        issuer: &mut Issuer,
        now: Moment,
        rooms: AnswerRooms,
        request: &Opened,
    ) -> Step
        requires new { IsNewRequest self.old.answered.low (IsAnswered self.old.answered)
            request.now.header.id }
        requires ready { self.old.nexts.iv < self.old.highs.iv }
        requires room { count service.old < MOST_REQUESTS }
        requires moment { now.0 < NUMBER_END }
        requires rooms { AreRoomsFor issuer.old.key request.now rooms }
        ensures answers { AsksFor K.Keeper keeper.old keeper.new (λ calls.
            AnswersReady issuer.old now self.old request.now calls result issuer.new self.new) }
        ensures serves { Serves count last gives service.old result.served service.new }
        ensures sa { self.new.sa ≡ self.old.sa }
    {
        let AnswerRooms { answer, ticket } = rooms;
        match issuer.tell(keeper, ticket, now, &self.sa, request) {
            Ok(told) => return self.respond(service, answer, request, told),
            Err(why) => return Step::quiet(Verdict::Refused(why)),
        }
    }

    /// Answers a new request, once its Message ID and the next IV are ready, and a number for the
    /// ticket that is due. Where one of them stops, the request is refused, and nothing is executed.
    /// No memory is taken.
    pub fn answer<K: Keeper>(
        &mut self,
        keeper: &mut K,
        service: &mut Box<dyn Service>,
        issuer: &mut Issuer,
        now: Moment,
        rooms: AnswerRooms,
        request: &Opened,
    ) -> Step
        requires new { IsNewRequest self.old.answered.low (IsAnswered self.old.answered)
            request.now.header.id }
        requires room { count service.old < MOST_REQUESTS }
        requires moment { now.0 < NUMBER_END }
        requires rooms { AreRoomsFor issuer.old.key request.now rooms }
        ensures answers { AsksFor K.Keeper keeper.old keeper.new (λ calls.
            AnswersWith issuer.old now self.old request.now calls result issuer.new self.new) }
        ensures serves { Serves count last gives service.old result.served service.new }
        ensures sa { self.new.sa ≡ self.old.sa }
    {
        match self.ready_to_answer(keeper, request.header.id as u64) {
            Ok(()) => return self.answer_ready(keeper, service, issuer, now, rooms, request),
            Err(stop) => return Step::quiet(Verdict::Refused(refusals::of_stop(stop))),
        }
    }

    /// Takes the response to an outstanding request, which ends by it. An error is want of memory,
    /// and nothing has changed then.
    pub fn take_response(&mut self, alloc: Global, response: &Opened) -> Result<Step, Memory>
        requires good { IsOk response.now.inner }
        ensures takes { IfOk result (λ step.
            TakesInner KeepsNothing (counter_name self.old.sa counter.Ask)
            response.now.header.id response.now.inner step
            × Advances self.old task.Receive [] step self.new) }
        ensures err { OnErr result (self.new ≡ self.old) }
        ensures sa { self.new.sa ≡ self.old.sa }
    {
        let name = name_of(&self.sa, Kind::Ask, 0);
        take_reply(alloc, &mut self.ike, name, response)
    }
}
