ghost use Rattle.std.specs.Prelude.{◌≡◌, ◌<◌, [], IfOk, OnErr};
ghost use Rattle.cluster_member.specs.Answering.{AnswersWhereHeld, AreRoomsFor};
ghost use Rattle.cluster_member.specs.Arriving.{TakesWhereHeld, ike_under};
ghost use Rattle.cluster_member.specs.Members.{HoldsOn, IsAfter, member_held};
ghost use Rattle.ha_base.specs.declared.limits.TheConstants.{NUMBER_END};
ghost use Rattle.ha_base.specs.declared.services.TheConstants.{MOST_REQUESTS};
ghost use Rattle.ike_sas.specs.Arrivals.{IsNewThere, NewIsNew};
ghost use Rattle.keeper_book.specs.Asks.{AsksFor};
ghost use Rattle.request_exchange.specs.Given.{IsAwaited, IsFitting};
ghost use Rattle.turn_rules.specs.Held.{held_at};
ghost use Rattle.keeper_book.specs.declared.counters.Counter.TheVariants as counter;
ghost use Rattle.turn_rules.specs.Draws.{counter_name};
ghost use Rattle.turn_rules.specs.MemberMessages.{HeldAnswers, KeepsNothing, member_listener};
ghost use Rattle.turn_rules.specs.Messages.{TakesArrival, TakesInner, TakesMessage};
ghost use Rattle.turn_rules.specs.Services.{Serves};
ghost use Rattle.turn_rules.specs.Steps.{IsQuiet};
ghost use Rattle.turn_rules.specs.Tasks as task;

use crate::holdings::{Holdings, place_of};
use crate::member::Member;
use crate::rooms::AnswerRooms;
use events::{IkeDrop, Step};
use ha_base::{End, Memory, Moment, Service};
use ike_sas::{Arrival, Associations, IKE_SESSION_RESUME, IkeSa, receive};
use keeper_book::Keeper;
use request_exchange::{drop_message, repeat};
use sk_payload::Opened;
use std::alloc::Global;
use ticket_issuing::Issuer;

impl Associations for Holdings {
    ghost use Rattle.cluster_member.specs.Arriving.{ike_under};
    ghost use Rattle.turn_rules.specs.Held.{held_at};

    ghost held_under = { λ holdings. ike_under (held_at holdings.held) };

    fn find(&self, spii: u64, spir: u64) -> Option<&IkeSa> {
        match place_of(&self.items, spir) {
            Some(place) => self.items[place].ike_of(spii),
            None => None,
        }
    }
}

impl Holdings {
    /// Answers a request that is new where it belongs. No memory is taken.
    fn answer<K: Keeper>(
        &mut self,
        keeper: &mut K,
        service: &mut Box<dyn Service>,
        issuer: &mut Issuer,
        now: Moment,
        rooms: AnswerRooms,
        request: &Opened,
    ) -> Step
        requires new { IsNewThere (ike_under (held_at self.old.held)) request.now }
        requires room { count service.old < MOST_REQUESTS }
        requires moment { now.0 < NUMBER_END }
        requires rooms { AreRoomsFor issuer.old.key request.now rooms }
        ensures answers { AsksFor K.Keeper keeper.old keeper.new (λ calls.
            AnswersWhereHeld issuer.old now self.old.held request.now calls result issuer.new
            self.new.held) }
        ensures serves { Serves count last gives service.old result.served service.new }
    {
        match place_of(&self.items, request.header.spir) {
            Some(place) => {
                let holding = &mut self.items[place];
                holding.answer(keeper, service, issuer, now, rooms, request)
            }
            None => unreachable!(),
        }
    }

    /// Takes a response to a request that is outstanding where it belongs. An error is want of
    /// memory, and nothing has changed then.
    fn take_response(&mut self, alloc: Global, response: &Opened) -> Result<Step, Memory>
        requires awaited { IsAwaited (ike_under (held_at self.old.held)) response.now }
        ensures takes { IfOk result (λ step.
            TakesWhereHeld (held_at self.old.held) response.now (λ held. TakesInner KeepsNothing
            (counter_name held.sa counter.Ask) response.now.header.id response.now.inner step)
            × HoldsOn task.Receive [] step self.old.held self.new.held) }
        ensures quiet { IfOk result IsQuiet }
        ensures err { OnErr result (self.new.held ≡ self.old.held) }
    {
        match place_of(&self.items, response.header.spir) {
            Some(place) => {
                let holding = &mut self.items[place];
                holding.take_response(alloc, response)
            }
            None => unreachable!(),
        }
    }
}

impl Member {
    /// Takes an IKE message that came at a moment (RFC 7296, sections 1.4, 2.1 to 2.3 and 2.21). A
    /// new request is executed once by the service, or is refused with an error, once its Message ID
    /// and the IV of the response are ready; where it asks for a ticket, the response gives one, or
    /// says that there is none (RFC 5723, section 4.2). One that was answered before has the same
    /// response once more; a response ends its request; the response to the last request to
    /// synchronise is taken on (RFC 6311, section 5.1); every other message is dropped. An error is
    /// want of memory; then no keeper was asked, nothing was executed, and the member is as it was.
    pub fn receive_ike<K: Keeper>(
        &mut self,
        keeper: &mut K,
        service: &mut Box<dyn Service>,
        now: Moment,
        bytes: &[u8],
    ) -> Result<Step, Memory>
        requires room { count service.old < MOST_REQUESTS }
        requires moment { now.0 < NUMBER_END }
        ensures takes { IfOk result (λ step. AsksFor K.Keeper keeper.old keeper.new (λ calls.
            TakesMessage (member_listener (member_held self.old) now) bytes.now calls step
            × IsAfter task.Receive calls step self.old self.new)) }
        ensures serves { IfOk result (λ step.
            Serves count last gives service.old step.served service.new) }
        ensures err { OnErr result ((self.new ≡ self.old) × (keeper.new ≡ keeper.old)
            × (service.new ≡ service.old)) }
    {
        let arrival = receive(self.alloc, End::Cluster, &self.holdings, bytes)?;
        self.take(keeper, service, now, arrival)
    }

    // Does what there is to do with octets that came, by what they are.
    fn take<K: Keeper>(
        &mut self,
        keeper: &mut K,
        service: &mut Box<dyn Service>,
        now: Moment,
        arrival: Arrival,
    ) -> Result<Step, Memory>
        requires new { NewIsNew (ike_under (held_at self.old.held)) arrival }
        requires fitting { IsFitting (ike_under (held_at self.old.held)) arrival }
        requires room { count service.old < MOST_REQUESTS }
        requires moment { now.0 < NUMBER_END }
        ensures takes { IfOk result (λ step. AsksFor K.Keeper keeper.old keeper.new (λ calls.
            TakesArrival (member_listener (member_held self.old) now) arrival calls step
            × IsAfter task.Receive calls step self.old self.new)) }
        ensures serves { IfOk result (λ step.
            Serves count last gives service.old step.served service.new) }
        ensures err { OnErr result ((self.new ≡ self.old) × (keeper.new ≡ keeper.old)
            × (service.new ≡ service.old)) }
    {
        match arrival {
            Arrival::Dropped(why) => Ok(drop_message(why)),
            Arrival::Resumption(_) => { Ok(drop_message(IkeDrop::Exchange(IKE_SESSION_RESUME))) }
            Arrival::SyncResponse(response) => Ok(self.holdings.take_sync(&self.fresh, &response)),
            Arrival::Synchronisation(_) => unreachable!(),
            Arrival::Response(response) => self.holdings.take_response(self.alloc, &response),
            Arrival::Repeat { id, datagram } => Ok(repeat(id, datagram)),
            Arrival::New(request) => self.answer(keeper, service, now, &request),
        }
    }

    // Answers a request that is new where it belongs.
    fn answer<K: Keeper>(
        &mut self,
        keeper: &mut K,
        service: &mut Box<dyn Service>,
        now: Moment,
        request: &Opened,
    ) -> Result<Step, Memory>
        requires new { IsNewThere (ike_under (held_at self.old.held)) request.now }
        requires room { count service.old < MOST_REQUESTS }
        requires moment { now.0 < NUMBER_END }
        ensures takes { IfOk result (λ step. AsksFor K.Keeper keeper.old keeper.new (λ calls.
            TakesWhereHeld (held_at self.old.held) request.now
            (λ held. HeldAnswers (member_held self.old) now held request.now calls step)
            × IsAfter task.Receive calls step self.old self.new)) }
        ensures serves { IfOk result (λ step.
            Serves count last gives service.old step.served service.new) }
        ensures err { OnErr result ((self.new ≡ self.old) × (keeper.new ≡ keeper.old)
            × (service.new ≡ service.old)) }
    {
        let rooms = AnswerRooms::new(self.alloc, &self.issuer, request)?;
        Ok(
            self.holdings
                .answer(keeper, service, &mut self.issuer, now, rooms, request),
        )
    }
}
