//! What the peer's associations do with IKE messages (RFC 7296, sections 1.4, 2.1 to 2.3 and 2.21).

ghost use Rattle.std.specs.Prelude.{◌≡◌, ◌<◌, None, [], map, IfOk, MatchOption, OnErr};
ghost use Rattle.std.specs.Option.{option_map};
ghost use Rattle.ha_base.specs.declared.outside.Moment.{Moment};
ghost use Rattle.ha_base.specs.declared.services.TheConstants.{MOST_REQUESTS};
ghost use Rattle.turn_rules.specs.Messages.{TakesArrival, TakesMessage};
ghost use Rattle.turn_rules.specs.PeerMessages.{PeerAsks, PeerResends, has_spis, peer_listener, slot_ike};
ghost use Rattle.turn_rules.specs.Services.{Serves};
ghost use Rattle.turn_rules.specs.Slots.{first_slot, slot_after};
ghost use Rattle.turn_rules.specs.Tasks as task;
ghost use Rattle.cluster_peer.specs.Messages.{IsAwaitedThere, IsNewOfSlot, IsSyncThere, IsThere};
ghost use Rattle.cluster_peer.specs.Slots.{IsFirstSlot};
ghost use Rattle.ike_sas.specs.declared.arrival.Arrival.TheVariants as arrival;

use crate::association::Association;
use crate::slots::{Slots, place_of};
use events::{IkeDrop, Refusal, Step, Verdict};
use ha_base::{End, Memory, Moment, Service};
use ike_sas::{
    Arrival, Associations, Draft, IKE_SESSION_RESUME, IkeSa, SYNC_RESPONSE_OCTETS, receive,
};
use request_exchange::{AnswerRoom, RequestRoom, drop_message, repeat};
use sk_payload::Opened;
use std::alloc::Global;

/// Where the live association of an initiator's and a responder's SPI stands.
fn place_of_spis(items: &[Association], spii: u64, spir: u64) -> Option<usize>
    ensures { MatchOption result (first_slot (has_spis spii spir) items.now ≡ None)
        (λ place. IsFirstSlot (has_spis spii spir) place items.now) }
{
    for (place, association) in items.iter().enumerate() {
        if association.has_spis(spii, spir) {
            return Some(place);
        }
    }
    None
}

impl Associations for Slots {
    ghost held_under = { λ s spii spir.
        option_map slot_ike (first_slot (has_spis spii spir) s.slots) };

    fn find(&self, spii: u64, spir: u64) -> Option<&IkeSa> {
        match place_of_spis(&self.items, spii, spir) {
            Some(place) => Some(self.items[place].ike()),
            None => None,
        }
    }
}

impl Slots {
    /// Sends a request in an association.
    pub fn ask(&mut self, spir: u64, room: RequestRoom) -> Step
        ensures asks { PeerAsks spir self.old.slots room result }
        ensures after { (now : Moment) → self.new.slots
            ≡ map (slot_after now (task.Ask spir room) result) self.old.slots }
    {
        match place_of(&self.items, spir) {
            Some(place) => {
                let association = &mut self.items[place];
                association.ask(room)
            }
            None => Step::quiet(Verdict::Refused(Refusal::Unknown)),
        }
    }

    /// Sends a request of an association again. An error is want of memory.
    pub fn again(&self, alloc: Global, spir: u64, id: u32) -> Result<Step, Memory>
        ensures { IfOk result (PeerResends spir self.now.slots id) }
    {
        match place_of(&self.items, spir) {
            Some(place) => self.items[place].again(alloc, id),
            None => Ok(Step::quiet(Verdict::Refused(Refusal::Unknown))),
        }
    }

    /// Takes an IKE message that came at this moment. An error is want of memory; then nothing was
    /// executed or changed.
    pub fn receive_ike(
        &mut self,
        alloc: Global,
        now: Moment,
        service: &mut Box<dyn Service>,
        bytes: &[u8],
    ) -> Result<Step, Memory>
        requires { count service.old < MOST_REQUESTS }
        ensures takes { IfOk result (TakesMessage (peer_listener self.old.slots) bytes.now []) }
        ensures after { IfOk result (λ step.
            self.new.slots ≡ map (slot_after now task.Receive step) self.old.slots) }
        ensures serves { IfOk result (λ step.
            Serves count last gives service.old step.served service.new) }
        ensures err { OnErr result (self.new ≡ self.old) }
        ensures unserved { OnErr result (service.new ≡ service.old) }
    {
        let arrival = receive(alloc, End::Peer, self, bytes)?;
        self.take_arrival(alloc, now, service, arrival)
    }

    // Takes what octets are that came at this moment.
    fn take_arrival(
        &mut self,
        alloc: Global,
        now: Moment,
        service: &mut Box<dyn Service>,
        arrival: Arrival,
    ) -> Result<Step, Memory>
        requires there { IsThere self.old.slots arrival }
        requires room { count service.old < MOST_REQUESTS }
        ensures takes { IfOk result (TakesArrival (peer_listener self.old.slots) arrival []) }
        ensures after { IfOk result (λ step.
            self.new.slots ≡ map (slot_after now task.Receive step) self.old.slots) }
        ensures serves { IfOk result (λ step.
            Serves count last gives service.old step.served service.new) }
        ensures err { OnErr result (self.new ≡ self.old) }
        ensures unserved { OnErr result (service.new ≡ service.old) }
    {
        match arrival {
            Arrival::Dropped(why) => Ok(drop_message(why)),
            Arrival::Resumption(_) => { Ok(drop_message(IkeDrop::Exchange(IKE_SESSION_RESUME))) }
            Arrival::SyncResponse(_) => unreachable!(),
            Arrival::Synchronisation(request) => self.synchronise(alloc, &request),
            Arrival::Response(response) => self.take_response(alloc, now, &response),
            Arrival::Repeat { id, datagram } => Ok(repeat(id, datagram)),
            Arrival::New(request) => self.take_request(alloc, service, &request),
        }
    }

    // Answers a request to synchronise in its association. An error is want of memory; then nothing
    // has changed.
    fn synchronise(&mut self, alloc: Global, request: &Opened) -> Result<Step, Memory>
        requires { IsSyncThere self.old.slots request.now }
        ensures takes { IfOk result (TakesArrival (peer_listener self.old.slots)
            (arrival.Synchronisation request.now) []) }
        ensures after { IfOk result (λ step. (now : Moment) →
            self.new.slots ≡ map (slot_after now task.Receive step) self.old.slots) }
        ensures unserved { IfOk result (λ step. step.served ≡ None) }
        ensures err { OnErr result (self.new ≡ self.old) }
    {
        let draft = Draft::new(alloc, SYNC_RESPONSE_OCTETS)?;
        let header = &request.header;
        match place_of_spis(&self.items, header.spii, header.spir) {
            Some(place) => {
                let association = &mut self.items[place];
                Ok(association.synchronise(draft, request))
            }
            None => unreachable!(),
        }
    }

    // Answers a new request in its association. An error is want of memory; then nothing was
    // executed or changed.
    fn take_request(
        &mut self,
        alloc: Global,
        service: &mut Box<dyn Service>,
        request: &Opened,
    ) -> Result<Step, Memory>
        requires new { IsNewOfSlot self.old.slots request.now }
        requires room { count service.old < MOST_REQUESTS }
        ensures takes { IfOk result (TakesArrival (peer_listener self.old.slots)
            (arrival.New request.now) []) }
        ensures after { IfOk result (λ step. (now : Moment) →
            self.new.slots ≡ map (slot_after now task.Receive step) self.old.slots) }
        ensures serves { IfOk result (λ step.
            Serves count last gives service.old step.served service.new) }
        ensures err { OnErr result (self.new ≡ self.old) }
        ensures unserved { OnErr result (service.new ≡ service.old) }
    {
        let room = AnswerRoom::new(alloc)?;
        let header = &request.header;
        match place_of_spis(&self.items, header.spii, header.spir) {
            Some(place) => {
                let association = &mut self.items[place];
                Ok(association.answer(room, request, service))
            }
            None => unreachable!(),
        }
    }

    // Ends the request of an association whose response came at this moment, and keeps the ticket
    // that it gives. An error is want of memory; then nothing has changed.
    fn take_response(
        &mut self,
        alloc: Global,
        now: Moment,
        response: &Opened,
    ) -> Result<Step, Memory>
        requires { IsAwaitedThere self.old.slots response.now }
        ensures takes { IfOk result (TakesArrival (peer_listener self.old.slots)
            (arrival.Response response.now) []) }
        ensures after { IfOk result (λ step.
            self.new.slots ≡ map (slot_after now task.Receive step) self.old.slots) }
        ensures unserved { IfOk result (λ step. step.served ≡ None) }
        ensures err { OnErr result (self.new ≡ self.old) }
    {
        let header = &response.header;
        match place_of_spis(&self.items, header.spii, header.spir) {
            Some(place) => {
                let association = &mut self.items[place];
                association.take_reply(alloc, now, response)
            }
            None => unreachable!(),
        }
    }
}
