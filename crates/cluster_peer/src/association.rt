ghost use Rattle.std.specs.Prelude.{◌≡◌, ◌+◌, ◌<◌, ◌≤◌, [], Some, IfOk, IsOk, OnErr, false, length};
ghost use Rattle.replay_set.specs.Window.{IsWindowSize};
ghost use Rattle.keeper_book.specs.CounterEnds.{end_of};
ghost use Rattle.keeper_book.specs.declared.counters.Counter.TheVariants as counter;
ghost use Rattle.turn_rules.specs.Packets.{LiesWithin};
ghost use Rattle.turn_rules.specs.Held.{first_some};
ghost use Rattle.turn_rules.specs.Messages.{Resends, TakesInner};
ghost use Rattle.turn_rules.specs.PeerMessages.{KeepsTicket, SlotAnswers, SlotAsks, SlotSendsRequest, has_spis, slot_ike};
ghost use Rattle.turn_rules.specs.Services.{Serves};
ghost use Rattle.turn_rules.specs.Slots.{SlotReceives, SlotSends, clashes, entered_slot, has_spir, higher_of, peer_counter, receives_at, slot_after};
ghost use Rattle.turn_rules.specs.Tasks as task;
ghost use Rattle.ike_window.specs.Asking.{FitsBeside};
ghost use Rattle.ike_window.specs.Requests.{IsNewRequest};
ghost use Rattle.ike_window.specs.Windows.{IsAnswered};
ghost use Rattle.cluster_peer.specs.Slots.{slot_noted};
ghost use Rattle.ha_base.specs.declared.limits.TheConstants.{DATAGRAM_OCTETS, PAYLOAD_OCTETS};
ghost use Rattle.ha_base.specs.declared.outside.Moment.{Moment};
ghost use Rattle.ha_base.specs.declared.services.TheConstants.{MOST_REQUESTS};

use crate::kept_tickets::{Ticket, given_ticket};
use crate::names::{ike_keys, name_at};
use esp_sas::{InboundSa, OutboundSa, Room};
use events::{EspVerdict, Refusal, Step, Verdict};
use ha_base::{End, Memory, Moment, Service};
use ike_sas::IkeSa;
use keeper_book::{Counter, Record};
use request_exchange::{AnswerRoom, RequestRoom};
use sk_payload::Opened;
use spend_once::Lot;
use std::alloc::Global;
use std::marker::Model;

/// An association of the peer: whether it is live, which it is until the peer forgets it, the ESP
/// numbers and the IVs that it may still send, what it sends and receives packets with, what it
/// holds of IKE messages, the greatest Message ID of the cluster's that it knows of, and the last
/// ticket that came.
#[derive(Drop)]
pub struct Association {
    pub(crate) sa: Record,
    pub(crate) lot: Lot,
    pub(crate) ivs: Lot,
    pub(crate) ike: IkeSa,
    pub(crate) highest: Option<u32>,
    live: bool,
    ticket: Option<Ticket>,
    outbound: OutboundSa,
    inbound: InboundSa,
}

impl Model for Association {
    ghost use Rattle.turn_rules.specs.Slots.{Slot};
    ghost use Rattle.cluster_peer.specs.Associations.{IsIkeOfRecord, IsOfRecord};

    ghost Value = { Slot };

    ghost view = { λ a. record {
      sa = a.sa;
      live = a.live;
      next = a.lot.next;
      window = a.inbound.window;
      iv = a.ivs.next;
      ask = a.ike.next;
      asked = a.ike.asked;
      answered = a.ike.answered;
      highest = a.highest;
      ticket = a.ticket;
    } };

    ghost invariant = { λ a. IsOfRecord a.sa a.lot a.outbound a.inbound
        × IsIkeOfRecord a.sa a.ivs a.ike };
}

/// The greater of a Message ID and the greatest so far, if there was one.
pub(crate) fn higher(highest: Option<u32>, id: u32) -> u32
    ensures { Some result ≡ higher_of id highest }
{
    match highest {
        Some(highest) => id.max(highest),
        None => id,
    }
}

impl Association {
    /// An association that came to the peer, with a receive window of this size.
    #[tactic(auto, using(crate::proofs::KeySizes::sized_to_cluster, crate::proofs::KeySizes::sized_to_peer))]
    pub fn new(sa: Record, window: u32) -> Association
        requires { IsWindowSize window }
        ensures { result ≡ entered_slot window sa }
    {
        Association {
            lot: Lot::new(
                name_at(End::Peer, &sa, Counter::EspOut),
                sa.starts.esp_in,
                sa.end(Counter::EspOut),
            ),
            ivs: Lot::new(
                name_at(End::Peer, &sa, Counter::Iv),
                sa.starts.iv,
                sa.end(Counter::Iv),
            ),
            ike: IkeSa::new(
                ike_keys(&sa),
                sa.starts.answer as u32,
                sa.starts.ask as u32,
                true,
            ),
            highest: (sa.starts.ask as u32).checked_sub(1),
            live: true,
            ticket: None,
            outbound: OutboundSa::new(
                name_at(End::Peer, &sa, Counter::EspOut),
                sa.child.to_cluster.as_slice(),
                sa.spi_in,
            ),
            inbound: InboundSa::new(
                name_at(End::Peer, &sa, Counter::EspIn),
                name_at(End::Cluster, &sa, Counter::EspOut),
                sa.child.to_peer.as_slice(),
                sa.spi_out,
                window,
                sa.starts.esp_out,
            ),
            sa,
        }
    }

    /// It is live and has this responder's SPI.
    pub fn has_spir(&self, spir: u64) -> bool
        ensures { result ≡ has_spir spir self.now }
    {
        self.live && self.sa.spir == spir
    }

    /// It is live and receives ESP packets at this SPI.
    pub fn receives_at(&self, spi: u32) -> bool
        ensures { result ≡ receives_at spi self.now }
    {
        self.live && self.sa.spi_out == spi
    }

    /// It has the responder's SPI of another association, live or not, or it receives where that
    /// one would.
    pub fn is_clash(&self, sa: &Record) -> bool
        ensures { result ≡ clashes sa.now self.now }
    {
        self.sa.spir == sa.spir || self.receives_at(sa.spi_out)
    }

    /// Closes the peer's end. Nobody is told, and nothing is sent or received there from then on.
    pub fn forget(&mut self)
        ensures { self.new ≡ record self.old { live = false } }
    {
        self.live = false;
    }

    /// Sends a payload of at most 1,400 octets. It is refused `Exhausted` exactly where the counter
    /// is at its end.
    pub fn send(&mut self, room: Room, payload: &[u8]) -> Step
        requires size { length payload.now ≤ PAYLOAD_OCTETS }
        requires room { length payload.now ≤ room }
        ensures sends { SlotSends self.old payload.now result }
        ensures within { self.old.next < end_of self.old.sa counter.EspOut
            → self.new ≡ record self.old { next = self.old.next + 1 } }
        ensures ended { end_of self.old.sa counter.EspOut ≤ self.old.next → self.new ≡ self.old }
        ensures sa { self.new.sa ≡ self.old.sa }
    {
        match self.lot.draw() {
            Some(number) => self.outbound.send(room, number, payload),
            None => Step::quiet(Verdict::Refused(Refusal::Exhausted)),
        }
    }

    /// Opens in place a packet that came, and notes its number where it is accepted.
    pub fn receive(&mut self, bytes: &mut [u8]) -> EspVerdict
        requires { length bytes.old ≤ DATAGRAM_OCTETS }
        ensures receives { SlotReceives self.old bytes.old result bytes.new }
        ensures noted { self.new ≡ slot_noted result self.old }
        ensures sa { self.new.sa ≡ self.old.sa }
        ensures within { LiesWithin result (length bytes.new) }
    {
        match self.inbound.open(bytes) {
            Ok(packet) => {
                self.inbound.note(packet.number);
                EspVerdict::Accepted {
                    counter: self.inbound.counter(),
                    packet,
                }
            }
            Err(why) => EspVerdict::Dropped(why),
        }
    }

    /// What is held of IKE messages.
    pub fn ike(&self) -> &IkeSa
        ensures { result.now ≡ slot_ike self.now }
    {
        &self.ike
    }

    /// It is live and has these SPIs, the initiator's and the responder's.
    pub fn has_spis(&self, spii: u64, spir: u64) -> bool
        ensures { result ≡ has_spis spii spir self.now }
    {
        self.sa.spii == spii && self.has_spir(spir)
    }

    /// Sends a request (RFC 7296, sections 2.2 and 2.3). It is refused `WindowFull` with the least
    /// Message ID that is outstanding where the window has no room, and `Exhausted` where no
    /// Message ID or no IV is left. No memory is taken.
    pub fn ask(&mut self, room: RequestRoom) -> Step
        ensures asks { SlotAsks self.old room result }
        ensures after { (now : Moment) → self.new
            ≡ slot_after now (task.Ask self.old.sa.spir room) result self.old }
        ensures sa { self.new.sa ≡ self.old.sa }
    {
        match self.ike.may_ask(self.ike.next()) {
            Ok(()) => self.send_request(room),
            Err(least) => Step::quiet(Verdict::Refused(Refusal::WindowFull(least))),
        }
    }

    // Sends a request for which the window has room.
    fn send_request(&mut self, room: RequestRoom) -> Step
        requires fits { FitsBeside self.old.ask self.old.asked }
        ensures sends { SlotSendsRequest self.old room result }
        ensures after { (now : Moment) → self.new
            ≡ slot_after now (task.Ask self.old.sa.spir room) result self.old }
        ensures sa { self.new.sa ≡ self.old.sa }
    {
        let id = self.ike.next();
        if u64::from(id) >= self.sa.end(Counter::Ask) {
            return Step::quiet(Verdict::Refused(Refusal::Exhausted));
        }
        match self.ivs.draw() {
            Some(iv) => request_exchange::ask(&mut self.ike, room, id, iv),
            None => Step::quiet(Verdict::Refused(Refusal::Exhausted)),
        }
    }

    /// Sends an outstanding request again, with the same octets (RFC 7296, section 2.1). An error
    /// is want of memory.
    pub fn again(&self, alloc: Global, id: u32) -> Result<Step, Memory>
        ensures { IfOk result (Resends id (slot_ike self.now)) }
    {
        request_exchange::resend(alloc, &self.ike, id)
    }

    /// Answers a new request: the service executes it once, or it is refused with an error (RFC
    /// 7296, sections 1.4 and 2.21). Where no IV is left for the response, it is refused
    /// `Exhausted`, and nothing is executed or changed. No memory is taken.
    pub fn answer(
        &mut self,
        room: AnswerRoom,
        request: &Opened,
        service: &mut Box<dyn Service>,
    ) -> Step
        requires new { IsNewRequest self.old.answered.low (IsAnswered self.old.answered)
            request.now.header.id }
        requires room { count service.old < MOST_REQUESTS }
        ensures answers { SlotAnswers self.old request.now [] result }
        ensures after { (now : Moment) → self.new ≡ slot_after now task.Receive result self.old }
        ensures sa { self.new.sa ≡ self.old.sa }
        ensures serves { Serves count last gives service.old result.served service.new }
    {
        match self.ivs.draw() {
            Some(iv) => {
                let name = name_at(End::Peer, &self.sa, Counter::Answer);
                self.highest = Some(higher(self.highest, request.header.id));
                request_exchange::answer(&mut self.ike, room, name, request, service, None, iv)
            }
            None => Step::quiet(Verdict::Refused(Refusal::Exhausted)),
        }
    }

    /// The response to an outstanding request came at this moment. The request ends by it (RFC
    /// 7296, section 2.1), and a ticket that it gives is kept in the place of the last one (RFC
    /// 5723, section 4.1). An error is want of memory, and the association is then as it was.
    pub fn take_reply(
        &mut self,
        alloc: Global,
        now: Moment,
        response: &Opened,
    ) -> Result<Step, Memory>
        requires good { IsOk response.now.inner }
        ensures takes { IfOk result (TakesInner KeepsTicket (peer_counter self.old.sa counter.Ask)
            response.now.header.id response.now.inner) }
        ensures after { IfOk result (λ step. self.new ≡ slot_after now task.Receive step self.old) }
        ensures sa { self.new.sa ≡ self.old.sa }
        ensures err { OnErr result (self.new ≡ self.old) }
    {
        let ticket = given_ticket(alloc, now, response)?;
        let name = name_at(End::Peer, &self.sa, Counter::Ask);
        let step = request_exchange::take_reply_with_ticket(alloc, &mut self.ike, name, response)?;
        self.keep_ticket(ticket);
        Ok(step)
    }

    // A ticket that came takes the place of the last one.
    fn keep_ticket(&mut self, ticket: Option<Ticket>)
        ensures { self.new ≡ record self.old { ticket = first_some ticket self.old.ticket } }
    {
        if ticket.is_some() {
            self.ticket = ticket;
        }
    }
}
