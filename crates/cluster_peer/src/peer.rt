ghost use Rattle.std.specs.Prelude.{◌≡◌, ◌≤◌, ◌<◌, [], ◌∷◌, ◌++◌, true, false, IfOk, OnErr, OnOk, length};
ghost use Rattle.cluster_peer.specs.Genuine.{PeerAcceptsGenuine};
ghost use Rattle.events.specs.declared.verdict.Refusal.TheVariants as refusal;
ghost use Rattle.replay_set.specs.Window.{IsWindowSize};
ghost use Rattle.turn_rules.specs.Packets.{LiesWithin};
ghost use Rattle.turn_rules.specs.PeerStates.{peer_begun};
ghost use Rattle.turn_rules.specs.Slots.{PeerForgets, PeerReceives, PeerSends, admits, entered_slot};
ghost use Rattle.turn_rules.specs.Tasks as task;
ghost use Rattle.cluster_peer.specs.Slots.{IsPeerAfter, IsPeerAfterAt, IsPeerAfterPacket};
ghost use Rattle.turn_rules.specs.Steps.{Says};
ghost use Rattle.ike_sas.specs.Answers.{request_payloads};
ghost use Rattle.ike_sas.specs.TicketMessages.{ticket_request_payloads};
ghost use Rattle.turn_rules.specs.Messages.{TakesMessage};
ghost use Rattle.turn_rules.specs.PeerMessages.{PeerAsks, PeerResends, peer_listener};
ghost use Rattle.turn_rules.specs.Services.{Serves};
ghost use Rattle.ha_base.specs.declared.limits.TheConstants.{DATAGRAM_OCTETS, PAYLOAD_OCTETS};
ghost use Rattle.ha_base.specs.declared.services.TheConstants.{LONGEST_REQUEST, MOST_REQUESTS};

use crate::slots::Slots;
use esp_packets::sealed_packets_open;
use esp_sas::Room;
use events::{EspVerdict, Refusal, Step, Verdict};
use ha_base::{GatewayId, Memory, Moment, Service};
use keeper_book::Record;
use request_exchange::RequestRoom;
use std::alloc::Global;
use std::marker::Model;

/// What the peer holds: its gateway, the receive window of associations that come, and its
/// associations.
#[derive(Drop)]
pub struct Peer {
    alloc: Global,
    gateway: GatewayId,
    window: u32,
    slots: Slots,
}

impl Model for Peer {
    ghost use Rattle.replay_set.specs.Window.{IsWindowSize};
    ghost use Rattle.cluster_peer.specs.Slots.{PeerWithRoom};

    ghost Value = { PeerWithRoom };

    ghost view = { λ p. record {
      held = record { gateway = p.gateway; slots = p.slots.slots };
      window = p.window;
      spare = p.slots.spare;
    } };

    ghost invariant = { λ p. IsWindowSize p.window };
}

impl Peer {
    /// A peer with no association, which talks to a gateway. The receive window of ESP has 64, 128,
    /// 256, 512 or 1,024 numbers.
    pub fn new(alloc: Global, gateway: GatewayId, window: u32) -> Peer
        requires { IsWindowSize window }
        ensures begun { result.held ≡ peer_begun gateway }
        ensures window { result.window ≡ window }
    {
        Peer {
            alloc,
            gateway,
            window,
            slots: Slots::new(alloc),
        }
    }

    /// Sets the gateway and the receive window, before any association came. It takes no memory.
    pub fn configure(&mut self, gateway: GatewayId, window: u32)
        requires window { IsWindowSize window }
        requires none { self.old.held.slots ≡ [] }
        ensures { self.new ≡ record self.old {
          held = record self.old.held { gateway = gateway };
          window = window;
        } }
    {
        self.gateway = gateway;
        self.window = window;
    }

    /// Whether the peer has no association with this responder's SPI, closed or not, and receives
    /// nowhere at this one's SPI.
    pub fn admits(&self, sa: &Record) -> bool
        ensures { result ≡ admits self.now.held.slots sa.now }
    {
        self.slots.admit(sa)
    }

    /// Makes room for one more association. An error is want of memory.
    pub fn reserve(&mut self) -> Result<(), Memory>
        ensures unchanged { self.new ≡ record self.old { spare = self.new.spare } }
        ensures room { OnOk result (0 < self.new.spare) }
    {
        self.slots.reserve()
    }

    /// Takes an association that was set up before the run, is admitted, and has room. It takes no
    /// memory.
    pub fn add(&mut self, sa: &Record)
        requires admitted { admits self.old.held.slots sa.now ≡ true }
        requires room { 0 < self.old.spare }
        ensures { self.new ≡ record self.old {
          held = record self.old.held {
            slots = self.old.held.slots ++ entered_slot self.old.window sa.now ∷ [];
          };
          spare = self.new.spare;
        } }
    {
        self.slots.push(sa.copied(), self.window);
    }

    /// Takes an association that was set up before the run. It is refused `SpiInUse` exactly where
    /// it is not admitted. An error is want of memory, and the peer is then as it was.
    pub fn enter(&mut self, sa: &Record) -> Result<Step, Memory>
        ensures entered { admits self.old.held.slots sa.now ≡ true
            → IfOk result (Says Verdict.Entered) }
        ensures slot { admits self.old.held.slots sa.now ≡ true
            → OnOk result (self.new ≡ record self.old {
              held = record self.old.held {
                slots = self.old.held.slots ++ entered_slot self.old.window sa.now ∷ [];
              };
              spare = self.new.spare;
            }) }
        ensures refused { admits self.old.held.slots sa.now ≡ false
            → IfOk result (Says (Verdict.Refused refusal.SpiInUse)) }
        ensures unchanged { admits self.old.held.slots sa.now ≡ false → self.new ≡ self.old }
        ensures err { OnErr result (self.new ≡ record self.old { spare = self.new.spare }) }
    {
        if !self.admits(sa) {
            return Ok(Step::quiet(Verdict::Refused(Refusal::SpiInUse)));
        }
        self.reserve()?;
        self.add(sa);
        Ok(Step::quiet(Verdict::Entered))
    }

    /// Sends a payload of at most 1,400 octets in an ESP packet of an association. It is refused
    /// `Unknown` where there is no such live association, and `Exhausted` where its numbers are at
    /// their end. An error is want of memory, and the peer is then as it was.
    pub fn send_data(&mut self, spir: u64, payload: &[u8]) -> Result<Step, Memory>
        requires { length payload.now ≤ PAYLOAD_OCTETS }
        ensures sends { IfOk result (λ step. PeerSends spir self.old.held.slots payload.now step) }
        ensures after { IfOk result (λ step. IsPeerAfter
            (task.Send spir payload.now) step self.old self.new) }
        ensures err { OnErr result (self.new ≡ self.old) }
    {
        let room = Room::new(self.alloc, payload.len())?;
        Ok(self.slots.send(spir, room, payload))
    }

    /// Opens in place an ESP packet that came, of at most 2,048 octets, and notes its number where
    /// it is accepted (RFC 4303, section 3.4). It takes no memory.
    pub fn receive_esp(&mut self, bytes: &mut [u8]) -> EspVerdict
        requires { length bytes.old ≤ DATAGRAM_OCTETS }
        ensures receives { PeerReceives self.old.held.slots bytes.old result bytes.new }
        ensures after { IsPeerAfterPacket result bytes.new self.old self.new }
        ensures genuine { PeerAcceptsGenuine self.old.held.slots bytes.old result bytes.new }
        ensures within { LiesWithin result (length bytes.new) }
    {
        sealed_packets_open();
        self.slots.receive(bytes)
    }

    /// Asks in an association for the execution of a request of at most 256 octets (RFC 7296,
    /// sections 2.2 and 2.3). It is refused `Unknown` where there is no such live association,
    /// `WindowFull` where the window of requests has no room, and `Exhausted` where no Message ID
    /// or no IV is left. An error is want of memory, and the peer is then as it was.
    pub fn ask(&mut self, spir: u64, request: &[u8]) -> Result<Step, Memory>
        requires { length request.now ≤ LONGEST_REQUEST }
        ensures asks { IfOk result (λ step. PeerAsks spir self.old.held.slots
            (request_payloads request.now) step) }
        ensures after { IfOk result (λ step. IsPeerAfter
            (task.Ask spir (request_payloads request.now)) step self.old self.new) }
        ensures err { OnErr result (self.new ≡ self.old) }
    {
        let room = RequestRoom::new(self.alloc, request)?;
        Ok(self.slots.ask(spir, room))
    }

    /// Asks in an association for a ticket (RFC 5723, section 4.1). It is refused as `ask` is. An
    /// error is want of memory, and the peer is then as it was.
    pub fn ask_ticket(&mut self, spir: u64) -> Result<Step, Memory>
        ensures asks { IfOk result (λ step. PeerAsks spir self.old.held.slots
            ticket_request_payloads step) }
        ensures after { IfOk result (λ step. IsPeerAfter
            (task.Ask spir ticket_request_payloads) step self.old self.new) }
        ensures err { OnErr result (self.new ≡ self.old) }
    {
        let room = RequestRoom::for_ticket(self.alloc)?;
        Ok(self.slots.ask(spir, room))
    }

    /// Closes the peer's end of an association, and tells nobody: from then on the peer neither
    /// sends nor receives in it, and it keeps the ticket that came. It is refused `Unknown` where
    /// there is no such live association. It takes no memory.
    pub fn forget(&mut self, spir: u64) -> Step
        ensures forgets { PeerForgets spir self.old.held.slots result }
        ensures after { IsPeerAfter (task.Forget spir) result self.old self.new }
    {
        self.slots.forget(spir)
    }

    /// Sends an outstanding request of an association again, with the same octets (RFC 7296,
    /// section 2.1). It is refused `Unknown` where there is no such live association, and
    /// `NotOutstanding` where the request is not outstanding. An error is want of memory.
    pub fn again(&self, spir: u64, id: u32) -> Result<Step, Memory>
        ensures resends { IfOk result (λ step. PeerResends spir self.now.held.slots id step) }
        ensures after { IfOk result (λ step. IsPeerAfter
            (task.Again spir id) step self.now self.now) }
    {
        self.slots.again(self.alloc, spir, id)
    }

    /// Takes an IKE message that came at this moment (RFC 7296, sections 1.4, 2.1 to 2.3 and 2.21).
    /// A new request is executed once by the service, or is refused with an error; it is refused
    /// `Exhausted`, and neither executed nor answered, where no IV is left for the response. One
    /// that was answered before has the same response once more; a response ends its request, and a
    /// ticket that it gives is kept with the moment in the place of the last one (RFC 5723, section
    /// 4.1); every other message is dropped. An error is want of memory; then nothing was executed,
    /// and the peer is as it was.
    pub fn receive_ike(
        &mut self,
        now: Moment,
        service: &mut Box<dyn Service>,
        bytes: &[u8],
    ) -> Result<Step, Memory>
        requires { count service.old < MOST_REQUESTS }
        ensures takes { IfOk result
            (TakesMessage (peer_listener self.old.held.slots) bytes.now []) }
        ensures after { IfOk result (λ step.
            IsPeerAfterAt now task.Receive step self.old self.new) }
        ensures serves { IfOk result (λ step.
            Serves count last gives service.old step.served service.new) }
        ensures err { OnErr result (self.new ≡ self.old) }
        ensures unserved { OnErr result (service.new ≡ service.old) }
    {
        self.slots.receive_ike(self.alloc, now, service, bytes)
    }
}
