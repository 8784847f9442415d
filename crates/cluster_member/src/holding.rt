ghost use Rattle.std.specs.Prelude.{◌≡◌, ◌<◌, ◌≤◌, ℕ, List, [], Ok, length};
ghost use Rattle.keeper_book.specs.CounterEnds.{end_of};
ghost use Rattle.keeper_book.specs.Counters.{AreWithinEnds};
ghost use Rattle.keeper_book.specs.declared.counters.Counter.TheVariants as counter;
ghost use Rattle.replay_set.specs.Window.{IsWindowSize, judged};
ghost use Rattle.replay_set.specs.declared.judgement.Judgement.TheVariants as judgement;
ghost use Rattle.cluster_member.specs.Holdings.{TookPacket};
ghost use Rattle.cluster_member.specs.Advances.{Advances, AdvancesByPacket};
ghost use Rattle.turn_rules.specs.Draws.{Draws};
ghost use Rattle.turn_rules.specs.Fits.{Quietly};
ghost use Rattle.turn_rules.specs.MemberPackets.{ReceivesPacket, SendsData, TakesPacket};
ghost use Rattle.turn_rules.specs.Tasks as task;
ghost use Rattle.keeper_book.specs.Asks.{AsksFor};
ghost use Rattle.ha_base.specs.KeySizes.{HasKeySize};
ghost use Rattle.ike_window.specs.Stored.{no_responses};
ghost use Rattle.turn_rules.specs.Held.{held_begun, synced_at_once};
ghost use Rattle.turn_rules.specs.MemberMessages.{cluster_keys};
ghost use Rattle.turn_rules.specs.Slots.{peer_counter};
ghost use Rattle.turn_rules.specs.Packets.{LiesWithin};
ghost use Rattle.ha_base.specs.declared.limits.TheConstants.{DATAGRAM_OCTETS, PAYLOAD_OCTETS};

use crate::refusals;
use aes_gcm::Key;
use esp_sas::{InboundSa, OutboundSa, Room};
use events::{EspVerdict, Step, Verdict};
use ha_base::EspOpened;
use horizons::Horizon;
use ike_sas::{IkeKeys, IkeSa};
use keeper_book::{Keeper, Record, Taken};
use spend_once::{CounterName, End, Kind};
use std::marker::Model;

/// What a member holds of an association in an epoch: the record, a horizon for each counter, what it
/// sends and receives with, and the Message ID that it announced last in a request to synchronise.
#[derive(Drop)]
pub struct Holding {
    pub(crate) sa: Record,
    pub(crate) epoch: u64,
    esp_out: Horizon,
    esp_in: Horizon,
    pub(crate) iv: Horizon,
    pub(crate) ask: Horizon,
    pub(crate) answer: Horizon,
    outbound: OutboundSa,
    inbound: InboundSa,
    pub(crate) ike: IkeSa,
    pub(crate) attempt: Option<u32>,
}

impl Model for Holding {
    ghost use Rattle.turn_rules.specs.Held.{Held};
    ghost use Rattle.cluster_member.specs.Holdings.{IsHolding};

    ghost Value = { Held };

    ghost view = { λ h. record {
      sa = h.sa;
      epoch = h.epoch;
      bases = record { esp_out = h.esp_out.base; esp_in = h.esp_in.base; iv = h.iv.base; ask = h.ask.base; answer = h.answer.base };
      nexts = record { esp_out = h.esp_out.next; esp_in = h.esp_in.next; iv = h.iv.next; ask = h.ask.next; answer = h.answer.next };
      highs = record { esp_out = h.esp_out.high; esp_in = h.esp_in.high; iv = h.iv.high; ask = h.ask.high; answer = h.answer.high };
      window = h.inbound.window;
      asked = h.ike.asked;
      answered = h.ike.answered;
      synced = h.ike.synced;
      attempt = h.attempt;
    } };

    ghost invariant = { λ h. IsHolding h.sa h.epoch h.esp_out h.esp_in h.iv h.ask h.answer h.outbound h.inbound h.ike };
}

// the cluster's counter of an association
pub(crate) fn name_of(sa: &Record, kind: Kind, child: u32) -> CounterName
    ensures { result ≡ record {
      origin = sa.now.origin;
      kind = kind;
      child = child;
      end = End.Cluster;
    } }
{
    CounterName {
        origin: sa.origin,
        kind,
        child,
        end: End::Cluster,
    }
}

// the counter of the ESP numbers that the peer sends
fn peer_out(sa: &Record) -> CounterName {
    CounterName {
        origin: sa.origin,
        kind: Kind::EspOut,
        child: 1,
        end: End::Peer,
    }
}

// the counter of the peer's IVs
fn peer_iv(sa: &Record) -> CounterName
    ensures { result ≡ peer_counter sa.now counter.Iv }
{
    CounterName {
        origin: sa.origin,
        kind: Kind::Iv,
        child: 0,
        end: End::Peer,
    }
}

// an AES key and four octets of salt, whose IVs are the numbers of the counter
fn key_of(counter: CounterName, octets: &[u8]) -> Key
    requires { HasKeySize octets.now }
    ensures { result ≡ record { name = counter; octets = octets.now } }
{
    match Key::new(counter, octets) {
        Some(key) => key,
        None => unreachable!(),
    }
}

// the keys of the IKE messages of an association (RFC 7296, section 2.14)
#[tactic(auto, using(crate::proofs::KeySizes::sized_sk_ei, crate::proofs::KeySizes::sized_sk_er))]
fn cluster_keys(sa: &Record) -> IkeKeys
    ensures { result ≡ cluster_keys sa.now }
{
    IkeKeys {
        end: End::Cluster,
        spii: sa.spii,
        spir: sa.spir,
        sending: key_of(name_of(sa, Kind::Iv, 0), sa.keys.sk_er.as_slice()),
        receiving: key_of(peer_iv(sa), sa.keys.sk_ei.as_slice()),
    }
}

// nothing was asked or answered in an epoch; a later one has to synchronise first (RFC 6311,
// section 5.1)
fn unasked(taken: &Taken) -> IkeSa
    requires bases { AreWithinEnds taken.now.bases }
    ensures { result ≡ record {
      keys = cluster_keys taken.now.sa;
      asked = [];
      next = taken.now.bases.ask;
      answered = no_responses taken.now.bases.answer;
      synced = synced_at_once taken.now;
    } }
{
    IkeSa::new(
        cluster_keys(&taken.sa),
        taken.bases.ask as u32,
        taken.bases.answer as u32,
        taken.epoch == 1,
    )
}

impl Holding {
    /// What a takeover granted: each counter begins at its base, and nothing was received in the
    /// window, which has this size.
    #[tactic(auto, using(crate::proofs::KeySizes::sized_to_cluster, crate::proofs::KeySizes::sized_to_peer))]
    pub fn begin(taken: Taken, window: u32) -> Holding
        requires bases { AreWithinEnds taken.bases }
        requires window { IsWindowSize window }
        ensures { result ≡ held_begun window taken }
    {
        let ike = unasked(&taken);
        let Taken { epoch, bases, sa } = taken;
        let spir = sa.spir;
        Holding {
            epoch,
            esp_out: Horizon::begin(
                name_of(&sa, Kind::EspOut, 1),
                spir,
                epoch,
                bases.esp_out,
                bases.esp_out,
            ),
            esp_in: Horizon::begin(
                name_of(&sa, Kind::EspIn, 1),
                spir,
                epoch,
                bases.esp_in,
                bases.esp_in,
            ),
            iv: Horizon::begin(name_of(&sa, Kind::Iv, 0), spir, epoch, bases.iv, bases.iv),
            ask: Horizon::begin(
                name_of(&sa, Kind::Ask, 0),
                spir,
                epoch,
                bases.ask,
                bases.ask,
            ),
            answer: Horizon::begin(
                name_of(&sa, Kind::Answer, 0),
                spir,
                epoch,
                bases.answer,
                bases.answer,
            ),
            outbound: OutboundSa::new(
                name_of(&sa, Kind::EspOut, 1),
                sa.child.to_peer.as_slice(),
                sa.spi_out,
            ),
            inbound: InboundSa::new(
                name_of(&sa, Kind::EspIn, 1),
                peer_out(&sa),
                sa.child.to_cluster.as_slice(),
                sa.spi_in,
                window,
                bases.esp_in,
            ),
            ike,
            attempt: None,
            sa,
        }
    }

    /// The ESP SPI at which packets are received.
    pub fn spi(&self) -> u32
        ensures { result ≡ self.now.sa.spi_in }
    {
        self.sa.spi_in
    }

    /// The responder's SPI.
    pub fn spir(&self) -> u64
        ensures { result ≡ self.now.sa.spir }
    {
        self.sa.spir
    }

    /// Draws the next ESP number and gives it up.
    pub fn draw<K: Keeper>(&mut self, keeper: &mut K) -> Step
        ensures draws { AsksFor K.Keeper keeper.old keeper.new
            (λ calls. Quietly (Draws self.old) calls result
            × Advances self.old (task.Draw self.old.sa.spir) calls result self.new) }
        ensures sa { self.new.sa ≡ self.old.sa }
    {
        match self.esp_out.send_number(keeper) {
            Ok(number) => {
                let value = number.value();
                number.burn();
                return Step::quiet(Verdict::Number(value));
            }
            Err(stop) => return Step::quiet(Verdict::Refused(refusals::of_stop(stop))),
        }
    }

    /// Sends a payload of at most 1,400 octets under the next ESP number.
    pub fn send<K: Keeper>(&mut self, keeper: &mut K, room: Room, payload: &[u8]) -> Step
        requires size { length payload.now ≤ PAYLOAD_OCTETS }
        requires room { length payload.now ≤ room }
        ensures sends { AsksFor K.Keeper keeper.old keeper.new
            (λ calls. SendsData self.old payload.now calls result × Advances self.old
            (task.Send self.old.sa.spir payload.now) calls result self.new) }
        ensures sa { self.new.sa ≡ self.old.sa }
    {
        match self.esp_out.send_number(keeper) {
            Ok(number) => return self.outbound.send(room, number, payload),
            Err(stop) => return Step::quiet(Verdict::Refused(refusals::of_stop(stop))),
        }
    }

    // Takes a packet that was opened, once its number is ready.
    fn take<K: Keeper>(&mut self, keeper: &mut K, packet: EspOpened) -> EspVerdict
        requires fresh { judged self.old.window packet.number ≡ judgement.Fresh }
        requires from_base { self.old.window.base ≤ packet.number }
        requires below { packet.number < end_of self.old.sa counter.EspIn }
        ensures takes { AsksFor K.Keeper keeper.old keeper.new
            (λ calls. TakesPacket self.old (Ok packet) calls result
            × ((after : List ℕ) → AdvancesByPacket self.old calls result after self.new)) }
        ensures same { TookPacket packet result }
        ensures sa { self.new.sa ≡ self.old.sa }
    {
        match self.esp_in.admit(keeper, packet.number) {
            Ok(()) => {
                self.inbound.note(packet.number);
                return EspVerdict::Accepted {
                    counter: self.inbound.counter(),
                    packet,
                };
            }
            Err(stop) => return EspVerdict::Refused(refusals::of_stop(stop)),
        }
    }

    /// Opens in place a packet that came. Its number is noted where the packet is accepted.
    pub fn receive<K: Keeper>(&mut self, keeper: &mut K, bytes: &mut [u8]) -> EspVerdict
        requires { length bytes.old ≤ DATAGRAM_OCTETS }
        ensures receives { AsksFor K.Keeper keeper.old keeper.new
            (λ calls. ReceivesPacket self.old bytes.old calls result bytes.new
            × AdvancesByPacket self.old calls result bytes.new self.new) }
        ensures within { LiesWithin result (length bytes.new) }
        ensures sa { self.new.sa ≡ self.old.sa }
    {
        match self.inbound.open(bytes) {
            Ok(packet) => return self.take(keeper, packet),
            Err(why) => return EspVerdict::Dropped(why),
        }
    }
}
