ghost use Rattle.std.specs.Prelude.{◌≡◌, ◌≤◌, ◌<◌, [], ◌∷◌, ◌++◌, None, true, map, MatchOption, OnOk, length};
ghost use Rattle.replay_set.specs.Window.{IsWindowSize};
ghost use Rattle.events.specs.declared.turn.Step.{Step};
ghost use Rattle.turn_rules.specs.Packets.{Drops, IsVerdictOf, LiesWithin};
ghost use Rattle.turn_rules.specs.Slots.{PeerForgets, PeerReceives, PeerSends, SlotReceives, admits, entered_slot, first_slot, has_spir, receives_at, slot_after};
ghost use Rattle.turn_rules.specs.Steps.{IsQuiet};
ghost use Rattle.turn_rules.specs.Tasks as task;
ghost use Rattle.cluster_peer.specs.Slots.{IsFirstSlot};
ghost use Rattle.ha_base.specs.declared.esp_outcomes.EspDrop.TheVariants as drop;
ghost use Rattle.ha_base.specs.declared.limits.TheConstants.{DATAGRAM_OCTETS, PAYLOAD_OCTETS};
ghost use Rattle.ha_base.specs.declared.outside.Moment.{Moment};

use crate::association::Association;
use esp_packets::packet_spi;
use esp_sas::Room;
use events::{EspVerdict, Refusal, Step, Verdict};
use ha_base::{EspDrop, Memory};
use keeper_book::Record;
use std::alloc::Global;
use std::marker::Model;

/// The associations of the peer, in the order in which they came.
#[derive(Drop)]
pub struct Slots {
    pub(crate) items: Vec<Association>,
}

impl Model for Slots {
    ghost use Rattle.std.specs.Prelude.{◌-◌, vec_len, vec_capacity};
    ghost use Rattle.turn_rules.specs.Peers.{AreDistinct};
    ghost use Rattle.turn_rules.specs.Slots.{records};
    ghost use Rattle.cluster_peer.specs.Slots.{Slotted};

    ghost Value = { Slotted };

    ghost view = { λ s. record {
      slots = s.items.items;
      spare = vec_capacity s.items - vec_len s.items;
    } };

    ghost invariant = { λ s. AreDistinct (records s.items.items) };
}

/// Where the live association of a responder's SPI stands.
pub(crate) fn place_of(items: &[Association], spir: u64) -> Option<usize>
    ensures { MatchOption result (first_slot (has_spir spir) items.now ≡ None)
        (λ place. IsFirstSlot (has_spir spir) place items.now) }
{
    for (place, association) in items.iter().enumerate() {
        if association.has_spir(spir) {
            return Some(place);
        }
    }
    None
}

/// Where the live association stands that receives at an SPI.
fn receiver_at(items: &[Association], spi: u32) -> Option<usize>
    ensures { MatchOption result (first_slot (receives_at spi) items.now ≡ None)
        (λ place. IsFirstSlot (receives_at spi) place items.now) }
{
    for (place, association) in items.iter().enumerate() {
        if association.receives_at(spi) {
            return Some(place);
        }
    }
    None
}

impl Slots {
    pub fn new(alloc: Global) -> Slots
        ensures { result.slots ≡ [] }
    {
        Slots {
            items: Vec::new(alloc),
        }
    }

    /// No association stands in the way of this one.
    pub fn admit(&self, sa: &Record) -> bool
        ensures { result ≡ admits self.now.slots sa.now }
    {
        for association in &self.items {
            if association.is_clash(sa) {
                return false;
            }
        }
        true
    }

    /// Makes room for one more. An error is want of memory.
    pub fn reserve(&mut self) -> Result<(), Memory>
        ensures slots { self.new.slots ≡ self.old.slots }
        ensures room { OnOk result (0 < self.new.spare) }
    {
        match self.items.reserve(1) {
            Ok(()) => Ok(()),
            Err(_) => Err(Memory),
        }
    }

    /// Adds an association where there is room for one, with a receive window of this size.
    pub fn push(&mut self, sa: Record, window: u32)
        requires admitted { admits self.old.slots sa ≡ true }
        requires room { 0 < self.old.spare }
        requires window { IsWindowSize window }
        ensures { self.new.slots ≡ self.old.slots ++ entered_slot window sa ∷ [] }
    {
        self.items.push_reserved(Association::new(sa, window));
    }

    /// Sends a payload of at most 1,400 octets in an association.
    pub fn send(&mut self, spir: u64, room: Room, payload: &[u8]) -> Step
        requires size { length payload.now ≤ PAYLOAD_OCTETS }
        requires room { length payload.now ≤ room }
        ensures sends { PeerSends spir self.old.slots payload.now result }
        ensures after { (now : Moment) → self.new.slots
            ≡ map (slot_after now (task.Send spir payload.now) result) self.old.slots }
    {
        match place_of(&self.items, spir) {
            Some(place) => {
                let association = &mut self.items[place];
                association.send(room, payload)
            }
            None => Step::quiet(Verdict::Refused(Refusal::Unknown)),
        }
    }

    /// Closes the peer's end of an association.
    pub fn forget(&mut self, spir: u64) -> Step
        ensures forgets { PeerForgets spir self.old.slots result }
        ensures after { (now : Moment) → self.new.slots
            ≡ map (slot_after now (task.Forget spir) result) self.old.slots }
    {
        match place_of(&self.items, spir) {
            Some(place) => {
                let association = &mut self.items[place];
                association.forget();
                Step::quiet(Verdict::Forgotten)
            }
            None => Step::quiet(Verdict::Refused(Refusal::Unknown)),
        }
    }

    /// Hands a packet to the association that receives at its SPI.
    pub fn receive(&mut self, bytes: &mut [u8]) -> EspVerdict
        requires { length bytes.old ≤ DATAGRAM_OCTETS }
        ensures receives { PeerReceives self.old.slots bytes.old result bytes.new }
        ensures after { (now : Moment) (step : Step) → IsVerdictOf result bytes.new step.verdict
            → IsQuiet step
            → self.new.slots ≡ map (slot_after now task.Receive step) self.old.slots }
        ensures within { LiesWithin result (length bytes.new) }
    {
        match packet_spi(bytes) {
            Some(spi) => self.receive_at(spi, bytes),
            None => EspVerdict::Dropped(EspDrop::Short),
        }
    }

    // Hands a packet to the association that receives at this SPI.
    fn receive_at(&mut self, spi: u32, bytes: &mut [u8]) -> EspVerdict
        requires { length bytes.old ≤ DATAGRAM_OCTETS }
        ensures receives { MatchOption (first_slot (receives_at spi) self.old.slots)
            (Drops drop.WrongSpi bytes.old result bytes.new)
            (λ slot. SlotReceives slot bytes.old result bytes.new) }
        ensures after { (now : Moment) (step : Step) → IsVerdictOf result bytes.new step.verdict
            → IsQuiet step
            → self.new.slots ≡ map (slot_after now task.Receive step) self.old.slots }
        ensures within { LiesWithin result (length bytes.new) }
    {
        match receiver_at(&self.items, spi) {
            Some(place) => {
                let association = &mut self.items[place];
                association.receive(bytes)
            }
            None => EspVerdict::Dropped(EspDrop::WrongSpi),
        }
    }
}
