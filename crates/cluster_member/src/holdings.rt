ghost use Rattle.std.specs.Prelude.{◌≡◌, ◌<◌, ◌≤◌, ◌⊎◌, length, Some, None, [], MatchOption, IfSome, OnOk};
ghost use Rattle.esp_packets.specs.Packet.{spi_of};
ghost use Rattle.ha_base.specs.declared.esp_outcomes.EspDrop.TheVariants as drop;
ghost use Rattle.keeper_book.specs.Asks.{AsksFor};
ghost use Rattle.turn_rules.specs.Fits.{DrawsOf, SendsOf};
ghost use Rattle.turn_rules.specs.MemberPackets.{DropsQuietly, IsReceived, MemberReceives, ReceivesNowhere};
ghost use Rattle.turn_rules.specs.Tasks as task;
ghost use Rattle.turn_rules.specs.Held.{held_at};
ghost use Rattle.events.specs.declared.verdict.Refusal.TheVariants as refusal;
ghost use Rattle.turn_rules.specs.Packets.{LiesWithin};
ghost use Rattle.turn_rules.specs.Steps.{Says};
ghost use Rattle.cluster_member.specs.Members.{HoldsOn, ReceivesOn};
ghost use Rattle.cluster_member.specs.Places.{IsLeastAt, IsLesser, IsHoldingPlace, KeepsOthers, NoneReceives};
ghost use Rattle.ha_base.specs.declared.limits.TheConstants.{DATAGRAM_OCTETS, PAYLOAD_OCTETS};

use crate::holding::Holding;
use esp_packets::packet_spi;
use esp_sas::Room;
use events::{EspVerdict, Refusal, Step, Verdict};
use ha_base::{EspDrop, Memory};
use keeper_book::Keeper;
use std::alloc::Global;
use std::marker::Model;

/// What a member holds, one holding for each association.
#[derive(Drop)]
pub struct Holdings {
    pub(crate) items: Vec<Holding>,
}

impl Model for Holdings {
    ghost use Rattle.std.specs.Prelude.{◌-◌, vec_len, vec_capacity};
    ghost use Rattle.cluster_member.specs.Places.{AllHeld, AreApart};

    ghost Value = { AllHeld };

    ghost view = { λ h. record {
      held = h.items.items;
      spare = vec_capacity h.items - vec_len h.items;
    } };

    ghost invariant = { λ h. AreApart h.items.items };
}

/// Where the holding of a responder's SPI stands.
pub(crate) fn place_of(items: &[Holding], spir: u64) -> Option<usize>
    ensures { MatchOption result (held_at items.now spir ≡ None)
        (λ place. IsHoldingPlace spir place items.now) }
{
    for (place, holding) in items.iter().enumerate() {
        if holding.spir() == spir {
            return Some(place);
        }
    }
    None
}

// of the holding that was found, if there is one, and another one, where the one of the lesser
// responder's SPI stands
fn lesser(items: &[Holding], found: Option<usize>, place: usize) -> usize
    requires within { place < length items.now }
    requires found { IfSome found (λ other. other < length items.now) }
    ensures { IsLesser items.now found place result }
{
    let Some(other) = found else { return place };
    if items[other].spir() <= items[place].spir() {
        other
    } else {
        place
    }
}

/// Where the holding stands that receives at an SPI. Of several it is the one of the least
/// responder's SPI.
fn receiver_of(items: &[Holding], spi: u32) -> Option<usize>
    ensures { MatchOption result (NoneReceives spi items.now)
        (λ place. IsLeastAt spi place items.now items.now) }
{
    let mut found = None;
    for (place, holding) in items.iter().enumerate() {
        if holding.spi() == spi {
            found = Some(lesser(items, found, place));
        }
    }
    found
}

/// The association is not held.
pub(crate) fn not_owner() -> Step
    ensures { Says (Verdict.Refused refusal.NotOwner) result }
{
    Step::quiet(Verdict::Refused(Refusal::NotOwner))
}

impl Holdings {
    /// Nothing is held.
    pub fn new(alloc: Global) -> Holdings
        ensures { result.held ≡ [] }
    {
        Holdings {
            items: Vec::new(alloc),
        }
    }

    /// Makes room for one more. An error is want of memory.
    pub fn reserve(&mut self) -> Result<(), Memory>
        ensures held { self.new.held ≡ self.old.held }
        ensures room { OnOk result (0 < self.new.spare) }
    {
        match self.items.reserve(1) {
            Ok(()) => Ok(()),
            Err(_) => Err(Memory),
        }
    }

    /// Puts a holding in the place of the one that is held of its association, or adds it.
    pub fn put(&mut self, holding: Holding)
        requires { 0 < self.old.spare }
        ensures put { held_at self.new.held holding.sa.spir ≡ Some holding }
        ensures others { KeepsOthers holding.sa.spir self.old.held self.new.held }
    {
        match place_of(&self.items, holding.spir()) {
            Some(place) => self.items[place] = holding,
            None => self.items.push_reserved(holding),
        }
    }

    /// Draws the next ESP number of an association that is held.
    pub fn draw<K: Keeper>(&mut self, keeper: &mut K, spir: u64) -> Step
        ensures draws { AsksFor K.Keeper keeper.old keeper.new
            (λ calls. DrawsOf (held_at self.old.held spir) calls result
            × HoldsOn (task.Draw spir) calls result self.old.held self.new.held) }
    {
        match place_of(&self.items, spir) {
            Some(place) => {
                let holding = &mut self.items[place];
                holding.draw(keeper)
            }
            None => not_owner(),
        }
    }

    /// Sends a payload of at most 1,400 octets in an association that is held.
    pub fn send<K: Keeper>(&mut self, keeper: &mut K, spir: u64, room: Room, payload: &[u8]) -> Step
        requires size { length payload.now ≤ PAYLOAD_OCTETS }
        requires room { length payload.now ≤ room }
        ensures sends { AsksFor K.Keeper keeper.old keeper.new
            (λ calls. SendsOf (held_at self.old.held spir) payload.now calls result
            × HoldsOn (task.Send spir payload.now) calls result self.old.held self.new.held) }
    {
        match place_of(&self.items, spir) {
            Some(place) => {
                let holding = &mut self.items[place];
                holding.send(keeper, room, payload)
            }
            None => not_owner(),
        }
    }

    /// Hands a packet to what is held that receives at its SPI.
    pub fn receive<K: Keeper>(&mut self, keeper: &mut K, bytes: &mut [u8]) -> EspVerdict
        requires { length bytes.old ≤ DATAGRAM_OCTETS }
        ensures receives { AsksFor K.Keeper keeper.old keeper.new (λ calls.
            MemberReceives (held_at self.old.held) bytes.old calls result bytes.new
            × ReceivesOn calls result bytes.new self.old.held self.new.held) }
        ensures within { LiesWithin result (length bytes.new) }
    {
        match packet_spi(bytes) {
            Some(spi) => return self.receive_at(keeper, spi, bytes),
            None => return EspVerdict::Dropped(EspDrop::Short),
        }
    }

    // Hands a packet to what is held that receives at this SPI.
    fn receive_at<K: Keeper>(&mut self, keeper: &mut K, spi: u32, bytes: &mut [u8]) -> EspVerdict
        requires size { length bytes.old ≤ DATAGRAM_OCTETS }
        requires spi { spi ≡ spi_of bytes.old }
        ensures receives { AsksFor K.Keeper keeper.old keeper.new (λ calls.
            ((ReceivesNowhere (held_at self.old.held) (spi_of bytes.old)
            × DropsQuietly drop.WrongSpi bytes.old calls result bytes.new)
            ⊎ IsReceived (held_at self.old.held) bytes.old calls result bytes.new)
            × ReceivesOn calls result bytes.new self.old.held self.new.held) }
        ensures within { LiesWithin result (length bytes.new) }
    {
        match receiver_of(&self.items, spi) {
            Some(place) => {
                let holding = &mut self.items[place];
                holding.receive(keeper, bytes)
            }
            None => EspVerdict::Dropped(EspDrop::WrongSpi),
        }
    }
}
