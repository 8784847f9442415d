ghost use Rattle.std.specs.Prelude.{◌≡◌, ◌≤◌, length};
ghost use Rattle.ha_base.specs.KeySizes.{HasKeySize};
ghost use Rattle.ha_base.specs.declared.limits.TheConstants.{PAYLOAD_OCTETS};
ghost use Rattle.turn_rules.specs.Packets.{SendsEsp};

use crate::room::Room;
use aes_gcm::Key;
use events::Step;
use ha_base::CounterName;
use spend_once::Number;
use std::marker::Model;

/// What ESP packets are sent with: the key, and the SPI at which the other end receives.
#[derive(Drop)]
pub struct OutboundSa {
    key: Key,
    spi: u32,
}

impl Model for OutboundSa {
    ghost use Rattle.turn_rules.specs.Packets.{Outbound};

    ghost Value = { Outbound };

    ghost view = { λ a. record { key = a.key; spi = a.spi } };
}

impl OutboundSa {
    /// The octets are an AES key and four of salt, and `counter` is that of the numbers, which are
    /// the key's IVs.
    pub fn new(counter: CounterName, octets: &[u8], spi: u32) -> OutboundSa
        requires { HasKeySize octets.now }
        ensures name { result.key.name ≡ counter }
        ensures octets { result.key.octets ≡ octets.now }
        ensures spi { result.spi ≡ spi }
    {
        match Key::new(counter, octets) {
            Some(key) => OutboundSa { key, spi },
            None => unreachable!(),
        }
    }

    /// Sends a payload of at most 1,400 octets, for which there is room, under this number, which
    /// is spent. It takes no memory but the room.
    pub fn send(&self, room: Room, number: Number, payload: &[u8]) -> Step
        requires named { number.name ≡ self.now.key.name }
        requires size { length payload.now ≤ PAYLOAD_OCTETS }
        requires room { length payload.now ≤ room }
        ensures { SendsEsp self.now number.value payload.now result }
    {
        room.send(&self.key, self.spi, number, payload)
    }
}
