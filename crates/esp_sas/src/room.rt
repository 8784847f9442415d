ghost use Rattle.std.specs.Prelude.{◌≡◌, ◌≤◌, [], length, IfOk};
ghost use Rattle.ha_base.specs.declared.limits.TheConstants.{PAYLOAD_OCTETS};
ghost use Rattle.turn_rules.specs.Packets.{SendsEsp};

use aes_gcm::Key;
use esp_packets::{PACKET_OVERHEAD, seal_packet, spell_plain};
use events::{Datagram, Medium, Seal, Seals, Step, Verdict};
use ha_base::{Memory, Octets};
use spend_once::Number;
use std::alloc::Global;
use std::marker::Model;

/// The next header of an IPv4 packet (RFC 4303, section 2.6).
const IPV4: u8 = 4;

/// Room for all that the send of a payload of so many octets writes.
#[derive(Drop)]
pub struct Room {
    payload: usize,
    plain: Octets,
    sealed: Octets,
    given: Octets,
}

impl Model for Room {
    ghost use Rattle.std.specs.Prelude.{ℕ};
    ghost use Rattle.esp_sas.specs.Rooms.{IsRoom};

    ghost Value = { ℕ };

    ghost view = { λ r. r.payload };

    ghost invariant = { λ r. IsRoom r.payload r.plain r.sealed r.given };
}

impl Room {
    /// Makes the room for a payload of so many octets, at most 1,400. An error is want of memory.
    pub fn new(alloc: Global, payload: usize) -> Result<Room, Memory>
        requires { payload ≤ PAYLOAD_OCTETS }
        ensures { IfOk result (λ room. room ≡ payload) }
    {
        let octets = payload + PACKET_OVERHEAD;
        Ok(Room {
            payload,
            plain: Octets::with_room(alloc, octets)?,
            sealed: Octets::with_room(alloc, octets)?,
            given: Octets::with_room(alloc, octets)?,
        })
    }

    /// Sends a payload, for which there is room, in an ESP packet under this number.
    pub(crate) fn send(self, key: &Key, spi: u32, number: Number, payload: &[u8]) -> Step
        requires named { number.name ≡ key.now.name }
        requires size { length payload.now ≤ PAYLOAD_OCTETS }
        requires room { length payload.now ≤ self }
        ensures { SendsEsp (record { key = key.now; spi = spi }) number.value payload.now result }
    {
        let Room {
            payload: _,
            mut plain,
            mut sealed,
            mut given,
        } = self;
        let iv = number.value();
        spell_plain(payload, IPV4, &mut plain);
        seal_packet(key, spi, number, payload, IPV4, &mut sealed);
        given.extend(sealed.as_slice()).unwrap();
        let mut seals = Seals::none();
        seals.push(Seal {
            name: key.name(),
            iv,
            plain,
            sealed,
        });
        Step {
            verdict: Verdict::Sent(iv),
            served: None,
            seals,
            gives: Some(Datagram {
                medium: Medium::Esp,
                octets: given,
            }),
        }
    }
}
