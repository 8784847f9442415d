use aes_gcm::Key;
use anyhow::{bail, ensure};
use esp_packets::{EspOpened, open_packet, seal_packet};
use ha_base::{DATAGRAM_OCTETS, Octets, PAYLOAD_OCTETS};
use replay_set::ReplaySet;
use spend_once::{CounterName, End, Kind, Lot, Origin};
use std::alloc::Global;

/// The name of every key here: none is used twice.
const NAME: CounterName = CounterName {
    origin: Origin::Imported(1),
    kind: Kind::EspOut,
    child: 1,
    end: End::Cluster,
};

/// The next header of an IPv4 packet in a tunnel.
const IPV4: u8 = 4;

/// A packet to be sealed.
#[derive(Debug, Drop)]
struct Case {
    key: Vec<u8>,
    spi: u32,
    number: u64,
    payload: Vec<u8>,
}

/// The packet in hexadecimal, or that it does not open again.
pub fn answer(alloc: Global, words: &str) -> anyhow::Result<String> {
    let case = Case::parse(alloc, words)?;
    let Some(key) = Key::new(NAME, &case.key) else {
        bail!("a key has 20 or 36 octets with its salt");
    };
    let mut packet = case.seal(alloc, &key)?;
    let text = hex::encode(alloc, packet.as_slice())?;
    if case.opens(&key, &mut packet) {
        Ok(format!(in alloc; "packet {words} {text}")?)
    } else {
        Ok(format!(in alloc; "packet {words} lost")?)
    }
}

fn octets(alloc: Global, word: Option<&str>) -> anyhow::Result<Vec<u8>> {
    match word {
        None => bail!("a word is missing"),
        Some("-") => Ok(Vec::new(alloc)),
        Some(word) => Ok(hex::decode(alloc, word.as_bytes())?),
    }
}

impl Case {
    fn parse(alloc: Global, words: &str) -> anyhow::Result<Case> {
        let mut words = words.split(' ');
        let key = octets(alloc, words.next())?;
        let Some(spi) = words.next() else {
            bail!("the SPI is missing");
        };
        let spi = u32::from_str_radix(spi, 16)?;
        let Some(number) = words.next() else {
            bail!("the number is missing");
        };
        let number = number.parse()?;
        let payload = octets(alloc, words.next())?;
        Ok(Case {
            key,
            spi,
            number,
            payload,
        })
    }

    fn seal(&self, alloc: Global, key: &Key) -> anyhow::Result<Vec<u8>> {
        ensure!(self.payload.len() <= PAYLOAD_OCTETS, "too long a payload");
        let Some(number) = Lot::new(key.name(), self.number, self.number.saturating_add(1)).draw()
        else {
            bail!("no number has this value");
        };
        let Ok(mut packet) = Octets::with_room(alloc, DATAGRAM_OCTETS) else {
            number.burn();
            bail!("no memory");
        };
        seal_packet(key, self.spi, number, &self.payload, IPV4, &mut packet);
        Ok(packet.as_slice().to_vec(alloc)?)
    }

    /// Whether the packet opens to its number and payload, where it is the next one.
    fn opens(&self, key: &Key, packet: &mut [u8]) -> bool {
        let Some(set) = ReplaySet::new(64, self.number) else {
            return false;
        };
        if packet.len() > DATAGRAM_OCTETS {
            return false;
        }
        match open_packet(key, self.spi, &set, packet) {
            Err(_) => false,
            Ok(opened) => opened.number == self.number && self.lies_in(packet, &opened),
        }
    }

    fn lies_in(&self, packet: &[u8], opened: &EspOpened) -> bool {
        if packet.len() < opened.start || packet.len() - opened.start < opened.length {
            return false;
        }
        let payload = &packet[opened.start..opened.start + opened.length];
        payload == self.payload.as_slice() && opened.next_header == IPV4
    }
}
