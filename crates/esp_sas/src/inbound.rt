ghost use Rattle.std.specs.Prelude.{◌≡◌, ◌+◌, ◌<◌, ◌≤◌, [], IfOk, length};
ghost use Rattle.esp_packets.specs.declared.packet.TheConstants.{LONGEST_PACKET};
ghost use Rattle.ha_base.specs.KeySizes.{HasKeySize};
ghost use Rattle.replay_set.specs.Window.{IsWindowSize, judged, window_of};
ghost use Rattle.replay_set.specs.declared.judgement.Judgement.TheVariants as judgement;
ghost use Rattle.ha_base.specs.declared.limits.TheConstants.{SEQUENCE_END};
ghost use Rattle.turn_rules.specs.Packets.{OpensEsp, noted};

use aes_gcm::Key;
use esp_packets::open_packet;
use ha_base::{CounterName, EspDrop, EspOpened};
use replay_set::ReplaySet;
use std::marker::Model;

/// What ESP packets are received with: the key, the SPI, and which numbers were received.
#[derive(Drop)]
pub struct InboundSa {
    counter: CounterName,
    key: Key,
    spi: u32,
    set: ReplaySet,
}

impl Model for InboundSa {
    ghost use Rattle.turn_rules.specs.Packets.{Inbound};

    ghost Value = { Inbound };

    ghost view = { λ a. record {
      counter = a.counter;
      key = a.key.octets;
      spi = a.spi;
      window = a.set;
    } };
}

impl InboundSa {
    /// Nothing was received, and no number is below `base`. The numbers are those of `counter`; the
    /// octets are an AES key and four of salt, and `sender` is the counter of the other end, whose
    /// numbers are the key's IVs.
    pub fn new(
        counter: CounterName,
        sender: CounterName,
        octets: &[u8],
        spi: u32,
        window: u32,
        base: u64,
    ) -> InboundSa
        requires size { HasKeySize octets.now }
        requires window { IsWindowSize window }
        ensures { result ≡ record {
          counter = counter;
          key = octets.now;
          spi = spi;
          window = window_of window base [];
        } }
    {
        match (Key::new(sender, octets), ReplaySet::new(window, base)) {
            (Some(key), Some(set)) => InboundSa {
                counter,
                key,
                spi,
                set,
            },
            _ => unreachable!(),
        }
    }

    /// The counter of the numbers that are received.
    pub fn counter(&self) -> CounterName
        ensures { result ≡ self.now.counter }
    {
        self.counter
    }

    /// The SPI at which packets are received.
    pub fn spi(&self) -> u32
        ensures { result ≡ self.now.spi }
    {
        self.spi
    }

    /// Opens in place a packet that came, and tells where its payload lies. The error is the first
    /// check that fails. After an error the octets are as they were, but where it is the last
    /// check, that of the pad length.
    #[tactic(auto, using(crate::proofs::Freshness::fresh_from_base))]
    pub fn open(&self, bytes: &mut [u8]) -> Result<EspOpened, EspDrop>
        requires { length bytes.old ≤ LONGEST_PACKET }
        ensures opens { OpensEsp self.now bytes.old result bytes.new }
        ensures within { IfOk result (λ packet. packet.start + packet.length ≤ length bytes.new) }
        ensures fresh { IfOk result
            (λ packet. judged self.now.window packet.number ≡ judgement.Fresh) }
        ensures from_base { IfOk result (λ packet. self.now.window.base ≤ packet.number) }
        ensures below { IfOk result (λ packet. packet.number < SEQUENCE_END) }
    {
        open_packet(&self.key, self.spi, &self.set, bytes)
    }

    /// Notes the number of a packet that is accepted.
    pub fn note(&mut self, number: u64)
        requires fresh { judged self.old.window number ≡ judgement.Fresh }
        requires below_the_end { number < SEQUENCE_END }
        ensures { self.new ≡ noted number self.old }
    {
        self.set.note(number);
    }
}
