ghost use Rattle.std.specs.Prelude.{◌≡◌, ◌≤◌, [], IfOk, OnErr, length};
ghost use Rattle.replay_set.specs.Window.{IsWindowSize};
ghost use Rattle.keeper_book.specs.Asks.{AsksFor};
ghost use Rattle.turn_rules.specs.Draws.{TakesOver};
ghost use Rattle.turn_rules.specs.Fits.{DrawsOf, Quietly, SendsOf};
ghost use Rattle.turn_rules.specs.Held.{held_at};
ghost use Rattle.turn_rules.specs.MemberPackets.{MemberReceives};
ghost use Rattle.turn_rules.specs.Packets.{LiesWithin};
ghost use Rattle.turn_rules.specs.Tasks as task;
ghost use Rattle.turn_rules.specs.TicketNumbers.{no_ticket_numbers};
ghost use Rattle.ticket_issuing.specs.Issuing.{IsTicketCounter};
ghost use Rattle.cluster_member.specs.Genuine.{GenuineAreAccepted};
ghost use Rattle.cluster_member.specs.Members.{AsksInVain, IsAfter, IsAfterPacket, configuration_of};
ghost use Rattle.ha_base.specs.declared.limits.TheConstants.{DATAGRAM_OCTETS, PAYLOAD_OCTETS};

use crate::config::Config;
use crate::holding::Holding;
use crate::holdings::Holdings;
use crate::refusals;
use esp_packets::sealed_packets_open;
use esp_sas::Room;
use events::{EspVerdict, Step, Verdict};
use ha_base::{Identity, Memory};
use keeper_book::{Keeper, KeeperFault};
use std::alloc::Global;
use std::marker::Model;
use ticket_issuing::Issuer;

/// A member of the cluster, by what it holds.
#[derive(Drop)]
pub struct Member {
    pub(crate) alloc: Global,
    number: u32,
    identity: Identity,
    window: u32,
    pub(crate) fresh: [u8; 24],
    pub(crate) issuer: Issuer,
    pub(crate) holdings: Holdings,
}

impl Model for Member {
    ghost use Rattle.replay_set.specs.Window.{IsWindowSize};
    ghost use Rattle.cluster_member.specs.Members.{Holder, configuration_with};

    ghost Value = { Holder };

    ghost view = { λ m. record {
      number = m.number;
      config = configuration_with m.identity m.window m.issuer;
      fresh = m.fresh;
      held = m.holdings.held;
      numbers = m.issuer.numbers;
    } };

    ghost invariant = { λ m. IsWindowSize m.window };
}

impl Member {
    /// A member that holds nothing, and has leased no numbers of tickets. Its fresh octets are its
    /// own alone.
    pub fn join(alloc: Global, number: u32, config: Config, fresh: [u8; 24]) -> Member
        requires window { IsWindowSize config.window }
        requires ticket_key { IsTicketCounter config.ticket_key }
        ensures { result ≡ record {
          number = number;
          config = configuration_of config;
          fresh = fresh;
          held = [];
          numbers = no_ticket_numbers;
        } }
    {
        let Config {
            identity,
            lifetime,
            window,
            ticket_key,
        } = config;
        Member {
            alloc,
            number,
            identity,
            window,
            fresh,
            issuer: Issuer::new(ticket_key, lifetime),
            holdings: Holdings::new(alloc),
        }
    }

    /// Takes over an association: an epoch begins, in which this member may use numbers. What it
    /// held of the association begins anew. An error is want of memory; the member is then as it
    /// was, and the keeper was asked only where it lacked the memory itself.
    pub fn take_over<K: Keeper>(&mut self, keeper: &mut K, spir: u64) -> Result<Step, Memory>
        ensures takes { IfOk result (λ step. AsksFor K.Keeper keeper.old keeper.new (λ calls.
            Quietly (TakesOver spir self.old.number) calls step × IsAfter (task.TakeOver spir) calls step self.old self.new)) }
        ensures err { OnErr result (self.new ≡ self.old) }
        ensures in_vain { OnErr result (AsksInVain K.Keeper keeper.old keeper.new) }
    {
        self.holdings.reserve()?;
        match keeper.take_over(spir, self.number) {
            Ok(taken) => {
                let verdict = Verdict::Owned {
                    epoch: taken.epoch,
                    bases: taken.bases,
                };
                self.holdings.put(Holding::begin(taken, self.window));
                Ok(Step::quiet(verdict))
            }
            Err(fault) => match refusals::of_takeover(fault) {
                Some(refusal) => Ok(Step::quiet(Verdict::Refused(refusal))),
                None => Err(Memory),
            },
        }
    }

    /// Draws the next ESP number of an association and gives it up. It takes no memory.
    pub fn draw<K: Keeper>(&mut self, keeper: &mut K, spir: u64) -> Step
        ensures draws { AsksFor K.Keeper keeper.old keeper.new
            (λ calls. DrawsOf (held_at self.old.held spir) calls result
            × IsAfter (task.Draw spir) calls result self.old self.new) }
    {
        self.holdings.draw(keeper, spir)
    }

    /// Sends a payload of at most 1,400 octets in an ESP packet of an association, under the next
    /// ESP number. It is refused `NotOwner` exactly where the association is not held, and else by
    /// the name of the stop of this number. An error is want of memory; then no keeper was asked,
    /// and the member is as it was.
    pub fn send_data<K: Keeper>(
        &mut self,
        keeper: &mut K,
        spir: u64,
        payload: &[u8],
    ) -> Result<Step, Memory>
        requires { length payload.now ≤ PAYLOAD_OCTETS }
        ensures sends { IfOk result (λ step. AsksFor K.Keeper keeper.old keeper.new (λ calls.
            SendsOf (held_at self.old.held spir) payload.now calls step
            × IsAfter (task.Send spir payload.now) calls step self.old self.new)) }
        ensures err { OnErr result ((self.new ≡ self.old) × (keeper.new ≡ keeper.old)) }
    {
        let room = Room::new(self.alloc, payload.len())?;
        Ok(self.holdings.send(keeper, spir, room, payload))
    }

    /// Opens in place an ESP packet that came, and notes its number where it is accepted (RFC 4303,
    /// section 3.4): the number has to be ready first. It takes no memory.
    pub fn receive_esp<K: Keeper>(&mut self, keeper: &mut K, bytes: &mut [u8]) -> EspVerdict
        requires { length bytes.old ≤ DATAGRAM_OCTETS }
        ensures receives { AsksFor K.Keeper keeper.old keeper.new (λ calls.
            MemberReceives (held_at self.old.held) bytes.old calls result bytes.new
            × GenuineAreAccepted self.old.held bytes.old calls result bytes.new
            × IsAfterPacket calls result bytes.new self.old self.new) }
        ensures within { LiesWithin result (length bytes.new) }
    {
        sealed_packets_open();
        self.holdings.receive(keeper, bytes)
    }
}
