ghost use Rattle.std.specs.Prelude.{◌≡◌, ◌<◌, true, IfOk, IfSome, IsSome, None};
ghost use Rattle.ha_base.specs.declared.limits.TheConstants.{NUMBER_END};
ghost use Rattle.ike_sas.specs.TicketMessages.{IsShortTicket, is_ticket_due};
ghost use Rattle.keeper_book.specs.Asks.{AsksFor};
ghost use Rattle.keeper_book.specs.Told.{IsRefusalOf};
ghost use Rattle.keeper_book.specs.declared.calls.KeeperAsk.TheVariants as ask;
ghost use Rattle.keeper_book.specs.declared.pools.Pool.TheVariants as pool;
ghost use Rattle.pool_lots.specs.declared.lots.TheConstants.{LEASED_NUMBERS};
ghost use Rattle.ticket_issuing.specs.Issuing.{IsOfFirstKey, IsRoomFor, IsTicketCounter, TellsDue, TellsNoNumber, TellsOf};
ghost use Rattle.turn_rules.specs.Configurations.{first_ticket_counter};
ghost use Rattle.turn_rules.specs.TicketNumbers.{no_ticket_numbers};

use crate::issuing::{TicketRoom, issue_in};
use aes_gcm::Key;
use events::Refusal;
use ha_base::{CounterName, End, Kind, Memory, Moment, Origin};
use ike_sas::{TicketAnswer, is_ticket_due};
use keeper_book::{Keeper, KeeperFault, Pool, Record};
use pool_lots::draw_pooled;
use sk_payload::Opened;
use spend_once::Lot;
use std::alloc::Global;
use std::marker::Model;

/// What a member issues tickets with: the key, where there is one, for how many seconds tickets are
/// taken, and the numbers that are left of those that it leased.
#[derive(Drop)]
pub struct Issuer {
    key: Option<Key>,
    lifetime: u32,
    numbers: Lot,
}

impl Model for Issuer {
    ghost use Rattle.ticket_issuing.specs.Issuing.{AreOfFirstKey, Issuing};

    ghost Value = { Issuing };

    ghost view = { λ issuer. record {
      key = issuer.key;
      lifetime = issuer.lifetime;
      numbers = issuer.numbers;
    } };

    ghost invariant = { λ issuer. AreOfFirstKey issuer.key issuer.numbers };
}

/// The counter of the IVs under the first ticket key.
fn first_ticket_counter() -> CounterName
    ensures { result ≡ first_ticket_counter }
{
    CounterName {
        origin: Origin::TicketKey(1),
        kind: Kind::TicketIv,
        child: 0,
        end: End::Cluster,
    }
}

/// What is told where no number was leased: that there is no ticket, where the pool is used up. A
/// failed call refuses the request.
fn without_number(why: KeeperFault) -> Result<Option<TicketAnswer>, Refusal>
    requires { IsRefusalOf (ask.Lease pool.Ticket LEASED_NUMBERS) why }
    ensures { TellsNoNumber why result }
{
    match why {
        KeeperFault::Full(_) => Ok(Some(TicketAnswer::Declined)),
        KeeperFault::Failed => Err(Refusal::KeeperFault),
        _ => unreachable!(),
    }
}

impl Issuer {
    /// An issuer that has leased no numbers.
    pub fn new(key: Option<Key>, lifetime: u32) -> Issuer
        requires first { IsTicketCounter key }
        ensures { result ≡ record {
          key = key;
          lifetime = lifetime;
          numbers = no_ticket_numbers;
        } }
    {
        Issuer {
            key,
            lifetime,
            numbers: Lot::new(first_ticket_counter(), 1, 1),
        }
    }

    /// Room for the ticket in the answer to a request, where it asks for one and there is a key. An
    /// error is want of memory.
    pub fn room(&self, alloc: Global, request: &Opened) -> Result<Option<TicketRoom>, Memory>
        ensures { IfOk result (IsRoomFor self.now.key request.now) }
    {
        if self.key.is_some() && is_ticket_due(request) {
            return Ok(Some(TicketRoom::new(alloc)?));
        }
        Ok(None)
    }

    /// What the answer to a request says of a ticket that is issued in the association at a moment:
    /// nothing where the request asks for none, and that there is none without a key, or where the
    /// pool is used up. A keeper's failed call refuses the request. The numbers are then as they
    /// were. No memory is taken.
    pub fn tell<K: Keeper>(
        &mut self,
        keeper: &mut K,
        room: Option<TicketRoom>,
        now: Moment,
        sa: &Record,
        request: &Opened,
    ) -> Result<Option<TicketAnswer>, Refusal>
        requires moment { now.0 < NUMBER_END }
        requires room { IsRoomFor self.old.key request.now room }
        ensures tells { AsksFor K.Keeper keeper.old keeper.new (λ calls.
            TellsOf self.old now sa.now request.now calls result self.new) }
        ensures short { IfOk result (λ told. IfSome told IsShortTicket) }
        ensures named { IfOk result (λ told. IfSome told IsOfFirstKey) }
    {
        if !is_ticket_due(request) {
            return Ok(None);
        }
        match room {
            Some(room) => self.tell_due(keeper, room, now, sa),
            None => Ok(Some(TicketAnswer::Declined)),
        }
    }

    // The ticket that is due, or that there is none.
    fn tell_due<K: Keeper>(
        &mut self,
        keeper: &mut K,
        room: TicketRoom,
        now: Moment,
        sa: &Record,
    ) -> Result<Option<TicketAnswer>, Refusal>
        requires moment { now.0 < NUMBER_END }
        ensures tells { AsksFor K.Keeper keeper.old keeper.new (λ calls.
            TellsDue self.old now sa.now calls result self.new) }
        ensures short { IfOk result (λ told. IfSome told IsShortTicket) }
        ensures named { IfOk result (λ told. IfSome told IsOfFirstKey) }
    {
        let Some(key) = &self.key else {
            return Ok(Some(TicketAnswer::Declined));
        };
        match draw_pooled(keeper, Pool::Ticket, &mut self.numbers) {
            Ok(number) => {
                return Ok(Some(issue_in(room, key, self.lifetime, number, now, sa)));
            }
            Err(why) => return without_number(why),
        }
    }
}
