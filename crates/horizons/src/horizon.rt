ghost use Rattle.std.specs.Prelude.{◌≡◌, ◌+◌, ◌≤◌, ◌<◌, max, Some, ◌↔◌, IfOk, IfSome, IfNone, IsSome, OnSome};
ghost use Rattle.horizons.specs.Reaches.{IsInRange, IsSameCounter, lead_of};
ghost use Rattle.horizons.specs.Ready.{Readies, ReadiesNext, next_number};
ghost use Rattle.keeper_book.specs.Counters.{counter_of_kind, extended_end};
ghost use Rattle.keeper_book.specs.Asks.{AsksFor};

use crate::stop::Stop;
use keeper_book::{Counter, Keeper};
use spend_once::{CounterName, Lot, Number};
use std::marker::Model;

/// A counter of an association in an epoch.
#[derive(Drop)]
pub struct Horizon {
    counter: Counter,
    spir: u64,
    epoch: u64,
    base: u64,
    high: u64,
    end: u64,
    lot: Lot,
}

impl Model for Horizon {
    ghost use Rattle.horizons.specs.Inside.{IsWell};
    ghost use Rattle.horizons.specs.Reaches.{Reach};

    ghost Value = { Reach };

    ghost view = { λ h. record {
      name = h.lot.name;
      counter = h.counter;
      spir = h.spir;
      epoch = h.epoch;
      base = h.base;
      next = h.lot.next;
      high = h.high;
      end = h.end;
    } };

    ghost invariant = { λ h. IsWell h.counter h.base h.high h.end h.lot };
}

/// How many numbers a cover asks for at once: 1,024 of ESP, 64 IVs, 16 Message IDs.
fn lead(counter: Counter) -> u64
    ensures { result ≡ lead_of counter }
{
    match counter {
        Counter::EspOut | Counter::EspIn => 1024,
        Counter::Iv => 64,
        Counter::Ask | Counter::Answer => 16,
    }
}

impl Horizon {
    /// The beginning of an epoch: the counter goes on at the base, and numbers below the high are
    /// acknowledged. Sequence numbers are extended.
    pub fn begin(name: CounterName, spir: u64, epoch: u64, base: u64, high: u64) -> Horizon
        requires named { IsSome (counter_of_kind name.kind) }
        requires from_base { base ≤ high }
        requires within { IfSome (counter_of_kind name.kind) (λ c. high ≤ extended_end c) }
        ensures name { result.name ≡ name }
        ensures counter { counter_of_kind name.kind ≡ Some result.counter }
        ensures spir { result.spir ≡ spir }
        ensures epoch { result.epoch ≡ epoch }
        ensures base { result.base ≡ base }
        ensures next { result.next ≡ base }
        ensures high { result.high ≡ high }
        ensures end { result.end ≡ extended_end result.counter }
    {
        match Counter::of_kind(name.kind) {
            Some(counter) => Horizon {
                counter,
                spir,
                epoch,
                base,
                high,
                end: counter.extended_end(),
                lot: Lot::new(name, base, high),
            },
            None => unreachable!(),
        }
    }

    /// The number that is used next.
    pub fn next(&self) -> u64
        ensures value { result ≡ self.now.next }
        ensures range { IsInRange self.now }
    {
        self.lot.next()
    }

    /// Where the epoch began.
    pub fn base(&self) -> u64
        ensures { result ≡ self.now.base }
    {
        self.base
    }

    /// The high: the keeper acknowledged all numbers below it.
    pub fn high(&self) -> u64
        ensures { result ≡ self.now.high }
    {
        self.high
    }

    // a number from the base on
    fn cover_to<K: Keeper>(&mut self, keeper: &mut K, at: u64) -> Result<(), Stop>
        requires { self.old.base ≤ at }
        ensures calls { AsksFor K.Keeper keeper.old keeper.new
            (λ calls. Readies self.old at calls result self.new) }
        ensures same { IsSameCounter self.old self.new }
    {
        if at < self.high {
            return Ok(());
        }
        if at >= self.end {
            return Err(Stop::Exhausted);
        }
        let upto = at.saturating_add(lead(self.counter)).min(self.end);
        let CounterName { kind, child, .. } = self.lot.name();
        match keeper.cover(self.spir, kind, child, self.epoch, upto) {
            Ok(()) => {
                self.high = upto;
                self.lot.extend(upto.max(self.lot.next()));
                Ok(())
            }
            Err(fault) => Err(Stop::of_cover(fault)),
        }
    }

    /// Makes a number ready to be used: nothing is asked where it lies below the high, and one
    /// cover elsewhere. After an error nothing has changed. `Exhausted` comes exactly where the
    /// number is at or above the high and the counter's end; the other errors as the keeper
    /// answered.
    pub fn ready<K: Keeper>(&mut self, keeper: &mut K, at: u64) -> Result<(), Stop>
        requires { self.old.next ≤ at }
        ensures calls { AsksFor K.Keeper keeper.old keeper.new
            (λ calls. Readies self.old at calls result self.new) }
        ensures same { IsSameCounter self.old self.new }
    {
        prove!(self.base <= at);
        self.cover_to(keeper, at)
    }

    /// Gives the next number where it lies below the high. Else nothing changes.
    pub fn draw(&mut self) -> Option<Number>
        ensures given { IsSome result ↔ (self.old.next < self.old.high) }
        ensures number { IfSome result (λ number. number ≡ next_number self.old) }
        ensures after { OnSome result (self.new ≡ record self.old { next = self.old.next + 1 }) }
        ensures unchanged { IfNone result (self.new ≡ self.old) }
    {
        if self.lot.next() < self.high {
            self.lot.draw()
        } else {
            None
        }
    }

    /// Gives the next number, once it is ready. The errors are those of `ready`, and nothing has
    /// changed then.
    pub fn send_number<K: Keeper>(&mut self, keeper: &mut K) -> Result<Number, Stop>
        ensures calls { AsksFor K.Keeper keeper.old keeper.new
            (λ calls. ReadiesNext self.old calls result self.new) }
        ensures number { IfOk result (λ number. number ≡ next_number self.old) }
        ensures below { IfOk result (λ number. number.value < self.new.high) }
        ensures same { IsSameCounter self.old self.new }
    {
        let next = self.next();
        self.ready(keeper, next)?;
        match self.draw() {
            Some(number) => Ok(number),
            None => unreachable!(),
        }
    }

    /// Makes a received number ready to be taken, as `ready` does. It may lie below the next one.
    pub fn admit<K: Keeper>(&mut self, keeper: &mut K, n: u64) -> Result<(), Stop>
        requires { self.old.base ≤ n }
        ensures calls { AsksFor K.Keeper keeper.old keeper.new
            (λ calls. Readies self.old n calls result self.new) }
        ensures same { IsSameCounter self.old self.new }
    {
        self.cover_to(keeper, n)
    }

    /// Gives up the numbers below `to`. No keeper is asked.
    pub fn jump(&mut self, to: u64)
        requires { to ≤ self.old.end }
        ensures { self.new ≡ record self.old { next = max self.old.next to } }
    {
        if self.lot.next() < to {
            self.lot.skip(to);
        }
    }
}
