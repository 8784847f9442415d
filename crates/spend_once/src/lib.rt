//! Numbers that are used once.
//!
//! A [`Lot`] holds the numbers of one counter that its owner may use. Each [`Number`] that is drawn
//! from it is a value that can be neither copied nor dropped: it has to be given to a call that
//! seals with it, or to [`Number::burn`]. So a program that would use one drawn number twice, or
//! forget it, does not compile.
//!
//! That no two lots give the same number of a counter is for their owners to keep: two can be made
//! of one range. AES-GCM needs it where the numbers are initialization vectors, since each is to be
//! used once under a key (RFC 5282, section 3.1; SP 800-38D, section 8).
//!
//! No call takes memory.
#![tactic(auto)]

ghost use Rattle.std.specs.Prelude.{◌≡◌, ◌+◌, ◌<◌, ◌≤◌, ◌↔◌, max, IsSome, IfSome, OnSome, IsNone, IfNone};

pub use ha_base::{CounterName, Derivation, End, Kind, Origin};
use std::marker::Model;

/// The numbers of one counter that can still be drawn: from `next` on, below `end`.
///
/// A lot may be dropped. The numbers that are left in it are then never drawn.
#[derive(Debug, Drop)]
pub struct Lot {
    name: CounterName,
    next: u64,
    end: u64,
}

impl Model for Lot {
    ghost use Rattle.std.specs.Prelude.{◌≤◌};
    ghost use Rattle.spend_once.specs.Lot.{Remaining};

    ghost Value = { Remaining };

    ghost view = { λ lot. record { name = lot.name; next = lot.next; end = lot.end } };

    ghost invariant = { λ lot. lot.next ≤ lot.end };
}

impl Lot {
    /// The numbers of the counter `name` from `next` on, below `end`.
    pub fn new(name: CounterName, next: u64, end: u64) -> Lot
        requires { next ≤ end }
        ensures { result ≡ record { name = name; next = next; end = end } }
    {
        Lot { name, next, end }
    }

    /// The counter that the numbers are of.
    pub fn name(&self) -> CounterName
        ensures { result ≡ self.now.name }
    {
        self.name
    }

    /// The number that the next draw gives, where it is below the end.
    pub fn next(&self) -> u64
        ensures value { result ≡ self.now.next }
        ensures ordered { self.now.next ≤ self.now.end }
    {
        self.next
    }

    /// The end of the lot, which is never drawn.
    pub fn end(&self) -> u64
        ensures value { result ≡ self.now.end }
        ensures ordered { self.now.next ≤ self.now.end }
    {
        self.end
    }

    /// Takes the next number out of the lot, or `None` where the lot is at its end.
    pub fn draw(&mut self) -> Option<Number>
        ensures some { IsSome result ↔ (self.old.next < self.old.end) }
        ensures none { IsNone result ↔ (self.old.next ≡ self.old.end) }

        // The numbers come in order, each once.
        ensures number { IfSome result (λ number. number
            ≡ record { name = self.old.name; value = self.old.next }) }
        ensures rises { OnSome result (self.new ≡ record self.old { next = self.old.next + 1 }) }
        ensures unchanged { IfNone result (self.new ≡ self.old) }
    {
        if self.next == self.end {
            return None;
        }
        let value = self.next;
        self.next += 1;
        Some(Number {
            name: self.name,
            value,
        })
    }

    /// Moves the end of the lot up to `to`.
    pub fn extend(&mut self, to: u64)
        requires { self.old.end ≤ to }
        ensures { self.new ≡ record self.old { end = to } }
    {
        self.end = to;
    }

    /// Gives up the numbers below `to`, which are then never drawn, and moves the end up to `to`
    /// where it is lower.
    pub fn skip(&mut self, to: u64)
        requires { self.old.next ≤ to }
        ensures { self.new ≡ record self.old { next = to; end = max self.old.end to } }
    {
        self.next = to;
        self.end = self.end.max(to);
    }
}

/// A number of a counter, which was drawn from a lot and has not been used.
///
/// It cannot be copied or dropped: a call that seals takes it, or [`Number::burn`].
#[derive(Debug)]
pub struct Number {
    name: CounterName,
    value: u64,
}

impl Model for Number {
    ghost use Rattle.spend_once.specs.Lot.{Drawn};

    ghost Value = { Drawn };

    ghost view = { λ number. record { name = number.name; value = number.value } };
}

impl Number {
    /// The counter that the number is of.
    pub fn name(&self) -> CounterName
        ensures { result ≡ self.now.name }
    {
        self.name
    }

    /// The number itself.
    pub fn value(&self) -> u64
        ensures { result ≡ self.now.value }
    {
        self.value
    }

    /// Gives the number up.
    pub fn burn(self) {
        let Number { name: _, value: _ } = self;
    }
}
