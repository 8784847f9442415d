//! The turns of a run.

ghost use Rattle.std.specs.Prelude.{◌≡◌, [], ◌∷◌, OnOk, false, length, reverse, slice_get, true};
ghost use Rattle.std.specs.Option.{option_and_then, option_copied, option_map};
ghost use Rattle.turn_rules.specs.Datagrams.{datagram_at, datagrams_of, plain_datagram};
ghost use Rattle.turn_trace.specs.Traces.{place_meant};

use crate::kept_turn::KeptTurn;
use events::{Datagram, Seal, Turn, Which};
use ha_base::Memory;
use keeper_book::Call;
use std::alloc::Global;
use std::marker::Model;
use std::mem;

/// The turns of a run, in order. Those before the newest are kept small.
#[derive(Drop)]
pub struct Trace {
    alloc: Global,
    earlier: Vec<KeptTurn>,
    newest: Option<Turn>,
    /// Room for the calls and the seals of the newest turn, when it is no more the newest.
    calls_room: Vec<Call>,
    seals_room: Vec<Seal>,
    /// Where the turns stand that gave a datagram.
    given: Vec<usize>,
}

impl Model for Trace {
    ghost use Rattle.std.specs.Prelude.{◌+◌, ◌&&◌, length, nat_le, nat_lt};
    ghost use Rattle.turn_trace.specs.Traces.{Traced, AreTraced, calls_in, past_of, seals_of};

    ghost Value = { Traced };

    ghost view = { λ t. record {
      past = past_of t.earlier.items t.newest;
      ready = nat_lt t.earlier.len t.earlier.cap && nat_lt t.given.len t.given.cap
          && nat_le (t.calls_room.len + length (calls_in t.newest)) t.calls_room.cap
          && nat_le (t.seals_room.len + length (seals_of t.newest)) t.seals_room.cap;
    } };

    ghost invariant = { λ t. AreTraced t.given.items t.calls_room.items t.seals_room.items t.earlier.items t.newest };
}

impl Trace {
    /// No turn.
    pub fn new(alloc: Global) -> Trace
        ensures { result ≡ record { past = []; ready = false } }
    {
        Trace {
            alloc,
            earlier: Vec::new(alloc),
            newest: None,
            calls_room: Vec::new(alloc),
            seals_room: Vec::new(alloc),
            given: Vec::new(alloc),
        }
    }

    /// Makes room for one more turn. An error is want of memory.
    pub fn reserve(&mut self) -> Result<(), Memory>
        ensures past { self.new.past ≡ self.old.past }
        ensures ready { OnOk result (self.new.ready ≡ true) }
    {
        let (calls, seals) = match &self.newest {
            Some(turn) => (turn.calls.len(), turn.step.seals.len()),
            None => (0, 0),
        };
        let Ok(calls_room) = Vec::with_capacity(self.alloc, calls) else {
            return Err(Memory);
        };
        let Ok(seals_room) = Vec::with_capacity(self.alloc, seals) else {
            return Err(Memory);
        };
        if self.earlier.reserve(1).is_err() || self.given.reserve(1).is_err() {
            return Err(Memory);
        }
        self.calls_room = calls_room;
        self.seals_room = seals_room;
        Ok(())
    }

    /// Appends a turn, for which there is room.
    pub fn push(&mut self, turn: Turn)
        requires { self.old.ready ≡ true }
        ensures { self.new.past ≡ turn ∷ self.old.past }
    {
        if turn.step.gives.is_some() {
            let place = self.turns() as usize;
            self.given.push_reserved(place);
        }
        if let Some(earlier) = self.newest.replace(turn) {
            let calls_room = mem::replace(&mut self.calls_room, Vec::new(self.alloc));
            let seals_room = mem::replace(&mut self.seals_room, Vec::new(self.alloc));
            let kept = KeptTurn::new(earlier, calls_room, seals_room);
            self.earlier.push_reserved(kept);
        }
    }

    /// The newest turn, where there is one.
    pub fn last(&self) -> Option<&Turn>
        ensures { option_copied result ≡ slice_get self.now.past 0 }
    {
        self.newest.as_ref()
    }

    /// How many turns there are.
    pub fn turns(&self) -> u64
        ensures { result ≡ length self.now.past }
    {
        self.earlier.len() as u64 + u64::from(self.newest.is_some())
    }

    /// How many datagrams were given.
    pub fn datagrams(&self) -> usize
        ensures { result ≡ length (datagrams_of self.now.past) }
    {
        self.given.len()
    }

    /// The datagram that is meant, where there is one.
    pub fn datagram(&self, which: Which) -> Option<&Datagram>
        ensures { option_map plain_datagram (option_copied result)
            ≡ datagram_at which (datagrams_of self.now.past) }
    {
        let place = place_meant(self.given.as_slice(), which)?;
        self.given_at(place)
    }

    /// What the turn at this place gave.
    fn given_at(&self, place: usize) -> Option<&Datagram>
        ensures { option_copied result ≡ option_and_then (λ turn. turn.step.gives)
            (slice_get (reverse self.now.past) place) }
    {
        if place == self.earlier.len() {
            return self.newest.as_ref()?.step.gives.as_ref();
        }
        self.earlier.get(place)?.gives()
    }
}

/// Where the turn stands that gave the datagram that is meant.
fn place_meant(given: &[usize], which: Which) -> Option<usize>
    ensures { result ≡ place_meant which given.now }
{
    match which {
        Which::Number(0) => None,
        Which::Number(number) => given.get(number as usize - 1).copied(),
        Which::Last => given.last().copied(),
    }
}
