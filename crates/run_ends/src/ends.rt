ghost use Rattle.std.specs.Prelude.{◌≡◌, ◌<◌, ◌⊎◌, ℕ, Some, [], OnOk, OnErr, length, slice_get};
ghost use Rattle.std.specs.Option.{option_copied};
ghost use Rattle.turn_rules.specs.Local.{Local};
ghost use Rattle.events.specs.Events.{plain};
ghost use Rattle.events.specs.Ranges.{Fits};
ghost use Rattle.turn_rules.specs.Datagrams.{datagrams_of};
ghost use Rattle.turn_rules.specs.Services.{Serves};
ghost use Rattle.ha_base.specs.declared.limits.TheConstants.{NUMBER_END};
ghost use Rattle.ha_base.specs.declared.services.TheConstants.{MOST_REQUESTS};
ghost use Rattle.keeper_book.specs.Gates.{told_calls};
ghost use Rattle.run_ends.specs.Asked.{AsksAsSeen, newest_calls};
ghost use Rattle.run_ends.specs.Runs.{CausedSince, Grows, LackMemory, StandsTold, served_last};

use crate::parties::Parties;
use events::{Event, Turn};
use ha_base::{Memory, Moment, Service};
use keeper_book::{Gate, Keeper};
use std::alloc::Global;
use std::marker::Model;
use turn_trace::Trace;

/// The members of a cluster, the peer, and what they did.
#[derive(Drop)]
pub struct Ends {
    parties: Parties,
    trace: Trace,
}

impl Model for Ends {
    ghost use Rattle.run_ends.specs.Parties.{AreKept};
    ghost use Rattle.run_ends.specs.Runs.{Run};

    ghost Value = { Run };

    ghost view = { λ e. record { boxes = e.parties.boxes; past = e.trace.past } };

    ghost invariant = { λ e. AreKept e.trace.past e.parties };
}

impl Ends {
    /// Ends that have done nothing, and services for as many members as `boxes` says.
    pub fn new(alloc: Global, boxes: usize) -> Ends
        ensures { result ≡ record { boxes = boxes; past = [] } }
    {
        Ends {
            parties: Parties::new(alloc, boxes),
            trace: Trace::new(alloc),
        }
    }

    /// Plays an event at a moment: the ends act, and one turn is appended. The service is that of
    /// the end that acts, and executes what the turn says and nothing else. An error is want of
    /// memory; there is no new turn then, nothing was executed, the keeper's book is as it was, and
    /// the keeper was asked only where it lacked the memory itself.
    pub fn turn<K: Keeper>(
        &mut self,
        keeper: &mut Gate<K>,
        service: &mut Box<dyn Service>,
        now: Moment,
        event: Event,
    ) -> Result<(), Memory>
        requires told { told_calls keeper.old ≡ Some [] }
        requires moment { now.0 < NUMBER_END }
        requires fits { Fits (plain event) }
        requires room { count service.old < MOST_REQUESTS }
        ensures grows { OnOk result (Grows self.old now event self.new) }
        ensures local { Local self.new.boxes self.new.past }
        ensures stands { StandsTold self.old.past (K.book keeper.old.keeper)
            → OnOk result (StandsTold self.new.past (K.book keeper.new.keeper)) }
        ensures caused { (start : ℕ) → CausedSince start (K.faults keeper.old.keeper) self.old.past
            → OnOk result (CausedSince start (K.faults keeper.new.keeper) self.new.past) }
        ensures asks { OnOk result (AsksAsSeen K.Keeper keeper.old.keeper
            (newest_calls self.new.past) keeper.new.keeper) }
        ensures told { OnOk result (told_calls keeper.new ≡ Some []) }
        ensures serves { OnOk result (Serves count last gives service.old
            (served_last self.new.past) service.new) }
        ensures err { OnErr result (self.new ≡ self.old) }
        ensures unserved { OnErr result (service.new ≡ service.old) }
        ensures keeps_book { OnErr result (K.book keeper.new.keeper ≡ K.book keeper.old.keeper) }
        ensures in_vain { OnErr result ((keeper.new ≡ keeper.old) ⊎ LackMemory keeper.new.first) }
        ensures held { K.held keeper.new.keeper ≡ K.held keeper.old.keeper }
    {
        self.trace.reserve()?;
        let step = self
            .parties
            .play(keeper, service, now, &self.trace, &event)?;
        let calls = keeper.take_calls();
        self.trace.push(Turn {
            moment: now,
            event,
            calls,
            step,
        });
        Ok(())
    }

    /// The newest turn, where there is one.
    pub fn last(&self) -> Option<&Turn>
        ensures { option_copied result ≡ slice_get self.now.past 0 }
    {
        self.trace.last()
    }

    /// How many datagrams were given.
    pub fn datagrams(&self) -> u64
        ensures { result ≡ length (datagrams_of self.now.past) }
    {
        self.trace.datagrams() as u64
    }

    /// How many turns there are.
    pub fn turns(&self) -> u64
        ensures { result ≡ length self.now.past }
    {
        self.trace.turns()
    }
}
