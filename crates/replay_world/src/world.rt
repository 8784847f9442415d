ghost use Rattle.std.specs.Prelude.{◌≡◌, ◌<◌, ◌⊎◌, ℕ, [], IfOk, OnOk, OnErr, Some, length, map, slice_get, vec_len};
ghost use Rattle.std.specs.Option.{option_copied};
ghost use Rattle.events.specs.Events.{plain};
ghost use Rattle.events.specs.Ranges.{Fits};
ghost use Rattle.keeper_book.specs.Gates.{told_calls};
ghost use Rattle.ha_base.specs.declared.limits.TheConstants.{NUMBER_END};
ghost use Rattle.ha_base.specs.declared.services.TheConstants.{MOST_REQUESTS};
ghost use Rattle.run_ends.specs.Asked.{AsksAsSeen, newest_calls};
ghost use Rattle.run_ends.specs.Runs.{CausedSince, Grows, LackMemory, StandsTold, served_last};
ghost use Rattle.turn_laws.specs.CaughtUp.{AllCatchUp, CoversAreCaughtUp, NoneInvented};
ghost use Rattle.turn_laws.specs.OwnTurns.{OwnTurnsTell};
ghost use Rattle.turn_laws.specs.Replaced.{AreReplacedLater};
ghost use Rattle.turn_laws.specs.Serving.{KeepServices, LentFor};
ghost use Rattle.turn_laws.specs.Synchronising.{LeavesGreater};
ghost use Rattle.turn_laws.specs.Turns.{AreBelowEnds};
ghost use Rattle.turn_rules.specs.Datagrams.{datagrams_of};
ghost use Rattle.turn_rules.specs.Fits.{named_in};
ghost use Rattle.turn_rules.specs.Local.{Local};
ghost use Rattle.turn_rules.specs.Safe.{Safe};
ghost use Rattle.replay_world.specs.Crashes.{ended_last};
ghost use Rattle.replay_world.specs.Owning.{OwnedTold};
ghost use Rattle.replay_world.specs.Worlds.{ServeNewest, boxes_of, lent_for, peer_service_of, run_of, services_of};

use crate::services::{all_kept, drop_service, ended_in, place_of};
use events::{Event, Turn};
use ha_base::{Memory, Moment, Service};
use keeper_book::{Gate, Keeper};
use run_ends::{Ends, named_in};
use std::alloc::Global;
use turn_laws::{
    all_is_owned, all_synchronisations_catch_up, covers_are_caught_up, no_number_past_its_end,
    own_turns_tell_states, replaced_by_later_epochs, runs_are_safe,
    synchronisations_leave_the_greater,
};

/// A run: the ends and what they did, and the services that execute requests for them.
#[derive(Drop)]
pub struct World {
    ends: Ends,
    peer_service: Box<dyn Service>,
    // the member that joined as the n-th has the n-th of these, until it ends
    services: Vec<Option<Box<dyn Service>>>,
}

impl World {
    /// A run in which nothing has happened. The peer and each member that joins has a service of
    /// its own, the members in the order of `services`. An error is want of memory.
    pub fn new(
        alloc: Global,
        peer_service: Box<dyn Service>,
        services: Vec<Box<dyn Service>>,
    ) -> Result<World, Memory>
        ensures ends { IfOk result (λ world. run_of world
            ≡ record { boxes = vec_len services; past = [] }) }
        ensures peer_service { IfOk result (λ world. peer_service_of world ≡ peer_service) }
        ensures services { IfOk result (λ world. services_of world ≡ map Some services.items) }
    {
        let ends = Ends::new(alloc, services.len());
        let services = all_kept(alloc, services)?;
        Ok(World {
            ends,
            peer_service,
            services,
        })
    }

    /// Plays an event at a moment, both such as a line spells: the ends act, and one turn is appended
    /// to the trace. The service of the end that acts executes what the turn says, each other one
    /// is as it was, and a member that ends drops its own. An error is want of memory; the run and
    /// the keeper's book are then as they were, and the keeper was asked only where it lacked the
    /// memory itself. The clauses on whole runs are the laws of `turn_laws` that the body names; its
    /// other laws on whole runs hold by `local` and `stands`.
    ///
    /// What a world keeps of its services is asked for as a clause, since no invariant of a type
    /// speaks of what is behind a box.
    pub fn turn<K: Keeper>(
        &mut self,
        keeper: &mut Gate<K>,
        now: Moment,
        event: Event,
    ) -> Result<(), Memory>
        requires told { told_calls keeper.old ≡ Some [] }
        requires moment { now.0 < NUMBER_END }
        requires fits { Fits (plain event) }
        requires few { length (run_of self.old).past < MOST_REQUESTS }
        requires kept { KeepServices count (run_of self.old).boxes (run_of self.old).past
            (boxes_of self.old) }
        ensures grows { OnOk result (Grows (run_of self.old) now event (run_of self.new)) }
        ensures local { Local (run_of self.new).boxes (run_of self.new).past }
        ensures own_turns { OwnTurnsTell (run_of self.new).boxes (run_of self.new).past }
        ensures below_ends { AreBelowEnds (run_of self.new).past }
        ensures synchronised { LeavesGreater (run_of self.new).past }
        ensures covers { NoneInvented (run_of self.new).past
            → CoversAreCaughtUp (run_of self.new).past }
        ensures stands { StandsTold (run_of self.old).past (K.book keeper.old.keeper)
            → OnOk result (StandsTold (run_of self.new).past (K.book keeper.new.keeper)) }
        ensures owned_before { StandsTold (run_of self.old).past (K.book keeper.old.keeper)
            → OwnedTold (run_of self.old).past (K.book keeper.old.keeper) }
        ensures owned { StandsTold (run_of self.old).past (K.book keeper.old.keeper)
            → OnOk result (OwnedTold (run_of self.new).past (K.book keeper.new.keeper)) }
        ensures safe { StandsTold (run_of self.old).past (K.book keeper.old.keeper)
            → OnOk result (Safe (run_of self.new).past) }
        ensures replaced_later { StandsTold (run_of self.old).past (K.book keeper.old.keeper)
            → OnOk result (AreReplacedLater (run_of self.new).past) }
        ensures catch_up { StandsTold (run_of self.old).past (K.book keeper.old.keeper)
            → OnOk result (NoneInvented (run_of self.new).past
            → AllCatchUp (run_of self.new).past) }
        ensures caused { (start : ℕ) → CausedSince start (K.faults keeper.old.keeper)
            (run_of self.old).past
            → OnOk result (CausedSince start (K.faults keeper.new.keeper) (run_of self.new).past) }
        ensures asks { OnOk result (AsksAsSeen K.Keeper keeper.old.keeper
            (newest_calls (run_of self.new).past) keeper.new.keeper) }
        ensures told { OnOk result (told_calls keeper.new ≡ Some []) }
        ensures err { OnErr result (self.new ≡ self.old) }
        ensures keeps_book { OnErr result (K.book keeper.new.keeper ≡ K.book keeper.old.keeper) }
        ensures in_vain { OnErr result ((keeper.new ≡ keeper.old) ⊎ LackMemory keeper.new.first) }
        ensures serve { OnOk result (ServeNewest count last gives (run_of self.new).past
            (boxes_of self.old) (boxes_of self.new)) }
        ensures kept { KeepServices count (run_of self.new).boxes (run_of self.new).past
            (boxes_of self.new) }
        ensures held { K.held keeper.new.keeper ≡ K.held keeper.old.keeper }
    {
        all_is_owned();
        all_synchronisations_catch_up();
        covers_are_caught_up();
        no_number_past_its_end();
        own_turns_tell_states();
        replaced_by_later_epochs();
        runs_are_safe();
        synchronisations_leave_the_greater();
        self.play(keeper, now, event)?;
        let ended = self.last_ended();
        drop_service(&mut self.services, ended);
        Ok(())
    }

    // Plays an event with the service of the member that it names, where that is there, and else
    // with the peer's.
    fn play<K: Keeper>(
        &mut self,
        keeper: &mut Gate<K>,
        now: Moment,
        event: Event,
    ) -> Result<(), Memory>
        requires told { told_calls keeper.old ≡ Some [] }
        requires moment { now.0 < NUMBER_END }
        requires fits { Fits (plain event) }
        requires few { length (run_of self.old).past < MOST_REQUESTS }
        requires kept { KeepServices count (run_of self.old).boxes (run_of self.old).past
            (boxes_of self.old) }
        ensures grows { OnOk result (Grows (run_of self.old) now event (run_of self.new)) }
        ensures local { Local (run_of self.new).boxes (run_of self.new).past }
        ensures stands { StandsTold (run_of self.old).past (K.book keeper.old.keeper)
            → OnOk result (StandsTold (run_of self.new).past (K.book keeper.new.keeper)) }
        ensures caused { (start : ℕ) → CausedSince start (K.faults keeper.old.keeper)
            (run_of self.old).past
            → OnOk result (CausedSince start (K.faults keeper.new.keeper) (run_of self.new).past) }
        ensures asks { OnOk result (AsksAsSeen K.Keeper keeper.old.keeper
            (newest_calls (run_of self.new).past) keeper.new.keeper) }
        ensures told { OnOk result (told_calls keeper.new ≡ Some []) }
        ensures err { OnErr result (self.new ≡ self.old) }
        ensures keeps_book { OnErr result (K.book keeper.new.keeper ≡ K.book keeper.old.keeper) }
        ensures in_vain { OnErr result ((keeper.new ≡ keeper.old) ⊎ LackMemory keeper.new.first) }
        ensures lends { OnOk result (LentFor count last gives
            (lent_for (boxes_of self.old) (named_in event)) (served_last (run_of self.new).past)
            (boxes_of self.old) (boxes_of self.new)) }
        ensures held { K.held keeper.new.keeper ≡ K.held keeper.old.keeper }
    {
        let place = place_of(&self.services, named_in(&event));
        let Some(place) = place else {
            return self.ends.turn(keeper, &mut self.peer_service, now, event);
        };
        match &mut self.services[place] {
            Some(service) => self.ends.turn(keeper, service, now, event),
            None => unreachable!(),
        }
    }

    // The member that ended in the newest turn, if one did.
    fn last_ended(&self) -> Option<u64>
        ensures { result ≡ ended_last (run_of self.now).past }
    {
        match self.ends.last() {
            Some(turn) => ended_in(turn),
            None => None,
        }
    }

    /// The newest turn, where there is one.
    pub fn last(&self) -> Option<&Turn>
        ensures { option_copied result ≡ slice_get (run_of self.now).past 0 }
    {
        self.ends.last()
    }

    /// How many datagrams were given.
    pub fn datagrams(&self) -> u64
        ensures { result ≡ length (datagrams_of (run_of self.now).past) }
    {
        self.ends.datagrams()
    }

    /// How many turns there are.
    pub fn turns(&self) -> u64
        ensures { result ≡ length (run_of self.now).past }
    {
        self.ends.turns()
    }
}
