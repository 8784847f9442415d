//! A run over an event file that comes in pieces: each turn's text is written before the next line
//! is taken.

ghost use Rattle.std.specs.Prelude.{◌≡◌, []};
ghost use Rattle.std.specs.List.{AllByRecursion};
ghost use Rattle.call_ends.specs.Outside.{Stream, sink_told, streams_told};
ghost use Rattle.call_ends.specs.Writes.{Writes};
ghost use Rattle.run_lines.specs.Writes.{newest_text};
ghost use Rattle.call_ends.specs.Streaming.{Streams};
ghost use Rattle.keeper_book.specs.Gates.{told_calls};
ghost use Rattle.replay_world.specs.Going.{going};
ghost use Rattle.replay_world.specs.Handed.{handed, running};
ghost use Rattle.replay_world.specs.Worlds.{boxes_of};
ghost use Rattle.turn_laws.specs.Serving.{KeepServices};

use crate::world::World;
use call_ends::{Stop, put_end};
use event_text::{EventLines, Line, TakeFault};
use ha_base::{Service, Sink, Source};
use input_lines::InputFault;
use keeper_book::{Gate, Keeper};
use run_lines::{put_head, put_turn};
use std::alloc::Global;
use turn_laws::{
    all_is_owned, all_synchronisations_catch_up, covers_are_caught_up, no_number_past_its_end,
    own_turns_tell_states, replaced_by_later_epochs, runs_are_safe,
    synchronisations_leave_the_greater,
};

// Writes the text of the newest turn.
fn write_newest<O: Sink>(alloc: Global, world: &World, out: &mut O) -> Result<(), Stop>
    ensures { Writes result (newest_text world.now.ends.past) (sink_told O.Sink out.old)
        (sink_told O.Sink out.new) }
{
    match world.last() {
        Some(turn) => put_turn(alloc, world.turns(), world.datagrams(), turn, out),
        None => Ok(()),
    }
}

// Plays the lines of a file up to its end, or up to its first fault, which is answered.
fn play_lines<S: Source, O: Sink, K: Keeper>(
    alloc: Global,
    source: &mut S,
    out: &mut O,
    world: &mut World,
    keeper: &mut Gate<K>,
) -> Result<Option<InputFault>, Stop>
    requires told { told_calls keeper.old ≡ Some [] }
    requires begun { world.old.ends.past ≡ [] }
    requires kept { KeepServices count world.old.ends.boxes [] (boxes_of world.old) }
    ensures held { K.held keeper.new.keeper ≡ K.held keeper.old.keeper }
    ensures streams { (errors now_errors : Stream) → Streams
        (going K.Keeper count gives world.old.ends.boxes (boxes_of world.old)
        keeper.old.keeper keeper.new.keeper)
        (streams_told S.Source O.Sink source.old out.old errors)
        (streams_told S.Source O.Sink source.new out.new now_errors) result }
{
    let mut reader = EventLines::new(alloc)?;
    put_head(alloc, out)?;
    'lines: loop {
        match reader.next_line(alloc, source) {
            Ok(Line::End) => return put_end(alloc, world.turns(), None, out),
            Ok(Line::Passed) => {}
            Ok(Line::Said(moment, event)) => {
                world.turn(keeper, moment, event)?;
                write_newest(alloc, world, out)?;
            }
            Err(TakeFault::Input(fault)) => {
                return put_end(alloc, world.turns(), Some(fault), out);
            }
            Err(TakeFault::Memory) => return Err(Stop::Memory),
            Err(TakeFault::Source) => return Err(Stop::ReadFault),
        }
    }
}

// Plays a file in a run of its own, with these services.
fn play_run<S: Source, O: Sink, K: Keeper>(
    alloc: Global,
    source: &mut S,
    out: &mut O,
    keeper: &mut Gate<K>,
    peer_service: Box<dyn Service>,
    services: Vec<Box<dyn Service>>,
) -> Result<Option<InputFault>, Stop>
    requires told { told_calls keeper.old ≡ Some [] }
    requires peer { count peer_service ≡ 0 }
    requires services { AllByRecursion (λ service. count service ≡ 0) services.items }
    ensures held { K.held keeper.new.keeper ≡ K.held keeper.old.keeper }
    ensures streams { (errors now_errors : Stream) → Streams
        (running (handed K.Keeper keeper.old.keeper keeper.new.keeper gives peer_service services))
        (streams_told S.Source O.Sink source.old out.old errors)
        (streams_told S.Source O.Sink source.new out.new now_errors) result }
{
    all_is_owned();
    all_synchronisations_catch_up();
    covers_are_caught_up();
    no_number_past_its_end();
    own_turns_tell_states();
    replaced_by_later_epochs();
    runs_are_safe();
    synchronisations_leave_the_greater();
    let mut world = World::new(alloc, peer_service, services)?;
    play_lines(alloc, source, out, &mut world, keeper)
}

/// Plays a file with a keeper that is lent, up to its end or up to its first fault, which is
/// answered, and writes the report.
pub(crate) fn play_file<S: Source, O: Sink, K: Keeper>(
    alloc: Global,
    source: &mut S,
    out: &mut O,
    keeper: &mut K,
    peer_service: Box<dyn Service>,
    services: Vec<Box<dyn Service>>,
) -> Result<Option<InputFault>, Stop>
    requires peer { count peer_service ≡ 0 }
    requires services { AllByRecursion (λ service. count service ≡ 0) services.items }
    ensures held { K.held keeper.new ≡ K.held keeper.old }
    ensures streams { (errors now_errors : Stream) → Streams
        (running (handed K.Keeper keeper.old keeper.new gives peer_service services))
        (streams_told S.Source O.Sink source.old out.old errors)
        (streams_told S.Source O.Sink source.new out.new now_errors) result }
{
    let mut gate = Gate::new(keeper);
    let played = play_run(alloc, source, out, &mut gate, peer_service, services);
    // the gate hides the reference that it holds, so the loan ends here
    let _lent = gate.into_inner();
    played
}
