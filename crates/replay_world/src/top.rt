//! The top call, which is the whole program but for what standard input and output are.

ghost use Rattle.std.specs.Prelude.{◌≡◌, ◌≢◌, Some};
ghost use Rattle.std.specs.List.{AllByRecursion};
ghost use Rattle.call_ends.specs.Endings.{Ends};
ghost use Rattle.call_ends.specs.Streaming.{streaming};
ghost use Rattle.call_ends.specs.Outside.{outside};
ghost use Rattle.replay_world.specs.Commands.{command_of, command_named};
ghost use Rattle.replay_world.specs.Handed.{handed};
ghost use Rattle.replay_world.specs.Replays.{Replays, job_of};
ghost use Rattle.replay_world.specs.declared.top.Command.TheVariants.{Run};
ghost use Rattle.show_messages.specs.Showing.{showing};

use crate::play::play_file;
pub use call_ends::Status;
use call_ends::say_end;
use ha_base::{Failed, Service, Sink, Source, write_all};
use keeper_book::Keeper;
use show_messages::show;
use std::alloc::Global;

/// What the words of a command line ask for.
#[derive(Clone, Copy, Debug, PartialEq, Eq)]
pub enum Command {
    /// Plays an event file, and writes its report.
    Run,
    /// Writes the text of messages.
    Show,
}

fn named_by(word: &str) -> Option<Command>
    ensures { result ≡ command_named word.now }
{
    match word {
        "run" => Some(Command::Run),
        "show" => Some(Command::Show),
        _ => None,
    }
}

fn command_of(words: &Vec<String>) -> Option<Command>
    ensures { result ≡ command_of words.now.items }
{
    match words.as_slice() {
        [word] => named_by(word.as_str()),
        _ => None,
    }
}

// Plays an event file, line by line, and writes the report turn by turn.
fn run_command<S: Source, O: Sink, D: Sink, K: Keeper>(
    alloc: Global,
    source: &mut S,
    out: &mut O,
    diag: &mut D,
    keeper: &mut K,
    peer_service: Box<dyn Service>,
    services: Vec<Box<dyn Service>>,
) -> Status
    requires peer { count peer_service ≡ 0 }
    requires services { AllByRecursion (λ service. count service ≡ 0) services.items }
    ensures ends { Ends
        (job_of (handed K.Keeper keeper.old keeper.new gives peer_service services) Run)
        (outside S.Source O.Sink D.Sink source.old out.old diag.old)
        (outside S.Source O.Sink D.Sink source.new out.new diag.new) result }
    ensures quiet { result ≡ Status.Done → diag.new ≡ diag.old }
    ensures held { K.held keeper.new ≡ K.held keeper.old }
{
    let played = play_file(alloc, source, out, keeper, peer_service, services);
    say_end(alloc, diag, played)
}

// Reads messages, line by line, and writes the text of each.
fn show_command<S: Source, O: Sink, D: Sink>(
    alloc: Global,
    source: &mut S,
    out: &mut O,
    diag: &mut D,
) -> Status
    ensures ends { Ends (streaming showing)
        (outside S.Source O.Sink D.Sink source.old out.old diag.old)
        (outside S.Source O.Sink D.Sink source.new out.new diag.new) result }
    ensures quiet { result ≡ Status.Done → diag.new ≡ diag.old }
{
    let shown = show(alloc, source, out);
    say_end(alloc, diag, shown)
}

/// Does what the words say. `run` reads an event file and writes its report; `show` reads messages,
/// one a line in hexadecimal, and writes their text. What is to be said besides goes to `diag`. The
/// answer is how the call ends.
pub fn replay<S: Source, O: Sink, D: Sink, K: Keeper>(
    alloc: Global,
    words: &Vec<String>,
    source: &mut S,
    out: &mut O,
    diag: &mut D,
    keeper: &mut K,
    peer_service: Box<dyn Service>,
    services: Vec<Box<dyn Service>>,
) -> Status
    requires peer { count peer_service ≡ 0 }
    requires services { AllByRecursion (λ service. count service ≡ 0) services.items }
    ensures ends { Replays (command_of words.now.items)
        (handed K.Keeper keeper.old keeper.new gives peer_service services)
        (outside S.Source O.Sink D.Sink source.old out.old diag.old)
        (outside S.Source O.Sink D.Sink source.new out.new diag.new) result }
    ensures quiet { result ≡ Status.Done → diag.new ≡ diag.old }
    ensures unasked { command_of words.now.items ≢ Some Run → keeper.new ≡ keeper.old }
    ensures held { K.held keeper.new ≡ K.held keeper.old }
{
    match command_of(words) {
        None => match write_all(diag, b"ha: usage: run | show\n") {
            Ok(()) => Status::Words,
            Err(Failed) => Status::WriteFault,
        },
        Some(Command::Run) => run_command(alloc, source, out, diag, keeper, peer_service, services),
        Some(Command::Show) => show_command(alloc, source, out, diag),
    }
}
