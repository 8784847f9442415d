//! The services that execute requests for members, each until its member ends.

ghost use Rattle.std.specs.Prelude.{◌≡◌, ℕ, map, Some, None, IfOk, MatchOption};
ghost use Rattle.replay_world.specs.Crashes.{services_after};
ghost use Rattle.replay_world.specs.Worlds.{IsServicePlace};
ghost use Rattle.turn_laws.specs.Serving.{member_box};
ghost use Rattle.turn_rules.specs.States.{ended_in};

use events::{Event, Turn, Verdict};
use ha_base::{Memory, Service};
use std::alloc::Global;

/// All services, of which none was dropped.
pub(crate) fn all_kept(
    alloc: Global,
    services: Vec<Box<dyn Service>>,
) -> Result<Vec<Option<Box<dyn Service>>>, Memory>
    ensures { IfOk result (λ kept. kept.items ≡ map Some services.items) }
{
    let mut kept = Vec::new(alloc);
    for service in services {
        if kept.push(Some(service)).is_err() {
            return Err(Memory);
        }
    }
    Ok(kept)
}

/// The member that ended in a turn, if one did.
pub(crate) fn ended_in(turn: &Turn) -> Option<u64>
    ensures { result ≡ ended_in turn.now }
{
    match (&turn.event, &turn.step.verdict) {
        (Event::Crash { member }, Verdict::Down) => Some(*member),
        _ => None,
    }
}

/// Drops the service of a member that ended.
pub(crate) fn drop_service(services: &mut Vec<Option<Box<dyn Service>>>, ended: Option<u64>)
    ensures { services.new.items ≡ services_after ended services.old.items }
{
    let Some(member) = ended else { return };
    if member > 0 && member <= services.len() as u64 {
        services[(member - 1) as usize] = None;
    }
}

/// Where the service of a member stands, if it is there.
pub(crate) fn place_of(
    services: &Vec<Option<Box<dyn Service>>>,
    member: Option<u64>,
) -> Option<usize>
    ensures { MatchOption result
        ((number : ℕ) → member ≡ Some number → member_box services.now.items number ≡ None)
        (IsServicePlace services.now.items member) }
{
    let Some(member) = member else { return None };
    if member == 0 || member > services.len() as u64 {
        return None;
    }
    let place = (member - 1) as usize;
    match services[place] {
        Some(_) => Some(place),
        None => None,
    }
}
