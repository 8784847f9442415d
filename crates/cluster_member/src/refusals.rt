ghost use Rattle.std.specs.Prelude.{◌≡◌, ◌≢◌, Some, None};
ghost use Rattle.turn_rules.specs.Draws.{refusal_of_import, refusal_of_stop, refusal_of_takeover};

use events::Refusal;
use horizons::Stop;
use keeper_book::KeeperFault;

/// The refusal that a stop is.
pub(crate) fn of_stop(stop: Stop) -> Refusal
    ensures { result ≡ refusal_of_stop stop }
{
    match stop {
        Stop::Keeper => Refusal::KeeperFault,
        Stop::Replaced(epoch) => Refusal::Replaced(epoch),
        Stop::Exhausted => Refusal::Exhausted,
        Stop::Closed => Refusal::Closed,
        Stop::Unknown => Refusal::Unknown,
    }
}

/// The refusal of a takeover that a keeper's answer is, but for want of memory.
pub(crate) fn of_takeover(fault: KeeperFault) -> Option<Refusal>
    ensures { result ≡ refusal_of_takeover fault }
{
    match fault {
        KeeperFault::Failed => Some(Refusal::KeeperFault),
        KeeperFault::Unknown => Some(Refusal::Unknown),
        KeeperFault::Closed => Some(Refusal::Closed),
        KeeperFault::Full(limit) => Some(Refusal::Full(limit)),
        _ => None,
    }
}

/// The refusal of an import that a keeper's answer is, but for want of memory.
pub fn of_import(fault: KeeperFault) -> Option<Refusal>
    ensures { result ≡ refusal_of_import fault }
{
    match fault {
        KeeperFault::Failed => Some(Refusal::KeeperFault),
        KeeperFault::SpiInUse => Some(Refusal::SpiInUse),
        KeeperFault::Full(limit) => Some(Refusal::Full(limit)),
        _ => None,
    }
}
