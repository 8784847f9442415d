ghost use Rattle.std.specs.Prelude.{◌≡◌, ◌≢◌, Some, None};
ghost use Rattle.horizons.specs.Stops.{stop_of};

use keeper_book::KeeperFault;

/// Why a number may not be used.
#[derive(Clone, Copy, Debug, PartialEq, Eq)]
pub enum Stop {
    /// The keeper's call failed.
    Keeper,
    /// Another epoch of the association has begun: the epoch in the book.
    Replaced(u64),
    /// The number is at the counter's end.
    Exhausted,
    /// The association is closed.
    Closed,
    /// The keeper knows no such association, or no such counter.
    Unknown,
}

impl Stop {
    /// The stop of a keeper's refusal, where a cover has it.
    pub(crate) fn of_cover(fault: KeeperFault) -> Stop
        requires { stop_of fault ≢ None }
        ensures { stop_of fault ≡ Some result }
    {
        match fault {
            KeeperFault::Failed => Stop::Keeper,
            KeeperFault::Replaced(epoch) => Stop::Replaced(epoch),
            KeeperFault::Closed => Stop::Closed,
            KeeperFault::Unknown => Stop::Unknown,
            _ => unreachable!(),
        }
    }
}
