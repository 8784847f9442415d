ghost use Rattle.std.specs.Prelude.{◌≡◌};

use ha_base::Memory;
use ike_values::{Bad, Reason};
use thiserror::Error;

/// Why nothing was read.
#[derive(Debug, Drop, Error)]
pub enum Unread {
    /// The octets spell no value.
    #[error("octet {}: {:?}", .0.place, .0.reason)]
    Bad(Bad),
    /// Memory was wanting.
    #[error("out of memory")]
    Memory(Memory),
}

impl From<Memory> for Unread {
    ghost use Rattle.std.specs.Prelude.{◌≡◌};
    ghost use Rattle.ike_grammar.specs.declared.fault.Unread.TheVariants as unread;

    ghost from_gives = { λ m e. e ≡ unread.Memory m };

    fn from(memory: Memory) -> Unread {
        Unread::Memory(memory)
    }
}

/// The octets are faulty there.
pub(crate) fn bad_at(place: usize, reason: Reason) -> Unread
    ensures { result ≡ Unread.Bad (record { place = place; reason = reason }) }
{
    Unread::Bad(Bad { place, reason })
}
