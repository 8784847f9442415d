ghost use Rattle.std.specs.Prelude.{◌≡◌, ◌+◌, ◌-◌, ◌<◌, ◌≤◌, length, IfOk};
ghost use Rattle.ike_grammar.specs.Faults.{two_at};

use ha_base::{Memory, Octets};
use std::alloc::Global;

/// The place where what is left begins: `end` is the place where it ends.
pub(crate) fn place(end: usize, left: &[u8]) -> usize
    requires { length left.now ≤ end }
    ensures { result ≡ end - length left.now }
{
    end - left.len()
}

/// The number in two octets, big-endian.
pub(crate) fn two(bytes: &[u8], at: usize) -> u16
    requires { at + 1 < length bytes.now }
    ensures { result ≡ two_at bytes.now at }
{
    u16::from_be_bytes([bytes[at], bytes[at + 1]])
}

pub(crate) fn octets_of(alloc: Global, bytes: &[u8]) -> Result<Octets, Memory>
    ensures { IfOk result (λ o. o.octets ≡ bytes.now) }
{
    let mut octets = Octets::with_room(alloc, bytes.len())?;
    octets.extend(bytes)?;
    Ok(octets)
}
