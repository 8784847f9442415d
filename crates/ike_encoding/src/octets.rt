ghost use Rattle.std.specs.Prelude.{◌≡◌, ◌+◌, ◌++◌, ◌≤◌, length, IsOk, OnOk};
ghost use Rattle.ike_values.specs.Spelling.{two};

use ha_base::{Memory, Octets};

/// Appends a number in two octets, big-endian.
pub(crate) fn put_two(out: &mut Octets, number: u16) -> Result<(), Memory>
    ensures written { OnOk result (out.new.octets ≡ out.old.octets ++ two number) }
    ensures spare { OnOk result (out.old.spare ≤ out.new.spare + length (two number)) }
    ensures room { length (two number) ≤ out.old.spare → IsOk result }
{
    out.extend(&[(number / 256) as u8, (number % 256) as u8])
}
