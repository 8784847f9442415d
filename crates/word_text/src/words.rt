//! Words that are given.

ghost use Rattle.std.specs.Prelude.{◌≡◌, ◌∷◌, ◌++◌, OnOk};

use ha_base::{Memory, Octets};

/// Appends a space and the word. An error is want of memory.
pub fn put_word(out: &mut Octets, word: &[u8]) -> Result<(), Memory>
    ensures { OnOk result (out.new.octets ≡ out.old.octets ++ (32 ∷ word.now)) }
{
    out.push(b' ')?;
    out.extend(word)
}
