//! A word and the number that it carries.

ghost use Rattle.std.specs.Prelude.{◌≡◌, [], ◌∷◌, ◌++◌, OnOk};
ghost use Rattle.std.specs.Fmt.{decimal};
ghost use Rattle.line_fields.specs.Writing.{with_words};

use ha_base::{Memory, Octets};
use std::alloc::Global;
use word_text::{put_number, put_word};

pub(crate) fn put_named_number(
    alloc: Global,
    out: &mut Octets,
    word: &[u8],
    number: u64,
) -> Result<(), Memory>
    ensures { OnOk result (out.new.octets
        ≡ with_words out.old.octets (word.now ∷ decimal number ∷ [])) }
{
    put_word(out, word)?;
    put_number(alloc, out, number)
}
