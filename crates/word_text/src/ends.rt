//! The last line of a text.

ghost use Rattle.std.specs.Prelude.{◌≡◌, ◌++◌, IfOk, OnErr, OnOk};
ghost use Rattle.word_text.specs.Ends.{end_line};

use crate::numbers::put_number;
use ha_base::{Memory, Octets};
use std::alloc::Global;

#[tactic(auto, using(line_fields::proofs::WritingLaws::line_put))]
fn end_of(alloc: Global, count: u64) -> Result<Octets, Memory>
    ensures { IfOk result (λ text. text.octets ≡ end_line count) }
{
    let mut text = Octets::new(alloc);
    text.extend(b"end")?;
    put_number(alloc, &mut text, count)?;
    text.push(b'\n')?;
    Ok(text)
}

/// Appends the last line of a text, which says how many turns or messages it has. An error is want
/// of memory.
pub fn write_end(alloc: Global, count: u64, out: &mut Octets) -> Result<(), Memory>
    ensures ok { OnOk result (out.new.octets ≡ out.old.octets ++ end_line count) }
    ensures err { OnErr result (out.new.octets ≡ out.old.octets) }
{
    let text = end_of(alloc, count)?;
    out.extend(text.as_slice())
}
