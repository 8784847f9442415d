//! A small user of `spend_once`, whose edits show which programs do not compile.
#![tactic(auto)]

ghost use Rattle.std.specs.Prelude.{◌≡◌, ◌+◌, ◌<◌, ◌↔◌, IsSome, IfSome, OnSome};

use spend_once::Lot;

/// Draws a number, gives it up and says which it was, or answers `None` where the lot is at its
/// end.
pub fn draw_and_burn(lot: &mut Lot) -> Option<u64>
    ensures some { IsSome result ↔ (lot.old.next < lot.old.end) }
    ensures value { IfSome result (λ value. value ≡ lot.old.next) }
    ensures drawn { OnSome result (lot.new ≡ record lot.old { next = lot.old.next + 1 }) }
{
    let number = lot.draw()?;
    let value = number.value();
    number.burn();
    Some(value)
}
